ghost use Rattle.std.specs.Prelude.{◌≡◌, ◌++◌, ◌-◌, min, IfOk, OnOk};
ghost use Rattle.law_checking.specs.Lines.{arity, taken, behind, part_of, parts_of, kids_of, is_upper, upper_tests};

use law_cert_text::TreeLine;
use law_checking::Part;
use law_sig::{NoMemory, Seq};
use std::alloc::Global;

/// How many trees stand below a line.
fn arity(line: &TreeLine) -> u64
    ensures { result ≡ arity line.now }
{
    match line {
        TreeLine::Split { test: _, count } => *count,
        TreeLine::Class(_) => 1,
        TreeLine::Leaf(_) => 0,
    }
}

/// Adds these numbers.
pub fn push_all(found: &mut Seq<u64>, numbers: &[u64]) -> Result<(), NoMemory>
    ensures { OnOk result (found.new ≡ found.old ++ numbers.now) }
{
    for number in numbers {
        found.push(*number)?;
    }
    Ok(())
}

/// Adds a part of a line.
fn push_part(found: &mut Seq<u64>, part: Part, line: &TreeLine) -> Result<(), NoMemory>
    ensures { OnOk result (found.new ≡ found.old ++ part_of part line.now) }
{
    match (part, line) {
        (Part::Schemas, TreeLine::Class(numbers)) => push_all(found, numbers.as_slice()),
        (Part::Leaves, TreeLine::Leaf(number)) => found.push(*number),
        (Part::Tests, TreeLine::Split { test, count: _ }) => found.push(*test),
        _ => Ok(()),
    }
}

/// A part of all lines.
pub fn parts_of(alloc: Global, part: Part, lines: &[TreeLine]) -> Result<Seq<u64>, NoMemory>
    ensures { IfOk result (λ found. found ≡ parts_of part lines.now) }
{
    let mut found = Seq::new(alloc);
    for line in lines {
        push_part(&mut found, part, line)?;
    }
    Ok(found)
}

/// A number that is cut off at another one.
fn at_most(number: u64, most: u64) -> u64
    ensures { result ≡ min number most }
{
    if number < most { number } else { most }
}

/// A part of the first tree, and the lines behind it.
pub fn first_tree<'l>(
    alloc: Global,
    part: Part,
    lines: &'l [TreeLine],
) -> Result<(Seq<u64>, &'l [TreeLine]), NoMemory>
    ensures parts { IfOk result (λ r. r.0 ≡ parts_of part (taken 1 lines.now)) }
    ensures behind { IfOk result (λ r. r.1.now ≡ behind 1 lines.now) }
{
    let mut found = Seq::new(alloc);
    let mut left = lines;
    let mut owed = 1u64;
    while owed > 0 {
        let Some((line, rest)) = left.split_first() else {
            return Ok((found, left));
        };
        push_part(&mut found, part, line)?;
        owed = at_most((owed - 1).saturating_add(arity(line)), rest.len() as u64);
        left = rest;
    }
    Ok((found, left))
}

/// A part of each of the first trees, so many.
pub fn kids_of(
    alloc: Global,
    part: Part,
    count: u64,
    lines: &[TreeLine],
) -> Result<Seq<Seq<u64>>, NoMemory>
    ensures { IfOk result (λ kids. kids ≡ kids_of part count lines.now) }
{
    let mut kids = Seq::new(alloc);
    let mut left = lines;
    let mut owed = count;
    while owed > 0 {
        if left.len() == 0 {
            return Ok(kids);
        }
        let (numbers, rest) = first_tree(alloc, part, left)?;
        kids.push(numbers)?;
        owed -= 1;
        left = rest;
    }
    Ok(kids)
}

/// Whether the first line that isn't a split is a class.
pub fn is_upper(lines: &[TreeLine]) -> bool
    ensures { result ≡ is_upper lines.now }
{
    for line in lines {
        match line {
            TreeLine::Split { test: _, count: _ } => continue,
            TreeLine::Class(_) => return true,
            TreeLine::Leaf(_) => return false,
        }
    }
    false
}

/// The tests of the splits above classes.
pub fn upper_tests(alloc: Global, lines: &[TreeLine]) -> Result<Seq<u64>, NoMemory>
    ensures { IfOk result (λ found. found ≡ upper_tests lines.now) }
{
    let mut found = Seq::new(alloc);
    let mut waiting = Seq::new(alloc);
    for line in lines {
        match line {
            TreeLine::Split { test, count: _ } => waiting.push(*test)?,
            TreeLine::Class(_) => {
                push_all(&mut found, waiting.as_slice())?;
                waiting = Seq::new(alloc);
            }
            TreeLine::Leaf(_) => waiting = Seq::new(alloc),
        }
    }
    Ok(found)
}
