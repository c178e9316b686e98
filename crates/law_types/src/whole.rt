ghost use Rattle.std.specs.Prelude.{◌≡◌, length, map, IfOk};
ghost use Rattle.std.specs.Option.{option_copied};
ghost use Rattle.law_typing.specs.Declarations.{sort_id, sort_in, symbol_in, declared_in, constructor, function, sort_names, symbol_names, symbols_from, gathered, vars_in, vars_of, width_in, width_of, whole};

use law_lines::RawLine;
use law_sig::{Con, Fun, NoMemory, Seq, SortId, Sym, Text};
use law_typing::{Names, Whole};
use std::alloc::Global;

/// What these lines declare.
pub(crate) fn read_whole(alloc: Global, lines: &[RawLine]) -> Result<Whole, NoMemory>
    ensures { IfOk result (λ text. text ≡ whole lines.now) }
{
    let sorts = sort_names(alloc, lines)?;
    let symbols = symbols(alloc, &sorts, lines)?;
    Ok(Whole {
        sorts,
        names: symbol_names(alloc, lines)?,
        symbols,
        vars: all_vars(alloc, lines)?,
        widths: all_widths(alloc, lines)?,
    })
}

/// The name of the sort that a line declares.
pub(crate) fn sort_in(line: &RawLine) -> Option<&Text>
    ensures { option_copied result ≡ sort_in line.now }
{
    match line {
        RawLine::SortLine(name) => Some(name),
        RawLine::SortLine2 {
            name,
            vars: _,
            width: _,
        } => Some(name),
        _ => None,
    }
}

/// The name of the symbol that a line declares.
fn symbol_in(line: &RawLine) -> Option<&Text>
    ensures { option_copied result ≡ symbol_in line.now }
{
    match line {
        RawLine::ConLine { name, args: _ } => Some(name),
        RawLine::ConLine3 {
            weight: _,
            name,
            args: _,
        } => Some(name),
        RawLine::FunLine {
            name,
            args: _,
            result: _,
        } => Some(name),
        RawLine::FunLine3 {
            weight: _,
            name,
            args: _,
            result: _,
        } => Some(name),
        _ => None,
    }
}

fn sort_names(alloc: Global, lines: &[RawLine]) -> Result<Names, NoMemory>
    ensures { IfOk result (λ names. names ≡ sort_names lines.now) }
{
    let mut names = Names::new(alloc);
    for line in lines {
        if let Some(name) = sort_in(line) {
            names = names.with(alloc, name)?;
        }
    }
    Ok(names)
}

fn symbol_names(alloc: Global, lines: &[RawLine]) -> Result<Names, NoMemory>
    ensures { IfOk result (λ names. names ≡ symbol_names lines.now) }
{
    let mut names = Names::new(alloc);
    for line in lines {
        if let Some(name) = symbol_in(line) {
            names = names.with(alloc, name)?;
        }
    }
    Ok(names)
}

/// The number of a sort, and for a name that isn't a sort the number after the last one.
pub(crate) fn sort_id(sorts: &Names, name: &Text) -> SortId
    ensures { result ≡ sort_id sorts.now name.now }
{
    match sorts.find(name) {
        Some(number) => SortId(number),
        None => SortId(sorts.len()),
    }
}

fn sort_ids(alloc: Global, sorts: &Names, names: &[Text]) -> Result<Seq<SortId>, NoMemory>
    ensures { IfOk result (λ ids. ids ≡ map (sort_id sorts.now) names.now) }
{
    let mut ids = Seq::new(alloc);
    for name in names {
        ids.push(sort_id(sorts, name))?;
    }
    Ok(ids)
}

fn constructor(alloc: Global, sorts: &Names, before: u32, args: &[Text]) -> Result<Sym, NoMemory>
    ensures { IfOk result (λ symbol. symbol ≡ constructor sorts.now before args.now) }
{
    Ok(Sym::Con(Con {
        sort: SortId(before.saturating_sub(1)),
        args: sort_ids(alloc, sorts, args)?,
    }))
}

fn function(alloc: Global, sorts: &Names, args: &[Text], gives: &Text) -> Result<Sym, NoMemory>
    ensures { IfOk result (λ symbol. symbol ≡ function sorts.now args.now gives.now) }
{
    Ok(Sym::Fun(Fun {
        args: sort_ids(alloc, sorts, args)?,
        result: sort_id(sorts, gives),
        place: None,
        cases: Seq::new(alloc),
    }))
}

/// The symbol that a line declares, where so many lines of sorts stand before it.
pub(crate) fn declared_in(
    alloc: Global,
    sorts: &Names,
    before: u32,
    line: &RawLine,
) -> Result<Option<Sym>, NoMemory>
    ensures { IfOk result (λ symbol. symbol ≡ declared_in sorts.now before line.now) }
{
    match line {
        RawLine::ConLine { name: _, args } => {
            Ok(Some(constructor(alloc, sorts, before, args.as_slice())?))
        }
        RawLine::ConLine3 {
            weight: _,
            name: _,
            args,
        } => Ok(Some(constructor(alloc, sorts, before, args.as_slice())?)),
        RawLine::FunLine {
            name: _,
            args,
            result,
        } => Ok(Some(function(alloc, sorts, args.as_slice(), result)?)),
        RawLine::FunLine3 {
            weight: _,
            name: _,
            args,
            result,
        } => Ok(Some(function(alloc, sorts, args.as_slice(), result)?)),
        _ => Ok(None),
    }
}

fn symbols(alloc: Global, sorts: &Names, lines: &[RawLine]) -> Result<Seq<Sym>, NoMemory>
    requires { sorts.now ≡ sort_names lines.now }
    ensures { IfOk result (λ symbols. symbols ≡ symbols_from sorts.now 0 lines.now) }
{
    let count = sorts.len();
    let mut before = 0u32;
    let mut symbols = Seq::new(alloc);
    for line in lines {
        if let Some(symbol) = declared_in(alloc, sorts, before, line)? {
            symbols.push(symbol)?;
        }
        if sort_in(line).is_some() && before < count {
            before += 1;
        }
    }
    Ok(symbols)
}

fn vars_in(lines: &[RawLine]) -> u64
    ensures { result ≡ vars_in lines.now }
{
    for line in lines {
        if let RawLine::Vars(n) = line {
            return *n;
        }
    }
    0
}

fn width_in(lines: &[RawLine]) -> u64
    ensures { result ≡ width_in lines.now }
{
    for line in lines {
        if let RawLine::Width(n) = line {
            return *n;
        }
    }
    0
}

fn all_vars(alloc: Global, lines: &[RawLine]) -> Result<Seq<u64>, NoMemory>
    ensures { IfOk result (λ vars. vars ≡ gathered (vars_of (vars_in lines.now)) lines.now) }
{
    let common = vars_in(lines);
    let mut found = Seq::new(alloc);
    for line in lines {
        match line {
            RawLine::SortLine(_) => found.push(common)?,
            RawLine::SortLine2 {
                name: _,
                vars,
                width: _,
            } => found.push(*vars)?,
            _ => {}
        }
    }
    Ok(found)
}

fn all_widths(alloc: Global, lines: &[RawLine]) -> Result<Seq<u64>, NoMemory>
    ensures { IfOk result (λ widths. widths ≡ gathered (width_of (width_in lines.now)) lines.now) }
{
    let common = width_in(lines);
    let mut found = Seq::new(alloc);
    for line in lines {
        match line {
            RawLine::SortLine(_) => found.push(common)?,
            RawLine::SortLine2 {
                name: _,
                vars: _,
                width,
            } => found.push(*width)?,
            _ => {}
        }
    }
    Ok(found)
}
