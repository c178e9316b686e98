ghost use Rattle.std.specs.Prelude.{◌≡◌, ◌++◌, ◌∷◌, [], map, decimal, codes, IfOk, OnOk};
ghost use Rattle.std.specs.List.{flat_map};
ghost use Rattle.law_lines.specs.Spelling.{arg_spelling, joined, sig_spelling, spaced, term_words, text_of};
ghost use Rattle.law_cert_text.specs.Spelling.{bind_text, cert_spelling, dir_text, dotted, entry_lines, entry_spelling, equation_words, list_spelling, mark_text, node_spelling, pool_lines, pos_text, step_spelling, tree_lines, values_spelling};
ghost use Rattle.law_cert_text.specs.Certificates.{IsCertText, IsLaw, IsListText};

use law_cert_text::{Cert, Entry, LawList, Mark, RawBind, RawStep, RawValues, SortTree, TreeLine};
use law_lines::RawTerm;
use law_read::{write_arg, write_sig, write_term};
use law_sig::{Dir, NoMemory, Seq, Text};
use law_text::put_number;
use std::alloc::Global;

/// The text of a certificate.
pub fn write_cert(alloc: Global, cert: &Cert) -> Result<Text, NoMemory>
    requires { IsCertText cert.now }
    ensures { IfOk result (λ text. text ≡ cert_spelling cert.now) }
{
    let mut text = Text::new(alloc);
    text.push_slice(b"certificate 1\n")?;
    let sig = write_sig(alloc, &cert.sig)?;
    text.push_slice(sig.as_slice())?;
    put_pools(alloc, &mut text, cert.pools.as_slice())?;
    put_entries(alloc, &mut text, cert.entries.as_slice())?;
    put_trees(&mut text, cert.trees.as_slice())?;
    text.push_slice(b"end\n")?;
    Ok(text)
}

/// The text of a law list.
pub fn write_list(alloc: Global, list: &LawList) -> Result<Text, NoMemory>
    requires { IsListText list.now }
    ensures { IfOk result (λ text. text ≡ list_spelling list.now) }
{
    let mut text = Text::new(alloc);
    text.push_slice(b"lawlist 1\n")?;
    let sig = write_sig(alloc, &list.sig)?;
    text.push_slice(sig.as_slice())?;
    put_pools(alloc, &mut text, list.pools.as_slice())?;
    put_entries(alloc, &mut text, list.laws.as_slice())?;
    text.push_slice(b"end\n")?;
    Ok(text)
}

/// The line of a law, with its line feed.
pub fn write_law(alloc: Global, law: &Entry) -> Result<Text, NoMemory>
    requires { IsLaw law.now }
    ensures { IfOk result (λ text. text ≡ text_of (entry_lines law.now)) }
{
    let mut text = Text::new(alloc);
    put_entry(alloc, &mut text, law)?;
    Ok(text)
}

fn put_pools(alloc: Global, out: &mut Text, pools: &[Seq<RawValues>]) -> Result<(), NoMemory>
    ensures { OnOk result (out.new ≡ out.old ++ text_of (flat_map pool_lines pools.now)) }
{
    for pool in pools {
        out.push_slice(b"pool\n")?;
        put_pool(alloc, out, pool.as_slice())?;
    }
    Ok(())
}

fn put_pool(alloc: Global, out: &mut Text, pool: &[RawValues]) -> Result<(), NoMemory>
    ensures { OnOk result (out.new ≡ out.old ++ text_of (map values_spelling pool.now)) }
{
    for values in pool {
        out.push_slice(b"values")?;
        put_word(out, values.sort.as_slice())?;
        put_args(alloc, out, values.values.as_slice())?;
        out.push(b'\n')?;
    }
    Ok(())
}

fn put_entries(alloc: Global, out: &mut Text, entries: &[Entry]) -> Result<(), NoMemory>
    ensures { OnOk result (out.new ≡ out.old ++ text_of (flat_map entry_lines entries.now)) }
{
    for entry in entries {
        put_entry(alloc, out, entry)?;
    }
    Ok(())
}

fn put_trees(out: &mut Text, trees: &[SortTree]) -> Result<(), NoMemory>
    ensures { OnOk result (out.new ≡ out.old ++ text_of (flat_map tree_lines trees.now)) }
{
    for tree in trees {
        out.push_slice(b"tree")?;
        put_word(out, tree.sort.as_slice())?;
        out.push(b'\n')?;
        put_nodes(out, tree.lines.as_slice())?;
    }
    Ok(())
}

/// An entry: its first line, and a line for each step.
fn put_entry(alloc: Global, out: &mut Text, entry: &Entry) -> Result<(), NoMemory>
    ensures { OnOk result (out.new ≡ out.old ++ text_of (entry_lines entry.now)) }
{
    put_head(alloc, out, entry)?;
    out.push(b'\n')?;
    match entry {
        Entry::Lemma { steps, .. } => put_steps(alloc, out, steps.as_slice()),
        Entry::Killed { steps, .. } => put_steps(alloc, out, steps.as_slice()),
        Entry::Moved { steps, .. } => put_steps(alloc, out, steps.as_slice()),
        _ => Ok(()),
    }
}

fn put_head(alloc: Global, out: &mut Text, entry: &Entry) -> Result<(), NoMemory>
    ensures { OnOk result (out.new ≡ out.old ++ entry_spelling entry.now) }
{
    match entry {
        Entry::Law {
            number,
            mark,
            left,
            right,
        } => {
            out.push_slice(b"law")?;
            put_numeral(out, *number)?;
            put_word(out, mark_text(*mark))?;
            put_equation(alloc, out, left, right)
        }
        Entry::Lemma {
            number,
            left,
            right,
            steps: _,
        } => {
            out.push_slice(b"lemma")?;
            put_numeral(out, *number)?;
            put_equation(alloc, out, left, right)
        }
        Entry::Spread(term) => {
            out.push_slice(b"spread")?;
            put_words(alloc, out, term)
        }
        Entry::Killed {
            general,
            target,
            steps: _,
        } => {
            out.push_slice(b"killed")?;
            put_equation(alloc, out, general, target)
        }
        Entry::Live(term) => {
            out.push_slice(b"live")?;
            put_words(alloc, out, term)
        }
        Entry::Moved {
            term,
            target,
            steps: _,
        } => {
            out.push_slice(b"moved")?;
            put_equation(alloc, out, term, target)
        }
    }
}

/// Both sides of an equation, each word behind a space.
fn put_equation(
    alloc: Global,
    out: &mut Text,
    left: &RawTerm,
    right: &RawTerm,
) -> Result<(), NoMemory>
    ensures { OnOk result (out.new ≡ out.old ++ spaced (equation_words left.now right.now)) }
{
    put_words(alloc, out, left)?;
    put_word(out, b"=")?;
    put_words(alloc, out, right)
}

fn mark_text(mark: Mark) -> &'static [u8]
    ensures { result.now ≡ mark_text mark }
{
    match mark {
        Mark::Saturated => b"saturated",
        Mark::Spent => b"spent",
        Mark::Aside => b"aside",
        Mark::Plain => b"plain",
    }
}

fn dir_text(dir: Dir) -> &'static [u8]
    ensures { result.now ≡ dir_text dir }
{
    match dir {
        Dir::LeftToRight => b"lr",
        Dir::RightToLeft => b"rl",
    }
}

fn put_steps(alloc: Global, out: &mut Text, steps: &[RawStep]) -> Result<(), NoMemory>
    ensures { OnOk result (out.new ≡ out.old ++ text_of (map step_spelling steps.now)) }
{
    for step in steps {
        put_step(alloc, out, step)?;
        out.push(b'\n')?;
    }
    Ok(())
}

fn put_step(alloc: Global, out: &mut Text, step: &RawStep) -> Result<(), NoMemory>
    ensures { OnOk result (out.new ≡ out.old ++ step_spelling step.now) }
{
    out.push_slice(b"step ")?;
    put_pos(out, step.pos.as_slice())?;
    put_numeral(out, step.eq)?;
    put_word(out, dir_text(step.dir))?;
    put_binds(alloc, out, step.binds.as_slice())
}

fn put_pos(out: &mut Text, pos: &[u32]) -> Result<(), NoMemory>
    ensures { OnOk result (out.new ≡ out.old ++ pos_text pos.now) }
{
    match pos {
        [] => out.push(b'-'),
        [first, rest @ ..] => {
            put_number(out, u64::from(*first))?;
            put_dotted(out, rest)
        }
    }
}

/// Each argument number behind a dot.
fn put_dotted(out: &mut Text, numbers: &[u32]) -> Result<(), NoMemory>
    ensures { OnOk result (out.new ≡ out.old ++ dotted numbers.now) }
{
    for number in numbers {
        out.push(b'.')?;
        put_number(out, u64::from(*number))?;
    }
    Ok(())
}

/// Each variable and its term, both behind a space.
fn put_binds(alloc: Global, out: &mut Text, binds: &[RawBind]) -> Result<(), NoMemory>
    ensures { OnOk result (out.new ≡ out.old ++ spaced (map bind_text binds.now)) }
{
    for bind in binds {
        put_word(out, bind.sort.as_slice())?;
        out.push(b'.')?;
        put_number(out, u64::from(bind.index))?;
        out.push(b' ')?;
        let term = write_arg(alloc, &bind.term)?;
        out.push_slice(term.as_slice())?;
    }
    Ok(())
}

fn put_nodes(out: &mut Text, nodes: &[TreeLine]) -> Result<(), NoMemory>
    ensures { OnOk result (out.new ≡ out.old ++ text_of (map node_spelling nodes.now)) }
{
    for node in nodes {
        put_node(out, node)?;
        out.push(b'\n')?;
    }
    Ok(())
}

fn put_node(out: &mut Text, node: &TreeLine) -> Result<(), NoMemory>
    ensures { OnOk result (out.new ≡ out.old ++ node_spelling node.now) }
{
    match node {
        TreeLine::Split { test, count } => {
            out.push_slice(b"split")?;
            put_numeral(out, *test)?;
            put_numeral(out, *count)
        }
        TreeLine::Class(numbers) => {
            out.push_slice(b"class")?;
            put_numerals(out, numbers.as_slice())
        }
        TreeLine::Leaf(number) => {
            out.push_slice(b"leaf")?;
            put_numeral(out, *number)
        }
    }
}

/// Each number behind a space.
fn put_numerals(out: &mut Text, numbers: &[u64]) -> Result<(), NoMemory>
    ensures { OnOk result (out.new ≡ out.old ++ spaced (map decimal numbers.now)) }
{
    for number in numbers {
        put_numeral(out, *number)?;
    }
    Ok(())
}

/// A term, each word behind a space.
fn put_words(alloc: Global, out: &mut Text, term: &RawTerm) -> Result<(), NoMemory>
    ensures { OnOk result (out.new ≡ out.old ++ spaced (term_words term.now)) }
{
    let words = write_term(alloc, term)?;
    out.push(b' ')?;
    out.push_slice(words.as_slice())
}

/// Each term as an argument, behind a space.
fn put_args(alloc: Global, out: &mut Text, terms: &[RawTerm]) -> Result<(), NoMemory>
    ensures { OnOk result (out.new ≡ out.old ++ spaced (map arg_spelling terms.now)) }
{
    for term in terms {
        let arg = write_arg(alloc, term)?;
        out.push(b' ')?;
        out.push_slice(arg.as_slice())?;
    }
    Ok(())
}

/// A word, behind a space.
fn put_word(out: &mut Text, word: &[u8]) -> Result<(), NoMemory>
    ensures { OnOk result (out.new ≡ out.old ++ 32 ∷ word.now) }
{
    out.push(b' ')?;
    out.push_slice(word)
}

/// A number, behind a space.
fn put_numeral(out: &mut Text, n: u64) -> Result<(), NoMemory>
    ensures { OnOk result (out.new ≡ out.old ++ 32 ∷ decimal n) }
{
    out.push(b' ')?;
    put_number(out, n)
}
