ghost use Rattle.std.specs.Prelude.{◌≡◌, ◌++◌, map, IfOk, OnOk};
ghost use Rattle.law_typing.specs.Declarations.{gathered, sort_names};
ghost use Rattle.law_types.specs.Rows.{AreRows};
ghost use Rattle.law_typing.specs.Stated.{short, symbol_id, stated_tree, stated_symbols, size_in, budget_in, pairs_in, weight_of, explored_of, equation_of, stated_values, stated_pools, stated_rule, stated};

use crate::bodies::{filled, short, stated_tree, symbol_id};
use crate::check::lines_behind;
use crate::whole::{declared_in, sort_in};
use law_lines::{RawLine, RawTerm};
use law_sig::{Equation, NoMemory, PoolRule, Seq, Settings, SigParts, Sym, SymId, Text, Tree};
use law_typing::Whole;
use std::alloc::Global;

/// The symbols with their bodies.
fn stated_symbols(
    alloc: Global,
    text: &Whole,
    rows: &[Seq<SymId>],
    lines: &[RawLine],
) -> Result<Seq<Sym>, NoMemory>
    requires sorts { text.now.sorts ≡ sort_names lines.now }
    requires rows { AreRows text.now rows.now }
    ensures { IfOk result (λ symbols. symbols ≡ stated_symbols text.now 0 lines.now) }
{
    let count = text.sorts.len();
    let mut before = 0u32;
    let mut symbols = Seq::new(alloc);
    for (at, line) in lines.iter().enumerate() {
        let rest = lines_behind(lines, at);
        let declared = declared_in(alloc, &text.sorts, before, line)?;
        if let Some(symbol) = filled(alloc, text, rows, rest, declared)? {
            symbols.push(symbol)?;
        }
        if sort_in(line).is_some() && before < count {
            before += 1;
        }
    }
    Ok(symbols)
}

fn size_in(lines: &[RawLine]) -> u64
    ensures { result ≡ size_in lines.now }
{
    for line in lines {
        if let RawLine::Size(n) = line {
            return *n;
        }
    }
    0
}

fn budget_in(lines: &[RawLine]) -> u64
    ensures { result ≡ budget_in lines.now }
{
    for line in lines {
        if let RawLine::Budget(n) = line {
            return *n;
        }
    }
    0
}

fn pairs_in(lines: &[RawLine]) -> u64
    ensures { result ≡ pairs_in lines.now }
{
    for line in lines {
        if let RawLine::Pairs(n) = line {
            return *n;
        }
    }
    0
}

/// Numbers in 32 bits.
fn shorts(alloc: Global, numbers: &[u64]) -> Result<Seq<u32>, NoMemory>
    ensures { IfOk result (λ found. found ≡ map short numbers.now) }
{
    let mut found = Seq::new(alloc);
    for n in numbers {
        found.push(short(*n))?;
    }
    Ok(found)
}

/// The weights of the symbols.
fn weights(alloc: Global, lines: &[RawLine]) -> Result<Seq<u32>, NoMemory>
    ensures { IfOk result (λ found. found ≡ gathered weight_of lines.now) }
{
    let mut found = Seq::new(alloc);
    for line in lines {
        match line {
            RawLine::ConLine { name: _, args: _ } => found.push(1)?,
            RawLine::ConLine3 {
                weight,
                name: _,
                args: _,
            } => found.push(short(*weight))?,
            RawLine::FunLine {
                name: _,
                args: _,
                result: _,
            } => found.push(1)?,
            RawLine::FunLine3 {
                weight,
                name: _,
                args: _,
                result: _,
            } => found.push(short(*weight))?,
            _ => {}
        }
    }
    Ok(found)
}

/// Adds the numbers of these symbols.
fn push_symbols(found: &mut Seq<SymId>, text: &Whole, names: &[Text]) -> Result<(), NoMemory>
    ensures { OnOk result (found.new ≡ found.old ++ map (symbol_id text.now) names.now) }
{
    for name in names {
        found.push(symbol_id(text, name))?;
    }
    Ok(())
}

/// The explored symbols.
fn explored(alloc: Global, text: &Whole, lines: &[RawLine]) -> Result<Seq<SymId>, NoMemory>
    ensures { IfOk result (λ found. found ≡ gathered (explored_of text.now) lines.now) }
{
    let mut found = Seq::new(alloc);
    for line in lines {
        if let RawLine::Explore(names) = line {
            push_symbols(&mut found, text, names.as_slice())?;
        }
    }
    Ok(found)
}

/// The background equations.
fn background(alloc: Global, text: &Whole, lines: &[RawLine]) -> Result<Seq<Equation>, NoMemory>
    ensures { IfOk result (λ found. found ≡ gathered (equation_of text.now) lines.now) }
{
    let mut found = Seq::new(alloc);
    for line in lines {
        if let RawLine::Background { left, right } = line {
            let left = stated_tree(alloc, text, left)?;
            let right = stated_tree(alloc, text, right)?;
            found.push(Equation { left, right })?;
        }
    }
    Ok(found)
}

/// The values of one line.
fn values(alloc: Global, text: &Whole, terms: &[RawTerm]) -> Result<Seq<Tree>, NoMemory>
    ensures { IfOk result (λ found. found ≡ map (stated_tree text.now) terms.now) }
{
    let mut found = Seq::new(alloc);
    for term in terms {
        found.push(stated_tree(alloc, text, term)?)?;
    }
    Ok(found)
}

/// The values of the lines of values that come first.
fn pool(alloc: Global, text: &Whole, lines: &[RawLine]) -> Result<Seq<Seq<Tree>>, NoMemory>
    ensures { IfOk result (λ found. found ≡ stated_values text.now lines.now) }
{
    let mut found = Seq::new(alloc);
    for line in lines {
        let RawLine::Values {
            sort: _,
            values: terms,
        } = line
        else {
            return Ok(found);
        };
        found.push(values(alloc, text, terms.as_slice())?)?;
    }
    Ok(found)
}

/// The pools that stand in the text.
fn pools(alloc: Global, text: &Whole, lines: &[RawLine]) -> Result<Seq<Seq<Seq<Tree>>>, NoMemory>
    ensures { IfOk result (λ found. found ≡ stated_pools text.now lines.now) }
{
    let mut found = Seq::new(alloc);
    for (at, line) in lines.iter().enumerate() {
        if let RawLine::Pool = line {
            found.push(pool(alloc, text, lines_behind(lines, at))?)?;
        }
    }
    Ok(found)
}

/// Where the test values come from.
fn pool_rule(alloc: Global, text: &Whole, lines: &[RawLine]) -> Result<PoolRule, NoMemory>
    ensures { IfOk result (λ rule. rule ≡ stated_rule text.now lines.now) }
{
    for (at, line) in lines.iter().enumerate() {
        match line {
            RawLine::PoolsSeed {
                seed,
                height,
                count,
            } => {
                return Ok(PoolRule::Seeded {
                    seed: *seed,
                    height: short(*height),
                    count: short(*count),
                });
            }
            RawLine::PoolsGiven => {
                return Ok(PoolRule::Given(pools(alloc, text, lines_behind(lines, at))?));
            }
            _ => {}
        }
    }
    Ok(PoolRule::Given(Seq::new(alloc)))
}

/// The settings.
fn settings(alloc: Global, text: &Whole, lines: &[RawLine]) -> Result<Settings, NoMemory>
    ensures { IfOk result (λ settings. settings ≡ (stated text.now lines.now).settings) }
{
    Ok(Settings {
        vars: shorts(alloc, text.vars.as_slice())?,
        size: short(size_in(lines)),
        width: shorts(alloc, text.widths.as_slice())?,
        budget: budget_in(lines),
        pairs: short(pairs_in(lines)),
        weights: weights(alloc, lines)?,
        explored: explored(alloc, text, lines)?,
        background: background(alloc, text, lines)?,
        pools: pool_rule(alloc, text, lines)?,
    })
}

/// What the lines of a text without faults state.
pub(crate) fn stated(
    alloc: Global,
    text: Whole,
    rows: &[Seq<SymId>],
    lines: &[RawLine],
) -> Result<SigParts, NoMemory>
    requires sorts { text.sorts ≡ sort_names lines.now }
    requires rows { AreRows text rows.now }
    ensures { IfOk result (λ parts. parts ≡ stated text lines.now) }
{
    let symbols = stated_symbols(alloc, &text, rows, lines)?;
    let settings = settings(alloc, &text, lines)?;
    Ok(SigParts {
        sort_names: text.sorts.into_list(),
        symbol_names: text.names.into_list(),
        symbols,
        settings,
    })
}
