ghost use Rattle.std.specs.Prelude.{◌≡◌, ◌+◌, ◌<◌, drop, length, None, IfOk, IfErr};
ghost use Rattle.law_lines.specs.Signature.{IsRawSig};
ghost use Rattle.law_types.specs.Heights.{AreLow};
ghost use Rattle.law_types.specs.Rows.{AreRows};
ghost use Rattle.law_typing.specs.Declarations.{whole};
ghost use Rattle.law_typing.specs.Typed.{IsTypedAs, StatesNothing};
ghost use Rattle.law_typing.specs.LineFaults.{setting_fault, declared_fault, line_fault, nothing_seen, faults_from, first_fault, TellsFault};

use crate::cases::{case_fault, match_fault, rows};
use crate::lines::{body_fault, con_fault, fun_fault, out_of, own_sorts, sort_fault};
use crate::seen::{nothing_seen, seen_after};
use crate::stated::stated;
use crate::tail::{background_fault, explored_faults, pool_fault, seed_fault, values_fault};
use crate::terms::sort_at;
use crate::valued::valued;
use crate::whole::read_whole;
use law_lines::{RawLine, RawSig};
use law_sig::{NoMemory, Seq, Sig, SymId};
use law_typing::{Seen, TypeErr, TypeKind, Whole};
use std::alloc::Global;

/// The fault of a line of settings.
fn setting_fault(line: &RawLine) -> Option<TypeKind>
    ensures { result ≡ setting_fault line.now }
{
    match line {
        RawLine::Vars(n) => out_of(0, 8, *n),
        RawLine::Size(n) => out_of(1, 32, *n),
        RawLine::Width(n) => out_of(1, 16, *n),
        RawLine::Budget(n) => out_of(1, 1000000, *n),
        RawLine::Pairs(n) => out_of(0, 4096, *n),
        _ => None,
    }
}

/// The first fault of a line that declares a sort or a symbol.
fn declared_fault(text: &Whole, has: &[bool], seen: &Seen, line: &RawLine) -> Option<TypeKind>
    requires { AreLow text.now (length text.now.sorts + 1) has.now }
    ensures { result ≡ declared_fault text.now seen.now line.now }
{
    match line {
        RawLine::SortLine(name) => sort_fault(text, has, seen, name),
        RawLine::SortLine2 { name, vars, width } => {
            let range = out_of(0, 8, *vars).or(out_of(1, 16, *width));
            sort_fault(text, has, seen, name).or(range)
        }
        RawLine::ConLine { name, args } => con_fault(text, seen, name, args.as_slice()),
        RawLine::ConLine3 { weight, name, args } => {
            con_fault(text, seen, name, args.as_slice()).or(out_of(1, 4, *weight))
        }
        RawLine::FunLine { name, args, result } => {
            fun_fault(text, seen, name, args.as_slice(), result)
        }
        RawLine::FunLine3 {
            weight,
            name,
            args,
            result,
        } => fun_fault(text, seen, name, args.as_slice(), result).or(out_of(1, 4, *weight)),
        _ => None,
    }
}

/// The first fault of a line, by what stands before it, behind it and in the whole text.
fn line_fault(
    alloc: Global,
    text: &Whole,
    has: &[bool],
    rows: &[Seq<SymId>],
    seen: &Seen,
    rest: &[RawLine],
    line: &RawLine,
) -> Result<Option<TypeKind>, NoMemory>
    requires has { AreLow text.now (length text.now.sorts + 1) has.now }
    requires rows { AreRows text.now rows.now }
    ensures { IfOk result (λ fault. fault ≡ line_fault text.now seen.now rest.now line.now) }
{
    match line {
        RawLine::PoolsSeed {
            seed: _,
            height,
            count,
        } => seed_fault(alloc, text, has, *height, *count),
        RawLine::MatchLine(place) => {
            let sort = sort_at(own_sorts(text, seen), *place);
            match_fault(alloc, text, rows, rest, sort)
        }
        RawLine::BodyLine(body) => body_fault(alloc, text, seen, &[], body),
        RawLine::CaseLine { con, body } => case_fault(alloc, text, seen, con, body),
        RawLine::Explore(names) => explored_faults(alloc, text, names.as_slice()),
        RawLine::Background { left, right } => Ok(background_fault(alloc, text, left, right)),
        RawLine::Pool => Ok(pool_fault(text, seen, rest)),
        RawLine::Values { sort, values } => {
            Ok(values_fault(alloc, text, seen, sort, values.as_slice()))
        }
        _ => Ok(setting_fault(line).or(declared_fault(text, has, seen, line))),
    }
}

/// The lines behind this one.
pub(crate) fn lines_behind(lines: &[RawLine], at: usize) -> &[RawLine]
    requires { at < length lines.now }
    ensures { result.now ≡ drop (at + 1) lines.now }
{
    &lines[at + 1..]
}

/// Goes through the lines of a text.
fn walk(
    alloc: Global,
    text: &Whole,
    has: &[bool],
    rows: &[Seq<SymId>],
    lines: &[RawLine],
) -> Result<(), TypeErr>
    requires has { AreLow text.now (length text.now.sorts + 1) has.now }
    requires rows { AreRows text.now rows.now }
    ensures { TellsFault result (faults_from text.now nothing_seen 1 lines.now) }
{
    let mut seen = nothing_seen(alloc);
    for (at, line) in lines.iter().enumerate() {
        let rest = lines_behind(lines, at);
        let fault = line_fault(alloc, text, has, rows, &seen, rest, line)?;
        if let Some(kind) = fault {
            let line = at as u64 + 1;
            return Err(TypeErr::At { line, kind });
        }
        seen = seen_after(alloc, seen, line)?;
    }
    Ok(())
}

/// What a text declares, with the tables that going through its lines needs.
#[derive(Drop)]
struct Prepared {
    text: Whole,
    has: Vec<bool>,
    rows: Seq<Seq<SymId>>,
}

fn prepare(alloc: Global, lines: &[RawLine]) -> Result<Prepared, NoMemory>
    ensures text { IfOk result (λ p. p.text ≡ whole lines.now) }
    ensures has { IfOk result (λ p. AreLow p.text (length p.text.sorts + 1) p.has.items) }
    ensures rows { IfOk result (λ p. AreRows p.text p.rows) }
{
    let text = read_whole(alloc, lines)?;
    let has = valued(alloc, &text)?;
    let rows = rows(alloc, &text)?;
    Ok(Prepared { text, has, rows })
}

/// The signature that the lines of a text without faults state.
fn build_stated(alloc: Global, prepared: Prepared, lines: &[RawLine]) -> Result<Sig, NoMemory>
    requires raw { IsRawSig lines.now }
    requires text { prepared.text ≡ whole lines.now }
    requires rows { AreRows prepared.text prepared.rows }
    requires passed { first_fault lines.now ≡ None }
    ensures { IfOk result (λ sig. IsTypedAs lines.now sig) }
{
    let Prepared { text, has: _, rows } = prepared;
    let parts = stated(alloc, text, rows.as_slice(), lines)?;
    Ok(Sig::build(alloc, parts)?)
}

/// The signature that a text states; else the first line that shows a fault, with its first fault, and no signature is
/// stated.
pub fn check_sig(alloc: Global, raw: &RawSig) -> Result<Sig, TypeErr>
    ensures typed { IfOk result (λ sig. IsTypedAs raw.now sig) }
    ensures first { TellsFault result (first_fault raw.now) }
    ensures nothing { IfErr result (λ e. StatesNothing raw.now e) }
{
    let lines = raw.lines();
    let prepared = prepare(alloc, lines)?;
    let (text, has, rows) = (&prepared.text, &prepared.has, &prepared.rows);
    if let Err(e) = walk(alloc, text, has.as_slice(), rows.as_slice(), lines) {
        return Err(e);
    }
    match build_stated(alloc, prepared, lines) {
        Ok(sig) => Ok(sig),
        Err(NoMemory) => Err(TypeErr::NoMemory),
    }
}
