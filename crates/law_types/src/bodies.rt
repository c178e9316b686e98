ghost use Rattle.std.specs.Prelude.{◌≡◌, [], ◌∷◌, Some, map, slice_get, IfOk};
ghost use Rattle.std.specs.Option.{option_copied};
ghost use Rattle.law_sig.specs.WellFormed.{is_function};
ghost use Rattle.law_typing.specs.Names.{number_of};
ghost use Rattle.law_types.specs.Rows.{AreRows};
ghost use Rattle.law_typing.specs.TermFaults.{symbol_of};
ghost use Rattle.law_typing.specs.LineFaults.{case_names};
ghost use Rattle.law_typing.specs.Stated.{short, symbol_id, tree_over, stated_tree, symbol_body, body_over, stated_body, case_body, stated_case, stated_cases, stated_bodies, stated_place, filled};

use crate::cases::{case_names, constructors};
use crate::terms::{is_function, sort_at};
use crate::whole::sort_id;
use law_lines::{RawHead, RawLine, RawTerm};
use law_sig::{Body, Fun, NoMemory, Seq, SortId, Sym, SymId, Text, Tree};
use law_typing::{Names, Whole};
use std::alloc::Global;

/// A number in 32 bits, or the last of these where it is larger.
pub(crate) fn short(n: u64) -> u32
    ensures { result ≡ short n }
{
    n.min(4294967295) as u32
}

/// The number of a symbol, and 0 where no symbol has the name.
pub(crate) fn symbol_id(text: &Whole, name: &Text) -> SymId
    ensures { result ≡ symbol_id text.now name.now }
{
    match text.names.find(name) {
        Some(number) => SymId(number),
        None => SymId(0),
    }
}

fn tree_over(text: &Whole, head: &RawHead, args: Seq<Tree>) -> Tree
    ensures { result ≡ tree_over text.now head.now args }
{
    match head {
        RawHead::Name(name) => Tree::App(symbol_id(text, name), args),
        RawHead::Var(sort, index) => Tree::Var(sort_id(&text.sorts, sort), *index),
        RawHead::Param(number) => Tree::Var(SortId(0), *number),
        RawHead::Field(number) => Tree::Var(SortId(0), *number),
    }
}

/// The term that a side or a value states.
pub(crate) fn stated_tree(alloc: Global, text: &Whole, term: &RawTerm) -> Result<Tree, NoMemory>
    ensures { IfOk result (λ tree. tree ≡ stated_tree text.now term.now) }
{
    let mut args = Seq::new(alloc);
    for arg in term.args.as_slice() {
        args.push(stated_tree(alloc, text, arg)?)?;
    }
    Ok(tree_over(text, &term.head, args))
}

/// Whether a name is that of a function.
fn names_function(text: &Whole, name: &Text) -> bool
    ensures { result ≡ is_function (symbol_of text.now (number_of text.now.names name.now)) }
{
    let Some(number) = text.names.find(name) else {
        return false;
    };
    match text.symbols.get(number as usize) {
        Some(symbol) => is_function(symbol),
        None => false,
    }
}

fn symbol_body(calls: bool, sym: SymId, args: Seq<Body>) -> Body
    ensures { result ≡ symbol_body calls sym args }
{
    if calls {
        Body::Call(sym, args)
    } else {
        Body::Make(sym, args)
    }
}

fn body_over(text: &Whole, head: &RawHead, args: Seq<Body>) -> Body
    ensures { result ≡ body_over text.now head.now args }
{
    match head {
        RawHead::Name(name) => {
            symbol_body(names_function(text, name), symbol_id(text, name), args)
        }
        RawHead::Var(_, index) => Body::Param(*index),
        RawHead::Param(number) => Body::Param(*number),
        RawHead::Field(number) => Body::Field(*number),
    }
}

/// The body that a written body states.
fn stated_body(alloc: Global, text: &Whole, term: &RawTerm) -> Result<Body, NoMemory>
    ensures { IfOk result (λ body. body ≡ stated_body text.now term.now) }
{
    let mut args = Seq::new(alloc);
    for arg in term.args.as_slice() {
        args.push(stated_body(alloc, text, arg)?)?;
    }
    Ok(body_over(text, &term.head, args))
}

fn case_body(alloc: Global, text: &Whole, line: &RawLine) -> Result<Body, NoMemory>
    ensures { IfOk result (λ body. body ≡ case_body text.now (Some line.now)) }
{
    match line {
        RawLine::CaseLine { con: _, body } => stated_body(alloc, text, body),
        _ => Ok(Body::Param(0)),
    }
}

fn line_at(lines: &[RawLine], at: u32) -> Option<&RawLine>
    ensures { option_copied result ≡ slice_get lines.now at }
{
    lines.get(at as usize)
}

/// The body of a constructor's case.
fn stated_case(
    alloc: Global,
    text: &Whole,
    names: &Names,
    lines: &[RawLine],
    con: SymId,
) -> Result<Body, NoMemory>
    requires { names.now ≡ case_names lines.now }
    ensures { IfOk result (λ body. body ≡ stated_case text.now lines.now con) }
{
    let Some(name) = text.names.get(con.0) else {
        return Ok(Body::Param(0));
    };
    let Some(at) = names.find(name) else {
        return Ok(Body::Param(0));
    };
    match line_at(lines, at) {
        Some(line) => case_body(alloc, text, line),
        None => Ok(Body::Param(0)),
    }
}

fn each_case(
    alloc: Global,
    text: &Whole,
    names: &Names,
    lines: &[RawLine],
    cons: &[SymId],
) -> Result<Seq<Body>, NoMemory>
    requires { names.now ≡ case_names lines.now }
    ensures { IfOk result (λ bodies. bodies ≡ map (stated_case text.now lines.now) cons.now) }
{
    let mut bodies = Seq::new(alloc);
    for con in cons {
        bodies.push(stated_case(alloc, text, names, lines, *con)?)?;
    }
    Ok(bodies)
}

/// The bodies of the cases before these lines, by the constructors of the sort at the match place.
fn stated_cases(
    alloc: Global,
    text: &Whole,
    rows: &[Seq<SymId>],
    lines: &[RawLine],
    sort: Option<SortId>,
) -> Result<Seq<Body>, NoMemory>
    requires { AreRows text.now rows.now }
    ensures { IfOk result (λ bodies. bodies ≡ stated_cases text.now lines.now sort) }
{
    let Some(sort) = sort else {
        return Ok(Seq::new(alloc));
    };
    let names = case_names(alloc, lines)?;
    match rows.get(sort.0 as usize) {
        Some(row) => each_case(alloc, text, &names, lines, row.as_slice()),
        None => {
            let row = constructors(alloc, text.symbols.as_slice(), sort)?;
            each_case(alloc, text, &names, lines, row.as_slice())
        }
    }
}

fn one_body(alloc: Global, text: &Whole, term: &RawTerm) -> Result<Seq<Body>, NoMemory>
    ensures { IfOk result (λ bodies. bodies ≡ map (stated_body text.now) (term.now ∷ [])) }
{
    let mut bodies = Seq::new(alloc);
    bodies.push(stated_body(alloc, text, term)?)?;
    Ok(bodies)
}

/// The bodies of a function, before the lines of its rules.
fn stated_bodies(
    alloc: Global,
    text: &Whole,
    rows: &[Seq<SymId>],
    args: &[SortId],
    lines: &[RawLine],
) -> Result<Seq<Body>, NoMemory>
    requires { AreRows text.now rows.now }
    ensures { IfOk result (λ bodies. bodies ≡ stated_bodies text.now args.now lines.now) }
{
    match lines {
        [RawLine::BodyLine(term), ..] => one_body(alloc, text, term),
        [RawLine::MatchLine(place), rest @ ..] => {
            stated_cases(alloc, text, rows, rest, sort_at(args, *place))
        }
        _ => Ok(Seq::new(alloc)),
    }
}

fn stated_place(lines: &[RawLine]) -> Option<u32>
    ensures { result ≡ stated_place lines.now }
{
    match lines {
        [RawLine::MatchLine(place), ..] => Some(short(*place)),
        _ => None,
    }
}

/// A symbol with its bodies, where it is a function.
pub(crate) fn filled(
    alloc: Global,
    text: &Whole,
    rows: &[Seq<SymId>],
    lines: &[RawLine],
    symbol: Option<Sym>,
) -> Result<Option<Sym>, NoMemory>
    requires { AreRows text.now rows.now }
    ensures { IfOk result (λ made. made ≡ filled text.now lines.now symbol) }
{
    match symbol {
        Some(Sym::Fun(fun)) => {
            let cases = stated_bodies(alloc, text, rows, fun.args.as_slice(), lines)?;
            Ok(Some(Sym::Fun(Fun {
                args: fun.args,
                result: fun.result,
                place: stated_place(lines),
                cases,
            })))
        }
        Some(Sym::Con(con)) => Ok(Some(Sym::Con(con))),
        None => Ok(None),
    }
}
