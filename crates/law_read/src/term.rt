ghost use Rattle.std.specs.Prelude.{◌≡◌, ℕ, ◌+◌, ◌≤◌, ◌<◌, Bool, true, List, [], ◌∷◌, Some, None, IfOk, IsTrue, MatchResult, length};
ghost use Rattle.law_lines.specs.Pieces.{pieces};
ghost use Rattle.law_lines.specs.declared.want.Want.TheVariants as w;
ghost use Rattle.law_lines.specs.declared.want.Row.TheVariants as r;
ghost use Rattle.law_lines.specs.declared.want.Ending.TheVariants as e;
ghost use Rattle.law_lines.specs.declared.want.Bounds.TheVariants.{Kept};
ghost use Rattle.law_lines.specs.declared.want.Want.{Want};
ghost use Rattle.law_lines.specs.declared.want.Place.TheVariants as p;
ghost use Rattle.law_lines.specs.Walk.{before_item, behind, is_atom, is_numbered, is_variable, item_place, walk};
ghost use Rattle.law_lines.specs.Numbers.{cut};
ghost use Rattle.law_lines.specs.Reads.{Stops, StopsAt};
ghost use Rattle.law_lines.specs.Rows.{AtomRead, BehindRead, BracketRead, IsNameRow, IsRootEnding, IsTermRow, ItemStep, NamesRead, NameStep, RootRead, RowRead, RowStep};

use crate::part::{fixed, gap, owned, want, word};
use crate::take::{cut, is_mark};
use law_lines::{Ending, Mark, Place, RawHead, RawTerm, Row, Stop, Token, Want};
use law_sig::{NoMemory, Seq, Text};
use law_text::{Line, index, is_name, is_word_of_letters};
use std::alloc::Global;

fn item_place(row: Row) -> Place
    ensures { result ≡ item_place row }
{
    match row {
        Row::Args(place) => place,
        _ => Place::Value,
    }
}

fn before_item(row: Row, nodes: u32) -> u32
    ensures { result ≡ before_item row nodes }
{
    match row {
        Row::Args(_) => nodes,
        _ => 0,
    }
}

/// The head that an atom stands for.
fn atom(alloc: Global, place: Place, bytes: &[u8]) -> Result<RawHead, NoMemory>
    requires { IsTrue (is_atom Kept place bytes.now) }
    ensures { IfOk result (λ head. AtomRead Kept place bytes.now head) }
{
    if is_name(bytes) {
        return Ok(RawHead::Name(owned(alloc, bytes)?));
    }
    match place {
        Place::Equation => variable(alloc, bytes),
        Place::Body => numbered(bytes),
        Place::Value => unreachable!(),
    }
}

fn variable(alloc: Global, bytes: &[u8]) -> Result<RawHead, NoMemory>
    requires { IsTrue (is_variable Kept (cut bytes.now)) }
    ensures { IfOk result (λ head. AtomRead Kept p.Equation bytes.now head) }
{
    match cut(bytes) {
        None => unreachable!(),
        Some((sort, behind)) => match index(behind) {
            None => unreachable!(),
            Some(number) => Ok(RawHead::Var(owned(alloc, sort)?, number)),
        },
    }
}

fn numbered(bytes: &[u8]) -> Result<RawHead, NoMemory>
    requires { IsTrue (is_numbered bytes.now) }
    ensures { IfOk result (λ head. AtomRead Kept p.Body bytes.now head) }
{
    match bytes {
        [] => unreachable!(),
        [sign, rest @ ..] => match index(rest) {
            None => unreachable!(),
            Some(number) => {
                if *sign == b'#' {
                    Ok(RawHead::Param(number))
                } else {
                    Ok(RawHead::Field(number))
                }
            }
        },
    }
}

/// Whether a row goes on, behind the space that was read then; else it ended here.
#[tactic(auto, using(law_lines::proofs::RowSteps::row_steps))]
fn more(
    line: &mut Line<'_>,
    nodes: u32,
    row: Row,
    level: u32,
    count: usize,
    ending: Ending,
) -> Result<bool, Stop>
    ensures { MatchResult result
        (RowStep nodes row level count ending line.old.left line.new.left)
        (StopsAt nodes (w.Row row level count ending) line.old.left) }
{
    match want(
        line,
        Want::Row {
            row,
            depth: level,
            count,
            ending,
        },
        nodes,
    )? {
        None => Ok(false),
        Some(Token::Close) => Ok(false),
        Some(Token::Space) => Ok(true),
        _ => unreachable!(),
    }
}

/// The next item of a row, behind its space, and the nodes of its term then; `None` where the fixed
/// word behind the row stands in its place.
#[cycle(rows)]
#[tactic(auto, using(law_lines::proofs::RowSteps::row_steps))]
fn item(
    alloc: Global,
    line: &mut Line<'_>,
    nodes: u32,
    row: Row,
    level: u32,
    count: usize,
    ending: Ending,
) -> Result<Option<(RawTerm, u32)>, Stop>
    requires few { nodes ≤ 4096 }
    requires deep { level ≤ 256 }
    requires terms { IsTermRow row level }
    ensures { MatchResult result
        (ItemStep nodes row level count ending line.old.left line.new.left)
        (StopsAt nodes (w.Item row level count ending) line.old.left) }
{
    match want(
        line,
        Want::Item {
            row,
            depth: level,
            count,
            ending,
        },
        nodes,
    )? {
        Some(Token::Open) => {
            match bracket(
                alloc,
                line,
                before_item(row, nodes),
                item_place(row),
                level + 1,
            ) {
                Ok((term, more)) => Ok(Some((term, more))),
                Err(stop) => Err(stop),
            }
        }
        Some(Token::Word(bytes)) => {
            if is_mark(ending, bytes) {
                return Ok(None);
            }
            let head = atom(alloc, item_place(row), bytes)?;
            let term = RawTerm {
                head,
                args: Seq::new(alloc),
            };
            Ok(Some((term, before_item(row, nodes) + 1)))
        }
        _ => unreachable!(),
    }
}

/// A term in brackets, behind the opening one, and the nodes of the whole term then. Its arguments
/// stand at this level.
#[cycle(rows)]
#[tactic(auto, using(law_lines::proofs::RowSteps::row_steps))]
fn bracket(
    alloc: Global,
    line: &mut Line<'_>,
    nodes: u32,
    place: Place,
    level: u32,
) -> Result<(RawTerm, u32), Stop>
    requires few { nodes ≤ 4094 }
    requires deep { level ≤ 256 }
    ensures { MatchResult result
        (λ found. BracketRead nodes place level line.old.left line.new.left found.0 found.1)
        (λ stop. (rest : List Want) → Stops stop (walk nodes (w.Head ∷ w.Row (r.Args place) level 0 e.Bracket ∷ rest) (pieces line.old.left))) }
{
    let name = word(line, Want::Head, nodes)?;
    let text = owned(alloc, name)?;
    match args(
        alloc,
        line,
        nodes + 1,
        Row::Args(place),
        level,
        Ending::Bracket,
    ) {
        Ok((args, more)) => {
            let head = RawHead::Name(text);
            Ok((RawTerm { head, args }, more))
        }
        Err(stop) => Err(stop),
    }
}

/// The terms of a row, and the nodes of the whole term then.
#[cycle(rows)]
#[tactic(auto, using(law_lines::proofs::RowSteps::row_steps))]
pub fn args(
    alloc: Global,
    line: &mut Line<'_>,
    nodes: u32,
    row: Row,
    level: u32,
    ending: Ending,
) -> Result<(Seq<RawTerm>, u32), Stop>
    requires few { nodes ≤ 4096 }
    requires deep { level ≤ 256 }
    requires terms { IsTermRow row level }
    ensures { MatchResult result
        (λ found. RowRead nodes row level ending line.old.left line.new.left found.0 found.1)
        (StopsAt nodes (w.Row row level 0 ending) line.old.left) }
{
    let mut found = Seq::new(alloc);
    let mut total = nodes;
    loop {
        if !more(line, total, row, level, found.len(), ending)? {
            return Ok((found, total));
        }
        match item(alloc, line, total, row, level, found.len(), ending)? {
            None => return Ok((found, total)),
            Some((term, more)) => {
                found.push(term)?;
                total = more;
            }
        }
    }
}

/// What stands behind a variable, a parameter or a field: the end, or a fixed word.
fn behind(line: &mut Line<'_>, ending: Ending) -> Result<(), Stop>
    requires { IsRootEnding ending }
    ensures { MatchResult result
        (λ _. BehindRead ending line.old.left line.new.left)
        (λ stop. (rest : List Want) → Stops stop (walk 0 (behind ending rest) (pieces line.old.left))) }
{
    match ending {
        Ending::Line => Ok(()),
        Ending::Bracket => unreachable!(),
        Ending::Mark(mark) => marked(line, mark),
    }
}

fn marked(line: &mut Line<'_>, mark: Mark) -> Result<(), Stop>
    ensures { MatchResult result
        (λ _. BehindRead (e.Mark mark) line.old.left line.new.left)
        (λ stop. (rest : List Want) → Stops stop (walk 0 (w.Gap ∷ w.Fixed mark ∷ rest) (pieces line.old.left))) }
{
    gap(line)?;
    match fixed(line, mark) {
        Ok(()) => Ok(()),
        Err(stop) => Err(stop),
    }
}

/// A term that stands by itself, up to what ends it and with that.
pub fn term(
    alloc: Global,
    line: &mut Line<'_>,
    place: Place,
    ending: Ending,
) -> Result<RawTerm, Stop>
    requires { IsRootEnding ending }
    ensures { MatchResult result
        (RootRead place ending line.old.left line.new.left)
        (StopsAt 0 (w.Root place ending) line.old.left) }
{
    let bytes = word(line, Want::Root { place, ending }, 0)?;
    if is_word_of_letters(bytes) {
        let text = owned(alloc, bytes)?;
        match args(alloc, line, 1, Row::Args(place), 2, ending) {
            Ok((args, _)) => {
                let head = RawHead::Name(text);
                Ok(RawTerm { head, args })
            }
            Err(stop) => Err(stop),
        }
    } else {
        let head = atom(alloc, place, bytes)?;
        match behind(line, ending) {
            Ok(()) => Ok(RawTerm {
                head,
                args: Seq::new(alloc),
            }),
            Err(stop) => Err(stop),
        }
    }
}

/// The next name of a row, behind its space; `None` where the fixed word behind the row stands there.
fn name_item(
    alloc: Global,
    line: &mut Line<'_>,
    nodes: u32,
    row: Row,
    count: usize,
    ending: Ending,
) -> Result<Option<Text>, Stop>
    requires { IsNameRow row }
    ensures { MatchResult result
        (NameStep nodes row count ending line.old.left line.new.left)
        (StopsAt nodes (w.Item row 0 count ending) line.old.left) }
{
    match want(
        line,
        Want::Item {
            row,
            depth: 0,
            count,
            ending,
        },
        nodes,
    )? {
        Some(Token::Word(bytes)) => {
            if is_mark(ending, bytes) {
                return Ok(None);
            }
            Ok(Some(owned(alloc, bytes)?))
        }
        _ => unreachable!(),
    }
}

/// The names of a row, up to what ends it and with that.
pub fn names(
    alloc: Global,
    line: &mut Line<'_>,
    row: Row,
    ending: Ending,
) -> Result<Seq<Text>, Stop>
    requires names { IsNameRow row }
    requires ends { IsRootEnding ending }
    ensures { MatchResult result
        (NamesRead row ending line.old.left line.new.left)
        (StopsAt 0 (w.Row row 0 0 ending) line.old.left) }
{
    let mut found = Seq::new(alloc);
    let mut nodes = 0;
    loop {
        if !more(line, nodes, row, 0, found.len(), ending)? {
            return Ok(found);
        }
        match name_item(alloc, line, nodes, row, found.len(), ending)? {
            None => return Ok(found),
            Some(name) => {
                found.push(name)?;
                nodes = 1;
            }
        }
    }
}
