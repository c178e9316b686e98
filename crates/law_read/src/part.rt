ghost use Rattle.std.specs.Prelude.{◌≡◌, ◌<◌, ◌^◌, Bool, true, List, [], ◌∷◌, decimal, Some, None, IfOk, IsTrue, MatchResult};
ghost use Rattle.law_lines.specs.Pieces.{pieces};
ghost use Rattle.law_lines.specs.declared.want.Want.TheVariants as w;
ghost use Rattle.law_lines.specs.declared.want.Bounds.TheVariants.{Kept};
ghost use Rattle.law_lines.specs.Terms.{is_name_in};
ghost use Rattle.law_lines.specs.Walk.{enough, is_word_want, mark_text, may_end, walk};
ghost use Rattle.law_lines.specs.Reads.{Ended, Reads, Stops, StopsAt, Took, TookWord, Wanted};

use crate::take::{kind_at, takes};
use law_lines::{Bounds, Ending, Mark, ReadKind, Row, Stop, Token, Want};
use law_sig::{NoMemory, Text};
use law_text::{Line, number};
use std::alloc::Global;

fn may_end(want: Want) -> bool
    ensures { result ≡ may_end want }
{
    match want {
        Want::Row {
            row,
            depth: _,
            count,
            ending: Ending::Line,
        } => enough(row, count),
        _ => false,
    }
}

fn enough(row: Row, count: usize) -> bool
    ensures { result ≡ enough row count }
{
    match row {
        Row::Values => count > 0,
        _ => true,
    }
}

/// The next piece, which is one that is wanted; `None` at the end, where the line may end.
#[tactic(auto, using(law_lines::proofs::Walks::steps))]
pub fn want<'t>(line: &mut Line<'t>, want: Want, nodes: u32) -> Result<Option<Token<'t>>, Stop>
    ensures { MatchResult result (Wanted nodes want line.old.left line.new.left) (StopsAt nodes want line.old.left) }
{
    match line.next() {
        None => {
            if may_end(want) {
                Ok(None)
            } else {
                Err(Stop::Form(ReadKind::Missing))
            }
        }
        Some((token, _)) => {
            if takes(Bounds::Kept, nodes, want, token) {
                Ok(Some(token))
            } else {
                Err(Stop::Form(kind_at(nodes, want, token)))
            }
        }
    }
}

/// The end of the line, where nothing more is wanted.
#[tactic(auto, using(law_lines::proofs::Walks::steps))]
pub fn end(line: &mut Line<'_>) -> Result<(), Stop>
    ensures { MatchResult result (λ _. (line.old.left ≡ []) × (walk 0 [] (pieces line.old.left) ≡ None)) (λ stop. Stops stop (walk 0 [] (pieces line.old.left))) }
{
    match line.next() {
        None => Ok(()),
        Some(_) => Err(Stop::Form(ReadKind::Word)),
    }
}

/// The next word, where nothing but a word may come.
#[tactic(auto, using(law_lines::proofs::Walks::words))]
pub fn word<'t>(line: &mut Line<'t>, wanted: Want, nodes: u32) -> Result<&'t [u8], Stop>
    requires { IsTrue (is_word_want wanted) }
    ensures { MatchResult result (λ bytes. TookWord nodes wanted line.old.left line.new.left bytes.now) (StopsAt nodes wanted line.old.left) }
{
    match want(line, wanted, nodes)? {
        Some(Token::Word(word)) => Ok(word),
        _ => unreachable!(),
    }
}

#[tactic(auto, using(law_lines::proofs::Walks::words, law_lines::proofs::Parts::parts))]
pub fn gap(line: &mut Line<'_>) -> Result<(), Stop>
    ensures { MatchResult result (λ _. Reads w.Gap line.old.left line.new.left (32 ∷ [])) (StopsAt 0 w.Gap line.old.left) }
{
    match want(line, Want::Gap, 0)? {
        Some(Token::Space) => Ok(()),
        _ => unreachable!(),
    }
}

#[tactic(auto, using(law_lines::proofs::Parts::parts))]
pub fn fixed(line: &mut Line<'_>, mark: Mark) -> Result<(), Stop>
    ensures { MatchResult result (λ _. Reads (w.Fixed mark) line.old.left line.new.left (mark_text mark)) (StopsAt 0 (w.Fixed mark) line.old.left) }
{
    word(line, Want::Fixed(mark), 0)?;
    Ok(())
}

#[tactic(auto, using(law_lines::proofs::Parts::parts))]
pub fn numeral(line: &mut Line<'_>) -> Result<u64, Stop>
    ensures { MatchResult result (λ n. (n < 2 ^ 63) × Reads w.Number line.old.left line.new.left (decimal n)) (StopsAt 0 w.Number line.old.left) }
{
    let digits = word(line, Want::Number, 0)?;
    match number(digits) {
        Some(n) => Ok(n),
        None => unreachable!(),
    }
}

#[tactic(auto, using(law_lines::proofs::Parts::parts))]
pub fn name(alloc: Global, line: &mut Line<'_>) -> Result<Text, Stop>
    ensures { MatchResult result (λ text. IsTrue (is_name_in Kept text) × Reads w.Name line.old.left line.new.left text) (StopsAt 0 w.Name line.old.left) }
{
    let bytes = word(line, Want::Name, 0)?;
    Ok(owned(alloc, bytes)?)
}

pub fn owned(alloc: Global, word: &[u8]) -> Result<Text, NoMemory>
    ensures { IfOk result (λ text. text ≡ word.now) }
{
    let mut text = Text::new(alloc);
    text.push_slice(word)?;
    Ok(text)
}
