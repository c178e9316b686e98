ghost use Rattle.std.specs.Prelude.{◌≡◌, List, [], ◌∷◌, ◌++◌, IfOk, MatchResult};
ghost use Rattle.law_lines.specs.Pieces.{pieces};
ghost use Rattle.law_lines.specs.declared.want.Want.TheVariants as w;
ghost use Rattle.law_lines.specs.declared.want.Ending.TheVariants as e;
ghost use Rattle.law_lines.specs.declared.want.Mark.TheVariants.{Equals};
ghost use Rattle.law_lines.specs.declared.want.Place.TheVariants as p;
ghost use Rattle.law_lines.specs.Segments.{EquationRead, IsEquation, ValuesLineRead};
ghost use Rattle.law_lines.specs.Reads.{Stops};
ghost use Rattle.law_lines.specs.Walk.{walk};

use crate::line::read_line;
use crate::part::{end, gap};
use crate::term::term;
use law_lines::{Ending, Key, Mark, Place, RawLine, RawTerm, Stage, Stop, Version};
use law_sig::{NoMemory, Seq, Text};
use law_text::Line;
use std::alloc::Global;

/// The terms of equations that some bytes spell with ` = ` between them; `None` where they spell none.
pub fn read_equation(alloc: Global, bytes: &[u8]) -> Result<Option<(RawTerm, RawTerm)>, NoMemory>
    ensures { IfOk result (EquationRead bytes.now) }
{
    match equation(alloc, bytes) {
        Ok((left, right)) => Ok(Some((left, right))),
        Err(Stop::Form(_)) => Ok(None),
        Err(Stop::NoMemory) => Err(NoMemory),
    }
}

#[tactic(auto, using(law_places::proofs::LineSteps::line_steps))]
fn equation(alloc: Global, bytes: &[u8]) -> Result<(RawTerm, RawTerm), Stop>
    ensures { MatchResult result
        (λ sides. IsEquation bytes.now sides.0 sides.1)
        (λ stop. Stops stop (walk 0 (w.Root p.Equation (e.Mark Equals) ∷ w.Gap ∷ w.Root p.Equation e.Line ∷ []) (pieces bytes.now))) }
{
    let mut line = Line::new(bytes);
    let left = term(
        alloc,
        &mut line,
        Place::Equation,
        Ending::Mark(Mark::Equals),
    )?;
    gap(&mut line)?;
    let right = term(alloc, &mut line, Place::Equation, Ending::Line)?;
    end(&mut line)?;
    Ok((left, right))
}

/// The sort and the values of a line of a pool; `None` where the bytes are the spelling of none.
pub fn read_values(alloc: Global, bytes: &[u8]) -> Result<Option<(Text, Seq<RawTerm>)>, NoMemory>
    ensures { IfOk result (ValuesLineRead bytes.now) }
{
    let stage = Stage {
        version: Version::First,
        given: true,
        last: Some(Key::Pool),
    };
    match read_line(alloc, stage, bytes) {
        Ok(RawLine::Values { sort, values }) => Ok(Some((sort, values))),
        Ok(_) => unreachable!(),
        Err(Stop::Form(_)) => Ok(None),
        Err(Stop::NoMemory) => Err(NoMemory),
    }
}
