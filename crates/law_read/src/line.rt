ghost use Rattle.std.specs.Prelude.{◌≡◌, ◌<◌, ◌^◌, [], ◌∷◌, IsTrue, MatchResult};
ghost use Rattle.law_lines.specs.Pieces.{pieces};
ghost use Rattle.law_lines.specs.declared.want.Want.TheVariants as w;
ghost use Rattle.law_lines.specs.declared.want.Row.TheVariants as r;
ghost use Rattle.law_lines.specs.declared.want.Ending.TheVariants as e;
ghost use Rattle.law_lines.specs.declared.stage.Key.TheVariants as key;
ghost use Rattle.law_lines.specs.declared.stage.Version.TheVariants.{First, Second, Third};
ghost use Rattle.law_lines.specs.Walk.{is_version, line_wants, seed_wants, setting, walk};
ghost use Rattle.law_lines.specs.Reads.{Reads, Stops, StopsAt};
ghost use Rattle.law_places.specs.LineReads.{HeadRead, LineRead, RestRead, RuleRead, SeedRead, SettingRead, ValuesRead};

use crate::part::{end, fixed, gap, name, numeral, word};
use crate::take::{key_of, same};
use crate::term::{args, names, term};
use law_lines::{Ending, Key, Mark, Place, RawLine, RawTerm, Row, Stage, Stop, Version, Want};
use law_sig::Seq;
use law_text::Line;
use std::alloc::Global;

#[tactic(auto, using(law_places::proofs::LineSteps::line_steps))]
fn setting(line: &mut Line<'_>) -> Result<u64, Stop>
    ensures { MatchResult result (SettingRead line.old.left) (λ stop. Stops stop (walk 0 setting (pieces line.old.left))) }
{
    gap(line)?;
    let number = numeral(line)?;
    end(line)?;
    Ok(number)
}

#[tactic(auto, using(law_places::proofs::LineSteps::line_steps))]
fn sort_plain(alloc: Global, line: &mut Line<'_>) -> Result<RawLine, Stop>
    ensures { MatchResult result (RestRead First key.Sort line.old.left) (λ stop. Stops stop (walk 0 (line_wants First key.Sort) (pieces line.old.left))) }
{
    gap(line)?;
    let name = name(alloc, line)?;
    end(line)?;
    Ok(RawLine::SortLine(name))
}

#[tactic(auto, using(law_places::proofs::LineSteps::line_steps))]
fn sort_sized(alloc: Global, line: &mut Line<'_>) -> Result<RawLine, Stop>
    ensures { MatchResult result (λ raw. RestRead Second key.Sort line.old.left raw × RestRead Third key.Sort line.old.left raw) (λ stop. Stops stop (walk 0 (line_wants Second key.Sort) (pieces line.old.left))) }
{
    gap(line)?;
    let name = name(alloc, line)?;
    gap(line)?;
    let vars = numeral(line)?;
    gap(line)?;
    let width = numeral(line)?;
    end(line)?;
    Ok(RawLine::SortLine2 { name, vars, width })
}

#[tactic(auto, using(law_places::proofs::LineSteps::line_steps))]
fn con_plain(alloc: Global, line: &mut Line<'_>) -> Result<RawLine, Stop>
    ensures { MatchResult result (λ raw. RestRead First key.Con line.old.left raw × RestRead Second key.Con line.old.left raw) (λ stop. Stops stop (walk 0 (line_wants First key.Con) (pieces line.old.left))) }
{
    gap(line)?;
    let name = name(alloc, line)?;
    let args = names(alloc, line, Row::Sorts, Ending::Line)?;
    end(line)?;
    Ok(RawLine::ConLine { name, args })
}

#[tactic(auto, using(law_places::proofs::LineSteps::line_steps))]
fn fun_plain(alloc: Global, line: &mut Line<'_>) -> Result<RawLine, Stop>
    ensures { MatchResult result (λ raw. RestRead First key.Fun line.old.left raw × RestRead Second key.Fun line.old.left raw) (λ stop. Stops stop (walk 0 (line_wants First key.Fun) (pieces line.old.left))) }
{
    gap(line)?;
    let name = name(alloc, line)?;
    let args = names(alloc, line, Row::Sorts, Ending::Mark(Mark::Arrow))?;
    gap(line)?;
    let result = crate::part::name(alloc, line)?;
    end(line)?;
    Ok(RawLine::FunLine { name, args, result })
}

#[tactic(auto, using(law_places::proofs::LineSteps::line_steps))]
fn con_weighted(alloc: Global, line: &mut Line<'_>) -> Result<RawLine, Stop>
    ensures { MatchResult result (RestRead Third key.Con line.old.left) (λ stop. Stops stop (walk 0 (line_wants Third key.Con) (pieces line.old.left))) }
{
    gap(line)?;
    let weight = numeral(line)?;
    gap(line)?;
    let name = name(alloc, line)?;
    let args = names(alloc, line, Row::Sorts, Ending::Line)?;
    end(line)?;
    Ok(RawLine::ConLine3 { weight, name, args })
}

#[tactic(auto, using(law_places::proofs::LineSteps::line_steps))]
fn fun_weighted(alloc: Global, line: &mut Line<'_>) -> Result<RawLine, Stop>
    ensures { MatchResult result (RestRead Third key.Fun line.old.left) (λ stop. Stops stop (walk 0 (line_wants Third key.Fun) (pieces line.old.left))) }
{
    gap(line)?;
    let weight = numeral(line)?;
    gap(line)?;
    let name = name(alloc, line)?;
    let args = names(alloc, line, Row::Sorts, Ending::Mark(Mark::Arrow))?;
    gap(line)?;
    let result = crate::part::name(alloc, line)?;
    end(line)?;
    Ok(RawLine::FunLine3 {
        weight,
        name,
        args,
        result,
    })
}

#[tactic(auto, using(law_places::proofs::LineSteps::line_steps))]
fn sort(alloc: Global, version: Version, line: &mut Line<'_>) -> Result<RawLine, Stop>
    ensures { MatchResult result (RestRead version key.Sort line.old.left) (λ stop. Stops stop (walk 0 (line_wants version key.Sort) (pieces line.old.left))) }
{
    match version {
        Version::First => sort_plain(alloc, line),
        Version::Second => Ok(sort_sized(alloc, line)?),
        Version::Third => Ok(sort_sized(alloc, line)?),
    }
}

#[tactic(auto, using(law_places::proofs::LineSteps::line_steps))]
fn con(alloc: Global, version: Version, line: &mut Line<'_>) -> Result<RawLine, Stop>
    ensures { MatchResult result (RestRead version key.Con line.old.left) (λ stop. Stops stop (walk 0 (line_wants version key.Con) (pieces line.old.left))) }
{
    match version {
        Version::First => Ok(con_plain(alloc, line)?),
        Version::Second => Ok(con_plain(alloc, line)?),
        Version::Third => con_weighted(alloc, line),
    }
}

#[tactic(auto, using(law_places::proofs::LineSteps::line_steps))]
fn fun(alloc: Global, version: Version, line: &mut Line<'_>) -> Result<RawLine, Stop>
    ensures { MatchResult result (RestRead version key.Fun line.old.left) (λ stop. Stops stop (walk 0 (line_wants version key.Fun) (pieces line.old.left))) }
{
    match version {
        Version::First => Ok(fun_plain(alloc, line)?),
        Version::Second => Ok(fun_plain(alloc, line)?),
        Version::Third => fun_weighted(alloc, line),
    }
}

#[tactic(auto, using(law_places::proofs::LineSteps::line_steps))]
fn body(alloc: Global, version: Version, line: &mut Line<'_>) -> Result<RawLine, Stop>
    ensures { MatchResult result (RestRead version key.Body line.old.left) (λ stop. Stops stop (walk 0 (line_wants version key.Body) (pieces line.old.left))) }
{
    gap(line)?;
    fixed(line, Mark::Equals)?;
    gap(line)?;
    let body = term(alloc, line, Place::Body, Ending::Line)?;
    end(line)?;
    Ok(RawLine::BodyLine(body))
}

#[tactic(auto, using(law_places::proofs::LineSteps::line_steps))]
fn case(alloc: Global, version: Version, line: &mut Line<'_>) -> Result<RawLine, Stop>
    ensures { MatchResult result (RestRead version key.Case line.old.left) (λ stop. Stops stop (walk 0 (line_wants version key.Case) (pieces line.old.left))) }
{
    gap(line)?;
    let con = name(alloc, line)?;
    gap(line)?;
    fixed(line, Mark::Equals)?;
    gap(line)?;
    let body = term(alloc, line, Place::Body, Ending::Line)?;
    end(line)?;
    Ok(RawLine::CaseLine { con, body })
}

#[tactic(auto, using(law_places::proofs::LineSteps::line_steps))]
fn explore(alloc: Global, version: Version, line: &mut Line<'_>) -> Result<RawLine, Stop>
    ensures { MatchResult result (RestRead version key.Explore line.old.left) (λ stop. Stops stop (walk 0 (line_wants version key.Explore) (pieces line.old.left))) }
{
    let found = names(alloc, line, Row::Names, Ending::Line)?;
    end(line)?;
    Ok(RawLine::Explore(found))
}

#[tactic(auto, using(law_places::proofs::LineSteps::line_steps))]
fn background(alloc: Global, version: Version, line: &mut Line<'_>) -> Result<RawLine, Stop>
    ensures { MatchResult result (RestRead version key.Background line.old.left) (λ stop. Stops stop (walk 0 (line_wants version key.Background) (pieces line.old.left))) }
{
    gap(line)?;
    let left = term(alloc, line, Place::Equation, Ending::Mark(Mark::Equals))?;
    gap(line)?;
    let right = term(alloc, line, Place::Equation, Ending::Line)?;
    end(line)?;
    Ok(RawLine::Background { left, right })
}

#[tactic(auto, using(law_places::proofs::LineSteps::line_steps))]
fn values(alloc: Global, version: Version, line: &mut Line<'_>) -> Result<RawLine, Stop>
    ensures { MatchResult result (RestRead version key.Values line.old.left) (λ stop. Stops stop (walk 0 (line_wants version key.Values) (pieces line.old.left))) }
{
    gap(line)?;
    let sort = name(alloc, line)?;
    let values = value_row(alloc, line)?;
    end(line)?;
    Ok(RawLine::Values { sort, values })
}

#[tactic(auto, using(law_places::proofs::LineSteps::line_steps))]
fn signature(version: Version, line: &mut Line<'_>) -> Result<RawLine, Stop>
    ensures { MatchResult result (RestRead version key.Signature line.old.left) (λ stop. Stops stop (walk 0 (line_wants version key.Signature) (pieces line.old.left))) }
{
    gap(line)?;
    let number = version_word(line)?;
    end(line)?;
    Ok(head(number))
}

#[tactic(auto, using(law_places::proofs::LineSteps::line_steps))]
fn pools(version: Version, line: &mut Line<'_>) -> Result<RawLine, Stop>
    ensures { MatchResult result (RestRead version key.Pools line.old.left) (λ stop. Stops stop (walk 0 (line_wants version key.Pools) (pieces line.old.left))) }
{
    gap(line)?;
    if given(line)? {
        end(line)?;
        Ok(RawLine::PoolsGiven)
    } else {
        seed(line)
    }
}

fn value_row(alloc: Global, line: &mut Line<'_>) -> Result<Seq<RawTerm>, Stop>
    ensures { MatchResult result (ValuesRead line.old.left line.new.left) (StopsAt 0 (w.Row r.Values 1 0 e.Line) line.old.left) }
{
    match args(alloc, line, 0, Row::Values, 1, Ending::Line) {
        Ok((values, _)) => Ok(values),
        Err(stop) => Err(stop),
    }
}

#[tactic(auto, using(law_places::proofs::LineSteps::version_read))]
fn version_word<'t>(line: &mut Line<'t>) -> Result<&'t [u8], Stop>
    ensures { MatchResult result
        (λ number. IsTrue (is_version number.now) × Reads w.Version line.old.left line.new.left number.now)
        (StopsAt 0 w.Version line.old.left) }
{
    word(line, Want::Version, 0)
}

/// Whether the pools are given, and not made from a seed.
fn given(line: &mut Line<'_>) -> Result<bool, Stop>
    ensures { MatchResult result (RuleRead line.old.left line.new.left) (StopsAt 0 w.Pools line.old.left) }
{
    let rule = word(line, Want::Pools, 0)?;
    Ok(same(rule, b"given"))
}

fn head(number: &[u8]) -> RawLine
    requires { IsTrue (is_version number.now) }
    ensures { HeadRead number.now result }
{
    if same(number, b"1") {
        return RawLine::Head;
    }
    if same(number, b"2") {
        return RawLine::Head2;
    }
    RawLine::Head3
}

#[tactic(auto, using(law_places::proofs::LineSteps::line_steps))]
fn seed(line: &mut Line<'_>) -> Result<RawLine, Stop>
    ensures { MatchResult result (SeedRead line.old.left) (λ stop. Stops stop (walk 0 seed_wants (pieces line.old.left))) }
{
    gap(line)?;
    let seed = numeral(line)?;
    gap(line)?;
    fixed(line, Mark::Height)?;
    gap(line)?;
    let height = numeral(line)?;
    gap(line)?;
    fixed(line, Mark::Count)?;
    gap(line)?;
    let count = numeral(line)?;
    end(line)?;
    Ok(RawLine::PoolsSeed {
        seed,
        height,
        count,
    })
}

/// A line from behind its key on.
#[tactic(auto, using(law_places::proofs::LineSteps::line_steps))]
fn rest(alloc: Global, version: Version, key: Key, line: &mut Line<'_>) -> Result<RawLine, Stop>
    ensures { MatchResult result (RestRead version key line.old.left) (λ stop. Stops stop (walk 0 (line_wants version key) (pieces line.old.left))) }
{
    match key {
        Key::Signature => signature(version, line),
        Key::Vars => Ok(RawLine::Vars(setting(line)?)),
        Key::Size => Ok(RawLine::Size(setting(line)?)),
        Key::Width => Ok(RawLine::Width(setting(line)?)),
        Key::Budget => Ok(RawLine::Budget(setting(line)?)),
        Key::Pairs => Ok(RawLine::Pairs(setting(line)?)),
        Key::Pools => pools(version, line),
        Key::Sort => sort(alloc, version, line),
        Key::Con => con(alloc, version, line),
        Key::Fun => fun(alloc, version, line),
        Key::Match => Ok(RawLine::MatchLine(setting(line)?)),
        Key::Body => body(alloc, version, line),
        Key::Case => case(alloc, version, line),
        Key::Explore => explore(alloc, version, line),
        Key::Background => background(alloc, version, line),
        Key::Pool => {
            end(line)?;
            Ok(RawLine::Pool)
        }
        Key::Values => values(alloc, version, line),
        Key::End => {
            end(line)?;
            Ok(RawLine::End)
        }
    }
}

/// A line that may come at this stage.
#[tactic(auto, using(law_places::proofs::LineSteps::line_steps))]
pub fn read_line(alloc: Global, stage: Stage, bytes: &[u8]) -> Result<RawLine, Stop>
    ensures { MatchResult result (LineRead stage bytes.now) (λ stop. Stops stop (walk 0 (w.Key stage ∷ []) (pieces bytes.now))) }
{
    let mut line = Line::new(bytes);
    let first = word(&mut line, Want::Key(stage), 0)?;
    match key_of(first) {
        None => unreachable!(),
        Some(key) => match rest(alloc, stage.version, key, &mut line) {
            Ok(raw) => Ok(raw),
            Err(stop) => Err(stop),
        },
    }
}
