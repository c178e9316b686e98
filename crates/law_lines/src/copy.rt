ghost use Rattle.std.specs.Prelude.{◌≡◌, IfOk};
ghost use Rattle.law_lines.specs.Lines.{IsDeclaration};

use crate::raw::{RawHead, RawLine, RawTerm};
use law_sig::{NoMemory, Seq, Text};
use std::alloc::Global;

impl RawHead {
    /// A head of its own that equals this one.
    pub fn copy(&self, alloc: Global) -> Result<RawHead, NoMemory>
        ensures { IfOk result (λ head. head ≡ self.now) }
    {
        match self {
            RawHead::Name(name) => Ok(RawHead::Name(name.copy(alloc)?)),
            RawHead::Var(sort, index) => Ok(RawHead::Var(sort.copy(alloc)?, *index)),
            RawHead::Param(number) => Ok(RawHead::Param(*number)),
            RawHead::Field(number) => Ok(RawHead::Field(*number)),
        }
    }
}

impl RawTerm {
    /// A term of its own that equals this one.
    pub fn copy(&self, alloc: Global) -> Result<RawTerm, NoMemory>
        ensures { IfOk result (λ term. term ≡ self.now) }
    {
        let mut args = Seq::new(alloc);
        for arg in self.args.as_slice() {
            args.push(arg.copy(alloc)?)?;
        }
        Ok(RawTerm {
            head: self.head.copy(alloc)?,
            args,
        })
    }
}

fn copy_terms(alloc: Global, terms: &[RawTerm]) -> Result<Seq<RawTerm>, NoMemory>
    ensures { IfOk result (λ copies. copies ≡ terms.now) }
{
    let mut copies = Seq::new(alloc);
    for term in terms {
        copies.push(term.copy(alloc)?)?;
    }
    Ok(copies)
}

fn copy_names(alloc: Global, names: &[Text]) -> Result<Seq<Text>, NoMemory>
    ensures { IfOk result (λ copies. copies ≡ names.now) }
{
    let mut copies = Seq::new(alloc);
    for name in names {
        copies.push(name.copy(alloc)?)?;
    }
    Ok(copies)
}

impl RawLine {
    /// A line of its own that equals this one.
    pub fn copy(&self, alloc: Global) -> Result<RawLine, NoMemory>
        ensures { IfOk result (λ line. line ≡ self.now) }
    {
        match self {
            RawLine::Head => Ok(RawLine::Head),
            RawLine::Head2 => Ok(RawLine::Head2),
            RawLine::Head3 => Ok(RawLine::Head3),
            RawLine::Vars(n) => Ok(RawLine::Vars(*n)),
            RawLine::Size(n) => Ok(RawLine::Size(*n)),
            RawLine::Width(n) => Ok(RawLine::Width(*n)),
            RawLine::Budget(n) => Ok(RawLine::Budget(*n)),
            RawLine::Pairs(n) => Ok(RawLine::Pairs(*n)),
            RawLine::PoolsGiven => Ok(RawLine::PoolsGiven),
            RawLine::PoolsSeed {
                seed,
                height,
                count,
            } => Ok(RawLine::PoolsSeed {
                seed: *seed,
                height: *height,
                count: *count,
            }),
            RawLine::MatchLine(n) => Ok(RawLine::MatchLine(*n)),
            RawLine::Pool => Ok(RawLine::Pool),
            RawLine::End => Ok(RawLine::End),
            RawLine::BodyLine(body) => Ok(RawLine::BodyLine(body.copy(alloc)?)),
            RawLine::CaseLine { con, body } => Ok(RawLine::CaseLine {
                con: con.copy(alloc)?,
                body: body.copy(alloc)?,
            }),
            RawLine::Background { left, right } => Ok(RawLine::Background {
                left: left.copy(alloc)?,
                right: right.copy(alloc)?,
            }),
            RawLine::Values { sort, values } => Ok(RawLine::Values {
                sort: sort.copy(alloc)?,
                values: copy_terms(alloc, values.as_slice())?,
            }),
            _ => self.copy_declaration(alloc),
        }
    }

    /// The same for a line of sorts, symbols or explored names; any other line stands as `Pool`.
    fn copy_declaration(&self, alloc: Global) -> Result<RawLine, NoMemory>
        requires { IsDeclaration self.now }
        ensures { IfOk result (λ line. line ≡ self.now) }
    {
        match self {
            RawLine::SortLine(name) => Ok(RawLine::SortLine(name.copy(alloc)?)),
            RawLine::SortLine2 { name, vars, width } => Ok(RawLine::SortLine2 {
                name: name.copy(alloc)?,
                vars: *vars,
                width: *width,
            }),
            RawLine::ConLine { name, args } => Ok(RawLine::ConLine {
                name: name.copy(alloc)?,
                args: copy_names(alloc, args.as_slice())?,
            }),
            RawLine::ConLine3 { weight, name, args } => Ok(RawLine::ConLine3 {
                weight: *weight,
                name: name.copy(alloc)?,
                args: copy_names(alloc, args.as_slice())?,
            }),
            RawLine::FunLine { name, args, result } => Ok(RawLine::FunLine {
                name: name.copy(alloc)?,
                args: copy_names(alloc, args.as_slice())?,
                result: result.copy(alloc)?,
            }),
            RawLine::FunLine3 {
                weight,
                name,
                args,
                result,
            } => Ok(RawLine::FunLine3 {
                weight: *weight,
                name: name.copy(alloc)?,
                args: copy_names(alloc, args.as_slice())?,
                result: result.copy(alloc)?,
            }),
            RawLine::Explore(names) => Ok(RawLine::Explore(copy_names(alloc, names.as_slice())?)),
            _ => unreachable!(),
        }
    }
}
