ghost use Rattle.std.specs.Prelude.{◌≡◌, ◌<◌, length, IfOk, IfSome, MatchOption, slice_get, slice_set};
ghost use denote.Bor.{Bor};
ghost use Rattle.law_bank.specs.declared.node.Node.{out-Node};
ghost use Rattle.law_bank.specs.Terms.{tree_at, tree_of, trees_of};
ghost use Rattle.law_bank.specs.Bank.{Terms, IsOf, Grows};
ghost use Rattle.law_term.specs.Places.{IsReplaced, HasNoPlace, IsAt, IsWay};

use super::at::At;
use super::bank::TermBank;
use super::pos::Pos;
use law_bank::Term;
use law_sig::NoMemory;

/// The argument of a term with a number, where there is one.
fn arg<'a>(term: Term<'a>, number: u32) -> Option<Term<'a>>
    ensures { result ≡ slice_get (out-Node term.now).args.now number }
{
    let at = number as usize;
    if at < term.args.len() {
        Some(term.args[at])
    } else {
        None
    }
}

/// The term that stands at a place of a term of a bank; `None` exactly where there is no such place. It takes time in the length of
/// the place, and no memory.
pub fn term_at<'a>(term: Term<'a>, at: &Pos) -> Option<Term<'a>>
    ensures found { (bank : Terms) → IsOf bank term.now → MatchOption result (HasNoPlace at.now (tree_of term.now)) (λ u. IsAt (tree_of u.now) at.now (tree_of term.now)) }
    ensures held { (bank : Terms) → IsOf bank term.now → IfSome result (λ u. IsOf bank u.now) }
{
    let mut here = At { term };
    for number in at.as_slice() {
        let Some(below) = arg(here.term, *number) else {
            return None;
        };
        here = At { term: below };
    }
    Some(here.term)
}

/// The terms on the way to a place, each with the number of the argument in which it goes on; `None` exactly where there is no such
/// place.
fn way_to<'a>(
    bank: &TermBank<'a>,
    term: Term<'a>,
    place: &[u32],
) -> Result<Option<Vec<(Term<'a>, u32)>>, NoMemory>
    requires { IsOf bank.now term.now }
    ensures { IfOk result (λ o. MatchOption o (HasNoPlace place.now (tree_of term.now)) (λ way. IsWay term.now way.items place.now)) }
{
    let mut way = Vec::new(bank.alloc());
    let mut here = At { term };
    for number in place {
        let Some(below) = arg(here.term, *number) else {
            return Ok(None);
        };
        let Ok(()) = way.push((here.term, *number)) else {
            return Err(NoMemory);
        };
        here = At { term: below };
    }
    Ok(Some(way))
}

/// The term with another one in the place of an argument.
fn with_arg<'a>(
    bank: &mut TermBank<'a>,
    term: Term<'a>,
    number: u32,
    new: Term<'a>,
) -> Result<Term<'a>, NoMemory>
    requires term { IsOf bank.old term.now }
    requires new { IsOf bank.old new.now }
    requires within { number < length (out-Node term.now).args.now }
    ensures tree { IfOk result (λ t. tree_of t.now ≡ tree_at (out-Node term.now).head (trees_of (slice_set (out-Node term.now).args.now number new.entry))) }
    ensures held { IfOk result (λ t. IsOf bank.new t.now) }
    ensures grows { Grows bank.old bank.new }
{
    let Ok(mut args) = Vec::from_slice(bank.alloc(), term.args) else {
        return Err(NoMemory);
    };
    args[number as usize] = new;
    let made = bank.intern(term.head, args.as_slice())?;
    Ok(made)
}

impl<'a> TermBank<'a> {
    /// The term with another one at a place; `None` exactly where there is no such place. It takes time and memory by the length of
    /// the place and the arguments on its way, and the machine's stack for no depth.
    pub fn replace_at(
        &mut self,
        term: Term<'a>,
        at: &Pos,
        new: Term<'a>,
    ) -> Result<Option<Term<'a>>, NoMemory>
        requires term { IsOf self.old term.now }
        requires new { IsOf self.old new.now }
        ensures found { IfOk result (λ o. MatchOption o (HasNoPlace at.now (tree_of term.now)) (λ t. IsReplaced (tree_of new.now) at.now (tree_of term.now) (tree_of t.now))) }
        ensures held { IfOk result (λ o. MatchOption o (Unit {0}) (λ t. IsOf self.new t.now)) }
        ensures grows { Grows self.old self.new }
    {
        let found = way_to(self, term, at.as_slice())?;
        let Some(mut way) = found else {
            return Ok(None);
        };
        let mut here = At { term: new };
        while let Some((node, number)) = way.pop() {
            let made = with_arg(self, node, number, here.term)?;
            here = At { term: made };
        }
        Ok(Some(here.term))
    }
}
