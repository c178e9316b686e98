ghost use Rattle.std.specs.Prelude.{◌≡◌, None, slice_get, option_and_then, position, IsTrue, MatchOption};
ghost use Rattle.std.specs.List.{position_from};
ghost use Rattle.std.specs.Option.{option_copied};
ghost use Rattle.law_sig.specs.Lists.{Each};
ghost use Rattle.law_sig.specs.Trees.{same_symbol};
ghost use Rattle.law_sig.specs.Signature.{is_declared_sort, constructors};
ghost use Rattle.law_sig.specs.WellFormed.{IsDeclared};
ghost use Rattle.law_sig.specs.Evaluate.{chosen};
ghost use Rattle.law_ids.specs.Values.{AreOf, trees_of};
ghost use Rattle.law_eval.specs.Took.{IsChosen};

use law_sig::{Body, Fun, Sig, SortId, SymId};
use law_value::{ValueBank, ValueId};

/// The body that a function takes, and the value that it matched, whose fields the body may name.
#[derive(Clone, Copy)]
pub struct Choice<'s> {
    pub body: &'s Body,
    pub matched: Option<ValueId>,
}

/// Where a constructor stands among these.
fn place_of(constructors: &[SymId], head: SymId) -> Option<usize>
    ensures { result ≡ position (same_symbol head) constructors.now }
{
    constructors.iter().position(|con| head.0 == con.0)
}

/// The body for this constructor of a sort.
fn case_of<'s>(sig: &'s Sig, fun: &'s Fun, sort: SortId, head: SymId) -> Option<&'s Body>
    requires { IsTrue (is_declared_sort sig.now sort) }
    ensures { option_copied result ≡ option_and_then (λ at. slice_get fun.now.cases at) (position_from (same_symbol head) 0 (constructors sig.now sort)) }
{
    let Some(at) = place_of(sig.constructors(sort), head) else {
        return None;
    };
    fun.cases.get(at)
}

/// The body that a function takes at these arguments.
pub fn choose<'s>(
    sig: &'s Sig,
    bank: &ValueBank,
    fun: &'s Fun,
    args: &[ValueId],
) -> Option<Choice<'s>>
    requires declared { Each (IsDeclared sig.now) fun.now.args }
    requires held { AreOf bank.now args.now }
    ensures { MatchOption result (chosen sig.now fun.now (trees_of bank.now args.now) ≡ None) (λ choice. IsChosen sig.now bank.now fun.now args.now choice.body.now choice.matched) }
{
    let Some(place) = fun.place else {
        let body = fun.cases.get(0)?;
        return Some(Choice {
            body,
            matched: None,
        });
    };
    let sort = *fun.args.get(place as usize)?;
    let matched = *args.get(place as usize)?;
    let body = case_of(sig, fun, sort, bank.head(matched))?;
    Some(Choice {
        body,
        matched: Some(matched),
    })
}
