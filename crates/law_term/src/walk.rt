ghost use Rattle.std.specs.Prelude.{◌≡◌, ◌++◌, OnOk};
ghost use Rattle.law_term.specs.Walks.{entered, IsEntered};

use indexmap::IndexMap;
use law_bank::Term;
use law_sig::NoMemory;

/// A node on the way down, or on the way up, when its arguments are done.
#[derive(Clone, Copy)]
pub enum Visit<'a> {
    Enter(Term<'a>),
    Leave(Term<'a>),
}

/// Makes these terms be entered, the first of them on top.
pub fn enter_all<'a>(visits: &mut Vec<Visit<'a>>, terms: &[Term<'a>]) -> Result<(), NoMemory>
    ensures { OnOk result (visits.new.items ≡ visits.old.items ++ entered terms.now) }
{
    match terms {
        [] => Ok(()),
        [term, terms @ ..] => {
            enter_all(visits, terms)?;
            let Ok(()) = visits.push(Visit::Enter(*term)) else {
                return Err(NoMemory);
            };
            Ok(())
        }
    }
}

/// Makes a node's arguments be done before it is left, from left to right. One that is done isn't visited again.
pub fn enter<'a>(
    done: &IndexMap<u64, Term<'a>>,
    visits: &mut Vec<Visit<'a>>,
    term: Term<'a>,
) -> Result<(), NoMemory>
    ensures { OnOk result (IsEntered done.now.entries term.entry visits.old.items visits.new.items) }
{
    if done.get(&term.id).is_some() {
        return Ok(());
    }
    let Ok(()) = visits.push(Visit::Leave(term)) else {
        return Err(NoMemory);
    };
    enter_all(visits, term.args)?;
    Ok(())
}
