ghost use Rattle.std.specs.Prelude.{◌≡◌};
ghost use Rattle.law_sig.specs.Trees.{node_count};
ghost use Rattle.law_sig.specs.Tests.{weight};
ghost use Rattle.law_sig.specs.declared.parts.SigParts.{SigParts};
ghost use Rattle.law_bank.specs.declared.node.Node.{out-Node};
ghost use Rattle.law_bank.specs.Terms.{tree_of};
ghost use Rattle.law_bank.specs.Bank.{Terms, IsOf, capped};

use law_bank::Term;

/// The number of nodes of a term of any bank, or 2^64 - 1 where it is that or more. It is kept with the node.
#[tactic(auto, using(law_bank::proofs::BankFacts::size_is))]
pub fn size(term: Term<'_>) -> u64
    ensures tree { (bank : Terms) → IsOf bank term.now → result ≡ capped (node_count (tree_of term.now)) }
    ensures field { result ≡ (out-Node term.now).size }
{
    term.size
}

/// The weight of a term of any bank, or 2^64 - 1 where it is that or more. It is kept with the node.
pub fn weight(term: Term<'_>) -> u64
    ensures tree { (bank : Terms) (parts : SigParts) → IsOf bank term.now → parts.settings.weights ≡ bank.weights → result ≡ capped (weight parts (tree_of term.now)) }
    ensures field { result ≡ (out-Node term.now).weight }
{
    term.weight
}
