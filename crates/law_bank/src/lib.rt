//! Banks of shared terms: what a node is, what it means, and what stays so while a bank grows. Each function here has an empty
//! body, and its contract is the law.
#![tactic(auto)]

mod node;

ghost use Rattle.law_bank.specs.Laws.{TermsStay, SameIdSameTree, SameTreeSameId, SortsOfSignature, BindingIsPut, BindingsRise, KDecided, KboDecided, ArgumentsAreComparable};

pub use node::{Head, Node, Term};

/// A term of a bank stays one while the bank grows; terms of one bank have the same id exactly where they have the same tree;
/// result sorts that a signature gives are the signature's.
pub fn bank_laws()
    ensures stays { TermsStay }
    ensures tree { SameIdSameTree }
    ensures id { SameTreeSameId }
    ensures sorts { SortsOfSignature }
{}

/// A binding that is put among others changes what its variable stands for and nothing else, and keeps them in order.
pub fn binding_laws()
    ensures put { BindingIsPut }
    ensures rising { BindingsRise }
{}

/// Two terms of one bank are compared by their roots, and then by the first arguments that are different terms.
pub fn order_laws()
    ensures k { KDecided }
    ensures kbo { KboDecided }
    ensures arguments { ArgumentsAreComparable }
{}
