use law_sig::Tree;

/// The rules of a valid certificate, by their printed names.
#[derive(Clone, Copy, Debug, PartialEq, Eq)]
pub enum Rule {
    V1,
    V2,
    V3,
    V4,
    V5,
    V6,
    V7,
    V8,
    V9,
}

/// What the order of checking finds: every rule holds; a rule fails at an entry; or a term has no value within the budget
/// at a test, in an entry. Entries are numbered from 1, trees go on counting, and 0 is what stands before the entries.
#[derive(Debug, Drop)]
pub enum Answer {
    Yes,
    No(Rule, u64),
    Over(u64, u64, Tree),
}
