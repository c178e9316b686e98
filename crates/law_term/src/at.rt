use law_bank::Term;

/// A term on the way through others: a loop moves it along, which it can't do with a reference.
#[derive(Clone, Copy)]
pub struct At<'a> {
    pub term: Term<'a>,
}
