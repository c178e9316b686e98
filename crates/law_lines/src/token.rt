/// A piece of a line: a bracket, a space, or a word, which is what stands between those.
#[derive(Clone, Copy, Debug)]
pub enum Token<'t> {
    Open,
    Close,
    Space,
    Word(&'t [u8]),
}

/// Where a token stands in its line: from the byte `start` on, up to the byte `end` and without it.
#[derive(Clone, Copy, Debug)]
pub struct Span {
    pub start: usize,
    pub end: usize,
}
