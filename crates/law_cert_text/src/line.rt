use crate::cert::{Entry, RawStep, RawValues, TreeLine};
use law_sig::Text;

/// A line of a certificate behind its signature. An entry stands with the steps that were read so far;
/// on its own line it has none.
#[derive(Debug, Drop)]
pub enum CertLine {
    Pool,
    Values(RawValues),
    Entry(Entry),
    Step(RawStep),
    Tree(Text),
    Node(TreeLine),
    End,
}

/// The word that a line begins with.
#[derive(Clone, Copy, Debug)]
pub enum Key {
    Pool,
    Values,
    Law,
    Lemma,
    Spread,
    Killed,
    Live,
    Moved,
    Step,
    Tree,
    Split,
    Class,
    Leaf,
    End,
}
