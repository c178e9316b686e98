use crate::names::Names;
use law_sig::{Seq, Sym};

/// What all lines of a text declare, whatever else may be wrong with them: sorts and symbols with their names, functions
/// without their bodies, and the numbers of variables and the widths of the sorts.
#[derive(Drop)]
pub struct Whole {
    pub sorts: Names,
    pub names: Names,
    pub symbols: Seq<Sym>,
    pub vars: Seq<u64>,
    pub widths: Seq<u64>,
}
