use super::seq::Seq;
use super::text::Text;
use super::tree::{Body, SortId, SymId, Tree};

/// A constructor: the sort whose values it makes, and the sorts of its fields.
#[derive(Debug, Drop)]
pub struct Con {
    pub sort: SortId,
    pub args: Seq<SortId>,
}

/// A function. `cases` has one body where `place` is `None`; else it matches the argument at `place`, counted
/// from 0, and has one body for each constructor of that argument's sort, in the order of their numbers.
#[derive(Debug, Drop)]
pub struct Fun {
    pub args: Seq<SortId>,
    pub result: SortId,
    pub place: Option<u32>,
    pub cases: Seq<Body>,
}

/// A declared symbol.
#[derive(Debug, Drop)]
pub enum Sym {
    Con(Con),
    Fun(Fun),
}

/// Two terms that are said to be equal.
#[derive(Debug, Drop)]
pub struct Equation {
    pub left: Tree,
    pub right: Tree,
}

/// Where the test values come from: listed by pool, then sort, then place; or generated from a seed, with a
/// greatest height of a value and a number of pools.
#[derive(Debug, Drop)]
pub enum PoolRule {
    Given(Seq<Seq<Seq<Tree>>>),
    Seeded { seed: u64, height: u32, count: u32 },
}

/// What an exploration is asked to do. `vars` and `width` have one number for each sort, by its number: how many
/// variables (0 to 8), and how many test values in a pool (1 to 16). `weights` has one for each symbol (1 to 4).
/// `size` is the greatest weight of a term (1 to 32), `budget` the greatest cost of one application (1 to
/// 1,000,000), `pairs` how many critical pairs one conjecture may take (0 to 4,096).
#[derive(Debug, Drop)]
pub struct Settings {
    pub vars: Seq<u32>,
    pub size: u32,
    pub width: Seq<u32>,
    pub budget: u64,
    pub pairs: u32,
    pub weights: Seq<u32>,
    pub explored: Seq<SymId>,
    pub background: Seq<Equation>,
    pub pools: PoolRule,
}

/// What a signature states. Names stand by the number of their sort or symbol.
#[derive(Debug, Drop)]
pub struct SigParts {
    pub sort_names: Seq<Text>,
    pub symbol_names: Seq<Text>,
    pub symbols: Seq<Sym>,
    pub settings: Settings,
}
