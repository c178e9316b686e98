ghost use Rattle.std.specs.Prelude.{◌≡◌, ℕ, ◌<◌, ◌^◌, ◌+◌, ◌-◌, ◌↔◌, List, [], ◌∷◌, length, map, min, take, drop, slice_get, position, IfOk, OnOk, OnErr, IsTrue, Some};
ghost use Rattle.law_sig.specs.Lists.{Each, total};
ghost use Rattle.law_sig.specs.Trees.{node_count};
ghost use Rattle.law_sig.specs.declared.tree.Tree.{Tree};
ghost use Rattle.law_sig.specs.declared.tree.Tree.TheVariants.{App};
ghost use Rattle.law_value.specs.Cells.{IsCell, has_parts};
ghost use Rattle.law_ids.specs.Tops.{tops};
ghost use Rattle.law_value.specs.Writing.{piece_of, pieces, IsPartOf, IsOpened, IsAdvanced};
ghost use Rattle.law_ids.specs.Values.{IsOf, AreOf, tree_of, trees_of, head_of, fields_of, IsShared, Grows, Adds, is_plain};

use indexmap::IndexSet;
use law_ids::ValueId;
use law_sig::{NoMemory, Seq, SymId, Tree};
use std::alloc::Global;
use std::marker::Model;

/// A value by its constructor and its fields. The number of its nodes, which these determine, is kept beside them;
/// it is 2^64 - 1 where it is that or more.
#[derive(Drop)]
#[derive_where(Debug, PartialEq, Eq, Hash)]
struct Cell {
    sym: SymId,
    fields: Vec<ValueId>,
    #[derive_where(skip(EqHashOrd))]
    nodes: u64,
}

/// Something that is left to do while a value is written: the tree of a value, or a symbol over so many of the trees
/// that are written.
#[derive(Clone, Copy)]
enum Part {
    Whole(ValueId),
    Join(SymId, u32),
}

/// Values, each kept once. Contracts see a bank as the list of its values, each at the place that its id names. `wanted` is
/// the cell that was looked for last; its room is kept for the next one.
#[derive(Debug, Drop)]
pub struct ValueBank {
    alloc: Global,
    cells: IndexSet<Cell>,
    wanted: Cell,
}

impl Model for ValueBank {
    ghost use Rattle.std.specs.Prelude.{List};
    ghost use Rattle.std.specs.Coded.{codes};
    ghost use Rattle.law_sig.specs.declared.tree.Tree.{Tree};
    ghost use Rattle.law_sig.specs.contracts.tree.Tree as tree;
    ghost use Rattle.law_value.specs.Cells.{trees, AreCells};

    ghost Value = { List Tree };

    ghost coded = { Prim.hlevel (codes, tree.the_row.coded) };

    ghost view = { λ bank. trees bank.cells.keys };

    ghost invariant = { λ bank. AreCells bank.cells.keys (trees bank.cells.keys) };
}

impl ValueBank {
    /// A bank with no values. It takes no memory.
    pub fn new(alloc: Global) -> ValueBank
        ensures { result ≡ [] }
    {
        ValueBank {
            alloc,
            cells: IndexSet::new(alloc),
            wanted: Cell {
                sym: SymId(0),
                fields: Vec::new(alloc),
                nodes: 0,
            },
        }
    }

    /// Whether two ids are the same, which of one bank's ids says whether their values are.
    pub fn same(a: ValueId, b: ValueId) -> bool
        ensures ids { IsTrue result ↔ (a ≡ b) }
        ensures trees { (bank : List Tree) → IsShared bank → IsOf bank a → IsOf bank b → (IsTrue result ↔ (tree_of bank a ≡ tree_of bank b)) }
    {
        a.0 == b.0
    }

    /// Does nothing. Its contract says of any bank that no two of its ids have one value.
    pub fn shared(&self)
        ensures { IsShared self.now }
    {
        let _ = &self.cells;
    }

    /// The cell of an id.
    fn cell(&self, id: ValueId) -> &Cell
        requires { IsOf self.now id }
        ensures cell { IsCell self.now id.0 result.now }
        ensures shared { IsShared self.now }
    {
        match self.cells.get_index(id.0 as usize) {
            Some(cell) => cell,
            None => unreachable!(),
        }
    }

    /// The constructor of a value.
    pub fn head(&self, id: ValueId) -> SymId
        requires { IsOf self.now id }
        ensures head { head_of (tree_of self.now id) ≡ Some result }
        ensures shared { IsShared self.now }
    {
        self.cell(id).sym
    }

    /// How many fields a value has.
    pub fn fields(&self, id: ValueId) -> u32
        requires { IsOf self.now id }
        ensures { result ≡ length (fields_of (tree_of self.now id)) }
    {
        self.cell(id).fields.len() as u32
    }

    /// The field of a value at a place, counted from 0. It was made before the value.
    pub fn field(&self, id: ValueId, at: u32) -> ValueId
        requires id { IsOf self.now id }
        requires at { at < length (fields_of (tree_of self.now id)) }
        ensures id { IsOf self.now result }
        ensures tree { slice_get (fields_of (tree_of self.now id)) at ≡ Some (tree_of self.now result) }
        ensures earlier { result.0 < id.0 }
    {
        self.cell(id).fields[at as usize]
    }

    /// The number of nodes of a value, or 2^64 - 1 where it is that or more. It is kept and not counted.
    pub fn nodes(&self, id: ValueId) -> u64
        requires { IsOf self.now id }
        ensures { result ≡ min (node_count (tree_of self.now id)) (2 ^ 64 - 1) }
    {
        self.cell(id).nodes
    }

    /// 1 and the nodes of these values, or 2^64 - 1 where that is less.
    fn nodes_over(&self, fields: &[ValueId]) -> u64
        requires { AreOf self.now fields.now }
        ensures { result ≡ min (1 + total (map node_count (trees_of self.now fields.now))) (2 ^ 64 - 1) }
    {
        let mut count = 1u64;
        for field in fields {
            count = count.saturating_add(self.nodes(*field));
        }
        count
    }

    /// The value that a constructor makes of these fields. A value that the bank has already keeps its id, and takes
    /// no memory but the room in which it is looked for.
    pub fn make(&mut self, sym: SymId, fields: &[ValueId]) -> Result<ValueId, NoMemory>
        requires held { AreOf self.old fields.now }
        requires few { length fields.now < 2 ^ 32 }
        ensures id { IfOk result (λ v. IsOf self.new v) }
        ensures tree { IfOk result (λ v. tree_of self.new v ≡ App sym (trees_of self.old fields.now)) }
        ensures adds { OnOk result (Adds self.old self.new (App sym (trees_of self.old fields.now))) }
        ensures grows { Grows self.old self.new }
        ensures shared { IsShared self.new }
        ensures err { OnErr result (self.new ≡ self.old) }
    {
        let Ok(known) = find(&self.cells, &mut self.wanted, sym, fields) else {
            return Err(NoMemory);
        };
        match known {
            Some(place) => Ok(ValueId(place as u64)),
            None => self.add(sym, fields),
        }
    }

    /// The same, with a cell that is made anew.
    fn add(&mut self, sym: SymId, fields: &[ValueId]) -> Result<ValueId, NoMemory>
        requires held { AreOf self.old fields.now }
        requires few { length fields.now < 2 ^ 32 }
        ensures id { IfOk result (λ v. IsOf self.new v) }
        ensures tree { IfOk result (λ v. tree_of self.new v ≡ App sym (trees_of self.old fields.now)) }
        ensures adds { OnOk result (Adds self.old self.new (App sym (trees_of self.old fields.now))) }
        ensures grows { Grows self.old self.new }
        ensures shared { IsShared self.new }
        ensures err { OnErr result (self.new ≡ self.old) }
    {
        let nodes = self.nodes_over(fields);
        let Ok(fields) = Vec::from_slice(self.alloc, fields) else {
            return Err(NoMemory);
        };
        let Ok((at, _)) = self.cells.insert_full(Cell { sym, fields, nodes }) else {
            return Err(NoMemory);
        };
        Ok(ValueId(at as u64))
    }

    /// The id of a value that is given as a tree. What was added before a refusal stays in the bank.
    pub fn read_value(&mut self, tree: &Tree) -> Result<ValueId, NoMemory>
        requires { IsTrue (is_plain tree.now) }
        ensures id { IfOk result (λ v. IsOf self.new v) }
        ensures tree { IfOk result (λ v. tree_of self.new v ≡ tree.now) }
        ensures grows { Grows self.old self.new }
        ensures shared { IsShared self.new }
    {
        match tree {
            Tree::Var(_, _) => unreachable!(),
            Tree::App(sym, args) => {
                let mut fields = Vec::new(self.alloc);
                for arg in args.as_slice() {
                    let field = self.read_value(arg)?;
                    let Ok(()) = fields.push(field) else {
                        return Err(NoMemory);
                    };
                }
                self.make(*sym, fields.as_slice())
            }
        }
    }

    /// A value as a tree of its own. It takes the machine's stack for no depth of the value.
    pub fn write_value(&self, id: ValueId) -> Result<Tree, NoMemory>
        requires { IsOf self.now id }
        ensures tree { IfOk result (λ tree. tree ≡ tree_of self.now id) }
        ensures plain { IfOk result (λ tree. IsTrue (is_plain tree)) }
    {
        let mut left = Vec::new(self.alloc);
        let Ok(()) = left.push(Part::Whole(id)) else {
            return Err(NoMemory);
        };
        let mut done = Vec::new(self.alloc);
        while let Some(part) = left.pop() {
            self.write_part(&mut left, &mut done, part)?;
        }
        match done.pop() {
            Some(tree) => Ok(tree),
            None => unreachable!(),
        }
    }

    /// Writes a part, or gives way to the parts of it.
    fn write_part(
        &self,
        left: &mut Vec<Part>,
        done: &mut Vec<Tree>,
        part: Part,
    ) -> Result<(), NoMemory>
        requires part { IsPartOf self.now part }
        requires held { Each (IsPartOf self.now) (tops (λ p. p) left.old.items) }
        ensures { OnOk result (IsAdvanced self.now (piece_of self.now part ∷ pieces self.now left.old.items) (tops (λ t. t) done.old.items) left.new.items (tops (λ t. t) done.new.items)) }
    {
        match part {
            Part::Whole(id) => self.open(left, id),
            Part::Join(sym, count) => join(self.alloc, done, sym, count),
        }
    }

    /// Puts the fields of a value before what is left to write, and after them that they are to be joined.
    fn open(&self, left: &mut Vec<Part>, id: ValueId) -> Result<(), NoMemory>
        requires id { IsOf self.now id }
        requires held { Each (IsPartOf self.now) (tops (λ p. p) left.old.items) }
        ensures held { OnOk result (Each (IsPartOf self.now) (tops (λ p. p) left.new.items)) }
        ensures pieces { OnOk result (IsOpened (tree_of self.now id) (pieces self.now left.old.items) (pieces self.now left.new.items)) }
    {
        let head = self.head(id);
        let count = self.fields(id);
        let Ok(()) = left.push(Part::Join(head, count)) else {
            return Err(NoMemory);
        };
        for at in 0..count {
            let Ok(()) = left.push(Part::Whole(self.field(id, at))) else {
                return Err(NoMemory);
            };
        }
        Ok(())
    }
}

/// The place of the cell with these parts, which is looked for by a cell that is made in its own room.
fn find(
    cells: &IndexSet<Cell>,
    wanted: &mut Cell,
    sym: SymId,
    fields: &[ValueId],
) -> Result<Option<usize>, NoMemory>
    ensures { IfOk result (λ at. at ≡ position (has_parts sym fields.now) cells.now.keys) }
{
    wanted.sym = sym;
    wanted.fields.clear();
    let Ok(()) = wanted.fields.extend_from_slice(fields) else {
        return Err(NoMemory);
    };
    Ok(cells.get_index_of(&*wanted))
}

/// Makes one tree of the last ones written, of which the first field is the last.
fn join(alloc: Global, done: &mut Vec<Tree>, sym: SymId, count: u32) -> Result<(), NoMemory>
    ensures { OnOk result (tops (λ t. t) done.new.items ≡ App sym (take count (tops (λ t. t) done.old.items)) ∷ drop count (tops (λ t. t) done.old.items)) }
{
    let mut fields = Seq::new(alloc);
    for _at in 0..count {
        let Some(field) = done.pop() else {
            continue;
        };
        fields.push(field)?;
    }
    let Ok(()) = done.push(Tree::App(sym, fields)) else {
        return Err(NoMemory);
    };
    Ok(())
}
