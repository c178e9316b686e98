/// What is read of the lines of trees: the schemas of classes, the terms of leaves, or the tests of splits.
#[derive(Clone, Copy, Debug)]
pub enum Part {
    Schemas,
    Leaves,
    Tests,
}
