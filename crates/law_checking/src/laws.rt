ghost use Rattle.law_checking.specs.Planted.{LinesAreTrees};

/// What the lines of a tree are judged to be is what the tree is judged to be.
pub fn tree_laws()
    ensures { LinesAreTrees }
{}
