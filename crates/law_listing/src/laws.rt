ghost use Rattle.law_sig.specs.declared.tree.Tree.{Tree};
ghost use Rattle.law_sig.specs.declared.parts.SigParts.{SigParts};
ghost use Rattle.law_listing.specs.Laws.{ConsideredAreListed, InstancesAreListed, VariablesAreListed, UniverseIsListed, RowsTellSchemas, RowsTellInstances, IsExpectedBy, LaterSpreadsDontMatter, LaterLivesDontMatter};

/// A property of terms.
pub trait Property {
    /// A term has it.
    ghost holds: { Tree → Type 0 };
}

/// The considered schemas of a weight, the instances of a schema, and the universe, each as a list that has exactly them in the order
/// of exploring.
pub fn listing_laws()
    ensures schemas { ConsideredAreListed }
    ensures instances { InstancesAreListed }
    ensures variables { VariablesAreListed }
    ensures universe { UniverseIsListed }
{}

/// Rows of numbers tell which application of a symbol, and which instance of one, comes first and next.
pub fn row_laws()
    ensures schemas { RowsTellSchemas }
    ensures instances { RowsTellInstances }
{}

/// Exactly the terms with a property, in order: none stands twice, and each is the one expected behind those before it.
pub fn expected_laws<P: Property>()
    ensures { (parts : SigParts) → IsExpectedBy parts P.holds }
{}

/// What is spread or live later than an item doesn't change what stands before it.
pub fn later_laws()
    ensures spread { LaterSpreadsDontMatter }
    ensures live { LaterLivesDontMatter }
{}
