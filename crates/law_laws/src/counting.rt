ghost use Rattle.law_laws.specs.Counting.{CountIsOfTerms, ListingsAreCounted};

/// There is a list that has each term of the universe once, and nothing else, and every such list is as long as the
/// terms are counted.
pub fn counting_laws()
    ensures listed { CountIsOfTerms }
    ensures every { ListingsAreCounted }
{}
