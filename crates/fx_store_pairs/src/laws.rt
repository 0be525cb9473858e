//! Laws of joined names, each a function that does nothing: its contract is the law. Layers above cite them instead of
//! the definition's body.
ghost use Rattle.fx_store_pairs.specs.Laws.{JoinedIsWalked, JoiningIsAnEquivalence, JoiningIsLeast, PairsAreJoined};

/// A name is joined with itself, two names either way round, and what is joined with a joined name is joined.
pub fn joining_is_an_equivalence()
    ensures { JoiningIsAnEquivalence }
{}

/// The two names of each pair are joined.
pub fn pairs_are_joined()
    ensures { PairsAreJoined }
{}

/// Every equivalence that holds of the pairs holds of joined names.
pub fn joining_is_least()
    ensures { JoiningIsLeast }
{}

/// Two names are joined where a walk over the pairs, each in either direction, leads from the one to the other.
pub fn joined_is_walked()
    ensures { JoinedIsWalked }
{}
