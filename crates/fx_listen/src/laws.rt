//! Laws of tables of listeners, each a function that does nothing: its contract is the law. Layers above cite them
//! instead of the definitions' bodies.
ghost use Rattle.fx_listen.specs.Laws.{BirthRevivesNobody, EachNumberOnce, ForgettingCommutes, PlacingCommutes, PruningIsSilent, ReleaseEndsItsOwn, RemovingCommutes};

/// A number is given once.
pub fn numbers_are_given_once()
    ensures { EachNumberOnce }
{}

/// Pruning changes nobody who is live later, as long as the dead stay dead.
pub fn pruning_is_silent()
    ensures { PruningIsSilent }
{}

/// The living see an addition as all do.
pub fn additions_are_of_the_living()
    ensures { PlacingCommutes }
{}

/// The living see a removal as all do.
pub fn removals_are_of_the_living()
    ensures { RemovingCommutes }
{}

/// The living see that a property is forgotten as all do.
pub fn forgetting_is_of_the_living()
    ensures { ForgettingCommutes }
{}

/// A release ends the owner's listeners, and no others.
pub fn releases_end_their_own()
    ensures { ReleaseEndsItsOwn }
{}

/// A further owner brings nobody back, whatever its slot held.
pub fn births_revive_nobody()
    ensures { BirthRevivesNobody }
{}
