//! What is true of every change of a store of properties, whatever it holds: each law is a function that does nothing,
//! and its contract is the law. Layers above cite them instead of the definitions' bodies.
ghost use Rattle.fx_store_model.specs.Laws as spec;

/// Where a change takes nothing away, known names stay known, with their kinds and their rights.
pub fn changes_keep_names()
    ensures { spec.ChangesKeepNames }
{}

/// Listeners and the ends of pairs leave the definitions as they are.
pub fn only_definitions_change_entries()
    ensures { spec.OnlyDefinitionsChangeEntries }
{}

/// Just the names that are forgotten become unknown.
pub fn forgetting_takes_the_names()
    ensures { spec.ForgettingTakesTheNames }
{}

/// The last number that was given to a listener never falls.
pub fn numbers_dont_fall()
    ensures { spec.NumbersDontFall }
{}

/// Reading changes no definition.
pub fn reads_keep_entries()
    ensures { spec.ReadsKeepEntries }
{}

/// So do known names stay where memory was wanting.
pub fn unfinished_changes_keep_names()
    ensures { spec.UnfinishedChangesKeepNames }
{}

/// Where memory was wanting, all of the names are forgotten, or none.
pub fn unfinished_forgetting_takes_all_or_none()
    ensures { spec.UnfinishedForgettingTakesAllOrNone }
{}

/// Nor does the last number fall where memory was wanting.
pub fn unfinished_numbers_dont_fall()
    ensures { spec.UnfinishedNumbersDontFall }
{}

/// Known names stay, with their kinds and their rights, whatever a change that takes nothing away answers.
pub fn applied_changes_keep_names()
    ensures { spec.AppliedChangesKeepNames }
{}

/// The last number stays or rises, whatever a change answers.
pub fn applied_numbers_dont_fall()
    ensures { spec.AppliedNumbersDontFall }
{}

/// The test finds whoever outside reads one of the names, and nobody else.
pub fn readers_outside_are_found()
    ensures { spec.ReadersOutsideAreFound }
{}

/// Names aren't forgotten just because one outside reads them, where all are known.
pub fn readers_outside_refuse()
    ensures { spec.ReadersOutsideRefuse }
{}
