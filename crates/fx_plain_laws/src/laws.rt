//! The laws. Each compares two courses of the same definitions that keep what they make in the same slots.
ghost use Rattle.fx_plain_laws.specs.Lines.{OneLine};
ghost use Rattle.fx_plain_laws.specs.Loadings.{OneLoading};
ghost use Rattle.fx_plain_laws.specs.Outputs.{OneOutput};
ghost use Rattle.fx_plain_laws.specs.Scripts.{OneScript};

/// A line of a script, with the events that it sends and all actions that it sets off, makes one state and costs one
/// number of evaluations.
pub fn lines_have_one_outcome()
    ensures { OneLine }
{}

/// The lines of a script tell the same, frames and explanations among it, where each scene that is drawn is in order.
pub fn scripts_are_told_in_one_way()
    ensures { OneScript }
{}

/// The files of a run mean one thing, or have one first fault in the order of work.
pub fn files_are_loaded_in_one_way()
    ensures { OneLoading }
{}

/// What is played for some words over the same files writes one output, and ends in one way: at the same fault, or with
/// the same bytes.
pub fn runs_write_one_output()
    ensures { OneOutput }
{}
