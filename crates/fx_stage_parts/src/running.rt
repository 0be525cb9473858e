//! The actions that listeners run, and the tags by which listeners name them.
ghost use Rattle.std.specs.Prelude.{◌≡◌, ◌++◌, IfOk, option_to_list};
ghost use Rattle.std.specs.Option.{option_copied};
ghost use Rattle.fx_stage_model.specs.Listening as listening;
ghost use Rattle.fx_stage_model.specs.Running as spec;

use fx_base::Text;
use fx_stage_words::{has_place, place_of_name};
use std::alloc::{AllocError, Global};

/// The name of the action that a listener with this tag runs, if it runs one.
pub fn run_tagged(run: &[Text], tag: u32) -> Option<&Text>
    ensures { option_copied result ≡ spec.run_tagged run.now tag }
{
    if tag == 0 {
        None
    } else {
        run.get(tag as usize - 1)
    }
}

/// The tag of a listener that runs this action, or none.
pub fn tag_of(run: &[Text], action: Option<&Text>) -> u32
    ensures { result ≡ listening.tag_of run.now (option_copied action.entry) }
{
    match action {
        None => 0,
        Some(action) => {
            let place = place_of_name(run, action.as_str());
            place.saturating_add(1).min(u32::MAX as usize) as u32
        }
    }
}

/// The action, if no listener ran it so far.
pub fn new_action(
    alloc: Global,
    run: &[Text],
    action: Option<&Text>,
) -> Result<Option<Text>, AllocError>
    ensures { IfOk result (λ new. run.now ++ option_to_list new
        ≡ listening.with_run (option_copied action.entry) run.now) }
{
    match action {
        None => Ok(None),
        Some(action) => {
            if has_place(run, action.as_str()) {
                return Ok(None);
            }
            Ok(Some(action.copy(alloc)?))
        }
    }
}
