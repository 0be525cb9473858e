//! What a line of a script has done so far.
ghost use Rattle.std.specs.Prelude.{◌≡◌, ◌++◌, OnOk, map};
ghost use Rattle.fx_plain_steps.specs.Courses.{begun};
ghost use Rattle.fx_plain_steps.specs.Lines.{heard_in};
ghost use Rattle.fx_play_steps.specs.Traces.{course_of};
ghost use Rattle.fx_stage_model.specs.World.{World};

use fx_base::{Name, Value};
use fx_store_model::Notices;
use std::alloc::{AllocError, Global};

/// What was printed, which listeners were told, each by its property and number, and whether the event on its way was
/// consumed. It is a buffer for one line after the other.
#[derive(Drop)]
pub struct Trace {
    pub text: Vec<u8>,
    pub heard: Vec<(Name, u32)>,
    pub consumed: bool,
}

impl Trace {
    /// Nothing was done.
    pub fn new(alloc: Global) -> Trace
        ensures { (world : World) → course_of world result ≡ begun world }
    {
        Trace {
            text: Vec::new(alloc),
            heard: Vec::new(alloc),
            consumed: false,
        }
    }

    /// Forgets what was done, and keeps the room for more.
    pub fn clear(&mut self)
        ensures { (world : World) → course_of world self.new ≡ begun world }
    {
        self.text.clear();
        self.heard.clear();
        self.consumed = false;
    }

    /// Keeps who was told.
    pub fn keep_heard(&mut self, notices: &Notices) -> Result<(), AllocError>
        ensures rest { self.new ≡ record self.old { heard = self.new.heard } }
        ensures heard { OnOk result (self.new.heard.items ≡ self.old.heard.items ++ heard_in notices.now) }
    {
        keep_unread(&mut self.heard, notices.invalid.as_slice())?;
        keep_changed(&mut self.heard, notices.changed.as_slice())
    }
}

fn keep_unread(heard: &mut Vec<(Name, u32)>, told: &[(Name, u32)]) -> Result<(), AllocError>
    ensures { OnOk result (heard.new.items ≡ heard.old.items ++ told.now) }
{
    for notice in told {
        heard.push(*notice)?;
    }
    Ok(())
}

fn keep_changed(
    heard: &mut Vec<(Name, u32)>,
    told: &[(Name, u32, Value, Value)],
) -> Result<(), AllocError>
    ensures { OnOk result (heard.new.items ≡ heard.old.items ++ map (λ notice. (notice.0, notice.1)) told.now) }
{
    for notice in told {
        heard.push((notice.0, notice.1))?;
    }
    Ok(())
}
