//! Lines that name an action, and that set the window.
ghost use Rattle.std.specs.Prelude.{◌≡◌, map};
ghost use Rattle.fx_script_commands.specs.Requests.{line_view, requests_of};
ghost use Rattle.fx_stage_model.specs.Lines as spec;
ghost use Rattle.fx_stage_model.specs.Taking.{IsTaken};

use crate::stage::Stage;
use fx_base::Text;
use fx_script_commands::Line;
use fx_stage_parts::action_of;
use fx_stage_types::{Outcome, Refusal, StageError};
use fx_stage_words::{nothing, plain, side_of};
use std::alloc::Global;

impl Stage {
    /// `action NAME`: the lines up to its `end` are the action's.
    #[tactic(auto, unfolding(fx_stage_model::specs::Lines::define))]
    pub fn define(
        &mut self,
        alloc: Global,
        name: Text,
        lines: Vec<Line>,
    ) -> Result<Outcome, StageError>
        ensures { IsTaken (spec.define name (requests_of (map line_view lines.items)) self.old)
            self.old self.new result }
    {
        if self.actions.get(&name).is_some() {
            return Err(StageError::Refused(Refusal::Exists));
        }
        let Ok(action) = action_of(alloc, lines) else {
            return Err(StageError::Memory);
        };
        plain(alloc, self.actions.add(name, action))
    }

    /// `resize W H`: the window has these sides, each from 1 to 2,048 pixels.
    #[tactic(auto, unfolding(fx_stage_model::specs::Lines::resize))]
    pub fn resize(
        &mut self,
        alloc: Global,
        width: &Text,
        height: &Text,
    ) -> Result<Outcome, StageError>
        ensures { IsTaken (spec.resize width.now height.now self.old) self.old self.new result }
    {
        let Some(width) = side_of(width) else {
            return Err(StageError::Refused(Refusal::Value));
        };
        let Some(height) = side_of(height) else {
            return Err(StageError::Refused(Refusal::Value));
        };
        self.window = Some((width, height));
        Ok(nothing(alloc))
    }
}
