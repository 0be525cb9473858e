//! The lines of an action.
ghost use Rattle.std.specs.Prelude.{◌≡◌, IfOk, map};
ghost use Rattle.fx_script_commands.specs.Requests.{line_view};

use fx_script_commands::Line;
use std::alloc::{AllocError, Global};
use std::marker::Model;
use std::rc::Rc;

/// The lines of an action. They are shared, so that they can run while the stage changes.
#[derive(Drop)]
pub struct Action {
    shared: Rc<Vec<Line>>,
}

impl Model for Action {
    ghost use Rattle.std.specs.Prelude.{List, map};
    ghost use Rattle.std.specs.Coded.{coded_list};
    ghost use Rattle.fx_script_commands.specs.Requests.{Numbered, line_view};
    ghost use Rattle.fx_stage_model.specs.Coding.{coded_numbered};

    ghost Value = { List Numbered };

    ghost coded = { coded_list coded_numbered };

    ghost view = { λ a. map line_view a.shared.value.items };
}

impl Action {
    /// The same action, for one who runs it.
    pub fn share(&self) -> Result<Action, AllocError>
        ensures { IfOk result (λ action. action ≡ self.now) }
    {
        let shared = self.shared.clone()?;
        Ok(Action { shared })
    }

    /// The lines in their order.
    pub fn lines(&self) -> &[Line]
        ensures { map line_view result.now ≡ self.now }
    {
        self.shared.as_slice()
    }
}

/// The action with these lines.
pub fn action_of(alloc: Global, lines: Vec<Line>) -> Result<Action, AllocError>
    ensures { IfOk result (λ action. action ≡ map line_view lines.items) }
{
    let shared = Rc::new(alloc, lines)?;
    Ok(Action { shared })
}
