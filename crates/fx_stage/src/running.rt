//! The actions that run, and what the pointer, the button and the focus are on.
ghost use Rattle.std.specs.Prelude.{◌≡◌};
ghost use Rattle.std.specs.Option.{option_copied};
ghost use Rattle.fx_stage_graph.specs.Pointing.{pointed};
ghost use Rattle.fx_stage_model.specs.Running as spec;

use crate::stage::Stage;
use fx_base::{Name, Text};
use fx_stage_graph::Pointing;
use fx_stage_parts::{Action, run_tagged};

impl Stage {
    /// The lines of the action of this name, if it is defined.
    pub fn action(&self, name: &Text) -> Option<&Action>
        ensures { option_copied result ≡ spec.action_in self.now name.now }
    {
        self.actions.get(name)
    }

    /// The lines that the listener of this number on the property runs, if it is living and its action is defined.
    #[tactic(auto, unfolding(fx_stage_model::specs::Running::run_by))]
    pub fn run_by(&self, name: Name, number: u32) -> Option<&Action>
        ensures { option_copied result ≡ spec.run_by self.now name number }
    {
        match self.store.tag_of(name, number) {
            Some(tag) => self.action_tagged(tag),
            None => None,
        }
    }

    fn action_tagged(&self, tag: u32) -> Option<&Action>
        ensures { option_copied result ≡ spec.action_tagged self.now tag }
    {
        match run_tagged(self.run.as_slice(), tag) {
            Some(name) => self.action(name),
            None => None,
        }
    }

    /// Where the pointer is, in pixels from the window's upper left corner, if it was ever moved.
    pub fn pointer(&self) -> Option<(i64, i64)>
        ensures { result ≡ self.now.pointer }
    {
        self.pointer
    }

    /// Whether the button is down.
    pub fn is_button_down(&self) -> bool
        ensures { result ≡ self.now.button }
    {
        self.button
    }

    /// The pointer and the button are so from now on, and they and the focus are on these nodes.
    pub fn point(&mut self, pointer: Option<(i64, i64)>, button: bool, pointing: Pointing)
        ensures { self.new ≡ record self.old {
          pointer = pointer;
          button = button;
          graph = pointed pointing self.old.graph;
        } }
    {
        self.pointer = pointer;
        self.button = button;
        self.graph.point(pointing);
    }
}
