//! `style`: the inline style of a node.
ghost use Rattle.std.specs.Prelude.{Ok};
ghost use Rattle.fx_stage_model.specs.Dressing as spec;
ghost use Rattle.fx_stage_model.specs.Taking.{IsTaken};

use crate::stage::Stage;
use fx_base::{NodeKey, Text};
use fx_css_types::Sheet;
use fx_stage_types::{NodeEdit, Outcome, Refusal, StageError};
use fx_stage_words::{copy_places, nothing, read_style};
use std::alloc::Global;

impl Stage {
    /// `style ID REST`: the text is the node's inline style. What is dropped of it is told by its place.
    #[tactic(auto, unfolding(fx_stage_model::specs::Dressing::style))]
    pub fn set_style(
        &mut self,
        alloc: Global,
        path: &[Text],
        text: &str,
    ) -> Result<Outcome, StageError>
        ensures { IsTaken (spec.style path.now text.now self.old) self.old self.new result }
    {
        let key = match self.find_node(path) {
            Ok(key) => key,
            Err(word) => return Err(StageError::Refused(word)),
        };
        let sheet = match read_style(alloc, text) {
            Ok(Some(sheet)) => sheet,
            Ok(None) => return Err(StageError::Refused(Refusal::Full)),
            Err(_) => return Err(StageError::Memory),
        };
        self.put_style(alloc, key, sheet)
    }

    /// The sheet is the node's inline style.
    fn put_style(
        &mut self,
        alloc: Global,
        key: NodeKey,
        sheet: Sheet,
    ) -> Result<Outcome, StageError>
        ensures { IsTaken (Ok (spec.styled key sheet self.old)) self.old self.new result }
    {
        let Ok(warnings) = copy_places(alloc, sheet.warnings.as_slice()) else {
            return Err(StageError::Memory);
        };
        match self.graph.edit(alloc, key, NodeEdit::SetInline(sheet)) {
            Ok(()) => Ok(Outcome {
                warnings,
                ..nothing(alloc)
            }),
            Err(_) => Err(StageError::Memory),
        }
    }
}
