//! Lines on what a node has of its own.
ghost use Rattle.fx_stage_types.specs.declared.edits.NodeEdit.TheVariants.{AddPseudo};
ghost use Rattle.fx_stage_types.specs.declared.refusals.Refusal.TheVariants.{Full};
ghost use Rattle.fx_stage_model.specs.Answers.{silently, unless};
ghost use Rattle.fx_stage_model.specs.Dressing as spec;
ghost use Rattle.fx_stage_model.specs.Taking.{IsTaken};

use crate::stage::Stage;
use fx_base::{NodeKey, Text};
use fx_events::Phase;
use fx_kinds::constraint_of;
use fx_stage_parts::{is_full_of_classes, is_full_of_pseudos};
use fx_stage_types::{NodeEdit, Outcome, Refusal, StageError};
use fx_stage_words::{constraint_edit, event_named, is_own_pseudo};
use std::alloc::Global;

impl Stage {
    /// `class ID WORD`: the node has one more style class, behind the others.
    #[tactic(auto, unfolding(fx_stage_model::specs::Dressing::class))]
    pub fn add_class(
        &mut self,
        alloc: Global,
        path: &[Text],
        name: &Text,
    ) -> Result<Outcome, StageError>
        ensures { IsTaken (spec.class path.now name.now self.old) self.old self.new result }
    {
        let key = match self.find_node(path) {
            Ok(key) => key,
            Err(word) => return Err(StageError::Refused(word)),
        };
        if is_full_of_classes(&self.graph, key) {
            return Err(StageError::Refused(Refusal::Full));
        }
        let Ok(name) = name.copy(alloc) else {
            return Err(StageError::Memory);
        };
        self.edit(alloc, key, NodeEdit::AddClass(name))
    }

    /// `unclass ID WORD`: the first style class that is this word goes.
    #[tactic(auto, unfolding(fx_stage_model::specs::Dressing::unclass))]
    pub fn remove_class(
        &mut self,
        alloc: Global,
        path: &[Text],
        name: &Text,
    ) -> Result<Outcome, StageError>
        ensures { IsTaken (spec.unclass path.now name.now self.old) self.old self.new result }
    {
        let key = match self.find_node(path) {
            Ok(key) => key,
            Err(word) => return Err(StageError::Refused(word)),
        };
        let Ok(name) = name.copy(alloc) else {
            return Err(StageError::Memory);
        };
        self.edit(alloc, key, NodeEdit::RemoveClass(name))
    }

    /// `pseudo ID WORD on|off`: the node has the pseudo-class, or has it no more.
    #[tactic(auto, unfolding(fx_stage_model::specs::Dressing::pseudo))]
    pub fn set_pseudo(
        &mut self,
        alloc: Global,
        path: &[Text],
        name: &Text,
        state: &Text,
    ) -> Result<Outcome, StageError>
        ensures { IsTaken (spec.pseudo path.now name.now state.now self.old) self.old self.new result }
    {
        let key = match self.find_node(path) {
            Ok(key) => key,
            Err(word) => return Err(StageError::Refused(word)),
        };
        if is_own_pseudo(name) {
            return Err(StageError::Refused(Refusal::ReadOnly));
        }
        if state.as_str() == "on" {
            return self.add_pseudo(alloc, key, name);
        }
        let Ok(name) = name.copy(alloc) else {
            return Err(StageError::Memory);
        };
        self.edit(alloc, key, NodeEdit::RemovePseudo(name))
    }

    /// The pseudo-class is set, if there is room for it.
    fn add_pseudo(
        &mut self,
        alloc: Global,
        key: NodeKey,
        name: &Text,
    ) -> Result<Outcome, StageError>
        ensures { IsTaken (unless (spec.is_full_of_pseudos self.old.graph.table key name.now) Full
            (silently (spec.edited_in key (AddPseudo name.now) self.old))) self.old self.new result }
    {
        if is_full_of_pseudos(&self.graph, key, name) {
            return Err(StageError::Refused(Refusal::Full));
        }
        let Ok(name) = name.copy(alloc) else {
            return Err(StageError::Memory);
        };
        self.edit(alloc, key, NodeEdit::AddPseudo(name))
    }

    /// `constrain ID CLASS.PROPERTY REST`: the node has the constraint with the value that the text spells, or without
    /// a text has it no more.
    #[tactic(auto, unfolding(fx_stage_model::specs::Dressing::constrain))]
    pub fn constrain(
        &mut self,
        alloc: Global,
        path: &[Text],
        name: &Text,
        text: &str,
    ) -> Result<Outcome, StageError>
        ensures { IsTaken (spec.constrain path.now name.now text.now self.old) self.old self.new result }
    {
        let key = match self.find_node(path) {
            Ok(key) => key,
            Err(word) => return Err(StageError::Refused(word)),
        };
        let Some(row) = constraint_of(name.as_str()) else {
            return Err(StageError::Refused(Refusal::Property));
        };
        let edit = match constraint_edit(alloc, name, &row, text) {
            Ok(Some(edit)) => edit,
            Ok(None) => return Err(StageError::Refused(Refusal::Value)),
            Err(_) => return Err(StageError::Memory),
        };
        self.edit(alloc, key, edit)
    }

    /// `handle` and `filter`, `ID EVENT ACTION`: the action is registered at the node.
    #[tactic(auto, unfolding(fx_stage_model::specs::Dressing::handle))]
    pub fn handle(
        &mut self,
        alloc: Global,
        phase: Phase,
        path: &[Text],
        name: &Text,
        action: &Text,
    ) -> Result<Outcome, StageError>
        ensures { IsTaken (spec.handle phase path.now name.now action.now self.old) self.old self.new result }
    {
        let key = match self.find_node(path) {
            Ok(key) => key,
            Err(word) => return Err(StageError::Refused(word)),
        };
        let Some(on) = event_named(name) else {
            return Err(StageError::Refused(Refusal::Value));
        };
        let Ok(action) = action.copy(alloc) else {
            return Err(StageError::Memory);
        };
        self.register(alloc, key, on, phase, action)
    }
}
