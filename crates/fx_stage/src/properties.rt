//! Lines on properties.
ghost use Rattle.std.specs.Prelude.{◌≡◌, false, ◌≤◌, ◌+◌};
ghost use Rattle.fx_graph_model.specs.Refusals.{kind_at};
ghost use Rattle.fx_graph_model.specs.Uses.{unknown_in};
ghost use Rattle.fx_store_model.specs.declared.changes.Change.TheVariants.{Set};
ghost use Rattle.fx_store_model.specs.Laws.{takes_away};
ghost use Rattle.fx_store_model.specs.Step.{IsFit};
ghost use Rattle.fx_stage_model.specs.Answers.{cost_of};
ghost use Rattle.fx_stage_model.specs.Properties as spec;
ghost use Rattle.fx_stage_model.specs.Taking.{IsTaken};

use crate::stage::Stage;
use fx_base::{Kind, Ledgers, Name, Text, Value, Work};
use fx_stage_types::{Outcome, Refusal, StageError};
use fx_stage_words::{read, told, told_value};
use fx_store_model::Change;
use std::alloc::Global;

impl Stage {
    /// Makes a change of the store that forgets no properties.
    pub(crate) fn change_store<L: Ledgers>(
        &mut self,
        alloc: Global,
        change: Change,
        work: &mut Work<L>,
    ) -> Result<Outcome, StageError>
        requires keeps { takes_away change ≡ false }
        requires fit { IsFit change self.old.store }
        ensures taken { IsTaken (spec.changed change self.old) self.old self.new result }
        ensures few { work.new.evaluated ≤ work.old.evaluated + cost_of (spec.changed change self.old) }
        ensures others { work.new ≡ record work.old { evaluated = work.new.evaluated } }
    {
        told(alloc, self.store.apply(alloc, change, work))
    }

    /// `set NAME REST`: the property, and all that are joined with it, have the value that the text spells.
    #[tactic(auto, unfolding(fx_stage_model::specs::Properties::set))]
    pub fn set<L: Ledgers>(
        &mut self,
        alloc: Global,
        path: &[Text],
        text: &str,
        work: &mut Work<L>,
    ) -> Result<Outcome, StageError>
        ensures taken { IsTaken (spec.set path.now text.now self.old) self.old self.new result }
        ensures few { work.new.evaluated ≤ work.old.evaluated + cost_of (spec.set path.now text.now self.old) }
        ensures others { work.new ≡ record work.old { evaluated = work.new.evaluated } }
    {
        let name = match self.find_property(path) {
            Ok(name) => name,
            Err(word) => return Err(StageError::Refused(word)),
        };
        if self.store.is_read_only(name) {
            return Err(StageError::Refused(Refusal::ReadOnly));
        }
        let value = match read(alloc, self.kind_of(name), text) {
            Ok(Some(value)) => value,
            Ok(None) => return Err(StageError::Refused(Refusal::Value)),
            Err(_) => return Err(StageError::Memory),
        };
        self.change_store(alloc, Change::Set(name, value), work)
    }

    /// The property, and all that are joined with it, have this value from now on.
    pub fn animate<L: Ledgers>(
        &mut self,
        alloc: Global,
        name: Name,
        value: Value,
        work: &mut Work<L>,
    ) -> Result<Outcome, StageError>
        ensures taken { IsTaken (spec.changed (Set name value) self.old) self.old self.new result }
        ensures few { work.new.evaluated ≤ work.old.evaluated + cost_of (spec.changed (Set name value) self.old) }
        ensures others { work.new ≡ record work.old { evaluated = work.new.evaluated } }
    {
        self.change_store(alloc, Change::Set(name, value), work)
    }

    /// The kind of a property, which is known.
    pub fn kind_of(&self, name: Name) -> Kind
        ensures { unknown_in self.now.store.entries name.0 ≡ false
            → result ≡ kind_at self.now.store.entries name.0 }
    {
        match self.store.kind(name) {
            Some(kind) => kind,
            None => Kind::Bool,
        }
    }

    /// `get NAME`: reads the property.
    #[tactic(auto, unfolding(fx_stage_model::specs::Properties::get))]
    pub fn get<L: Ledgers>(
        &mut self,
        alloc: Global,
        path: &[Text],
        work: &mut Work<L>,
    ) -> Result<Outcome, StageError>
        ensures taken { IsTaken (spec.get path.now self.old) self.old self.new result }
        ensures few { work.new.evaluated ≤ work.old.evaluated + cost_of (spec.get path.now self.old) }
        ensures others { work.new ≡ record work.old { evaluated = work.new.evaluated } }
    {
        let name = match self.find_property(path) {
            Ok(name) => name,
            Err(word) => return Err(StageError::Refused(word)),
        };
        told_value(alloc, self.store.read(alloc, name, work))
    }

    /// `unbind NAME`: the property keeps the value that it has.
    #[tactic(auto, unfolding(fx_stage_model::specs::Properties::unbind))]
    pub fn unbind<L: Ledgers>(
        &mut self,
        alloc: Global,
        path: &[Text],
        work: &mut Work<L>,
    ) -> Result<Outcome, StageError>
        ensures taken { IsTaken (spec.unbind path.now self.old) self.old self.new result }
        ensures few { work.new.evaluated ≤ work.old.evaluated + cost_of (spec.unbind path.now self.old) }
        ensures others { work.new ≡ record work.old { evaluated = work.new.evaluated } }
    {
        match self.find_property(path) {
            Ok(name) => self.change_store(alloc, Change::Unbind(name), work),
            Err(word) => Err(StageError::Refused(word)),
        }
    }

    /// `pair NAME NAME`: the first has the value of the second, and they change together.
    #[tactic(auto, unfolding(fx_stage_model::specs::Properties::pair))]
    pub fn pair<L: Ledgers>(
        &mut self,
        alloc: Global,
        one: &[Text],
        other: &[Text],
        work: &mut Work<L>,
    ) -> Result<Outcome, StageError>
        ensures taken { IsTaken (spec.pair one.now other.now self.old) self.old self.new result }
        ensures few { work.new.evaluated ≤ work.old.evaluated + cost_of (spec.pair one.now other.now self.old) }
        ensures others { work.new ≡ record work.old { evaluated = work.new.evaluated } }
    {
        match self.find_two(one, other) {
            Ok((one, other)) => self.change_store(alloc, Change::Pair(one, other), work),
            Err(word) => Err(StageError::Refused(word)),
        }
    }

    /// `unpair NAME NAME`: ends the first pair of the two.
    #[tactic(auto, unfolding(fx_stage_model::specs::Properties::unpair))]
    pub fn unpair<L: Ledgers>(
        &mut self,
        alloc: Global,
        one: &[Text],
        other: &[Text],
        work: &mut Work<L>,
    ) -> Result<Outcome, StageError>
        ensures taken { IsTaken (spec.unpair one.now other.now self.old) self.old self.new result }
        ensures few { work.new.evaluated ≤ work.old.evaluated + cost_of (spec.unpair one.now other.now self.old) }
        ensures others { work.new ≡ record work.old { evaluated = work.new.evaluated } }
    {
        match self.find_two(one, other) {
            Ok((one, other)) => self.change_store(alloc, Change::Unpair(one, other), work),
            Err(word) => Err(StageError::Refused(word)),
        }
    }
}
