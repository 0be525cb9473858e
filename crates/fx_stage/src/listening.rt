//! Lines on owners and listeners.
ghost use Rattle.std.specs.Prelude.{◌≡◌, ◌≤◌, ℕ, is_some, nat_eq, ◌+◌};
ghost use Rattle.std.specs.Map.{lookup};
ghost use Rattle.std.specs.Option.{option_copied};
ghost use Rattle.fx_store_model.specs.Refusals.{owner_refusal};
ghost use Rattle.fx_stage_types.specs.declared.refusals.Refusal.TheVariants as word;
ghost use Rattle.fx_stage_model.specs.Answers.{cost_of, silently, unless};
ghost use Rattle.fx_stage_model.specs.Listening as spec;
ghost use Rattle.fx_stage_model.specs.Taking.{IsTaken};
ghost use Rattle.fx_stage_model.specs.World.{with_store};
ghost use Rattle.fx_store_model.specs.Stored.{after_end};
ghost use Rattle.fx_stage.specs.Noting.{IsListen, added};

use crate::stage::Stage;
use fx_base::{Ledgers, List, Name, Text, Work};
use fx_handles::Owner;
use fx_stage_parts::{
    both, has_living_owner, has_new, listen_kind_named, new_action, note_if, reserve_note, tag_of,
};
use fx_stage_types::{Outcome, Refusal, StageError};
use fx_stage_words::{copy_names, nothing, told};
use fx_store_model::Change;
use std::alloc::Global;

impl Stage {
    /// `owner LABEL`: a further owner of listeners, known by the label.
    #[tactic(auto, unfolding(fx_stage_model::specs::Listening::own))]
    pub fn own(&mut self, alloc: Global, label: &Text) -> Result<Outcome, StageError>
        ensures { (slot : ℕ) × IsTaken (spec.own slot label.now self.old) self.old self.new result }
    {
        if has_living_owner(&self.labels, &self.store, label) {
            return Err(StageError::Refused(Refusal::Exists));
        }
        let Ok(label) = label.copy(alloc) else {
            return Err(StageError::Memory);
        };
        self.add_owner(alloc, label)
    }

    fn add_owner(&mut self, alloc: Global, label: Text) -> Result<Outcome, StageError>
        ensures { (slot : ℕ) × IsTaken (unless (is_some (owner_refusal self.old.store.owners)) word.Full
            (silently (spec.with_owner label (spec.next_owner slot self.old) self.old))) self.old self.new result }
    {
        let Ok(()) = self.labels.reserve() else {
            return Err(StageError::Memory);
        };
        let owner = match self.store.make_owner(alloc) {
            Ok(owner) => owner,
            Err(error) => return Err(StageError::from(error)),
        };
        match self.labels.put(label, owner) {
            Ok(()) => Ok(nothing(alloc)),
            Err(_) => unreachable!(),
        }
    }

    /// `release LABEL`: the owner's life ends, and with it that of its listeners.
    #[tactic(auto, unfolding(fx_stage_model::specs::Listening::release))]
    pub fn release(&mut self, alloc: Global, label: &Text) -> Result<Outcome, StageError>
        ensures { IsTaken (spec.release label.now self.old) self.old self.new result }
    {
        let Some(owner) = self.labels.get(label).copied() else {
            return Err(StageError::Refused(Refusal::Unknown));
        };
        if !self.store.is_alive(owner) {
            return Err(StageError::Refused(Refusal::Stale));
        }
        self.end_owner(owner);
        Ok(nothing(alloc))
    }

    fn end_owner(&mut self, owner: Owner)
        ensures { self.new ≡ with_store (after_end owner self.old.store) self.old }
    {
        let _ = self.store.release_owner(owner);
    }

    /// `listen invalid|change NAME [LABEL]`, and with an action `watch`: a further listener on the property, with the
    /// owner of the label if one is given.
    #[tactic(auto, unfolding(fx_stage_model::specs::Listening::listen))]
    pub fn listen<L: Ledgers>(
        &mut self,
        alloc: Global,
        kind: &Text,
        path: &[Text],
        action: Option<&Text>,
        label: Option<&Text>,
        work: &mut Work<L>,
    ) -> Result<Outcome, StageError>
        ensures taken { IsTaken
            (spec.listen kind.now path.now (option_copied action.entry) (option_copied label.entry) self.old)
            self.old self.new result }
        ensures few { work.new.evaluated ≤ work.old.evaluated
            + cost_of (spec.listen kind.now path.now (option_copied action.entry) (option_copied label.entry)
            self.old) }
        ensures others { work.new ≡ record work.old { evaluated = work.new.evaluated } }
    {
        let (name, owner) = match self.find_both(path, label) {
            Ok(found) => found,
            Err(word) => return Err(StageError::Refused(word)),
        };
        let Ok(asked) = copy_names(alloc, path) else {
            return Err(StageError::Memory);
        };
        let Ok(runs) = new_action(alloc, self.run.as_slice(), action) else {
            return Err(StageError::Memory);
        };
        let change = Change::Listen(
            name,
            listen_kind_named(kind),
            owner,
            tag_of(self.run.as_slice(), action),
        );
        self.add_listener(alloc, change, asked, runs, work)
    }

    /// `unlisten invalid|change NAME [LABEL]`, and with an action `unwatch`: the first equal listener goes.
    #[tactic(auto, unfolding(fx_stage_model::specs::Listening::unlisten))]
    pub fn unlisten<L: Ledgers>(
        &mut self,
        alloc: Global,
        kind: &Text,
        path: &[Text],
        action: Option<&Text>,
        label: Option<&Text>,
        work: &mut Work<L>,
    ) -> Result<Outcome, StageError>
        ensures taken { IsTaken
            (spec.unlisten kind.now path.now (option_copied action.entry) (option_copied label.entry) self.old)
            self.old self.new result }
        ensures few { work.new.evaluated ≤ work.old.evaluated
            + cost_of (spec.unlisten kind.now path.now (option_copied action.entry) (option_copied label.entry)
            self.old) }
        ensures others { work.new ≡ record work.old { evaluated = work.new.evaluated } }
    {
        let (name, owner) = match self.find_both(path, label) {
            Ok(found) => found,
            Err(word) => return Err(StageError::Refused(word)),
        };
        let change = Change::Unlisten(
            name,
            listen_kind_named(kind),
            owner,
            tag_of(self.run.as_slice(), action),
        );
        self.change_store(alloc, change, work)
    }

    /// The path by which the living listener of this number was asked for, as its line wrote it.
    pub fn written(&self, listener: u32) -> Option<&[Text]>
        ensures { option_copied result ≡ lookup (nat_eq listener) self.now.names.written }
    {
        if !self.store.is_listening(listener) {
            return None;
        }
        match self.written.get(&listener) {
            None => None,
            Some(path) => Some(path.as_slice()),
        }
    }

    /// The property and the owner, or the first word for why one isn't there.
    fn find_both(
        &self,
        path: &[Text],
        label: Option<&Text>,
    ) -> Result<(Name, Option<Owner>), Refusal>
        ensures { result ≡ spec.find_both self.now path.now (option_copied label.entry) }
    {
        both(self.find_property(path), self.owner_of(label))
    }

    /// The owner of the label, if one is given.
    fn owner_of(&self, label: Option<&Text>) -> Result<Option<Owner>, Refusal>
        ensures { result ≡ spec.owner_of self.now (option_copied label.entry) }
    {
        match label {
            None => Ok(None),
            Some(label) => match self.labels.get(label) {
                None => Err(Refusal::Unknown),
                Some(owner) => Ok(Some(*owner)),
            },
        }
    }

    /// Makes the change that adds a listener, and keeps by which path it was asked for, and which action it runs if
    /// that is a new one.
    fn add_listener<L: Ledgers>(
        &mut self,
        alloc: Global,
        change: Change,
        asked: List<Text>,
        runs: Option<Text>,
        work: &mut Work<L>,
    ) -> Result<Outcome, StageError>
        requires listens { IsListen change }
        ensures taken { IsTaken (added change asked runs self.old) self.old self.new result }
        ensures few { work.new.evaluated ≤ work.old.evaluated + cost_of (added change asked runs self.old) }
        ensures others { work.new ≡ record work.old { evaluated = work.new.evaluated } }
    {
        let Ok(()) = reserve_note(&mut self.run, &mut self.written) else {
            return Err(StageError::Memory);
        };
        let given = self.store.given();
        self.store.laws();
        let answer = self.store.apply(alloc, change, work);
        let there = has_new(&self.store, given);
        note_if(there, &mut self.run, &mut self.written, given, asked, runs);
        told(alloc, answer)
    }
}
