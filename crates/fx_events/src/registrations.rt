//! What is registered at one node. `Handlers` keeps one such list for each node that has registrations.
ghost use Rattle.std.specs.Prelude.{◌≡◌, ◌++◌, ◌∷◌, ◌<◌, [], count_by, length, position, IfOk, IfSome, OnOk, OnErr};
ghost use Rattle.fx_base.specs.Answers.{IsAnswer};
ghost use Rattle.fx_events.specs.Handlers.{actions_for, add_refusal, calls_as, calls_at, is_for, is_in, replaced_by, with_registration};

use crate::{EventError, EventKind, Phase};
use fx_base::Text;
use std::alloc::{AllocError, Global};
use std::marker::Model;

/// The most registrations of one node in one phase.
pub const MOST_REGISTERED: usize = 64;

/// What a node does at an event of this type, in this phase.
#[derive(Drop)]
pub struct Registration {
    pub on: EventKind,
    pub phase: Phase,
    pub action: Text,
}

impl Registration {
    fn is_for(&self, on: EventKind, phase: Phase) -> bool
        ensures { result ≡ is_for on phase self.now }
    {
        self.on.is(on) && self.phase.is(phase)
    }

    fn is_in(&self, phase: Phase) -> bool
        ensures { result ≡ is_in phase self.now }
    {
        self.phase.is(phase)
    }
}

/// The registrations of a node in their order.
#[derive(Drop)]
pub struct NodeHandlers {
    registrations: Vec<Registration>,
}

impl Model for NodeHandlers {
    ghost use Rattle.std.specs.Prelude.{List};
    ghost use Rattle.fx_events.specs.declared.registrations.Registration.{Registration};

    ghost Value = { List Registration };

    ghost view = { λ n. n.registrations.items };
}

impl NodeHandlers {
    /// The list of this registration alone.
    pub fn of(alloc: Global, registration: Registration) -> Result<NodeHandlers, AllocError>
        ensures { IfOk result (λ node. node ≡ registration ∷ []) }
    {
        let mut registrations = Vec::new(alloc);
        registrations.push(registration)?;
        Ok(NodeHandlers { registrations })
    }

    /// Registers, in place of a convenience handler of the type if this is one too.
    pub fn add(&mut self, registration: Registration) -> Result<(), EventError>
        ensures added { OnOk result (self.new ≡ with_registration registration self.old) }
        ensures answer { IsAnswer EventError.Memory (add_refusal registration self.old) result }
        ensures err { OnErr result (self.new ≡ self.old) }
    {
        if let Some(place) = self.replaced_by(&registration) {
            self.registrations[place] = registration;
            return Ok(());
        }
        if self.count(registration.phase) == MOST_REGISTERED {
            return Err(EventError::Full);
        }
        self.registrations.push(registration)?;
        Ok(())
    }

    /// The place of the convenience handler that gives way to this one.
    fn replaced_by(&self, new: &Registration) -> Option<usize>
        ensures place { result ≡ replaced_by new.now self.now }
        ensures within { IfSome result (λ place. place < length self.now) }
    {
        if !new.is_in(Phase::Convenience) {
            return None;
        }
        self.place_of(new.on, Phase::Convenience)
    }

    fn place_of(&self, on: EventKind, phase: Phase) -> Option<usize>
        ensures place { result ≡ position (is_for on phase) self.now }
        ensures within { IfSome result (λ place. place < length self.now) }
    {
        self.registrations
            .iter()
            .position(|registration| registration.is_for(on, phase))
    }

    fn count(&self, phase: Phase) -> usize
        ensures { result ≡ count_by (is_in phase) self.now }
    {
        self.registrations
            .iter()
            .filter(|registration| registration.is_in(phase))
            .count()
    }

    /// What an event of this type calls in this phase.
    pub fn calls(&self, alloc: Global, on: EventKind, phase: Phase) -> Result<Vec<Text>, AllocError>
        ensures { IfOk result (λ calls. calls.items ≡ calls_at self.now on phase) }
    {
        let mut calls = Vec::new(alloc);
        for kind in on.types() {
            self.push_calls(alloc, *kind, phase, &mut calls)?;
        }
        Ok(calls)
    }

    /// Puts what the event calls as one of this type behind the calls.
    fn push_calls(
        &self,
        alloc: Global,
        kind: EventKind,
        phase: Phase,
        calls: &mut Vec<Text>,
    ) -> Result<(), AllocError>
        ensures { OnOk result (calls.new.items ≡ calls.old.items ++ calls_as phase self.now kind) }
    {
        for part in phase.parts() {
            self.push_actions(alloc, kind, *part, calls)?;
        }
        Ok(())
    }

    /// Puts the actions of this type and phase behind the calls.
    fn push_actions(
        &self,
        alloc: Global,
        kind: EventKind,
        phase: Phase,
        calls: &mut Vec<Text>,
    ) -> Result<(), AllocError>
        ensures { OnOk result (calls.new.items ≡ calls.old.items ++ actions_for kind phase self.now) }
    {
        for registration in self.registrations.as_slice() {
            if registration.is_for(kind, phase) {
                calls.push(registration.action.copy(alloc)?)?;
            }
        }
        Ok(())
    }
}
