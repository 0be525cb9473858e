//! Handlers of events, and the route of an event. Registrations come from the scene's files and from scripts;
//! who sends an event asks for its route, and at each node of it for the actions to call.
#![tactic(auto)]

mod kinds;
mod registrations;
mod routes;

ghost use Rattle.std.specs.Prelude.{◌≡◌, IfOk, OnOk, OnErr};
ghost use Rattle.fx_base.specs.Answers.{IsAnswer};
ghost use Rattle.fx_events.specs.declared.EventError.TheVariants.{Memory};
ghost use Rattle.fx_events.specs.Handlers.{AreLimited, add_refusal, after_add, after_forget, calls_of, nobody, registrations_of};

use fx_base::{NodeKey, Text};
use indexmap::IndexMap;
pub use kinds::{EventKind, Phase};
use registrations::{NodeHandlers, Registration};
pub use routes::route;
use std::alloc::{AllocError, AllocFailed, Global};
use std::marker::Model;
use thiserror::Error;

/// Why nothing was registered.
#[derive(Debug, Drop, PartialEq, Eq, Error)]
pub enum EventError {
    /// The node has 64 registrations in this phase.
    #[error("the node has too many handlers")]
    Full,
    #[error("out of memory")]
    Memory,
}

impl<T: Drop> From<AllocFailed<T>> for EventError {
    ghost from_gives = { λ _ e. e ≡ Memory };

    fn from(_e: AllocFailed<T>) -> EventError {
        EventError::Memory
    }
}

impl From<AllocError> for EventError {
    ghost from_gives = { λ _ e. e ≡ Memory };

    fn from(_e: AllocError) -> EventError {
        EventError::Memory
    }
}

/// The registrations of all nodes. Contracts see a map from keys to lists in order of registration.
#[derive(Drop)]
pub struct Handlers {
    nodes: IndexMap<NodeKey, NodeHandlers>,
}

impl Model for Handlers {
    ghost use Rattle.std.specs.FinMap as map_of;
    ghost use Rattle.std.specs.Coded.{coded_list};
    ghost use Rattle.fx_base.specs.contracts.keys.NodeKey.{the_row as key_row};
    ghost use Rattle.fx_events.specs.contracts.registrations.Registration.{the_row as registration_row};
    ghost use Rattle.fx_events.specs.Handlers.{HandlerMap};

    ghost Value = { HandlerMap };

    ghost coded = { map_of.code key_row.coded (coded_list registration_row.coded) };

    ghost use Rattle.fx_events.specs.Handlers.{AreLimited};

    ghost view = { λ h. map_of.from_entries h.nodes.entries };

    ghost invariant = { λ h. AreLimited (map_of.from_entries h.nodes.entries) };
}

impl Handlers {
    /// Nothing is registered.
    pub fn new(alloc: Global) -> Handlers
        ensures { result ≡ nobody }
    {
        Handlers {
            nodes: IndexMap::new(alloc),
        }
    }

    /// Registers an action at a node, behind all others. A convenience handler stands in the place of the one of its
    /// type, as JavaFX's `setOnMouseClicked` does.
    pub fn add(
        &mut self,
        alloc: Global,
        key: NodeKey,
        on: EventKind,
        phase: Phase,
        action: Text,
    ) -> Result<(), EventError>
        ensures added { OnOk result (self.new
            ≡ after_add self.old key (record { on = on; phase = phase; action = action })) }
        ensures answer { IsAnswer EventError.Memory
            (add_refusal (record { on = on; phase = phase; action = action }) (registrations_of self.old key)) result }
        ensures err { OnErr result (self.new ≡ self.old) }
    {
        let registration = Registration { on, phase, action };
        if let Some(node) = self.nodes.get_mut(&key) {
            return node.add(registration);
        }
        let node = NodeHandlers::of(alloc, registration)?;
        self.nodes.insert(key, node)?;
        Ok(())
    }

    /// The actions that an event of this type calls at a node in this phase, in order.
    pub fn calls_on(
        &self,
        alloc: Global,
        key: NodeKey,
        on: EventKind,
        phase: Phase,
    ) -> Result<Vec<Text>, AllocError>
        ensures { IfOk result (λ calls. calls.items ≡ calls_of self.now key on phase) }
    {
        match self.nodes.get(&key) {
            None => Ok(Vec::new(alloc)),
            Some(node) => node.calls(alloc, on, phase),
        }
    }

    /// Takes out all that is registered at a node.
    pub fn forget(&mut self, key: NodeKey)
        ensures { self.new ≡ after_forget self.old key }
    {
        let _ = self.nodes.swap_remove(&key);
    }

    /// A node has at most 64 registrations in each phase, and at most one convenience handler of each type.
    pub fn laws(&self)
        ensures { AreLimited self.now }
    {
        let _ = &self.nodes;
    }
}
