//! The listeners of properties: who is told when a property changes. A listener dies with its owner, and a
//! release of the owner stands in the place of garbage collection.
#![tactic(auto)]

mod entries;
mod laws;

ghost use Rattle.fx_listen.specs.declared.ListenError.TheVariants.{Memory};
ghost use Rattle.fx_base.specs.Answers.{IsAnswer};
ghost use Rattle.fx_listen.specs.Listening as spec;
ghost use Rattle.std.specs.List.{find, list_any};
ghost use Rattle.std.specs.Option.{option_map};
ghost use Rattle.std.specs.Prelude.{◌≡◌, ◌==◌, ◌&&◌, ◌+◌, filter, length, IfOk, OnErr, OnOk};

use entries::{heard, is_any_heard, is_full_of_living, listeners_on, numbers_heard};
pub use entries::{ListenKind, Listener, has_life};
use fx_base::Name;
use fx_handles::{Owner, Owners};
use fx_store_pairs::Searched;
pub use laws::{
    additions_are_of_the_living, births_revive_nobody, forgetting_is_of_the_living,
    numbers_are_given_once, pruning_is_silent, releases_end_their_own, removals_are_of_the_living,
};
use std::alloc::{AllocError, AllocFailed, Global};
use std::marker::Model;
use thiserror::Error;

/// The most listeners that can be live at once.
pub const MOST_LIVE: usize = 10_000;

/// Why no listener was added.
#[derive(Debug, Drop, PartialEq, Eq, Error)]
pub enum ListenError {
    /// The owner that the listener was to die with is dead.
    #[error("the owner isn't alive")]
    StaleOwner,
    /// Too many listeners are live, or the last number was given.
    #[error("no more listeners can be added")]
    Full,
    /// There was no memory for the listener.
    #[error("out of memory")]
    Memory,
}

impl<T: Drop> From<AllocFailed<T>> for ListenError {
    ghost from_gives = { λ _ e. e ≡ Memory };

    fn from(_e: AllocFailed<T>) -> ListenError {
        ListenError::Memory
    }
}

impl From<AllocError> for ListenError {
    ghost from_gives = { λ _ e. e ≡ Memory };

    fn from(_e: AllocError) -> ListenError {
        ListenError::Memory
    }
}

/// The listeners of all properties. The dead stay among them until there are as many as may live, so that adding one
/// counts nobody before.
#[derive(Drop)]
pub struct Listeners {
    entries: Vec<Listener>,
    given: u32,
}

impl Model for Listeners {
    ghost use Rattle.fx_listen.specs.Listening.{Table, IsSound};

    ghost Value = { Table };

    ghost view = { λ l. record { entries = l.entries.items; given = l.given } };

    ghost invariant = { λ l. IsSound (record { entries = l.entries.items; given = l.given }) };
}

impl Listeners {
    /// Nobody listens.
    pub fn new(alloc: Global) -> Listeners
        ensures { result ≡ spec.nobody }
    {
        Listeners {
            entries: Vec::new(alloc),
            given: 0,
        }
    }

    /// A further listener; the tag is 0 for one without action. The number is greater than all before.
    pub fn add(
        &mut self,
        _alloc: Global,
        owners: &Owners,
        name: Name,
        kind: ListenKind,
        owner: Option<Owner>,
        tag: u32,
    ) -> Result<u32, ListenError>
        ensures answer { IsAnswer ListenError.Memory (spec.add_refusal owners.now.living owner self.old) result }
        ensures number { IfOk result (λ number. number ≡ self.old.given + 1) }
        ensures ok { OnOk result (self.new
            ≡ spec.after_add owners.now.living
            (record { number = self.old.given + 1; name = name; kind = kind; owner = owner; tag = tag }) self.old) }
        ensures err { OnErr result (self.new ≡ self.old) }
    {
        if !has_life(owners, owner) {
            return Err(ListenError::StaleOwner);
        }
        if is_full_of_living(owners, self.entries.as_slice()) || self.given == u32::MAX {
            return Err(ListenError::Full);
        }
        let number = self.given + 1;
        let listener = Listener {
            number,
            name,
            kind,
            owner,
            tag,
        };
        entries::add(&mut self.entries, owners, listener)?;
        self.given = number;
        Ok(number)
    }

    /// Why a listener with this owner may not be added, if it may not.
    pub fn refuses_add(&self, owners: &Owners, owner: Option<Owner>) -> Option<ListenError>
        ensures { result ≡ spec.add_refusal owners.now.living owner self.now }
    {
        if !has_life(owners, owner) {
            return Some(ListenError::StaleOwner);
        }
        if is_full_of_living(owners, self.entries.as_slice()) || self.given == u32::MAX {
            return Some(ListenError::Full);
        }
        None
    }

    /// Removes the first equal listener and answers whether there was one.
    pub fn remove_first(
        &mut self,
        name: Name,
        kind: ListenKind,
        owner: Option<Owner>,
        tag: u32,
    ) -> bool
        ensures found { result ≡ list_any (spec.is_equal name.0 kind owner tag) self.old.entries }
        ensures removed { self.new ≡ spec.after_remove (spec.is_equal name.0 kind owner tag) self.old }
    {
        entries::remove_first(&mut self.entries, name, kind, owner, tag)
    }

    /// Removes all listeners of the property.
    pub fn forget(&mut self, name: Name)
        ensures { self.new ≡ spec.after_forget name.0 self.old }
    {
        entries::forget(&mut self.entries, name);
    }

    /// Removes all listeners of these properties, in one pass over all.
    pub fn forget_all(&mut self, names: &Searched)
        ensures { self.new ≡ spec.after_forget_all names.now self.old }
    {
        entries::forget_all(&mut self.entries, names);
    }

    /// How many listeners are on the property, the dead among them.
    pub fn count_on(&self, name: Name) -> usize
        ensures { result ≡ length (filter (λ listener. listener.name.0 == name.0) self.now.entries) }
    {
        listeners_on(self.entries.as_slice(), name).len()
    }

    /// The numbers of the live ones of this kind on the property, rising.
    pub fn live_on(
        &self,
        alloc: Global,
        owners: &Owners,
        name: Name,
        kind: ListenKind,
    ) -> Result<Vec<u32>, AllocError>
        ensures { IfOk result (λ numbers. numbers.items
            ≡ spec.numbers_of (filter (λ listener. spec.tells name.0 kind listener
            && spec.is_live owners.now.living listener) self.now.entries)) }
    {
        let found = listeners_on(self.entries.as_slice(), name);
        numbers_heard(alloc, owners, found, kind)
    }

    /// All live ones of this kind, by property and then by number.
    pub fn live(
        &self,
        alloc: Global,
        owners: &Owners,
        kind: ListenKind,
    ) -> Result<Vec<Listener>, AllocError>
        ensures { IfOk result (λ listeners. listeners.items
            ≡ filter (λ listener. spec.same_kind listener.kind kind && spec.is_live owners.now.living listener)
            self.now.entries) }
    {
        heard(alloc, owners, self.entries.as_slice(), kind)
    }

    /// Whether the property has a live change listener.
    pub fn has_change(&self, owners: &Owners, name: Name) -> bool
        ensures { result ≡ list_any (λ listener. spec.tells name.0 ListenKind.Change listener
            && spec.is_live owners.now.living listener) self.now.entries }
    {
        let found = listeners_on(self.entries.as_slice(), name);
        is_any_heard(owners, found, ListenKind::Change)
    }

    /// Whether the listener of this number is there and live.
    pub fn is_listening(&self, owners: &Owners, number: u32) -> bool
        ensures { result ≡ list_any (λ listener. (listener.number == number) && spec.is_live owners.now.living listener)
            self.now.entries }
    {
        entries::is_listening(owners, self.entries.as_slice(), number)
    }

    /// What the living listener of this number on the property was added with. Takes no memory.
    pub fn tag_of(&self, owners: &Owners, name: Name, number: u32) -> Option<u32>
        ensures { result ≡ option_map (λ listener. listener.tag)
            (find (spec.is_numbered name.0 number) (spec.living_in owners.now.living self.now.entries)) }
    {
        entries::tag_of(owners, self.entries.as_slice(), name, number)
    }

    /// The greatest number that a listener was ever given, 0 before the first.
    pub fn given(&self) -> u32
        ensures { result ≡ self.now.given }
    {
        self.given
    }

    /// What is true of the table at all times.
    pub fn laws(&self)
        ensures { spec.IsSound self.now }
    {
        let _ = &self.entries;
    }
}
