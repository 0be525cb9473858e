//! Owners of listeners, which stand for the weak references of JavaFX's `WeakChangeListener`: a listener
//! dies with its owner, and a release stands in the place of garbage collection. Slots are used again,
//! and birth numbers never are.
#![tactic(auto)]

ghost use Rattle.std.specs.Prelude.{◌≡◌, ◌↔◌, ◌⊎◌, ◌+◌, length, Contains, IsTrue, IfOk, OnErr};
ghost use Rattle.fx_base.specs.Answers.{IsAnswer};
ghost use Rattle.fx_handles.specs.Living.{DeadStayDead, EachBirthOnce, IsSound, after_make, after_release, nobody};
ghost use Rattle.fx_handles.specs.Refusals.{make_refusal};
ghost use Rattle.fx_handles.specs.declared.OwnerError.TheVariants.{Memory};

use slab::Slab;
use std::alloc::{AllocFailed, Global};
use std::marker::Model;
use thiserror::Error;

/// The most owners that can be alive at once.
pub const MOST_LIVING: usize = 10_000;

/// An owner of listeners, who may be dead.
#[derive(Clone, Copy, PartialEq, Eq, Debug)]
pub struct Owner {
    /// Where the owner is kept while it is alive; later owners may have the same slot.
    pub slot: usize,
    /// Which owner it is, from 1 on; no other owner has this number.
    pub birth: u32,
}

/// Why no owner was made.
#[derive(Debug, Drop, PartialEq, Eq, Error)]
pub enum OwnerError {
    /// Too many owners are alive, or the last birth number was given.
    #[error("no more owners can be made")]
    Full,
    /// There was no memory for the owner.
    #[error("out of memory")]
    Memory,
}

impl<T: Drop> From<AllocFailed<T>> for OwnerError {
    ghost from_gives = { λ _ e. e ≡ Memory };

    fn from(_e: AllocFailed<T>) -> OwnerError {
        OwnerError::Memory
    }
}

/// The owners that are alive.
#[derive(Drop)]
pub struct Owners {
    births: Slab<u32>,
    born: u32,
}

impl Model for Owners {
    ghost use Rattle.fx_handles.specs.Living.{Register};

    ghost Value = { Register };

    ghost use Rattle.fx_handles.specs.Slots.{owners_in, IsKept};

    ghost view = { λ owners. record { living = owners_in owners.births.slots owners.born; born = owners.born } };

    ghost invariant = { λ owners. IsKept owners.births.slots owners.born };
}

impl Owners {
    /// Nobody is alive.
    pub fn new(alloc: Global) -> Owners
        ensures { result ≡ nobody }
    {
        Owners {
            births: Slab::new(alloc),
            born: 0,
        }
    }

    /// A further owner, born after all others. The owner may get the slot of one that was released.
    pub fn make(&mut self, _alloc: Global) -> Result<Owner, OwnerError>
        ensures birth { IfOk result (λ owner. owner.birth ≡ self.old.born + 1) }
        ensures made { IfOk result (λ owner. self.new ≡ after_make self.old owner) }
        ensures answer { IsAnswer OwnerError.Memory (make_refusal self.old) result }
        ensures full { (result ≡ Err OwnerError.Full)
            ↔ ((length self.old.living ≡ 10000) ⊎ (self.old.born ≡ u32.MAX)) }
        ensures err { OnErr result (self.new ≡ self.old) }
        ensures sound { IsSound self.new }
    {
        if self.births.len() == MOST_LIVING || self.born == u32::MAX {
            return Err(OwnerError::Full);
        }
        let birth = self.born + 1;
        let slot = self.births.insert(birth)?;
        self.born = birth;
        Ok(Owner { slot, birth })
    }

    /// Ends the life of this owner, and answers whether it was alive.
    pub fn release(&mut self, owner: Owner) -> bool
        ensures was_alive { IsTrue result ↔ Contains self.old.living owner }
        ensures released { self.new ≡ after_release self.old owner }
        ensures sound { IsSound self.new }
    {
        if !self.is_live(owner) {
            return false;
        }
        self.births.try_remove(owner.slot);
        true
    }

    /// Whether this owner is alive, whatever its slot holds.
    pub fn is_live(&self, owner: Owner) -> bool
        ensures alive { IsTrue result ↔ Contains self.now.living owner }
        ensures sound { IsSound self.now }
    {
        match self.births.get(owner.slot) {
            Some(birth) => *birth == owner.birth,
            None => false,
        }
    }
}

/// A birth number is given once.
pub fn births_are_given_once()
    ensures { EachBirthOnce }
{}

/// A dead owner stays dead, whatever its slot holds later.
pub fn dead_owners_stay_dead()
    ensures { DeadStayDead }
{}
