//! The pairs in the order of their making.
ghost use Rattle.std.specs.Prelude.{◌≡◌, ◌≢◌, ◌↔◌, ◌++◌, ◌∷◌, [], ℕ, List, AllPairs, Contains, IfOk, OnOk, OnErr, filter, length, not, true};
ghost use Rattle.fx_base.specs.declared.keys.Name.{Name as Named};
ghost use Rattle.fx_base.specs.Names.{numbers};
ghost use Rattle.fx_store_pairs.specs.Pairs.{pairs_of, is_touched, joined, without_pair};
ghost use Rattle.fx_store_pairs.specs.Pairs.{is_paired as has_partner};

use crate::grouping::Members;
use crate::rows::Rows;
use crate::searching::Searched;
use crate::walking::{drop_touched, remove_first};
use fx_base::Name;
use std::alloc::{AllocError, Global};
use std::marker::Model;

/// The pairs of properties that change together, in the order of their making (JavaFX `bindBidirectional`).
/// Contracts see the numbers of the two names of each.
#[derive(Drop)]
pub struct Pairs {
    pairs: Vec<(Name, Name)>,
    rows: Rows,
}

impl Model for Pairs {
    ghost use Rattle.std.specs.Prelude.{ℕ, List};
    ghost use Rattle.fx_store_pairs.specs.Pairs.{pairs_of};
    ghost use Rattle.fx_store_pairs.specs.Rows.{AreRows};

    ghost Value = { List (ℕ × ℕ) };

    ghost view = { λ pairs. pairs_of pairs.pairs.items };

    ghost invariant = { λ pairs. AreRows pairs.rows (pairs_of pairs.pairs.items) };
}

impl Pairs {
    pub fn new(alloc: Global) -> Pairs
        ensures { result ≡ [] }
    {
        Pairs {
            pairs: Vec::new(alloc),
            rows: Rows::new(alloc),
        }
    }

    pub fn len(&self) -> usize
        ensures { result ≡ length self.now }
    {
        self.pairs.len()
    }

    /// Lends the pairs.
    pub fn as_slice(&self) -> &[(Name, Name)]
        ensures { pairs_of result.now ≡ self.now }
    {
        self.pairs.as_slice()
    }

    /// Whether the name stands in a pair.
    pub fn is_paired(&self, name: Name) -> bool
        ensures { result ≡ has_partner self.now name.0 }
    {
        !self.rows.row(name).is_empty()
    }

    /// A further pair, behind the others.
    pub fn add(&mut self, one: Name, other: Name) -> Result<(), AllocError>
        ensures ok { OnOk result (self.new ≡ self.old ++ (one.0, other.0) ∷ []) }
        ensures err { OnErr result (self.new ≡ self.old) }
    {
        self.pairs.push((one, other))?;
        match self.rows.add_pair(one, other) {
            Ok(()) => Ok(()),
            Err(refused) => {
                self.pairs.pop();
                Err(refused)
            }
        }
    }

    /// Takes back the last pair.
    pub fn remove_last(&mut self)
        ensures { (pairs : List (ℕ × ℕ)) (pair : ℕ × ℕ) → self.old ≡ pairs ++ pair ∷ [] → self.new ≡ pairs }
    {
        if let Some((one, other)) = self.pairs.pop() {
            self.rows.remove_last_pair(one, other);
        }
    }

    /// Ends the first pair of the two, in either order.
    pub fn remove_first(&mut self, one: Name, other: Name)
        ensures { self.new ≡ without_pair one.0 other.0 self.old }
    {
        if self.rows.has(one, other) {
            remove_first(&mut self.pairs, one, other);
            self.rows.remove_first_pair(one, other);
        }
    }

    /// Ends all pairs of these names. Where none of them was ever paired, no pair is looked at. Otherwise each looks
    /// for its two, by halves where the names rise.
    pub fn forget(&mut self, names: &[Name])
        ensures { self.new ≡ filter (λ (pair : ℕ × ℕ). not (is_touched (numbers names.now) pair)) self.old }
    {
        if !self.rows.has_one_of(names) {
            return;
        }
        let names = Searched::new(names);
        drop_touched(&mut self.pairs, &names);
        self.rows.forget(&names);
    }

    /// The name and all that are joined with it, each once.
    pub fn group(&self, alloc: Global, name: Name) -> Result<Vec<Name>, AllocError>
        ensures members { IfOk result (λ names. (other : ℕ) → Contains (numbers names.items) other
            ↔ joined self.now name.0 other ≡ true) }
        ensures distinct { IfOk result (λ names. AllPairs (λ (one other : Named). one.0 ≢ other.0) names.items) }
    {
        let mut members = Members::new(alloc, name)?;
        let mut done = 0;
        while done < members.names.len() {
            let next = members.names[done];
            members.add_all(alloc, self.rows.row(next))?;
            done += 1;
        }
        Ok(members.names)
    }
}
