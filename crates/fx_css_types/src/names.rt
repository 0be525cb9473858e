//! The names of one kind that a compound has. One name stands in the list itself, since few compounds have two of a
//! kind, and sheets have many compounds.
//! Readers make them, matching reads them.
ghost use Rattle.std.specs.Prelude.{◌≡◌, ◌++◌, ◌∷◌, [], IfOk, OnOk};
ghost use Rattle.fx_css_types.specs.Names.{held_names};

use fx_base::{Duplicate, List, Text};
use std::alloc::{AllocError, Global};
use std::marker::Model;
use std::{mem, slice};

/// Where names stand.
#[derive(Drop)]
pub(crate) enum Held {
    Nowhere,
    /// In the list itself.
    One(Text),
    /// In memory of their own.
    Many(List<Text>),
}

/// Names in the order in which they are written. Contracts see the list of them.
#[derive(Drop)]
pub struct NameList {
    held: Held,
}

impl Model for NameList {
    ghost use Rattle.std.specs.Prelude.{ℕ, List as Items};
    ghost use Rattle.fx_css_types.specs.Names.{held_names};

    ghost Value = { Items (Items ℕ) };

    ghost view = { λ names. held_names names.held };
}

impl NameList {
    /// No names.
    pub fn new() -> NameList
        ensures { result ≡ [] }
    {
        NameList {
            held: Held::Nowhere,
        }
    }

    /// One name.
    pub fn one(name: Text) -> NameList
        ensures { result ≡ name ∷ [] }
    {
        NameList {
            held: Held::One(name),
        }
    }

    /// Lends the names.
    pub fn as_slice(&self) -> &[Text]
        ensures { result.now ≡ self.now }
    {
        match &self.held {
            Held::Nowhere => &[],
            Held::One(name) => slice::from_ref(name),
            Held::Many(names) => names.as_slice(),
        }
    }

    /// Puts a name behind the others.
    pub fn push(&mut self, alloc: Global, name: Text) -> Result<(), AllocError>
        ensures { OnOk result (self.new ≡ self.old ++ name ∷ []) }
    {
        let before = mem::replace(&mut self.held, Held::Nowhere);
        self.held = with_name(alloc, before, name)?;
        Ok(())
    }

    /// The same names.
    pub fn copy(&self, alloc: Global) -> Result<NameList, AllocError>
        ensures { IfOk result (λ copy. copy ≡ self.now) }
    {
        let held = match &self.held {
            Held::Nowhere => Held::Nowhere,
            Held::One(name) => Held::One(name.copy(alloc)?),
            Held::Many(names) => Held::Many(names.copy(alloc)?),
        };
        Ok(NameList { held })
    }
}

impl Duplicate for NameList {
    fn duplicate(&self, alloc: Global) -> Result<Self, AllocError> {
        self.copy(alloc)
    }
}

/// The names with one more behind them.
fn with_name(alloc: Global, before: Held, name: Text) -> Result<Held, AllocError>
    ensures { IfOk result (λ held. held_names held ≡ held_names before ++ name ∷ []) }
{
    match before {
        Held::Nowhere => Ok(Held::One(name)),
        Held::One(first) => {
            let mut names = Vec::with_capacity(alloc, 2)?;
            names.push(first)?;
            names.push(name)?;
            Ok(Held::Many(List::from_vec(names)))
        }
        Held::Many(names) => {
            let mut names = names.into_vec();
            names.push(name)?;
            Ok(Held::Many(List::from_vec(names)))
        }
    }
}
