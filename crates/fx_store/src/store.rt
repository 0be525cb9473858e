//! The store itself: its parts, what contracts see of them, and the calls that change nothing but one part.
ghost use Rattle.std.specs.Prelude.{ℕ, ◌≡◌, ◌≢◌, ◌≤◌, ◌+◌, ◌↔◌, ◌==◌, ◌⊎◌, [], ◌∷◌, false, true, All, Contains, Err, IfErr, Some, IfOk, IsTrue, OnErr, OnOk, length, option_copied};
ghost use Rattle.std.specs.List.{find, list_any, range_with_len};
ghost use Rattle.std.specs.Option.{option_map};
ghost use Rattle.fx_base.specs.Names.{numbers};
ghost use Rattle.fx_base.specs.Printing.{kind_of};
ghost use Rattle.fx_graph_refusals.specs.Known.{known_kind, known_value};
ghost use Rattle.fx_graph_refusals.specs.Known.{origin_in};
ghost use Rattle.fx_handles.specs.Living.{after_make};
ghost use Rattle.fx_listen.specs.Listening.{IsSound, has_life, is_live, is_numbered};
ghost use Rattle.fx_graph_model.specs.Eager.{eager};
ghost use Rattle.fx_graph_model.specs.Refusals.{declare_refusal, read_only_in};
ghost use Rattle.fx_graph_model.specs.Changes.{AreKnown};
ghost use Rattle.fx_graph_model.specs.Unread.{IsClosed, IsPartRead, after_reading, after_reads, evaluations, evaluations_of, marked};
ghost use Rattle.fx_graph_model.specs.Sound.{AreSound, IsAcyclic};
ghost use Rattle.fx_graph_model.specs.Uses.{bound_in};
ghost use Rattle.fx_graph.specs.Reading.{ArePartRead};
ghost use Rattle.fx_store.specs.Own.{has_own};
ghost use Rattle.fx_store.specs.Together.{AreFirstStored, with_all_declared};
ghost use Rattle.fx_store_model.specs.Applied.{Applied};
ghost use Rattle.fx_store_model.specs.Making.{with_owners, after_declared};
ghost use Rattle.fx_base.specs.Answers.{IsAnswer};
ghost use Rattle.fx_store_model.specs.Refusals.{of_graph_refusal, owner_refusal, unknown_of};
ghost use Rattle.fx_store_model.specs.Step.{IsFit, IsReadSome};
ghost use Rattle.fx_store_model.specs.Stored.{AreJoinedAlike, after_end, empty, watched_names, with_unread};

use fx_base::{Kind, Ledgers, Name, Value, Work};
use fx_graph::{Graph, Rows};
use fx_graph_model::Origin;
use fx_handles::{Owner, Owners};
use fx_listen::{Listeners, has_life};
use fx_store_model::{Change, Notices, StoreError};
use fx_store_pairs::Pairs;
use std::alloc::{AllocError, Global};
use std::marker::Model;

/// Properties, the pairs of those that change together, listeners and their owners. Contracts see the definitions,
/// which properties are unread, the pairs, and the living listeners.
#[derive(Drop)]
pub struct Store {
    pub(crate) graph: Graph,
    pub(crate) pairs: Pairs,
    pub(crate) listeners: Listeners,
    pub(crate) owners: Owners,
    /// Whether memory was wanting in a change, so that a watched property may be unread.
    pub(crate) behind: bool,
}

impl Model for Store {
    ghost use Rattle.fx_store_model.specs.Stored.{Stored};
    ghost use Rattle.fx_graph_model.specs.contracts.entries.Entry as entry;
    ghost use Rattle.std.specs.Coded.{codes};

    ghost Value = { Stored };

    ghost coded = { Prim.hlevel (codes, entry.the_row.coded) };

    ghost use Rattle.fx_store.specs.Kept.{IsKept, stored_of};

    ghost view = { λ store. stored_of store.graph store.pairs store.listeners store.owners };

    ghost invariant = { λ store. IsKept store.graph store.pairs store.listeners store.owners store.behind };
}

impl Store {
    /// Nothing was declared, and nobody listens.
    pub fn new(alloc: Global) -> Store
        ensures { result ≡ empty }
    {
        Store {
            graph: Graph::new(alloc),
            pairs: Pairs::new(alloc),
            listeners: Listeners::new(alloc),
            owners: Owners::new(alloc),
            behind: false,
        }
    }

    /// Makes room for so many more properties, so that declaring them moves none.
    pub fn reserve(&mut self, more: usize) -> Result<(), AllocError>
        ensures { self.new ≡ self.old }
    {
        self.graph.reserve(more)
    }

    /// A further property with this value. It isn't unread.
    pub fn declare(
        &mut self,
        alloc: Global,
        kind: Kind,
        read_only: bool,
        value: Value,
    ) -> Result<Name, StoreError>
        requires { kind_of value ≡ kind }
        ensures answer { IsAnswer StoreError.Memory (of_graph_refusal (declare_refusal self.old.entries)) result }
        ensures name { IfOk result (λ name. name.0 ≡ length self.old.entries) }
        ensures ok { OnOk result (self.new ≡ after_declared kind read_only value self.old) }
        ensures err { OnErr result (self.new ≡ self.old) }
    {
        let name = self.graph.declare(alloc, kind, read_only, value)?;
        Ok(name)
    }

    /// Declares these properties one after another. Where memory is wanting, the first of them may be declared.
    pub fn declare_all<R: Rows>(&mut self, alloc: Global, rows: &R) -> Result<(), AllocError>
        requires { length self.old.entries + length (R.rows rows.now) ≤ 4000000 }
        ensures ok { OnOk result (self.new ≡ with_all_declared (R.rows rows.now) self.old) }
        ensures first { AreFirstStored (R.rows rows.now) self.old self.new }
    {
        self.graph.declare_all(alloc, rows)
    }

    /// Makes one change and tells of it. Where memory is wanting, it is made wholly or not at all, but some properties
    /// may have been read, and what it told is lost.
    pub fn apply<L: Ledgers>(
        &mut self,
        alloc: Global,
        change: Change,
        work: &mut Work<L>,
    ) -> Result<Notices, StoreError>
        requires { IsFit change self.old }
        ensures applied { Applied change self.old self.new result work.old.evaluated work.new.evaluated }
        ensures others { work.new ≡ record work.old { evaluated = work.new.evaluated } }
    {
        match change {
            Change::Set(name, value) => self.set(alloc, name, value, work),
            Change::Publish(pairs) => self.publish(alloc, pairs, work),
            Change::Bind(name, expr, operands) => self.bind(alloc, name, expr, operands, work),
            Change::Unbind(name) => self.unbind(alloc, name, work),
            Change::Pair(one, other) => self.pair(alloc, one, other, work),
            Change::Unpair(one, other) => self.unpair(alloc, one, other, work),
            Change::Listen(name, kind, owner, tag) => {
                self.listen(alloc, name, kind, owner, tag, work)
            }
            Change::Unlisten(name, kind, owner, tag) => {
                self.unlisten(alloc, name, kind, owner, tag, work)
            }
            Change::Forget(names) => self.forget(alloc, names, work),
        }
    }

    /// The value of the property, which is read. Where memory is wanting, some properties that it needs may have been
    /// read, and no others.
    pub fn read<L: Ledgers>(
        &mut self,
        alloc: Global,
        name: Name,
        work: &mut Work<L>,
    ) -> Result<Value, StoreError>
        ensures answer { IsAnswer StoreError.Memory (unknown_of (name ∷ []) self.old.entries) result }
        ensures value { IfOk result (λ value. value ≡ eager self.old.entries name.0) }
        ensures ok { OnOk result (self.new
            ≡ with_unread (after_reading self.old.entries name.0 self.old.unread) self.old) }
        ensures memory { result ≡ Err StoreError.Memory → IsReadSome self.old self.new }
        ensures needed { result ≡ Err StoreError.Memory
            → IsPartRead self.old.entries name.0 self.old.unread self.new.unread }
        ensures rest { self.new ≡ with_unread self.new.unread self.old }
        ensures refused { IfErr result (λ error. error ≢ StoreError.Memory → self.new ≡ self.old) }
        ensures cost { work.new.evaluated ≤ work.old.evaluated + evaluations self.old.entries name.0 self.old.unread }
        ensures others { work.new ≡ record work.old { evaluated = work.new.evaluated } }
    {
        let value = self.graph.read(alloc, name, work)?;
        Ok(value)
    }

    /// Reads these known properties one after another. Where memory is wanting, some properties that they need may have
    /// been read, and no others.
    pub fn read_all<L: Ledgers>(
        &mut self,
        alloc: Global,
        names: &[Name],
        work: &mut Work<L>,
    ) -> Result<(), AllocError>
        requires { AreKnown self.old.entries names.now }
        ensures ok { OnOk result (self.new
            ≡ with_unread (after_reads self.old.entries (numbers names.now) self.old.unread) self.old) }
        ensures part { IsReadSome self.old self.new }
        ensures needed { ArePartRead self.old.entries (numbers names.now) self.old.unread self.new.unread }
        ensures cost { work.new.evaluated
            ≤ work.old.evaluated + evaluations_of self.old.entries (numbers names.now) self.old.unread }
        ensures others { work.new ≡ record work.old { evaluated = work.new.evaluated } }
    {
        self.graph.settle_all(alloc, names, work)
    }

    /// A further owner of listeners.
    pub fn make_owner(&mut self, alloc: Global) -> Result<Owner, StoreError>
        ensures birth { IfOk result (λ owner. owner.birth ≡ self.old.owners.born + 1) }
        ensures made { IfOk result (λ owner. self.new ≡ with_owners (after_make self.old.owners owner) self.old) }
        ensures answer { IsAnswer StoreError.Memory (owner_refusal self.old.owners) result }
        ensures full { (result ≡ Err StoreError.Full)
            ↔ ((length self.old.owners.living ≡ 10000) ⊎ (self.old.owners.born ≡ u32.MAX)) }
        ensures err { OnErr result (self.new ≡ self.old) }
    {
        let owner = self.owners.make(alloc)?;
        Ok(owner)
    }

    /// Ends the life of the owner and of its listeners, and answers whether it was alive.
    pub fn release_owner(&mut self, owner: Owner) -> bool
        ensures was_alive { IsTrue result ↔ Contains self.old.owners.living owner }
        ensures released { self.new ≡ after_end owner self.old }
    {
        self.owners.release(owner)
    }

    /// Whether the owner is alive.
    pub fn is_alive(&self, owner: Owner) -> bool
        ensures { result ≡ has_life self.now.owners.living (Some owner) }
    {
        has_life(&self.owners, Some(owner))
    }

    /// How many names were ever declared.
    pub fn count(&self) -> usize
        ensures { result ≡ length self.now.entries }
    {
        self.graph.count()
    }

    /// The kind of a known property.
    pub fn kind(&self, name: Name) -> Option<Kind>
        ensures { result ≡ known_kind self.now.entries name.0 }
    {
        self.graph.kind(name)
    }

    /// Lends the value of a known property that isn't unread.
    pub fn value(&self, name: Name) -> Option<&Value>
        ensures { option_copied result ≡ known_value self.now.entries self.now.unread name.0 }
    {
        self.graph.value(name)
    }

    /// Whether the property is known, isn't bound and has this value. It stays as unread as it is.
    pub fn has_own_value(&self, name: Name, value: &Value) -> bool
        ensures { result ≡ has_own self.now.entries name.0 value.now }
    {
        if self.graph.is_unknown(name) {
            return false;
        }
        if self.graph.is_bound(name) {
            return false;
        }
        self.graph.has_value(name, value)
    }

    /// Whether the property is bound.
    pub fn is_bound(&self, name: Name) -> bool
        ensures { result ≡ bound_in self.now.entries name.0 }
    {
        self.graph.is_bound(name)
    }

    /// Whether the property is only published by the player.
    pub fn is_read_only(&self, name: Name) -> bool
        ensures { result ≡ read_only_in self.now.entries name.0 }
    {
        self.graph.is_read_only(name)
    }

    /// Whether the property may have changed since it was read.
    pub fn is_unread(&self, name: Name) -> bool
        ensures { result ≡ marked self.now.unread name.0 }
    {
        self.graph.is_unread(name)
    }

    /// Whether any of so many properties from this one on may have changed since it was read.
    pub fn is_any_unread(&self, first: Name, count: usize) -> bool
        ensures { result ≡ list_any (marked self.now.unread) (range_with_len first.0 count) }
    {
        self.graph.is_any_unread(first, count)
    }

    /// Where the present definition of a known property came from.
    pub fn origin(&self, name: Name) -> Option<Origin>
        ensures { result ≡ origin_in self.now.entries name.0 }
    {
        self.graph.origin(name)
    }

    /// Whether the listener of this number is there and living.
    pub fn is_listening(&self, number: u32) -> bool
        ensures { result ≡ list_any (λ listener. listener.number == number) self.now.listeners }
    {
        self.listeners.is_listening(&self.owners, number)
    }

    /// What the living listener of this number on the property was added with. Takes no memory.
    pub fn tag_of(&self, name: Name, number: u32) -> Option<u32>
        ensures { result ≡ option_map (λ listener. listener.tag) (find (is_numbered name.0 number) self.now.listeners) }
    {
        self.listeners.tag_of(&self.owners, name, number)
    }

    /// The greatest number that a listener was ever given, 0 before the first.
    pub fn given(&self) -> u32
        ensures { result ≡ self.now.given }
    {
        self.listeners.given()
    }

    /// Whether memory was wanting in a change, so that a watched property may be unread.
    pub fn is_behind(&self) -> bool
        ensures { result ≡ false
            → All (λ (name : ℕ). marked self.now.unread name ≡ false) (watched_names self.now) }
    {
        self.behind
    }

    /// What is true at all times: each property has a flag, who reads an unread one is unread, and none reads itself;
    /// joined properties are unbound, written by code, of one kind and of one value; and each listener that is seen has
    /// no owner or a living one, and stands by its property and then by its number.
    pub fn laws(&self)
        ensures flags { length self.now.unread ≡ length self.now.entries }
        ensures closed { IsClosed self.now.entries self.now.unread }
        ensures acyclic { IsAcyclic self.now.entries }
        ensures sound { AreSound self.now.entries }
        ensures few { length self.now.entries ≤ 4000000 }
        ensures few_pairs { length self.now.pairs ≤ 10000 }
        ensures joined { AreJoinedAlike self.now }
        ensures living { All (λ listener. is_live self.now.owners.living listener ≡ true) self.now.listeners }
        ensures listeners { IsSound (record { entries = self.now.listeners; given = self.now.given }) }
    {
        self.graph.laws();
        self.listeners.laws();
        let _behind = self.behind;
    }
}
