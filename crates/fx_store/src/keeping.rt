//! Changes that make no property unread: the end of a binding, of a pair or of a name, listeners that come and go, and
//! a property that is set to the value that it has. Each is made in one step; then every watched property is read,
//! where an earlier want of memory left one unread.
ghost use Rattle.std.specs.Prelude.{ℕ, ◌≡◌, ◌≢◌, ◌≤◌, ◌+◌, [], ◌∷◌, false, true, Err, IfErr, IfOk, None, OnErr, OnOk};
ghost use Rattle.fx_handles.specs.Living.{IsSound};
ghost use Rattle.fx_listen.specs.Listening.{placed};
ghost use Rattle.fx_base.specs.Names.{numbers};
ghost use Rattle.fx_graph_model.specs.Eager.{eager};
ghost use Rattle.fx_graph_model.specs.Equality.{same_value};
ghost use Rattle.fx_graph_model.specs.Refusals.{set_refusal};
ghost use Rattle.fx_graph_model.specs.Unread.{evaluations, marked};
ghost use Rattle.fx_store_model.specs.Applied.{Applied};
ghost use Rattle.fx_store_model.specs.declared.changes.Change.TheVariants as change;
ghost use Rattle.fx_store_model.specs.Making.{made_forget, made_set, made_unbind, made_unlisten, new_listener, with_listeners, with_pairs};
ghost use Rattle.fx_base.specs.Answers.{IsAnswer};
ghost use Rattle.fx_store_model.specs.Refusals.{IsForgetAnswer, listen_refusal, unknown_of};
ghost use Rattle.fx_store_model.specs.Step.{IsReadSome, due};
ghost use Rattle.fx_store_model.specs.Stored.{after_watching};
ghost use Rattle.fx_store_pairs.specs.Pairs.{without_pair};

use crate::forgetting::forget_parts;
use crate::marking::{give, group_values};
use crate::refusing::{of_listen, of_unlisten, of_unpair};
use crate::store::Store;
use crate::watching::read_watched;
use fx_base::{Ledgers, List, Name, Value, Work};
use fx_handles::{Owner, Owners};
use fx_listen::ListenKind;
use fx_store_model::{Notices, StoreError};
use std::alloc::{AllocError, Global};

/// What tells of nothing but a listener that was added.
fn silent(alloc: Global, added: Option<u32>) -> Notices
    ensures added { result.added ≡ added }
    ensures invalid { result.invalid ≡ [] }
    ensures changed { result.changed ≡ [] }
{
    Notices {
        added,
        invalid: List::new(alloc),
        changed: List::new(alloc),
    }
}

impl Store {
    /// Reads every watched property.
    fn catch_up<L: Ledgers>(&mut self, alloc: Global, work: &mut Work<L>) -> Result<(), AllocError>
        ensures ok { OnOk result (self.new ≡ after_watching self.old) }
        ensures part { IsReadSome self.old self.new }
        ensures cost { work.new.evaluated ≤ work.old.evaluated + due self.old }
        ensures others { work.new ≡ record work.old { evaluated = work.new.evaluated } }
    {
        if !self.behind {
            self.graph.laws();
            return Ok(());
        }
        read_watched(
            alloc,
            &mut self.graph,
            self.pairs.as_slice(),
            &self.listeners,
            &self.owners,
            work,
        )?;
        self.behind = false;
        Ok(())
    }

    /// Gives the property, and those that are joined with it, the value that they have, now by code.
    fn give_again(&mut self, alloc: Global, name: Name, value: &Value) -> Result<(), StoreError>
        requires allowed { set_refusal ((name, value.now) ∷ []) self.old.entries ≡ None }
        requires same { same_value (eager self.old.entries name.0) value.now ≡ true }
        ensures ok { OnOk result (self.new ≡ made_set name.0 value.now self.old) }
        ensures values { OnOk result ((other : ℕ) → eager self.new.entries other ≡ eager self.old.entries other) }
        ensures err { OnErr result (self.new ≡ self.old) }
        ensures memory { IfErr result (λ error. error ≡ StoreError.Memory) }
    {
        let values = group_values(alloc, &self.pairs, name, value)?;
        give(alloc, &mut self.graph, values.as_slice())?;
        Ok(())
    }

    /// Sets the property to the value that it has.
    pub(crate) fn set_again<L: Ledgers>(
        &mut self,
        alloc: Global,
        name: Name,
        value: &Value,
        work: &mut Work<L>,
    ) -> Result<Notices, StoreError>
        requires allowed { set_refusal ((name, value.now) ∷ []) self.old.entries ≡ None }
        requires same { same_value (eager self.old.entries name.0) value.now ≡ true }
        ensures applied { Applied (change.Set name value.now) self.old self.new result work.old.evaluated
            work.new.evaluated }
        ensures others { work.new ≡ record work.old { evaluated = work.new.evaluated } }
    {
        self.give_again(alloc, name, value)?;
        self.catch_up(alloc, work)?;
        Ok(silent(alloc, None))
    }

    /// Reads a bound property and gives it its value for its own; another one stays as it is.
    fn end_binding<L: Ledgers>(
        &mut self,
        alloc: Global,
        name: Name,
        work: &mut Work<L>,
    ) -> Result<(), StoreError>
        ensures answer { IsAnswer StoreError.Memory (unknown_of (name ∷ []) self.old.entries) result }
        ensures ok { OnOk result (self.new ≡ made_unbind name.0 self.old) }
        ensures memory { result ≡ Err StoreError.Memory → IsReadSome self.old self.new }
        ensures refused { IfErr result (λ error. error ≢ StoreError.Memory → self.new ≡ self.old) }
        ensures cost { work.new.evaluated ≤ work.old.evaluated + evaluations self.old.entries name.0 self.old.unread }
        ensures others { work.new ≡ record work.old { evaluated = work.new.evaluated } }
    {
        self.graph.unbind(alloc, name, work)?;
        Ok(())
    }

    pub(crate) fn unbind<L: Ledgers>(
        &mut self,
        alloc: Global,
        name: Name,
        work: &mut Work<L>,
    ) -> Result<Notices, StoreError>
        ensures applied { Applied (change.Unbind name) self.old self.new result work.old.evaluated work.new.evaluated }
        ensures others { work.new ≡ record work.old { evaluated = work.new.evaluated } }
    {
        if self.graph.is_unknown(name) {
            return Err(StoreError::Unknown(name));
        }
        self.graph.laws();
        self.end_binding(alloc, name, work)?;
        self.catch_up(alloc, work)?;
        Ok(silent(alloc, None))
    }

    /// Ends the first pair of the two.
    fn end_pair(&mut self, one: Name, other: Name)
        ensures { self.new ≡ with_pairs (without_pair one.0 other.0 self.old.pairs) self.old }
    {
        self.pairs.remove_first(one, other);
    }

    pub(crate) fn unpair<L: Ledgers>(
        &mut self,
        alloc: Global,
        one: Name,
        other: Name,
        work: &mut Work<L>,
    ) -> Result<Notices, StoreError>
        ensures applied { Applied (change.Unpair one other) self.old self.new result work.old.evaluated
            work.new.evaluated }
        ensures others { work.new ≡ record work.old { evaluated = work.new.evaluated } }
    {
        if let Some(refusal) = of_unpair(&self.graph, one, other) {
            return Err(refusal);
        }
        self.end_pair(one, other);
        self.catch_up(alloc, work)?;
        Ok(silent(alloc, None))
    }

    /// Adds a listener to a property that is read.
    fn add_listener(
        &mut self,
        alloc: Global,
        name: Name,
        kind: ListenKind,
        owner: Option<Owner>,
        tag: u32,
    ) -> Result<u32, StoreError>
        requires allowed { listen_refusal name owner self.old.entries self.old.owners.living self.old.listeners
            self.old.given ≡ None }
        requires read { marked self.old.unread name.0 ≡ false }
        ensures number { IfOk result (λ number. number ≡ self.old.given + 1) }
        ensures ok { OnOk result (self.new
            ≡ with_listeners (placed (new_listener (self.old.given + 1) name kind owner tag) self.old.listeners)
            (self.old.given + 1) self.old) }
        ensures err { OnErr result (self.new ≡ self.old) }
        ensures memory { IfErr result (λ error. error ≡ StoreError.Memory) }
    {
        know_births(&self.owners);
        let number = self
            .listeners
            .add(alloc, &self.owners, name, kind, owner, tag)?;
        Ok(number)
    }

    pub(crate) fn listen<L: Ledgers>(
        &mut self,
        alloc: Global,
        name: Name,
        kind: ListenKind,
        owner: Option<Owner>,
        tag: u32,
        work: &mut Work<L>,
    ) -> Result<Notices, StoreError>
        ensures applied { Applied (change.Listen name kind owner tag) self.old self.new result work.old.evaluated
            work.new.evaluated }
        ensures others { work.new ≡ record work.old { evaluated = work.new.evaluated } }
    {
        if let Some(refusal) = of_listen(&self.graph, &self.listeners, &self.owners, name, owner) {
            return Err(refusal);
        }
        self.read(alloc, name, work)?;
        let number = self.add_listener(alloc, name, kind, owner, tag)?;
        self.catch_up(alloc, work)?;
        Ok(silent(alloc, Some(number)))
    }

    /// Removes the first listener that was added so.
    fn end_listener(&mut self, name: Name, kind: ListenKind, owner: Option<Owner>, tag: u32)
        ensures { self.new ≡ made_unlisten name.0 kind owner tag self.old }
    {
        self.listeners.remove_first(name, kind, owner, tag);
    }

    pub(crate) fn unlisten<L: Ledgers>(
        &mut self,
        alloc: Global,
        name: Name,
        kind: ListenKind,
        owner: Option<Owner>,
        tag: u32,
        work: &mut Work<L>,
    ) -> Result<Notices, StoreError>
        ensures applied { Applied (change.Unlisten name kind owner tag) self.old self.new result work.old.evaluated
            work.new.evaluated }
        ensures others { work.new ≡ record work.old { evaluated = work.new.evaluated } }
    {
        if let Some(refusal) = of_unlisten(&self.graph, &self.owners, name, owner) {
            return Err(refusal);
        }
        self.end_listener(name, kind, owner, tag);
        self.catch_up(alloc, work)?;
        Ok(silent(alloc, None))
    }

    /// Takes these properties away, with their pairs and their listeners.
    fn take_away(&mut self, names: Vec<Name>) -> Result<(), StoreError>
        ensures answer { IsForgetAnswer names.items self.old.entries result }
        ensures ok { OnOk result (self.new ≡ made_forget (numbers names.items) self.old) }
        ensures err { OnErr result (self.new ≡ self.old) }
        ensures firm { IfErr result (λ error. error ≢ StoreError.Memory) }
    {
        self.graph.forget(names.as_slice())?;
        forget_parts(&mut self.pairs, &mut self.listeners, names);
        Ok(())
    }

    pub(crate) fn forget<L: Ledgers>(
        &mut self,
        alloc: Global,
        names: List<Name>,
        work: &mut Work<L>,
    ) -> Result<Notices, StoreError>
        ensures applied { Applied (change.Forget names) self.old self.new result work.old.evaluated work.new.evaluated }
        ensures others { work.new ≡ record work.old { evaluated = work.new.evaluated } }
    {
        self.take_away(names.into_vec())?;
        self.catch_up(alloc, work)?;
        Ok(silent(alloc, None))
    }
}

/// What owners keep: whoever is alive was born.
fn know_births(owners: &Owners)
    ensures { IsSound owners.now }
{
    let nobody = Owner { slot: 0, birth: 0 };
    let _alive = owners.is_live(nobody);
}
