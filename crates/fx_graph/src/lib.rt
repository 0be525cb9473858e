//! The lazy graph of properties and bindings (JavaFX `javafx.beans.property` and `javafx.beans.binding`): a change
//! marks at once all that reads what changed, and nothing is evaluated before it is read. The store of listeners stands
//! on it.
#![tactic(auto)]

mod binding;
mod declaring;
mod foreseeing;
mod forgetting;
mod giving;
mod lists;
mod looking;
mod marking;
mod reading;
mod room;
mod unbinding;

ghost use Rattle.std.specs.Prelude.{ℕ, map, option_copied, ◌≡◌, ◌≢◌, AllPairs, IsOk, None, true, ◌+◌, ◌≤◌, ◌<◌, length, IfOk, IfErr, OnOk, OnErr, false};
ghost use Rattle.std.specs.List.{list_any, range_with_len};
ghost use Rattle.fx_base.specs.declared.keys.Name.{Name as Named};
ghost use Rattle.fx_base.specs.declared.values.Value.{Value as Content};
ghost use Rattle.fx_base.specs.Printing.{kind_of};
ghost use Rattle.fx_expr.specs.Tree.{is_within};
ghost use Rattle.fx_base.specs.Names.{numbers};
ghost use Rattle.fx_graph_model.specs.Uses.{Ranked, bound_in, unknown_in};
ghost use Rattle.fx_graph_model.specs.Unread.{marked, newly_marked, IsClosed, bound_unread, evaluations, evaluations_of};
ghost use Rattle.fx_graph_model.specs.Eager.{eager};
ghost use Rattle.fx_graph_model.specs.Equality.{same_kind, same_value};
ghost use Rattle.fx_graph_model.specs.Sound.{AreSound, IsAcyclic};
ghost use Rattle.fx_graph_model.specs.Changes as changes;
ghost use Rattle.fx_base.specs.Answers.{IsAnswer, IsFirmAnswer};
ghost use Rattle.fx_graph_model.specs.Refusals as refusals;
ghost use Rattle.fx_graph.specs.Together.{AreFirstDeclared, after_rows};
ghost use Rattle.fx_graph.specs.Given.{ArePlain, AreReadOnly};
ghost use Rattle.fx_graph.specs.Reading.{ArePartRead};
ghost use Rattle.fx_graph_refusals.specs.Known.{known_kind, known_value};
ghost use Rattle.fx_graph_refusals.specs.Known.{origin_in};

use crate::lists::Lists;
pub use declaring::Rows;
use fx_base::{Kind, Ledgers, Name, Value, Work};
use fx_graph_model::{Formula, GraphError, Origin};
use fx_graph_refusals::{asking, refusals};
use std::alloc::{AllocError, Global};
use std::marker::Model;

/// The most names that are ever declared.
pub const MOST_NAMES: usize = 4_000_000;

/// Properties under names that are given once, each with its definition, a flag that says whether it is unread, and the
/// value that it had when it was read. Contracts see the entries, the flags, and the names that became unread in the
/// last change.
#[derive(Drop)]
pub struct Graph {
    lists: Lists,
}

impl Model for Graph {
    ghost use Rattle.fx_graph_model.specs.Changes.{State};
    ghost use Rattle.fx_graph_model.specs.contracts.entries.Entry as entry;
    ghost use Rattle.std.specs.Coded.{codes};

    ghost Value = { State };

    ghost coded = { Prim.hlevel (codes, entry.the_row.coded) };

    ghost use Rattle.fx_graph.specs.Store.{Holds, shown};

    ghost view = { λ graph. shown graph.lists };

    ghost invariant = { λ graph. Holds graph.lists };
}

impl Graph {
    /// No property was declared.
    pub fn new(alloc: Global) -> Graph
        ensures { result ≡ changes.empty }
    {
        Graph {
            lists: Lists {
                entries: Vec::new(alloc),
                users: Vec::new(alloc),
                unread: Vec::new(alloc),
                spare: Vec::new(alloc),
                newly: Vec::new(alloc),
                newly_count: 0,
                cache: Vec::new(alloc),
                texts: Vec::new(alloc),
                work: Vec::new(alloc),
                operand_count: 0,
            },
        }
    }

    /// Makes room for so many more properties, so that declaring them moves none.
    pub fn reserve(&mut self, more: usize) -> Result<(), AllocError>
        ensures { self.new ≡ self.old }
    {
        declaring::reserve_rows(&mut self.lists, more)
    }

    /// A further property with this value. It isn't unread.
    pub fn declare(
        &mut self,
        alloc: Global,
        kind: Kind,
        read_only: bool,
        value: Value,
    ) -> Result<Name, GraphError>
        requires { kind_of value ≡ kind }
        ensures answer { IsAnswer GraphError.Memory (refusals.declare_refusal self.old.entries) result }
        ensures name { IfOk result (λ name. name.0 ≡ length self.old.entries) }
        ensures ok { OnOk result (self.new ≡ changes.after_declare kind read_only value self.old) }
        ensures err { OnErr result (self.new ≡ self.old) }
    {
        let place = self.lists.entries.len();
        if place >= MOST_NAMES {
            return Err(GraphError::Full);
        }
        declaring::reserve_rows(&mut self.lists, 1)?;
        let kept = value.copy(alloc)?;
        declaring::push_row(alloc, &mut self.lists, kind, read_only, value, kept);
        Ok(Name(place as u32))
    }

    /// Declares these properties one after another. Where memory is wanting, the first of them may be declared.
    pub fn declare_all<R: Rows>(&mut self, alloc: Global, rows: &R) -> Result<(), AllocError>
        requires { length self.old.entries + length (R.rows rows.now) ≤ 4000000 }
        ensures ok { OnOk result (self.new ≡ after_rows (R.rows rows.now) self.old) }
        ensures first { AreFirstDeclared (R.rows rows.now) self.old self.new }
    {
        declaring::declare_rows(alloc, &mut self.lists, rows)
    }

    /// Sets properties by code, all or none, so that those that are joined never differ. Values other than texts take
    /// no memory.
    pub fn set_group(&mut self, alloc: Global, pairs: &[(Name, Value)]) -> Result<(), GraphError>
        requires { AllPairs (λ (one other : Named × Content). one.0 ≢ other.0) pairs.now }
        ensures answer { IsAnswer GraphError.Memory (refusals.set_refusal pairs.now self.old.entries) result }
        ensures firm { ArePlain pairs.now → IsFirmAnswer (refusals.set_refusal pairs.now self.old.entries) result }
        ensures ok { OnOk result (self.new ≡ changes.after_values true pairs.now self.old) }
        ensures err { OnErr result (self.new ≡ self.old) }
    {
        if let Some(refusal) = refusals::of_set(self.lists.entries.as_slice(), pairs) {
            return Err(refusal);
        }
        giving::change_values(alloc, &mut self.lists, pairs, true)?;
        Ok(())
    }

    /// Why these may not be set, if they may not.
    pub fn refuses_set(&self, pairs: &[(Name, Value)]) -> Option<GraphError>
        ensures { result ≡ refusals.set_refusal pairs.now self.now.entries }
    {
        refusals::of_set(self.lists.entries.as_slice(), pairs)
    }

    /// Why these may not be published, if they may not.
    pub fn refuses_publish(&self, pairs: &[(Name, Value)]) -> Option<GraphError>
        ensures { result ≡ refusals.publish_refusal pairs.now self.now.entries }
    {
        refusals::of_publish(self.lists.entries.as_slice(), pairs)
    }

    /// Lists what would become unread if these known properties changed, as what became so last. Nothing else changes.
    pub fn foresee(&mut self, names: &[Name])
        requires { changes.AreKnown self.old.entries names.now }
        ensures { self.new ≡ record self.old {
          newly = newly_marked self.old.entries (numbers names.now) self.old.unread;
        } }
    {
        foreseeing::foresee(&mut self.lists, names);
    }

    /// Gives read-only properties values, all or none. Their origins stay.
    pub fn publish(&mut self, alloc: Global, pairs: &[(Name, Value)]) -> Result<(), GraphError>
        requires distinct { AllPairs (λ (one other : Named × Content). one.0 ≢ other.0) pairs.now }
        requires read_only { AreReadOnly self.old.entries pairs.now }
        ensures answer { IsAnswer GraphError.Memory (refusals.publish_refusal pairs.now self.old.entries) result }
        ensures firm { ArePlain pairs.now → IsFirmAnswer (refusals.publish_refusal pairs.now self.old.entries) result }
        ensures ok { OnOk result (self.new ≡ changes.after_values false pairs.now self.old) }
        ensures err { OnErr result (self.new ≡ self.old) }
    {
        if let Some(refusal) = refusals::of_publish(self.lists.entries.as_slice(), pairs) {
            return Err(refusal);
        }
        giving::change_values(alloc, &mut self.lists, pairs, false)?;
        Ok(())
    }

    /// Binds the property to the expression over the operands, in place of its value or its binding.
    pub fn bind(
        &mut self,
        alloc: Global,
        name: Name,
        expr: Formula,
        operands: Vec<Name>,
    ) -> Result<(), GraphError>
        requires { is_within expr (length operands.items) ≡ true }
        ensures answer { IsAnswer GraphError.Memory (refusals.bind_refusal name expr operands.items self.old.entries)
            result }
        ensures ok { OnOk result (self.new ≡ changes.after_bind name.0 expr (numbers operands.items) self.old) }
        ensures err { OnErr result (self.new ≡ self.old) }
    {
        let refusal = self.refuses_bind(alloc, name, &expr, operands.as_slice())?;
        match refusal {
            Some(refusal) => return Err(refusal),
            None => {}
        }
        self.make_binding(name, expr, operands)?;
        Ok(())
    }

    /// Why a name isn't known, the property is read-only, or the expression isn't of its kind, if it is so.
    pub fn refuses_operands(
        &self,
        alloc: Global,
        name: Name,
        expr: &Formula,
        operands: &[Name],
    ) -> Result<Option<GraphError>, AllocError>
        requires { is_within expr.now (length operands.now) ≡ true }
        ensures { IfOk result (λ refusal. refusal ≡ refusals.fit_refusal name expr.now operands.now self.now.entries) }
    {
        binding::unfit(alloc, self.lists.entries.as_slice(), name, expr, operands)
    }

    /// Why the property may not be bound so, if it may not.
    pub fn refuses_bind(
        &mut self,
        alloc: Global,
        name: Name,
        expr: &Formula,
        operands: &[Name],
    ) -> Result<Option<GraphError>, AllocError>
        requires { is_within expr.now (length operands.now) ≡ true }
        ensures same { self.new ≡ self.old }
        ensures refusal { IfOk result (λ refusal. refusal
            ≡ refusals.bind_refusal name expr.now operands.now self.old.entries) }
    {
        binding::refusal(alloc, &mut self.lists, name, expr, operands)
    }

    /// Binds the property where nothing speaks against it, so that nobody tests twice.
    pub fn make_binding(
        &mut self,
        name: Name,
        expr: Formula,
        operands: Vec<Name>,
    ) -> Result<(), AllocError>
        requires places { is_within expr (length operands.items) ≡ true }
        requires allowed { refusals.bind_refusal name expr operands.items self.old.entries ≡ None }
        ensures ok { OnOk result (self.new ≡ changes.after_bind name.0 expr (numbers operands.items) self.old) }
        ensures err { OnErr result (self.new ≡ self.old) }
    {
        binding::bind_name(&mut self.lists, name, expr, operands)
    }

    /// The value of the property. A bound one is evaluated where it may have changed, after what it reads, each name
    /// once. Where memory is wanting, some names may have been read.
    pub fn read<L: Ledgers>(
        &mut self,
        alloc: Global,
        name: Name,
        work: &mut Work<L>,
    ) -> Result<Value, GraphError>
        ensures answer { IsAnswer GraphError.Memory (refusals.unknown_refusal name self.old.entries) result }
        ensures value { IfOk result (λ value. value ≡ eager self.old.entries name.0) }
        ensures again { marked self.old.unread name.0 ≡ false → self.new ≡ self.old }
        ensures ok { OnOk result (self.new ≡ changes.after_read name.0 self.old) }
        ensures entries { self.new.entries ≡ self.old.entries }
        ensures memory { result ≡ Err GraphError.Memory → changes.IsReadInPart name.0 self.old self.new }
        ensures refused { IfErr result (λ error. error ≢ GraphError.Memory → self.new ≡ self.old) }

        // How often an expression was evaluated: at most once for each bound unread name that this one needs.
        ensures cost { work.new.evaluated ≤ work.old.evaluated + evaluations self.old.entries name.0 self.old.unread }
        ensures steps { OnOk result (work.new.evaluated + bound_unread self.old.entries self.new.unread
            ≡ work.old.evaluated + bound_unread self.old.entries self.old.unread) }
        ensures others { work.new ≡ record work.old { evaluated = work.new.evaluated } }
    {
        if asking::is_unknown(self.lists.entries.as_slice(), name) {
            return Err(GraphError::Unknown(name));
        }
        let value = reading::value_of(alloc, &mut self.lists, name.0 as usize, work)?;
        Ok(value)
    }

    /// Reads these properties one after another. Where memory is wanting, some names that they need may have been
    /// read, and no others.
    pub fn read_all<L: Ledgers>(
        &mut self,
        alloc: Global,
        names: &[Name],
        work: &mut Work<L>,
    ) -> Result<Vec<Value>, AllocError>
        requires { changes.AreKnown self.old.entries names.now }
        ensures values { IfOk result (λ values. values.items ≡ map (eager self.old.entries) (numbers names.now)) }
        ensures ok { OnOk result (self.new ≡ changes.after_read_all (numbers names.now) self.old) }
        ensures part { changes.IsSomeRead self.old self.new }
        ensures unread { ArePartRead self.old.entries (numbers names.now) self.old.unread self.new.unread }
        ensures cost { work.new.evaluated
            ≤ work.old.evaluated + evaluations_of self.old.entries (numbers names.now) self.old.unread }
        ensures others { work.new ≡ record work.old { evaluated = work.new.evaluated } }
    {
        looking::read_each(alloc, &mut self.lists, names, work)
    }

    /// Reads these properties one after another, without a copy of their values. Where memory is wanting, some names
    /// that they need may have been read, and no others.
    pub fn settle_all<L: Ledgers>(
        &mut self,
        alloc: Global,
        names: &[Name],
        work: &mut Work<L>,
    ) -> Result<(), AllocError>
        requires { changes.AreKnown self.old.entries names.now }
        ensures ok { OnOk result (self.new ≡ changes.after_read_all (numbers names.now) self.old) }
        ensures part { changes.IsSomeRead self.old self.new }
        ensures unread { ArePartRead self.old.entries (numbers names.now) self.old.unread self.new.unread }
        ensures cost { work.new.evaluated
            ≤ work.old.evaluated + evaluations_of self.old.entries (numbers names.now) self.old.unread }
        ensures others { work.new ≡ record work.old { evaluated = work.new.evaluated } }
    {
        looking::settle_each(alloc, &mut self.lists, names, work)
    }

    /// The values of these properties, which stay as unread as they are. What is unread is evaluated each time.
    pub fn look_at<L: Ledgers>(
        &mut self,
        alloc: Global,
        names: &[Name],
        work: &mut Work<L>,
    ) -> Result<Vec<Value>, AllocError>
        requires { changes.AreKnown self.old.entries names.now }
        ensures same { self.new ≡ self.old }
        ensures values { IfOk result (λ values. values.items ≡ map (eager self.old.entries) (numbers names.now)) }
        ensures cost { work.new.evaluated
            ≤ work.old.evaluated + evaluations_of self.old.entries (numbers names.now) self.old.unread }
        ensures others { work.new ≡ record work.old { evaluated = work.new.evaluated } }
    {
        looking::look_at_each(alloc, &mut self.lists, names, work)
    }

    /// Reads a bound property and gives it its value for its own; another one stays as it is. Where memory is wanting,
    /// some names may have been read.
    pub fn unbind<L: Ledgers>(
        &mut self,
        alloc: Global,
        name: Name,
        work: &mut Work<L>,
    ) -> Result<(), GraphError>
        ensures answer { IsAnswer GraphError.Memory (refusals.unknown_refusal name self.old.entries) result }
        ensures ok { OnOk result (self.new ≡ changes.after_unbind name.0 self.old) }
        ensures memory { result ≡ Err GraphError.Memory → changes.IsReadInPart name.0 self.old self.new }
        ensures refused { IfErr result (λ error. error ≢ GraphError.Memory → self.new ≡ self.old) }
        ensures cost { work.new.evaluated ≤ work.old.evaluated + evaluations self.old.entries name.0 self.old.unread }
        ensures steps { OnOk result (work.new.evaluated + bound_unread self.old.entries self.new.unread
            ≡ work.old.evaluated + bound_unread self.old.entries self.old.unread) }
        ensures others { work.new ≡ record work.old { evaluated = work.new.evaluated } }
    {
        if asking::is_unknown(self.lists.entries.as_slice(), name) {
            return Err(GraphError::Unknown(name));
        }
        if !asking::is_bound(self.lists.entries.as_slice(), name) {
            return Ok(());
        }
        unbinding::unbind_name(alloc, &mut self.lists, name.0 as usize, work)?;
        Ok(())
    }

    /// Gives names back, unless a property that stays is bound to one of them. They are never given again.
    pub fn forget(&mut self, names: &[Name]) -> Result<(), GraphError>
        ensures answer { refusals.IsForgetAnswer names.now self.old.entries result }
        ensures ok { OnOk result (self.new ≡ changes.after_forget (numbers names.now) self.old) }
        ensures err { OnErr result (self.new ≡ self.old) }
    {
        if let Some(refusal) = forgetting::refusal(&mut self.lists, names) {
            return Err(refusal);
        }
        forgetting::forget_names(&mut self.lists, names);
        Ok(())
    }

    /// Whether the property, which isn't bound, has this value. It stays as unread as it is.
    pub fn has_value(&self, name: Name, value: &Value) -> bool
        requires { bound_in self.now.entries name.0 ≡ false }
        ensures { result ≡ same_value (eager self.now.entries name.0) value.now }
    {
        giving::has_value(self.lists.entries.as_slice(), name, value)
    }

    /// The value of a known property that isn't bound. It stays as unread as it is.
    pub fn own_value(&self, alloc: Global, name: Name) -> Result<Value, AllocError>
        requires known { unknown_in self.now.entries name.0 ≡ false }
        requires free { bound_in self.now.entries name.0 ≡ false }
        ensures { IfOk result (λ value. value ≡ eager self.now.entries name.0) }
    {
        asking::own_value(alloc, self.lists.entries.as_slice(), name)
    }

    /// The names that became unread in the last change, rising.
    pub fn newly(&self) -> &[Name]
        ensures { numbers result.now ≡ self.now.newly }
    {
        &self.lists.newly.as_slice()[..self.lists.newly_count]
    }

    /// Whether the property is bound.
    pub fn is_bound(&self, name: Name) -> bool
        ensures { result ≡ bound_in self.now.entries name.0 }
    {
        asking::is_bound(self.lists.entries.as_slice(), name)
    }

    /// Whether the property is only published by the player.
    pub fn is_read_only(&self, name: Name) -> bool
        ensures { result ≡ refusals.read_only_in self.now.entries name.0 }
    {
        asking::is_read_only(self.lists.entries.as_slice(), name)
    }

    /// Whether the name was never declared, or was forgotten.
    pub fn is_unknown(&self, name: Name) -> bool
        ensures { result ≡ unknown_in self.now.entries name.0 }
    {
        asking::is_unknown(self.lists.entries.as_slice(), name)
    }

    /// How many names were ever declared.
    pub fn count(&self) -> usize
        ensures { result ≡ length self.now.entries }
    {
        self.lists.entries.len()
    }

    /// The kind of a known property.
    pub fn kind(&self, name: Name) -> Option<Kind>
        ensures { result ≡ known_kind self.now.entries name.0 }
    {
        refusals::known_kind(self.lists.entries.as_slice(), name)
    }

    /// Lends the value of a known property that isn't unread.
    pub fn value(&self, name: Name) -> Option<&Value>
        ensures { option_copied result ≡ known_value self.now.entries self.now.unread name.0 }
    {
        looking::kept_of(&self.lists, name)
    }

    /// Whether two known properties are of one kind.
    pub fn are_of_one_kind(&self, one: Name, other: Name) -> bool
        ensures { result ≡ same_kind (refusals.kind_at self.now.entries one.0)
            (refusals.kind_at self.now.entries other.0) }
    {
        refusals::are_of_one_kind(self.lists.entries.as_slice(), one, other)
    }

    /// Whether the property may have changed since it was read.
    pub fn is_unread(&self, name: Name) -> bool
        ensures { result ≡ marked self.now.unread name.0 }
    {
        asking::is_marked(self.lists.unread.as_slice(), name)
    }

    /// Whether any of so many properties from this one on may have changed since it was read.
    pub fn is_any_unread(&self, first: Name, count: usize) -> bool
        ensures { result ≡ list_any (marked self.now.unread) (range_with_len first.0 count) }
    {
        looking::is_one_unread(self.lists.unread.as_slice(), first, count)
    }

    /// Where the present definition of a known property came from.
    pub fn origin(&self, name: Name) -> Option<Origin>
        ensures { result ≡ origin_in self.now.entries name.0 }
    {
        asking::origin_of(self.lists.entries.as_slice(), name)
    }

    /// What is true at all times: no property reads itself, over however many bindings, and who reads an unread one is
    /// unread.
    pub fn laws(&self)
        ensures acyclic { IsAcyclic self.now.entries }
        ensures closed { IsClosed self.now.entries self.now.unread }
        ensures flags { length self.now.unread ≡ length self.now.entries }
        ensures sound { AreSound self.now.entries }
        ensures ranked { (rank : ℕ → ℕ) × Ranked self.now.entries rank }
        ensures few { length self.now.entries ≤ 4000000 }
    {
        let _count = self.lists.operand_count;
    }
}
