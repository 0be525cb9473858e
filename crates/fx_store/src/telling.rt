//! What a change tells, after it was made.
ghost use Rattle.std.specs.Prelude.{ℕ, List, ◌≡◌, ◌++◌, ◌∷◌, ◌≤◌, ◌+◌, [], None, false, if◌then◌else◌, length, All, IfOk, OnOk};
ghost use Rattle.std.specs.List.{flat_map};
ghost use Rattle.fx_store_model.specs.Step.{invalid_notices};
ghost use Rattle.fx_listen.specs.Listening.{living_in};
ghost use Rattle.fx_graph_model.specs.declared.entries.Entry.{Entry};
ghost use Rattle.fx_graph_model.specs.Equality.{same_value};
ghost use Rattle.fx_base.specs.Names.{numbers};
ghost use Rattle.fx_base.specs.declared.keys.Name.{Name as Named};
ghost use Rattle.fx_graph_model.specs.Eager.{eager};
ghost use Rattle.fx_graph_model.specs.Unread.{evaluations_of, marked};
ghost use Rattle.fx_graph_model.specs.Uses.{unknown_in};
ghost use Rattle.fx_graph_model.specs.Changes.{AreKnown, after_read_all, IsSomeRead};
ghost use Rattle.fx_store.specs.Watching.{IsWatch, notice_to, values_of};

use crate::watching::{Watched, listeners_on};
use fx_base::{Ledgers, List, Name, Value, Work};
use fx_graph::Graph;
use fx_graph_model::are_same;
use fx_handles::Owners;
use fx_listen::{ListenKind, Listeners};
use fx_store_model::Notices;
use std::alloc::{AllocError, Global};

/// Tells the listener of both values, unless they are one.
fn push_changed(
    alloc: Global,
    notices: &mut Vec<(Name, u32, Value, Value)>,
    to: (Name, u32),
    before: &Value,
    after: &Value,
) -> Result<(), AllocError>
    ensures { OnOk result (notices.new.items
        ≡ (if same_value before.now after.now
        then notices.old.items
        else notices.old.items ++ (to.0, to.1, before.now, after.now) ∷ [])) }
{
    if are_same(before, after) {
        return Ok(());
    }
    let was = before.copy(alloc)?;
    let is = after.copy(alloc)?;
    notices.push((to.0, to.1, was, is))?;
    Ok(())
}

/// Lends the value of a known property that is read.
fn value_in(graph: &Graph, name: Name) -> &Value
    requires known { unknown_in graph.now.entries name.0 ≡ false }
    requires read { marked graph.now.unread name.0 ≡ false }
    ensures { result.now ≡ eager graph.now.entries name.0 }
{
    match graph.value(name) {
        Some(value) => value,
        None => unreachable!(),
    }
}

/// What the change listeners are told, whose properties are read, where these are the values before. What isn't told
/// isn't copied.
fn tell_changed(
    alloc: Global,
    graph: &Graph,
    heard: &[(Name, u32)],
    before: &[Value],
) -> Result<Vec<(Name, u32, Value, Value)>, AllocError>
    requires before { length before.now ≡ length heard.now }
    requires known { All (λ (to : Named × ℕ). unknown_in graph.now.entries to.0.0 ≡ false) heard.now }
    requires read { All (λ (to : Named × ℕ). marked graph.now.unread to.0.0 ≡ false) heard.now }
    ensures { IfOk result (λ notices. (was : List Entry) → before.now ≡ values_of was heard.now
        → notices.items ≡ flat_map (notice_to was graph.now.entries) heard.now) }
{
    let mut notices = Vec::new(alloc);
    for (place, to) in heard.iter().enumerate() {
        let after = value_in(graph, to.0);
        push_changed(alloc, &mut notices, *to, &before[place], after)?;
    }
    Ok(notices)
}

/// Tells the invalidation listeners of what became unread, then reads every name that is to be read, and tells the
/// change listeners of what has another value.
pub fn tell<L: Ledgers>(
    alloc: Global,
    graph: &mut Graph,
    listeners: &Listeners,
    owners: &Owners,
    watch: &Watched,
    work: &mut Work<L>,
) -> Result<Notices, AllocError>
    requires known { AreKnown graph.old.entries watch.now.names.items }
    requires watch { (entries : List Entry)
        × IsWatch entries watch.now.heard.items watch.now.names.items watch.now.before.items }
    ensures ok { OnOk result (graph.new ≡ after_read_all (numbers watch.now.names.items) graph.old) }
    ensures part { IsSomeRead graph.old graph.new }
    ensures added { IfOk result (λ notices. notices.added ≡ None) }
    ensures invalid { IfOk result (λ notices. notices.invalid
        ≡ invalid_notices graph.old.newly (living_in owners.now.living listeners.now.entries)) }
    ensures changed { IfOk result (λ notices. (before : List Entry)
        → watch.now.before.items ≡ values_of before watch.now.heard.items
        → notices.changed ≡ flat_map (notice_to before graph.old.entries) watch.now.heard.items) }
    ensures cost { work.new.evaluated ≤ work.old.evaluated
        + evaluations_of graph.old.entries (numbers watch.now.names.items) graph.old.unread }
    ensures others { work.new ≡ record work.old { evaluated = work.new.evaluated } }
{
    let invalid = listeners_on(alloc, listeners, owners, graph.newly(), ListenKind::Invalid)?;
    graph.settle_all(alloc, watch.names.as_slice(), work)?;
    let changed = tell_changed(
        alloc,
        graph,
        watch.heard.as_slice(),
        watch.before.as_slice(),
    )?;
    Ok(Notices {
        added: None,
        invalid: List::from_vec(invalid),
        changed: List::from_vec(changed),
    })
}
