//! What a change step looks at before the change, and the reads after it.
ghost use Rattle.std.specs.Prelude.{ℕ, ◌≡◌, ◌++◌, ◌∷◌, ◌≤◌, ◌+◌, [], false, if◌then◌else◌, All, IfOk, OnOk, map};
ghost use Rattle.fx_listen.specs.Listening.{living_in};
ghost use Rattle.fx_base.specs.Names.{numbers};
ghost use Rattle.fx_graph_model.specs.declared.entries.Entry.{Entry};
ghost use Rattle.fx_graph_model.specs.Uses.{unknown_in};
ghost use Rattle.fx_graph_model.specs.Unread.{evaluations_of};
ghost use Rattle.fx_graph_model.specs.Changes.{after_read_all, AreKnown, IsSomeRead};
ghost use Rattle.fx_store_pairs.specs.Pairs.{is_paired as has_partner, pairs_of};
ghost use Rattle.fx_store.specs.Looking.{IsWhole};
ghost use Rattle.fx_store.specs.Watching.{IsWatch, ends_of, heard_of, heard_on, names_of, properties_of, told_as, watch_list};

use fx_base::{Ledgers, Name, Value, Work};
use fx_graph::Graph;
use fx_handles::Owners;
use fx_listen::{ListenKind, Listener, Listeners};
use fx_store_pairs::Pairs;
use std::alloc::{AllocError, Global};

/// The change listeners that may be told, each by its property and its number; the names to be read after the change,
/// first theirs, one for each; and the values of the listeners' properties before it.
#[derive(Drop)]
pub struct Watched {
    pub heard: Vec<(Name, u32)>,
    pub names: Vec<Name>,
    pub before: Vec<Value>,
}

/// The property and the number of each.
fn as_told(alloc: Global, listeners: &[Listener]) -> Result<Vec<(Name, u32)>, AllocError>
    ensures { IfOk result (λ heard. heard.items ≡ map told_as listeners.now) }
{
    listeners
        .iter()
        .map(|listener| (listener.name, listener.number))
        .collect(alloc)
}

/// The living change listeners.
fn change_listeners(
    alloc: Global,
    listeners: &Listeners,
    owners: &Owners,
) -> Result<Vec<(Name, u32)>, AllocError>
    ensures { IfOk result (λ heard. heard.items ≡ heard_of (living_in owners.now.living listeners.now.entries)) }
{
    let living = listeners.live(alloc, owners, ListenKind::Change)?;
    as_told(alloc, living.as_slice())
}

/// Puts the listeners of the property behind the others.
fn push_listeners(
    heard: &mut Vec<(Name, u32)>,
    name: Name,
    numbers: &[u32],
) -> Result<(), AllocError>
    ensures { OnOk result (heard.new.items ≡ heard.old.items ++ map (λ (number : ℕ). (name, number)) numbers.now) }
{
    for number in numbers {
        heard.push((name, *number))?;
    }
    Ok(())
}

/// The living listeners of one kind on these properties, by property and then by number.
pub fn listeners_on(
    alloc: Global,
    listeners: &Listeners,
    owners: &Owners,
    names: &[Name],
    kind: ListenKind,
) -> Result<Vec<(Name, u32)>, AllocError>
    ensures { IfOk result (λ heard. heard.items
        ≡ heard_on kind (numbers names.now) (living_in owners.now.living listeners.now.entries)) }
{
    let mut heard = Vec::new(alloc);
    for name in names {
        let told = listeners.live_on(alloc, owners, *name, kind)?;
        push_listeners(&mut heard, *name, told.as_slice())?;
    }
    Ok(heard)
}

/// The properties of the listeners, one for each.
fn names_heard(alloc: Global, heard: &[(Name, u32)]) -> Result<Vec<Name>, AllocError>
    ensures { IfOk result (λ names. names.items ≡ properties_of heard.now) }
{
    heard.iter().map(|to| to.0).collect(alloc)
}

/// Puts both names behind the others.
pub fn push_two(names: &mut Vec<Name>, one: Name, other: Name) -> Result<(), AllocError>
    ensures { OnOk result (numbers names.new.items ≡ numbers names.old.items ++ one.0 ∷ other.0 ∷ []) }
{
    names.push(one)?;
    names.push(other)?;
    Ok(())
}

/// Puts both ends of each pair behind the names.
fn push_ends(names: &mut Vec<Name>, pairs: &[(Name, Name)]) -> Result<(), AllocError>
    ensures { OnOk result (numbers names.new.items ≡ numbers names.old.items ++ ends_of (pairs_of pairs.now)) }
{
    for pair in pairs {
        push_two(names, pair.0, pair.1)?;
    }
    Ok(())
}

/// The names to be read after a change.
fn watched_names(
    alloc: Global,
    heard: &[(Name, u32)],
    pairs: &[(Name, Name)],
) -> Result<Vec<Name>, AllocError>
    ensures { IfOk result (λ names. numbers names.items ≡ names_of heard.now ++ ends_of (pairs_of pairs.now)) }
{
    let mut names = names_heard(alloc, heard)?;
    push_ends(&mut names, pairs)?;
    Ok(names)
}

/// Those that are joined, if the name stands in a pair.
pub fn joined_ends<'a>(pairs: &Pairs, name: Name, group: &'a [Name]) -> &'a [Name]
    ensures { result.now ≡ (if has_partner pairs.now name.0 then group.now else []) }
{
    if pairs.is_paired(name) {
        return group;
    }
    &[]
}

/// Looks at what these listeners may be told of, where these further names are to be read as well; nothing is read.
pub fn watch_on<L: Ledgers>(
    alloc: Global,
    graph: &mut Graph,
    heard: Vec<(Name, u32)>,
    more: &[Name],
    work: &mut Work<L>,
) -> Result<Watched, AllocError>
    requires known { All (λ (name : ℕ). unknown_in graph.old.entries name ≡ false) (names_of heard.items) }
    ensures same { graph.new ≡ graph.old }
    ensures watch { IfOk result (λ watch. IsWatch graph.old.entries watch.heard.items watch.names.items
        watch.before.items) }
    ensures heard { IfOk result (λ watch. watch.heard.items ≡ heard.items) }
    ensures names { IfOk result (λ watch. numbers watch.names.items ≡ names_of heard.items ++ numbers more.now) }
    ensures cost { work.new.evaluated ≤ work.old.evaluated
        + evaluations_of graph.old.entries (names_of heard.items) graph.old.unread }
    ensures others { work.new ≡ record work.old { evaluated = work.new.evaluated } }
{
    let mut names = names_heard(alloc, heard.as_slice())?;
    let before = graph.look_at(alloc, names.as_slice(), work)?;
    names.extend_from_slice(more)?;
    Ok(Watched {
        heard,
        names,
        before,
    })
}

/// Looks at all that a change may tell of; nothing is read.
pub fn watch<L: Ledgers>(
    alloc: Global,
    graph: &mut Graph,
    pairs: &[(Name, Name)],
    listeners: &Listeners,
    owners: &Owners,
    work: &mut Work<L>,
) -> Result<Watched, AllocError>
    requires known { All (λ (name : ℕ). unknown_in graph.old.entries name ≡ false)
        (watch_list (pairs_of pairs.now) (living_in owners.now.living listeners.now.entries)) }
    ensures same { graph.new ≡ graph.old }
    ensures watch { IfOk result (λ watch. IsWatch graph.old.entries watch.heard.items watch.names.items
        watch.before.items) }
    ensures whole { IfOk result (λ watch. IsWhole (pairs_of pairs.now)
        (living_in owners.now.living listeners.now.entries) watch.heard.items watch.names.items) }
    ensures cost { work.new.evaluated ≤ work.old.evaluated
        + evaluations_of graph.old.entries
        (watch_list (pairs_of pairs.now) (living_in owners.now.living listeners.now.entries)) graph.old.unread }
    ensures others { work.new ≡ record work.old { evaluated = work.new.evaluated } }
{
    let heard = change_listeners(alloc, listeners, owners)?;
    let mut watch = watch_on(alloc, graph, heard, &[], work)?;
    push_ends(&mut watch.names, pairs)?;
    Ok(watch)
}

/// Reads every watched name.
pub fn read_watched<L: Ledgers>(
    alloc: Global,
    graph: &mut Graph,
    pairs: &[(Name, Name)],
    listeners: &Listeners,
    owners: &Owners,
    work: &mut Work<L>,
) -> Result<(), AllocError>
    requires known { All (λ (name : ℕ). unknown_in graph.old.entries name ≡ false)
        (watch_list (pairs_of pairs.now) (living_in owners.now.living listeners.now.entries)) }
    ensures ok { OnOk result (graph.new ≡ after_read_all
        (watch_list (pairs_of pairs.now) (living_in owners.now.living listeners.now.entries)) graph.old) }
    ensures part { IsSomeRead graph.old graph.new }
    ensures cost { work.new.evaluated ≤ work.old.evaluated
        + evaluations_of graph.old.entries
        (watch_list (pairs_of pairs.now) (living_in owners.now.living listeners.now.entries)) graph.old.unread }
    ensures others { work.new ≡ record work.old { evaluated = work.new.evaluated } }
{
    let heard = change_listeners(alloc, listeners, owners)?;
    let names = watched_names(alloc, heard.as_slice(), pairs)?;
    graph.settle_all(alloc, names.as_slice(), work)
}
