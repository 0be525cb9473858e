//! Names that are given back: refused while a property outside is bound to one of them, and then nothing is left of
//! them but that they were declared.
ghost use Rattle.std.specs.Prelude.{ℕ, List, ◌≡◌, ◌≤◌, ◌<◌, ◌+◌, false, Contains, length, replicate, slice_set, MatchOption, None};
ghost use Rattle.fx_expr.specs.Meaning.{no_value};
ghost use Rattle.fx_base.specs.Names.{numbers};
ghost use Rattle.fx_graph_model.specs.Uses.{entry_of};
ghost use Rattle.fx_graph_model.specs.Unread.{marked};
ghost use Rattle.fx_graph_model.specs.Refusals.{IsFree, IsForgetRefusal, unknown_name};
ghost use Rattle.fx_graph_model.specs.Changes.{after_forget, forgotten};
ghost use Rattle.fx_graph.specs.Forgotten.{AreFlagged, IsOutside, IsSomeOutside, Keeps};
ghost use Rattle.fx_graph.specs.Store.{Holds, shown};

use crate::lists::Lists;
use crate::marking::mark_names;
use fx_base::{Name, Value};
use fx_graph_edges::{Users, operands_at, release_at, take_back};
use fx_graph_model::{Definition, Entry, GraphError};
use fx_graph_refusals::asking::unknown_among;

fn is_set(flags: &[bool], place: usize) -> bool
    ensures { result ≡ marked flags.now place }
{
    match flags.get(place) {
        None => false,
        Some(flag) => *flag,
    }
}

/// The first of these users that isn't flagged.
fn user_outside(row: &[usize], flags: &[bool]) -> Option<usize>
    ensures { (names : List ℕ) → AreFlagged names flags.now → IsOutside names row.now result }
{
    for user in row {
        if !is_set(flags, *user) {
            return Some(*user);
        }
    }
    None
}

/// A property that isn't flagged, as these names are, and is bound to one of them.
fn bound_outside(users: &[Users], flags: &[bool], names: &[Name]) -> Option<usize>
    requires known { (name : ℕ) → Contains (numbers names.now) name → name < length users.now }
    requires flagged { AreFlagged (numbers names.now) flags.now }
    ensures { IsSomeOutside (numbers names.now) users.now result }
{
    for name in names {
        let row = &users[name.0 as usize];
        if let Some(user) = user_outside(row.as_slice(), flags) {
            return Some(user);
        }
    }
    None
}

/// A property that isn't among these known names, and is bound to one of them.
fn user_of(lists: &mut Lists, names: &[Name]) -> Option<usize>
    requires holds { Holds lists.old }
    requires known { (name : ℕ) → Contains (numbers names.now) name → name < length lists.old.entries.items }
    ensures holds { Holds lists.new }
    ensures same { shown lists.new ≡ shown lists.old }
    ensures user { IsSomeOutside (numbers names.now) lists.old.users.items result }
{
    let count = mark_names(names, lists.spare.as_mut_slice(), lists.work.as_mut_slice());
    let user = bound_outside(lists.users.as_slice(), lists.spare.as_slice(), names);
    take_back(lists.spare.as_mut_slice(), lists.work.as_slice(), count);
    user
}

/// Why the names may not be forgotten, if they may not.
pub fn refusal(lists: &mut Lists, names: &[Name]) -> Option<GraphError>
    requires holds { Holds lists.old }
    ensures holds { Holds lists.new }
    ensures same { shown lists.new ≡ shown lists.old }
    ensures refusal { MatchOption result ((unknown_name lists.old.entries.items names.now ≡ None)
        × IsFree (numbers names.now) lists.old.entries.items) (IsForgetRefusal names.now lists.old.entries.items) }
{
    if let Some(unknown) = unknown_among(lists.entries.as_slice(), names) {
        return Some(unknown);
    }
    match user_of(lists, names) {
        Some(user) => Some(GraphError::InUse(Name(user as u32))),
        None => None,
    }
}

fn write_forgotten(entries: &mut [Entry], name: usize)
    requires { name < length entries.old }
    ensures { entries.new ≡ slice_set entries.old name (forgotten (entry_of entries.old name)) }
{
    let entry = &entries[name];
    let kind = entry.kind;
    let read_only = entry.read_only;
    let origin = entry.origin;
    entries[name] = Entry {
        kind,
        read_only,
        origin,
        definition: Definition::Forgotten,
    };
}

/// Leaves nothing of the name.
fn forget_one(lists: &mut Lists, name: usize)
    requires keeps { Keeps lists.old }
    requires known { name < length lists.old.entries.items }
    ensures keeps { Keeps lists.new }
    ensures fewer { lists.new.operand_count ≤ lists.old.operand_count }
    ensures kept { lists.new ≡ record lists.old {
      entries = lists.new.entries;
      users = lists.new.users;
      unread = lists.new.unread;
      cache = lists.new.cache;
      operand_count = lists.new.operand_count;
    } }
    ensures entries { lists.new.entries.items
        ≡ slice_set lists.old.entries.items name (forgotten (entry_of lists.old.entries.items name)) }
    ensures unread { lists.new.unread.items ≡ slice_set lists.old.unread.items name false }
    ensures cache { lists.new.cache.items ≡ slice_set lists.old.cache.items name no_value }
{
    let left = lists.operand_count - operands_at(lists.entries.as_slice(), name);
    release_at(lists.entries.as_slice(), lists.users.as_mut_slice(), name);
    write_forgotten(lists.entries.as_mut_slice(), name);
    lists.unread[name] = false;
    lists.cache[name] = Value::Bool(false);
    lists.operand_count = left;
}

/// Leaves nothing of known names that no other is bound to.
pub fn forget_names(lists: &mut Lists, names: &[Name])
    requires holds { Holds lists.old }
    requires known { unknown_name lists.old.entries.items names.now ≡ None }
    requires free { IsFree (numbers names.now) lists.old.entries.items }
    ensures holds { Holds lists.new }
    ensures forgotten { shown lists.new ≡ after_forget (numbers names.now) (shown lists.old) }
{
    for name in names {
        forget_one(lists, name.0 as usize);
    }
}
