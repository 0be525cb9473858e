//! Values given to names, set by code or published by the player: the texts are copied before the first value is given,
//! and other values take no memory, so that wanting memory changes nothing. The names whose value is another one are
//! marked, and all that reads them.
ghost use Rattle.std.specs.Prelude.{ℕ, List, ◌≡◌, ◌≤◌, ◌<◌, ◌+◌, ◌++◌, if◌then◌else◌, true, false, not, All, AllPairs, ◌≢◌, [], ◌∷◌, length, reverse, slice_set, IfOk, OnOk, OnErr, IsOk};
ghost use Rattle.fx_base.specs.declared.keys.Name.{Name as Named};
ghost use Rattle.fx_base.specs.declared.values.Value.{Value as Content};
ghost use Rattle.fx_base.specs.Printing.{is_plain};
ghost use Rattle.fx_graph_model.specs.declared.entries.Origin.{Origin as Source};
ghost use Rattle.fx_graph_model.specs.declared.entries.Origin.TheVariants as source;
ghost use Rattle.fx_base.specs.Names.{numbers};
ghost use Rattle.fx_graph_model.specs.Uses.{Ranked, entry_of, is_binding, bound_in, unknown_in};
ghost use Rattle.fx_graph_model.specs.Equality.{same_value};
ghost use Rattle.fx_graph_model.specs.Eager.{value_of_definition, eager};
ghost use Rattle.fx_graph_model.specs.Unread.{unmarked, after_marking, newly_marked, IsClosed};
ghost use Rattle.fx_graph_model.specs.Marking.{MarksAll};
ghost use Rattle.fx_graph_model.specs.Users.{Mirrors};
ghost use Rattle.fx_graph_model.specs.Changes.{given, with_values, changed, after_values};
ghost use Rattle.fx_graph.specs.Given.{ArePlain, AreBase, texts_of, texts_in};
ghost use Rattle.fx_graph.specs.Store.{Holds, shown};

use crate::lists::Lists;
use crate::marking::finish;
use fx_base::{Name, Value};
use fx_graph_edges::mark_one;
use fx_graph_model::{Definition, Entry, Origin, are_same};
use std::alloc::{AllocError, Global};

/// Puts a copy of the value behind the others, if it is a text.
fn push_text(alloc: Global, texts: &mut Vec<Value>, value: &Value) -> Result<(), AllocError>
    ensures ok { OnOk result (texts.new.items ≡ texts.old.items ++ texts_of (value.now ∷ [])) }
    ensures firm { is_plain value.now ≡ true → IsOk result }
{
    match value {
        Value::Text(_) => {
            let text = value.copy(alloc)?;
            texts.push(text)?;
            Ok(())
        }
        _ => Ok(()),
    }
}

/// Copies the texts among the values. The first one stands last, to be taken first.
fn prepare(alloc: Global, texts: &mut Vec<Value>, pairs: &[(Name, Value)]) -> Result<(), AllocError>
    ensures ok { OnOk result (texts.new.items ≡ reverse (texts_in pairs.now)) }
    ensures firm { ArePlain pairs.now → IsOk result }
{
    texts.clear();
    for pair in pairs {
        push_text(alloc, texts, &pair.1)?;
    }
    texts.as_mut_slice().reverse();
    Ok(())
}

/// What is given for this value: of a text its copy, which is the last of those that were made.
fn next_value(alloc: Global, texts: &mut Vec<Value>, value: &Value) -> Value
    requires { (left : List Content) × (texts.old.items ≡ left ++ texts_of (value.now ∷ [])) }
    ensures value { result ≡ value.now }
    ensures left { texts.old.items ≡ texts.new.items ++ texts_of (value.now ∷ []) }
{
    match value {
        Value::Text(_) => match texts.pop() {
            Some(text) => text,
            None => unreachable!(),
        },
        _ => match value.copy(alloc) {
            Ok(copy) => copy,
            Err(_) => unreachable!(),
        },
    }
}

fn origin_after(sets: bool, origin: Origin) -> Origin
    ensures { result ≡ if sets then source.Code else origin }
{
    if sets { Origin::Code } else { origin }
}

/// Gives the name this value.
pub fn write_value(entries: &mut [Entry], place: usize, value: Value, sets: bool)
    requires { place < length entries.old }
    ensures { entries.new ≡ slice_set entries.old place (given sets value (entry_of entries.old place)) }
{
    let entry = &entries[place];
    let kind = entry.kind;
    let read_only = entry.read_only;
    let origin = origin_after(sets, entry.origin);
    entries[place] = Entry {
        kind,
        read_only,
        origin,
        definition: Definition::Base(value),
    };
}

/// Gives the names their values, the texts those that were copied.
fn give(
    alloc: Global,
    entries: &mut [Entry],
    texts: &mut Vec<Value>,
    pairs: &[(Name, Value)],
    sets: bool,
)
    requires known { All (λ (pair : Named × Content). pair.0.0 < length entries.old) pairs.now }
    requires prepared { texts.old.items ≡ reverse (texts_in pairs.now) }
    ensures { entries.new ≡ with_values sets pairs.now entries.old }
{
    for pair in pairs {
        let value = next_value(alloc, texts, &pair.1);
        write_value(entries, pair.0.0 as usize, value, sets);
    }
}

/// Whether what isn't a binding gives this value.
fn gives(definition: &Definition, value: &Value) -> bool
    ensures { (f : ℕ → Content) → is_binding definition.now ≡ false
        → result ≡ same_value (value_of_definition f definition.now) value.now }
{
    match definition {
        Definition::Base(held) => are_same(held, value),
        Definition::Bound(_, _) => false,
        Definition::Forgotten => are_same(&Value::Bool(false), value),
    }
}

/// Whether the name, which isn't bound, has this value.
pub fn has_value(entries: &[Entry], name: Name, value: &Value) -> bool
    requires { bound_in entries.now name.0 ≡ false }
    ensures { (f : ℕ → Content) → result
        ≡ same_value (value_of_definition f (entry_of entries.now name.0).definition) value.now }
{
    match entries.get(name.0 as usize) {
        None => are_same(&Value::Bool(false), value),
        Some(entry) => gives(&entry.definition, value),
    }
}

/// Marks the name where its value is another one.
fn mark_pair(
    entries: &[Entry],
    pair: &(Name, Value),
    unread: &mut [bool],
    work: &mut [usize],
    count: usize,
) -> usize
    requires ranks { (rank : ℕ → ℕ) × Ranked entries.now rank }
    requires known { pair.now.0.0 < length entries.now }
    requires base { bound_in entries.now pair.now.0.0 ≡ false }
    requires flags { length unread.old ≡ length entries.now }
    requires room { count + unmarked unread.old ≤ length work.old }
    ensures { MarksAll (changed (pair.now ∷ []) entries.now) unread.old work.old count unread.new work.new result }
{
    let same = has_value(entries, pair.0, &pair.1);
    if same {
        return count;
    }
    mark_one(unread, work, count, pair.0.0 as usize)
}

fn mark_changed(
    entries: &[Entry],
    pairs: &[(Name, Value)],
    unread: &mut [bool],
    work: &mut [usize],
) -> usize
    requires ranks { (rank : ℕ → ℕ) × Ranked entries.now rank }
    requires base { AreBase entries.now pairs.now }
    requires flags { length unread.old ≡ length entries.now }
    requires places { length work.old ≡ length entries.now }
    ensures { MarksAll (changed pairs.now entries.now) unread.old work.old 0 unread.new work.new result }
{
    let mut end = 0;
    for pair in pairs {
        end = mark_pair(entries, pair, unread, work, end);
    }
    end
}

/// Gives names their values, the texts those that were copied, marks what changed, and lists the names that became
/// unread.
fn apply_values(alloc: Global, lists: &mut Lists, pairs: &[(Name, Value)], sets: bool)
    requires holds { Holds lists.old }
    requires base { AreBase lists.old.entries.items pairs.now }
    requires distinct { AllPairs (λ (one other : Named × Content). one.0 ≢ other.0) pairs.now }
    requires prepared { lists.old.texts.items ≡ reverse (texts_in pairs.now) }
    ensures holds { Holds lists.new }
    ensures given { shown lists.new ≡ after_values sets pairs.now (shown lists.old) }
{
    let count = mark_changed(
        lists.entries.as_slice(),
        pairs,
        lists.unread.as_mut_slice(),
        lists.work.as_mut_slice(),
    );
    give(
        alloc,
        lists.entries.as_mut_slice(),
        &mut lists.texts,
        pairs,
        sets,
    );
    finish(lists, count);
}

/// Gives names their values, marks what changed, and lists the names that became unread.
pub fn change_values(
    alloc: Global,
    lists: &mut Lists,
    pairs: &[(Name, Value)],
    sets: bool,
) -> Result<(), AllocError>
    requires holds { Holds lists.old }
    requires base { AreBase lists.old.entries.items pairs.now }
    requires distinct { AllPairs (λ (one other : Named × Content). one.0 ≢ other.0) pairs.now }
    ensures holds { Holds lists.new }
    ensures ok { OnOk result (shown lists.new ≡ after_values sets pairs.now (shown lists.old)) }
    ensures err { OnErr result (shown lists.new ≡ shown lists.old) }
    ensures firm { ArePlain pairs.now → IsOk result }
{
    prepare(alloc, &mut lists.texts, pairs)?;
    apply_values(alloc, lists, pairs, sets);
    Ok(())
}
