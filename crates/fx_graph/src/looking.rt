//! Several names at once: read one after another, or looked at, so that all stay as unread as they were. And one name,
//! whose value is lent where it isn't unread.
ghost use Rattle.std.specs.Prelude.{ℕ, ◌≡◌, ◌≤◌, ◌<◌, ◌+◌, true, false, Contains, length, map, take, option_copied, IfOk, OnOk, if◌then◌else◌};
ghost use Rattle.std.specs.List.{list_any, range_with_len};
ghost use Rattle.fx_base.specs.Names.{numbers};
ghost use Rattle.fx_graph_model.specs.Eager.{eager};
ghost use Rattle.fx_graph_model.specs.Unread.{marked, evaluations_of};
ghost use Rattle.fx_graph_model.specs.Changes.{after_read_all, IsSomeRead};
ghost use Rattle.fx_graph_refusals.specs.Known.{known_value};
ghost use Rattle.fx_graph.specs.Reading.{ArePartRead};
ghost use Rattle.fx_graph.specs.Store.{Holds, shown};

use crate::lists::Lists;
use crate::reading::{settle, value_of};
use fx_base::{Ledgers, Name, Value, Work};
use fx_graph_refusals::asking::{is_marked, is_unknown};
use std::alloc::{AllocError, Global};

/// The value that is kept of a known name, unless it is unread.
pub fn kept_of(lists: &Lists, name: Name) -> Option<&Value>
    requires { Holds lists.now }
    ensures { option_copied result ≡ known_value lists.now.entries.items lists.now.unread.items name.0 }
{
    if is_unknown(lists.entries.as_slice(), name) {
        return None;
    }
    if is_marked(lists.unread.as_slice(), name) {
        return None;
    }
    Some(&lists.cache[name.0 as usize])
}

/// Reads known names, and gives their values.
pub fn read_each<L: Ledgers>(
    alloc: Global,
    lists: &mut Lists,
    names: &[Name],
    work: &mut Work<L>,
) -> Result<Vec<Value>, AllocError>
    requires holds { Holds lists.old }
    requires known { (name : ℕ) → Contains (numbers names.now) name → name < length lists.old.entries.items }
    ensures holds { Holds lists.new }
    ensures part { IsSomeRead (shown lists.old) (shown lists.new) }
    ensures unread { ArePartRead lists.old.entries.items (numbers names.now) lists.old.unread.items
        lists.new.unread.items }
    ensures again { ((name : ℕ) → Contains (numbers names.now) name → marked lists.old.unread.items name ≡ false)
        → shown lists.new ≡ shown lists.old }
    ensures values { IfOk result (λ values. values.items
        ≡ map (eager lists.old.entries.items) (numbers names.now)) }
    ensures ok { OnOk result (shown lists.new ≡ after_read_all (numbers names.now) (shown lists.old)) }
    ensures cost { work.new.evaluated ≤ work.old.evaluated
        + evaluations_of lists.old.entries.items (numbers names.now) lists.old.unread.items }
    ensures others { work.new ≡ record work.old { evaluated = work.new.evaluated } }
{
    let mut values = Vec::with_capacity(alloc, names.len())?;
    for name in names {
        let value = value_of(alloc, lists, name.0 as usize, work)?;
        values.push(value)?;
    }
    Ok(values)
}

/// Reads known names. Their values are kept, and can be lent.
pub fn settle_each<L: Ledgers>(
    alloc: Global,
    lists: &mut Lists,
    names: &[Name],
    work: &mut Work<L>,
) -> Result<(), AllocError>
    requires holds { Holds lists.old }
    requires known { (name : ℕ) → Contains (numbers names.now) name → name < length lists.old.entries.items }
    ensures holds { Holds lists.new }
    ensures part { IsSomeRead (shown lists.old) (shown lists.new) }
    ensures unread { ArePartRead lists.old.entries.items (numbers names.now) lists.old.unread.items
        lists.new.unread.items }
    ensures ok { OnOk result (shown lists.new ≡ after_read_all (numbers names.now) (shown lists.old)) }
    ensures cost { work.new.evaluated ≤ work.old.evaluated
        + evaluations_of lists.old.entries.items (numbers names.now) lists.old.unread.items }
    ensures others { work.new ≡ record work.old { evaluated = work.new.evaluated } }
{
    for name in names {
        settle(alloc, lists, name.0 as usize, work)?;
    }
    Ok(())
}

/// Reads known names, of which some are unread, and gives their values. The flags stay as they were; the spare ones
/// keep them meanwhile.
fn look_at_unread<L: Ledgers>(
    alloc: Global,
    lists: &mut Lists,
    names: &[Name],
    work: &mut Work<L>,
) -> Result<Vec<Value>, AllocError>
    requires holds { Holds lists.old }
    requires known { (name : ℕ) → Contains (numbers names.now) name → name < length lists.old.entries.items }
    ensures holds { Holds lists.new }
    ensures same { shown lists.new ≡ shown lists.old }
    ensures values { IfOk result (λ values. values.items
        ≡ map (eager lists.old.entries.items) (numbers names.now)) }
    ensures cost { work.new.evaluated ≤ work.old.evaluated
        + evaluations_of lists.old.entries.items (numbers names.now) lists.old.unread.items }
    ensures others { work.new ≡ record work.old { evaluated = work.new.evaluated } }
{
    let mut before = Vec::new(alloc);
    before.extend_from_slice(lists.unread.as_slice())?;
    let values = read_each(alloc, lists, names, work);
    lists
        .unread
        .as_mut_slice()
        .copy_from_slice(before.as_slice());
    values
}

/// The values of known names. The flags stay as they were.
pub fn look_at_each<L: Ledgers>(
    alloc: Global,
    lists: &mut Lists,
    names: &[Name],
    work: &mut Work<L>,
) -> Result<Vec<Value>, AllocError>
    requires holds { Holds lists.old }
    requires known { (name : ℕ) → Contains (numbers names.now) name → name < length lists.old.entries.items }
    ensures holds { Holds lists.new }
    ensures same { shown lists.new ≡ shown lists.old }
    ensures values { IfOk result (λ values. values.items
        ≡ map (eager lists.old.entries.items) (numbers names.now)) }
    ensures cost { work.new.evaluated ≤ work.old.evaluated
        + evaluations_of lists.old.entries.items (numbers names.now) lists.old.unread.items }
    ensures others { work.new ≡ record work.old { evaluated = work.new.evaluated } }
{
    if is_any_unread(names, lists.unread.as_slice()) {
        return look_at_unread(alloc, lists, names, work);
    }
    read_each(alloc, lists, names, work)
}

fn is_any_unread(names: &[Name], unread: &[bool]) -> bool
    ensures { result ≡ false → (name : ℕ) → Contains (numbers names.now) name → marked unread.now name ≡ false }
{
    for name in names {
        if is_marked(unread, *name) {
            return true;
        }
    }
    false
}

/// Whether one of the flags is set. Four are looked at in a turn: most lists are short, and the compiler takes longer
/// to get ready for many at a time than to look at these.
fn is_one_of(flags: &[bool]) -> bool
    ensures { result ≡ list_any (λ flag. flag) flags.now }
{
    let mut any = false;
    let mut rest = flags;
    while rest.len() >= 4 {
        any |= rest[0] | rest[1] | rest[2] | rest[3];
        let (_, more) = rest.split_at(4);
        rest = more;
    }
    for flag in rest {
        any |= *flag;
    }
    any
}

/// Whether one of the first so many flags is set.
fn is_one_set(flags: &[bool], count: usize) -> bool
    ensures { result ≡ list_any (λ flag. flag) (take count flags.now) }
{
    if count >= flags.len() {
        return is_one_of(flags);
    }
    let (asked, _) = flags.split_at(count);
    is_one_of(asked)
}

/// Whether any of so many names from this one on is unread.
pub fn is_one_unread(unread: &[bool], first: Name, count: usize) -> bool
    ensures { result ≡ list_any (marked unread.now) (range_with_len first.0 count) }
{
    let from = first.0 as usize;
    if from >= unread.len() {
        return false;
    }
    let (_, rest) = unread.split_at(from);
    is_one_set(rest, count)
}
