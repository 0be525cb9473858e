//! The entries of nodes that may have changed: those that don't have one place in both pictures, or don't stay there.
ghost use Rattle.std.specs.Prelude.{◌≡◌, ◌≤◌, ◌++◌, ◌∷◌, [], ◌↔◌, IsTrue, OnOk, Some, drop, false, length, nat_eq};
ghost use Rattle.std.specs.Cmp.Lexicographic.{pointwise};
ghost use Rattle.fx_damage.specs.Changes.{begins_kept, changed_nows, changed_olds, if_changed, is_kept, lent};
ghost use Rattle.fx_damage.specs.Damage.{stays};

use fx_base::{List, Same};
use fx_picture::Entry;
use std::alloc::AllocError;

/// Adds the old entries and the new ones that may have changed.
pub(crate) fn add_changed<'a>(
    olds: &mut Vec<&'a Entry>,
    nows: &mut Vec<&'a Entry>,
    before: &'a [Entry],
    after: &'a [Entry],
) -> Result<(), AllocError>
    ensures olds { OnOk result (lent olds.new.items ≡ lent olds.old.items ++ changed_olds before.now after.now) }
    ensures nows { OnOk result (lent nows.new.items ≡ lent nows.old.items ++ changed_nows before.now after.now) }
{
    let both = before.len().min(after.len());
    let mut place = next_changed(before, after, 0);
    while place < both {
        add_pair(olds, nows, &before[place], &after[place])?;
        place = next_changed(before, after, place + 1);
    }
    add_all(olds, &before[both..])?;
    add_all(nows, &after[both..])?;
    Ok(())
}

/// The first place from here on at which the pictures don't have one node that stays, or the end of one of them.
fn next_changed(before: &[Entry], after: &[Entry], from: usize) -> usize
    requires before { from ≤ length before.now }
    requires after { from ≤ length after.now }
    ensures least { from ≤ result }
    ensures before { result ≤ length before.now }
    ensures after { result ≤ length after.now }
    ensures olds { changed_olds (drop result before.now) (drop result after.now)
        ≡ changed_olds (drop from before.now) (drop from after.now) }
    ensures nows { changed_nows (drop result before.now) (drop result after.now)
        ≡ changed_nows (drop from before.now) (drop from after.now) }
    ensures changed { begins_kept (drop result before.now) (drop result after.now) ≡ false }
{
    let both = before.len().min(after.len());
    for place in from..both {
        if !is_kept(&before[place], &after[place]) {
            return place;
        }
    }
    both
}

/// Adds what stands at one place in both pictures, unless it is one node that stays.
pub(crate) fn add_if_changed<'a>(
    olds: &mut Vec<&'a Entry>,
    nows: &mut Vec<&'a Entry>,
    old: &'a Entry,
    now: &'a Entry,
) -> Result<(), AllocError>
    ensures olds { OnOk result (lent olds.new.items ≡ lent olds.old.items ++ if_changed old.now now.now old.now) }
    ensures nows { OnOk result (lent nows.new.items ≡ lent nows.old.items ++ if_changed old.now now.now now.now) }
{
    if is_kept(old, now) {
        return Ok(());
    }
    add_pair(olds, nows, old, now)
}

/// Adds an old entry and a new one.
fn add_pair<'a>(
    olds: &mut Vec<&'a Entry>,
    nows: &mut Vec<&'a Entry>,
    old: &'a Entry,
    now: &'a Entry,
) -> Result<(), AllocError>
    ensures olds { OnOk result (lent olds.new.items ≡ lent olds.old.items ++ old.now ∷ []) }
    ensures nows { OnOk result (lent nows.new.items ≡ lent nows.old.items ++ now.now ∷ []) }
{
    olds.push(old)?;
    nows.push(now)?;
    Ok(())
}

fn add_all<'a>(all: &mut Vec<&'a Entry>, entries: &'a [Entry]) -> Result<(), AllocError>
    ensures { OnOk result (lent all.new.items ≡ lent all.old.items ++ entries.now) }
{
    for entry in entries {
        all.push(entry)?;
    }
    Ok(())
}

#[inline(always)]
fn is_kept(old: &Entry, now: &Entry) -> bool
    ensures { result ≡ is_kept old.now now.now }
{
    old.key.birth == now.key.birth && stays(old, now)
}

/// Whether a node that shows in both pictures has the same path and the same shapes.
#[inline(always)]
pub(crate) fn stays(old: &Entry, now: &Entry) -> bool
    ensures { result ≡ stays (Some old.now) (Some now.now) }
{
    has_path(old, now) && same_lists(&old.shapes, &now.shapes)
}

#[inline(always)]
fn has_path(old: &Entry, now: &Entry) -> bool
    ensures { result ≡ pointwise nat_eq old.now.path now.now.path }
{
    same_lists(&old.path, &now.path)
}

/// Whether two lists have the same items, as `List::is_same` tells, but without a call.
#[inline(always)]
fn same_lists<T: Same>(list: &List<T>, other: &List<T>) -> bool
    ensures { IsTrue result ↔ (list.now ≡ other.now) }
{
    all_same(list.as_slice(), other.as_slice())
}

/// Whether the items are the same, one by one, and as many.
#[inline(always)]
fn all_same<T: Same>(items: &[T], others: &[T]) -> bool
    ensures { IsTrue result ↔ (items.now ≡ others.now) }
{
    items.len() == others.len() && pairs_are_same(items, others)
}

/// Whether the items that stand at one place are the same.
#[inline(always)]
fn pairs_are_same<T: Same>(items: &[T], others: &[T]) -> bool
    requires { length items.now ≡ length others.now }
    ensures { IsTrue result ↔ (items.now ≡ others.now) }
{
    for at in 0..items.len() {
        if !items[at].is_same(&others[at]) {
            return false;
        }
    }
    true
}
