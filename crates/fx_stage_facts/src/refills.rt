//! Lists that are filled anew, item by item, in the memory of older ones.
//! Below the lists of facts, which are much the same from frame to frame.
ghost use Rattle.std.specs.Prelude.{◌≡◌, ◌++◌, ◌∷◌, [], IfOk, IsTrue, OnErr, OnOk, Some, length, slice_get};

use fx_base::{Duplicate, List, Same};
use std::alloc::{AllocError, Global};
use std::marker::Model;
use std::mem::replace;

/// A list that grows over an older one. Contracts see the new items, of which there are so many; the old ones behind
/// them don't matter.
#[derive(Drop)]
pub struct Refill<T> {
    pub(crate) items: Vec<T>,
    pub(crate) count: usize,
}

impl<T> Model for Refill<T> {
    ghost use Rattle.std.specs.Prelude.{List as Items, ◌≤◌, length, take};

    ghost Value = { Items T };

    ghost view = { λ r. take r.count r.items.items };

    ghost invariant = { λ r. r.count ≤ length r.items.items };
}

impl<T> Refill<T> {
    /// No new item yet, over these old ones.
    #[inline]
    pub(crate) fn over(old: List<T>) -> Refill<T>
        ensures { result ≡ [] }
    {
        Refill {
            items: old.into_vec(),
            count: 0,
        }
    }

    /// No new item yet, over these old ones, and room for so many.
    pub(crate) fn with_room(old: List<T>, count: usize) -> Result<Refill<T>, AllocError>
    where
        T: Drop,
        ensures { IfOk result (λ refill. refill ≡ []) }
    {
        let mut items = old.into_vec();
        let more = count.saturating_sub(items.len());
        items.reserve(more)?;
        Ok(Refill { items, count: 0 })
    }

    /// How many new items there are.
    #[inline]
    pub(crate) fn len(&self) -> usize
        ensures { result ≡ length self.now }
    {
        self.count
    }
}

impl<T: Drop> Refill<T> {
    /// Puts an item behind the new ones.
    #[inline]
    pub(crate) fn push(&mut self, item: T) -> Result<(), AllocError>
        ensures { OnOk result (self.new ≡ self.old ++ item ∷ []) }
    {
        if self.count < self.items.len() {
            self.items[self.count] = item;
        } else {
            push_item(&mut self.items, item)?;
        }
        self.count += 1;
        Ok(())
    }

    /// The new items.
    #[inline]
    pub(crate) fn finish(self) -> List<T>
        ensures { result ≡ self }
    {
        let Refill { mut items, count } = self;
        items.truncate(count);
        List::from_vec(items)
    }
}

/// Puts an item behind the others. The first one gets room for itself alone, since of what nodes have lists mostly hold
/// one.
fn push_item<T: Drop>(items: &mut Vec<T>, item: T) -> Result<(), AllocError>
    ensures ok { OnOk result (items.new.items ≡ items.old.items ++ item ∷ []) }
    ensures err { OnErr result (items.new.items ≡ items.old.items) }
{
    if items.is_empty() {
        items.reserve_exact(1)?;
    }
    items.push(item)?;
    Ok(())
}

impl<T: Duplicate + Same> Refill<T> {
    /// Puts a copy of the item behind the new ones, unless the old one that stands there is the same.
    #[tactic(auto, using(crate::proofs::RefillLemmas::one_more))]
    pub(crate) fn push_copy(&mut self, alloc: Global, item: &T) -> Result<(), AllocError>
        ensures { OnOk result (self.new ≡ self.old ++ item.now ∷ []) }
    {
        if stands_at(self.items.as_slice(), self.count, item) {
            self.count += 1;
            return Ok(());
        }
        self.push(item.duplicate(alloc)?)
    }
}

fn stands_at<T: Same>(items: &[T], place: usize, item: &T) -> bool
    ensures { IsTrue result → slice_get items.now place ≡ Some item.now }
{
    match items.get(place) {
        None => false,
        Some(other) => other.is_same(item),
    }
}

/// Is there nothing here and nothing there?
#[tactic(auto, using(crate::proofs::RefillLemmas::both_empty))]
#[inline]
pub(crate) fn are_empty<T>(items: &[T], others: &[T]) -> bool
    ensures { IsTrue result → items.now ≡ others.now }
{
    items.is_empty() && others.is_empty()
}

/// Puts copies of the items behind the new ones.
pub(crate) fn push_all<T: Duplicate + Same>(
    alloc: Global,
    refill: &mut Refill<T>,
    items: &[T],
) -> Result<(), AllocError>
    ensures { OnOk result (refill.new ≡ refill.old ++ items.now) }
{
    for item in items {
        refill.push_copy(alloc, item)?;
    }
    Ok(())
}

/// Makes the list the same as the other one. What is the same already is kept.
pub(crate) fn refill_list<T: Duplicate + Same>(
    alloc: Global,
    kept: &mut List<T>,
    next: &List<T>,
) -> Result<(), AllocError>
    ensures { OnOk result (kept.new ≡ next.now) }
{
    if kept.is_same(next) {
        return Ok(());
    }
    let mut items = Refill::over(replace(kept, List::new(alloc)));
    push_all(alloc, &mut items, next.as_slice())?;
    *kept = items.finish();
    Ok(())
}
