//! Lengths that bindings give, written into the looks that are kept, where they stand.
ghost use Rattle.std.specs.Prelude.{◌≡◌, ◌<◌, ◌+◌, ◌++◌, ◌∷◌, ◌⊎◌, [], ℕ, false, IfOk, OnOk, length, slice_get, slice_index_or};
ghost use Rattle.fx_style.specs.Changes.{NamesChanges};
ghost use Rattle.fx_style.specs.Kept.{is_among};
ghost use Rattle.fx_style.specs.Rewriting.{rewritten_at};
ghost use Rattle.fx_style.specs.Rules.{worked};

use crate::kept::Fresh;
use crate::putting::changed_places;
use fx_base::{Ledgers, Work};
use fx_kinds::StyleFacts;
use fx_look::Look;
use fx_node_style::{has_bound, write_bound};
use std::alloc::{AllocError, Global};

/// The marked places at which other lengths than the given ones stand.
pub(crate) fn places_of_others(
    alloc: Global,
    looks: &[Look],
    facts: &[StyleFacts],
    marks: &[bool],
) -> Result<Vec<usize>, AllocError>
    requires looks { length looks.now ≡ length facts.now }
    requires marks { length marks.now ≡ length facts.now }
    ensures { IfOk result (λ places. (at : ℕ) → is_among places.items at ≡ false
        → rewritten_at marks.now facts.now looks.now at ≡ slice_get looks.now at) }
{
    let mut places = Vec::new(alloc);
    for at in 0..facts.len() {
        note_other(&mut places, looks, facts, marks, at)?;
    }
    Ok(places)
}

/// The marked places at which other lengths than the given ones stand, and those whose looks are others once the fresh
/// entries stand there.
pub(crate) fn places_of_all(
    alloc: Global,
    looks: &[Look],
    facts: &[StyleFacts],
    marks: &[bool],
    fresh: &[Fresh],
) -> Result<Vec<usize>, AllocError>
    requires looks { length looks.now ≡ length facts.now }
    requires marks { length marks.now ≡ length facts.now }
    ensures lengths { IfOk result (λ places. (at : ℕ) → is_among places.items at ≡ false
        → rewritten_at marks.now facts.now looks.now at ≡ slice_get looks.now at) }
    ensures named { IfOk result (λ places. NamesChanges looks.now fresh.now places.items) }
{
    let mut places = places_of_others(alloc, looks, facts, marks)?;
    let others = changed_places(alloc, looks, fresh)?;
    places.extend_from_slice(others.as_slice())?;
    Ok(places)
}

/// Puts the place behind the others, if it is marked and other lengths than the given ones stand there.
fn note_other(
    places: &mut Vec<usize>,
    looks: &[Look],
    facts: &[StyleFacts],
    marks: &[bool],
    at: usize,
) -> Result<(), AllocError>
    requires looks { length looks.now ≡ length facts.now }
    requires marks { length marks.now ≡ length facts.now }
    requires there { at < length facts.now }
    ensures { OnOk result ((places.new.items ≡ places.old.items ++ at ∷ [])
        ⊎ ((places.new.items ≡ places.old.items)
        × (rewritten_at marks.now facts.now looks.now at ≡ slice_get looks.now at))) }
{
    if !marks[at] || has_bound(&looks[at], facts[at].codes.as_slice()) {
        return Ok(());
    }
    places.push(at)?;
    Ok(())
}

/// Writes the lengths that bindings give into the looks of the marked places, and counts one styled node for each.
pub(crate) fn rewrite<L: Ledgers>(
    looks: &mut Vec<Look>,
    facts: &[StyleFacts],
    marks: &[bool],
    work: &mut Work<L>,
)
    requires looks { length looks.old.items ≡ length facts.now }
    requires marks { length marks.now ≡ length facts.now }
    ensures long { length looks.new.items ≡ length looks.old.items }
    ensures each { (at : ℕ) → slice_get looks.new.items at ≡ rewritten_at marks.now facts.now looks.old.items at }
    ensures cost { work.new ≡ record work.old {
      styled = work.old.styled + worked (λ at. slice_index_or marks.now at false) (length facts.now);
    } }
{
    for at in 0..facts.len() {
        if marks[at] {
            write_bound(&mut looks[at], facts[at].codes.as_slice());
            work.styled.tick();
        }
    }
}
