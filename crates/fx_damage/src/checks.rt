//! Tests of what the damage asks of pictures and of edits.
ghost use Rattle.std.specs.Prelude.{◌≡◌, ◌<◌, ◌↔◌, All, IfOk, IsTrue, eqb, length, slice_index};
ghost use Rattle.std.specs.List.{IsDistinct};
ghost use Rattle.std.specs.List.Sorted.{IsStrictlyIncreasing};
ghost use Rattle.fx_damage.specs.Births.{birth_numbers};
ghost use Rattle.fx_damage.specs.Edits.{AreEdits, edited, places_of};
ghost use Rattle.fx_picture.specs.Entries.{HasDistinctBirths};

use crate::edits::Edit;
use fx_picture::{Entry, Picture};
use std::alloc::{AllocError, Global};

/// Whether no two entries have one birth number.
pub fn has_distinct_births(alloc: Global, picture: &Picture) -> Result<bool, AllocError>
    ensures { IfOk result (λ distinct. IsTrue distinct ↔ HasDistinctBirths picture.now.entries) }
{
    let births = births(alloc, picture.entries.as_slice())?;
    Ok(are_distinct(births))
}

/// Whether no two entries have one birth number after the edits.
pub fn keep_births_distinct(
    alloc: Global,
    old: &Picture,
    edits: &[Edit],
) -> Result<bool, AllocError>
    ensures { IfOk result (λ distinct. IsTrue distinct ↔ HasDistinctBirths (edited edits.now old.now.entries)) }
{
    let births = births_after(alloc, old.entries.as_slice(), edits)?;
    Ok(are_distinct(births))
}

/// Whether the places of the edits rise, and are places of entries.
pub fn are_edits(old: &Picture, edits: &[Edit]) -> bool
    ensures { IsTrue result ↔ AreEdits edits.now (length old.now.entries) }
{
    do_rise(edits) && are_below(edits, old.entries.as_slice().len())
}

fn births(alloc: Global, entries: &[Entry]) -> Result<Vec<u32>, AllocError>
    ensures { IfOk result (λ births. births.items ≡ birth_numbers entries.now) }
{
    let mut births = Vec::with_capacity(alloc, entries.len())?;
    for entry in entries {
        births.push(entry.key.birth)?;
    }
    Ok(births)
}

fn births_after(alloc: Global, olds: &[Entry], edits: &[Edit]) -> Result<Vec<u32>, AllocError>
    ensures { IfOk result (λ births. births.items ≡ birth_numbers (edited edits.now olds.now)) }
{
    let mut births = births(alloc, olds)?;
    for edit in edits {
        if edit.place < births.len() {
            births[edit.place] = edit.entry.key.birth;
        }
    }
    Ok(births)
}

fn are_distinct(numbers: Vec<u32>) -> bool
    ensures { IsTrue result ↔ IsDistinct eqb numbers.items }
{
    let mut sorted = numbers;
    sorted.sort_unstable();
    is_increasing(sorted.as_slice())
}

fn is_increasing(numbers: &[u32]) -> bool
    ensures { IsTrue result ↔ IsStrictlyIncreasing numbers.now }
{
    for place in 1..numbers.len() {
        if numbers[place] <= numbers[place - 1] {
            return false;
        }
    }
    true
}

#[tactic(auto, using(crate::proofs::CheckLemmas::places_long))]
fn do_rise(edits: &[Edit]) -> bool
    ensures { IsTrue result ↔ IsStrictlyIncreasing (places_of edits.now) }
{
    for at in 1..edits.len() {
        if place_at(edits, at) <= place_at(edits, at - 1) {
            return false;
        }
    }
    true
}

fn place_at(edits: &[Edit], at: usize) -> usize
    requires { at < length edits.now }
    ensures { result ≡ slice_index (places_of edits.now) at }
{
    edits[at].place
}

fn are_below(edits: &[Edit], count: usize) -> bool
    ensures { IsTrue result ↔ All (λ e. e.place < count) edits.now }
{
    edits.iter().all(|edit| edit.place < count)
}
