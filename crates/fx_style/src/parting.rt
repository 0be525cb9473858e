//! The nodes of an update apart: those that keep their styles, those that get lengths where they stand, and those that
//! are styled anew.
ghost use Rattle.std.specs.Prelude.{◌≡◌, ◌↔◌, ◌<◌, ℕ, true, false, IfOk, IfSome, IsTrue, OnOk, length, slice_set};
ghost use Rattle.std.specs.Option.{option_copied};
ghost use Rattle.fx_select.specs.Chains.{ParentsStandBefore};
ghost use Rattle.fx_style.specs.Kept.{HaveDifferentKeys, is_among};
ghost use Rattle.fx_style.specs.Parting.{AreParts, IsPart, is_under, with_place};
ghost use Rattle.fx_style.specs.Places.{parent_at};

use crate::above::parent_at;
use crate::kept::{Rest, stands_at};
use crate::making::{Scene, node_at};
use crate::recoding::{is_calm, is_recoded};
use fx_kinds::StyleFacts;
use std::alloc::{AllocError, Global};

/// A mark for each node, does it get lengths where it stands, and the places of those that are styled anew.
#[derive(Drop)]
pub(crate) struct Parts {
    pub there: Vec<bool>,
    pub left: Vec<usize>,
}

/// The nodes apart, if each that isn't marked has its key where it stands, and none that gets lengths stands above one
/// that is styled anew.
pub(crate) fn parts_of(
    alloc: Global,
    scene: Scene<'_>,
    rest: &[Rest],
    marks: &[bool],
) -> Result<Option<Parts>, AllocError>
    requires before { ParentsStandBefore scene.facts.now }
    requires keys { HaveDifferentKeys rest.now }
    requires long { length marks.now ≡ length scene.facts.now }
    ensures { IfOk result (λ found. IfSome found (λ parts. AreParts (option_copied scene.entry.last)
        scene.entry.facts.now rest.now marks.now parts.there.items parts.left.items)) }
{
    if scene.last.is_none() {
        return Ok(None);
    }
    let mut there = vec![in alloc; false; scene.facts.len()]?;
    let mut left = Vec::new(alloc);
    for at in 0..scene.facts.len() {
        let Some(part) = part_of(scene, rest, marks, at) else {
            return Ok(None);
        };
        note_part(&mut there, &mut left, part, at)?;
    }
    if !are_clear(scene.facts, there.as_slice(), left.as_slice()) {
        return Ok(None);
    }
    Ok(Some(Parts { there, left }))
}

/// Does a node get lengths where it stands, or is it styled anew?
#[derive(Clone, Copy)]
struct Part {
    there: bool,
    left: bool,
}

/// What becomes of the node of a place, unless its key is to be looked for.
fn part_of(scene: Scene<'_>, rest: &[Rest], marks: &[bool], at: usize) -> Option<Part>
    requires before { ParentsStandBefore scene.facts.now }
    requires keys { HaveDifferentKeys rest.now }
    requires long { length marks.now ≡ length scene.facts.now }
    requires there { at < length scene.facts.now }
    ensures { IfSome result (λ part. IsPart (option_copied scene.entry.last) scene.entry.facts.now rest.now marks.now
        part.there part.left at) }
{
    let node = node_at(scene.facts, at);
    let stands = stands_at(rest, node.key, at);
    if !marks[at] {
        return kept_part(stands);
    }
    if stands && is_calm(marks, node.parent) && is_recoded(scene.last, scene.facts, at) {
        return Some(Part {
            there: true,
            left: false,
        });
    }
    Some(Part {
        there: false,
        left: true,
    })
}

/// A node that keeps its style where it stands.
fn kept_part(stands: bool) -> Option<Part>
    ensures { IfSome result (λ part. (stands ≡ true) × (part.there ≡ false) × (part.left ≡ false)) }
{
    if !stands {
        return None;
    }
    Some(Part {
        there: false,
        left: false,
    })
}

/// Notes what becomes of the node of a place.
fn note_part(
    there: &mut Vec<bool>,
    left: &mut Vec<usize>,
    part: Part,
    at: usize,
) -> Result<(), AllocError>
    requires { at < length there.old.items }
    ensures there { OnOk result (there.new.items ≡ slice_set there.old.items at part.there) }
    ensures left { OnOk result (left.new.items ≡ with_place left.old.items part.left at) }
{
    there[at] = part.there;
    if !part.left {
        return Ok(());
    }
    left.push(at)?;
    Ok(())
}

/// Is no ancestor of these nodes marked?
fn are_clear(facts: &[StyleFacts], there: &[bool], left: &[usize]) -> bool
    requires before { ParentsStandBefore facts.now }
    requires long { length there.now ≡ length facts.now }
    ensures { IsTrue result ↔ ((at : ℕ) → is_among left.now at ≡ true
        → is_under there.now facts.now (parent_at facts.now at) ≡ false) }
{
    for place in left {
        if !is_clear(facts, there, *place) {
            return false;
        }
    }
    true
}

/// Is no ancestor of a node marked?
fn is_clear(facts: &[StyleFacts], there: &[bool], at: usize) -> bool
    requires before { ParentsStandBefore facts.now }
    requires long { length there.now ≡ length facts.now }
    ensures { IsTrue result ↔ (is_under there.now facts.now (parent_at facts.now at) ≡ false) }
{
    let mut place = parent_at(facts, at);
    while let Some(up) = place {
        if there[up] {
            return false;
        }
        place = parent_at(facts, up);
    }
    true
}
