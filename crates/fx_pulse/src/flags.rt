//! What holds of a node by its ancestors: it shows, and it is disabled.
ghost use Rattle.std.specs.Prelude.{◌≡◌, ◌<◌, ◌&&◌, ◌||◌, ℕ, true, false, IfOk, IsTrue, length, replicate, slice_index_or};
ghost use Rattle.fx_layout_sweeps.specs.Nodes.{IsTree, look_at, node_at, parents};
ghost use Rattle.fx_pulse_model.specs.Pictures.{is_disabled, shows};
ghost use Rattle.fx_pulse.specs.Drawing.{drawn};
ghost use Rattle.fx_pulse_touched.specs.Marks.{told, told_above};

use crate::entries::Laid;
use fx_kinds::BoxFacts;
use fx_look::Look;
use fx_pulse_touched::marked_below;
use std::alloc::{AllocError, Global};

/// Whether each node shows.
pub(crate) fn shown_flags(alloc: Global, laid: Laid<'_>) -> Result<Vec<bool>, AllocError>
    requires { IsTree (parents laid.boxes.now) }
    ensures { IfOk result (λ flags. flags.items ≡ told (shows (drawn laid.entry)) (length laid.entry.boxes.now)) }
{
    if are_visible(laid.looks) {
        let flags = all_set(alloc, laid.boxes.len())?;
        return Ok(flags);
    }
    flags_below(alloc, laid)
}

/// Is each look visible?
fn are_visible(looks: &[Look]) -> bool
    ensures { IsTrue result → (k : ℕ) → k < length looks.now → (look_at looks.now k).visibility ≡ true }
{
    for place in 0..looks.len() {
        if !is_visible(looks, place) {
            return false;
        }
    }
    true
}

fn all_set(alloc: Global, count: usize) -> Result<Vec<bool>, AllocError>
    ensures { IfOk result (λ flags. flags.items ≡ replicate count true) }
{
    vec![in alloc; true; count]
}

fn flags_below(alloc: Global, laid: Laid<'_>) -> Result<Vec<bool>, AllocError>
    requires { IsTree (parents laid.boxes.now) }
    ensures { IfOk result (λ flags. flags.items ≡ told (shows (drawn laid.entry)) (length laid.entry.boxes.now)) }
{
    let mut flags = Vec::with_capacity(alloc, laid.boxes.len())?;
    for place in 0..laid.boxes.len() {
        flags.push(shows(flags.as_slice(), laid, place))?;
    }
    Ok(flags)
}

/// Whether each node is disabled.
pub(crate) fn disabled_flags(alloc: Global, laid: Laid<'_>) -> Result<Vec<bool>, AllocError>
    requires { IsTree (parents laid.boxes.now) }
    ensures { IfOk result (λ flags. flags.items
        ≡ told (is_disabled (drawn laid.entry)) (length laid.entry.boxes.now)) }
{
    marked_below(alloc, laid.boxes, laid.disabled)
}

fn shows(flags: &[bool], laid: Laid<'_>, place: usize) -> bool
    ensures { result ≡ (told_above flags.now (node_at laid.entry.boxes.now place).parent true
        && (look_at laid.entry.looks.now place).visibility) }
{
    flag_above(flags, laid.boxes, place, true) && is_visible(laid.looks, place)
}

/// What is told of the parent of a node, and for the root what is given.
fn flag_above(flags: &[bool], boxes: &[BoxFacts], place: usize, root: bool) -> bool
    ensures { result ≡ told_above flags.now (node_at boxes.now place).parent root }
{
    match parent_at(boxes, place) {
        None => root,
        Some(parent) => flag_at(flags, parent),
    }
}

pub(crate) fn parent_at(boxes: &[BoxFacts], place: usize) -> Option<usize>
    ensures { result ≡ (node_at boxes.now place).parent }
{
    match boxes.get(place) {
        Some(node) => node.parent,
        None => None,
    }
}

pub(crate) fn flag_at(flags: &[bool], place: usize) -> bool
    ensures { result ≡ slice_index_or flags.now place false }
{
    match flags.get(place) {
        Some(flag) => *flag,
        None => false,
    }
}

/// Whether a node is visible by its own look; a node without one is.
fn is_visible(looks: &[Look], place: usize) -> bool
    ensures { result ≡ (look_at looks.now place).visibility }
{
    match looks.get(place) {
        Some(look) => look.visibility,
        None => true,
    }
}
