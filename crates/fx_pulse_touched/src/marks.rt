//! Marks of the nodes of a tree, handed down to those below, or up to those above.
ghost use Rattle.std.specs.Prelude.{◌≡◌, ◌≤◌, ◌<◌, ◌||◌, ◌&&◌, ◌==◌, ℕ, true, false, IfOk, length, replicate, slice_set, Some, None};
ghost use Rattle.std.specs.List.{list_any};
ghost use Rattle.fx_layout_sweeps.specs.Marks.{flag_in};
ghost use Rattle.fx_layout_sweeps.specs.Nodes.{IsTree, node_at, parent_at as up_at, parents};
ghost use Rattle.fx_pulse_touched.specs.Marks.{IsClosed, is_above, is_below, marked_up, places_of, told, told_above};
ghost use Rattle.fx_style.specs.Kept.{is_among};

use fx_kinds::BoxFacts;
use std::alloc::{AllocError, Global};

/// Is a mark set? All are looked at, since the compiler then takes many at a time.
pub fn is_any(marks: &[bool]) -> bool
    ensures { result ≡ list_any (λ mark. mark) marks.now }
{
    let mut any = false;
    for mark in marks {
        any |= *mark;
    }
    any
}

/// Marks each node that has a mark here, or an ancestor that has one.
pub fn marked_below(
    alloc: Global,
    boxes: &[BoxFacts],
    marks: &[bool],
) -> Result<Vec<bool>, AllocError>
    requires { IsTree (parents boxes.now) }
    ensures { IfOk result (λ below. below.items ≡ told (is_below (parents boxes.now) marks.now) (length boxes.now)) }
{
    if !is_any(marks) {
        let below = unmarked(alloc, boxes.len())?;
        return Ok(below);
    }
    handed_down(alloc, boxes, marks)
}

fn unmarked(alloc: Global, count: usize) -> Result<Vec<bool>, AllocError>
    ensures { IfOk result (λ marks. marks.items ≡ replicate count false) }
{
    vec![in alloc; false; count]
}

fn handed_down(alloc: Global, boxes: &[BoxFacts], marks: &[bool]) -> Result<Vec<bool>, AllocError>
    requires { IsTree (parents boxes.now) }
    ensures { IfOk result (λ below. below.items ≡ told (is_below (parents boxes.now) marks.now) (length boxes.now)) }
{
    let mut below = Vec::with_capacity(alloc, boxes.len())?;
    for place in 0..boxes.len() {
        below.push(is_below(below.as_slice(), boxes, marks, place))?;
    }
    Ok(below)
}

fn is_below(below: &[bool], boxes: &[BoxFacts], marks: &[bool], place: usize) -> bool
    ensures { result ≡ (told_above below.now (node_at boxes.now place).parent false || flag_in marks.now place) }
{
    if flag_at(marks, place) {
        return true;
    }
    is_marked_above(below, boxes, place)
}

fn is_marked_above(below: &[bool], boxes: &[BoxFacts], place: usize) -> bool
    ensures { result ≡ told_above below.now (node_at boxes.now place).parent false }
{
    match parent_at(boxes, place) {
        None => false,
        Some(parent) => flag_at(below, parent),
    }
}

fn parent_at(boxes: &[BoxFacts], place: usize) -> Option<usize>
    ensures { result ≡ (node_at boxes.now place).parent }
{
    match boxes.get(place) {
        Some(node) => node.parent,
        None => None,
    }
}

fn flag_at(flags: &[bool], place: usize) -> bool
    ensures { result ≡ flag_in flags.now place }
{
    match flags.get(place) {
        Some(flag) => *flag,
        None => false,
    }
}

/// Marks the ancestors of each marked node too.
pub fn marked_above(boxes: &[BoxFacts], marks: Vec<bool>) -> Vec<bool>
    requires tree { IsTree (parents boxes.now) }
    requires each { length marks.items ≡ length boxes.now }
    ensures each { length result.items ≡ length boxes.now }
    ensures kept { (k : ℕ) → flag_in marks.items k ≡ true → flag_in result.items k ≡ true }
    ensures closed { IsClosed (parents boxes.now) result.items }
    ensures only { (k : ℕ) → flag_in result.items k ≡ true
        → is_above (parents boxes.now) (flag_in marks.items) k ≡ true }
{
    let mut above = marks;
    let mut place = boxes.len();
    while place > 0 {
        place -= 1;
        mark_parent(boxes, place, &mut above);
    }
    above
}

/// Marks the parent of a node that is marked.
fn mark_parent(boxes: &[BoxFacts], place: usize, marks: &mut Vec<bool>)
    ensures { marks.new.items
        ≡ marked_up (node_at boxes.now place).parent (flag_in marks.old.items place) marks.old.items }
{
    if !flag_at(marks.as_slice(), place) {
        return;
    }
    match parent_at(boxes, place) {
        None => {}
        Some(parent) => mark(marks, parent),
    }
}

fn mark(marks: &mut Vec<bool>, place: usize)
    ensures { marks.new.items ≡ slice_set marks.old.items place true }
{
    if place < marks.len() {
        marks[place] = true;
    }
}

/// Marks those of these places that are marked in the second list.
pub fn mark_again(marks: &mut Vec<bool>, others: &[bool], places: &[usize])
    ensures each { length marks.new.items ≡ length marks.old.items }
    ensures marked { (k : ℕ) → k < length marks.old.items
        → flag_in marks.new.items k ≡ ((is_among places.now k && flag_in others.now k) || flag_in marks.old.items k) }
{
    for place in places {
        mark_if(marks, *place, flag_at(others, *place));
    }
}

fn mark_if(marks: &mut Vec<bool>, place: usize, test: bool)
    ensures each { length marks.new.items ≡ length marks.old.items }
    ensures marked { (k : ℕ) → k < length marks.old.items
        → flag_in marks.new.items k ≡ (((place == k) && test) || flag_in marks.old.items k) }
{
    if test {
        mark(marks, place);
    }
}

/// The marked places, rising.
pub fn marked_places(alloc: Global, marks: &[bool]) -> Result<Vec<usize>, AllocError>
    ensures { IfOk result (λ places. places.items ≡ places_of marks.now) }
{
    if !is_any(marks) {
        return Ok(Vec::new(alloc));
    }
    listed_places(alloc, marks)
}

fn listed_places(alloc: Global, marks: &[bool]) -> Result<Vec<usize>, AllocError>
    ensures { IfOk result (λ places. places.items ≡ places_of marks.now) }
{
    let mut places = Vec::new(alloc);
    for (place, mark) in marks.iter().enumerate() {
        if *mark {
            places.push(place)?;
        }
    }
    Ok(places)
}
