//! Whether lists make a scene.
ghost use Rattle.std.specs.Prelude.{◌≡◌, ◌<◌, ◌-◌, ◌↔◌, IfOk, IsTrue, eqb, length, map, slice_index};
ghost use Rattle.std.specs.List.{IsDistinct};
ghost use Rattle.std.specs.Cmp.Lexicographic.{slice_cmp};
ghost use Rattle.std.specs.Ordering.{nat_cmp};
ghost use Rattle.std.specs.declared.cmp.Ordering.TheVariants.{Less};
ghost use Rattle.std.specs.List.Sorted.{IsStrictlyIncreasing};
ghost use Rattle.fx_css_types.specs.Limits.{AreWithinLimits};
ghost use Rattle.fx_cascade.specs.Tables.{AreRows};
ghost use Rattle.fx_layout_sweeps.specs.Nodes.{IsTree, keys, parents};
ghost use Rattle.fx_pulse_model.specs.Lines.{AreInOrder, path_of};
ghost use Rattle.fx_pulse_model.specs.Scenes.{IsScene, births};
ghost use Rattle.fx_pulse.specs.Drawing.{RiseUpTo};
ghost use Rattle.fx_pulse_touched.specs.Marks.{is_on_line};
ghost use Rattle.fx_pulse_touched.specs.Sights.{seen};
ghost use Rattle.fx_style.specs.Rules.{HaveRows};

use crate::flags::parent_at;
use fx_kinds::{BoxFacts, StyleFacts};
use fx_layout::are_nodes;
use fx_look::{CodeValue, STYLE_COUNT};
use fx_pulse_touched::Scene;
use std::alloc::{AllocError, Global};

/// Is this a scene? That is so where the lists tell of the same nodes, the first of which is the root, in pre-order;
/// there are at most 4,096, no two with one birth number, and each can be styled and laid out. The sheets are within
/// their limits, as every sheet is that was read. It is dearer than a walk over the lists only by the sorting of birth
/// numbers, and by that only where these don't rise.
pub fn is_scene(alloc: Global, scene: Scene<'_>) -> Result<bool, AllocError>
    requires { AreWithinLimits scene.sheets.now }
    ensures scene { IfOk result (λ is. IsTrue is → IsScene (seen scene.entry)) }
    ensures only { IfOk result (λ is. IsScene (seen scene.entry) → IsTrue is) }
{
    if !are_alike(scene) {
        return Ok(false);
    }
    if !are_nodes(scene.boxes) {
        return Ok(false);
    }
    if !have_rows(scene.styles) {
        return Ok(false);
    }
    if !have_distinct_births(alloc, scene.boxes)? {
        return Ok(false);
    }
    Ok(are_in_order(scene.boxes))
}

/// Do the lists tell of the same nodes?
fn are_alike(scene: Scene<'_>) -> bool
    ensures keys { IsTrue result → map (λ node. node.key) scene.entry.styles.now ≡ keys scene.entry.boxes.now }
    ensures parents { IsTrue result → map (λ node. node.parent) scene.entry.styles.now ≡ parents scene.entry.boxes.now }
    ensures marks { IsTrue result → length scene.entry.disabled.now ≡ length scene.entry.boxes.now }
    ensures only { IsScene (seen scene.entry) → IsTrue result }
{
    scene.styles.len() == scene.boxes.len()
        && scene.disabled.len() == scene.boxes.len()
        && have_same_heads(scene.styles, scene.boxes)
}

/// Have the nodes of both lists the same keys and parents?
fn have_same_heads(styles: &[StyleFacts], boxes: &[BoxFacts]) -> bool
    requires { length styles.now ≡ length boxes.now }
    ensures keys { IsTrue result → map (λ node. node.key) styles.now ≡ keys boxes.now }
    ensures parents { IsTrue result → map (λ node. node.parent) styles.now ≡ parents boxes.now }
    ensures only { map (λ node. node.key) styles.now ≡ keys boxes.now
        → map (λ node. node.parent) styles.now ≡ parents boxes.now → IsTrue result }
{
    for place in 0..boxes.len() {
        let style = &styles[place];
        let node = &boxes[place];
        if !has_same_head(style, node) {
            return false;
        }
    }
    true
}

fn has_same_head(style: &StyleFacts, node: &BoxFacts) -> bool
    ensures { IsTrue result ↔ ((style.now.key ≡ node.now.key) × (style.now.parent ≡ node.now.parent)) }
{
    style.key == node.key && style.parent == node.parent
}

/// Are the code values of each node of rows that the style table has?
fn have_rows(styles: &[StyleFacts]) -> bool
    ensures rows { IsTrue result → HaveRows styles.now }
    ensures only { HaveRows styles.now → IsTrue result }
{
    for node in styles {
        if !are_rows(node.codes.as_slice()) {
            return false;
        }
    }
    true
}

fn are_rows(codes: &[CodeValue]) -> bool
    ensures rows { IsTrue result → AreRows codes.now }
    ensures only { AreRows codes.now → IsTrue result }
{
    for code in codes {
        if code.style.0 >= STYLE_COUNT as u32 {
            return false;
        }
    }
    true
}

/// Have no two nodes one birth number? Where they rise that is seen at once, or else they are sorted.
fn have_distinct_births(alloc: Global, boxes: &[BoxFacts]) -> Result<bool, AllocError>
    ensures { IfOk result (λ distinct. IsTrue distinct ↔ IsDistinct eqb (births boxes.now)) }
{
    if do_births_rise(boxes) {
        return Ok(true);
    }
    let births = births_of(alloc, boxes)?;
    Ok(are_distinct(births))
}

/// Has each node a greater birth number than the one before it?
fn do_births_rise(boxes: &[BoxFacts]) -> bool
    ensures { IsTrue result → IsStrictlyIncreasing (births boxes.now) }
{
    for place in 1..boxes.len() {
        if birth_at(boxes, place) <= birth_at(boxes, place - 1) {
            return false;
        }
    }
    true
}

fn birth_at(boxes: &[BoxFacts], place: usize) -> u32
    ensures { result ≡ slice_index (births boxes.now) place }
{
    match boxes.get(place) {
        Some(node) => node.key.birth,
        None => 0,
    }
}

fn births_of(alloc: Global, boxes: &[BoxFacts]) -> Result<Vec<u32>, AllocError>
    ensures { IfOk result (λ made. made.items ≡ births boxes.now) }
{
    let mut births = Vec::with_capacity(alloc, boxes.len())?;
    for node in boxes {
        births.push(node.key.birth)?;
    }
    Ok(births)
}

fn are_distinct(numbers: Vec<u32>) -> bool
    ensures { IsTrue result ↔ IsDistinct eqb numbers.items }
{
    let mut sorted = numbers;
    sorted.sort_unstable();
    is_increasing(sorted.as_slice())
}

fn is_increasing(numbers: &[u32]) -> bool
    ensures { IsTrue result ↔ IsStrictlyIncreasing numbers.now }
{
    for place in 1..numbers.len() {
        if numbers[place] <= numbers[place - 1] {
            return false;
        }
    }
    true
}

/// Do the nodes rise by their paths? They do where each hangs on the line down to the one before it. No line is walked
/// up twice: what is left behind stays there.
fn are_in_order(boxes: &[BoxFacts]) -> bool
    requires { IsTree (parents boxes.now) }
    ensures { IsTrue result ↔ AreInOrder (parents boxes.now) }
{
    for place in 1..boxes.len() {
        if !hangs_on_line(boxes, place) {
            return false;
        }
    }
    true
}

/// Is the parent of this node the one before it, or one above that?
fn hangs_on_line(boxes: &[BoxFacts], place: usize) -> bool
    requires tree { IsTree (parents boxes.now) }
    requires behind { 0 < place }
    requires there { place < length boxes.now }
    requires rise { RiseUpTo (parents boxes.now) place }
    ensures { IsTrue result ↔ (slice_cmp nat_cmp (path_of (parents boxes.now) (place - 1))
        (path_of (parents boxes.now) place) ≡ Less) }
{
    match parent_at(boxes, place) {
        None => false,
        Some(parent) => is_on_line(boxes, place - 1, parent),
    }
}

/// Does this other place stand on the line from the root down to a node?
fn is_on_line(boxes: &[BoxFacts], place: usize, other: usize) -> bool
    requires tree { IsTree (parents boxes.now) }
    requires there { place < length boxes.now }
    ensures { result ≡ is_on_line (parents boxes.now) place other }
{
    let mut at = place;
    while at > other {
        match parent_at(boxes, at) {
            None => return false,
            Some(parent) => at = parent,
        }
    }
    at == other
}
