//! Two scenes compared, place by place.
ghost use Rattle.std.specs.Prelude.{◌≡◌, ◌↔◌, ◌<◌, ℕ, IfOk, IfSome, IsTrue, false, length, map, slice_get, Some, None};
ghost use Rattle.std.specs.List.{list_any};
ghost use Rattle.std.specs.Option.{option_map};
ghost use Rattle.fx_layout_sweeps.specs.Marks.{flag_in};
ghost use Rattle.fx_layout_sweeps.specs.Nodes.{keys, parents};
ghost use Rattle.fx_pulse_model.specs.Scenes.{IsScene};
ghost use Rattle.fx_pulse_touched.specs.Sights.{seen};
ghost use Rattle.fx_pulse_touched.specs.Touched.{AreTouched, HaveOneShape, IsOfShape};

use crate::facts::{has_same_box, has_same_style};
use crate::marks::is_any;
use crate::scenes::Scene;
use fx_base::Same;
use fx_kinds::{BoxFacts, StyleFacts};
use std::alloc::{AllocError, Global};

/// Marks of the touched nodes, by their facts for style and by those for layout.
#[derive(Drop)]
pub struct Touched {
    pub styles: Vec<bool>,
    pub boxes: Vec<bool>,
}

/// A scene as it is compared with the last one.
#[derive(Drop)]
pub struct Compared {
    pub touched: Touched,
    /// There was a last scene, of the same sheets, whose nodes were these and hung as they do.
    pub has_shape: bool,
    /// It is the last scene again.
    pub is_last: bool,
}

/// Compares a scene with the last one, all facts place by place, and the sheets. Touched are all nodes where there was
/// no last scene, where other nodes stood or hung elsewhere, or where the sheets are others.
pub fn compared_since(
    alloc: Global,
    last: Option<Scene<'_>>,
    scene: Scene<'_>,
) -> Result<Compared, AllocError>
    requires scene { IsScene (seen scene) }
    requires last { IfSome last (λ old. IsScene (seen old)) }
    ensures touched { IfOk result (λ compared. AreTouched (option_map seen last.entry) (seen scene.entry)
        compared.touched.styles.items compared.touched.boxes.items) }
    ensures shape { IfOk result (λ compared. IsTrue compared.has_shape
        → IsOfShape (option_map seen last.entry) (seen scene.entry)) }
    ensures last { IfOk result (λ compared. IsTrue compared.is_last
        → option_map seen last.entry ≡ Some (seen scene.entry)) }
    ensures only_shape { IfOk result (λ compared. IsOfShape (option_map seen last.entry) (seen scene.entry)
        → IsTrue compared.has_shape) }
    ensures only_last { IfOk result (λ compared. option_map seen last.entry ≡ Some (seen scene.entry)
        → IsTrue compared.is_last) }
{
    match last {
        None => Ok(unlike(all_touched(alloc, scene)?)),
        Some(old) => compared_with(alloc, old, scene),
    }
}

/// A scene that isn't of the shape of the last one.
fn unlike(touched: Touched) -> Compared
    ensures touched { result.touched ≡ touched }
    ensures shape { result.has_shape ≡ false }
    ensures last { result.is_last ≡ false }
{
    Compared {
        touched,
        has_shape: false,
        is_last: false,
    }
}

fn all_touched(alloc: Global, scene: Scene<'_>) -> Result<Touched, AllocError>
    requires { IsScene (seen scene) }
    ensures { IfOk result (λ touched. AreTouched None (seen scene.entry) touched.styles.items touched.boxes.items) }
{
    Ok(Touched {
        styles: vec![in alloc; true; scene.styles.len()]?,
        boxes: vec![in alloc; true; scene.boxes.len()]?,
    })
}

fn compared_with(alloc: Global, last: Scene<'_>, scene: Scene<'_>) -> Result<Compared, AllocError>
    requires scene { IsScene (seen scene) }
    requires last { IsScene (seen last) }
    ensures touched { IfOk result (λ compared. AreTouched (Some (seen last.entry)) (seen scene.entry)
        compared.touched.styles.items compared.touched.boxes.items) }
    ensures shape { IfOk result (λ compared. IsTrue compared.has_shape
        → HaveOneShape (seen last.entry) (seen scene.entry)) }
    ensures last { IfOk result (λ compared. IsTrue compared.is_last → seen last.entry ≡ seen scene.entry) }
    ensures only_shape { IfOk result (λ compared. HaveOneShape (seen last.entry) (seen scene.entry)
        → IsTrue compared.has_shape) }
    ensures only_last { IfOk result (λ compared. seen last.entry ≡ seen scene.entry → IsTrue compared.is_last) }
{
    if !have_one_shape(last, scene) {
        return Ok(unlike(all_touched(alloc, scene)?));
    }
    let touched = Touched {
        styles: differing_styles(alloc, last.styles, scene.styles)?,
        boxes: differing_boxes(alloc, last.boxes, scene.boxes)?,
    };
    let is_last = is_untouched(last, scene, &touched);
    Ok(Compared {
        touched,
        has_shape: true,
        is_last,
    })
}

/// Is this the last scene again, of which the touched nodes are marked?
fn is_untouched(last: Scene<'_>, scene: Scene<'_>, touched: &Touched) -> bool
    requires scene { IsScene (seen scene) }
    requires last { IsScene (seen last) }
    requires shape { HaveOneShape (seen last) (seen scene) }
    requires touched { AreTouched (Some (seen last)) (seen scene) touched.now.styles.items touched.now.boxes.items }
    ensures is { IsTrue result → seen last.entry ≡ seen scene.entry }
    ensures only { seen last.entry ≡ seen scene.entry → IsTrue result }
{
    if !are_same_flags(last.disabled, scene.disabled) {
        return false;
    }
    is_none_marked(touched)
}

fn is_none_marked(touched: &Touched) -> bool
    ensures styles { IsTrue result → list_any (λ mark. mark) touched.now.styles.items ≡ false }
    ensures boxes { IsTrue result → list_any (λ mark. mark) touched.now.boxes.items ≡ false }
    ensures only { list_any (λ mark. mark) touched.now.styles.items ≡ false
        → list_any (λ mark. mark) touched.now.boxes.items ≡ false → IsTrue result }
{
    !is_any(touched.styles.as_slice()) && !is_any(touched.boxes.as_slice())
}

fn are_same_flags(flags: &[bool], others: &[bool]) -> bool
    ensures { IsTrue result ↔ (flags.now ≡ others.now) }
{
    flags == others
}

fn have_one_shape(last: Scene<'_>, scene: Scene<'_>) -> bool
    ensures { IsTrue result ↔ HaveOneShape (seen last.entry) (seen scene.entry) }
{
    have_same_heads(last.boxes, scene.boxes) && are_same(last.sheets, scene.sheets)
}

/// Have both lists the same keys and parents?
pub fn have_same_heads(olds: &[BoxFacts], nodes: &[BoxFacts]) -> bool
    ensures { IsTrue result ↔ ((keys olds.now ≡ keys nodes.now) × (parents olds.now ≡ parents nodes.now)) }
{
    olds.len() == nodes.len() && heads_are_same(olds, nodes)
}

fn heads_are_same(olds: &[BoxFacts], nodes: &[BoxFacts]) -> bool
    requires { length olds.now ≡ length nodes.now }
    ensures keys { IsTrue result → keys olds.now ≡ keys nodes.now }
    ensures parents { IsTrue result → parents olds.now ≡ parents nodes.now }
    ensures only { keys olds.now ≡ keys nodes.now → parents olds.now ≡ parents nodes.now → IsTrue result }
{
    for place in 0..nodes.len() {
        let old = &olds[place];
        let node = &nodes[place];
        if !has_same_head(old, node) {
            return false;
        }
    }
    true
}

fn has_same_head(old: &BoxFacts, node: &BoxFacts) -> bool
    ensures { IsTrue result ↔ ((old.now.key ≡ node.now.key) × (old.now.parent ≡ node.now.parent)) }
{
    old.key == node.key && old.parent == node.parent
}

fn are_same<T: Same>(items: &[T], others: &[T]) -> bool
    ensures { IsTrue result ↔ (items.now ≡ others.now) }
{
    items.len() == others.len() && pairs_are_same(items, others)
}

fn pairs_are_same<T: Same>(items: &[T], others: &[T]) -> bool
    requires { length items.now ≡ length others.now }
    ensures { IsTrue result ↔ (items.now ≡ others.now) }
{
    for at in 0..items.len() {
        if !items[at].is_same(&others[at]) {
            return false;
        }
    }
    true
}

/// Marks of the nodes whose facts for style are others.
fn differing_styles(
    alloc: Global,
    olds: &[StyleFacts],
    nodes: &[StyleFacts],
) -> Result<Vec<bool>, AllocError>
    requires each { length olds.now ≡ length nodes.now }
    requires keys { map (λ node. node.key) olds.now ≡ map (λ node. node.key) nodes.now }
    requires parents { map (λ node. node.parent) olds.now ≡ map (λ node. node.parent) nodes.now }
    ensures each { IfOk result (λ marks. length marks.items ≡ length nodes.now) }
    ensures marks { IfOk result (λ marks. (k : ℕ) → k < length nodes.now
        → (flag_in marks.items k ≡ false) ↔ (slice_get olds.now k ≡ slice_get nodes.now k)) }
{
    let mut marks = Vec::with_capacity(alloc, nodes.len())?;
    for place in 0..nodes.len() {
        let old = &olds[place];
        let node = &nodes[place];
        marks.push(!has_same_style(old, node))?;
    }
    Ok(marks)
}

/// Marks of the nodes whose facts for layout are others.
fn differing_boxes(
    alloc: Global,
    olds: &[BoxFacts],
    nodes: &[BoxFacts],
) -> Result<Vec<bool>, AllocError>
    requires each { length olds.now ≡ length nodes.now }
    requires keys { keys olds.now ≡ keys nodes.now }
    requires parents { parents olds.now ≡ parents nodes.now }
    ensures each { IfOk result (λ marks. length marks.items ≡ length nodes.now) }
    ensures marks { IfOk result (λ marks. (k : ℕ) → k < length nodes.now
        → (flag_in marks.items k ≡ false) ↔ (slice_get olds.now k ≡ slice_get nodes.now k)) }
{
    let mut marks = Vec::with_capacity(alloc, nodes.len())?;
    for place in 0..nodes.len() {
        let old = &olds[place];
        let node = &nodes[place];
        marks.push(!has_same_box(old, node))?;
    }
    Ok(marks)
}
