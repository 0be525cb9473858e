//! The boxes of nodes, each cut to the window.
ghost use Rattle.std.specs.Prelude.{◌≡◌, ◌++◌, ◌∷◌, [], IfOk, IfSome, OnOk, Some, None, map};
ghost use Rattle.std.specs.Option.{option_copied};
ghost use Rattle.fx_damage.specs.Births.{RisesStrictly, birth_numbers};
ghost use Rattle.fx_damage.specs.Changes.{lent};
ghost use Rattle.fx_damage.specs.Damage.{box_of, boxes_of, changed_boxes, cut_to, stays, two_boxes};
ghost use Rattle.fx_damage.specs.Near.{wide};
ghost use Rattle.fx_damage.specs.Windows.{IsInWindow};
ghost use Rattle.fx_picture.specs.Bounds.{hull_of};
ghost use Rattle.fx_picture.specs.Entries.{HasDistinctBirths};
ghost use Rattle.fx_picture.specs.Shapes.{bounds};

use crate::changes::{add_changed, stays};
use crate::near::{Edges, common, is_vacant, near_box, near_window, same_edges, widened};
use crate::ordering::{next_birth, sort_by_birth, take_with};
use fx_picture::{Bounds, Entry, Shape, bounds, is_empty, joined, meeting, same_bounds};
use std::alloc::{AllocError, Global};

/// Bounds in which no point lies.
pub(crate) const NOWHERE: Bounds = Bounds {
    min_x: 0,
    min_y: 0,
    max_x: 0,
    max_y: 0,
};

/// The boxes of all nodes that don't stay, in order of their birth numbers, each cut to the window.
pub(crate) fn changed_boxes(
    alloc: Global,
    olds: &[Entry],
    nows: &[Entry],
    window: Bounds,
) -> Result<Vec<Bounds>, AllocError>
    requires olds { HasDistinctBirths olds.now }
    requires nows { HasDistinctBirths nows.now }
    requires window { IsInWindow window }
    ensures { IfOk result (λ boxes. boxes.items ≡ cut_to window (changed_boxes olds.now nows.now)) }
{
    let mut changed_olds = Vec::new(alloc);
    let mut changed_nows = Vec::new(alloc);
    add_changed(&mut changed_olds, &mut changed_nows, olds, nows)?;
    let boxes = boxes_between(alloc, changed_olds, changed_nows, window)?;
    Ok(boxes)
}

/// The boxes of the nodes that have these entries and don't stay.
pub(crate) fn boxes_between(
    alloc: Global,
    olds: Vec<&Entry>,
    nows: Vec<&Entry>,
    window: Bounds,
) -> Result<Vec<Bounds>, AllocError>
    requires olds { HasDistinctBirths (lent olds.items) }
    requires nows { HasDistinctBirths (lent nows.items) }
    requires window { IsInWindow window }
    ensures { IfOk result (λ boxes. boxes.items
        ≡ cut_to window (changed_boxes (lent olds.entry.items) (lent nows.entry.items))) }
{
    let mut rising_olds = olds;
    let mut rising_nows = nows;
    sort_by_birth(&mut rising_olds);
    sort_by_birth(&mut rising_nows);
    let boxes = merged_boxes(
        alloc,
        rising_olds.as_slice(),
        rising_nows.as_slice(),
        window,
    )?;
    Ok(boxes)
}

/// The same of entries in order of their birth numbers.
fn merged_boxes(
    alloc: Global,
    olds: &[&Entry],
    nows: &[&Entry],
    window: Bounds,
) -> Result<Vec<Bounds>, AllocError>
    requires olds { RisesStrictly (birth_numbers (lent olds.now)) }
    requires nows { RisesStrictly (birth_numbers (lent nows.now)) }
    requires window { IsInWindow window }
    ensures { IfOk result (λ boxes. boxes.items ≡ cut_to window (changed_boxes (lent olds.now) (lent nows.now))) }
{
    let mut boxes = Vec::new(alloc);
    let mut old_place = 0;
    let mut place = 0;
    while let Some(birth) = next_birth(olds, old_place, nows, place) {
        let old = take_with(olds, birth, &mut old_place);
        let now = take_with(nows, birth, &mut place);
        add_boxes(&mut boxes, old, now, window)?;
    }
    Ok(boxes)
}

/// Adds the boxes of a node that doesn't stay: the old one, and the new one if it is another.
fn add_boxes(
    boxes: &mut Vec<Bounds>,
    old: Option<&Entry>,
    now: Option<&Entry>,
    window: Bounds,
) -> Result<(), AllocError>
    requires { IsInWindow window }
    ensures { OnOk result (boxes.new.items
        ≡ boxes.old.items ++ cut_to window (boxes_of (option_copied old.entry) (option_copied now.entry))) }
{
    if both_stay(old, now) {
        return Ok(());
    }
    add_both(boxes, old, now, window)
}

/// The same of a node that changed. Nearly all are near, so that 64 bits hold their edges.
fn add_both(
    boxes: &mut Vec<Bounds>,
    old: Option<&Entry>,
    now: Option<&Entry>,
    window: Bounds,
) -> Result<(), AllocError>
    requires { IsInWindow window }
    ensures { OnOk result (boxes.new.items ≡ boxes.old.items
        ++ cut_to window (two_boxes (box_of (option_copied old.entry)) (box_of (option_copied now.entry)))) }
{
    match near_boxes(old, now) {
        Some((old_box, now_box)) => add_near(boxes, old_box, now_box, near_window(window)),
        None => add_two(boxes, box_of(old), box_of(now), window),
    }
}

/// Both boxes, unless one is far away.
fn near_boxes(old: Option<&Entry>, now: Option<&Entry>) -> Option<(Edges, Edges)>
    ensures old { IfSome result (λ pair. wide pair.0 ≡ box_of (option_copied old.entry)) }
    ensures now { IfSome result (λ pair. wide pair.1 ≡ box_of (option_copied now.entry)) }
{
    let old_box = near_box(old)?;
    let now_box = near_box(now)?;
    Some((old_box, now_box))
}

/// Adds two near boxes, or one if they are the same.
fn add_near(
    boxes: &mut Vec<Bounds>,
    old: Edges,
    now: Edges,
    window: Edges,
) -> Result<(), AllocError>
    ensures { OnOk result (boxes.new.items
        ≡ boxes.old.items ++ cut_to (wide window) (two_boxes (wide old) (wide now))) }
{
    add_near_cut(boxes, old, window)?;
    if same_edges(old, now) {
        return Ok(());
    }
    add_near_cut(boxes, now, window)?;
    Ok(())
}

/// Adds a near box, cut to the window, unless nothing is left of it.
fn add_near_cut(boxes: &mut Vec<Bounds>, edges: Edges, window: Edges) -> Result<(), AllocError>
    ensures { OnOk result (boxes.new.items ≡ boxes.old.items ++ cut_to (wide window) (wide edges ∷ [])) }
{
    let cut = common(window, edges);
    if is_vacant(cut) {
        return Ok(());
    }
    boxes.push(widened(cut))?;
    Ok(())
}

fn both_stay(old: Option<&Entry>, now: Option<&Entry>) -> bool
    ensures { result ≡ stays (option_copied old.entry) (option_copied now.entry) }
{
    match old {
        Some(old) => match now {
            Some(now) => stays(old, now),
            None => false,
        },
        None => now.is_none(),
    }
}

fn add_two(
    boxes: &mut Vec<Bounds>,
    old: Bounds,
    now: Bounds,
    window: Bounds,
) -> Result<(), AllocError>
    ensures { OnOk result (boxes.new.items ≡ boxes.old.items ++ cut_to window (two_boxes old now)) }
{
    add_cut(boxes, old, window)?;
    if same_bounds(old, now) {
        return Ok(());
    }
    add_cut(boxes, now, window)?;
    Ok(())
}

/// Adds a box, cut to the window, unless nothing is left of it.
fn add_cut(boxes: &mut Vec<Bounds>, bounds: Bounds, window: Bounds) -> Result<(), AllocError>
    ensures { OnOk result (boxes.new.items ≡ boxes.old.items ++ cut_to window (bounds ∷ [])) }
{
    let cut = meeting(window, bounds);
    if is_empty(cut) {
        return Ok(());
    }
    boxes.push(cut)?;
    Ok(())
}

/// The bounding box of the shapes of a node, if it shows.
#[tactic(auto, unfolding(crate::specs::Damage::box_of))]
fn box_of(entry: Option<&Entry>) -> Bounds
    ensures { result ≡ box_of (option_copied entry.entry) }
{
    match entry {
        Some(entry) => around_shapes(entry.shapes.as_slice()),
        None => NOWHERE,
    }
}

fn around_shapes(shapes: &[Shape]) -> Bounds
    ensures { result ≡ hull_of (map bounds shapes.now) }
{
    let mut all = NOWHERE;
    for shape in shapes {
        all = joined(all, bounds(shape));
    }
    all
}
