//! The damage as rectangles.
ghost use Rattle.std.specs.Prelude.{◌≡◌, ◌∷◌, [], All, IfOk, map, pos};
ghost use Rattle.std.specs.Option.{ForSome, option_copied, option_map};
ghost use Rattle.fx_damage.specs.Damage.{at_most_sixteen, damage, window};
ghost use Rattle.fx_damage.specs.Windows.{IsInWindow};
ghost use Rattle.fx_picture.specs.Bounds.{hull_of, rect_of};
ghost use Rattle.fx_picture.specs.Entries.{HasDistinctBirths};

use crate::boxes::{NOWHERE, changed_boxes};
use fx_base::Rect;
use fx_picture::{Bounds, Picture, joined};
use std::alloc::{AllocError, Global};

/// The most rectangles that stay apart.
const MOST: usize = 16;

/// The rectangles in which a window of this size, in pixels, may show something else than with the last picture:
/// the bounding boxes of the nodes whose shapes or place in the order of painting differ, old ones and new ones, in
/// order of birth numbers. Without a last picture of this window it is the window.
pub fn damage(
    alloc: Global,
    old: Option<&Picture>,
    new: &Picture,
    w: u32,
    h: u32,
) -> Result<Vec<Rect>, AllocError>
    requires old { ForSome old (λ p. HasDistinctBirths p.now.entries) }
    requires new { HasDistinctBirths new.now.entries }
    ensures { IfOk result (λ rects. rects.items
        ≡ damage (option_map (λ p. p.entries) (option_copied old.entry)) new.now.entries w h) }
{
    let window = window(w, h);
    match old {
        None => rects_of(alloc, &[window]),
        Some(old) => {
            let boxes = changed_boxes(
                alloc,
                old.entries.as_slice(),
                new.entries.as_slice(),
                window,
            )?;
            joined_rects(alloc, boxes.as_slice())
        }
    }
}

pub(crate) fn window(w: u32, h: u32) -> Bounds
    ensures value { result ≡ window w h }
    ensures inside { IsInWindow result }
{
    Bounds {
        min_x: 0,
        min_y: 0,
        max_x: i128::from(w),
        max_y: i128::from(h),
    }
}

/// The rectangles of boxes, of which more than sixteen become their bounding box.
pub(crate) fn joined_rects(alloc: Global, boxes: &[Bounds]) -> Result<Vec<Rect>, AllocError>
    requires { All IsInWindow boxes.now }
    ensures { IfOk result (λ rects. rects.items ≡ map rect_of (at_most_sixteen boxes.now)) }
{
    if boxes.len() > MOST {
        return rects_of(alloc, &[around(boxes)]);
    }
    rects_of(alloc, boxes)
}

fn around(boxes: &[Bounds]) -> Bounds
    requires { All IsInWindow boxes.now }
    ensures value { result ≡ hull_of boxes.now }
    ensures inside { IsInWindow result }
{
    let mut all = NOWHERE;
    for bounds in boxes {
        all = joined(all, *bounds);
    }
    all
}

fn rects_of(alloc: Global, boxes: &[Bounds]) -> Result<Vec<Rect>, AllocError>
    requires { All IsInWindow boxes.now }
    ensures { IfOk result (λ rects. rects.items ≡ map rect_of boxes.now) }
{
    let mut rects = Vec::with_capacity(alloc, boxes.len())?;
    for bounds in boxes {
        rects.push(rect_of(*bounds))?;
    }
    Ok(rects)
}

fn rect_of(bounds: Bounds) -> Rect
    requires { IsInWindow bounds }
    ensures { result ≡ rect_of bounds }
{
    Rect {
        x: bounds.min_x as i64,
        y: bounds.min_y as i64,
        w: (bounds.max_x - bounds.min_x) as i64,
        h: (bounds.max_y - bounds.min_y) as i64,
    }
}
