//! Between the facts that a stage gives and the scene that is drawn.
ghost use Rattle.std.specs.Prelude.{◌≡◌, IfOk, IfSome, IsTrue, true};
ghost use Rattle.fx_canvas.specs.Surfaces.{is_size};
ghost use Rattle.fx_plain_frames.specs.Pulses.{scene_of, sizes_of};
ghost use Rattle.fx_pulse_touched.specs.Sights.{scene_of as held, seen};
ghost use Rattle.fx_pulse_model.specs.Scenes.{IsScene};
ghost use Rattle.fx_stage_facts.specs.Scenes.{facts_of};
ghost use Rattle.fx_stage_model.specs.World.{World};

use fx_base::{NodeKey, Rect};
use fx_css_limits::are_within_limits;
use fx_kinds::BoxFacts;
use fx_pulse::{Scene, SceneLists, is_scene};
use fx_stage_facts::Facts;
use std::alloc::{AllocError, Global};

/// The scene of these facts.
#[tactic(auto, unfolding(fx_stage_facts::specs::Scenes::facts_of))]
pub(crate) fn scene_in(facts: Facts) -> SceneLists
    ensures scene { (world : World) → facts ≡ facts_of world → held result ≡ scene_of world }
    ensures boxes { result.boxes ≡ facts.boxes }
{
    let Facts {
        sheets,
        styles,
        boxes,
        disabled,
        ..
    } = facts;
    SceneLists {
        sheets,
        styles,
        boxes,
        disabled,
    }
}

/// Facts in the memory of these lists.
pub(crate) fn facts_in(lists: SceneLists) -> Facts {
    let SceneLists {
        sheets,
        styles,
        boxes,
        disabled,
    } = lists;
    Facts {
        sheets,
        styles,
        boxes,
        disabled,
        window: None,
    }
}

/// Whether the scene can be drawn in the window. No scene of a stage is known that can't; this looks, since the stage
/// doesn't promise it.
pub(crate) fn is_fit(
    alloc: Global,
    scene: Scene<'_>,
    window: Option<(u32, u32)>,
) -> Result<bool, AllocError>
    ensures scene { IfOk result (λ fit. IsTrue fit → IsScene (seen scene.entry)) }
    ensures window { IfOk result (λ fit. IsTrue fit → IfSome window (λ size. is_size size.0 size.1 ≡ true)) }
{
    if !is_window(window) || !are_within_limits(scene.sheets) {
        return Ok(false);
    }
    is_scene(alloc, scene)
}

/// Has the window, if there is one, 1 to 2,048 pixels each way?
fn is_window(window: Option<(u32, u32)>) -> bool
    ensures { IsTrue result → IfSome window (λ size. is_size size.0 size.1 ≡ true) }
{
    match window {
        None => true,
        Some((width, height)) => is_size(width, height),
    }
}

fn is_size(width: u32, height: u32) -> bool
    ensures { result ≡ is_size width height }
{
    (1 <= width && width <= 2048) && (1 <= height && height <= 2048)
}

/// Each node with its width and its height, in pixels.
pub(crate) fn sizes_of(
    alloc: Global,
    boxes: &[BoxFacts],
    rects: &[Rect],
) -> Result<Vec<(NodeKey, i64, i64)>, AllocError>
    ensures { IfOk result (λ sizes. sizes.items ≡ sizes_of boxes.now rects.now) }
{
    let mut sizes = Vec::with_capacity(alloc, boxes.len())?;
    for place in 0..boxes.len() {
        if place >= rects.len() {
            return Ok(sizes);
        }
        let rect = rects[place];
        sizes.push((boxes[place].key, rect.w, rect.h))?;
    }
    Ok(sizes)
}
