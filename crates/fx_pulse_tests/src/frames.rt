//! Frames of a label, alone and in a pane, one after another. What is done with the renderer stands in functions that
//! are lent it.
ghost use Rattle.std.specs.Prelude.{◌≡◌, true, IfSome};
ghost use Rattle.fx_canvas.specs.Surfaces.{is_size};
ghost use Rattle.fx_css_types.specs.Limits.{AreWithinLimits};

use crate::scenes::{label_box, label_style, pane_box, pane_style};
use fx_base::{Ledgers, List, Work};
use fx_pulse::{Renderer, SceneLists, is_scene};
use std::alloc::Global;
use std::marker::Brand;
use std::sync::ledger::Blank;
use std::test::Fail;

/// How many rectangles the frame of a label damages.
fn show<L: Ledgers>(
    alloc: Global,
    renderer: &mut Renderer,
    text: &str,
    window: Option<(u32, u32)>,
    work: &mut Work<L>,
) -> Result<(u32, u32, usize), Fail>
    requires { IfSome window (λ size. is_size size.0 size.1 ≡ true) }
{
    let scene = SceneLists {
        sheets: List::new(alloc),
        styles: List::from_vec(vec![in alloc; label_style(alloc, 1, None)?]?),
        boxes: List::from_vec(vec![in alloc; label_box(alloc, 1, None, text)?]?),
        disabled: List::from_vec(vec![in alloc; false]?),
    };
    show_scene(alloc, renderer, scene, window, work)
}

/// How many rectangles the frame of a label in a pane damages.
fn show_in_pane<L: Ledgers>(
    alloc: Global,
    renderer: &mut Renderer,
    text: &str,
    work: &mut Work<L>,
) -> Result<(u32, u32, usize), Fail> {
    let styles = vec![in alloc; pane_style(alloc, 1), label_style(alloc, 2, Some(0))?]?;
    let boxes = vec![in alloc; pane_box(alloc, 1), label_box(alloc, 2, Some(0), text)?]?;
    let scene = SceneLists {
        sheets: List::new(alloc),
        styles: List::from_vec(styles),
        boxes: List::from_vec(boxes),
        disabled: List::from_vec(vec![in alloc; false, false]?),
    };
    show_scene(alloc, renderer, scene, None, work)
}

fn show_scene<L: Ledgers>(
    alloc: Global,
    renderer: &mut Renderer,
    scene: SceneLists,
    window: Option<(u32, u32)>,
    work: &mut Work<L>,
) -> Result<(u32, u32, usize), Fail>
    requires sheets { AreWithinLimits scene.sheets }
    requires window { IfSome window (λ size. is_size size.0 size.1 ≡ true) }
{
    if !is_scene(alloc, scene.scene())? {
        return Err(Fail::from("this is no scene"));
    }
    let frame = renderer.pulse(alloc, scene, window, work)?;
    let _spare = renderer.take_spare(alloc);
    Ok((frame.width, frame.height, frame.damage.len()))
}

/// Is the last frame, undamaged, shown again in this window?
fn is_again(alloc: Global, renderer: &Renderer, window: (u32, u32)) -> bool {
    match renderer.again(alloc, Some(window)) {
        Some(frame) => {
            frame.width == window.0 && frame.height == window.1 && frame.damage.is_empty()
        }
        None => false,
    }
}

/// A letter of one pixel a bit, the same again, another one, and the window made wider.
fn shows_letters<L: Ledgers>(
    alloc: Global,
    renderer: &mut Renderer,
    work: &mut Work<L>,
) -> Result<bool, Fail> {
    let first = show(alloc, renderer, "I", None, work)?;
    let is_one = renderer.picture().entries.as_slice().len() == 1 && renderer.rects().len() == 1;
    let again = show(alloc, renderer, "I", Some((4, 6)), work)?;
    let other = show(alloc, renderer, "L", Some((4, 6)), work)?;
    let wider = show(alloc, renderer, "L", Some((5, 6)), work)?;
    renderer.refresh()?;
    Ok(
        is_one
            && first == (4, 6, 1)
            && again == (4, 6, 0)
            && other == (4, 6, 1)
            && wider == (5, 6, 1)
            && is_again(alloc, renderer, (5, 6))
            && !is_again(alloc, renderer, (4, 6)),
    )
}

/// A letter in a pane, the same again, and a wider text, of which the pane has to know.
fn shows_a_child<L: Ledgers>(
    alloc: Global,
    renderer: &mut Renderer,
    work: &mut Work<L>,
) -> Result<bool, Fail> {
    let first = show_in_pane(alloc, renderer, "I", work)?;
    let again = show_in_pane(alloc, renderer, "I", work)?;
    let wider = show_in_pane(alloc, renderer, "IL", work)?;
    Ok(first == (4, 6, 1) && again == (4, 6, 0) && wider == (8, 6, 1))
}

fn frames<L: Ledgers>(
    alloc: Global,
    renderer: &mut Renderer,
    evaluated: Blank,
    styled: Blank,
    laid: Blank,
    painted: Blank,
) -> Result<bool, Fail>
    requires evaluated { (evaluated.name ≡ L.evaluated_name) × (evaluated.parts ≡ 1) }
    requires styled { (styled.name ≡ L.styled_name) × (styled.parts ≡ 1) }
    requires laid { (laid.name ≡ L.laid_name) × (laid.parts ≡ 1) }
    requires painted { (painted.name ≡ L.painted_name) × (painted.parts ≡ 1) }
{
    let mut work: Work<L> = Work::new(evaluated, styled, laid, painted);
    Ok(shows_letters(alloc, renderer, &mut work)? && shows_a_child(alloc, renderer, &mut work)?)
}

#[test]
fn frames_follow_the_text(rt: HostRuntime) -> Result<(), Fail> {
    let mut renderer = Renderer::new(rt.alloc());
    let are_so = frames::<Brand>(
        rt.alloc(),
        &mut renderer,
        Blank::new(1),
        Blank::new(1),
        Blank::new(1),
        Blank::new(1),
    )?;
    assert!(rt; are_so);
    Ok(())
}
