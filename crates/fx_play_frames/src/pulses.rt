//! What a `pulse` does: the next frame, and the sizes that are published behind it. Where the game rests, the next frame
//! is the last one, and nothing is looked at.
ghost use Rattle.std.specs.Prelude.{ℕ, ◌≡◌, ◌≤◌, ◌<◌, ◌+◌, ◌-◌, ◌^◌, All, false, IfOk, IfSome, IsSome, IsTrue, OnOk, Some};
ghost use Rattle.fx_delta.specs.Pictures.{is_size};
ghost use Rattle.fx_frame_text.specs.declared.forms.Form.{Form as Image};
ghost use Rattle.fx_plain_frames.specs.Drawable.{IsDrawable};
ghost use Rattle.fx_plain_frames.specs.Playing.{IsShown};
ghost use Rattle.fx_plain_dispatch.specs.Costs.{IsDoneWithin};
ghost use Rattle.fx_plain_dispatch.specs.Settling.{IsSettledWhole};
ghost use Rattle.fx_plain_frames.specs.Pulses.{IsDrawn, course_behind, sizes_of as sizes};
ghost use Rattle.fx_plain_work.specs.Works.{Counted, IsPulseWork, counted};
ghost use Rattle.fx_play_frames.specs.Drawn.{IsDrawWork, IsDrawnAs, pulsed_as};
ghost use Rattle.fx_play_frames.specs.Games.{game_of, sight_of};
ghost use Rattle.fx_play_frames.specs.Takings.{HasFrame, IsSmallRect, IsSmallTaken, last_behind, told_as};
ghost use Rattle.fx_play_steps.specs.Traces.{course_of};
ghost use Rattle.fx_play_frames.specs.Resting.{IsAtRest};
ghost use Rattle.fx_pulse.specs.Rendering.{last_frame, surface_of};
ghost use Rattle.fx_pulse_kept.specs.Keeping.{boxes_in};
ghost use Rattle.fx_stage_facts.specs.Publishing.{AreOnce, IsPublished, sized};
ghost use Rattle.fx_stage_facts.specs.Resting.{IsStill, nothing_told};
ghost use Rattle.fx_stage_facts.specs.Scenes.{facts_of};
ghost use Rattle.fx_stage_model.specs.World.{World};

use crate::game::Game;
use crate::scenes::{facts_in, is_fit, scene_in, sizes_of};
use crate::taking::{Shown, Taken};
use fx_act::settle;
use fx_base::{Ledgers, List, Rect, Work};
use fx_canvas::Canvas;
use fx_kinds::BoxFacts;
use fx_play_steps::{Trace, print_told};
use fx_pulse::{Frame, Renderer};
use fx_stage::Stage;
use fx_stage_facts::{Facts, Published, publish, refresh_facts};
use fx_store_model::Notices;
use std::alloc::{AllocError, Global};

/// The most pixels of a frame each way.
const MOST_PIXELS: u32 = 2048;

/// A frame that was made, and what was told of the sizes that it published.
#[derive(Drop)]
struct Pulsed {
    frame: Frame,
    told: Published,
}

impl Game {
    /// Makes the next frame, tells of the sizes that it published, and has the listeners that were told run their
    /// actions.
    pub(crate) fn pulse<L: Ledgers>(
        &mut self,
        alloc: Global,
        number: u32,
        trace: &mut Trace,
        work: &mut Work<L>,
    ) -> Result<Taken, AllocError>
        requires few { self.old.frames < 2 ^ 64 - 1 }
        ensures shown { IfOk result (λ taken. (form : Image) →
            IsDoneWithin (IsShown form number (game_of self.old) (game_of self.new)
            (told_as form (game_of self.old).last (game_of self.new) taken trace.new.text.items))
            work.old.evaluated work.new.evaluated) }
        ensures frame { IfOk result (HasFrame (game_of self.new)) }
        ensures last { IfOk result (λ taken.
            last_behind taken (game_of self.old).last (game_of self.new) ≡ (game_of self.new).last) }
        ensures small { IfOk result IsSmallTaken }
        ensures count { OnOk result (self.new.frames ≡ self.old.frames + 1) }
        ensures work { OnOk result (IsPulseWork (game_of self.old) (game_of self.new) (sight_of self.old)
            (sight_of self.new) (counted work.old.styled work.old.laid work.old.painted)
            (counted work.new.styled work.new.laid work.new.painted)) }
    {
        let pulsed = self.next_frame(alloc, work)?;
        self.frames += 1;
        if self.rests {
            trace.clear();
            return Ok(Taken::Frame(Shown {
                notices: 0,
                damage: pulsed.frame.damage,
            }));
        }
        tell(
            alloc,
            &mut self.stage,
            number,
            &pulsed.told.notices,
            trace,
            work,
        )?;
        Ok(Taken::Frame(Shown {
            notices: trace.heard.len() as u64,
            damage: pulsed.frame.damage,
        }))
    }

    /// Draws the next frame, and publishes its sizes. The game rests behind one that published no other size, where
    /// nobody is told.
    fn next_frame<L: Ledgers>(
        &mut self,
        alloc: Global,
        work: &mut Work<L>,
    ) -> Result<Pulsed, AllocError>
        ensures drawn { IfOk result (λ pulsed. IsDoneWithin
            (IsDrawn self.old.stage self.new.stage (last_frame self.old.renderer) (last_frame self.new.renderer)
            (pulsed_as self.new.renderer pulsed)) work.old.evaluated work.new.evaluated) }
        ensures small { IfOk result (λ pulsed. All IsSmallRect pulsed.frame.damage.items) }
        ensures work { IfOk result (λ pulsed. IsDrawWork self.old.stage self.old.renderer self.new.renderer
            pulsed.frame (counted work.old.styled work.old.laid work.old.painted)
            (counted work.new.styled work.new.laid work.new.painted)) }
        ensures quiet { IfOk result (λ pulsed. IsTrue self.new.rests → pulsed.told.notices ≡ nothing_told) }
        ensures clock { self.new.clock ≡ self.old.clock }
        ensures frames { self.new.frames ≡ self.old.frames }
    {
        if self.rests {
            if let Some(pulsed) = self.frame_again(alloc) {
                return Ok(pulsed);
            }
        }
        self.rests = false;
        let pulsed = drawn(alloc, &mut self.stage, &mut self.renderer, work)?;
        self.rests = !pulsed.told.is_new;
        Ok(pulsed)
    }

    /// The last frame again, unless it was drawn in another window.
    fn frame_again(&self, alloc: Global) -> Option<Pulsed>
        requires rests { IsTrue self.now.rests }
        ensures drawn { IfSome result (λ pulsed. (evaluated : ℕ) → IsDoneWithin
            (IsDrawn self.now.stage self.now.stage (last_frame self.now.renderer) (last_frame self.now.renderer)
            (pulsed_as self.now.renderer pulsed)) evaluated evaluated) }
        ensures small { IfSome result (λ pulsed. All IsSmallRect pulsed.frame.damage.items) }
        ensures work { IfSome result (λ pulsed. (count : Counted) →
            IsDrawWork self.now.stage self.now.renderer self.now.renderer pulsed.frame count count) }
        ensures quiet { IfSome result (λ pulsed. pulsed.told.notices ≡ nothing_told) }
    {
        let frame = self.renderer.again(alloc, self.stage.window())?;
        if !is_shown(&self.renderer, frame.damage.as_slice()) {
            return None;
        }
        Some(Pulsed {
            frame,
            told: told_nobody(alloc),
        })
    }
}

/// No size was another.
fn told_nobody(alloc: Global) -> Published
    ensures { result.notices ≡ nothing_told }
{
    Published {
        notices: Notices {
            added: None,
            invalid: List::new(alloc),
            changed: List::new(alloc),
        },
        is_new: false,
    }
}

/// Tells of the sizes that were published, and has the listeners that were told run their actions.
fn tell<L: Ledgers>(
    alloc: Global,
    stage: &mut Stage,
    number: u32,
    notices: &Notices,
    trace: &mut Trace,
    work: &mut Work<L>,
) -> Result<(), AllocError>
    ensures settled { OnOk result (IsDoneWithin (IsSettledWhole number (course_behind stage.old notices.now)
        (course_of stage.new trace.new)) work.old.evaluated work.new.evaluated) }
    ensures others { work.new ≡ record work.old { evaluated = work.new.evaluated } }
{
    trace.clear();
    print_told(alloc, stage, notices, trace)?;
    settle(alloc, stage, number, trace, work)
}

/// Draws the present scene, and publishes the sizes of its nodes.
fn drawn<L: Ledgers>(
    alloc: Global,
    stage: &mut Stage,
    renderer: &mut Renderer,
    work: &mut Work<L>,
) -> Result<Pulsed, AllocError>
    ensures drawn { IfOk result (λ pulsed.
        IsDoneWithin (IsDrawn stage.old stage.new (last_frame renderer.old) (last_frame renderer.new)
        (pulsed_as renderer.new pulsed)) work.old.evaluated work.new.evaluated) }
    ensures small { IfOk result (λ pulsed. All IsSmallRect pulsed.frame.damage.items) }
    ensures work { IfOk result (λ pulsed. IsDrawWork stage.old renderer.old renderer.new pulsed.frame
        (counted work.old.styled work.old.laid work.old.painted)
        (counted work.new.styled work.new.laid work.new.painted)) }
    ensures still { IfOk result (λ pulsed. pulsed.told.is_new ≡ false → IsAtRest stage.new renderer.new) }
    ensures quiet { IfOk result (λ pulsed. pulsed.told.is_new ≡ false → pulsed.told.notices ≡ nothing_told) }
{
    let mut facts = facts_in(renderer.take_spare(alloc));
    refresh_facts(alloc, stage, &mut facts, work)?;
    let frame = draw(alloc, renderer, facts, work)?;
    let window = (frame.width, frame.height);
    let told = publish_sizes(
        alloc,
        stage,
        window,
        renderer.kept().boxes(),
        renderer.rects(),
        work,
    )?;
    Ok(Pulsed { frame, told })
}

/// Draws the scene of these facts. One that can't be drawn counts as want of memory.
fn draw<L: Ledgers>(
    alloc: Global,
    renderer: &mut Renderer,
    facts: Facts,
    work: &mut Work<L>,
) -> Result<Frame, AllocError>
    ensures drawn { (world : World) → facts ≡ facts_of world
        → IfOk result (IsDrawnAs world renderer.old renderer.new) }
    ensures kept { OnOk result (boxes_in renderer.new.kept.last ≡ facts.boxes) }
    ensures once { OnOk result (AreOnce (sizes facts.boxes renderer.new.rects)) }
    ensures small { IfOk result (λ frame. All IsSmallRect frame.damage.items) }
    ensures width { IfOk result (λ frame. (surface_of renderer.new.canvas).width ≡ frame.width) }
    ensures height { IfOk result (λ frame. (surface_of renderer.new.canvas).height ≡ frame.height) }
    ensures work { (world : World) → facts ≡ facts_of world
        → IfOk result (λ frame. IsDrawWork world renderer.old renderer.new frame
        (counted work.old.styled work.old.laid work.old.painted)
        (counted work.new.styled work.new.laid work.new.painted)) }
    ensures evaluated { OnOk result (work.new.evaluated ≡ work.old.evaluated) }
{
    let window = facts.window;
    let scene = scene_in(facts);
    if !is_fit(alloc, scene.scene(), window)? {
        return Err(AllocError);
    }
    let frame = renderer.pulse(alloc, scene, window, work)?;
    if !is_shown(renderer, frame.damage.as_slice()) {
        return Err(AllocError);
    }
    Ok(frame)
}

/// Whether there is a canvas of a frame's size, and all of the rectangles lie in it.
fn is_shown(renderer: &Renderer, rects: &[Rect]) -> bool
    ensures some { IsTrue result → IsSome renderer.now.canvas }
    ensures small { IsTrue result → All IsSmallRect rects.now }
    ensures drawable { IsTrue result → IfSome (last_frame renderer.now) IsDrawable }
{
    match renderer.canvas() {
        None => false,
        Some(canvas) => is_shown_on(renderer, canvas, rects),
    }
}

fn is_shown_on(renderer: &Renderer, canvas: &Canvas, rects: &[Rect]) -> bool
    requires { renderer.now.canvas ≡ Some canvas.now }
    ensures small { IsTrue result → All IsSmallRect rects.now }
    ensures drawable { IsTrue result → IfSome (last_frame renderer.now) IsDrawable }
{
    renderer.laws();
    if !has_frame_size(canvas) {
        return false;
    }
    canvas.laws();
    canvas.has_all(rects)
}

/// Has it the size of a frame: at least one pixel each way, and at most 2,048?
fn has_frame_size(canvas: &Canvas) -> bool
    ensures { result ≡ is_size canvas.now.width canvas.now.height }
{
    let (width, height) = (canvas.width(), canvas.height());
    (1 <= width && width <= MOST_PIXELS) && (1 <= height && height <= MOST_PIXELS)
}

/// Publishes the sizes of these nodes, and keeps the window.
fn publish_sizes<L: Ledgers>(
    alloc: Global,
    stage: &mut Stage,
    window: (u32, u32),
    boxes: &[BoxFacts],
    rects: &[Rect],
    work: &mut Work<L>,
) -> Result<Published, AllocError>
    requires once { AreOnce (sizes boxes.now rects.now) }
    ensures published { OnOk result (IsPublished window (sizes boxes.now rects.now) stage.old stage.new result) }
    ensures still { IfOk result (λ told. told.is_new ≡ false
        → IsStill window (sizes boxes.now rects.now) stage.old stage.new) }
    ensures few { OnOk result (work.new.evaluated
        ≤ work.old.evaluated + (sized (sizes boxes.now rects.now) stage.old).cost) }
    ensures others { work.new ≡ record work.old { evaluated = work.new.evaluated } }
{
    let sizes = sizes_of(alloc, boxes, rects)?;
    publish(alloc, stage, window, sizes.as_slice(), work)
}
