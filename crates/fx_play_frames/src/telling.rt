//! What is written of a line.
ghost use Rattle.std.specs.Prelude.{◌≡◌, ◌≤◌, ◌^◌, ◌++◌, ℕ, All, IsSome, List, OnOk, Option, Some};
ghost use Rattle.fx_frame_text.specs.declared.forms.Form.{Form};
ghost use Rattle.fx_canvas_laws.specs.Frames.{Shows};
ghost use Rattle.fx_frame_text.specs.Canvases.{AreTold};
ghost use Rattle.fx_frame_text.specs.Frames.{Image, frame_text, image_of, pixel_sum};
ghost use Rattle.fx_frame_text.specs.Writers.{Follows};
ghost use Rattle.fx_picture.specs.Pixels.{pixel};
ghost use Rattle.fx_picture.specs.declared.entries.Entry.{Entry as Drawn};
ghost use Rattle.fx_plain_steps.specs.Told.{AreSmall};
ghost use Rattle.fx_pulse.specs.Rendering.{last_frame, surface_of};
ghost use Rattle.fx_pulse_model.specs.Frames.{Framed};
ghost use Rattle.fx_play_frames.specs.Games.{game_of, sight_of};
ghost use Rattle.fx_play_frames.specs.Takings.{HasFrame, IsAt, IsSmallRect, IsSmallTaken, frame_totals, image_last, last_behind, told_as, totals_in};
ghost use Rattle.fx_port.specs.Causes.{HasCause};
ghost use Rattle.fx_port.specs.Pieces.{Writes};
ghost use Rattle.fx_port.specs.declared.pieces.PutError.TheVariants.{Failed};

use crate::counting::{Counts, area_of};
use crate::game::Game;
use crate::taking::{Shown, Taken};
use fx_base::Rect;
use fx_canvas::Canvas;
use fx_frame_text::{FrameWriter, canvas_sum};
use fx_port::{PutError, Sink};
use fx_pulse::Renderer;
use std::alloc::Global;

/// Writes what is told of a line: the frame, if it made one, and then its own text. The writer stands behind the last
/// frame that was written.
pub fn put_told<O: Sink>(
    alloc: Global,
    writer: &mut FrameWriter,
    game: &mut Game,
    taken: &Taken,
    text: &[u8],
    out: &mut O,
) -> Result<(), PutError>
    requires frame { HasFrame (game_of game.old) taken.now }
    ensures same { game_of game.new ≡ game_of game.old }
    ensures sight { sight_of game.new ≡ sight_of game.old }
    ensures form { writer.new.form ≡ writer.old.form }
    ensures cause { HasCause Failed (O.faults out.old) (O.faults out.new) result }
    ensures writes { (last : Option Framed) → IsAt writer.old last
        → Writes (O.written out.old) (O.written out.new) result
        (told_as writer.old.form last (game_of game.old) taken.now text.now).text }
    ensures behind { (last : Option Framed) → IsAt writer.old last
        → OnOk result (IsAt writer.new (last_behind taken.now last (game_of game.old))) }
{
    match taken {
        Taken::Line(_) => out.put(text),
        Taken::Frame(shown) => game.put_shown(alloc, writer, shown.damage.as_slice(), text, out),
    }
}

impl Game {
    /// Writes the last frame with this damage, and a text behind it.
    fn put_shown<O: Sink>(
        &mut self,
        alloc: Global,
        writer: &mut FrameWriter,
        damage: &[Rect],
        text: &[u8],
        out: &mut O,
    ) -> Result<(), PutError>
        requires some { IsSome (game_of self.old).last }
        ensures same { game_of self.new ≡ game_of self.old }
        ensures sight { sight_of self.new ≡ sight_of self.old }
        ensures form { writer.new.form ≡ writer.old.form }
        ensures cause { HasCause Failed (O.faults out.old) (O.faults out.new) result }
        ensures writes { (last : Option Image) → Follows writer.old last
            → Writes (O.written out.old) (O.written out.new) result
            (frame_text writer.old.form self.old.frames last damage.now (image_last (game_of self.old).last)
            ++ text.now) }
        ensures behind { OnOk result (IsAt writer.new (game_of self.old).last) }
    {
        self.put_frame(alloc, writer, damage, out)?;
        out.put(text)
    }

    /// Writes the last frame with this damage.
    fn put_frame<O: Sink>(
        &mut self,
        alloc: Global,
        writer: &mut FrameWriter,
        damage: &[Rect],
        out: &mut O,
    ) -> Result<(), PutError>
        requires some { IsSome (game_of self.old).last }
        ensures same { game_of self.new ≡ game_of self.old }
        ensures sight { sight_of self.new ≡ sight_of self.old }
        ensures form { writer.new.form ≡ writer.old.form }
        ensures cause { HasCause Failed (O.faults out.old) (O.faults out.new) result }
        ensures writes { (last : Option Image) → Follows writer.old last
            → Writes (O.written out.old) (O.written out.new) result
            (frame_text writer.old.form self.old.frames last damage.now (image_last (game_of self.old).last)) }
        ensures behind { OnOk result (IsAt writer.new (game_of self.old).last) }
    {
        self.renderer.refresh()?;
        put_last(alloc, writer, self.frames, damage, &self.renderer, out)
    }

    /// What a line adds to the totals.
    pub fn counts(&self, taken: &Taken) -> Counts
        requires frame { HasFrame (game_of self.now) taken.now }
        requires small { IsSmallTaken taken.now }
        ensures totals { (form : Form) (last : Option Framed) (text : List ℕ) →
            totals_in result ≡ (told_as form last (game_of self.now) taken.now text).totals }
        ensures small { AreSmall (totals_in result) }
    {
        match taken {
            Taken::Line(notices) => Counts {
                notices: u128::from(*notices),
                ..Counts::NONE
            },
            Taken::Frame(shown) => self.counts_of(shown),
        }
    }
}

impl Game {
    /// What a frame adds to the totals.
    fn counts_of(&self, shown: &Shown) -> Counts
        requires some { IsSome (game_of self.now).last }
        requires small { All IsSmallRect shown.now.damage.items }
        ensures totals { totals_in result ≡ frame_totals (game_of self.now).last shown.now }
        ensures small { AreSmall (totals_in result) }
    {
        Counts {
            frames: 1,
            area: area_of(shown.damage.as_slice()),
            notices: u128::from(shown.notices),
            pixels: self.pixels(),
        }
    }

    /// All pixels of the last frame added up.
    fn pixels(&self) -> u128
        requires some { IsSome (game_of self.now).last }
        ensures sum { result ≡ pixel_sum (image_last (game_of self.now).last) }
        ensures small { result ≤ 2 ^ 54 }
    {
        self.renderer.laws();
        match self.renderer.canvas() {
            Some(canvas) => sum_of(canvas),
            None => 0,
        }
    }
}

/// All pixels that a canvas shows added up, whatever picture it shows.
fn sum_of(canvas: &Canvas) -> u128
    ensures sum { (picture : List Drawn) → Shows canvas.now picture
        → result ≡ pixel_sum (image_of canvas.now.width canvas.now.height (pixel picture)) }
    ensures small { result ≤ 2 ^ 54 }
{
    canvas.laws();
    canvas_sum(canvas)
}

/// Writes the frame of this number that a renderer shows, whose rows have their texts.
fn put_last<O: Sink>(
    alloc: Global,
    writer: &mut FrameWriter,
    number: u64,
    damage: &[Rect],
    renderer: &Renderer,
    out: &mut O,
) -> Result<(), PutError>
    requires some { IsSome renderer.now.canvas }
    requires told { AreTold (surface_of renderer.now.canvas) }
    ensures form { writer.new.form ≡ writer.old.form }
    ensures cause { HasCause Failed (O.faults out.old) (O.faults out.new) result }
    ensures writes { (last : Option Image) → Follows writer.old last
        → Writes (O.written out.old) (O.written out.new) result
        (frame_text writer.old.form number last damage.now (image_last (last_frame renderer.now))) }
    ensures behind { OnOk result (IsAt writer.new (last_frame renderer.now)) }
{
    renderer.laws();
    match renderer.canvas() {
        Some(canvas) => put_canvas(alloc, writer, number, damage, canvas, out),
        None => Ok(()),
    }
}

/// Writes the frame of this number that a canvas shows, whatever picture it shows.
fn put_canvas<O: Sink>(
    alloc: Global,
    writer: &mut FrameWriter,
    number: u64,
    damage: &[Rect],
    canvas: &Canvas,
    out: &mut O,
) -> Result<(), PutError>
    requires told { AreTold canvas.now }
    ensures form { writer.new.form ≡ writer.old.form }
    ensures cause { HasCause Failed (O.faults out.old) (O.faults out.new) result }
    ensures writes { (picture : List Drawn) (last : Option Image) → Shows canvas.now picture → Follows writer.old last
        → Writes (O.written out.old) (O.written out.new) result
        (frame_text writer.old.form number last damage.now
        (image_of canvas.now.width canvas.now.height (pixel picture))) }
    ensures behind { (picture : List Drawn) → Shows canvas.now picture
        → OnOk result (Follows writer.new (Some (image_of canvas.now.width canvas.now.height (pixel picture)))) }
{
    canvas.laws();
    writer.put(alloc, number, damage, canvas, out)
}
