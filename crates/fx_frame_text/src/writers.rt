//! Frames that are written one after another.
ghost use Rattle.std.specs.Prelude.{◌≡◌, ◌++◌, None, OnOk, Option, Some};
ghost use Rattle.fx_frame_text.specs.Canvases.{IsFresh, image_on};
ghost use Rattle.fx_frame_text.specs.Frames.{Image, frame_text, image_text};
ghost use Rattle.fx_frame_text.specs.Writers.{Follows};
ghost use Rattle.fx_port.specs.Causes.{HasCause};
ghost use Rattle.fx_port.specs.Pieces.{Writes};
ghost use Rattle.fx_port.specs.declared.pieces.PutError.TheVariants.{Failed};

use crate::changes::put_changes;
use crate::forms::Form;
use crate::frames::put_head;
use crate::images::{put_lines, put_pixmap};
use fx_base::Rect;
use fx_canvas::Canvas;
use fx_delta::View;
use fx_port::{PutError, Sink};
use std::alloc::Global;

/// Writes frames one after another, the images of all in one form.
#[derive(Drop)]
pub struct FrameWriter {
    pub(crate) form: Form,
    /// What a viewer of the frames shows, where only changes are written.
    pub(crate) view: View,
}

impl FrameWriter {
    /// Before the first frame.
    pub fn new(alloc: Global, form: Form) -> FrameWriter
        ensures form { result.form ≡ form }
        ensures first { Follows result None }
    {
        FrameWriter {
            form,
            view: View::new(alloc),
        }
    }

    /// Writes the frame of this number: the line that tells it, a line for each rectangle of its damage, and what the
    /// canvas shows. Rows of text are those that the canvas keeps, so none of them may be stale.
    pub fn put<O: Sink>(
        &mut self,
        alloc: Global,
        number: u64,
        damage: &[Rect],
        canvas: &Canvas,
        out: &mut O,
    ) -> Result<(), PutError>
        requires fresh { IsFresh self.old.form canvas.now }
        ensures form { self.new.form ≡ self.old.form }
        ensures cause { HasCause Failed (O.faults out.old) (O.faults out.new) result }
        ensures writes { (last : Option Image) → Follows self.old last
            → Writes (O.written out.old) (O.written out.new) result
            (frame_text self.old.form number last damage.now (image_on canvas.now)) }
        ensures follows { OnOk result (Follows self.new (Some (image_on canvas.now))) }
    {
        put_head(alloc, number, damage, canvas, out)?;
        self.put_image(alloc, damage, canvas, out)
    }

    /// Writes what the canvas shows.
    fn put_image<O: Sink>(
        &mut self,
        alloc: Global,
        damage: &[Rect],
        canvas: &Canvas,
        out: &mut O,
    ) -> Result<(), PutError>
        requires fresh { IsFresh self.old.form canvas.now }
        ensures form { self.new.form ≡ self.old.form }
        ensures cause { HasCause Failed (O.faults out.old) (O.faults out.new) result }
        ensures writes { (last : Option Image) → Follows self.old last
            → Writes (O.written out.old) (O.written out.new) result
            (image_text self.old.form last damage.now (image_on canvas.now)) }
        ensures follows { OnOk result (Follows self.new (Some (image_on canvas.now))) }
    {
        match self.form {
            Form::Text => put_lines(canvas, out),
            Form::Ppm => put_pixmap(alloc, canvas, out),
            Form::Nothing => Ok(()),
            Form::Delta => put_changes(alloc, &mut self.view, damage, canvas, out),
        }
    }
}
