//! The image of a frame, row by row.
ghost use Rattle.std.specs.Prelude.{◌≡◌, ◌<◌, ◌++◌, IfOk, OnOk};
ghost use Rattle.std.specs.List.{flat_map};
ghost use Rattle.fx_frame_text.specs.Canvases.{AreTold, image_on};
ghost use Rattle.fx_frame_text.specs.Frames.{pixel_bytes, ppm_header, rows_in};
ghost use Rattle.fx_frame_text.specs.declared.forms.Form.TheVariants as form;
ghost use Rattle.fx_port.specs.Causes.{HasCause};
ghost use Rattle.fx_port.specs.Pieces.{Writes};
ghost use Rattle.fx_port.specs.declared.pieces.PutError.TheVariants.{Failed};

use fx_canvas::Canvas;
use fx_port::{PutError, Sink};
use std::alloc::{AllocError, Global};

/// Writes the rows' texts.
pub(crate) fn put_lines<O: Sink>(canvas: &Canvas, out: &mut O) -> Result<(), PutError>
    requires told { AreTold canvas.now }
    ensures cause { HasCause Failed (O.faults out.old) (O.faults out.new) result }
    ensures writes { Writes (O.written out.old) (O.written out.new) result
        (rows_in form.Text (image_on canvas.now)) }
{
    for y in 0..canvas.height() {
        out.put(canvas.text(y))?;
    }
    Ok(())
}

/// Writes the canvas as a binary Netpbm pixmap.
pub(crate) fn put_pixmap<O: Sink>(
    alloc: Global,
    canvas: &Canvas,
    out: &mut O,
) -> Result<(), PutError>
    ensures cause { HasCause Failed (O.faults out.old) (O.faults out.new) result }
    ensures writes { Writes (O.written out.old) (O.written out.new) result
        (ppm_header canvas.now.width canvas.now.height ++ rows_in form.Ppm (image_on canvas.now)) }
{
    let header = pixmap_header(alloc, canvas.width(), canvas.height())?;
    out.put(header.as_slice())?;
    put_pixels(alloc, canvas, out)
}

#[tactic(auto, unfolding(crate::specs::Frames::ppm_header))]
fn pixmap_header(alloc: Global, width: u32, height: u32) -> Result<Vec<u8>, AllocError>
    ensures { IfOk result (λ text. text.items ≡ ppm_header width height) }
{
    Ok(format!(in alloc; "P6\n{width} {height}\n255\n")?.into_bytes())
}

/// Writes the rows' pixels, from one buffer.
fn put_pixels<O: Sink>(alloc: Global, canvas: &Canvas, out: &mut O) -> Result<(), PutError>
    ensures cause { HasCause Failed (O.faults out.old) (O.faults out.new) result }
    ensures writes { Writes (O.written out.old) (O.written out.new) result
        (rows_in form.Ppm (image_on canvas.now)) }
{
    let mut bytes = Vec::new(alloc);
    for y in 0..canvas.height() {
        print_bytes(&mut bytes, canvas.row(y))?;
        out.put(bytes.as_slice())?;
    }
    Ok(())
}

/// Makes the bytes those of a row, which keep their room.
fn print_bytes(bytes: &mut Vec<u8>, row: &[u32]) -> Result<(), AllocError>
    ensures { OnOk result (bytes.new.items ≡ flat_map pixel_bytes row.now) }
{
    bytes.clear();
    for pixel in row {
        bytes.extend_from_slice(&pixel_bytes(*pixel))?;
    }
    Ok(())
}

fn pixel_bytes(pixel: u32) -> [u8; 3]
    ensures { result ≡ pixel_bytes pixel }
{
    [
        (pixel / 65536 % 256) as u8,
        (pixel / 256 % 256) as u8,
        (pixel % 256) as u8,
    ]
}
