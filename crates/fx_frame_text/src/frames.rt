//! What stands before the image of a frame.
ghost use Rattle.std.specs.Prelude.{◌≡◌, ◌++◌, IfOk, OnOk};
ghost use Rattle.std.specs.List.{flat_map};
ghost use Rattle.fx_frame_text.specs.Frames.{frame_head, head_line, rect_line};
ghost use Rattle.fx_port.specs.Causes.{HasCause};
ghost use Rattle.fx_port.specs.Pieces.{Writes};
ghost use Rattle.fx_port.specs.declared.pieces.PutError.TheVariants.{Failed};

use fx_base::Rect;
use fx_canvas::Canvas;
use fx_port::{PutError, Sink};
use std::alloc::{AllocError, Global};

/// Writes the line that tells the frame of this number, and a line for each rectangle of its damage.
pub(crate) fn put_head<O: Sink>(
    alloc: Global,
    number: u64,
    damage: &[Rect],
    canvas: &Canvas,
    out: &mut O,
) -> Result<(), PutError>
    ensures cause { HasCause Failed (O.faults out.old) (O.faults out.new) result }
    ensures writes { Writes (O.written out.old) (O.written out.new) result
        (frame_head number canvas.now.width canvas.now.height damage.now) }
{
    let head = head_text(alloc, number, canvas, damage)?;
    out.put(head.as_slice())
}

fn head_text(
    alloc: Global,
    number: u64,
    canvas: &Canvas,
    damage: &[Rect],
) -> Result<Vec<u8>, AllocError>
    ensures { IfOk result (λ text. text.items
        ≡ frame_head number canvas.now.width canvas.now.height damage.now) }
{
    let mut text = first_line(alloc, number, canvas.width(), canvas.height(), damage.len())?;
    put_rects(alloc, &mut text, damage)?;
    Ok(text)
}

#[tactic(auto, unfolding(crate::specs::Frames::head_line))]
fn first_line(
    alloc: Global,
    number: u64,
    width: u32,
    height: u32,
    count: usize,
) -> Result<Vec<u8>, AllocError>
    ensures { IfOk result (λ text. text.items ≡ head_line number width height count) }
{
    Ok(format!(in alloc; "frame {number} {width} {height} damage {count}\n")?.into_bytes())
}

fn put_rects(alloc: Global, text: &mut Vec<u8>, rects: &[Rect]) -> Result<(), AllocError>
    ensures { OnOk result (text.new.items ≡ text.old.items ++ flat_map rect_line rects.now) }
{
    for rect in rects {
        let line = rect_text(alloc, *rect)?;
        text.extend_from_slice(line.as_slice())?;
    }
    Ok(())
}

#[tactic(auto, unfolding(crate::specs::Frames::rect_line))]
fn rect_text(alloc: Global, rect: Rect) -> Result<Vec<u8>, AllocError>
    ensures { IfOk result (λ text. text.items ≡ rect_line rect) }
{
    let Rect { x, y, w, h } = rect;
    Ok(format!(in alloc; "{x} {y} {w} {h}\n")?.into_bytes())
}
