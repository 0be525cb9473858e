//! The rows of a frame that a viewer doesn't show yet.
ghost use Rattle.std.specs.Prelude.{◌≡◌, ◌≤◌, ◌+◌, ◌-◌, ◌++◌, codes, drop, length, min, take, IfOk, OnOk};
ghost use Rattle.fx_delta.specs.Items.{item_text, items_text, with_items};
ghost use Rattle.fx_delta.specs.Pictures.{Lies, with_pixels};
ghost use Rattle.fx_frame_text.specs.Canvases.{image_on};
ghost use Rattle.fx_frame_text.specs.Frames.{changes_text, picture_of, rect_items};
ghost use Rattle.fx_picture.specs.Shapes.{whole};
ghost use Rattle.fx_port.specs.Causes.{HasCause};
ghost use Rattle.fx_port.specs.Pieces.{Writes};
ghost use Rattle.fx_port.specs.declared.pieces.PutError.TheVariants.{Failed};

use fx_base::Rect;
use fx_canvas::Canvas;
use fx_delta::View;
use fx_port::{PutError, Sink};
use std::alloc::{AllocError, Global};

/// Writes the rows of the damage that the view doesn't show, and `endframe`. The view then shows what the canvas shows.
pub(crate) fn put_changes<O: Sink>(
    alloc: Global,
    view: &mut View,
    damage: &[Rect],
    canvas: &Canvas,
    out: &mut O,
) -> Result<(), PutError>
    ensures cause { HasCause Failed (O.faults out.old) (O.faults out.new) result }
    ensures writes { Writes (O.written out.old) (O.written out.new) result
        (changes_text view.old damage.now (image_on canvas.now) ++ codes "endframe\n") }
    ensures shown { OnOk result (view.new ≡ picture_of (image_on canvas.now)) }
{
    let text = changes_text(alloc, view, damage, canvas)?;
    show_all(view, canvas);
    out.put(text.as_slice())
}

/// The rows of the damage that the view doesn't show, and `endframe`. The view shows the frame from then on.
fn changes_text(
    alloc: Global,
    view: &mut View,
    damage: &[Rect],
    canvas: &Canvas,
) -> Result<Vec<u8>, AllocError>
    ensures text { IfOk result (λ text. text.items
        ≡ changes_text view.old damage.now (image_on canvas.now) ++ codes "endframe\n") }
    ensures width { OnOk result (view.new.width ≡ canvas.now.width) }
    ensures height { OnOk result (view.new.height ≡ canvas.now.height) }
{
    let Ok(()) = view.begin(alloc, canvas.width(), canvas.height()) else {
        return Err(AllocError);
    };
    let mut text = Vec::new(alloc);
    for rect in damage {
        send_rect(alloc, view, *rect, canvas, &mut text)?;
    }
    text.extend_from_slice(b"endframe\n")?;
    Ok(text)
}

/// Sends the rows of a rectangle.
fn send_rect(
    alloc: Global,
    view: &mut View,
    rect: Rect,
    canvas: &Canvas,
    text: &mut Vec<u8>,
) -> Result<(), AllocError>
    requires width { view.old.width ≡ canvas.now.width }
    requires height { view.old.height ≡ canvas.now.height }
    ensures text { OnOk result (text.new.items
        ≡ text.old.items ++ items_text view.old (rect_items (image_on canvas.now) rect)) }
    ensures shown { OnOk result (view.new ≡ with_items view.old (rect_items (image_on canvas.now) rect)) }
{
    for y in top_of(rect)..bottom_of(rect, canvas.height()) {
        let row = y as u32;
        let pixels = part(canvas.row(row), left_of(rect), width_of(rect));
        send_row(alloc, view, left_of(rect), row, pixels, text)?;
    }
    Ok(())
}

fn left_of(rect: Rect) -> u64
    ensures { result ≡ whole rect.x }
{
    whole(rect.x)
}

fn width_of(rect: Rect) -> u64
    ensures { result ≡ whole rect.w }
{
    whole(rect.w)
}

fn top_of(rect: Rect) -> u64
    ensures { result ≡ whole rect.y }
{
    whole(rect.y)
}

/// The first row behind those of a rectangle that lie within this height.
fn bottom_of(rect: Rect, height: u32) -> u64
    ensures { result ≡ whole rect.y + min (whole rect.h) (height - whole rect.y) }
{
    let top = whole(rect.y);
    top + whole(rect.h).min(u64::from(height).saturating_sub(top))
}

/// So many pixels of a row from a column on, as far as it goes.
fn part(row: &[u32], x: u64, width: u64) -> &[u32]
    requires { length row.now ≤ 2048 }
    ensures part { result.now ≡ take width (drop x row.now) }
    ensures within { x ≤ length row.now → x + length result.now ≤ length row.now }
    ensures none { length row.now ≤ x → length result.now ≡ 0 }
{
    let start = x.min(row.len() as u64) as usize;
    let count = width.min((row.len() - start) as u64) as usize;
    &row[start..start + count]
}

/// Sends pixels of a row, if there are any.
fn send_row(
    alloc: Global,
    view: &mut View,
    x: u64,
    y: u32,
    pixels: &[u32],
    text: &mut Vec<u8>,
) -> Result<(), AllocError>
    requires within { 1 ≤ length pixels.now → Lies view.old x y (length pixels.now) }
    ensures text { OnOk result (text.new.items
        ≡ text.old.items ++ item_text view.old (record { x = x; y = y; pixels = pixels.now })) }
    ensures shown { OnOk result (view.new ≡ with_pixels view.old x y pixels.now) }
{
    if pixels.is_empty() {
        return Ok(());
    }
    view.laws();
    view.send(alloc, x as u32, y, pixels, text)?;
    Ok(())
}

/// A length as a number without a sign.
fn whole(length: i64) -> u64
    ensures { result ≡ whole length }
{
    length.max(0) as u64
}

/// The view shows what the canvas shows.
fn show_all(view: &mut View, canvas: &Canvas)
    requires width { view.old.width ≡ canvas.now.width }
    requires height { view.old.height ≡ canvas.now.height }
    ensures { view.new ≡ picture_of (image_on canvas.now) }
{
    view.laws();
    canvas.laws();
    for y in 0..canvas.height() {
        view.put(0, y, canvas.row(y));
    }
}
