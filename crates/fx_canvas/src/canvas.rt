//! The canvas.
ghost use Rattle.std.specs.Prelude.{◌≡◌, ◌↔◌, ◌<◌, ◌≤◌, ◌+◌, ℕ, Err, IfOk, OnOk, false, true, length, replicate};
ghost use Rattle.std.specs.List.{list_all, sum_by};
ghost use Rattle.fx_base.specs.Pixel.{white};
ghost use Rattle.fx_canvas.specs.Painting.{is_met, most_writes, repainted, writes};
ghost use Rattle.fx_canvas.specs.Surfaces as spec;
ghost use Rattle.fx_canvas.specs.declared.canvas.CanvasError.TheVariants.{Memory};
ghost use Rattle.fx_row_text.specs.Rows.{row_text};

use crate::painting::repaint;
use crate::rows::Row;
use fx_base::{Ledgers, Rect, Work};
use fx_picture::{Bounds, Picture, bounds_of};
use std::alloc::{AllocError, Global};
use std::marker::Model;
use thiserror::Error;

/// The most columns and rows of a canvas.
const MOST: u32 = 2048;

/// The pixels of a window, row by row. Contracts see its size, and of each row the pixels and whether its text is
/// stale.
#[derive(Drop)]
pub struct Canvas {
    width: u32,
    height: u32,
    rows: Vec<Row>,
}

impl Model for Canvas {
    ghost use Rattle.fx_canvas.specs.Surfaces.{IsSurface, Surface};

    ghost Value = { Surface };

    ghost view = { λ c. record { width = c.width; height = c.height; rows = c.rows.items } };

    ghost invariant = { λ c. IsSurface (record { width = c.width; height = c.height; rows = c.rows.items }) };
}

/// Why there is no canvas.
#[derive(Debug, Drop, PartialEq, Eq, Error)]
pub enum CanvasError {
    /// The width or the height is 0 or more than 2,048.
    #[error("a canvas has 1 to 2048 columns and rows")]
    Size,
    #[error("out of memory")]
    Memory,
}

impl From<AllocError> for CanvasError {
    ghost from_gives = { λ _ e. e ≡ Memory };

    fn from(_e: AllocError) -> CanvasError {
        CanvasError::Memory
    }
}

impl Canvas {
    /// A white canvas of so many columns and rows.
    pub fn new(alloc: Global, w: u32, h: u32) -> Result<Canvas, CanvasError>
        ensures size { (result ≡ Err CanvasError.Size) ↔ (spec.is_size w h ≡ false) }
        ensures width { IfOk result (λ canvas. canvas.width ≡ w) }
        ensures height { IfOk result (λ canvas. canvas.height ≡ h) }
        ensures white { IfOk result (λ canvas. (x y : ℕ) → x < w → y < h → spec.pixel_at canvas.rows x y ≡ white) }
    {
        if !is_size(w, h) {
            return Err(CanvasError::Size);
        }
        let rows = white_rows(alloc, w as usize, h as usize)?;
        Ok(Canvas {
            width: w,
            height: h,
            rows,
        })
    }

    /// Promises on its rows: there are as many as it is high, each as long as it is wide, and each pixel is of three
    /// bytes.
    pub fn laws(&self)
        ensures { spec.IsSurface self.now }
    {
        let _width = self.width;
    }

    /// How many columns it has.
    pub fn width(&self) -> u32
        ensures value { result ≡ self.now.width }
        ensures narrow { result ≤ 2048 }
    {
        self.width
    }

    /// How many rows it has.
    pub fn height(&self) -> u32
        ensures value { result ≡ self.now.height }
        ensures low { result ≤ 2048 }
    {
        self.height
    }

    /// Whether all of the rectangles lie within the canvas, so that they can be painted anew.
    pub fn has_all(&self, rects: &[Rect]) -> bool
        ensures { result ≡ list_all (spec.lies_in self.now.width self.now.height) rects.now }
    {
        rects
            .iter()
            .all(|rect| lies_in(*rect, self.width, self.height))
    }

    /// Paints the rectangles anew: whitens each, and lays each shape of the picture over it in order. Each pixel that
    /// is written is counted; rows that no rectangle meets stay as they are, with their texts.
    pub fn repaint<L: Ledgers>(&mut self, picture: &Picture, damage: &[Rect], work: &mut Work<L>)
        requires { list_all (spec.lies_in self.old.width self.old.height) damage.now ≡ true }
        ensures width { self.new.width ≡ self.old.width }
        ensures height { self.new.height ≡ self.old.height }
        ensures pixels { (x y : ℕ) → x < self.old.width → y < self.old.height → spec.pixel_at self.new.rows x y
            ≡ repainted picture.now.entries damage.now x y (spec.pixel_at self.old.rows x y) }
        ensures kept { (y : ℕ) → is_met damage.now y ≡ false
            → spec.row_at self.new.rows y ≡ spec.row_at self.old.rows y }
        ensures work { work.new ≡ record work.old {
          painted = work.old.painted + sum_by (writes picture.now.entries) damage.now;
        } }
        ensures bound { work.new.painted ≤ work.old.painted + sum_by (most_writes picture.now.entries) damage.now }
    {
        repaint(
            self.rows.as_mut_slice(),
            damage,
            picture.entries.as_slice(),
            &mut work.painted,
        );
    }

    /// The pixels of a row, each 0x00RRGGBB, counted from the top.
    pub fn row(&self, y: u32) -> &[u32]
        requires { y < self.now.height }
        ensures pixels { result.now ≡ (spec.row_at self.now.rows y).pixels }
        ensures long { length result.now ≡ self.now.width }
        ensures narrow { length result.now ≤ 2048 }
    {
        self.rows[y as usize].pixels()
    }

    /// Prints each row whose text is stale. Want of memory leaves some stale, and nothing else.
    pub fn refresh(&mut self) -> Result<(), AllocError>
        ensures fresh { OnOk result ((y : ℕ) → y < self.old.height → (spec.row_at self.new.rows y).stale ≡ false) }
        ensures pixels { (y : ℕ) → (spec.row_at self.new.rows y).pixels ≡ (spec.row_at self.old.rows y).pixels }
        ensures width { self.new.width ≡ self.old.width }
        ensures height { self.new.height ≡ self.old.height }
    {
        refresh_all(self.rows.as_mut_slice())
    }

    /// The text of a row, six hexadecimal digits a pixel, with a line feed.
    pub fn text(&self, y: u32) -> &[u8]
        requires within { y < self.now.height }
        requires fresh { (spec.row_at self.now.rows y).stale ≡ false }
        ensures { result.now ≡ row_text (spec.row_at self.now.rows y).pixels }
    {
        self.rows[y as usize].text()
    }
}

fn is_size(w: u32, h: u32) -> bool
    ensures { result ≡ spec.is_size w h }
{
    1 <= w && w <= MOST && 1 <= h && h <= MOST
}

fn lies_in(rect: Rect, width: u32, height: u32) -> bool
    ensures { result ≡ spec.lies_in width height rect }
{
    encloses(window(width, height), bounds_of(rect))
}

fn window(width: u32, height: u32) -> Bounds
    ensures { result ≡ spec.window width height }
{
    Bounds {
        min_x: 0,
        min_y: 0,
        max_x: i128::from(width),
        max_y: i128::from(height),
    }
}

fn encloses(outer: Bounds, inner: Bounds) -> bool
    ensures { result ≡ spec.encloses outer inner }
{
    begins(outer, inner) && ends(outer, inner)
}

fn begins(outer: Bounds, inner: Bounds) -> bool
    ensures { result ≡ spec.begins outer inner }
{
    outer.min_x <= inner.min_x && outer.min_y <= inner.min_y
}

fn ends(outer: Bounds, inner: Bounds) -> bool
    ensures { result ≡ spec.ends outer inner }
{
    inner.max_x <= outer.max_x && inner.max_y <= outer.max_y
}

fn white_rows(alloc: Global, width: usize, height: usize) -> Result<Vec<Row>, AllocError>
    ensures { IfOk result (λ rows. rows.items ≡ replicate height (spec.white_line width)) }
{
    let mut rows = Vec::with_capacity(alloc, height)?;
    for _ in 0..height {
        rows.push(Row::new(alloc, width)?)?;
    }
    Ok(rows)
}

fn refresh_all(rows: &mut [Row]) -> Result<(), AllocError>
    ensures fresh { OnOk result ((y : ℕ) → y < length rows.old → (spec.row_at rows.new y).stale ≡ false) }
    ensures pixels { (y : ℕ) → (spec.row_at rows.new y).pixels ≡ (spec.row_at rows.old y).pixels }
{
    if rows.is_empty() {
        return Ok(());
    }
    rows[0].refresh()?;
    for y in 1..rows.len() {
        let (above, below) = rows.split_at_mut(y);
        below[0].refresh_below(&above[y - 1])?;
    }
    Ok(())
}
