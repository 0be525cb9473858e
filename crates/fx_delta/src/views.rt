//! A view: the picture that a viewer shows, and which pixels are sent to it.
//! A player begins each frame here and sends its damaged rows; what is written goes to a stream.
ghost use Rattle.std.specs.Prelude.{◌≡◌, ◌↔◌, ◌≤◌, ◌<◌, ◌+◌, ◌-◌, ◌*◌, ◌++◌, ◌∷◌, [], Err, IfOk, OnOk, OnErr, false, not, length, take, drop, replicate, if◌then◌else◌};
ghost use Rattle.fx_base.specs.Pixel.{white};
ghost use Rattle.fx_text.specs.Characters.{line_feed};
ghost use Rattle.fx_delta.specs.Lines.{item_line};
ghost use Rattle.fx_delta.specs.Pictures as spec;
ghost use Rattle.fx_row_text.specs.Appending.{Appends};
ghost use Rattle.fx_delta.specs.declared.views.ViewError.TheVariants.{Memory};

use crate::rows::item_text;
use fx_lanes::equal;
use fx_row_text::append_row;
use std::alloc::{AllocError, Global};
use std::marker::Model;
use thiserror::Error;

/// The most columns and rows of a picture.
pub const MOST: u32 = 2048;

/// A pixel that nothing was sent for, as 0x00RRGGBB.
const WHITE: u32 = 0x00ff_ffff;

/// The picture that a viewer shows after what was sent so far. Contracts see its size and its pixels row by row.
#[derive(Drop)]
pub struct View {
    width: u32,
    height: u32,
    pixels: Vec<u32>,
}

impl Model for View {
    ghost use Rattle.fx_delta.specs.Pictures.{Picture, IsPicture};

    ghost Value = { Picture };

    ghost view = { λ v. record { width = v.width; height = v.height; pixels = v.pixels.items } };

    ghost invariant = { λ v. IsPicture (record { width = v.width; height = v.height; pixels = v.pixels.items }) };
}

/// Why a frame can't begin.
#[derive(Debug, Drop, PartialEq, Eq, Error)]
pub enum ViewError {
    /// The width or the height is 0 or more than 2,048.
    #[error("a picture has 1 to 2048 columns and rows")]
    Size,
    #[error("out of memory")]
    Memory,
}

impl From<AllocError> for ViewError {
    ghost from_gives = { λ _ e. e ≡ Memory };

    fn from(_e: AllocError) -> ViewError {
        ViewError::Memory
    }
}

/// Can a picture have so many columns and rows?
pub fn is_size(width: u32, height: u32) -> bool
    ensures { result ≡ spec.is_size width height }
{
    1 <= width && width <= MOST && 1 <= height && height <= MOST
}

impl View {
    /// A view before its first frame.
    pub fn new(alloc: Global) -> View
        ensures { result ≡ spec.no_picture }
    {
        View {
            width: 0,
            height: 0,
            pixels: Vec::new(alloc),
        }
    }

    /// Begins a frame of so many columns and rows. The picture is white where its size changes.
    pub fn begin(&mut self, alloc: Global, w: u32, h: u32) -> Result<(), ViewError>
        ensures ok { OnOk result (self.new ≡ spec.begun w h self.old) }
        ensures size { (result ≡ Err ViewError.Size) ↔ (spec.is_size w h ≡ false) }
        ensures err { OnErr result (self.new ≡ self.old) }
    {
        if !is_size(w, h) {
            return Err(ViewError::Size);
        }
        if self.width == w && self.height == h {
            return Ok(());
        }
        self.pixels = white_pixels(alloc, w, h)?;
        self.width = w;
        self.height = h;
        Ok(())
    }

    /// Shows the pixels, as 0x00RRGGBB, from column `x` of row `y` on. Appends the row item, with its line feed,
    /// exactly where they differ from what the view shows there, and answers whether it did.
    pub fn send(
        &mut self,
        alloc: Global,
        x: u32,
        y: u32,
        pixels: &[u32],
        out: &mut Vec<u8>,
    ) -> Result<bool, AllocError>
        requires some { 1 ≤ length pixels.now }
        requires within { spec.Lies self.old x y (length pixels.now) }
        ensures sent { IfOk result (λ sent. sent ≡ not (spec.shows self.old x y pixels.now)) }
        ensures out { IfOk result (λ sent. out.new.items ≡ out.old.items ++ (if sent
            then item_line (record { x = x; y = y; pixels = pixels.now }) ++ line_feed ∷ [] else [])) }
        ensures shown { OnOk result (self.new ≡ spec.with_pixels self.old x y pixels.now) }
        ensures err { OnErr result ((self.new ≡ self.old) × (out.new.items ≡ out.old.items)) }
    {
        if self.shows(x, y, pixels) {
            return Ok(false);
        }
        let text = item_text(alloc, x, y, pixels)?;
        out.extend_from_slice(text.as_slice())?;
        self.put(x, y, pixels);
        Ok(true)
    }

    /// The pixels of a row, counted from the top.
    pub fn row(&self, y: u32) -> &[u32]
        requires { y < self.now.height }
        ensures { result.now ≡ spec.row_of self.now y }
    {
        let start = self.start_of(0, y);
        &self.pixels[start..start + self.width as usize]
    }

    /// Shows the pixels from column `x` of row `y` on, and sends nothing.
    pub fn put(&mut self, x: u32, y: u32, pixels: &[u32])
        requires { spec.Lies self.old x y (length pixels.now) }
        ensures { self.new ≡ spec.with_pixels self.old x y pixels.now }
    {
        let start = self.start_of(x, y);
        replace(self.pixels.as_mut_slice(), start, pixels);
    }

    /// Whether so many pixels from column `x` of row `y` on lie within the picture.
    pub fn holds(&self, x: u32, y: u32, count: usize) -> bool
        ensures { result ≡ spec.lies self.now x y count }
    {
        y < self.height && x <= self.width && count <= (self.width - x) as usize
    }

    /// What is true of every view: it has as many pixels as its size says, and no more than 2,048 columns and rows.
    pub fn laws(&self)
        ensures full { length self.now.pixels ≡ self.now.height * self.now.width }
        ensures narrow { self.now.width ≤ 2048 }
        ensures low { self.now.height ≤ 2048 }
    {
        let _width = self.width;
    }

    /// Appends all rows as text.
    pub(crate) fn print(&self, out: &mut Vec<u8>) -> Result<(), AllocError>
        ensures { Appends out.old.items out.new.items result (spec.image self.now) }
    {
        for y in 0..self.height {
            append_row(out, self.row(y))?;
        }
        Ok(())
    }

    fn shows(&self, x: u32, y: u32, pixels: &[u32]) -> bool
        requires { spec.Lies self.now x y (length pixels.now) }
        ensures { result ≡ spec.shows self.now x y pixels.now }
    {
        let start = self.start_of(x, y);
        equal(&self.pixels[start..start + pixels.len()], pixels)
    }

    /// Where a pixel stands.
    fn start_of(&self, x: u32, y: u32) -> usize
        requires across { x ≤ self.now.width }
        requires down { y < self.now.height }
        ensures start { result ≡ spec.start_of self.now x y }
        ensures room { result + (self.now.width - x) ≤ length self.now.pixels }
    {
        y as usize * self.width as usize + x as usize
    }
}

fn white_pixels(alloc: Global, width: u32, height: u32) -> Result<Vec<u32>, AllocError>
    requires narrow { width ≤ 2048 }
    requires low { height ≤ 2048 }
    ensures { IfOk result (λ pixels. pixels.items ≡ replicate (height * width) white) }
{
    vec![in alloc; WHITE; height as usize * width as usize]
}

fn replace(all: &mut [u32], start: usize, pixels: &[u32])
    requires { start + length pixels.now ≤ length all.old }
    ensures { all.new ≡ take start all.old ++ (pixels.now ++ drop (start + length pixels.now) all.old) }
{
    all[start..start + pixels.len()].copy_from_slice(pixels);
}
