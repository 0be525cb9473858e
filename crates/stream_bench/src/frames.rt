//! Frames of one entry that changes its colour and its place, in pictures as wide as high.
ghost use Rattle.std.specs.Prelude.{◌≡◌, ◌≤◌, ◌-◌, OnOk, length};

use anyhow::bail;
use fx_delta::{StreamError, View, Viewer};
use std::alloc::{AllocError, Global};

/// What was written.
#[derive(Clone, Copy)]
pub struct Told {
    pub bytes: u64,
    pub sum: u64,
}

impl Told {
    fn add(&mut self, bytes: &[u8]) {
        self.bytes = self.bytes.wrapping_add(bytes.len() as u64);
        for place in [64, bytes.len() / 3, bytes.len() / 2] {
            let byte = bytes.get(place).copied().unwrap_or(0);
            self.sum = self.sum.wrapping_mul(31).wrapping_add(u64::from(byte));
        }
    }
}

/// Where the entry of a frame stands: its first column and row, how wide it is and its colour. It is ten rows high.
#[derive(Clone, Copy)]
struct Entry {
    column: u32,
    row: u32,
    width: u32,
    color: u32,
}

fn entry_of(side: u32, frame: u32) -> Entry
    requires { 10 ≤ side }
{
    let step = frame % 10;
    Entry {
        column: step * (side / 10),
        row: step.saturating_mul(7) % (side - 9),
        width: side / 10,
        color: frame.wrapping_mul(2_654_435) % 16_777_216,
    }
}

/// All rows of each frame are sent, so all pixels are compared; few of them differ.
pub fn send_frames(alloc: Global, side: u32, frames: u32) -> anyhow::Result<Told>
    requires { 10 ≤ side }
{
    let mut told = Told { bytes: 0, sum: 0 };
    let mut view = View::new(alloc);
    let mut out = Vec::new(alloc);
    let mut pixels = vec![in alloc; 0x00ff_ffff; (side as usize).saturating_mul(side as usize)]?;
    for frame in 0..frames {
        paint(&mut pixels, side, entry_of(side, frame));
        view.begin(alloc, side, side)?;
        out.clear();
        send_rows(alloc, &mut view, side, pixels.as_slice(), &mut out)?;
        told.add(out.as_slice());
    }
    Ok(told)
}

fn paint(pixels: &mut Vec<u32>, side: u32, entry: Entry) {
    let Entry {
        column,
        row,
        width,
        color,
    } = entry;
    for y in row..row.saturating_add(10) {
        let first = (y as usize)
            .saturating_mul(side as usize)
            .saturating_add(column as usize);
        for at in first..first.saturating_add(width as usize) {
            if let Some(pixel) = pixels.get_mut(at) {
                *pixel = color;
            }
        }
    }
}

fn send_rows(
    alloc: Global,
    view: &mut View,
    side: u32,
    pixels: &[u32],
    out: &mut Vec<u8>,
) -> anyhow::Result<()>
    requires wide { view.old.width ≡ side }
    requires high { view.old.height ≡ side }
{
    for y in 0..side {
        let start = (y as usize).saturating_mul(side as usize);
        let Some(row) = pixels.get(start..start.saturating_add(side as usize)) else {
            bail!("a row is wanting");
        };
        send_row(alloc, view, side, (0, y), row, out)?;
    }
    Ok(())
}

/// Sends pixels from a column of a row on.
fn send_row(
    alloc: Global,
    view: &mut View,
    side: u32,
    at: (u32, u32),
    row: &[u32],
    out: &mut Vec<u8>,
) -> anyhow::Result<()>
    requires wide { view.old.width ≡ side }
    requires high { view.old.height ≡ side }
    ensures wide { view.new.width ≡ view.old.width }
    ensures high { view.new.height ≡ view.old.height }
{
    let (x, y) = at;
    if row.is_empty() || x > side || row.len() > (side - x) as usize || y >= side {
        bail!("a row doesn't lie within the picture");
    }
    view.send(alloc, x, y, row, out)?;
    Ok(())
}

/// The frames are shown by a viewer, with their row items or without.
pub fn show_frames(alloc: Global, side: u32, frames: u32, with_items: bool) -> anyhow::Result<Told>
    requires low { 10 ≤ side }
    requires high { side ≤ 2048 }
{
    let mut told = Told { bytes: 0, sum: 0 };
    let mut viewer = Viewer::new(alloc);
    let mut out = Vec::new(alloc);
    for frame in 0..frames {
        let stream = stream(alloc, side, frame)?;
        out.clear();
        for line in stream.as_str().lines() {
            if with_items || !line.starts_with("row") {
                take(alloc, &mut viewer, line, &mut out)?;
            }
        }
        told.add(out.as_slice());
    }
    Ok(told)
}

fn take(alloc: Global, viewer: &mut Viewer, line: &str, out: &mut Vec<u8>) -> anyhow::Result<()> {
    match viewer.take(alloc, line.as_bytes(), out) {
        Ok(()) => Ok(()),
        Err(StreamError::Bad) => bail!("a bad line"),
        Err(StreamError::Memory) => bail!("out of memory"),
    }
}

/// The lines of a frame whose entry is sent.
fn stream(alloc: Global, side: u32, frame: u32) -> Result<String, AllocError>
    requires { 10 ≤ side }
{
    let Entry {
        column,
        row,
        width,
        color,
    } = entry_of(side, frame);
    let number = u64::from(frame).saturating_add(1);
    let mut text = format!(in alloc;
        "frame {number} {side} {side} damage 1\n{column} {row} {width} 10\n"
    )?;
    for y in 0..10 {
        let line = row.saturating_add(y);
        text.push_str(format!(in alloc; "row {column} {line}")?.as_str())?;
        for _ in 0..width {
            text.push_str(format!(in alloc; " {color:06x}")?.as_str())?;
        }
        text.push_str("\n")?;
    }
    text.push_str("endframe\n")?;
    Ok(text)
}
