//! One window: its canvas, the last picture, and the entries of the one that is being read.
ghost use Rattle.std.specs.Prelude.{◌≡◌, None, IsTrue, false};
ghost use Rattle.fx_picture.specs.Entries.{HasDistinctBirths, entry_with};

use anyhow::bail;
use fx_base::{Ledgers, List, Rect, Work};
use fx_canvas::Canvas;
use fx_damage::damage;
use fx_picture::{Entry, Picture};
use std::alloc::{AllocError, Global};
use std::mem::replace;

#[derive(Drop)]
pub struct Frames {
    canvas: Canvas,
    last: Option<Picture>,
    entries: Vec<Entry>,
}

impl Frames {
    pub fn new(alloc: Global, width: u32, height: u32) -> anyhow::Result<Frames> {
        Ok(Frames {
            canvas: Canvas::new(alloc, width, height)?,
            last: None,
            entries: Vec::new(alloc),
        })
    }

    pub fn add(&mut self, entry: Entry) -> anyhow::Result<()> {
        self.entries.push(entry)?;
        Ok(())
    }

    /// Paints what changed since the last picture, and answers the line that tells it.
    pub fn show<L: Ledgers>(
        &mut self,
        alloc: Global,
        work: &mut Work<L>,
    ) -> anyhow::Result<String> {
        let entries = replace(&mut self.entries, Vec::new(alloc));
        let picture = Picture {
            entries: List::from_vec(entries),
        };
        let told = self.paint(alloc, &picture, work);
        self.last = Some(picture);
        told
    }

    fn paint<L: Ledgers>(
        &mut self,
        alloc: Global,
        picture: &Picture,
        work: &mut Work<L>,
    ) -> anyhow::Result<String> {
        let rects = changed(alloc, self.last.as_ref(), picture, &self.canvas)?;
        if !self.canvas.has_all(rects.as_slice()) {
            bail!("a rectangle lies outside the window");
        }
        self.canvas.repaint(picture, rects.as_slice(), work);
        text_of(alloc, rects.as_slice(), checksum(&self.canvas))
    }
}

fn changed(
    alloc: Global,
    last: Option<&Picture>,
    picture: &Picture,
    canvas: &Canvas,
) -> anyhow::Result<Vec<Rect>> {
    if !are_distinct(picture.entries.as_slice()) {
        bail!("two nodes have one birth number");
    }
    let (width, height) = (canvas.width(), canvas.height());
    let Some(last) = last else {
        return Ok(damage(alloc, None, picture, width, height)?);
    };
    if !are_distinct(last.entries.as_slice()) {
        bail!("two nodes have one birth number");
    }
    Ok(damage(alloc, Some(last), picture, width, height)?)
}

/// Whether no two entries have one birth number.
fn are_distinct(entries: &[Entry]) -> bool
    ensures { IsTrue result → HasDistinctBirths entries.now }
{
    match entries {
        [] => true,
        [first, rest @ ..] => is_without(rest, first.key.birth) && are_distinct(rest),
    }
}

fn is_without(entries: &[Entry], birth: u32) -> bool
    ensures { IsTrue result → entry_with birth entries.now ≡ None }
{
    match entries {
        [] => true,
        [first, rest @ ..] => first.key.birth != birth && is_without(rest, birth),
    }
}

fn text_of(alloc: Global, rects: &[Rect], sum: u32) -> anyhow::Result<String> {
    let mut text = String::new(alloc);
    match push_all(&mut text, rects, sum) {
        Ok(()) => Ok(text),
        Err(error) => Err(error.into()),
    }
}

fn push_all(text: &mut String, rects: &[Rect], sum: u32) -> Result<(), AllocError> {
    for rect in rects {
        write!(text, "{} {} {} {}|", rect.x, rect.y, rect.w, rect.h)?;
    }
    write!(text, " {sum}")
}

fn checksum(canvas: &Canvas) -> u32 {
    let mut sum = 0u32;
    for y in 0..canvas.height() {
        for pixel in canvas.row(y) {
            sum = sum.wrapping_mul(31).wrapping_add(*pixel);
        }
    }
    sum
}
