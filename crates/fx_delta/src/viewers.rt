//! A viewer: takes a stream line by line, and shows the picture of each frame as text.
//! It stands between the reader of lines and the view that holds the picture.
ghost use Rattle.std.specs.Prelude.{ℕ, List, Option, ◌≡◌, ◌↔◌, ◌++◌, ◌∷◌, [], Some, None, OnOk, OnErr, IsErr, IsErrOf, IsOkAnd, IsTrue, IsNone, codes, suc};
ghost use Rattle.std.specs.Str.{bytes_eq};
ghost use Rattle.fx_text.specs.Characters.{line_feed};
ghost use Rattle.fx_delta.specs.Lines.{Item, frame_in, words};
ghost use Rattle.fx_row_text.specs.Appending.{Appends};
ghost use Rattle.fx_delta.specs.Reading.{IsFound, Takes};
ghost use Rattle.fx_delta.specs.declared.viewers.StreamError.TheVariants.{Bad, Memory};

use crate::lines::{FoundItem, Frame, is_rectangle, read_frame, read_item};
use crate::views::{View, ViewError};
use std::alloc::{AllocError, AllocFailed, Global};
use std::marker::Model;
use thiserror::Error;

/// The picture that is shown, and where in a frame the stream stands: `left` is how many rectangles are still to
/// come, or `None` between two frames.
#[derive(Drop)]
pub struct Viewer {
    view: View,
    left: Option<u32>,
}

impl Model for Viewer {
    ghost use Rattle.fx_delta.specs.Stream.{Screen};

    ghost Value = { Screen };

    ghost view = { λ v. record { picture = v.view; left = v.left } };
}

/// Why a line isn't taken.
#[derive(Debug, Drop, PartialEq, Eq, Error)]
pub enum StreamError {
    /// The line may not stand there: `frame 1 02 1 damage 0`, or a row item that reaches past the picture.
    #[error("a line that may not stand there")]
    Bad,
    #[error("out of memory")]
    Memory,
}

impl From<AllocError> for StreamError {
    ghost from_gives = { λ _ e. e ≡ Memory };

    fn from(_e: AllocError) -> StreamError {
        StreamError::Memory
    }
}

impl<T: Drop> From<AllocFailed<T>> for StreamError {
    ghost from_gives = { λ _ e. e ≡ Memory };

    fn from(_e: AllocFailed<T>) -> StreamError {
        StreamError::Memory
    }
}

impl Viewer {
    ghost use Rattle.fx_delta.specs.Stream.{after_frame, after_item, after_line, after_line_at, first_screen};

    /// A viewer before the first line.
    pub fn new(alloc: Global) -> Viewer
        ensures { result ≡ first_screen }
    {
        Viewer {
            view: View::new(alloc),
            left: None,
        }
    }

    /// Takes one line, which is given without its line feed, and appends what is written for it.
    #[tactic(auto, unfolding(crate::specs::Stream::after_line))]
    pub fn take(&mut self, alloc: Global, line: &[u8], out: &mut Vec<u8>) -> Result<(), StreamError>
        ensures ok { OnOk result (IsOkAnd (after_line self.old line.now) (λ step.
            (self.new ≡ step.screen) × (out.new.items ≡ out.old.items ++ step.written))) }
        // So a bad line is never taken, and is told as such unless memory is wanting.
        ensures bad { IsErrOf result StreamError.Bad → IsErr (after_line self.old line.now) }
        ensures err { OnErr result ((self.new ≡ self.old) × (out.new.items ≡ out.old.items)) }
    {
        let before = out.len();
        match self.take_line(alloc, line, out) {
            Ok(()) => Ok(()),
            Err(error) => {
                out.truncate(before);
                Err(error)
            }
        }
    }

    /// Is no frame open?
    pub fn is_between(&self) -> bool
        ensures { IsTrue result ↔ IsNone self.now.left }
    {
        self.left.is_none()
    }

    fn take_line(
        &mut self,
        alloc: Global,
        line: &[u8],
        out: &mut Vec<u8>,
    ) -> Result<(), StreamError>
        ensures { Takes Bad (after_line_at self.old.left self.old.picture line.now)
            self.old self.new out.old.items out.new.items result }
    {
        match self.left {
            None => self.take_between(alloc, line, out),
            Some(0) => self.take_item(alloc, line, out),
            Some(more) => self.take_rectangle(alloc, more - 1, line, out),
        }
    }

    fn take_between(
        &mut self,
        alloc: Global,
        line: &[u8],
        out: &mut Vec<u8>,
    ) -> Result<(), StreamError>
        requires { self.old.left ≡ None }
        ensures { Takes Bad (after_line_at None self.old.picture line.now)
            self.old self.new out.old.items out.new.items result }
    {
        if line.starts_with(b"frame") {
            let frame = read_frame(alloc, line)?;
            return self.open_frame(alloc, frame, line, out);
        }
        if line.starts_with(b"row") || line.starts_with(b"endframe") {
            return Err(StreamError::Bad);
        }
        append_line(out, line)?;
        Ok(())
    }

    fn open_frame(
        &mut self,
        alloc: Global,
        frame: Option<Frame>,
        line: &[u8],
        out: &mut Vec<u8>,
    ) -> Result<(), StreamError>
        requires { frame ≡ frame_in (words line.now) }
        ensures { Takes Bad (after_frame self.old.picture line.now frame)
            self.old self.new out.old.items out.new.items result }
    {
        let Some(frame) = frame else {
            return Err(StreamError::Bad);
        };
        append_line(out, line)?;
        match self.view.begin(alloc, frame.width, frame.height) {
            Ok(()) => {
                self.left = Some(frame.rectangles);
                Ok(())
            }
            Err(ViewError::Size) => Err(StreamError::Bad),
            Err(ViewError::Memory) => Err(StreamError::Memory),
        }
    }

    fn take_rectangle(
        &mut self,
        alloc: Global,
        more: u32,
        line: &[u8],
        out: &mut Vec<u8>,
    ) -> Result<(), StreamError>
        requires { self.old.left ≡ Some (suc more) }
        ensures { Takes Bad (after_line_at (Some (suc more)) self.old.picture line.now)
            self.old self.new out.old.items out.new.items result }
    {
        if !is_rectangle(alloc, line)? {
            return Err(StreamError::Bad);
        }
        append_line(out, line)?;
        self.left = Some(more);
        Ok(())
    }

    fn take_item(
        &mut self,
        alloc: Global,
        line: &[u8],
        out: &mut Vec<u8>,
    ) -> Result<(), StreamError>
        requires { self.old.left ≡ Some 0 }
        ensures { Takes Bad (after_line_at (Some 0) self.old.picture line.now)
            self.old self.new out.old.items out.new.items result }
    {
        if is_end(line) {
            self.view.print(out)?;
            self.left = None;
            return Ok(());
        }
        let item = read_item(alloc, line)?;
        self.show(item)
    }

    /// Shows a row item.
    fn show(&mut self, item: Option<FoundItem>) -> Result<(), StreamError>
        requires { self.old.left ≡ Some 0 }
        ensures { (said : Option Item) (out : List ℕ) → IsFound item said →
            Takes Bad (after_item self.old.picture said) self.old self.new out out result }
    {
        self.view.laws();
        let Some(item) = item else {
            return Err(StreamError::Bad);
        };
        if !self.view.holds(item.x, item.y, item.pixels.len()) {
            return Err(StreamError::Bad);
        }
        self.view.put(item.x, item.y, item.pixels.as_slice());
        Ok(())
    }
}

fn is_end(line: &[u8]) -> bool
    ensures { result ≡ bytes_eq line.now (codes "endframe") }
{
    line == b"endframe".as_slice()
}

/// Appends the line and a line feed.
fn append_line(out: &mut Vec<u8>, line: &[u8]) -> Result<(), AllocError>
    ensures { Appends out.old.items out.new.items result (line.now ++ line_feed ∷ []) }
{
    out.extend_from_slice(line)?;
    out.push(b'\n')?;
    Ok(())
}
