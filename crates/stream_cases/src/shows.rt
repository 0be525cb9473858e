//! A stream that is being shown.
use anyhow::bail;
use fx_delta::{StreamError, Viewer};
use std::alloc::Global;

/// The viewer, the number of the next line, and whether a bad line was found.
#[derive(Drop)]
pub struct Show {
    viewer: Viewer,
    number: u64,
    is_over: bool,
}

impl Show {
    pub fn new(alloc: Global) -> Show {
        Show {
            viewer: Viewer::new(alloc),
            number: 1,
            is_over: false,
        }
    }

    /// Begins a stream, takes a line of it, or comes to its end: with a line feed, or cut off in a line. Gives what is
    /// printed for that.
    pub fn carry_out(&mut self, alloc: Global, line: &str) -> anyhow::Result<String> {
        if let Some(text) = line.strip_prefix('|') {
            return self.take(alloc, text);
        }
        match line {
            "stream" => {
                *self = Show::new(alloc);
                Ok(String::new(alloc))
            }
            "end" => {
                if self.viewer.is_between() {
                    self.is_over = true;
                }
                self.bad(alloc)
            }
            "cut" => self.bad(alloc),
            _ => bail!("no such line"),
        }
    }

    fn take(&mut self, alloc: Global, text: &str) -> anyhow::Result<String> {
        let mut out = Vec::new(alloc);
        if self.is_over {
            return Ok(String::new(alloc));
        }
        match self.viewer.take(alloc, text.as_bytes(), &mut out) {
            Ok(()) => {
                self.number = self.number.saturating_add(1);
                match String::from_utf8(out) {
                    Ok(shown) => Ok(shown),
                    Err(_) => bail!("what is shown is no text"),
                }
            }
            Err(StreamError::Bad) => self.bad(alloc),
            Err(StreamError::Memory) => bail!("out of memory"),
        }
    }

    /// Tells of the next line that it is bad, unless one was told of.
    fn bad(&mut self, alloc: Global) -> anyhow::Result<String> {
        if self.is_over {
            return Ok(String::new(alloc));
        }
        self.is_over = true;
        let number = self.number;
        Ok(format!(in alloc; "bad {number}\n")?)
    }
}
