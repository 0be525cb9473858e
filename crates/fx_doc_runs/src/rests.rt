//! What is left of a text, and the position where it goes on.
ghost use Rattle.std.specs.Prelude.{◌≡◌, ◌<◌, ◌≤◌, ◌+◌, ◌-◌, ◌^◌, length, true};
ghost use Rattle.std.specs.List.{list_all};
ghost use Rattle.fx_text.specs.Classes.{is_white};
ghost use Rattle.fx_base.specs.Positions.{after_all};
ghost use Rattle.fx_doc_drafts.specs.Ahead.{is_low};
ghost use Rattle.fx_doc_runs.specs.Reached.{IsPast};

use crate::runs::white_length;
use fx_base::Position;

/// The text from a position on.
#[derive(Clone, Copy)]
pub struct Rest<'a> {
    pub position: Position,
    pub text: &'a str,
}

impl<'a> Rest<'a> {
    /// What is left behind this part, in ASCII.
    pub fn over(self, part: &str, left: &'a str) -> Rest<'a>
        requires low { list_all is_low part.now ≡ true }
        requires line { self.position.line + length part.now < 2 ^ 31 }
        requires column { self.position.column + length part.now < 2 ^ 31 }
        ensures position { result.position ≡ after_all self.entry.position part.now }
        ensures text { result.text.now ≡ left.now }
    {
        Rest {
            position: self.position.after_bytes(part.as_bytes()),
            text: left,
        }
    }

    /// What is left behind a part of one line, in ASCII.
    pub fn along(self, left: &'a str) -> Rest<'a>
        requires shorter { length left.now ≤ length self.text.now }
        requires column { self.position.column + length self.text.now < 2 ^ 31 }
        ensures line { result.position.line ≡ self.entry.position.line }
        ensures column { result.position.column
            ≡ self.entry.position.column + (length self.entry.text.now - length left.now) }
        ensures text { result.text.now ≡ left.now }
    {
        let count = self.text.len() - left.len();
        Rest {
            position: Position {
                line: self.position.line,
                column: self.position.column + count as u32,
            },
            text: left,
        }
    }

    /// What is left behind white.
    pub fn past_white(self) -> Rest<'a>
        requires line { self.position.line + length self.text.now < 2 ^ 31 }
        requires column { self.position.column + length self.text.now < 2 ^ 31 }
        ensures { IsPast is_white self.entry.text.now self.entry.position result.text.now result.position }
    {
        let count = white_length(self.text.as_bytes());
        match self.text.split_at_checked(count) {
            Some((white, left)) => self.over(white, left),
            None => self,
        }
    }
}
