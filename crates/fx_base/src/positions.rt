//! Positions in a text, and places in files.
ghost use Rattle.std.specs.Prelude.{◌≡◌, ◌<◌, ◌≤◌, ◌+◌, ◌^◌, length};
ghost use Rattle.fx_base.specs.Positions.{start, after, after_byte, after_bytes};

/// Where a character of a text stands: line and column, both from 1, counted in characters. Only a line feed ends a
/// line.
#[derive(Clone, Copy, PartialEq, Eq, Debug)]
pub struct Position {
    pub line: u32,
    pub column: u32,
}

/// A position in a file, which is known by its place in the list of files.
#[derive(Clone, Copy, PartialEq, Eq, Debug)]
pub struct Place {
    pub file: u32,
    pub position: Position,
}

impl Position {
    /// The position of the first character.
    pub const START: Position = Position { line: 1, column: 1 };

    /// The position behind this character, which stands here.
    #[inline]
    pub fn after(self, c: char) -> Position
        requires line { self.line < 2 ^ 31 }
        requires column { self.column < 2 ^ 31 }
        ensures { result ≡ after self c }
    {
        if c == '\n' {
            self.next_line()
        } else {
            self.next_column()
        }
    }

    /// The position behind this byte of a text in UTF-8, which stands here. A byte that goes on with a character moves
    /// nothing.
    #[inline]
    pub fn after_byte(self, byte: u8) -> Position
        requires line { self.line < 2 ^ 31 }
        requires column { self.column < 2 ^ 31 }
        ensures { result ≡ after_byte self byte }
    {
        match byte {
            b'\n' => self.next_line(),
            128..=191 => self,
            _ => self.next_column(),
        }
    }

    /// The position behind these bytes of a text in UTF-8, which stand from here on.
    pub fn after_bytes(self, bytes: &[u8]) -> Position
        requires line { self.line + length bytes.now < 2 ^ 31 }
        requires column { self.column + length bytes.now < 2 ^ 31 }
        ensures { result ≡ after_bytes self bytes.now }
    {
        let mut position = self;
        let mut rest = bytes;
        while let Some((first, behind)) = rest.split_first() {
            position = position.after_byte(*first);
            rest = behind;
        }
        position
    }

    #[inline]
    fn next_line(self) -> Position
        requires { self.line < 2 ^ 31 }
        ensures { result ≡ record { line = self.line + 1; column = 1 } }
    {
        Position {
            line: self.line + 1,
            column: 1,
        }
    }

    #[inline]
    fn next_column(self) -> Position
        requires { self.column < 2 ^ 31 }
        ensures { result ≡ record { line = self.line; column = self.column + 1 } }
    {
        Position {
            line: self.line,
            column: self.column + 1,
        }
    }
}
