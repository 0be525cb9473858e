//! Texts that are being read: names, and values or runs with the count of their signs.
//! A text that would pass 4,096 characters is refused before it grows.
ghost use Rattle.std.specs.Prelude.{◌≡◌, ◌≤◌, ◌<◌, ◌+◌, ◌∷◌, ◌++◌, [], length, true, IfOk, IfErr, OnOk, IsErrOf, ◌↔◌};
ghost use Rattle.std.specs.Str.{chars};
ghost use Rattle.std.specs.String.{string_bytes};
ghost use Rattle.std.specs.Char.{encode_utf8};
ghost use Rattle.std.specs.List.{list_all};
ghost use Rattle.fx_doc_grammar.specs.Characters.{class_of, in_name};
ghost use Rattle.fx_doc_drafts.specs.Ahead.{is_low};

use fx_base::Text;
use std::alloc::{AllocError, AllocFailed, Global};

/// The greatest number of characters of a text.
const TEXT_LIMIT: usize = 4096;

/// Why reading stops before the text does.
#[derive(Debug, Drop, PartialEq)]
pub enum Halt {
    /// A text passes 4,096 characters.
    Long,
    Memory,
}

impl From<AllocError> for Halt {
    ghost use Rattle.std.specs.Prelude.{◌≡◌};
    ghost use Rattle.fx_doc_drafts.specs.declared.drafts.Halt.TheVariants.{Memory};

    ghost from_gives = { λ _ e. e ≡ Memory };

    fn from(_e: AllocError) -> Halt {
        Halt::Memory
    }
}

impl<T: Drop> From<AllocFailed<T>> for Halt {
    ghost use Rattle.std.specs.Prelude.{◌≡◌};
    ghost use Rattle.fx_doc_drafts.specs.declared.drafts.Halt.TheVariants.{Memory};

    ghost from_gives = { λ _ e. e ≡ Memory };

    fn from(_e: AllocFailed<T>) -> Halt {
        Halt::Memory
    }
}

/// A name of at most 4,096 characters, each of one byte.
#[derive(Drop)]
pub struct Word {
    pub text: String,
    ghost short: { length (string_bytes text) ≤ 4096 },
}

impl Word {
    /// The name of this character alone.
    pub fn of(alloc: Global, c: char) -> Result<Word, Halt>
        requires { in_name (class_of c) ≡ true }
        ensures letter { IfOk result (λ w. string_bytes w.text ≡ c ∷ []) }
        ensures refused { IsErrOf result Halt.Long → 4096 < 1 }
    {
        let mut text = String::new(alloc);
        text.push(c)?;
        Ok(Word { text })
    }

    /// The name of this text.
    pub fn of_text(alloc: Global, text: &str) -> Result<Word, Halt>
        requires { length text.now ≤ 4096 }
        ensures name { IfOk result (λ w. string_bytes w.text ≡ text.now) }
        ensures memory { IfErr result (λ e. e ≡ Halt.Memory) }
    {
        let text = String::from_str(alloc, text)?;
        Ok(Word { text })
    }

    /// Appends a character.
    pub fn push(&mut self, c: char) -> Result<(), Halt>
        requires { in_name (class_of c) ≡ true }
        ensures letter { OnOk result (string_bytes self.new.text ≡ string_bytes self.old.text ++ (c ∷ [])) }
        ensures refused { IsErrOf result Halt.Long ↔ (length (string_bytes self.old.text) ≡ 4096) }
    {
        if self.text.len() == TEXT_LIMIT {
            return Err(Halt::Long);
        }
        self.text.push(c)?;
        Ok(())
    }

    /// The name as a text.
    pub fn into_text(self) -> Text
        ensures { result ≡ string_bytes self.text }
    {
        let Word { text } = self;
        match Text::from_string(text) {
            Some(name) => name,
            None => unreachable!(),
        }
    }
}

/// The characters of a value or a run, with their count.
#[derive(Drop)]
pub struct Draft {
    pub text: String,
    pub count: usize,
    ghost counted: { length (chars (string_bytes text)) ≡ count },
    ghost short: { count ≤ 4096 },
}

impl Draft {
    pub fn new(alloc: Global) -> Draft
        ensures bytes { string_bytes result.text ≡ [] }
        ensures count { result.count ≡ 0 }
    {
        Draft {
            text: String::new(alloc),
            count: 0,
        }
    }

    /// Appends a character.
    pub fn push(&mut self, c: char) -> Result<(), Halt>
        ensures bytes { OnOk result (string_bytes self.new.text ≡ string_bytes self.old.text ++ encode_utf8 c) }
        ensures count { OnOk result (self.new.count ≡ self.old.count + 1) }
        ensures refused { IsErrOf result Halt.Long ↔ (self.old.count ≡ 4096) }
    {
        if self.count == TEXT_LIMIT {
            return Err(Halt::Long);
        }
        self.text.push(c)?;
        self.count += 1;
        Ok(())
    }

    /// Appends a piece of ASCII that has room.
    pub fn push_ascii(&mut self, piece: &str) -> Result<(), AllocError>
        requires low { list_all is_low piece.now ≡ true }
        requires room { self.old.count + length piece.now ≤ 4096 }
        ensures bytes { OnOk result (string_bytes self.new.text ≡ string_bytes self.old.text ++ piece.now) }
        ensures count { OnOk result (self.new.count ≡ self.old.count + length piece.now) }
    {
        self.text.push_str(piece)?;
        self.count += piece.len();
        Ok(())
    }

    /// Takes its characters out; the room stays.
    pub fn clear(&mut self)
        ensures bytes { string_bytes self.new.text ≡ [] }
        ensures count { self.new.count ≡ 0 }
    {
        self.text.clear();
        self.count = 0;
    }

    /// The characters as a text.
    pub fn into_text(self) -> Text
        ensures { result ≡ string_bytes self.text }
    {
        let Draft { text, count: _ } = self;
        match Text::from_string(text) {
            Some(found) => found,
            None => unreachable!(),
        }
    }
}
