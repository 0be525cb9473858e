//! The class of a character, by which the reader takes it.
ghost use Rattle.std.specs.Prelude.{◌≡◌};
ghost use Rattle.fx_doc_grammar.specs.Characters.{class_of, in_name};
ghost use Rattle.fx_doc_grammar.specs.Grammar.{is_quote};

use crate::{Class, Quote};

impl Class {
    /// What the character means to the grammar.
    #[tactic(auto, unfolding(crate::specs::Characters::class_of))]
    pub fn of(c: char) -> Class
        ensures { result ≡ class_of c }
    {
        match c {
            ' ' | '\t' | '\r' | '\n' => Class::White,
            '<' => Class::Less,
            '>' => Class::Greater,
            '/' => Class::Slash,
            '=' => Class::Equals,
            '!' => Class::Bang,
            '?' => Class::Question,
            '-' => Class::Dash,
            '"' => Class::Quotation,
            '\'' => Class::Apostrophe,
            '&' => Class::Ampersand,
            'a'..='z' | 'A'..='Z' | '_' => Class::Letter,
            '0'..='9' | ':' | '.' => Class::Digit,
            _ => Class::Other,
        }
    }
}

impl Class {
    /// May a name go on with it?
    pub fn is_named(self) -> bool
        ensures { result ≡ in_name self }
    {
        matches!(self, Class::Letter | Class::Digit | Class::Dash)
    }

    /// Is it this quote?
    pub fn is_quote(self, quote: Quote) -> bool
        ensures { result ≡ is_quote quote self }
    {
        match quote {
            Quote::Single => matches!(self, Class::Apostrophe),
            Quote::Double => matches!(self, Class::Quotation),
        }
    }
}
