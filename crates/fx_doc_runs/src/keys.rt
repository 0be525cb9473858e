//! Attributes, with white round `=`: taken whole where their values are plain, and else up to the first quote.
ghost use Rattle.std.specs.Prelude.{◌≡◌, ◌≤◌, length, true, IfSome, IfNone, IfOk, IfErr};
ghost use Rattle.std.specs.List.{list_all};
ghost use Rattle.fx_doc_drafts.specs.Ahead.{is_named, begins_name};
ghost use Rattle.std.specs.String.{string_bytes};
ghost use Rattle.fx_doc_grammar.specs.Machine.{with_attribute};
ghost use Rattle.fx_base.specs.declared.positions.Position.{Position};
ghost use Rattle.fx_doc_runs.specs.Reached.{TookFlat, TookWhole};
ghost use Rattle.fx_doc_runs.specs.Keys.{IsKey, IsNameAhead};
ghost use Rattle.fx_doc_runs.specs.Views.{head_view, view};
ghost use Rattle.fx_doc_runs.specs.declared.document.DocError.TheVariants as fault;

use crate::document::DocError;
use crate::modes::{Head, Mode, Reader, Valued};
use crate::runs::{gap_ahead, value_ahead};
use fx_base::Position;
use fx_doc_drafts::{Draft, Word, begins_name, behind_byte, name_length, quote_ahead, quote_byte};
use fx_doc_grammar::Quote;
use std::alloc::{AllocError, Global};

/// The greatest number of characters of a name or a value.
const TEXT_LIMIT: usize = 4096;

/// The name of an attribute ahead, the quote of its value, and the text behind that.
#[derive(Clone, Copy)]
struct Key<'a> {
    name: &'a str,
    quote: Quote,
    behind: &'a str,
}

/// The name in front, and the text behind it.
pub fn name_ahead(text: &str) -> Option<(&str, &str)>
    ensures { IfSome result (λ x. IsNameAhead text.now x.0.now x.1.now) }
{
    let count = name_length(text.as_bytes());
    if count > TEXT_LIMIT {
        return None;
    }
    let (name, rest) = text.split_at_checked(count)?;
    if !begins_name(name) {
        return None;
    }
    Some((name, rest))
}

fn key_ahead(text: &str) -> Option<Key<'_>>
    ensures { IfSome result (λ k. IsKey text.now k.name.now k.quote k.behind.now) }
{
    let (name, rest) = name_ahead(text)?;
    let (_, rest) = gap_ahead(rest);
    let rest = behind_byte(rest, b'=')?;
    let (_, rest) = gap_ahead(rest);
    let (quote, behind) = quote_ahead(rest)?;
    Some(Key {
        name,
        quote,
        behind,
    })
}

impl Head {
    /// Takes the attribute that stands ahead, if its value is plain, and gives the text behind it.
    pub fn take<'a>(
        &mut self,
        alloc: Global,
        position: Position,
        rest: &'a str,
    ) -> Result<Option<&'a str>, DocError>
        ensures took { IfOk result (λ o. IfSome o (λ left. TookWhole rest.now position self.old left.now self.new)) }
        ensures none { IfOk result (λ o. IfNone o (self.new ≡ self.old)) }
        ensures memory { IfErr result (λ e. e ≡ fault.Memory) }
    {
        let Some(key) = key_ahead(rest) else {
            return Ok(None);
        };
        let quote = quote_byte(key.quote);
        let (value, left) = value_ahead(key.behind, quote, TEXT_LIMIT);
        let Some(behind) = behind_byte(left, quote) else {
            return Ok(None);
        };
        if !self.is_new(alloc, key.name)? {
            return Ok(None);
        }
        self.add(alloc, position, key.name, value)?;
        Ok(Some(behind))
    }
}

impl Valued {
    /// The head with this attribute, whose value is whole.
    pub fn into_head(self, alloc: Global) -> Result<Head, AllocError>
        ensures { IfOk result (λ h. head_view h ≡ with_attribute (head_view self.head) self.position
            (string_bytes self.key.text) (string_bytes self.value.text)) }
    {
        let Valued {
            head,
            position,
            key,
            quote: _,
            value,
        } = self;
        head.with_attribute(alloc, position, key, value.into_text())
    }
}

impl Reader {
    /// Takes the name and the quote of the attribute that stands ahead, and gives the text behind them.
    pub fn take_key<'a>(
        &mut self,
        alloc: Global,
        position: Position,
        rest: &'a str,
    ) -> Result<&'a str, DocError>
        ensures took { IfOk result (λ left. TookFlat rest.now position (view self.old) left.now (view self.new)) }
        ensures memory { IfErr result (λ e. e ≡ fault.Memory) }
    {
        let Mode::Spaced(head) = &self.mode else {
            return Ok(rest);
        };
        let Some(ahead) = key_ahead(rest) else {
            return Ok(rest);
        };
        let Ok(key) = Word::of_text(alloc, ahead.name) else {
            return Err(DocError::Memory);
        };
        if !head.is_fresh(&key) {
            return Ok(rest);
        }
        let head = self.mode.take_spaced();
        self.mode.turn(Mode::Quoted(Valued {
            head,
            position,
            key,
            quote: ahead.quote,
            value: Draft::new(alloc),
        }));
        Ok(ahead.behind)
    }
}
