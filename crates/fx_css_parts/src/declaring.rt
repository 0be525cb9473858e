//! Declarations: a name, `:` and a value (JavaFX CSS Reference Guide).
//! The declarations of a rule and of an inline style are read here.
ghost use Rattle.std.specs.Prelude.{◌≡◌, ◌+◌, ◌≤◌, IfOk, length};
ghost use Rattle.std.specs.List.{prefix_len};
ghost use Rattle.fx_css_parts.specs.Declaring.{not_colon};
ghost use Rattle.fx_css_parts.specs.Parts.{declaration_at};
ghost use Rattle.fx_css_parts.specs.Drafts.{IsKnown};
ghost use Rattle.fx_text.specs.Trimming.{trim_front};
ghost use Rattle.fx_text.specs.Fronts.{front, behind};
ghost use Rattle.fx_css_types.specs.Limits.{form_at};

use crate::ReadDeclaration;
use crate::limits::past_in_value;
use crate::naming::{Known, known_front, row_named};
use crate::texts::{read_ident, text_of};
use crate::values::read_declared;
use fx_css_types::Declaration;
use fx_look::{StyleForm, StyleName};
use fx_text::{trim_front, trimmed};
use std::alloc::{AllocError, Global};

/// The declaration that the text spells, or none where it is bad.
pub fn read_declaration(alloc: Global, text: &[u8]) -> Result<Option<ReadDeclaration>, AllocError>
    ensures { IfOk result (λ o. o ≡ declaration_at text.now) }
{
    match known_front(trim_front(text)) {
        Some(known) => read_known(alloc, text, known),
        None => read_named(alloc, text),
    }
}

/// The style declaration that the text spells, whose name is known.
fn read_known(
    alloc: Global,
    text: &[u8],
    known: Known<'_>,
) -> Result<Option<ReadDeclaration>, AllocError>
    requires { IsKnown (trim_front text.now) known }
    ensures { IfOk result (λ o. o ≡ declaration_at text.now) }
{
    let Known { row, style, value } = known;
    let form = Some(style.form);
    let Some(declared) = read_declared(alloc, form, trimmed(value))? else {
        return Ok(None);
    };
    let past = past_in_value(&declared, form, text.len() - value.len(), value);
    Ok(Some(ReadDeclaration {
        declaration: Declaration {
            name: text_of(alloc, style.name)?,
            row: Some(row),
            value: declared,
        },
        past,
    }))
}

/// The declaration that the text spells, of any name.
fn read_named(alloc: Global, text: &[u8]) -> Result<Option<ReadDeclaration>, AllocError>
    ensures { IfOk result (λ o. o ≡ declaration_at text.now) }
{
    let (before, after) = split_name(text);
    let Some((_, value)) = after.split_first() else {
        return Ok(None);
    };
    let Some(name) = read_ident(alloc, trimmed(before))? else {
        return Ok(None);
    };
    let row = row_named(name.as_str());
    let form = form_of(row);
    let Some(declared) = read_declared(alloc, form, trimmed(value))? else {
        return Ok(None);
    };
    let past = past_in_value(&declared, form, before.len() + 1, value);
    Ok(Some(ReadDeclaration {
        declaration: Declaration {
            name,
            row,
            value: declared,
        },
        past,
    }))
}

/// The form of the value of the row, if there is one.
fn form_of(row: Option<StyleName>) -> Option<StyleForm>
    ensures { result ≡ form_at row }
{
    let style = row?.style()?;
    Some(style.form)
}

/// The text up to the first `:`, and from there on.
fn split_name(text: &[u8]) -> (&[u8], &[u8])
    ensures name { result.0.now ≡ front not_colon text.now }
    ensures rest { result.1.now ≡ behind not_colon text.now }
    ensures whole { length result.0.now + length result.1.now ≡ length text.now }
{
    text.split_at(name_length(text))
}

fn name_length(text: &[u8]) -> usize
    ensures length { result ≡ prefix_len not_colon text.now }
    ensures within { result ≤ length text.now }
{
    text.iter().take_while(|c| **c != b':').count()
}
