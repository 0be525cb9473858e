//! Compounds: a type, classes, ids and pseudo-classes with no white between them (Selectors Level 3).
//! Selectors are made of them.
ghost use Rattle.std.specs.Prelude.{◌≡◌, ◌≤◌, ◌++◌, IfOk, length, true, [], ◌∷◌};
ghost use Rattle.std.specs.List.{prefix_len};
ghost use Rattle.std.specs.Option.{option_map};
ghost use Rattle.fx_css_parts.specs.Selecting.{is_sign, not_sign, is_any, kind_at, parts_at, compound_at};
ghost use Rattle.fx_css_parts.specs.Drafts.{with_one, with_names, names_of};
ghost use Rattle.fx_css_parts.specs.Texts.{ident_at};
ghost use Rattle.fx_text.specs.Fronts.{front, behind, stops};

use crate::texts::{is_ident, read_ident};
use fx_base::Text;
use fx_css_types::{Combinator, Compound, NameList};
use std::alloc::{AllocError, Global};

/// Puts the word behind the compound's names of its sign. Is it a name?
fn push_part(
    alloc: Global,
    compound: &mut Compound,
    sign: u8,
    word: &[u8],
) -> Result<bool, AllocError>
    ensures { IfOk result (λ named. with_one named compound.new ≡ option_map
        (λ name. with_names compound.old ((record { sign = sign; name = name }) ∷ [])) (ident_at word.now)) }
{
    match sign {
        b'.' => push_word(alloc, &mut compound.classes, word),
        b'#' => push_word(alloc, &mut compound.ids, word),
        b':' => push_word(alloc, &mut compound.pseudos, word),
        _ => Ok(is_ident(word)),
    }
}

/// Puts the word behind the names. Is it a name?
fn push_word(alloc: Global, names: &mut NameList, word: &[u8]) -> Result<bool, AllocError>
    ensures { IfOk result (λ named. with_one named names.new
        ≡ option_map (λ name. names.old ++ (name ∷ [])) (ident_at word.now)) }
{
    let Some(name) = read_ident(alloc, word)? else {
        return Ok(false);
    };
    if names.as_slice().is_empty() {
        *names = NameList::one(name);
    } else {
        names.push(alloc, name)?;
    }
    Ok(true)
}

/// Puts the compound that the text spells, behind a combinator or none, behind the others: it is too large to be moved
/// or handed up, and gets its names there. Does the text spell one? If not, the start of one may stand there.
pub fn read_compound(
    alloc: Global,
    combinator: Option<Combinator>,
    text: &[u8],
    compounds: &mut Vec<Compound>,
) -> Result<bool, AllocError>
    ensures { IfOk result (λ read. with_one read compounds.new.items
        ≡ option_map (λ c. compounds.old.items ++ (c ∷ [])) (compound_at combinator text.now)) }
{
    if text.is_empty() {
        return Ok(false);
    }
    let (word, signs) = split_word(text);
    let Some(kind) = read_kind(alloc, word)? else {
        return Ok(false);
    };
    let compound = compounds.push_mut(Compound {
        combinator,
        kind,
        classes: NameList::new(),
        ids: NameList::new(),
        pseudos: NameList::new(),
    })?;
    read_names(alloc, signs, compound)
}

/// The type that the word names, if it is one, or none for any type.
fn read_kind(alloc: Global, word: &[u8]) -> Result<Option<Option<Text>>, AllocError>
    ensures { IfOk result (λ o. o ≡ kind_at word.now) }
{
    if is_any(word) {
        return Ok(Some(None));
    }
    match read_ident(alloc, word)? {
        Some(name) => Ok(Some(Some(name))),
        None => Ok(None),
    }
}

fn is_any(word: &[u8]) -> bool
    ensures { result ≡ is_any word.now }
{
    match word {
        [] => true,
        [c] => *c == b'*',
        [_, _, ..] => false,
    }
}

/// Puts the names that the text spells behind those of the compound. Does it spell names, each behind its sign?
fn read_names(alloc: Global, text: &[u8], compound: &mut Compound) -> Result<bool, AllocError>
    requires { stops not_sign text.now ≡ true }
    ensures { IfOk result (λ named. with_one named compound.new ≡ names_of compound.old (parts_at text.now)) }
{
    let mut rest = text;
    while let Some((sign, behind)) = rest.split_first() {
        let (word, others) = split_word(behind);
        let named = push_part(alloc, compound, *sign, word)?;
        if !named {
            return Ok(false);
        }
        rest = others;
    }
    Ok(true)
}

/// The text up to the first sign, and from there on.
fn split_word(text: &[u8]) -> (&[u8], &[u8])
    ensures word { result.0.now ≡ front not_sign text.now }
    ensures rest { result.1.now ≡ behind not_sign text.now }
{
    text.split_at(word_length(text))
}

fn word_length(text: &[u8]) -> usize
    ensures length { result ≡ prefix_len not_sign text.now }
    ensures within { result ≤ length text.now }
{
    text.iter().take_while(|c| !is_sign(**c)).count()
}

fn is_sign(c: u8) -> bool
    ensures { result ≡ is_sign c }
{
    matches!(c, b'.' | b'#' | b':')
}
