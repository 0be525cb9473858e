//! Selectors: compounds joined by combinators, and lists of them (Selectors Level 3).
//! A rule's selectors are read here.
ghost use Rattle.std.specs.Prelude.{◌≡◌, ◌≤◌, ◌++◌, IfOk, length, true, false};
ghost use Rattle.std.specs.List.{prefix_len};
ghost use Rattle.std.specs.Option.{option_map, option_and_then};
ghost use Rattle.fx_css_parts.specs.Selecting.{behind_sign, combinator_at, is_gap, not_gap, links_at, linked_at, selector_at, selectors_in};
ghost use Rattle.fx_css_parts.specs.Parts.{selectors_at};
ghost use Rattle.fx_text.specs.Fronts.{front, behind, stops};

use crate::Selectors;
use crate::compounds::read_compound;
use crate::layers::split_part;
use crate::limits::past_in_selectors;
use fx_base::List;
use fx_css_types::{Combinator, Compound, Selector};
use fx_text::{all_white, is_white, trim_front};
use std::alloc::{AllocError, Global};

/// How many selectors are given room at first: few rules have more.
const COMMON_SELECTORS: usize = 2;

/// The selectors that the text spells, separated by commas, or none where one of them is bad.
pub fn read_selectors(alloc: Global, text: &[u8]) -> Result<Option<Selectors>, AllocError>
    ensures { IfOk result (λ o. o ≡ selectors_at text.now) }
{
    let Some(selectors) = each_selector(alloc, text)? else {
        return Ok(None);
    };
    let past = past_in_selectors(selectors.as_slice(), text);
    Ok(Some(Selectors {
        selectors: List::from_vec(selectors),
        past,
    }))
}

fn each_selector(alloc: Global, text: &[u8]) -> Result<Option<Vec<Selector>>, AllocError>
    ensures { IfOk result (λ o. option_map (λ v. v.items) o ≡ selectors_in text.now) }
{
    let mut selectors = Vec::with_capacity(alloc, COMMON_SELECTORS)?;
    let mut left = Some(text);
    while let Some(rest) = left {
        let (part, behind) = split_part(rest);
        let Some(selector) = read_selector(alloc, part)? else {
            return Ok(None);
        };
        selectors.push(selector)?;
        left = behind;
    }
    Ok(Some(selectors))
}

fn read_selector(alloc: Global, text: &[u8]) -> Result<Option<Selector>, AllocError>
    ensures { IfOk result (λ o. o ≡ selector_at text.now) }
{
    let (word, rest) = split_word(text);
    let mut compounds = Vec::with_capacity(alloc, room(rest))?;
    let read = read_compound(alloc, None, word, &mut compounds)?;
    if !read {
        return Ok(None);
    }
    let Some(compounds) = read_links(alloc, compounds, rest)? else {
        return Ok(None);
    };
    Ok(Some(Selector {
        compounds: List::from_vec(compounds),
    }))
}

/// How many compounds are given room where this is behind the first of them: few selectors have more.
fn room(rest: &[u8]) -> usize {
    if rest.is_empty() { 1 } else { 2 }
}

/// The compounds with those that the text spells behind them, each behind a combinator.
fn read_links(
    alloc: Global,
    first: Vec<Compound>,
    text: &[u8],
) -> Result<Option<Vec<Compound>>, AllocError>
    requires { stops not_gap text.now ≡ true }
    ensures { IfOk result (λ o. option_map (λ v. v.items) o
        ≡ option_map (λ cs. first.items ++ cs) (linked_at (links_at false text.now))) }
{
    let mut compounds = first;
    let mut rest = text;
    while !rest.is_empty() {
        let (gap, after) = split_gap(rest);
        let Some(combinator) = combinator_of(gap) else {
            return Ok(None);
        };
        let (word, behind) = split_word(after);
        let read = read_compound(alloc, Some(combinator), word, &mut compounds)?;
        if !read {
            return Ok(None);
        }
        rest = behind;
    }
    Ok(Some(compounds))
}

/// The combinator that white and `>` make.
fn combinator_of(gap: &[u8]) -> Option<Combinator>
    ensures { result ≡ combinator_at gap.now }
{
    behind_first_white(trim_front(gap))
}

fn behind_first_white(text: &[u8]) -> Option<Combinator>
    ensures { result ≡ behind_sign text.now }
{
    match text {
        [] => Some(Combinator::Descendant),
        [c, rest @ ..] => {
            if *c == b'>' && all_white(rest) {
                return Some(Combinator::Child);
            }
            None
        }
    }
}

/// The white and `>` at the front of the text, and what is behind them.
fn split_gap(text: &[u8]) -> (&[u8], &[u8])
    ensures gap { result.0.now ≡ front is_gap text.now }
    ensures rest { result.1.now ≡ behind is_gap text.now }
{
    text.split_at(gap_length(text))
}

fn gap_length(text: &[u8]) -> usize
    ensures length { result ≡ prefix_len is_gap text.now }
    ensures within { result ≤ length text.now }
{
    text.iter().take_while(|c| is_gap(**c)).count()
}

/// The text up to the first white or `>`, and from there on.
fn split_word(text: &[u8]) -> (&[u8], &[u8])
    ensures word { result.0.now ≡ front not_gap text.now }
    ensures rest { result.1.now ≡ behind not_gap text.now }
{
    text.split_at(word_length(text))
}

fn word_length(text: &[u8]) -> usize
    ensures length { result ≡ prefix_len not_gap text.now }
    ensures within { result ≤ length text.now }
{
    text.iter().take_while(|c| !is_gap(**c)).count()
}

/// Is it white or `>`?
pub fn is_gap(c: u8) -> bool
    ensures { result ≡ is_gap c }
{
    is_white(c) || c == b'>'
}
