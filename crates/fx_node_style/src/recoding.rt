//! A style after lengths that bindings give have changed, and nothing else: they are written into its look.
ghost use Rattle.std.specs.Prelude.{◌≡◌, ◌==◌, ◌↔◌, IsTrue, Some, find};
ghost use Rattle.std.specs.Option.{option_copied};
ghost use Rattle.fx_node_style.specs.Recoding.{AreRecoded, IsBoundLength, IsRecoded, bound_length, bound_or, is_length_row, with_bound};

use fx_base::{Same, Value};
use fx_look::{CodeValue, Look, StyleKey, StyleName};

/// Are the code values those of before, up to the numbers that bindings give to lengths?
pub fn are_recoded(olds: &[CodeValue], news: &[CodeValue]) -> bool
    ensures { IsTrue result ↔ AreRecoded olds.now news.now }
{
    if olds.len() != news.len() {
        return false;
    }
    for at in 0..olds.len() {
        if !is_recoded(&olds[at], &news[at]) {
            return false;
        }
    }
    true
}

fn is_recoded(old: &CodeValue, new: &CodeValue) -> bool
    ensures { IsTrue result ↔ IsRecoded old.now new.now }
{
    new.style == old.style
        && new.bound == old.bound
        && (is_bound_length(new) || new.value.is_same(&old.value))
}

fn is_bound_length(code: &CodeValue) -> bool
    ensures { IsTrue result ↔ IsBoundLength code.now }
{
    match code.value {
        Value::Int(_) => code.bound && is_length(code.style),
        _ => false,
    }
}

#[tactic(auto, unfolding(fx_look::specs::Styles::styles))]
fn is_length(style: StyleName) -> bool
    ensures { result ≡ is_length_row style.0 }
{
    let row = style.0 as usize;
    row == StyleKey::MinWidth as usize
        || row == StyleKey::MinHeight as usize
        || row == StyleKey::PrefWidth as usize
        || row == StyleKey::PrefHeight as usize
        || row == StyleKey::MaxWidth as usize
        || row == StyleKey::MaxHeight as usize
}

/// Writes the lengths that bindings give into a look.
#[tactic(auto, unfolding(fx_look::specs::Styles::styles, crate::specs::Recoding::with_bound))]
pub fn write_bound(look: &mut Look, codes: &[CodeValue])
    ensures { look.new ≡ with_bound codes.now look.old }
{
    look.min_width = bound_length(codes, StyleKey::MinWidth as usize, look.min_width);
    look.min_height = bound_length(codes, StyleKey::MinHeight as usize, look.min_height);
    look.pref_width = bound_length(codes, StyleKey::PrefWidth as usize, look.pref_width);
    look.pref_height = bound_length(codes, StyleKey::PrefHeight as usize, look.pref_height);
    look.max_width = bound_length(codes, StyleKey::MaxWidth as usize, look.max_width);
    look.max_height = bound_length(codes, StyleKey::MaxHeight as usize, look.max_height);
}

/// Has a look the lengths that bindings give?
#[tactic(auto, unfolding(fx_look::specs::Styles::styles, crate::specs::Recoding::with_bound))]
pub fn has_bound(look: &Look, codes: &[CodeValue]) -> bool
    ensures { IsTrue result ↔ (with_bound codes.now look.now ≡ look.now) }
{
    is_bound(codes, StyleKey::MinWidth as usize, look.min_width)
        && is_bound(codes, StyleKey::MinHeight as usize, look.min_height)
        && is_bound(codes, StyleKey::PrefWidth as usize, look.pref_width)
        && is_bound(codes, StyleKey::PrefHeight as usize, look.pref_height)
        && is_bound(codes, StyleKey::MaxWidth as usize, look.max_width)
        && is_bound(codes, StyleKey::MaxHeight as usize, look.max_height)
}

/// Is this the length that a binding gives, if one gives the length of the row?
fn is_bound(codes: &[CodeValue], row: usize, kept: i64) -> bool
    ensures { IsTrue result ↔ (bound_length codes.now row kept ≡ kept) }
{
    bound_length(codes, row, kept) == kept
}

fn bound_length(codes: &[CodeValue], row: usize, kept: i64) -> i64
    ensures { result ≡ bound_length codes.now row kept }
{
    match code_at(codes, row) {
        Some(code) => bound_or(code, kept),
        None => kept,
    }
}

fn code_at(codes: &[CodeValue], row: usize) -> Option<&CodeValue>
    ensures { option_copied result ≡ find (λ code. code.style.0 == row) codes.now }
{
    codes.iter().find(|code| code.style.0 as usize == row)
}

fn bound_or(code: &CodeValue, kept: i64) -> i64
    ensures { result ≡ bound_or (Some code.now) kept }
{
    match code.value {
        Value::Int(number) if code.bound => number,
        _ => kept,
    }
}
