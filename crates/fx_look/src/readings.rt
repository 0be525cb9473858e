//! Property values as documents and scripts write them.
//! Loaders and script lines read theirs here.
ghost use Rattle.std.specs.Prelude.{◌≡◌, ◌<◌, ◌≤◌, ℕ, List, IfOk, IfSome, IfNone, map, length};
ghost use Rattle.std.specs.Option.{option_map};
ghost use Rattle.std.specs.List.{position};
ghost use Rattle.std.specs.Str.{bytes_eq};
ghost use Rattle.fx_base.specs.Constants.{constants_of};
ghost use Rattle.fx_base.specs.declared.kinds.Kind.{Kind as ValueKind};
ghost use Rattle.fx_base.specs.declared.values.Value.{Value as Property};
ghost use Rattle.fx_base.specs.declared.values.Value.TheVariants.{Int, Bool as Truth, Choice, Color as Paint, Sides as Insets};
ghost use Rattle.fx_look.specs.Numbers.{number_at};
ghost use Rattle.fx_look.specs.Colors.{color_at};
ghost use Rattle.fx_look.specs.Insets.{sides_at};
ghost use Rattle.fx_look.specs.Readings.{IsValue, value_at, truth_at, text_at, place_of};

use crate::color_names::same_letters;
use crate::colors::color_at;
use crate::insets::{Length, sides_at};
use crate::numbers::number_at;
use fx_base::{Family, Kind, Text, TextError, Value};
use std::alloc::{AllocError, Global};

/// The value of this kind that the text spells, if there is one.
///
/// A number is read as by `read_number` and a colour as by `read_color`; a truth is `true` or `false` in any case of
/// letters; a text stands for itself, of at most 4,096 characters; a choice is the name of a constant; sides are one
/// number, or four separated by white.
pub fn read_value(alloc: Global, kind: Kind, s: &str) -> Result<Option<Value>, AllocError>
    ensures found { IfOk result (λ o. IfSome o (IsValue kind s.now)) }
    ensures none { IfOk result (λ o. IfNone o ((v : Property) → IsValue kind s.now v → ⊥)) }
{
    value_at(alloc, kind, s)
}

/// A text spells one value of a kind at most.
pub fn one_value()
    ensures { (kind : ValueKind) (text : List ℕ) (v w : Property) → IsValue kind text v → IsValue kind text w → v ≡ w }
{}

fn value_at(alloc: Global, kind: Kind, s: &str) -> Result<Option<Value>, AllocError>
    ensures { IfOk result (λ o. o ≡ value_at kind s.now) }
{
    match kind {
        Kind::Int => Ok(int_at(s)),
        Kind::Bool => Ok(truth_at(s).map(|truth| Value::Bool(truth))),
        Kind::Text => text_at(alloc, s),
        Kind::Choice(family) => Ok(choice_at(family, s)),
        Kind::Color => Ok(color_at(s.as_bytes()).map(|color| Value::Color(color))),
        Kind::Sides => Ok(sides_at(Length::Number, s.as_bytes()).map(|sides| Value::Sides(sides))),
    }
}

fn int_at(s: &str) -> Option<Value>
    ensures { result ≡ option_map Int (number_at s.now) }
{
    Some(Value::Int(number_at(s.as_bytes())?))
}

fn truth_at(s: &str) -> Option<bool>
    ensures { result ≡ truth_at s.now }
{
    if same_letters(s.as_bytes(), b"true") {
        Some(true)
    } else if same_letters(s.as_bytes(), b"false") {
        Some(false)
    } else {
        None
    }
}

fn text_at(alloc: Global, s: &str) -> Result<Option<Value>, AllocError>
    ensures { IfOk result (λ o. o ≡ text_at s.now) }
{
    match Text::from_str(alloc, s) {
        Ok(text) => Ok(Some(Value::Text(text))),
        Err(TextError::TooLong) => Ok(None),
        Err(TextError::Memory) => Err(AllocError),
    }
}

fn choice_at(family: Family, s: &str) -> Option<Value>
    ensures { result ≡ option_map (Choice family) (place_of (constants_of family) s.now) }
{
    let place = place_of(family.constants(), s)?;
    Some(Value::Choice(family, place as u8))
}

fn place_of(constants: &[&str], s: &str) -> Option<usize>
    ensures { result ≡ place_of (map (λ constant. constant.now) constants.now) s.now }
{
    find_place(constants, s)
}

fn find_place(constants: &[&str], s: &str) -> Option<usize>
    ensures { result ≡ position (λ constant. bytes_eq constant.now s.now) constants.now }
{
    constants.iter().position(|constant| *constant == s)
}
