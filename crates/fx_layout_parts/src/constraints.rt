//! The constraints of a node, as the panes read them.
ghost use Rattle.std.specs.Prelude.{◌≡◌, ◌≤◌, Some};
ghost use Rattle.std.specs.List.{find};
ghost use Rattle.std.specs.Option.{option_map};
ghost use Rattle.std.specs.Str.{bytes_eq};
ghost use Rattle.fx_layout_parts.specs.Children.{choice_in, number_in, kept_in, place_in, sides_in, truth_in, value_named};

use fx_base::{Sides, Value};
use fx_kinds::Constraint;

/// No length on any side.
pub const NO_SIDES: Sides = Sides {
    top: 0,
    right: 0,
    bottom: 0,
    left: 0,
};

/// The sides that this constraint says, or none on any side.
pub fn sides_of(said: &[Constraint], name: &str) -> Sides
    ensures { result ≡ sides_in (value_named name.now said.now) }
{
    match first_named(said, name) {
        Some(constraint) => sides_in(&constraint.value),
        None => NO_SIDES,
    }
}

/// The constant that this constraint says.
pub fn choice_of(said: &[Constraint], name: &str) -> Option<u8>
    ensures { result ≡ choice_in (value_named name.now said.now) }
{
    match first_named(said, name) {
        Some(constraint) => choice_in(&constraint.value),
        None => None,
    }
}

/// The number that this constraint says.
pub fn number_of(said: &[Constraint], name: &str) -> Option<i64>
    ensures { result ≡ number_in (value_named name.now said.now) }
{
    match first_named(said, name) {
        Some(constraint) => number_in(&constraint.value),
        None => None,
    }
}

/// What this constraint says, or true.
pub fn truth_of(said: &[Constraint], name: &str) -> bool
    ensures { result ≡ truth_in (value_named name.now said.now) }
{
    match first_named(said, name) {
        Some(constraint) => truth_in(&constraint.value),
        None => true,
    }
}

/// The row or column that this constraint says, from 0 to 255.
pub fn index_of(said: &[Constraint], name: &str) -> u32
    ensures value { result ≡ place_in 0 255 (value_named name.now said.now) }
    ensures most { result ≤ 255 }
{
    match first_named(said, name) {
        Some(constraint) => index_in(&constraint.value),
        None => 0,
    }
}

/// How many rows or columns this constraint says, from 1 to 64.
pub fn span_of(said: &[Constraint], name: &str) -> u32
    ensures value { result ≡ place_in 1 64 (value_named name.now said.now) }
    ensures most { result ≤ 64 }
{
    match first_named(said, name) {
        Some(constraint) => span_in(&constraint.value),
        None => 1,
    }
}

fn sides_in(value: &Value) -> Sides
    ensures { result ≡ sides_in (Some value.now) }
{
    match value {
        Value::Sides(sides) => *sides,
        _ => NO_SIDES,
    }
}

fn choice_in(value: &Value) -> Option<u8>
    ensures { result ≡ choice_in (Some value.now) }
{
    match value {
        Value::Choice(_, place) => Some(*place),
        _ => None,
    }
}

fn number_in(value: &Value) -> Option<i64>
    ensures { result ≡ number_in (Some value.now) }
{
    match value {
        Value::Int(number) => Some(*number),
        _ => None,
    }
}

fn truth_in(value: &Value) -> bool
    ensures { result ≡ truth_in (Some value.now) }
{
    match value {
        Value::Bool(truth) => *truth,
        _ => true,
    }
}

fn index_in(value: &Value) -> u32
    ensures value { result ≡ place_in 0 255 (Some value.now) }
    ensures most { result ≤ 255 }
{
    match value {
        Value::Int(number) => index_within(*number),
        _ => 0,
    }
}

fn span_in(value: &Value) -> u32
    ensures value { result ≡ place_in 1 64 (Some value.now) }
    ensures most { result ≤ 64 }
{
    match value {
        Value::Int(number) => span_within(*number),
        _ => 1,
    }
}

fn index_within(number: i64) -> u32
    ensures value { result ≡ kept_in 0 255 number }
    ensures most { result ≤ 255 }
{
    if number < 0 {
        0
    } else {
        (number as u64).min(255) as u32
    }
}

fn span_within(number: i64) -> u32
    ensures value { result ≡ kept_in 1 64 number }
    ensures most { result ≤ 64 }
{
    if number < 0 {
        1
    } else {
        (number as u64).min(64).max(1) as u32
    }
}

fn first_named<'a>(said: &'a [Constraint], name: &str) -> Option<&'a Constraint>
    ensures { option_map (λ c. c.now) result ≡ find (λ c. bytes_eq c.name name.now) said.now }
{
    said.iter().find(|constraint| is_named(constraint, name))
}

fn is_named(constraint: &Constraint, name: &str) -> bool
    ensures { result ≡ bytes_eq constraint.now.name name.now }
{
    constraint.name.as_str() == name
}
