//! Values that tables hold.
//! The tables of properties and of constraints give theirs by them.
ghost use Rattle.std.specs.Prelude.{◌≡◌};
ghost use Rattle.fx_kinds.specs.Presets.{preset_value};

use fx_base::{Color, Family, Sides, Text, Value};
use std::alloc::Global;

/// A value that a table holds.
#[derive(Clone, Copy, Debug)]
pub enum Preset {
    Int(i64),
    Bool(bool),
    EmptyText,
    Choice(Family, u8),
    Color(Color),
    /// The same length on each side.
    EvenSides(i64),
}

impl Preset {
    /// The value. It takes no memory.
    pub fn value(self, alloc: Global) -> Value
        ensures { result ≡ preset_value self }
    {
        match self {
            Preset::Int(number) => Value::Int(number),
            Preset::Bool(truth) => Value::Bool(truth),
            Preset::EmptyText => Value::Text(Text::new(alloc)),
            Preset::Choice(family, place) => Value::Choice(family, place),
            Preset::Color(color) => Value::Color(color),
            Preset::EvenSides(length) => Value::Sides(Sides {
                top: length,
                right: length,
                bottom: length,
                left: length,
            }),
        }
    }
}
