//! Values of properties, and how they are printed.
ghost use Rattle.std.specs.Prelude.{◌≡◌, ◌++◌, IfOk, IsOk, OnOk, OnErr, true, IsTrue, ◌↔◌};
ghost use Rattle.std.specs.List.{flat_map};
ghost use Rattle.std.specs.Fmt.{signed_decimal};
ghost use Rattle.fx_base.specs.Printing.{printed, kind_of, is_plain, escaped, hexadecimal, constant_at, sides_text};

use crate::color::Color;
use crate::geometry::Sides;
use crate::kinds::{Family, Kind};
use crate::lists::Duplicate;
use crate::texts::Text;
use fx_text::hex_digit;
use std::alloc::{AllocError, Global};

/// What a property holds. A choice is a family and the place of a constant in it.
#[derive(Drop, PartialEq)]
pub enum Value {
    Int(i64),
    Bool(bool),
    Text(Text),
    Choice(Family, u8),
    Color(Color),
    Sides(Sides),
}

impl Value {
    /// The kind of the value.
    pub fn kind(&self) -> Kind
        ensures { result ≡ kind_of self.now }
    {
        match self {
            Value::Int(_) => Kind::Int,
            Value::Bool(_) => Kind::Bool,
            Value::Text(_) => Kind::Text,
            Value::Choice(family, _) => Kind::Choice(*family),
            Value::Color(_) => Kind::Color,
            Value::Sides(_) => Kind::Sides,
        }
    }

    /// Are the two one value? `==` answers the same.
    #[inline]
    pub fn equals(&self, other: &Value) -> bool
        ensures { IsTrue result ↔ (self.now ≡ other.now) }
    {
        match (self, other) {
            (Value::Int(a), Value::Int(b)) => a == b,
            (Value::Bool(a), Value::Bool(b)) => a == b,
            (Value::Text(a), Value::Text(b)) => a.is_text(b),
            (Value::Choice(a, i), Value::Choice(b, j)) => a == b && i == j,
            (Value::Color(a), Value::Color(b)) => a == b,
            (Value::Sides(a), Value::Sides(b)) => a.equals(*b),
            _ => false,
        }
    }

    /// A value of the same contents. A copy takes memory for a text alone.
    #[inline]
    pub fn copy(&self, alloc: Global) -> Result<Value, AllocError>
        ensures value { IfOk result (λ copy. copy ≡ self.now) }
        ensures firm { is_plain self.now ≡ true → IsOk result }
    {
        match self {
            Value::Int(number) => Ok(Value::Int(*number)),
            Value::Bool(truth) => Ok(Value::Bool(*truth)),
            Value::Text(text) => Ok(Value::Text(text.copy(alloc)?)),
            Value::Choice(family, place) => Ok(Value::Choice(*family, *place)),
            Value::Color(color) => Ok(Value::Color(*color)),
            Value::Sides(sides) => Ok(Value::Sides(*sides)),
        }
    }

    /// Appends the printed value: a decimal; `true` or `false`; a text with backslash, line feed and carriage
    /// return as `\\`, `\n` and `\r`; the name of a constant; `#rrggbbaa`; or `top right bottom left`.
    pub fn print(&self, alloc: Global, out: &mut Vec<u8>) -> Result<(), AllocError>
        ensures ok { OnOk result (out.new.items ≡ out.old.items ++ printed self.now) }
        ensures err { OnErr result (out.new.items ≡ out.old.items) }
    {
        let text = self.rendered(alloc)?;
        out.extend_from_slice(text.as_slice())
    }

    fn rendered(&self, alloc: Global) -> Result<Vec<u8>, AllocError>
        ensures { IfOk result (λ text. text.items ≡ printed self.now) }
    {
        match self {
            Value::Int(number) => decimal_text(alloc, *number),
            Value::Bool(true) => Vec::from_slice(alloc, b"true"),
            Value::Bool(false) => Vec::from_slice(alloc, b"false"),
            Value::Text(text) => escaped_text(alloc, text.as_str()),
            Value::Choice(family, place) => Vec::from_slice(
                alloc,
                constant(*family, *place).as_bytes(),
            ),
            Value::Color(color) => Vec::from_slice(alloc, &color_text(*color)),
            Value::Sides(sides) => sides_line(alloc, *sides),
        }
    }
}

impl Duplicate for Value {
    fn duplicate(&self, alloc: Global) -> Result<Self, AllocError> {
        self.copy(alloc)
    }
}

fn decimal_text(alloc: Global, number: i64) -> Result<Vec<u8>, AllocError>
    ensures { IfOk result (λ text. text.items ≡ signed_decimal number) }
{
    Ok(format!(in alloc; "{number}")?.into_bytes())
}

fn sides_line(alloc: Global, sides: Sides) -> Result<Vec<u8>, AllocError>
    ensures { IfOk result (λ text. text.items ≡ sides_text sides) }
{
    let Sides {
        top,
        right,
        bottom,
        left,
    } = sides;
    Ok(format!(in alloc; "{top} {right} {bottom} {left}")?.into_bytes())
}

/// The constant at this place of its family, or the empty text past its end.
fn constant(family: Family, place: u8) -> &'static str
    ensures { result.now ≡ constant_at family place }
{
    match family.constants().get(place as usize) {
        Some(name) => name,
        None => "",
    }
}

fn color_text(color: Color) -> [u8; 9]
    ensures { result ≡ hexadecimal color }
{
    let Color { r, g, b, a } = color;
    [
        b'#',
        hex_digit(r / 16),
        hex_digit(r % 16),
        hex_digit(g / 16),
        hex_digit(g % 16),
        hex_digit(b / 16),
        hex_digit(b % 16),
        hex_digit(a / 16),
        hex_digit(a % 16),
    ]
}

fn escaped_text(alloc: Global, text: &str) -> Result<Vec<u8>, AllocError>
    ensures { IfOk result (λ all. all.items ≡ flat_map escaped text.now) }
{
    let bytes = text.as_bytes();
    let mut all = Vec::with_capacity(alloc, bytes.len())?;
    for byte in bytes {
        push_escaped(&mut all, *byte)?;
    }
    Ok(all)
}

fn push_escaped(all: &mut Vec<u8>, byte: u8) -> Result<(), AllocError>
    ensures { OnOk result (all.new.items ≡ all.old.items ++ escaped byte) }
{
    match byte {
        b'\\' => all.extend_from_slice(b"\\\\"),
        b'\n' => all.extend_from_slice(b"\\n"),
        b'\r' => all.extend_from_slice(b"\\r"),
        _ => all.extend_from_slice(&[byte]),
    }
}
