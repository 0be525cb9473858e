//! The fields of values that are written as instances.
ghost use Rattle.std.specs.Prelude.{◌≡◌, IfOk};
ghost use Rattle.fx_scene_instances.specs.Fields as spec;

use crate::made::Made;
use fx_base::{Family, Kind, Sides, Track, Value};
use fx_kinds::Class;
use fx_scene_flaws::Flaw;
use fx_scene_values::{Given, literal};
use std::alloc::{AllocError, Global};

/// What an attribute or a property element of an instance gives.
#[derive(Clone, Copy, Debug, PartialEq, Eq)]
pub enum Field {
    Top,
    Right,
    Bottom,
    Left,
    Size,
    Grow,
    Least,
    Preferred,
    Greatest,
    Align,
}

/// The field of this name of an instance of the class.
pub fn field_named(class: Class, name: &str) -> Option<Field>
    ensures { result ≡ spec.field_named class name.now }
{
    match class {
        Class::Insets => side_named(name),
        Class::Font => size_named(name),
        Class::ColumnConstraints => column_named(name),
        Class::RowConstraints => row_named(name),
        _ => None,
    }
}

fn side_named(name: &str) -> Option<Field>
    ensures { result ≡ spec.side_named name.now }
{
    match name {
        "top" => Some(Field::Top),
        "right" => Some(Field::Right),
        "bottom" => Some(Field::Bottom),
        "left" => Some(Field::Left),
        _ => None,
    }
}

fn size_named(name: &str) -> Option<Field>
    ensures { result ≡ spec.size_named name.now }
{
    match name {
        "size" => Some(Field::Size),
        _ => None,
    }
}

fn column_named(name: &str) -> Option<Field>
    ensures { result ≡ spec.column_named name.now }
{
    match name {
        "hgrow" => Some(Field::Grow),
        "minWidth" => Some(Field::Least),
        "prefWidth" => Some(Field::Preferred),
        "maxWidth" => Some(Field::Greatest),
        "halignment" => Some(Field::Align),
        _ => None,
    }
}

fn row_named(name: &str) -> Option<Field>
    ensures { result ≡ spec.row_named name.now }
{
    match name {
        "vgrow" => Some(Field::Grow),
        "minHeight" => Some(Field::Least),
        "prefHeight" => Some(Field::Preferred),
        "maxHeight" => Some(Field::Greatest),
        "valignment" => Some(Field::Align),
        _ => None,
    }
}

/// The kind of the values of the field.
pub fn field_kind(class: Class, field: Field) -> Kind
    ensures { result ≡ spec.field_kind class field }
{
    match field {
        Field::Grow => Kind::Choice(Family::Priority),
        Field::Align => align_kind(class),
        _ => Kind::Int,
    }
}

fn align_kind(class: Class) -> Kind
    ensures { result ≡ spec.align_kind class }
{
    match class {
        Class::ColumnConstraints => Kind::Choice(Family::HPos),
        _ => Kind::Choice(Family::VPos),
    }
}

/// What is made, with this value in the field.
pub fn with_value(field: Field, value: Value, made: Made) -> Made
    ensures { result ≡ spec.with_value field value made }
{
    match value {
        Value::Int(number) => with_number(field, number, made),
        Value::Choice(_, number) => with_constant(field, number, made),
        _ => made,
    }
}

fn with_number(field: Field, number: i64, made: Made) -> Made
    ensures { result ≡ spec.with_number field number made }
{
    match made {
        Made::Plain(Value::Sides(sides)) => {
            Made::Plain(Value::Sides(with_side(field, number, sides)))
        }
        Made::Plain(_) => Made::Plain(Value::Int(number)),
        Made::Track(track) => Made::Track(with_length(field, number, track)),
        Made::Location(name) => Made::Location(name),
    }
}

fn with_constant(field: Field, number: u8, made: Made) -> Made
    ensures { result ≡ spec.with_constant field number made }
{
    match made {
        Made::Plain(value) => Made::Plain(value),
        Made::Track(track) => Made::Track(with_choice(field, number, track)),
        Made::Location(name) => Made::Location(name),
    }
}

fn with_side(field: Field, number: i64, sides: Sides) -> Sides
    ensures { result ≡ spec.with_side field number sides }
{
    match field {
        Field::Top => Sides {
            top: number,
            ..sides
        },
        Field::Right => Sides {
            right: number,
            ..sides
        },
        Field::Bottom => Sides {
            bottom: number,
            ..sides
        },
        Field::Left => Sides {
            left: number,
            ..sides
        },
        _ => sides,
    }
}

fn with_length(field: Field, number: i64, track: Track) -> Track
    ensures { result ≡ spec.with_length field number track }
{
    match field {
        Field::Least => Track {
            min: number,
            ..track
        },
        Field::Preferred => Track {
            pref: number,
            ..track
        },
        Field::Greatest => Track {
            max: number,
            ..track
        },
        _ => track,
    }
}

fn with_choice(field: Field, number: u8, track: Track) -> Track
    ensures { result ≡ spec.with_choice field number track }
{
    match field {
        Field::Grow => Track {
            grow: Some(number),
            ..track
        },
        Field::Align => Track {
            align: Some(number),
            ..track
        },
        _ => track,
    }
}

fn empty_sides() -> Value
    ensures { result ≡ spec.empty_sides }
{
    Value::Sides(Sides {
        top: 0,
        right: 0,
        bottom: 0,
        left: 0,
    })
}

fn plain_track() -> Track
    ensures { result ≡ spec.plain_track }
{
    Track {
        min: -1,
        pref: -1,
        max: -1,
        grow: None,
        align: None,
    }
}

/// What an instance of the class is without attributes and content.
pub fn first_made(class: Class) -> Made
    ensures { result ≡ spec.first_made class }
{
    match class {
        Class::Insets => Made::Plain(empty_sides()),
        Class::ColumnConstraints => Made::Track(plain_track()),
        Class::RowConstraints => Made::Track(plain_track()),
        _ => Made::Plain(Value::Int(12)),
    }
}

/// The constant of the class that has this name.
pub fn constant_named(alloc: Global, class: Class, name: &str) -> Result<Given, AllocError>
    ensures { IfOk result (λ given. given ≡ spec.constant_named class name.now) }
{
    match class {
        Class::Pos => literal(alloc, Kind::Choice(Family::Pos), name),
        Class::Priority => literal(alloc, Kind::Choice(Family::Priority), name),
        Class::HPos => literal(alloc, Kind::Choice(Family::HPos), name),
        Class::VPos => literal(alloc, Kind::Choice(Family::VPos), name),
        _ => Ok(fixed_constant(class, name)),
    }
}

fn fixed_constant(class: Class, name: &str) -> Given
    ensures { result ≡ spec.fixed_constant class name.now }
{
    match class {
        Class::Integer => integer_constant(name),
        Class::Double => double_constant(name),
        Class::Region => region_constant(name),
        Class::Insets => insets_constant(name),
        _ => Given::Flaw(Flaw::Property),
    }
}

fn integer_constant(name: &str) -> Given
    ensures { result ≡ spec.integer_constant name.now }
{
    match name {
        "MAX_VALUE" => Given::Value(Value::Int(2147483647)),
        "MIN_VALUE" => Given::Value(Value::Int(-2147483648)),
        _ => Given::Flaw(Flaw::Value),
    }
}

fn double_constant(name: &str) -> Given
    ensures { result ≡ spec.double_constant name.now }
{
    match name {
        "MAX_VALUE" => Given::Value(Value::Int(9223372036854775807)),
        _ => Given::Flaw(Flaw::Value),
    }
}

fn region_constant(name: &str) -> Given
    ensures { result ≡ spec.region_constant name.now }
{
    match name {
        "USE_PREF_SIZE" => Given::Value(Value::Int(-9223372036854775808)),
        "USE_COMPUTED_SIZE" => Given::Value(Value::Int(-1)),
        _ => Given::Flaw(Flaw::Value),
    }
}

fn insets_constant(name: &str) -> Given
    ensures { result ≡ spec.insets_constant name.now }
{
    match name {
        "EMPTY" => Given::Value(empty_sides()),
        _ => Given::Flaw(Flaw::Value),
    }
}
