//! What a row of a look is by the value that wins it, by the kind of the row.
ghost use Rattle.std.specs.Prelude.{◌≡◌, ◌↔◌, ◌∷◌, [], ℕ, ℤ, Bool, Some, IsTrue, OnOk};
ghost use Rattle.fx_base.specs.declared.geometry.Sides.{Sides as Insets};
ghost use Rattle.fx_css_types.specs.declared.declarations.FoundValue.TheVariants as found;
ghost use Rattle.std.specs.Option.{option_map};
ghost use Rattle.fx_node_style.specs.Kinds.{length_in, truth_in, sides_in, layers_in, place_in};
ghost use Rattle.fx_node_style.specs.Values.{found_value};

use crate::values::Winning;
use fx_base::{List, Same, Sides, Value};
use fx_css_types::Declared;
use std::alloc::{AllocError, Global};
use std::mem;

/// A size: the one that wins, the parent's under `inherit`, else the initial one.
pub fn length_in(found: Option<Winning>, unset: i64, parent: i64) -> i64
    ensures { result ≡ length_in (option_map found_value found.entry) unset parent }
{
    match found {
        None => unset,
        Some(Winning::Code(value)) => length_of(value, unset),
        Some(Winning::Declared(declared)) => declared_length(declared, unset, parent),
    }
}

fn declared_length(declared: &Declared, unset: i64, parent: i64) -> i64
    ensures { result ≡ length_in (Some (found.Declared declared.now)) unset parent }
{
    match declared {
        Declared::Plain(value) => length_of(value, unset),
        Declared::Inherit => parent,
        _ => unset,
    }
}

fn length_of(value: &Value, unset: i64) -> i64
    ensures { (parent : ℤ) → result ≡ length_in (Some (found.Code value.now)) unset parent }
{
    match value {
        Value::Int(v) => *v,
        _ => unset,
    }
}

pub fn truth_in(found: Option<Winning>, unset: bool, parent: bool) -> bool
    ensures { result ≡ truth_in (option_map found_value found.entry) unset parent }
{
    match found {
        None => unset,
        Some(Winning::Code(value)) => truth_of(value, unset),
        Some(Winning::Declared(declared)) => declared_truth(declared, unset, parent),
    }
}

fn declared_truth(declared: &Declared, unset: bool, parent: bool) -> bool
    ensures { result ≡ truth_in (Some (found.Declared declared.now)) unset parent }
{
    match declared {
        Declared::Plain(value) => truth_of(value, unset),
        Declared::Inherit => parent,
        _ => unset,
    }
}

fn truth_of(value: &Value, unset: bool) -> bool
    ensures { (parent : Bool) → result ≡ truth_in (Some (found.Code value.now)) unset parent }
{
    match value {
        Value::Bool(v) => *v,
        _ => unset,
    }
}

pub fn sides_in(found: Option<Winning>, unset: Sides, parent: Sides) -> Sides
    ensures { result ≡ sides_in (option_map found_value found.entry) unset parent }
{
    match found {
        None => unset,
        Some(Winning::Code(value)) => sides_of(value, unset),
        Some(Winning::Declared(declared)) => declared_sides(declared, unset, parent),
    }
}

fn declared_sides(declared: &Declared, unset: Sides, parent: Sides) -> Sides
    ensures { result ≡ sides_in (Some (found.Declared declared.now)) unset parent }
{
    match declared {
        Declared::Plain(value) => sides_of(value, unset),
        Declared::Inherit => parent,
        _ => unset,
    }
}

fn sides_of(value: &Value, unset: Sides) -> Sides
    ensures { (parent : Insets) → result ≡ sides_in (Some (found.Code value.now)) unset parent }
{
    match value {
        Value::Sides(v) => *v,
        _ => unset,
    }
}

/// The sides of layers, in the place of other ones.
pub fn write_layers(
    alloc: Global,
    layers: &mut List<Sides>,
    found: Option<Winning>,
    unset: Sides,
    parent: &List<Sides>,
) -> Result<(), AllocError>
    ensures { OnOk result (layers.new ≡ layers_in (option_map found_value found.entry) unset parent.now) }
{
    match found {
        Some(Winning::Declared(Declared::SidesList(list))) => fill(alloc, layers, list.as_slice()),
        Some(Winning::Declared(Declared::Inherit)) => fill(alloc, layers, parent.as_slice()),
        _ => fill_one(alloc, layers, unset),
    }
}

/// One layer of these sides, which mostly stands there already.
fn fill_one(alloc: Global, layers: &mut List<Sides>, one: Sides) -> Result<(), AllocError>
    ensures { OnOk result (layers.new ≡ one ∷ []) }
{
    if is_one(layers.as_slice(), one) {
        return Ok(());
    }
    fill(alloc, layers, &[one])
}

fn is_one(layers: &[Sides], one: Sides) -> bool
    ensures { IsTrue result ↔ (layers.now ≡ one ∷ []) }
{
    match layers {
        [only] => only.is_same(&one),
        _ => false,
    }
}

fn fill(alloc: Global, layers: &mut List<Sides>, sides: &[Sides]) -> Result<(), AllocError>
    ensures { OnOk result (layers.new ≡ sides.now) }
{
    let mut items = mem::replace(layers, List::new(alloc)).into_vec();
    items.clear();
    items.reserve_exact(sides.len())?;
    items.extend_from_slice(sides)?;
    *layers = List::from_vec(items);
    Ok(())
}

/// The place of a constant.
pub fn place_in(found: Option<Winning>, unset: u8, parent: u8) -> u8
    ensures { result ≡ place_in (option_map found_value found.entry) unset parent }
{
    match found {
        None => unset,
        Some(Winning::Code(value)) => place_of(value, unset),
        Some(Winning::Declared(declared)) => declared_place(declared, unset, parent),
    }
}

fn declared_place(declared: &Declared, unset: u8, parent: u8) -> u8
    ensures { result ≡ place_in (Some (found.Declared declared.now)) unset parent }
{
    match declared {
        Declared::Plain(value) => place_of(value, unset),
        Declared::Inherit => parent,
        _ => unset,
    }
}

fn place_of(value: &Value, unset: u8) -> u8
    ensures { (parent : ℕ) → result ≡ place_in (Some (found.Code value.now)) unset parent }
{
    match value {
        Value::Choice(_, place) => *place,
        _ => unset,
    }
}
