//! Paints, some of which are looked up.
ghost use Rattle.std.specs.Prelude.{◌≡◌, [], Some, IfOk, OnOk, map};
ghost use Rattle.std.specs.Option.{option_map};
ghost use Rattle.fx_lookup.specs.Lookups.{resolved};
ghost use Rattle.fx_css_types.specs.declared.declarations.FoundValue.TheVariants as found;
ghost use Rattle.fx_node_style.specs.Kinds.{color_in, colors_in, code_color, colors_of, painted, or_color};
ghost use Rattle.fx_node_style.specs.Values.{found_value};

use crate::values::Winning;
use fx_base::{Color, List, Value};
use fx_css_types::{Declared, Paint};
use fx_lookup::{NamedPaint, resolve};
use std::alloc::{AllocError, Global};
use std::mem;

fn painted<'a>(
    alloc: Global,
    paint: &'a Paint,
    chain: &[&'a [NamedPaint]],
) -> Result<Option<Color>, AllocError>
    ensures { IfOk result (λ found. found ≡ painted (resolved (map (λ n. n.now) chain.now)) paint.now) }
{
    match paint {
        Paint::Color(color) => Ok(Some(*color)),
        Paint::Named(name) => resolve(alloc, name, chain),
    }
}

fn color_or<'a>(
    alloc: Global,
    paint: &'a Paint,
    chain: &[&'a [NamedPaint]],
    unset: Color,
) -> Result<Color, AllocError>
    ensures { IfOk result (λ color. color
        ≡ or_color unset (painted (resolved (map (λ n. n.now) chain.now)) paint.now)) }
{
    match painted(alloc, paint, chain)? {
        Some(color) => Ok(color),
        None => Ok(unset),
    }
}

/// The colour of one paint.
pub fn color_in<'a>(
    alloc: Global,
    found: Option<Winning<'a>>,
    chain: &[&'a [NamedPaint]],
    unset: Color,
    parent: Color,
) -> Result<Color, AllocError>
    ensures { IfOk result (λ color. color
        ≡ color_in (resolved (map (λ n. n.now) chain.now)) (option_map found_value found.entry) unset parent) }
{
    match found {
        None => Ok(unset),
        Some(Winning::Code(value)) => Ok(color_of(value, unset)),
        Some(Winning::Declared(declared)) => declared_color(alloc, declared, chain, unset, parent),
    }
}

fn color_of(value: &Value, unset: Color) -> Color
    ensures { result ≡ code_color value.now unset }
{
    match value {
        Value::Color(color) => *color,
        _ => unset,
    }
}

fn declared_color<'a>(
    alloc: Global,
    declared: &'a Declared,
    chain: &[&'a [NamedPaint]],
    unset: Color,
    parent: Color,
) -> Result<Color, AllocError>
    ensures { IfOk result (λ color. color
        ≡ color_in (resolved (map (λ n. n.now) chain.now)) (Some (found.Declared declared.now)) unset parent) }
{
    match declared {
        Declared::Paint(paint) => color_or(alloc, paint, chain, unset),
        Declared::Inherit => Ok(parent),
        _ => Ok(unset),
    }
}

/// The colours of layers of paints, in the place of other ones; a layer whose name gives no colour is transparent.
pub fn write_colors<'a>(
    alloc: Global,
    colors: &mut List<Color>,
    found: Option<Winning<'a>>,
    chain: &[&'a [NamedPaint]],
    parent: &List<Color>,
) -> Result<(), AllocError>
    ensures { OnOk result (colors.new
        ≡ colors_in (resolved (map (λ n. n.now) chain.now)) (option_map found_value found.entry) parent.now) }
{
    match found {
        Some(Winning::Declared(declared)) => {
            write_declared(alloc, colors, declared, chain, parent)
        }
        _ => {
            empty(alloc, colors);
            Ok(())
        }
    }
}

fn write_declared<'a>(
    alloc: Global,
    colors: &mut List<Color>,
    declared: &'a Declared,
    chain: &[&'a [NamedPaint]],
    parent: &List<Color>,
) -> Result<(), AllocError>
    ensures { OnOk result (colors.new
        ≡ colors_in (resolved (map (λ n. n.now) chain.now)) (Some (found.Declared declared.now)) parent.now) }
{
    match declared {
        Declared::Paints(paints) => write_painted(alloc, colors, paints.as_slice(), chain),
        Declared::Inherit => fill(alloc, colors, parent.as_slice()),
        _ => {
            empty(alloc, colors);
            Ok(())
        }
    }
}

fn empty(alloc: Global, colors: &mut List<Color>)
    ensures { colors.new ≡ [] }
{
    match colors.as_slice() {
        [] => (),
        [_, ..] => *colors = List::from_vec(emptied(alloc, colors)),
    }
}

/// The memory of the colours, with nothing in it.
fn emptied(alloc: Global, colors: &mut List<Color>) -> Vec<Color>
    ensures { result.items ≡ [] }
{
    let mut items = mem::replace(colors, List::new(alloc)).into_vec();
    items.clear();
    items
}

fn fill(alloc: Global, colors: &mut List<Color>, from: &[Color]) -> Result<(), AllocError>
    ensures { OnOk result (colors.new ≡ from.now) }
{
    let mut items = emptied(alloc, colors);
    items.reserve_exact(from.len())?;
    items.extend_from_slice(from)?;
    *colors = List::from_vec(items);
    Ok(())
}

fn write_painted<'a>(
    alloc: Global,
    colors: &mut List<Color>,
    paints: &'a [Paint],
    chain: &[&'a [NamedPaint]],
) -> Result<(), AllocError>
    ensures { OnOk result (colors.new ≡ colors_of (resolved (map (λ n. n.now) chain.now)) paints.now) }
{
    let mut items = emptied(alloc, colors);
    items.reserve_exact(paints.len())?;
    for paint in paints {
        items.push(color_or(alloc, paint, chain, TRANSPARENT)?)?;
    }
    *colors = List::from_vec(items);
    Ok(())
}

/// No colour (JavaFX `Color.TRANSPARENT`).
const TRANSPARENT: Color = Color {
    r: 0,
    g: 0,
    b: 0,
    a: 0,
};
