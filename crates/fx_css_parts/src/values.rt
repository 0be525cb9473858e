//! The values of declarations: paints, positions, truths and visibilities, and layers of them (JavaFX CSS Reference
//! Guide). A declaration is a name and one of them.
ghost use Rattle.std.specs.Prelude.{◌≡◌, IfOk, map};
ghost use Rattle.std.specs.List.{position};
ghost use Rattle.std.specs.Option.{option_map};
ghost use Rattle.std.specs.Str.{bytes_eq};
ghost use Rattle.fx_base.specs.declared.kinds.Family.TheVariants.{Pos as PosFamily};
ghost use Rattle.fx_base.specs.declared.values.Value.TheVariants as value;
ghost use Rattle.fx_look.specs.Numbers.{size_at};
ghost use Rattle.fx_look.specs.Insets.{sides_at};
ghost use Rattle.fx_css_types.specs.declared.declarations.Declared.TheVariants as declared;
ghost use Rattle.fx_css_parts.specs.Layers.{separated_at};
ghost use Rattle.fx_css_parts.specs.Declaring.{positions, position_at, truth_at, visibility_at, insets_at, paint_at, styled_at, declared_at};

use crate::layers::split_part;
use crate::texts::read_ident;
use fx_base::{Family, List, Sides, Value};
use fx_css_types::{Declared, Paint};
use fx_look::{StyleForm, color_at, size_at, sizes_at};
use std::alloc::{AllocError, Global};

/// The constants of `Pos` in their order, in lower case with `-` between their words.
static POSITIONS: [&str; 9] = [
    "top-left",
    "top-center",
    "top-right",
    "center-left",
    "center",
    "center-right",
    "bottom-left",
    "bottom-center",
    "bottom-right",
];

/// How many layers are given room at first: few values have more.
const COMMON_LAYERS: usize = 2;

/// The value of a style declaration of this form, or of a declaration of any other name.
pub fn read_declared(
    alloc: Global,
    form: Option<StyleForm>,
    text: &[u8],
) -> Result<Option<Declared>, AllocError>
    ensures { IfOk result (λ o. o ≡ declared_at form text.now) }
{
    match form {
        None => paint_value(alloc, text),
        Some(form) => {
            if text == b"inherit".as_slice() {
                return Ok(Some(Declared::Inherit));
            }
            read_styled(alloc, form, text)
        }
    }
}

fn read_styled(alloc: Global, form: StyleForm, text: &[u8]) -> Result<Option<Declared>, AllocError>
    ensures { IfOk result (λ o. o ≡ styled_at form text.now) }
{
    match form {
        StyleForm::Sides => Ok(sides_value(text)),
        StyleForm::Position => Ok(position_value(text)),
        StyleForm::Size => Ok(size_value(text)),
        StyleForm::Truth => Ok(truth_value(text)),
        StyleForm::Visibility => Ok(visibility_value(text)),
        StyleForm::Paint => paint_value(alloc, text),
        StyleForm::Paints => paint_layers(alloc, text),
        StyleForm::SidesList => sides_layers(alloc, text),
    }
}

fn sides_value(text: &[u8]) -> Option<Declared>
    ensures { result ≡ option_map (λ s. declared.Plain (value.Sides s)) (sides_at size_at text.now) }
{
    let sides = sizes_at(text)?;
    Some(Declared::Plain(Value::Sides(sides)))
}

fn position_value(text: &[u8]) -> Option<Declared>
    ensures { result ≡ option_map (λ place. declared.Plain (value.Choice PosFamily place)) (position_at text.now) }
{
    let place = position_of(text)?;
    Some(Declared::Plain(Value::Choice(Family::Pos, place)))
}

fn size_value(text: &[u8]) -> Option<Declared>
    ensures { result ≡ option_map (λ n. declared.Plain (value.Int n)) (size_at text.now) }
{
    let size = size_at(text)?;
    Some(Declared::Plain(Value::Int(size)))
}

fn truth_value(text: &[u8]) -> Option<Declared>
    ensures { result ≡ option_map (λ b. declared.Plain (value.Bool b)) (truth_at text.now) }
{
    let truth = truth(text)?;
    Some(Declared::Plain(Value::Bool(truth)))
}

fn visibility_value(text: &[u8]) -> Option<Declared>
    ensures { result ≡ option_map (λ b. declared.Plain (value.Bool b)) (visibility_at text.now) }
{
    let visible = visibility(text)?;
    Some(Declared::Plain(Value::Bool(visible)))
}

fn paint_value(alloc: Global, text: &[u8]) -> Result<Option<Declared>, AllocError>
    ensures { IfOk result (λ o. o ≡ option_map declared.Paint (paint_at text.now)) }
{
    match read_paint(alloc, text)? {
        Some(paint) => Ok(Some(Declared::Paint(paint))),
        None => Ok(None),
    }
}

fn paint_layers(alloc: Global, text: &[u8]) -> Result<Option<Declared>, AllocError>
    ensures { IfOk result (λ o. o ≡ option_map declared.Paints (separated_at paint_at text.now)) }
{
    match each_paint(alloc, text)? {
        Some(paints) => Ok(Some(Declared::Paints(List::from_vec(paints)))),
        None => Ok(None),
    }
}

fn sides_layers(alloc: Global, text: &[u8]) -> Result<Option<Declared>, AllocError>
    ensures { IfOk result (λ o. o ≡ option_map declared.SidesList (separated_at insets_at text.now)) }
{
    match each_sides(alloc, text)? {
        Some(layers) => Ok(Some(Declared::SidesList(List::from_vec(layers)))),
        None => Ok(None),
    }
}

fn each_paint(alloc: Global, text: &[u8]) -> Result<Option<Vec<Paint>>, AllocError>
    ensures { IfOk result (λ o. option_map (λ v. v.items) o ≡ separated_at paint_at text.now) }
{
    let mut paints = Vec::with_capacity(alloc, COMMON_LAYERS)?;
    let mut left = Some(text);
    while let Some(rest) = left {
        let (part, behind) = split_part(rest);
        let Some(paint) = read_paint(alloc, part)? else {
            return Ok(None);
        };
        paints.push(paint)?;
        left = behind;
    }
    Ok(Some(paints))
}

fn each_sides(alloc: Global, text: &[u8]) -> Result<Option<Vec<Sides>>, AllocError>
    ensures { IfOk result (λ o. option_map (λ v. v.items) o ≡ separated_at insets_at text.now) }
{
    let mut layers = Vec::with_capacity(alloc, COMMON_LAYERS)?;
    let mut left = Some(text);
    while let Some(rest) = left {
        let (part, behind) = split_part(rest);
        let Some(layer) = sizes_at(part) else {
            return Ok(None);
        };
        layers.push(layer)?;
        left = behind;
    }
    Ok(Some(layers))
}

/// A colour, or else a name that is looked up.
fn read_paint(alloc: Global, text: &[u8]) -> Result<Option<Paint>, AllocError>
    ensures { IfOk result (λ o. o ≡ paint_at text.now) }
{
    if let Some(color) = color_at(text) {
        return Ok(Some(Paint::Color(color)));
    }
    match read_ident(alloc, text)? {
        Some(name) => Ok(Some(Paint::Named(name))),
        None => Ok(None),
    }
}

fn truth(text: &[u8]) -> Option<bool>
    ensures { result ≡ truth_at text.now }
{
    if text == b"true".as_slice() {
        return Some(true);
    }
    if text == b"false".as_slice() {
        return Some(false);
    }
    None
}

/// Is a node of this visibility seen? A collapsed one is as a hidden one.
fn visibility(text: &[u8]) -> Option<bool>
    ensures { result ≡ visibility_at text.now }
{
    if text == b"visible".as_slice() {
        return Some(true);
    }
    if text == b"hidden".as_slice() || text == b"collapse".as_slice() {
        return Some(false);
    }
    None
}

fn position_of(text: &[u8]) -> Option<u8>
    ensures { result ≡ position_at text.now }
{
    let place = find_position(position_table(), text)?;
    Some(place as u8)
}

fn position_table() -> &'static [&'static str]
    ensures { map (λ constant. constant.now) result.now ≡ positions }
{
    &POSITIONS
}

fn find_position(constants: &[&str], text: &[u8]) -> Option<usize>
    ensures { result
        ≡ position (λ constant. bytes_eq constant text.now) (map (λ constant. constant.now) constants.now) }
{
    find_place(constants, text)
}

fn find_place(constants: &[&str], text: &[u8]) -> Option<usize>
    ensures { result ≡ position (λ constant. bytes_eq constant.now text.now) constants.now }
{
    constants
        .iter()
        .position(|constant| constant.as_bytes() == text)
}
