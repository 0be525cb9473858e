//! The style declarations: their names, the forms of their values, and the properties that they style.
//! Style sheets, the class table and looks are read by this table.
ghost use Rattle.std.specs.Prelude.{◌≡◌, ℕ, Some, IfOk, map};
ghost use Rattle.std.specs.List.{position};
ghost use Rattle.std.specs.Str.{bytes_eq};
ghost use Rattle.std.specs.Option.{option_map};
ghost use Rattle.fx_look.specs.Styles.{StyleRow, styles, kind_of_form};
ghost use Rattle.fx_look.specs.StyleRows.{style_row, style_at, style_named};

use fx_base::{Duplicate, Family, Kind, Same, Value};
use std::alloc::{AllocError, Global};

/// The style declarations by name, in the order of their table.
#[derive(Clone, Copy, PartialEq, Eq, Debug)]
pub enum StyleKey {
    Padding,
    Alignment,
    Spacing,
    Hgap,
    Vgap,
    FillWidth,
    FillHeight,
    MinWidth,
    MinHeight,
    PrefWidth,
    PrefHeight,
    MaxWidth,
    MaxHeight,
    BackgroundColor,
    BackgroundInsets,
    BorderColor,
    BorderWidth,
    BorderInsets,
    TextFill,
    FontSize,
    WrapText,
    Visibility,
}

/// A declaration by its place in their table, as `StyleName(StyleKey::Padding as u32)`.
#[derive(Clone, Copy, PartialEq, Eq, Debug)]
pub struct StyleName(pub u32);

/// What the value of a declaration is written as. Each takes `inherit` too.
#[derive(Clone, Copy, PartialEq, Eq, Debug)]
pub enum StyleForm {
    /// One size, or four in the order top, right, bottom, left.
    Sides,
    /// A constant of `Pos` in lower case, with `-` between its words.
    Position,
    /// A size in pixels.
    Size,
    /// `true` or `false`.
    Truth,
    /// `visible`, `hidden`, or `collapse`, which is as `hidden`.
    Visibility,
    /// A colour, or a name that is looked up.
    Paint,
    /// Paints separated by commas, one a layer.
    Paints,
    /// Sides separated by commas, one a layer.
    SidesList,
}

/// A style declaration (JavaFX CSS Reference Guide).
#[derive(Clone, Copy, Debug)]
pub struct Style {
    pub name: &'static str,
    pub form: StyleForm,
    /// The property that a winning value of the declaration sets, or none where only the look has it.
    pub property: Option<&'static str>,
}

/// A row: the name, the form of the value, and the property that is set, if one is.
macro_rules! style {
    ($name:literal, $form:ident) => {
        Style {
            name: $name,
            form: StyleForm::$form,
            property: None,
        }
    };
    ($name:literal, $form:ident, $property:literal) => {
        Style {
            name: $name,
            form: StyleForm::$form,
            property: Some($property),
        }
    };
}

const STYLES: &[Style] = &[
    style!("-fx-padding", Sides, "padding"),
    style!("-fx-alignment", Position, "alignment"),
    style!("-fx-spacing", Size, "spacing"),
    style!("-fx-hgap", Size, "hgap"),
    style!("-fx-vgap", Size, "vgap"),
    style!("-fx-fill-width", Truth, "fillWidth"),
    style!("-fx-fill-height", Truth, "fillHeight"),
    style!("-fx-min-width", Size, "minWidth"),
    style!("-fx-min-height", Size, "minHeight"),
    style!("-fx-pref-width", Size, "prefWidth"),
    style!("-fx-pref-height", Size, "prefHeight"),
    style!("-fx-max-width", Size, "maxWidth"),
    style!("-fx-max-height", Size, "maxHeight"),
    style!("-fx-background-color", Paints),
    style!("-fx-background-insets", SidesList),
    style!("-fx-border-color", Paints),
    style!("-fx-border-width", SidesList),
    style!("-fx-border-insets", SidesList),
    style!("-fx-text-fill", Paint, "textFill"),
    style!("-fx-font-size", Size, "fontSize"),
    style!("-fx-wrap-text", Truth, "wrapText"),
    style!("visibility", Visibility, "visible"),
];

/// How many style declarations there are.
pub const STYLE_COUNT: usize = STYLES.len();

/// The style declarations in their order.
pub fn style_table() -> &'static [Style]
    ensures { map style_row result.now ≡ styles }
{
    STYLES
}

/// The declaration of this name.
pub fn style_named(name: &str) -> Option<StyleName>
    ensures { result ≡ option_map (λ place. record { 0 = place }) (style_named name.now) }
{
    let place = place_of(name)?;
    Some(StyleName(place))
}

/// Each declaration is found by its own name, so no two share one.
pub fn each_named()
    ensures { (place : ℕ) (row : StyleRow) → style_at place ≡ Some row → style_named row.name ≡ Some place }
{}

fn place_of(name: &str) -> Option<u32>
    ensures { result ≡ style_named name.now }
{
    let place = find_style(style_table(), name)?;
    Some(place as u32)
}

fn find_style(table: &[Style], name: &str) -> Option<usize>
    ensures { result ≡ position (λ row. bytes_eq row.name name.now) (map style_row table.now) }
{
    find_row(table, name)
}

fn find_row(table: &[Style], name: &str) -> Option<usize>
    ensures { result ≡ position (λ row. bytes_eq row.name.now name.now) table.now }
{
    table.iter().position(|row| row.name == name)
}

impl StyleName {
    /// The declaration, if the place is one of the table's.
    pub fn style(self) -> Option<&'static Style>
        ensures { option_map (λ row. style_row row.now) result ≡ style_at self.0 }
    {
        style_table().get(self.0 as usize)
    }
}

impl StyleForm {
    /// The kind of the values that a declaration of this form gives to its property. Layers are no property's.
    pub fn kind(self) -> Option<Kind>
        ensures { result ≡ kind_of_form self }
    {
        match self {
            StyleForm::Sides => Some(Kind::Sides),
            StyleForm::Position => Some(Kind::Choice(Family::Pos)),
            StyleForm::Size => Some(Kind::Int),
            StyleForm::Truth => Some(Kind::Bool),
            StyleForm::Visibility => Some(Kind::Bool),
            StyleForm::Paint => Some(Kind::Color),
            StyleForm::Paints => None,
            StyleForm::SidesList => None,
        }
    }
}

/// A value that the scene gives a styled property, and whether a binding computes it.
#[derive(Drop)]
pub struct CodeValue {
    pub style: StyleName,
    pub value: Value,
    pub bound: bool,
}

impl CodeValue {
    /// A value of the same contents.
    pub fn copy(&self, alloc: Global) -> Result<CodeValue, AllocError>
        ensures { IfOk result (λ copy. copy ≡ self.now) }
    {
        Ok(CodeValue {
            style: self.style,
            value: self.value.copy(alloc)?,
            bound: self.bound,
        })
    }
}

impl Duplicate for CodeValue {
    fn duplicate(&self, alloc: Global) -> Result<Self, AllocError> {
        self.copy(alloc)
    }
}

impl Same for CodeValue {
    fn is_same(&self, other: &Self) -> bool {
        self.style == other.style && self.value.is_same(&other.value) && self.bound == other.bound
    }
}
