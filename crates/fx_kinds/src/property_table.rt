//! The properties of nodes: of each its name, kind, initial value and style declaration, and of which classes it is.
//! Loaders, script lines and facts for styling go by this table.
ghost use Rattle.std.specs.Prelude.{◌≡◌, ◌≢◌, ◌<◌, ℕ, List, Some, IfSome, IsOkAnd, map, length, slice_get};
ghost use Rattle.std.specs.List.{Contains, position};
ghost use Rattle.std.specs.Str.{bytes_eq};
ghost use Rattle.fx_look.specs.Styles.{StyleRow, kind_of_form};
ghost use Rattle.fx_look.specs.StyleRows.{style_at};
ghost use Rattle.fx_kinds.specs.declared.classes.Class.{Class as ClassName};
ghost use Rattle.fx_kinds.specs.Properties.{PropertyRow, ListedProperty, rows, rows_of, styled_by, properties_of, initial_of, initial_alignment};
ghost use Rattle.fx_kinds.specs.Listing.{listed_property, listed_with, row_with, initial_value};

use crate::classes::Class;
use crate::presets::Preset;
use fx_base::{Color, Family, Kind, Value};
use fx_look::{StyleKey, StyleName};
use std::alloc::{AllocError, Global};

/// A property as the nodes of a class have it (JavaFX 21 API).
#[derive(Clone, Copy, Debug)]
pub struct Property {
    pub name: &'static str,
    pub kind: Kind,
    /// Is it computed by the layout alone?
    pub read_only: bool,
    /// The style declaration that sets it in the look of a node.
    pub styled: Option<StyleName>,
    initial: FirstValue,
}

/// What a property holds before anything sets it.
#[derive(Clone, Copy, Debug)]
enum FirstValue {
    Always(Preset),
    /// Buttons alone take part in the traversal.
    FocusTraversable,
    /// The alignment of the class.
    Alignment,
}

const EMPTY: FirstValue = FirstValue::Always(Preset::EmptyText);

const ZERO: FirstValue = FirstValue::Always(Preset::Int(0));

const TWELVE: FirstValue = FirstValue::Always(Preset::Int(12));
/// Computed by the layout where nothing is set (JavaFX `Region.USE_COMPUTED_SIZE`).
const UNSET: FirstValue = FirstValue::Always(Preset::Int(-1));

const TRUE: FirstValue = FirstValue::Always(Preset::Bool(true));

const FALSE: FirstValue = FirstValue::Always(Preset::Bool(false));

const NO_SIDES: FirstValue = FirstValue::Always(Preset::EvenSides(0));
/// Black (JavaFX `Color.BLACK`).
const BLACK: FirstValue = FirstValue::Always(Preset::Color(Color {
    r: 0,
    g: 0,
    b: 0,
    a: 255,
}));

/// A row: the name, the kind, what it holds at first, and the style declaration that sets it, if one does.
macro_rules! property {
    ($name:literal, $kind:expr, $initial:expr) => {
        Property {
            name: $name,
            kind: $kind,
            read_only: false,
            styled: None,
            initial: $initial,
        }
    };
    ($name:literal, $kind:expr, $initial:expr, $style:ident) => {
        Property {
            name: $name,
            kind: $kind,
            read_only: false,
            styled: Some(StyleName(StyleKey::$style as u32)),
            initial: $initial,
        }
    };
}

/// A row of a length that the layout computes.
macro_rules! computed {
    ($name:literal) => {
        Property {
            name: $name,
            kind: Kind::Int,
            read_only: true,
            styled: None,
            initial: ZERO,
        }
    };
}

/// The properties of every node, and those of a class behind them.
macro_rules! with_common {
    ($($row:expr),*) => {
        &[
            property!("id", Kind::Text, EMPTY),
            property!("visible", Kind::Bool, TRUE, Visibility),
            property!("disable", Kind::Bool, FALSE),
            property!("focusTraversable", Kind::Bool, FirstValue::FocusTraversable),
            property!("layoutX", Kind::Int, ZERO),
            property!("layoutY", Kind::Int, ZERO),
            property!("minWidth", Kind::Int, UNSET, MinWidth),
            property!("minHeight", Kind::Int, UNSET, MinHeight),
            property!("prefWidth", Kind::Int, UNSET, PrefWidth),
            property!("prefHeight", Kind::Int, UNSET, PrefHeight),
            property!("maxWidth", Kind::Int, UNSET, MaxWidth),
            property!("maxHeight", Kind::Int, UNSET, MaxHeight),
            property!("padding", Kind::Sides, NO_SIDES, Padding),
            computed!("width"),
            computed!("height"),
            $($row),*
        ]
    };
}

const ALIGNMENT: Property = property!(
    "alignment",
    Kind::Choice(Family::Pos),
    FirstValue::Alignment,
    Alignment
);

const SPACING: Property = property!("spacing", Kind::Int, ZERO, Spacing);

static PLAIN: &[Property] = with_common![];

static HBOX: &[Property] = with_common![
    ALIGNMENT,
    SPACING,
    property!("fillHeight", Kind::Bool, TRUE, FillHeight)
];

static VBOX: &[Property] = with_common![
    ALIGNMENT,
    SPACING,
    property!("fillWidth", Kind::Bool, TRUE, FillWidth)
];

static STACK: &[Property] = with_common![ALIGNMENT];

static GRID: &[Property] = with_common![
    ALIGNMENT,
    property!("hgap", Kind::Int, ZERO, Hgap),
    property!("vgap", Kind::Int, ZERO, Vgap)
];

static CONTROL: &[Property] = with_common![
    ALIGNMENT,
    property!("text", Kind::Text, EMPTY),
    property!("textFill", Kind::Color, BLACK, TextFill),
    property!("fontSize", Kind::Int, TWELVE, FontSize),
    property!("wrapText", Kind::Bool, FALSE, WrapText)
];

/// The properties of the class in their order; a class that isn't one of nodes has none.
pub fn properties(class: Class) -> &'static [Property]
    ensures { map listed_property result.now ≡ properties_of class }
{
    table(class)
}

#[tactic(auto, unfolding(crate::specs::Properties::rows, crate::specs::Properties::rows_of, crate::specs::Properties::styled_by, fx_look::specs::Styles::styles,))]
fn table(class: Class) -> &'static [Property]
    ensures { map (listed_with class) result.now ≡ map (row_with class) (rows_of class) }
{
    match class {
        Class::Pane => PLAIN,
        Class::Region => PLAIN,
        Class::HBox => HBOX,
        Class::VBox => VBOX,
        Class::BorderPane => PLAIN,
        Class::StackPane => STACK,
        Class::AnchorPane => PLAIN,
        Class::GridPane => GRID,
        Class::Label => CONTROL,
        Class::Button => CONTROL,
        Class::ColumnConstraints => &[],
        Class::RowConstraints => &[],
        Class::Priority => &[],
        Class::Insets => &[],
        Class::Pos => &[],
        Class::HPos => &[],
        Class::VPos => &[],
        Class::Font => &[],
        Class::Url => &[],
        Class::String => &[],
        Class::Integer => &[],
        Class::Double => &[],
        Class::Boolean => &[],
    }
}

/// What the property at this place of the class's list holds before anything sets it. It takes no memory.
pub fn initial(alloc: Global, class: Class, place: usize) -> Result<Value, AllocError>
    requires { place < length (properties_of class) }
    ensures { IsOkAnd result (λ value. initial_of class place ≡ Some value) }
{
    let row = table(class)[place];
    Ok(initial_value(alloc, class, row.initial))
}

fn initial_value(alloc: Global, class: Class, initial: FirstValue) -> Value
    ensures { result ≡ initial_value class initial }
{
    match initial {
        FirstValue::Always(preset) => preset.value(alloc),
        FirstValue::FocusTraversable => Value::Bool(class == Class::Button),
        FirstValue::Alignment => Value::Choice(Family::Pos, initial_alignment(class)),
    }
}

/// The alignment that a node of the class is born with, as a place among the constants of `Pos`.
pub fn initial_alignment(class: Class) -> u8
    ensures { result ≡ initial_alignment class }
{
    match class {
        Class::StackPane | Class::Button => 4,
        Class::Label => 3,
        _ => 0,
    }
}

/// The place of the property of this name in the class's list.
pub fn property_named(class: Class, name: &str) -> Option<usize>
    ensures { result ≡ position (λ (p : ListedProperty). bytes_eq p.name name.now) (properties_of class) }
{
    find_property(properties(class), name)
}

fn find_property(list: &[Property], name: &str) -> Option<usize>
    ensures { result ≡ position (λ (p : ListedProperty). bytes_eq p.name name.now) (map listed_property list.now) }
{
    find_row(list, name)
}

fn find_row(list: &[Property], name: &str) -> Option<usize>
    ensures { result ≡ position (λ p. bytes_eq p.name.now name.now) list.now }
{
    list.iter()
        .position(|p| p.name.len() == name.len() && p.name == name)
}

/// The declaration that styles a property names it back, and its values are of the property's kind.
pub fn styled_back()
    ensures { (row : PropertyRow) → Contains rows row → (place : ℕ) → styled_by row.name ≡ Some place
        → (style : StyleRow) × (style_at place ≡ Some style) × (style.property ≡ Some row.name)
        × (kind_of_form style.form ≡ Some row.kind) }
{}

/// A declaration that styles a property is that property's.
pub fn each_styled()
    ensures { (place : ℕ) (style : StyleRow) (property : List ℕ) → style_at place ≡ Some style
        → style.property ≡ Some property → (row : PropertyRow) × Contains rows row × (row.name ≡ property)
        × (styled_by row.name ≡ Some place) }
{}

/// No two properties of a class share a name.
pub fn one_property()
    ensures { (class : ClassName) (i j : ℕ) (p q : ListedProperty) → slice_get (properties_of class) i ≡ Some p
        → slice_get (properties_of class) j ≡ Some q → p.name ≡ q.name → i ≡ j }
{}
