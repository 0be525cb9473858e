//! The classes that a document may name.
//! Loaders find them by name, selectors match their names, and layouts ask what they are.
ghost use Rattle.std.specs.Prelude.{◌≡◌, List, IfSome, IfNone};
ghost use Rattle.std.specs.Option.{option_map};
ghost use Rattle.std.specs.List.{find};
ghost use Rattle.std.specs.Str.{bytes_eq};
ghost use Rattle.fx_kinds.specs.declared.classes.Class.{Class as ClassName};
ghost use Rattle.fx_kinds.specs.Classes.{name_of, package_of, is_node, is_control, takes_children, birth_style, value_kind, classes};

use fx_base::{Family, Kind};

/// A class of the JavaFX 21 API or of the Java SE API that a document may name; `Url` is `java.net.URL`.
#[derive(Clone, Copy, PartialEq, Eq, Debug)]
pub enum Class {
    Pane,
    Region,
    HBox,
    VBox,
    BorderPane,
    StackPane,
    AnchorPane,
    GridPane,
    Label,
    Button,
    ColumnConstraints,
    RowConstraints,
    Priority,
    Insets,
    Pos,
    HPos,
    VPos,
    Font,
    Url,
    String,
    Integer,
    Double,
    Boolean,
}

static CLASSES: &[Class] = &[
    Class::Pane,
    Class::Region,
    Class::HBox,
    Class::VBox,
    Class::BorderPane,
    Class::StackPane,
    Class::AnchorPane,
    Class::GridPane,
    Class::Label,
    Class::Button,
    Class::ColumnConstraints,
    Class::RowConstraints,
    Class::Priority,
    Class::Insets,
    Class::Pos,
    Class::HPos,
    Class::VPos,
    Class::Font,
    Class::Url,
    Class::String,
    Class::Integer,
    Class::Double,
    Class::Boolean,
];

/// Every class, once.
pub fn all_classes() -> &'static [Class]
    ensures { result.now ≡ classes }
{
    CLASSES
}

/// The class of this simple name, whose letters keep their case.
pub fn class_of(simple: &str) -> Option<Class>
    ensures found { IfSome result (λ class. name_of class ≡ simple.now) }
    ensures none { IfNone result ((class : ClassName) → name_of class ≡ simple.now → ⊥) }
{
    find_class(CLASSES, simple)
}

/// No two classes share a simple name.
pub fn one_class()
    ensures { (c d : ClassName) → name_of c ≡ name_of d → c ≡ d }
{}

fn find_class(table: &[Class], simple: &str) -> Option<Class>
    ensures { result ≡ find (λ class. bytes_eq (name_of class) simple.now) table.now }
{
    table.iter().copied().find(|class| is_named(*class, simple))
}

fn is_named(class: Class, simple: &str) -> bool
    ensures { result ≡ bytes_eq (name_of class) simple.now }
{
    name_of(class) == simple
}

/// The simple name of the class.
pub fn name_of(class: Class) -> &'static str
    ensures { result.now ≡ name_of class }
{
    match class {
        Class::Pane => "Pane",
        Class::Region => "Region",
        Class::HBox => "HBox",
        Class::VBox => "VBox",
        Class::BorderPane => "BorderPane",
        Class::StackPane => "StackPane",
        Class::AnchorPane => "AnchorPane",
        Class::GridPane => "GridPane",
        Class::Label => "Label",
        Class::Button => "Button",
        Class::ColumnConstraints => "ColumnConstraints",
        Class::RowConstraints => "RowConstraints",
        Class::Priority => "Priority",
        Class::Insets => "Insets",
        Class::Pos => "Pos",
        Class::HPos => "HPos",
        Class::VPos => "VPos",
        Class::Font => "Font",
        Class::Url => "URL",
        Class::String => "String",
        Class::Integer => "Integer",
        Class::Double => "Double",
        Class::Boolean => "Boolean",
    }
}

/// The package of the class. With `.` and the simple name behind it, it is the full name.
pub fn package_of(class: Class) -> &'static str
    ensures { result.now ≡ package_of class }
{
    match class {
        Class::Pane => "javafx.scene.layout",
        Class::Region => "javafx.scene.layout",
        Class::HBox => "javafx.scene.layout",
        Class::VBox => "javafx.scene.layout",
        Class::BorderPane => "javafx.scene.layout",
        Class::StackPane => "javafx.scene.layout",
        Class::AnchorPane => "javafx.scene.layout",
        Class::GridPane => "javafx.scene.layout",
        Class::Label => "javafx.scene.control",
        Class::Button => "javafx.scene.control",
        Class::ColumnConstraints => "javafx.scene.layout",
        Class::RowConstraints => "javafx.scene.layout",
        Class::Priority => "javafx.scene.layout",
        Class::Insets => "javafx.geometry",
        Class::Pos => "javafx.geometry",
        Class::HPos => "javafx.geometry",
        Class::VPos => "javafx.geometry",
        Class::Font => "javafx.scene.text",
        Class::Url => "java.net",
        Class::String => "java.lang",
        Class::Integer => "java.lang",
        Class::Double => "java.lang",
        Class::Boolean => "java.lang",
    }
}

/// Is the class one of nodes: a region, a pane or a control?
pub fn is_node(class: Class) -> bool
    ensures { result ≡ is_node class }
{
    class == Class::Region || is_control(class) || takes_children(class)
}

/// Is the class one of panes, which lay out children?
pub fn takes_children(class: Class) -> bool
    ensures { result ≡ takes_children class }
{
    matches!(
        class,
        Class::Pane
            | Class::HBox
            | Class::VBox
            | Class::BorderPane
            | Class::StackPane
            | Class::AnchorPane
            | Class::GridPane
    )
}

/// Is the class one of controls, which show a text?
pub fn is_control(class: Class) -> bool
    ensures { result ≡ is_control class }
{
    matches!(class, Class::Label | Class::Button)
}

/// The style class that a node of the class is born with.
pub fn birth_style(class: Class) -> Option<&'static str>
    ensures { option_map (λ style. style.now) result ≡ birth_style class }
{
    match class {
        Class::Label => Some("label"),
        Class::Button => Some("button"),
        _ => None,
    }
}

/// The kind of the values that the class stands for in a document, if it stands for values.
pub fn value_kind(class: Class) -> Option<Kind>
    ensures { result ≡ value_kind class }
{
    match class {
        Class::Insets => Some(Kind::Sides),
        Class::String => Some(Kind::Text),
        Class::Font | Class::Integer | Class::Double => Some(Kind::Int),
        Class::Boolean => Some(Kind::Bool),
        Class::Pos => Some(Kind::Choice(Family::Pos)),
        Class::Priority => Some(Kind::Choice(Family::Priority)),
        Class::HPos => Some(Kind::Choice(Family::HPos)),
        Class::VPos => Some(Kind::Choice(Family::VPos)),
        _ => None,
    }
}
