//! What an item of a list of texts asks for: a style class or a style sheet of the node.
ghost use Rattle.std.specs.Prelude.{◌≡◌, ◌++◌, IfOk, OnOk, map};
ghost use Rattle.fx_doc.specs.Views.{attr_view};
ghost use Rattle.fx_scene_elements.specs.Entries as spec;
ghost use Rattle.fx_scene_outline.specs.Views.{head_of};

use crate::pushing::{push, push_flaw, push_node};
use fx_base::{Position, Text, Value};
use fx_doc::{Attribute, Element};
use fx_scene_acts::{Act, Deed};
use fx_scene_instances::{Found, Made};
use fx_scene_plan::PlannedStep;
use fx_script_commands::behind_sign;
use std::alloc::{AllocError, Global};

/// What the items of a list of texts are.
#[derive(Clone, Copy, Debug, PartialEq, Eq)]
pub enum Entry {
    /// Style classes.
    Class,
    /// Style sheets.
    Sheet,
}

/// Adds what a reference stands for.
pub(crate) fn add_referred(
    alloc: Global,
    entry: Entry,
    node: usize,
    place: Position,
    found: Found,
    acts: &mut Vec<Act>,
) -> Result<(), AllocError>
    ensures ok { OnOk result (acts.new.items ≡ acts.old.items ++ spec.referred_acts entry node place found) }
{
    match found {
        Found::Whole(made) => add_made(alloc, entry, node, place, made, acts),
        Found::Flaw(flaw, spot) => push_flaw(acts, spot, flaw),
        Found::Node(spot) => push_node(acts, spot),
    }
}

/// Adds what an instance is.
pub(crate) fn add_named(
    alloc: Global,
    entry: Entry,
    node: usize,
    element: &Element,
    found: Found,
    acts: &mut Vec<Act>,
) -> Result<(), AllocError>
    ensures ok { OnOk result (acts.new.items
        ≡ acts.old.items ++ spec.named_acts entry node (head_of element.now) found) }
{
    match found {
        Found::Whole(made) => {
            let place = item_place(entry, element, &made);
            add_made(alloc, entry, node, place, made, acts)
        }
        Found::Flaw(flaw, spot) => {
            add_room(alloc, entry, node, element.position, acts)?;
            push_flaw(acts, spot, flaw)
        }
        Found::Node(spot) => push_node(acts, spot),
    }
}

/// Adds what is asked for before what is wrong within an instance: a node has room for one class more.
fn add_room(
    alloc: Global,
    entry: Entry,
    node: usize,
    place: Position,
    acts: &mut Vec<Act>,
) -> Result<(), AllocError>
    ensures ok { OnOk result (acts.new.items ≡ acts.old.items ++ spec.room_acts entry node place) }
{
    match entry {
        Entry::Class => push(acts, place, class_deed(node, text_of(alloc, "")?)),
        Entry::Sheet => Ok(()),
    }
}

/// A text, or a location.
fn add_made(
    alloc: Global,
    entry: Entry,
    node: usize,
    place: Position,
    made: Made,
    acts: &mut Vec<Act>,
) -> Result<(), AllocError>
    ensures ok { OnOk result (acts.new.items ≡ acts.old.items ++ spec.made_acts entry node place made) }
{
    match made {
        Made::Plain(Value::Text(text)) => push(acts, place, text_deed(alloc, entry, node, text)?),
        Made::Plain(_) => Ok(()),
        Made::Track(_) => Ok(()),
        Made::Location(name) => push(acts, place, file_deed(entry, node, name)),
    }
}

/// A text is the name of a class, or the location of a sheet.
fn text_deed(alloc: Global, entry: Entry, node: usize, text: Text) -> Result<Deed, AllocError>
    ensures { IfOk result (λ asked. asked ≡ spec.text_deed entry node text) }
{
    match entry {
        Entry::Class => Ok(class_deed(node, text)),
        Entry::Sheet => Ok(Deed::Sheet(node, text_of(alloc, location_in(text.as_str()))?)),
    }
}

/// The name of a file is that of a class, or the file is a sheet.
fn file_deed(entry: Entry, node: usize, name: Text) -> Deed
    ensures { result ≡ spec.file_deed entry node name }
{
    match entry {
        Entry::Class => class_deed(node, name),
        Entry::Sheet => Deed::File(node, name),
    }
}

fn class_deed(node: usize, name: Text) -> Deed
    ensures { result ≡ spec.class_deed node name }
{
    Deed::Step(PlannedStep::Class(node, name))
}

/// The location that a text is: a sign in front of it is dropped.
fn location_in(text: &str) -> &str
    ensures { result.now ≡ spec.location_in text.now }
{
    match behind_sign(text, '@') {
        Some(location) => location,
        None => text,
    }
}

fn text_of(alloc: Global, text: &str) -> Result<Text, AllocError>
    ensures { IfOk result (λ copy. copy ≡ text.now) }
{
    match Text::from_str(alloc, text) {
        Ok(text) => Ok(text),
        Err(_) => Err(AllocError),
    }
}

/// A class is asked for where its element stands, and a sheet where its text does.
fn item_place(entry: Entry, element: &Element, made: &Made) -> Position
    ensures { result ≡ spec.item_place entry (head_of element.now) made.now }
{
    match entry {
        Entry::Class => element.position,
        Entry::Sheet => text_place(element, made),
    }
}

/// Where the text of a whole instance stands.
fn text_place(element: &Element, made: &Made) -> Position
    ensures { result ≡ spec.text_place (head_of element.now) made.now }
{
    match made {
        Made::Plain(_) => place_in(element, "fx:value"),
        Made::Location(_) => place_in(element, "value"),
        Made::Track(_) => element.position,
    }
}

fn place_in(element: &Element, name: &str) -> Position
    ensures { result ≡ spec.place_in (head_of element.now) name.now }
{
    place_named(element.attributes.as_slice(), name, element.position)
}

/// The place of the attribute of this name, or else this one.
fn place_named(attributes: &[Attribute], name: &str, other: Position) -> Position
    ensures { result ≡ spec.place_named (map attr_view attributes.now) name.now other }
{
    for a in attributes {
        if a.name.as_str() == name {
            return a.position;
        }
    }
    other
}
