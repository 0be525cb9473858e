//! What a property element holds.
ghost use Rattle.std.specs.Prelude.{◌≡◌, ◌++◌, OnOk};
ghost use Rattle.fx_doc.specs.Views.{nodes_of, onto};
ghost use Rattle.fx_doc_grammar.specs.Grammar.{Nothing};
ghost use Rattle.fx_scene_elements.specs.Added.{flaw_in};
ghost use Rattle.fx_scene_elements.specs.Held as spec;
ghost use Rattle.fx_scene_elements.specs.Views.{target_view};
ghost use Rattle.fx_scene_literals.specs.Literals.{closed};
ghost use Rattle.fx_scene_outline.specs.Views.{content_of, head_of};
ghost use Rattle.fx_scene_things.specs.Known.{known};
ghost use Rattle.fx_scene_values.specs.Views.{scope_view};

use crate::pushing::{push, push_flaw, push_flaw_in, push_node};
use crate::targets::{Target, target_kind, value_deed};
use fx_base::{Position, Text};
use fx_doc::{Content, Element};
use fx_scene_acts::Act;
use fx_scene_instances::{Found, Made, referred};
use fx_scene_literals::{closed, one_part, want_of};
use fx_scene_outline::is_reference;
use fx_scene_things::Names;
use fx_scene_values::Scope;
use std::alloc::{AllocError, Global};

/// Adds what the content of a property element of this name asks for.
pub(crate) fn add_held(
    alloc: Global,
    scope: &Scope<'_>,
    node: usize,
    name: &Text,
    target: Target,
    content: &[Content],
    names: &mut Names,
    acts: &mut Vec<Act>,
) -> Result<(), AllocError>
    ensures acts { OnOk result (acts.new.items ≡ acts.old.items ++ (spec.held_asked (scope_view scope.now) node name.now
        (target_view target) (known names.old) (nodes_of content.now)).acts) }
    ensures names { OnOk result (known names.new ≡ (spec.held_asked (scope_view scope.now) node name.now
        (target_view target) (known names.old) (nodes_of content.now)).names) }
{
    let mut first = true;
    for item in content {
        add_part(alloc, scope, node, name, target, first, item, names, acts)?;
        first = false;
    }
    Ok(())
}

fn add_part(
    alloc: Global,
    scope: &Scope<'_>,
    node: usize,
    name: &Text,
    target: Target,
    first: bool,
    item: &Content,
    names: &mut Names,
    acts: &mut Vec<Act>,
) -> Result<(), AllocError>
    ensures acts { OnOk result (acts.new.items ≡ acts.old.items ++ (spec.part_asked (scope_view scope.now) node name.now
        (target_view target) first (known names.old) (onto item.now Nothing)).acts) }
    ensures names { OnOk result (known names.new ≡ (spec.part_asked (scope_view scope.now) node name.now
        (target_view target) first (known names.old) (onto item.now Nothing)).names) }
{
    match item {
        Content::Child(element) => {
            if is_reference(element.name.as_str()) {
                return add_reference(
                    alloc, scope, node, name, target, first, element, names, acts,
                );
            }
            add_item(alloc, scope, node, name, target, first, item, names, acts)
        }
        Content::Chars(_, _) => {
            add_item(alloc, scope, node, name, target, first, item, names, acts)
        }
    }
}

fn add_item(
    alloc: Global,
    scope: &Scope<'_>,
    node: usize,
    name: &Text,
    target: Target,
    first: bool,
    item: &Content,
    names: &mut Names,
    acts: &mut Vec<Act>,
) -> Result<(), AllocError>
    ensures acts { OnOk result (acts.new.items ≡ acts.old.items ++ (spec.item_asked (scope_view scope.now) node name.now
        (target_view target) first (known names.old) (onto item.now Nothing)).acts) }
    ensures names { OnOk result (known names.new ≡ (spec.item_asked (scope_view scope.now) node name.now
        (target_view target) first (known names.old) (onto item.now Nothing)).names) }
{
    let found = one_part(alloc, scope, target_kind(target), first, item, names)?;
    add_found(alloc, node, name, place_of(item), target, found, acts)
}

/// A value is given by a reference before the content is looked at that a reference may not have.
fn add_reference(
    alloc: Global,
    scope: &Scope<'_>,
    node: usize,
    name: &Text,
    target: Target,
    first: bool,
    element: &Element,
    names: &mut Names,
    acts: &mut Vec<Act>,
) -> Result<(), AllocError>
    ensures acts { OnOk result (acts.new.items ≡ acts.old.items ++ (spec.reference_asked (scope_view scope.now) node
        name.now (target_view target) first (known names.old) (head_of element.now) (content_of element.now)).acts) }
    ensures names { OnOk result (known names.new ≡ (spec.reference_asked (scope_view scope.now) node name.now
        (target_view target) first (known names.old) (head_of element.now) (content_of element.now)).names) }
{
    let want = want_of(target_kind(target), first);
    let found = referred(alloc, names, want, element)?;
    add_found(alloc, node, name, element.position, target, found, acts)?;
    add_closed(alloc, scope, element, names, acts)
}

/// Adds what is wrong with the content of an element that may have none.
pub(crate) fn add_closed(
    alloc: Global,
    scope: &Scope<'_>,
    element: &Element,
    names: &mut Names,
    acts: &mut Vec<Act>,
) -> Result<(), AllocError>
    ensures acts { OnOk result (acts.new.items ≡ acts.old.items
        ++ flaw_in (closed (scope_view scope.now) (known names.old) (content_of element.now)).found) }
    ensures names { OnOk result (known names.new
        ≡ (closed (scope_view scope.now) (known names.old) (content_of element.now)).names) }
{
    let found = closed(alloc, scope, element, names)?;
    push_flaw_in(found, acts)
}

fn add_found(
    alloc: Global,
    node: usize,
    name: &Text,
    place: Position,
    target: Target,
    found: Found,
    acts: &mut Vec<Act>,
) -> Result<(), AllocError>
    ensures ok { OnOk result (acts.new.items ≡ acts.old.items
        ++ spec.found_acts node name.now place (target_view target) found) }
{
    match found {
        Found::Whole(Made::Plain(value)) => {
            let deed = value_deed(alloc, node, name, target, value)?;
            push(acts, place, deed)
        }
        Found::Whole(_) => Ok(()),
        Found::Flaw(flaw, spot) => push_flaw(acts, spot, flaw),
        Found::Node(spot) => push_node(acts, spot),
    }
}

/// Where a part stands.
fn place_of(item: &Content) -> Position
    ensures { result ≡ spec.place_in (onto item.now Nothing) }
{
    match item {
        Content::Child(element) => element.position,
        Content::Chars(_, place) => *place,
    }
}
