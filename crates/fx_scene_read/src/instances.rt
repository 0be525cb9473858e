//! The acts of one instance.
ghost use Rattle.std.specs.Prelude.{◌≡◌, ◌++◌, OnOk, map};
ghost use Rattle.std.specs.List.{flat_map};
ghost use Rattle.fx_doc.specs.Views.{attr_view};
ghost use Rattle.fx_scene_things.specs.Known.{known};
ghost use Rattle.fx_scene_outline.specs.Views.{head_of, shown};
ghost use Rattle.fx_scene_read.specs.Pieces as spec;
ghost use Rattle.fx_scene_read.specs.Opening.{opening_flaw, owner_in, rank_in, seat_step};
ghost use Rattle.fx_scene_values.specs.Views.{scope_view};

use crate::acting::add_attribute;
use crate::opening::{opening_flaw, seat_step};
use crate::references::push_step;
use fx_base::Position;
use fx_doc::{Attribute, Element};
use fx_kinds::Class;
use fx_scene_acts::{Act, Deed};
use fx_scene_elements::{push, push_flaw};
use fx_scene_flaws::Flaw;
use fx_scene_names::class_named;
use fx_scene_outline::{Piece, Seat, has_attribute};
use fx_scene_plan::PlannedStep;
use fx_scene_things::Names;
use fx_scene_values::Scope;
use std::alloc::{AllocError, Global};

/// Adds the acts of an instance behind these pieces, which is the node of an ordinal, and the child at this place if it
/// is one.
pub(crate) fn add_instance(
    alloc: Global,
    scope: &Scope<'_>,
    names: &Names,
    before: &[Piece<'_>],
    nodes: &[usize],
    node: usize,
    seat: Seat,
    rank: usize,
    element: &Element,
    acts: &mut Vec<Act>,
) -> Result<(), AllocError>
    requires { rank ≡ rank_in (shown before.now) (owner_in seat) }
    ensures ok { OnOk result (acts.new.items ≡ acts.old.items ++ spec.instance_acts (scope_view scope.now)
        (known names.now) (shown before.now) nodes.now node seat (head_of element.now)) }
{
    match class_named(element.name.as_str()) {
        Some(class) => add_class(
            alloc, scope, names, before, nodes, node, seat, rank, element, class, acts,
        ),
        None => push_flaw(acts, element.position, Flaw::Class),
    }
}

fn add_class(
    alloc: Global,
    scope: &Scope<'_>,
    names: &Names,
    before: &[Piece<'_>],
    nodes: &[usize],
    node: usize,
    seat: Seat,
    rank: usize,
    element: &Element,
    class: Class,
    acts: &mut Vec<Act>,
) -> Result<(), AllocError>
    requires { rank ≡ rank_in (shown before.now) (owner_in seat) }
    ensures ok { OnOk result (acts.new.items ≡ acts.old.items ++ spec.opened_acts (scope_view scope.now)
        (known names.now) (shown before.now) nodes.now node seat (head_of element.now) class
        (opening_flaw (scope_view scope.now).imports node seat (head_of element.now) class)) }
{
    match opening_flaw(scope.imports, node, seat, element, class) {
        Some(flaw) => push_flaw(acts, element.position, flaw),
        None => {
            add_node(
                acts,
                element.position,
                class,
                seat_step(before, nodes, node, seat, rank),
            )?;
            let attributes = element.attributes.as_slice();
            add_attributes(alloc, scope, names, class, node, attributes, acts)
        }
    }
}

/// Adds the steps by which a node of the class is made and stands somewhere.
fn add_node(
    acts: &mut Vec<Act>,
    place: Position,
    class: Class,
    step: Option<PlannedStep>,
) -> Result<(), AllocError>
    ensures ok { OnOk result (acts.new.items ≡ acts.old.items ++ spec.opening_acts place class step) }
{
    push(acts, place, Deed::Step(PlannedStep::Node(class)))?;
    push_step(acts, place, step)
}

/// Adds what the attributes of an instance of the class ask for.
fn add_attributes(
    alloc: Global,
    scope: &Scope<'_>,
    names: &Names,
    class: Class,
    node: usize,
    attributes: &[Attribute],
    acts: &mut Vec<Act>,
) -> Result<(), AllocError>
    ensures ok { OnOk result (acts.new.items ≡ acts.old.items ++ spec.attributes_acts (scope_view scope.now)
        (known names.now) class node (map attr_view attributes.now)) }
{
    let given = has_attribute(attributes, "id");
    add_given(alloc, scope, names, class, node, given, attributes, acts)
}

fn add_given(
    alloc: Global,
    scope: &Scope<'_>,
    names: &Names,
    class: Class,
    node: usize,
    given: bool,
    attributes: &[Attribute],
    acts: &mut Vec<Act>,
) -> Result<(), AllocError>
    ensures ok { OnOk result (acts.new.items ≡ acts.old.items ++ flat_map (spec.attribute_acts (scope_view scope.now)
        (known names.now) class node given) (map attr_view attributes.now)) }
{
    for a in attributes {
        add_attribute(alloc, scope, names, class, node, given, a, acts)?;
    }
    Ok(())
}

/// Adds what the attributes of an include ask for of the root of its document, which is the node of this ordinal and of
/// this class, and has an id already or not.
#[tactic(auto, unfolding(crate::specs::Pieces::root_acts))]
pub fn add_root_attributes(
    alloc: Global,
    scope: &Scope<'_>,
    names: &Names,
    class: Class,
    node: usize,
    has_id: bool,
    attributes: &[Attribute],
    acts: &mut Vec<Act>,
) -> Result<(), AllocError>
    ensures ok { OnOk result (acts.new.items ≡ acts.old.items ++ spec.root_acts (scope_view scope.now)
        (known names.now) class node has_id (map attr_view attributes.now)) }
{
    let given = has_id || has_attribute(attributes, "id");
    add_root_given(alloc, scope, names, class, node, given, attributes, acts)
}

fn add_root_given(
    alloc: Global,
    scope: &Scope<'_>,
    names: &Names,
    class: Class,
    node: usize,
    given: bool,
    attributes: &[Attribute],
    acts: &mut Vec<Act>,
) -> Result<(), AllocError>
    ensures ok { OnOk result (acts.new.items ≡ acts.old.items ++ flat_map (spec.root_attribute (scope_view scope.now)
        (known names.now) class node given) (map attr_view attributes.now)) }
{
    for a in attributes {
        add_root_attribute(alloc, scope, names, class, node, given, a, acts)?;
    }
    Ok(())
}

/// The attribute `source` tells which document is included.
fn add_root_attribute(
    alloc: Global,
    scope: &Scope<'_>,
    names: &Names,
    class: Class,
    node: usize,
    given: bool,
    a: &Attribute,
    acts: &mut Vec<Act>,
) -> Result<(), AllocError>
    ensures ok { OnOk result (acts.new.items ≡ acts.old.items ++ spec.root_attribute (scope_view scope.now)
        (known names.now) class node given (attr_view a.now)) }
{
    if a.name.as_str() == "source" {
        return Ok(());
    }
    add_attribute(alloc, scope, names, class, node, given, a, acts)
}
