//! Property elements.
ghost use Rattle.std.specs.Prelude.{◌≡◌, ◌++◌, OnOk};
ghost use Rattle.fx_scene_elements.specs.Elements as spec;
ghost use Rattle.fx_scene_elements.specs.Views.{target_view};
ghost use Rattle.fx_scene_outline.specs.Views.{content_of, head_of};
ghost use Rattle.fx_scene_things.specs.Known.{known};
ghost use Rattle.fx_scene_values.specs.Views.{scope_view};

use crate::entries::Entry;
use crate::held::add_held;
use crate::lanes::Lane;
use crate::lists::add_entries;
use crate::pushing::push_flaw;
use crate::targets::{Target, target_of};
use crate::tracks::{add_columns, add_rows};
use fx_doc::Element;
use fx_kinds::Class;
use fx_scene_acts::Act;
use fx_scene_flaws::Flaw;
use fx_scene_literals::bare_fault;
use fx_scene_things::Names;
use fx_scene_values::Scope;
use std::alloc::{AllocError, Global};

/// A property element that lists instances.
#[derive(Clone, Copy, Debug, PartialEq, Eq)]
pub enum Listed {
    /// Style classes.
    Classes,
    /// Style sheets.
    Sheets,
    /// Constraints of columns.
    Columns,
    /// Constraints of rows.
    Rows,
}

/// Adds the acts of a property element of the instance at the place `owner`, which is the node of an ordinal and of the
/// class, where these names are known, and grids have these constraints.
#[tactic(auto, unfolding(crate::specs::Elements::element_told))]
pub fn add_element(
    alloc: Global,
    scope: &Scope<'_>,
    owner: usize,
    node: usize,
    class: Class,
    element: &Element,
    names: &mut Names,
    lanes: &mut Vec<Lane>,
    acts: &mut Vec<Act>,
) -> Result<(), AllocError>
    ensures acts { OnOk result (acts.new.items ≡ acts.old.items ++ (spec.element_told (scope_view scope.now)
        (known names.old) lanes.old.items owner node class (head_of element.now) (content_of element.now)).acts) }
    ensures lanes { OnOk result (lanes.new.items ≡ lanes.old.items ++ (spec.element_told (scope_view scope.now)
        (known names.old) lanes.old.items owner node class (head_of element.now) (content_of element.now)).lanes) }
    ensures names { OnOk result (known names.new ≡ (spec.element_told (scope_view scope.now) (known names.old)
        lanes.old.items owner node class (head_of element.now) (content_of element.now)).names) }
{
    match list_named(class, element.name.as_str()) {
        Some(list) => add_list(alloc, scope, owner, node, element, list, names, lanes, acts),
        None => add_value(alloc, scope, node, class, element, names, acts),
    }
}

/// A list has no attributes.
fn add_list(
    alloc: Global,
    scope: &Scope<'_>,
    owner: usize,
    node: usize,
    element: &Element,
    list: Listed,
    names: &mut Names,
    lanes: &mut Vec<Lane>,
    acts: &mut Vec<Act>,
) -> Result<(), AllocError>
    ensures acts { OnOk result (acts.new.items ≡ acts.old.items ++ (spec.list_told (scope_view scope.now)
        (known names.old) lanes.old.items owner node (head_of element.now) (content_of element.now) list
        (head_of element.now).attributes).acts) }
    ensures lanes { OnOk result (lanes.new.items ≡ lanes.old.items ++ (spec.list_told (scope_view scope.now)
        (known names.old) lanes.old.items owner node (head_of element.now) (content_of element.now) list
        (head_of element.now).attributes).lanes) }
    ensures names { OnOk result (known names.new ≡ (spec.list_told (scope_view scope.now) (known names.old)
        lanes.old.items owner node (head_of element.now) (content_of element.now) list
        (head_of element.now).attributes).names) }
{
    match element.attributes.as_slice() {
        [first, ..] => push_flaw(acts, first.position, Flaw::Property),
        [] => add_items(alloc, scope, owner, node, element, list, names, lanes, acts),
    }
}

fn add_items(
    alloc: Global,
    scope: &Scope<'_>,
    owner: usize,
    node: usize,
    element: &Element,
    list: Listed,
    names: &mut Names,
    lanes: &mut Vec<Lane>,
    acts: &mut Vec<Act>,
) -> Result<(), AllocError>
    ensures acts { OnOk result (acts.new.items ≡ acts.old.items ++ (spec.items_told (scope_view scope.now)
        (known names.old) lanes.old.items owner node (head_of element.now) (content_of element.now) list).acts) }
    ensures lanes { OnOk result (lanes.new.items ≡ lanes.old.items ++ (spec.items_told (scope_view scope.now)
        (known names.old) lanes.old.items owner node (head_of element.now) (content_of element.now) list).lanes) }
    ensures names { OnOk result (known names.new ≡ (spec.items_told (scope_view scope.now) (known names.old)
        lanes.old.items owner node (head_of element.now) (content_of element.now) list).names) }
{
    match list {
        Listed::Classes => {
            let content = element.content.as_slice();
            add_entries(alloc, Entry::Class, scope, node, content, names, acts)
        }
        Listed::Sheets => {
            let content = element.content.as_slice();
            add_entries(alloc, Entry::Sheet, scope, node, content, names, acts)
        }
        Listed::Columns => add_columns(alloc, scope, owner, node, element, names, lanes, acts),
        Listed::Rows => add_rows(alloc, scope, owner, node, element, names, lanes, acts),
    }
}

fn add_value(
    alloc: Global,
    scope: &Scope<'_>,
    node: usize,
    class: Class,
    element: &Element,
    names: &mut Names,
    acts: &mut Vec<Act>,
) -> Result<(), AllocError>
    ensures acts { OnOk result (acts.new.items ≡ acts.old.items ++ (spec.value_asked (scope_view scope.now)
        (known names.old) node class (head_of element.now) (content_of element.now)).acts) }
    ensures names { OnOk result (known names.new ≡ (spec.value_asked (scope_view scope.now) (known names.old) node class
        (head_of element.now) (content_of element.now)).names) }
{
    match target_of(scope, class, element.name.as_str()) {
        Ok(target) => add_bare(alloc, scope, node, element, target, names, acts),
        Err(flaw) => push_flaw(acts, element.position, flaw),
    }
}

fn add_bare(
    alloc: Global,
    scope: &Scope<'_>,
    node: usize,
    element: &Element,
    target: Target,
    names: &mut Names,
    acts: &mut Vec<Act>,
) -> Result<(), AllocError>
    ensures acts { OnOk result (acts.new.items ≡ acts.old.items ++ (spec.target_asked (scope_view scope.now)
        (known names.old) node (head_of element.now) (content_of element.now) (Ok (target_view target))).acts) }
    ensures names { OnOk result (known names.new ≡ (spec.target_asked (scope_view scope.now) (known names.old) node
        (head_of element.now) (content_of element.now) (Ok (target_view target))).names) }
{
    match bare_fault(element) {
        Some(fault) => push_flaw(acts, fault.place, fault.flaw),
        None => {
            let content = element.content.as_slice();
            add_held(
                alloc,
                scope,
                node,
                &element.name,
                target,
                content,
                names,
                acts,
            )
        }
    }
}

/// The list that the property element of this name is.
fn list_named(class: Class, name: &str) -> Option<Listed>
    ensures { result ≡ spec.list_named class name.now }
{
    match name {
        "styleClass" => Some(Listed::Classes),
        "stylesheets" => Some(Listed::Sheets),
        _ => list_in(class, name),
    }
}

fn list_in(class: Class, name: &str) -> Option<Listed>
    ensures { result ≡ spec.list_in class name.now }
{
    if is_grid(class) {
        grid_list(name)
    } else {
        None
    }
}

fn grid_list(name: &str) -> Option<Listed>
    ensures { result ≡ spec.grid_list name.now }
{
    match name {
        "columnConstraints" => Some(Listed::Columns),
        "rowConstraints" => Some(Listed::Rows),
        _ => None,
    }
}

fn is_grid(class: Class) -> bool
    ensures { result ≡ spec.is_grid class }
{
    matches!(class, Class::GridPane)
}
