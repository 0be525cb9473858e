//! Style classes and style sheets as elements.
ghost use Rattle.std.specs.Prelude.{◌≡◌, ◌++◌, ◌||◌, IfOk, OnOk};
ghost use Rattle.fx_doc.specs.Views.{nodes_of, onto};
ghost use Rattle.fx_doc_grammar.specs.Grammar.{Nothing};
ghost use Rattle.fx_scene_elements.specs.Added.{stops};
ghost use Rattle.fx_scene_elements.specs.Lists as spec;
ghost use Rattle.fx_scene_outline.specs.Views.{content_of, head_of};
ghost use Rattle.fx_scene_things.specs.Known.{known};
ghost use Rattle.fx_scene_values.specs.Views.{scope_view};

use crate::entries::{Entry, add_named, add_referred};
use crate::held::add_closed;
use crate::pushing::{push_flaw, stops_from};
use fx_doc::{Content, Element};
use fx_kinds::Class;
use fx_scene_acts::Act;
use fx_scene_flaws::Flaw;
use fx_scene_instances::{Want, entered, referred};
use fx_scene_literals::whole;
use fx_scene_outline::is_reference;
use fx_scene_things::Names;
use fx_scene_values::Scope;
use std::alloc::{AllocError, Global};

/// Adds a style class or a style sheet of the node for each instance and each reference.
pub(crate) fn add_entries(
    alloc: Global,
    entry: Entry,
    scope: &Scope<'_>,
    node: usize,
    content: &[Content],
    names: &mut Names,
    acts: &mut Vec<Act>,
) -> Result<(), AllocError>
    ensures acts { OnOk result (acts.new.items ≡ acts.old.items
        ++ (spec.list_asked entry (scope_view scope.now) (known names.old) node (nodes_of content.now)).acts) }
    ensures names { OnOk result (known names.new
        ≡ (spec.list_asked entry (scope_view scope.now) (known names.old) node (nodes_of content.now)).names) }
{
    let mut stopped = false;
    for item in content {
        stopped = add_next(alloc, entry, scope, node, stopped, item, names, acts)?;
    }
    Ok(())
}

/// Adds an item, unless a node is read first. Answers whether one is read before anything behind the item.
fn add_next(
    alloc: Global,
    entry: Entry,
    scope: &Scope<'_>,
    node: usize,
    stopped: bool,
    item: &Content,
    names: &mut Names,
    acts: &mut Vec<Act>,
) -> Result<bool, AllocError>
    ensures acts { OnOk result (acts.new.items ≡ acts.old.items ++ (spec.next_asked stopped entry (scope_view scope.now)
        (known names.old) node (onto item.now Nothing)).acts) }
    ensures names { OnOk result (known names.new ≡ (spec.next_asked stopped entry (scope_view scope.now)
        (known names.old) node (onto item.now Nothing)).names) }
    ensures stops { IfOk result (λ now. now ≡ stopped || stops (spec.next_asked stopped entry (scope_view scope.now)
        (known names.old) node (onto item.now Nothing)).acts) }
{
    if stopped {
        return Ok(true);
    }
    let from = acts.len();
    add_item(alloc, entry, scope, node, item, names, acts)?;
    Ok(stops_from(acts.as_slice(), from))
}

fn add_item(
    alloc: Global,
    entry: Entry,
    scope: &Scope<'_>,
    node: usize,
    item: &Content,
    names: &mut Names,
    acts: &mut Vec<Act>,
) -> Result<(), AllocError>
    ensures acts { OnOk result (acts.new.items ≡ acts.old.items
        ++ (spec.item_asked entry (scope_view scope.now) (known names.old) node (onto item.now Nothing)).acts) }
    ensures names { OnOk result (known names.new
        ≡ (spec.item_asked entry (scope_view scope.now) (known names.old) node (onto item.now Nothing)).names) }
{
    match item {
        Content::Child(element) => {
            if is_reference(element.name.as_str()) {
                return add_reference(alloc, entry, scope, node, element, names, acts);
            }
            add_instance(alloc, entry, scope, node, element, names, acts)
        }
        Content::Chars(_, place) => push_flaw(acts, *place, Flaw::Child),
    }
}

fn add_reference(
    alloc: Global,
    entry: Entry,
    scope: &Scope<'_>,
    node: usize,
    element: &Element,
    names: &mut Names,
    acts: &mut Vec<Act>,
) -> Result<(), AllocError>
    ensures acts { OnOk result (acts.new.items ≡ acts.old.items ++ (spec.reference_item entry (scope_view scope.now)
        (known names.old) node (head_of element.now) (content_of element.now)).acts) }
    ensures names { OnOk result (known names.new ≡ (spec.reference_item entry (scope_view scope.now) (known names.old)
        node (head_of element.now) (content_of element.now)).names) }
{
    let found = referred(alloc, names, Want::Name, element)?;
    add_referred(alloc, entry, node, element.position, found, acts)?;
    add_closed(alloc, scope, element, names, acts)
}

fn add_instance(
    alloc: Global,
    entry: Entry,
    scope: &Scope<'_>,
    node: usize,
    element: &Element,
    names: &mut Names,
    acts: &mut Vec<Act>,
) -> Result<(), AllocError>
    ensures acts { OnOk result (acts.new.items ≡ acts.old.items ++ (spec.instance_item entry (scope_view scope.now)
        (known names.old) node (head_of element.now) (content_of element.now)).acts) }
    ensures names { OnOk result (known names.new ≡ (spec.instance_item entry (scope_view scope.now) (known names.old)
        node (head_of element.now) (content_of element.now)).names) }
{
    match entered(scope, Want::Name, element) {
        Ok(class) => add_entered(alloc, entry, scope, node, element, class, names, acts),
        Err(flaw) => push_flaw(acts, element.position, flaw),
    }
}

fn add_entered(
    alloc: Global,
    entry: Entry,
    scope: &Scope<'_>,
    node: usize,
    element: &Element,
    class: Class,
    names: &mut Names,
    acts: &mut Vec<Act>,
) -> Result<(), AllocError>
    ensures acts { OnOk result (acts.new.items ≡ acts.old.items ++ (spec.named_asked entry node (head_of element.now)
        (spec.whole_item (scope_view scope.now) (known names.old) (head_of element.now) (content_of element.now)
        class)).acts) }
    ensures names { OnOk result (known names.new ≡ (spec.named_asked entry node (head_of element.now)
        (spec.whole_item (scope_view scope.now) (known names.old) (head_of element.now) (content_of element.now)
        class)).names) }
{
    let found = whole(alloc, scope, element, class, false, names)?;
    add_named(alloc, entry, node, element, found, acts)
}
