//! What a node has of its own, at first and after edits. The node stands in functions that are lent it.
use fx_base::Text;
use fx_kinds::Class;
use fx_stage_types::{NodeData, NodeEdit};
use std::alloc::Global;

fn add_class(node: &mut NodeData, alloc: Global, name: &str) -> bool {
    match Text::from_str(alloc, name) {
        Ok(name) => node.edit(alloc, NodeEdit::AddClass(name)).is_ok(),
        Err(_) => false,
    }
}

fn remove_class(node: &mut NodeData, alloc: Global, name: &str) -> bool {
    match Text::from_str(alloc, name) {
        Ok(name) => node.edit(alloc, NodeEdit::RemoveClass(name)).is_ok(),
        Err(_) => false,
    }
}

/// Whether the node has two style classes, of which this is the first.
fn begins_with(node: &NodeData, name: &str) -> bool {
    match node.classes.as_slice() {
        [first, _] => first.as_str() == name,
        _ => false,
    }
}

/// A button has its own class, and is given one more twice.
fn is_edited(node: &mut NodeData, alloc: Global) -> bool {
    add_class(node, alloc, "a")
        && begins_with(node, "button")
        && add_class(node, alloc, "button")
        && remove_class(node, alloc, "button")
        && begins_with(node, "a")
}

fn loses_the_first(alloc: Global) -> bool {
    let Ok(mut node) = NodeData::born(alloc, Class::Button, 25) else {
        return false;
    };
    is_edited(&mut node, alloc)
}

#[test]
fn the_first_of_two_equal_classes_goes(rt: HostRuntime) {
    assert!(rt; loses_the_first(rt.alloc()));
}
