//! Tables by keys, paths and names, each in functions that are lent it.
use fx_base::{Name, NodeKey, Text};
use fx_kinds::Class;
use fx_stage_tables::{NameMap, NodeTable, Paths, is_among};
use fx_stage_types::NodeData;
use std::alloc::{AllocError, Global};

const ONE: NodeKey = NodeKey { slot: 0, birth: 1 };

const OTHER: NodeKey = NodeKey { slot: 1, birth: 2 };

fn put_label(nodes: &mut NodeTable, alloc: Global) -> Result<(), AllocError> {
    let node = NodeData::born(alloc, Class::Label, 7)?;
    nodes.reserve()?;
    nodes.put(ONE, node)
}

fn edge_of(nodes: &NodeTable, key: NodeKey) -> Option<u8> {
    match nodes.get(key) {
        Some(node) => node.edge,
        None => None,
    }
}

fn keeps_a_node(nodes: &mut NodeTable, alloc: Global) -> bool {
    if put_label(nodes, alloc).is_err() {
        return false;
    }
    nodes.set_edge(ONE, Some(2));
    if edge_of(nodes, ONE) != Some(2) {
        return false;
    }
    nodes.forget(ONE);
    nodes.get(ONE).is_none()
}

#[test]
fn a_node_has_what_was_put(rt: HostRuntime) {
    let alloc = rt.alloc();
    let mut nodes = NodeTable::new(alloc);
    assert!(rt; keeps_a_node(&mut nodes, alloc));
}

/// `panel.title`
fn long_path(alloc: Global) -> Result<Vec<Text>, AllocError> {
    let mut path = Vec::new(alloc);
    for name in ["panel", "title"] {
        match Text::from_str(alloc, name) {
            Ok(name) => path.push(name)?,
            Err(_) => return Err(AllocError),
        }
    }
    Ok(path)
}

fn finds_a_node(paths: &mut Paths, alloc: Global) -> bool {
    let Ok(long) = long_path(alloc) else {
        return false;
    };
    let Ok(sought) = long_path(alloc) else {
        return false;
    };
    if paths.find(long.as_slice()).is_some() || paths.add(long, ONE).is_err() {
        return false;
    }
    let found = paths.find(sought.as_slice()) == Some(ONE);
    paths.forget(&[ONE]);
    found && paths.find(sought.as_slice()).is_none()
}

#[test]
fn a_node_is_found_by_its_path(rt: HostRuntime) {
    let alloc = rt.alloc();
    let mut paths = Paths::new(alloc);
    assert!(rt; finds_a_node(&mut paths, alloc));
}

#[test]
fn keys_of_one_slot_differ_by_birth(rt: HostRuntime) {
    assert!(rt; is_among(&[ONE, OTHER], OTHER));
    assert!(rt; !is_among(&[ONE, OTHER], NodeKey { slot: 1, birth: 3 }));
}

fn put(names: &mut NameMap<Name>, alloc: Global, name: &str, item: Name) -> bool {
    match Text::from_str(alloc, name) {
        Ok(name) => names.put(name, item).is_ok(),
        Err(_) => false,
    }
}

fn has(names: &NameMap<Name>, alloc: Global, name: &str, item: Name) -> bool {
    match Text::from_str(alloc, name) {
        Ok(name) => names.get(&name) == Some(&item),
        Err(_) => false,
    }
}

#[test]
fn a_name_stands_for_what_was_given_last(rt: HostRuntime) {
    let alloc = rt.alloc();
    let mut names = NameMap::new(alloc);
    assert!(rt; put(&mut names, alloc, "speed", Name(3)));
    assert!(rt; put(&mut names, alloc, "speed", Name(4)));
    assert!(rt; names.len() == 1 && has(&names, alloc, "speed", Name(4)));
}
