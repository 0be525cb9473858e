//! The scene graph: each call once. What is done with the graph stands in functions that are lent it; the one test only
//! makes one and asks.
use fx_base::{List, NodeKey, Text};
use fx_css_types::Sheet;
use fx_events::{EventKind, Phase};
use fx_kinds::Class;
use fx_stage_graph::Graph;
use fx_stage_types::{NodeEdit, Refusal, Spot, StageError};
use std::alloc::Global;

/// A further node, or a key of none.
fn made(graph: &mut Graph, alloc: Global, class: Class) -> NodeKey {
    match graph.make(alloc, class, 7) {
        Ok(key) => key,
        Err(_) => NodeKey { slot: 0, birth: 0 },
    }
}

fn is_of(graph: &Graph, key: NodeKey, class: Class) -> bool {
    match graph.node(key) {
        Some(node) => node.class == class,
        None => false,
    }
}

/// A pane takes a child by its place, and no other root stands beside it.
fn grows(graph: &mut Graph, alloc: Global, pane: NodeKey, child: NodeKey) -> bool {
    graph.set_root(alloc, pane).is_ok()
        && graph.attach(alloc, pane, child, Spot::On(0)) == Err(StageError::Refused(Refusal::Place))
        && graph.attach(alloc, pane, child, Spot::At(0)).is_ok()
        && graph.tree().parent(child) == Some(pane)
}

/// The child is dropped once it is detached.
fn shrinks(graph: &mut Graph, alloc: Global, child: NodeKey) -> bool {
    graph.detach(alloc, child).is_ok()
        && graph.drop_nodes(child, &[child]).is_ok()
        && graph.node(child).is_none()
}

fn changes(graph: &mut Graph, alloc: Global) -> bool {
    let pane = made(graph, alloc, Class::VBox);
    let child = made(graph, alloc, Class::Label);
    !graph.is_full()
        && is_of(graph, pane, Class::VBox)
        && grows(graph, alloc, pane, child)
        && shrinks(graph, alloc, child)
}

/// `title`
fn path(alloc: Global) -> Vec<Text> {
    let mut path = Vec::new(alloc);
    if let Ok(name) = Text::from_str(alloc, "title") {
        let _ = path.push(name);
    }
    path
}

fn is_named(graph: &mut Graph, alloc: Global) -> bool {
    let key = made(graph, alloc, Class::Label);
    let name = path(alloc);
    if graph.find(name.as_slice()).is_some() {
        return false;
    }
    let added = graph.add_path(name, key).is_ok();
    added && graph.find(path(alloc).as_slice()) == Some(key)
}

fn handles(graph: &mut Graph, alloc: Global) -> bool {
    let key = made(graph, alloc, Class::Button);
    let Ok(action) = Text::from_str(alloc, "save") else {
        return false;
    };
    let added = graph.add_handler(alloc, key, EventKind::Action, Phase::Handler, action);
    match graph
        .handlers()
        .calls_on(alloc, key, EventKind::Action, Phase::Handler)
    {
        Ok(calls) => added.is_ok() && calls.len() == 1,
        Err(_) => false,
    }
}

fn has_classes(graph: &Graph, key: NodeKey, count: usize) -> bool {
    match graph.node(key) {
        Some(node) => node.classes.as_slice().len() == count,
        None => false,
    }
}

fn is_edited(graph: &mut Graph, alloc: Global) -> bool {
    let key = made(graph, alloc, Class::Label);
    let Ok(name) = Text::from_str(alloc, "big") else {
        return false;
    };
    graph.edit(alloc, key, NodeEdit::AddClass(name)).is_ok() && has_classes(graph, key, 2)
}

fn is_styled(graph: &mut Graph, alloc: Global) -> bool {
    let sheet = Sheet {
        rules: List::new(alloc),
        warnings: List::new(alloc),
    };
    graph.add_sheet(sheet).is_ok()
}

fn does_all(graph: &mut Graph, alloc: Global) -> bool {
    changes(graph, alloc)
        && is_named(graph, alloc)
        && handles(graph, alloc)
        && is_edited(graph, alloc)
        && is_styled(graph, alloc)
}

#[test]
fn a_graph_does_what_it_is_asked(rt: HostRuntime) {
    let alloc = rt.alloc();
    let mut graph = Graph::new(alloc);
    assert!(rt; does_all(&mut graph, alloc));
}
