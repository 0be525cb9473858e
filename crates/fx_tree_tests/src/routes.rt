//! Tests of handlers and routes: the calls of one small scene in their order. What is done with handlers stands in
//! functions that are lent them.
use fx_base::{NodeKey, Text};
use fx_events::*;
use fx_tree::Tree;
use std::alloc::Global;
use std::test::Fail;

/// What is registered in turn: at the node in this slot, and what runs.
const REGISTERED: [(usize, EventKind, Phase, &str); 8] = [
    (1, EventKind::MouseClicked, Phase::Convenience, "set"),
    (1, EventKind::Any, Phase::Handler, "any"),
    (1, EventKind::Mouse, Phase::Handler, "mouse"),
    (1, EventKind::MouseClicked, Phase::Handler, "b"),
    (1, EventKind::MouseClicked, Phase::Handler, "second"),
    (0, EventKind::MouseClicked, Phase::Filter, "r"),
    (0, EventKind::MouseMoved, Phase::Handler, "moved"),
    (1, EventKind::MouseClicked, Phase::Convenience, "reset"),
];

const R: NodeKey = NodeKey { slot: 0, birth: 1 };

const B: NodeKey = NodeKey { slot: 1, birth: 2 };

fn register_all(alloc: Global, handlers: &mut Handlers) -> Result<(), Fail> {
    for (slot, on, phase, action) in REGISTERED {
        let key = if slot == 0 { R } else { B };
        handlers.add(alloc, key, on, phase, Text::from_str(alloc, action)?)?;
    }
    Ok(())
}

/// Whether the event calls these in their order.
fn calls(
    alloc: Global,
    handlers: &Handlers,
    key: NodeKey,
    on: EventKind,
    phase: Phase,
    expected: &str,
) -> Result<bool, Fail> {
    let mut words = String::new(alloc);
    for action in handlers.calls_on(alloc, key, on, phase)?.as_slice() {
        words.push_str(action.as_str())?;
        words.push(' ')?;
    }
    Ok(words.as_str() == expected)
}

fn are_called_in_order(alloc: Global, handlers: &Handlers) -> Result<bool, Fail> {
    let on = EventKind::MouseClicked;
    let filtered = calls(alloc, handlers, R, on, Phase::Filter, "r ")?;
    let handled = "b second reset mouse any ";
    Ok(filtered && calls(alloc, handlers, B, on, Phase::Handler, handled)?)
}

fn call_in_order(alloc: Global, handlers: &mut Handlers) -> Result<bool, Fail> {
    register_all(alloc, handlers)?;
    let are_called = are_called_in_order(alloc, handlers)?;
    handlers.forget(B);
    let on = EventKind::MouseClicked;
    Ok(are_called && calls(alloc, handlers, B, on, Phase::Handler, "")?)
}

#[test]
fn calls_in_order(rt: HostRuntime) -> Result<(), Fail> {
    let mut handlers = Handlers::new(rt.alloc());
    let is_in_order = call_in_order(rt.alloc(), &mut handlers)?;
    assert!(rt; is_in_order);
    Ok(())
}

/// Whether the event goes to the root and its child, or to the child alone.
fn goes(alloc: Global, tree: &mut Tree) -> Result<bool, Fail> {
    let r = tree.make(alloc)?;
    let b = tree.make(alloc)?;
    tree.attach(alloc, r, b, 0)?;
    let clicked = route(alloc, tree, EventKind::MouseClicked, b)?;
    let entered = route(alloc, tree, EventKind::MouseEntered, b)?;
    Ok(clicked.as_slice() == [r, b].as_slice() && entered.as_slice() == [b].as_slice())
}

#[test]
fn goes_down_to_the_target(rt: HostRuntime) -> Result<(), Fail> {
    let mut tree = Tree::new(rt.alloc());
    let is_so = goes(rt.alloc(), &mut tree)?;
    assert!(rt; is_so);
    Ok(())
}
