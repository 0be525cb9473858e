//! What is asked of the entries of a graph, and why values are refused.
use fx_base::{Kind, Name, Value};
use fx_graph_model::{Definition, Entry, GraphError, Origin};
use fx_graph_refusals::asking::{
    is_bound, is_marked, is_read_only, is_unknown, origin_of, own_value, unknown_among,
};
use fx_graph_refusals::refusals::{
    are_of_one_kind, is_same_kind, kind_of, known_kind, of_publish, of_set,
};
use std::alloc::Global;

fn entry(kind: Kind, read_only: bool, origin: Origin, definition: Definition) -> Entry {
    Entry {
        kind,
        read_only,
        origin,
        definition,
    }
}

fn owns_seven(alloc: Global, entries: &[Entry]) -> bool {
    if is_unknown(entries, Name(0)) || is_bound(entries, Name(0)) {
        return false;
    }
    match own_value(alloc, entries, Name(0)) {
        Ok(value) => value == Value::Int(7),
        Err(_) => false,
    }
}

fn is_number(entries: &[Entry], name: Name) -> bool {
    match known_kind(entries, name) {
        Some(kind) => is_same_kind(kind, Kind::Int),
        None => false,
    }
}

/// What is told of a number that was set, a truth that is only published, and a name that was given back.
fn tells(alloc: Global, entries: &[Entry]) -> bool {
    let gone = Some(GraphError::Unknown(Name(2)));
    owns_seven(alloc, entries)
        && is_unknown(entries, Name(2))
        && is_unknown(entries, Name(3))
        && is_read_only(entries, Name(1))
        && !is_read_only(entries, Name(0))
        && unknown_among(entries, &[Name(0), Name(2)]) == gone
        && is_number(entries, Name(0))
        && !is_number(entries, Name(2))
        && is_same_kind(kind_of(entries, Name(1)), Kind::Bool)
        && are_of_one_kind(entries, Name(0), Name(2))
}

fn was_set(entries: &[Entry], name: Name) -> bool {
    match origin_of(entries, name) {
        Some(Origin::Code) => true,
        _ => false,
    }
}

fn refuses_values(entries: &[Entry]) -> bool {
    let number = [(Name(0), Value::Int(1))];
    let truth = [(Name(1), Value::Bool(false))];
    let wrong = [(Name(0), Value::Bool(false))];
    of_set(entries, &number).is_none()
        && of_set(entries, &truth) == Some(GraphError::ReadOnly(Name(1)))
        && of_set(entries, &wrong) == Some(GraphError::WrongKind(Name(0)))
        && of_publish(entries, &truth).is_none()
        && of_publish(entries, &wrong) == Some(GraphError::WrongKind(Name(0)))
}

#[test]
fn tells_of_entries(rt: HostRuntime) {
    let seven = Definition::Base(Value::Int(7));
    let truth = Definition::Base(Value::Bool(true));
    let entries = [
        entry(Kind::Int, false, Origin::Code, seven),
        entry(Kind::Bool, true, Origin::Initial, truth),
        entry(Kind::Int, false, Origin::Initial, Definition::Forgotten),
    ];
    assert!(rt; tells(rt.alloc(), &entries));
    assert!(rt; was_set(&entries, Name(0)) && !was_set(&entries, Name(1)));
    assert!(rt; refuses_values(&entries));
    assert!(rt; is_marked(&[false, true], Name(1)) && !is_marked(&[false, true], Name(2)));
}
