//! Questions to the entries: whether a name is known, bound, read-only, and from where its definition came.
//! The refusals and the graph's readers stand on them.
ghost use Rattle.std.specs.Prelude.{◌≡◌, ◌<◌, false, length, IfOk};
ghost use Rattle.fx_graph_model.specs.declared.entries.Definition.TheVariants as defined;
ghost use Rattle.fx_graph_model.specs.Uses.{is_binding, is_gone, bound_in, entry_of, unknown_in};
ghost use Rattle.fx_graph_model.specs.Eager.{eager};
ghost use Rattle.fx_graph_model.specs.Unread.{marked};
ghost use Rattle.fx_graph_model.specs.Refusals.{read_only_in, unknown_name};
ghost use Rattle.fx_graph_refusals.specs.Known.{origin_in, origin_if};

use fx_base::{Name, Value};
use fx_graph_model::{Definition, Entry, GraphError, Origin};
use std::alloc::{AllocError, Global};

/// Whether the name was never declared, or was forgotten.
pub fn is_unknown(entries: &[Entry], name: Name) -> bool
    ensures { result ≡ unknown_in entries.now name.0 }
{
    match entries.get(name.0 as usize) {
        None => true,
        Some(entry) => entry.definition.is_gone(),
    }
}

/// The first of the names that is unknown, as the refusal.
pub fn unknown_among(entries: &[Entry], names: &[Name]) -> Option<GraphError>
    ensures { result ≡ unknown_name entries.now names.now }
{
    for name in names {
        if is_unknown(entries, *name) {
            return Some(GraphError::Unknown(*name));
        }
    }
    None
}

pub fn is_bound(entries: &[Entry], name: Name) -> bool
    ensures { result ≡ bound_in entries.now name.0 }
{
    match entries.get(name.0 as usize) {
        None => false,
        Some(entry) => entry.definition.is_binding(),
    }
}

pub fn is_read_only(entries: &[Entry], name: Name) -> bool
    ensures { result ≡ read_only_in entries.now name.0 }
{
    match entries.get(name.0 as usize) {
        None => false,
        Some(entry) => entry.read_only,
    }
}

pub fn is_marked(flags: &[bool], name: Name) -> bool
    ensures { result ≡ marked flags.now name.0 }
{
    match flags.get(name.0 as usize) {
        None => false,
        Some(flag) => *flag,
    }
}

/// Where the definition of a known name came from.
pub fn origin_of(entries: &[Entry], name: Name) -> Option<Origin>
    ensures { result ≡ origin_in entries.now name.0 }
{
    match entries.get(name.0 as usize) {
        None => None,
        Some(entry) => known_origin(entry),
    }
}

fn known_origin(entry: &Entry) -> Option<Origin>
    ensures { result ≡ origin_if (is_gone entry.now.definition) entry.now.origin }
{
    if entry.definition.is_gone() {
        return None;
    }
    Some(entry.origin)
}

/// A copy of the value, if this is one.
fn copy_of(alloc: Global, definition: &Definition) -> Result<Value, AllocError>
    ensures { IfOk result (λ value. is_binding definition.now ≡ false → is_gone definition.now ≡ false
        → definition.now ≡ defined.Base value) }
{
    match definition {
        Definition::Base(value) => value.copy(alloc),
        Definition::Bound(_, _) => Ok(Value::Bool(false)),
        Definition::Forgotten => Ok(Value::Bool(false)),
    }
}

fn own_at(alloc: Global, entries: &[Entry], place: usize) -> Result<Value, AllocError>
    requires { place < length entries.now }
    ensures { IfOk result (λ value. bound_in entries.now place ≡ false → unknown_in entries.now place ≡ false
        → (entry_of entries.now place).definition ≡ defined.Base value) }
{
    copy_of(alloc, &entries[place].definition)
}

/// The value of a known property that isn't bound.
pub fn own_value(alloc: Global, entries: &[Entry], name: Name) -> Result<Value, AllocError>
    requires known { unknown_in entries.now name.0 ≡ false }
    requires free { bound_in entries.now name.0 ≡ false }
    ensures { IfOk result (λ value. value ≡ eager entries.now name.0) }
{
    let value = own_at(alloc, entries, name.0 as usize)?;
    Ok(value)
}
