//! Names among names.
ghost use Rattle.std.specs.Prelude.{◌≡◌, IfOk, is_some, length, unwrap_or};
ghost use Rattle.std.specs.List.{position};
ghost use Rattle.std.specs.Str.{bytes_eq};
ghost use Rattle.fx_stage_types.specs.Edits.{has_word};
ghost use Rattle.fx_stage_model.specs.Nodes.{node_class};

use fx_base::{List, Text};
use fx_kinds::{Class, class_of, is_node};
use std::alloc::{AllocError, Global};

/// The class of nodes of this simple name.
pub fn node_class(name: &str) -> Option<Class>
    ensures { result ≡ node_class name.now }
{
    match class_of(name) {
        None => None,
        Some(class) => { if is_node(class) { Some(class) } else { None } }
    }
}

/// Is the name one of these?
pub fn has_name(names: &[Text], name: &str) -> bool
    ensures { result ≡ has_word names.now name.now }
{
    names.iter().any(|other| other.as_str() == name)
}

/// Where the name stands first among these, or how many there are.
pub fn place_of_name(names: &[Text], name: &str) -> usize
    ensures { result ≡ unwrap_or (position (bytes_eq name.now) names.now) (length names.now) }
{
    match first_place(names, name) {
        Some(place) => place,
        None => names.len(),
    }
}

fn first_place(names: &[Text], name: &str) -> Option<usize>
    ensures { result ≡ position (bytes_eq name.now) names.now }
{
    names.iter().position(|other| name == other.as_str())
}

/// Is there a place at which the name stands?
pub fn has_place(names: &[Text], name: &str) -> bool
    ensures { result ≡ is_some (position (bytes_eq name.now) names.now) }
{
    first_place(names, name).is_some()
}

/// The same names once more.
pub fn copy_names(alloc: Global, names: &[Text]) -> Result<List<Text>, AllocError>
    ensures { IfOk result (λ copy. copy ≡ names.now) }
{
    let mut copies = Vec::with_capacity(alloc, names.len())?;
    for name in names {
        copies.push(name.copy(alloc)?)?;
    }
    Ok(List::from_vec(copies))
}
