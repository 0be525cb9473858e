//! What a word of a line names: a kind of value, a kind of listener, a node.
ghost use Rattle.std.specs.Prelude.{◌≡◌, ◌∷◌, [], IfOk};
ghost use Rattle.fx_stage_model.specs.Listening as listening;
ghost use Rattle.fx_stage_model.specs.Properties as properties;

use fx_base::{Kind, Text};
use fx_listen::ListenKind;
use std::alloc::{AllocError, Global};

/// The kind that a word of `prop` names.
pub fn kind_named(name: &Text) -> Kind
    ensures { result ≡ properties.kind_named name.now }
{
    if name.as_str() == "int" {
        Kind::Int
    } else if name.as_str() == "bool" {
        Kind::Bool
    } else {
        Kind::Text
    }
}

/// The kind of listener that a word of `listen` names.
pub fn listen_kind_named(name: &Text) -> ListenKind
    ensures { result ≡ listening.kind_named name.now }
{
    if name.as_str() == "invalid" {
        ListenKind::Invalid
    } else {
        ListenKind::Change
    }
}

/// The path of a node that is known by this name alone.
pub fn path_of(alloc: Global, id: &Text) -> Result<Vec<Text>, AllocError>
    ensures { IfOk result (λ path. path.items ≡ id.now ∷ []) }
{
    let mut path = Vec::with_capacity(alloc, 1)?;
    path.push(id.copy(alloc)?)?;
    Ok(path)
}
