//! Nodes of definitions within values, which are read before what stands behind them.
ghost use Rattle.std.specs.Prelude.{◌≡◌, ◌==◌, ◌&&◌, map};
ghost use Rattle.std.specs.List.{find};
ghost use Rattle.std.specs.Option.{option_map};
ghost use Rattle.fx_scene_things.specs.Known.{known, settled_view};
ghost use Rattle.fx_scene_things.specs.Settled as spec;

use crate::names::Names;
use fx_base::Position;

/// A node that was read already: where it stands, and the names that are known behind it.
#[derive(Drop)]
pub struct Settled {
    pub place: Position,
    pub names: Names,
}

fn is_at(settled: &Settled, place: Position) -> bool
    ensures { result ≡ spec.is_at place (settled_view settled.now) }
{
    settled.place.line == place.line && settled.place.column == place.column
}

fn first_at(settled: &[Settled], place: Position) -> Option<&Settled>
    ensures { option_map (λ node. node.now) result
        ≡ find (λ node. spec.is_at place (settled_view node)) settled.now }
{
    settled.iter().find(|node| is_at(node, place))
}

/// The names that are known behind the node at this place, if it was read.
pub fn names_behind(settled: &[Settled], place: Position) -> Option<&Names>
    ensures { option_map (λ names. known names.now) result
        ≡ spec.names_behind (map settled_view settled.now) place }
{
    match first_at(settled, place) {
        Some(node) => Some(&node.names),
        None => None,
    }
}
