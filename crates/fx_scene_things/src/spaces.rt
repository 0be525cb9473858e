//! The names of several documents.
ghost use Rattle.std.specs.Prelude.{◌≡◌, ◌==◌, ◌∷◌, List, map};
ghost use Rattle.std.specs.List.{find};
ghost use Rattle.std.specs.Option.{option_and_then, option_map};
ghost use Rattle.fx_scene_things.specs.Known.{known, space_view};
ghost use Rattle.fx_scene_things.specs.Spaces as spec;

use crate::names::Names;
use crate::things::Named;
use fx_base::Text;

/// A document that was read: the number of its file, and its names.
#[derive(Drop)]
pub struct Space {
    pub file: u32,
    pub names: Names,
}

fn is_of(space: &Space, file: u32) -> bool
    ensures { result ≡ spec.is_of file (space_view space.now) }
{
    space.file == file
}

fn first_of(spaces: &[Space], file: u32) -> Option<&Space>
    ensures { option_map (λ space. space.now) result
        ≡ find (λ space. spec.is_of file (space_view space)) spaces.now }
{
    spaces.iter().find(|space| is_of(space, file))
}

/// The names of the document in the file of this number.
pub fn names_in(spaces: &[Space], file: u32) -> Option<&Names>
    ensures { option_map (λ names. known names.now) result ≡ spec.names_in (map space_view spaces.now) file }
{
    match first_of(spaces, file) {
        Some(space) => Some(&space.names),
        None => None,
    }
}

/// The names that stand behind that of a node.
fn names_inside(spaces: &[Space], named: Option<Named>) -> Option<&Names>
    ensures { option_map (λ names. known names.now) result ≡ spec.names_inside (map space_view spaces.now) named }
{
    match named {
        Some(named) => names_by(spaces, named.inside),
        None => None,
    }
}

fn names_by(spaces: &[Space], file: Option<u32>) -> Option<&Names>
    ensures { option_map (λ names. known names.now) result ≡ spec.names_by (map space_view spaces.now) file }
{
    match file {
        Some(file) => names_in(spaces, file),
        None => None,
    }
}

/// The node to which a path of names leads, from these names on: each but the last is that of an included document.
#[cycle(along_names)]
#[tactic(auto, unfolding(crate::specs::Spaces::node_along))]
pub fn node_along(spaces: &[Space], names: &Names, path: &[Text]) -> Option<Named>
    ensures { result ≡ spec.node_along (map space_view spaces.now) (known names.now) path.now }
{
    match path.split_first() {
        Some((name, rest)) => along(spaces, names.node(name.as_str()), rest),
        None => None,
    }
}

#[cycle(along_names)]
fn along(spaces: &[Space], named: Option<Named>, rest: &[Text]) -> Option<Named>
    ensures { result ≡ spec.along (map space_view spaces.now)
        (λ names. spec.node_along (map space_view spaces.now) names rest.now) named rest.now }
{
    match rest {
        [] => named,
        [_, ..] => behind(spaces, names_inside(spaces, named), rest),
    }
}

#[cycle(along_names)]
fn behind(spaces: &[Space], names: Option<&Names>, rest: &[Text]) -> Option<Named>
    ensures { result ≡ option_and_then (λ names. spec.node_along (map space_view spaces.now) names rest.now)
        (option_map (λ names. known names.now) names.entry) }
{
    match names {
        Some(names) => node_along(spaces, names, rest),
        None => None,
    }
}
