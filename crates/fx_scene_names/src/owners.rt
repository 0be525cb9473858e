//! The classes in front of static properties, as in `HBox.hgrow`.
ghost use Rattle.std.specs.Prelude.{◌≡◌};
ghost use Rattle.std.specs.List.{find};
ghost use Rattle.std.specs.Option.{option_map};
ghost use Rattle.std.specs.Str.{bytes_eq};
ghost use Rattle.fx_kinds.specs.Classes.{name_of};
ghost use Rattle.fx_scene_names.specs.Names as spec;

use crate::classes::is_simple;
use crate::imports::is_imported;
use crate::shapes::is_static;
use fx_base::Text;
use fx_kinds::{Class, all_classes};

/// Is the class in front of the static property known, but not imported?
#[tactic(auto, unfolding(crate::specs::Names::lacks_owner))]
pub fn lacks_owner(imports: &[Text], name: &str) -> bool
    ensures { result ≡ spec.lacks_owner imports.now name.now }
{
    match owner_of(name) {
        Some(class) => !is_imported(imports, class),
        None => false,
    }
}

#[tactic(auto, unfolding(crate::specs::Names::owner_of))]
fn owner_of(name: &str) -> Option<Class>
    ensures { result ≡ spec.owner_of name.now }
{
    match split_name(name) {
        Some((front, rest)) => owner_in(front, rest),
        None => None,
    }
}

fn owner_in(front: &str, rest: &str) -> Option<Class>
    ensures { result ≡ spec.owner_in (front.now, rest.now) }
{
    if is_static(rest) {
        None
    } else {
        find_simple(all_classes(), front)
    }
}

/// What stands before the first `.`, and behind it.
fn split_name(name: &str) -> Option<(&str, &str)>
    ensures { option_map (λ parts. (parts.0.now, parts.1.now)) result ≡ spec.split_name name.now }
{
    name.split_once('.')
}

fn find_simple(table: &[Class], name: &str) -> Option<Class>
    ensures { result ≡ find (λ class. bytes_eq (name_of class) name.now) table.now }
{
    table.iter().copied().find(|class| is_simple(*class, name))
}
