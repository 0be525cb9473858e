//! Properties by their names among those of a node.
ghost use Rattle.std.specs.Prelude.{◌≡◌, ◌<◌, ◌≤◌, IfSome, Some};
ghost use Rattle.std.specs.Option.{option_map};
ghost use Rattle.fx_stage_model.specs.Looking as spec;

use fx_base::{Name, Text};
use fx_kinds::{Class, property_named};
use fx_stage_types::NodeData;

/// The place of the property in the class's list.
#[tactic(auto, unfolding(fx_stage_model::specs::Looking::place_of))]
fn place_of(class: Class, property: &Text) -> Option<usize>
    ensures place { result ≡ spec.place_of class property.now }
    ensures small { IfSome result (λ place. place < 100) }
{
    property_named(class, property.as_str())
}

/// The number of the property of this name among those of a node.
#[tactic(auto, unfolding(fx_stage_model::specs::Looking::property_in))]
pub fn name_in(node: &NodeData, property: &Text) -> Option<Name>
    requires low { node.now.first ≤ 4000000 }
    ensures { option_map (λ name. name.0) result ≡ spec.property_in (Some node.now) property.now }
{
    match place_of(node.class, property) {
        None => None,
        Some(place) => Some(Name(node.first + place as u32)),
    }
}
