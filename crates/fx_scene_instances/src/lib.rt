//! Instances of values before their content is read: where which of them may stand, what they need, their fields and
//! constants, what is made of them, and what references to them stand for. It stands on what documents know of names
//! and values, and fx_scene_literals above it reads instances whole.
#![tactic(auto)]

mod fields;
mod instances;
mod made;
mod needs;
mod references;

pub use fields::{Field, constant_named, field_kind, field_named, first_made, with_value};
pub use instances::{Want, entered};
pub use made::{Found, Made};
pub use needs::{is_location, lacks_value};
pub use references::{attribute_flaw, referred};
