//! What the attributes of an instance ask for, each by itself: values of properties and of constraints, style classes
//! and inline styles, or what is wrong with them.
#![tactic(auto)]

mod forms;
mod properties;
mod roles;
mod scopes;
mod shown;
mod statics;
mod styles;
mod values;

pub use forms::{Form, form_of};
pub use properties::{property_deed, property_given, property_named};
pub use roles::{Role, role_of};
pub use scopes::Scope;
pub use statics::{static_deed, static_given};
pub use styles::{add_classes, handler_deed, items_of, style_deed};
pub use values::{Given, literal, location_given, path_in, planned_property, same_given, value_in};
