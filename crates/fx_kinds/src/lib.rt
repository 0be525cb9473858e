//! The classes that documents name, the properties of nodes, the constraints of panes, and the facts that styling and
//! layout are given of a node. A property is one row here.
#![tactic(auto)]

mod classes;
mod constraints;
mod facts;
mod ignored;
mod presets;
mod property_table;

pub use classes::{
    Class, all_classes, birth_style, class_of, is_control, is_node, name_of, one_class, package_of,
    takes_children, value_kind,
};
pub use constraints::{
    ConstraintRow, constraint_of, constraint_table, constraint_value, each_constraint_named,
    one_constraint_value,
};
pub use facts::{BoxFacts, Constraint, StyleFacts};
pub use ignored::{ignored_names, is_ignored};
pub use presets::Preset;
pub use property_table::{
    Property, each_styled, initial, initial_alignment, one_property, properties, property_named,
    styled_back,
};
