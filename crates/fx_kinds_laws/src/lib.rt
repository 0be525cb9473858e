//! What the tables of classes, properties and constraints are beside what each call says: values at first are of their
//! kinds, no class has many properties, and a name is one property in all classes. It stands above the tables, and
//! nothing stands on it.
#![tactic(auto)]

mod laws;

pub use laws::{
    classes_have_few_properties, defaults_are_taken, initial_values_have_their_kinds,
    one_property_a_name,
};
