//! What the names of a document's elements mean: classes by their simple and full names, what imports name, and which
//! names are those of instances and of static properties.
#![tactic(auto)]

mod classes;
mod imports;
mod owners;
mod shapes;

pub use classes::class_named;
pub use imports::{is_imported, lacks_import};
pub use owners::lacks_owner;
pub use shapes::{is_instance, is_static};
