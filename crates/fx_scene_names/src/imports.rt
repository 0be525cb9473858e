//! What the imports of a document name.
ghost use Rattle.std.specs.Prelude.{◌≡◌};
ghost use Rattle.std.specs.List.{list_any};
ghost use Rattle.fx_scene_names.specs.Names as spec;

use crate::classes::behind_package;
use fx_base::Text;
use fx_kinds::{Class, name_of, package_of};

/// May the class be named by its simple name? The texts of imports name a class or all classes of a package; those of
/// `java.lang` need no import.
#[tactic(auto, unfolding(crate::specs::Names::is_imported))]
pub fn is_imported(imports: &[Text], class: Class) -> bool
    ensures { result ≡ spec.is_imported imports.now class }
{
    package_of(class) == "java.lang" || is_among(imports, class)
}

fn is_among(imports: &[Text], class: Class) -> bool
    ensures { result ≡ list_any (spec.names class) imports.now }
{
    imports.iter().any(|import| names(class, import.as_str()))
}

#[tactic(auto, using(crate::proofs::ClassLemmas::unqualified))]
fn names(class: Class, import: &str) -> bool
    ensures { result ≡ spec.names class import.now }
{
    match behind_package(class, import) {
        Some(rest) => rest == name_of(class).as_bytes() || rest == b"*".as_slice(),
        None => false,
    }
}

/// Is the class named by its simple name, without an import?
#[tactic(auto, unfolding(crate::specs::Names::lacks_import))]
pub fn lacks_import(imports: &[Text], name: &str, class: Class) -> bool
    ensures { result ≡ spec.lacks_import imports.now name.now class }
{
    name_of(class) == name && !is_imported(imports, class)
}
