//! What classes are, and what instances of them need.
ghost use Rattle.std.specs.Prelude.{◌≡◌, map};
ghost use Rattle.fx_doc.specs.Views.{attr_view};
ghost use Rattle.fx_scene_instances.specs.Needs as spec;

use fx_doc::Attribute;
use fx_kinds::Class;
use fx_scene_outline::has_attribute;

/// Does an instance of a class of values with these attributes lack the one that it needs?
pub fn lacks_value(class: Class, attributes: &[Attribute]) -> bool
    ensures { result ≡ spec.lacks_value class (map attr_view attributes.now) }
{
    if is_location(class) {
        return !has_attribute(attributes, "value");
    }
    needs_text(class) && !has_text(class, attributes)
}

fn has_text(class: Class, attributes: &[Attribute]) -> bool
    ensures { result ≡ spec.has_text class (map attr_view attributes.now) }
{
    has_attribute(attributes, "fx:value") || has_constant(class, attributes)
}

fn has_constant(class: Class, attributes: &[Attribute]) -> bool
    ensures { result ≡ spec.has_constant class (map attr_view attributes.now) }
{
    has_constants(class) && has_attribute(attributes, "fx:constant")
}

/// Are instances of the class locations?
pub fn is_location(class: Class) -> bool
    ensures { result ≡ spec.is_location class }
{
    matches!(class, Class::Url)
}

fn needs_text(class: Class) -> bool
    ensures { result ≡ spec.needs_text class }
{
    matches!(
        class,
        Class::String
            | Class::Integer
            | Class::Double
            | Class::Boolean
            | Class::Pos
            | Class::Priority
            | Class::HPos
            | Class::VPos
    )
}

fn has_constants(class: Class) -> bool
    ensures { result ≡ spec.has_constants class }
{
    !matches!(class, Class::String | Class::Boolean)
}
