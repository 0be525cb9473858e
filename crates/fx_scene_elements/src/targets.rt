//! What property elements give their values to.
ghost use Rattle.std.specs.Prelude.{◌≡◌, IfOk};
ghost use Rattle.std.specs.Option.{option_map};
ghost use Rattle.fx_kinds.specs.ConstraintRows.{constraint_entry};
ghost use Rattle.fx_kinds.specs.Listing.{listed_property};
ghost use Rattle.fx_scene_elements.specs.Targets as spec;
ghost use Rattle.fx_scene_elements.specs.Views.{seen_target, target_view};
ghost use Rattle.fx_scene_values.specs.Views.{scope_view};

use fx_base::{Kind, Text, Value};
use fx_kinds::{Class, ConstraintRow, Property, constraint_of};
use fx_scene_acts::Deed;
use fx_scene_flaws::Flaw;
use fx_scene_names::{is_static, lacks_owner};
use fx_scene_values::{Given, Scope, property_given, property_named, static_given};
use std::alloc::{AllocError, Global};

/// What the value of a property element is given to.
#[derive(Clone, Copy)]
pub enum Target {
    Plain(&'static Property),
    Static(ConstraintRow),
}

pub(crate) fn target_kind(target: Target) -> Kind
    ensures { result ≡ spec.target_kind (target_view target) }
{
    match target {
        Target::Plain(property) => property.kind,
        Target::Static(row) => row.kind,
    }
}

pub(crate) fn value_deed(
    alloc: Global,
    node: usize,
    name: &Text,
    target: Target,
    value: Value,
) -> Result<Deed, AllocError>
    ensures { IfOk result (λ deed. deed ≡ spec.value_deed node name.now (target_view target) value) }
{
    match target {
        Target::Plain(property) => property_given(alloc, node, property, Given::Value(value)),
        Target::Static(row) => static_given(alloc, node, name, &row, Given::Value(value)),
    }
}

/// What a property element of this name gives its value to, or what is wrong with it.
#[tactic(auto, unfolding(crate::specs::Targets::target_of))]
pub(crate) fn target_of(scope: &Scope<'_>, class: Class, name: &str) -> Result<Target, Flaw>
    ensures { seen_target result ≡ spec.target_of (scope_view scope.now) class name.now }
{
    if is_static(name) {
        static_target(scope, name)
    } else {
        plain_target(class, name)
    }
}

fn static_target(scope: &Scope<'_>, name: &str) -> Result<Target, Flaw>
    ensures { seen_target result ≡ spec.static_target (scope_view scope.now) name.now }
{
    if lacks_owner(scope.imports, name) {
        return Err(Flaw::Import);
    }
    constraint_target(constraint_of(name))
}

fn constraint_target(row: Option<ConstraintRow>) -> Result<Target, Flaw>
    ensures { seen_target result ≡ spec.constraint_target (option_map constraint_entry row) }
{
    match row {
        Some(row) => Ok(Target::Static(row)),
        None => Err(Flaw::Property),
    }
}

fn plain_target(class: Class, name: &str) -> Result<Target, Flaw>
    ensures { seen_target result ≡ spec.plain_target class name.now }
{
    known_target(property_named(class, name))
}

fn known_target(property: Option<&'static Property>) -> Result<Target, Flaw>
    ensures { seen_target result ≡ spec.known_target (option_map (λ p. listed_property p.now) property.entry) }
{
    match property {
        Some(property) => {
            if property.read_only {
                return Err(Flaw::ReadOnly);
            }
            Ok(Target::Plain(property))
        }
        None => Err(Flaw::Property),
    }
}
