//! Style sheets of a node.
ghost use Rattle.std.specs.Prelude.{◌≡◌, ◌++◌, IfOk, OnOk, map};
ghost use Rattle.fx_scene_acts.specs.declared.acts.Deed.TheVariants as deed;
ghost use Rattle.fx_scene_read.specs.Sheets as spec;
ghost use Rattle.fx_scene_things.specs.Known.{known};
ghost use Rattle.fx_scene_values.specs.Views.{form_view, scope_view};

use fx_base::{Kind, Text, Value};
use fx_scene_acts::Deed;
use fx_scene_flaws::Flaw;
use fx_scene_things::Names;
use fx_scene_values::{Form, Given, Scope, form_of, items_of, value_in};
use fx_text::trimmed_text;
use std::alloc::{AllocError, Global};

/// Adds what the attribute `stylesheets` of this text asks for: a sheet for each part between commas.
#[tactic(auto, unfolding(crate::specs::Sheets::sheet_deeds))]
pub(crate) fn add_sheets(
    alloc: Global,
    scope: &Scope<'_>,
    names: &Names,
    node: usize,
    text: &str,
    deeds: &mut Vec<Deed>,
) -> Result<(), AllocError>
    ensures ok { OnOk result (deeds.new.items
        ≡ deeds.old.items ++ spec.sheet_deeds (scope_view scope.now) (known names.now) node text.now) }
{
    let items = items_of(alloc, text)?;
    add_items(alloc, scope, names, node, items.as_slice(), deeds)
}

fn add_items(
    alloc: Global,
    scope: &Scope<'_>,
    names: &Names,
    node: usize,
    items: &[&str],
    deeds: &mut Vec<Deed>,
) -> Result<(), AllocError>
    ensures ok { OnOk result (deeds.new.items ≡ deeds.old.items
        ++ spec.item_deeds (scope_view scope.now) (known names.now) node (map (λ item. item.now) items.now)) }
{
    for item in items {
        deeds.push(sheet_deed(alloc, scope, names, node, trimmed_text(item))?)?;
    }
    Ok(())
}

fn sheet_deed(
    alloc: Global,
    scope: &Scope<'_>,
    names: &Names,
    node: usize,
    item: &str,
) -> Result<Deed, AllocError>
    ensures { IfOk result (λ asked. asked
        ≡ spec.sheet_deed (scope_view scope.now) (known names.now) node item.now) }
{
    formed_sheet(alloc, scope, names, node, form_of(item))
}

fn formed_sheet(
    alloc: Global,
    scope: &Scope<'_>,
    names: &Names,
    node: usize,
    form: Form<'_>,
) -> Result<Deed, AllocError>
    ensures { IfOk result (λ asked. asked
        ≡ spec.formed_sheet (scope_view scope.now) (known names.now) node (form_view form.entry)) }
{
    match form {
        Form::Located(location) => sheet_at(alloc, node, location),
        _ => Ok(given_sheet(node, value_in(alloc, scope, names, Kind::Text, form)?)),
    }
}

/// A text that is given is a location.
fn given_sheet(node: usize, given: Given) -> Deed
    ensures { result ≡ spec.given_sheet node given }
{
    match given {
        Given::Value(value) => valued_sheet(node, value),
        Given::Flaw(flaw) => Deed::Flaw(flaw),
    }
}

fn valued_sheet(node: usize, value: Value) -> Deed
    ensures { result ≡ spec.valued_sheet node value }
{
    match value {
        Value::Text(location) => Deed::Sheet(node, location),
        _ => Deed::Flaw(Flaw::Value),
    }
}

fn sheet_at(alloc: Global, node: usize, location: &str) -> Result<Deed, AllocError>
    ensures { IfOk result (λ asked. asked ≡ deed.Sheet node location.now) }
{
    match Text::from_str(alloc, location) {
        Ok(location) => Ok(Deed::Sheet(node, location)),
        Err(_) => Err(AllocError),
    }
}
