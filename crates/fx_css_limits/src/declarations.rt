//! Declarations: their rows, and the values that fit their names.
ghost use Rattle.std.specs.Prelude.{◌≡◌, ◌↔◌, IsTrue, All, None};
ghost use Rattle.fx_css_types.specs.declared.declarations.Declared.TheVariants as declared;
ghost use Rattle.fx_css_types.specs.Limits as limits;

use fx_base::{Family, Value};
use fx_css_types::{Declaration, Declared};
use fx_look::{StyleForm, StyleName, style_named};

/// Has each the row of its name, few layers, and a value that fits the name?
pub(crate) fn are_kept(declarations: &[Declaration]) -> bool
    ensures { IsTrue result ↔ All limits.IsKeptDeclaration declarations.now }
{
    for declaration in declarations {
        if !is_kept(declaration) {
            return false;
        }
    }
    true
}

fn is_kept(declaration: &Declaration) -> bool
    ensures { IsTrue result ↔ limits.IsKeptDeclaration declaration.now }
{
    let row = style_named(declaration.name.as_str());
    declaration.row == row
        && layer_count(&declaration.value) <= 8
        && fits(form_at(row), &declaration.value)
}

fn form_at(row: Option<StyleName>) -> Option<StyleForm>
    ensures { result ≡ limits.form_at row }
{
    match row {
        None => None,
        Some(name) => match name.style() {
            None => None,
            Some(style) => Some(style.form),
        },
    }
}

fn layer_count(value: &Declared) -> usize
    ensures { result ≡ limits.layer_count value.now }
{
    match value {
        Declared::Paints(paints) => paints.as_slice().len(),
        Declared::SidesList(sides) => sides.as_slice().len(),
        _ => 0,
    }
}

/// May the value stand under a name of this form?
fn fits(form: Option<StyleForm>, value: &Declared) -> bool
    ensures { IsTrue result ↔ limits.Fits form value.now }
{
    match form {
        None => is_paint(value),
        Some(form) => is_inherited(value) || is_of_form(form, value),
    }
}

fn is_paint(value: &Declared) -> bool
    ensures { IsTrue result ↔ limits.Fits None value.now }
{
    match value {
        Declared::Paint(_) => true,
        _ => false,
    }
}

fn is_inherited(value: &Declared) -> bool
    ensures { IsTrue result ↔ (value.now ≡ declared.Inherit) }
{
    match value {
        Declared::Inherit => true,
        _ => false,
    }
}

fn is_of_form(form: StyleForm, value: &Declared) -> bool
    ensures { IsTrue result ↔ limits.IsOfForm form value.now }
{
    match (form, value) {
        (StyleForm::Sides, Declared::Plain(Value::Sides(_))) => true,
        (StyleForm::Position, Declared::Plain(Value::Choice(Family::Pos, place))) => *place < 9,
        (StyleForm::Size, Declared::Plain(Value::Int(_))) => true,
        (StyleForm::Truth, Declared::Plain(Value::Bool(_))) => true,
        (StyleForm::Visibility, Declared::Plain(Value::Bool(_))) => true,
        (StyleForm::Paint, Declared::Paint(_)) => true,
        (StyleForm::Paints, Declared::Paints(_)) => true,
        (StyleForm::SidesList, Declared::SidesList(_)) => true,
        _ => false,
    }
}
