//! What the text of an attribute is by the signs in front of it.
ghost use Rattle.std.specs.Prelude.{◌≡◌};
ghost use Rattle.fx_scene_values.specs.Forms as spec;
ghost use Rattle.fx_scene_values.specs.Views.{form_view};

use fx_script_commands::{before_sign, behind_sign};

/// What the text of an attribute is.
#[derive(Clone, Copy)]
pub enum Form<'a> {
    /// It stands for itself.
    Literal(&'a str),
    /// An expression that the property is bound to.
    Bound(&'a str),
    /// A value by its name.
    Named(&'a str),
    /// A location.
    Located(&'a str),
    /// It is of no form.
    Refused,
}

/// The form of a text: `\` makes the rest literal, `${` and `}` stand around an expression, `$` before a name and `@`
/// before a location.
#[tactic(auto, unfolding(crate::specs::Forms::form_of))]
pub fn form_of(text: &str) -> Form<'_>
    ensures { form_view result ≡ spec.form_of text.now }
{
    if let Some(rest) = behind_sign(text, '\\') {
        return Form::Literal(rest);
    }
    if let Some(rest) = behind_sign(text, '$') {
        return dollar_form(rest);
    }
    unsigned_form(text)
}

fn unsigned_form(text: &str) -> Form<'_>
    ensures { form_view result ≡ spec.unsigned_form text.now }
{
    if let Some(path) = behind_sign(text, '@') {
        return Form::Located(path);
    }
    percent_form(text)
}

fn percent_form(text: &str) -> Form<'_>
    ensures { form_view result ≡ spec.percent_form text.now }
{
    match text.as_bytes() {
        [b'%', ..] => Form::Refused,
        _ => Form::Literal(text),
    }
}

/// What stands behind `$`: an expression between braces, or a name.
fn dollar_form(rest: &str) -> Form<'_>
    ensures { form_view result ≡ spec.dollar_form rest.now }
{
    match behind_sign(rest, '{') {
        Some(inside) => brace_form(inside),
        None => Form::Named(rest),
    }
}

fn brace_form(inside: &str) -> Form<'_>
    ensures { form_view result ≡ spec.brace_form inside.now }
{
    match before_sign(inside, '}') {
        Some(text) => Form::Bound(text),
        None => Form::Refused,
    }
}
