//! The text of an expression in a line.
//! Between what is behind the name in a `bind` line and the reader of expressions.
ghost use Rattle.std.specs.Prelude.{◌≡◌, ◌<◌};
ghost use Rattle.std.specs.Option.{option_map};
ghost use Rattle.fx_script_commands.specs.Braces as spec;

use fx_script_lines::behind_spaces;

/// What stands between `${` and `}`, with spaces alone around them.
#[tactic(auto, unfolding(crate::specs::Braces::between_braces))]
pub(crate) fn between_braces(text: &str) -> Option<&str>
    ensures { option_map (λ inside. inside.now) result ≡ spec.between_braces text.now }
{
    let behind_dollar = behind_sign(before_spaces(behind_spaces(text)), '$')?;
    let behind_brace = behind_sign(behind_dollar, '{')?;
    before_sign(behind_brace, '}')
}

/// What stands behind the sign at the front.
pub fn behind_sign(text: &str, sign: char) -> Option<&str>
    requires { sign < 128 }
    ensures { option_map (λ rest. rest.now) result ≡ spec.behind_sign sign text.now }
{
    text.strip_prefix(sign)
}

/// What stands before the sign at the end.
pub fn before_sign(text: &str, sign: char) -> Option<&str>
    requires { sign < 128 }
    ensures { option_map (λ front. front.now) result ≡ spec.before_sign sign text.now }
{
    text.strip_suffix(sign)
}

fn before_spaces(text: &str) -> &str
    ensures { result.now ≡ spec.before_spaces text.now }
{
    let mut rest = text;
    while let Some(others) = rest.strip_suffix(' ') {
        rest = others;
    }
    rest
}
