//! Lines that are told before they are read: blank ones, comments, and the `end` of an action.
ghost use Rattle.std.specs.Prelude.{◌≡◌, ◌==◌, IsTrue, false};
ghost use Rattle.std.specs.List.{list_all};
ghost use Rattle.fx_text.specs.Characters.{small_e};
ghost use Rattle.fx_text.specs.Classes.{is_blank, is_space};
ghost use Rattle.fx_script_commands.specs.Commands as spec;

use fx_script_lines::Words;

/// Does the line ask for nothing?
#[tactic(auto, unfolding(crate::specs::Commands::is_skipped))]
pub(crate) fn is_skipped(text: &str) -> bool
    ensures { result ≡ spec.is_skipped text.now }
{
    is_blank(text.as_bytes()) || text.as_bytes().starts_with(b"#")
}

fn is_blank(text: &[u8]) -> bool
    ensures { result ≡ list_all is_blank text.now }
{
    text.iter().all(|c| *c == b' ' || *c == b'\t')
}

/// Does a line begin with another letter than `end`, and not with a space? Most lines of actions do, so their first
/// words aren't looked for.
fn begins_otherwise(text: &[u8]) -> bool
    ensures { IsTrue result → spec.is_end text.now ≡ false }
{
    match text.first() {
        Some(first) => is_other(*first),
        None => false,
    }
}

fn is_other(first: u8) -> bool
    ensures other { IsTrue result → (first == small_e) ≡ false }
    ensures space { IsTrue result → is_space first ≡ false }
{
    first != b'e' && first != b' '
}

/// Does the line close an action?
#[tactic(auto, unfolding(crate::specs::Commands::is_end))]
pub(crate) fn is_end(text: &str) -> bool
    ensures { result ≡ spec.is_end text.now }
{
    if begins_otherwise(text.as_bytes()) {
        return false;
    }
    let mut words = Words { left: text };
    words.next().as_bytes() == b"end".as_slice() && words.is_over()
}
