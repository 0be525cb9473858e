//! Where lines may stand.
//! The readers of single lines ask it by a line's first word.
ghost use Rattle.std.specs.Prelude.{◌≡◌, codes};
ghost use Rattle.std.specs.List.{list_any};
ghost use Rattle.std.specs.Str.{bytes_eq};
ghost use Rattle.fx_script_commands.specs.Commands as spec;

/// Where a line stands.
#[derive(Clone, Copy)]
pub(crate) enum Standing {
    Outside,
    InAction,
}

/// The first words of lines that may not stand in an action. `action` and `end` are no lines by themselves.
const OUTSIDE_ALONE: [&str; 15] = [
    "pulse",
    "resize",
    "move",
    "press",
    "release-button",
    "key",
    "focus",
    "tab",
    "backtab",
    "timeline",
    "keyframe",
    "play",
    "stop",
    "tick",
    "explain",
];

/// May no line with this first word stand there?
#[tactic(auto, unfolding(crate::specs::Commands::is_barred))]
pub(crate) fn is_barred(standing: Standing, first: &str) -> bool
    ensures { result ≡ spec.is_barred standing first.now }
{
    match standing {
        Standing::Outside => is_consume(first),
        Standing::InAction => is_among(&OUTSIDE_ALONE, first),
    }
}

fn is_consume(first: &str) -> bool
    ensures { result ≡ bytes_eq (codes "consume") first.now }
{
    b"consume".as_slice() == first.as_bytes()
}

fn is_among(words: &[&str], first: &str) -> bool
    ensures { result ≡ list_any (λ word. bytes_eq word.now first.now) words.now }
{
    words.iter().any(|word| word.as_bytes() == first.as_bytes())
}
