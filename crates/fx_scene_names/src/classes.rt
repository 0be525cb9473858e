//! Classes by their names.
ghost use Rattle.std.specs.Prelude.{◌≡◌, ◌≢◌, ◌++◌, ◌∷◌, ℕ, List, MatchOption};
ghost use Rattle.std.specs.List.{find};
ghost use Rattle.std.specs.Str.{bytes_eq};
ghost use Rattle.fx_text.specs.Characters.{full_stop};
ghost use Rattle.fx_kinds.specs.Classes.{name_of, package_of};
ghost use Rattle.fx_scene_names.specs.Names as spec;

use fx_kinds::{Class, all_classes, name_of, package_of};

/// The class that an element's name means: its simple name, or its full name. Mostly it is the simple name of a node's
/// class, which its first letter and its length tell.
#[tactic(auto, using(crate::proofs::GuessLemmas::guess_holds))]
pub fn class_named(name: &str) -> Option<Class>
    ensures { result ≡ spec.class_named name.now }
{
    let guess = guessed(name.as_bytes());
    if is_simple(guess, name) {
        return Some(guess);
    }
    searched(name)
}

#[tactic(auto, unfolding(crate::specs::Names::class_named))]
fn searched(name: &str) -> Option<Class>
    ensures { result ≡ spec.class_named name.now }
{
    find_class(all_classes(), name)
}

/// A class that may have this simple name.
fn guessed(name: &[u8]) -> Class {
    match name {
        [b'A', ..] => Class::AnchorPane,
        [b'B', _, _, _, _, _] => Class::Button,
        [b'B', ..] => Class::BorderPane,
        [b'G', ..] => Class::GridPane,
        [b'H', ..] => Class::HBox,
        [b'P', ..] => Class::Pane,
        [b'R', ..] => Class::Region,
        [b'S', ..] => Class::StackPane,
        [b'V', ..] => Class::VBox,
        _ => Class::Label,
    }
}

fn find_class(table: &[Class], name: &str) -> Option<Class>
    ensures { result ≡ find (spec.is_called name.now) table.now }
{
    table.iter().copied().find(|class| is_called(*class, name))
}

fn is_called(class: Class, name: &str) -> bool
    ensures { result ≡ spec.is_called name.now class }
{
    is_simple(class, name) || is_full(class, name)
}

/// Is this the simple name of the class? Lengths tell most names apart.
pub(crate) fn is_simple(class: Class, name: &str) -> bool
    ensures { result ≡ bytes_eq (name_of class) name.now }
{
    let simple = name_of(class);
    simple.len() == name.len() && simple == name
}

/// Is this the full name of the class?
#[tactic(auto, using(crate::proofs::ClassLemmas::unqualified))]
fn is_full(class: Class, name: &str) -> bool
    ensures { result ≡ bytes_eq (spec.full_name class) name.now }
{
    match behind_package(class, name) {
        Some(rest) => rest == name_of(class).as_bytes(),
        None => false,
    }
}

/// What stands behind the package of the class and a full stop.
#[tactic(auto, using(crate::proofs::ClassLemmas::no_front, crate::proofs::ClassLemmas::behind_front))]
pub(crate) fn behind_package(class: Class, text: &str) -> Option<&[u8]>
    ensures { MatchOption result ((rest : List ℕ) → text.now ≢ package_of class ++ (full_stop ∷ rest))
        (λ rest. text.now ≡ package_of class ++ (full_stop ∷ rest.now)) }
{
    match behind(package_of(class).as_bytes(), text.as_bytes()) {
        Some(rest) => behind_stop(rest),
        None => None,
    }
}

fn behind<'a>(front: &[u8], text: &'a [u8]) -> Option<&'a [u8]>
    ensures { MatchOption result ((rest : List ℕ) → text.now ≢ front.now ++ rest)
        (λ rest. text.now ≡ front.now ++ rest.now) }
{
    text.strip_prefix(front)
}

fn behind_stop(text: &[u8]) -> Option<&[u8]>
    ensures { MatchOption result ((rest : List ℕ) → text.now ≢ full_stop ∷ rest)
        (λ rest. text.now ≡ full_stop ∷ rest.now) }
{
    match text.split_first() {
        Some((&b'.', rest)) => Some(rest),
        _ => None,
    }
}
