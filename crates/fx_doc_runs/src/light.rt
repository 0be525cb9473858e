//! Steps in comments, between modes that hold nothing.
//! Every other step is left to the other modes.
ghost use Rattle.std.specs.Prelude.{◌≡◌};
ghost use Rattle.fx_doc_grammar.specs.Characters.{class_of};
ghost use Rattle.fx_doc_grammar.specs.Machine as machine;
ghost use Rattle.fx_doc_runs.specs.Light.{light_view, light_state};
ghost use Rattle.fx_doc_runs.specs.Views.{held_view, stack_view, mode_view, Moves};

use crate::levels::goes;
use crate::modes::{Held, Mode};
use fx_doc_drafts::Halt;
use fx_doc_grammar::Class;

/// A mode that holds nothing.
#[derive(Clone, Copy)]
pub enum Light {
    Inside,
    BangDashed,
    Commented,
    Dashed,
    DashDashed,
}

impl Light {
    fn mode(self) -> Mode
        ensures { (s : machine.Stack) → mode_view s result ≡ light_view s self }
    {
        match self {
            Light::Inside => Mode::Inside,
            Light::BangDashed => Mode::BangDashed,
            Light::Commented => Mode::Commented,
            Light::Dashed => Mode::Dashed,
            Light::DashDashed => Mode::DashDashed,
        }
    }
}

/// The reader goes on in a mode that holds nothing, or not at all.
pub fn goes_lightly(held: &Held, light: Option<Light>) -> Result<Option<Mode>, Halt>
    ensures { Moves (light_state (held_view held.now) (stack_view held.now.stack.items) light) held.now result }
{
    match light {
        Some(light) => goes(held, light.mode()),
        None => Ok(None),
    }
}

pub fn from_banged(c: char) -> Option<Light>
    ensures { (h : machine.Held) (s : machine.Stack)
        → machine.in_banged h (class_of c) ≡ light_state h s result }
{
    match Class::of(c) {
        Class::Dash => Some(Light::BangDashed),
        _ => None,
    }
}

pub fn from_bang_dashed(c: char) -> Option<Light>
    ensures { (h : machine.Held) (s : machine.Stack)
        → machine.in_bang_dashed h (class_of c) ≡ light_state h s result }
{
    match Class::of(c) {
        Class::Dash => Some(Light::Commented),
        _ => None,
    }
}

pub fn from_commented(c: char) -> Light
    ensures { (h : machine.Held) (s : machine.Stack)
        → machine.in_commented h (class_of c) ≡ machine.at h (light_view s result) }
{
    match Class::of(c) {
        Class::Dash => Light::Dashed,
        _ => Light::Commented,
    }
}

pub fn from_dashed(c: char) -> Light
    ensures { (h : machine.Held) (s : machine.Stack)
        → machine.in_dashed h (class_of c) ≡ machine.at h (light_view s result) }
{
    match Class::of(c) {
        Class::Dash => Light::DashDashed,
        _ => Light::Commented,
    }
}

pub fn from_dash_dashed(c: char) -> Light
    ensures { (h : machine.Held) (s : machine.Stack)
        → machine.in_dash_dashed h (class_of c) ≡ machine.at h (light_view s result) }
{
    match Class::of(c) {
        Class::Dash => Light::DashDashed,
        Class::Greater => Light::Inside,
        _ => Light::Commented,
    }
}
