//! Words for pseudo-classes and for types of events.
ghost use Rattle.std.specs.Prelude.{◌≡◌, map};
ghost use Rattle.std.specs.List.{find, list_any};
ghost use Rattle.std.specs.Str.{bytes_eq};
ghost use Rattle.fx_stage_types.specs.Edits.{has_word};
ghost use Rattle.fx_stage_model.specs.Dressing as spec;

use fx_base::Text;
use fx_events::EventKind;

static OWN_PSEUDOS: &[&str] = &["hover", "focused", "pressed", "disabled"];

fn own_pseudos() -> &'static [&'static str]
    ensures { map (λ name. name.now) result.now ≡ spec.own_pseudos }
{
    OWN_PSEUDOS
}

fn is_among(names: &[&str], name: &str) -> bool
    ensures { result ≡ list_any (λ other. bytes_eq other.now name.now) names.now }
{
    names.iter().any(|other| *other == name)
}

/// Is it a pseudo-class that follows the pointer, the button, the focus or `disable`?
pub fn is_own_pseudo(name: &Text) -> bool
    ensures { result ≡ has_word spec.own_pseudos name.now }
{
    is_among(own_pseudos(), name.as_str())
}

static EVENT_KINDS: &[EventKind] = &[
    EventKind::Any,
    EventKind::Mouse,
    EventKind::Key,
    EventKind::Action,
    EventKind::MouseMoved,
    EventKind::MouseDragged,
    EventKind::MousePressed,
    EventKind::MouseReleased,
    EventKind::MouseClicked,
    EventKind::MouseEntered,
    EventKind::MouseExited,
    EventKind::KeyPressed,
];

/// The type of events whose constant has this name.
pub fn event_named(name: &Text) -> Option<EventKind>
    ensures { result ≡ spec.event_named name.now }
{
    find_event(EVENT_KINDS, name.as_str())
}

fn find_event(table: &[EventKind], name: &str) -> Option<EventKind>
    ensures { result ≡ find (λ on. bytes_eq (spec.constant_of on) name.now) table.now }
{
    table.iter().copied().find(|on| is_constant(*on, name))
}

fn is_constant(on: EventKind, name: &str) -> bool
    ensures { result ≡ bytes_eq (spec.constant_of on) name.now }
{
    constant_of(on) == name
}

/// The name of the type's constant.
fn constant_of(on: EventKind) -> &'static str
    ensures { result.now ≡ spec.constant_of on }
{
    match on {
        EventKind::Any => "ANY",
        EventKind::Mouse => "MOUSE",
        EventKind::Key => "KEY",
        EventKind::Action => "ACTION",
        EventKind::MouseMoved => "MOUSE_MOVED",
        EventKind::MouseDragged => "MOUSE_DRAGGED",
        EventKind::MousePressed => "MOUSE_PRESSED",
        EventKind::MouseReleased => "MOUSE_RELEASED",
        EventKind::MouseClicked => "MOUSE_CLICKED",
        EventKind::MouseEntered => "MOUSE_ENTERED",
        EventKind::MouseExited => "MOUSE_EXITED",
        EventKind::KeyPressed => "KEY_PRESSED",
    }
}
