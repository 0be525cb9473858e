//! What an attribute is by its name.
ghost use Rattle.std.specs.Prelude.{◌≡◌, IsTrue};
ghost use Rattle.fx_scene_values.specs.Roles as spec;

use fx_events::EventKind;
use fx_kinds::is_ignored;
use fx_scene_names::is_static;

/// What an attribute of an instance is.
#[derive(Clone, Copy, Debug, PartialEq, Eq)]
pub enum Role {
    /// The instance's name.
    Name,
    /// It means nothing here.
    Ignored,
    Style,
    Classes,
    Sheets,
    /// What handles events of the type once they are on their way back up, behind all other handlers of the node.
    Handler(EventKind),
    /// A constraint, as `HBox.hgrow`.
    Static,
    Property,
}

/// What the attribute of this name is. The first letters tell most properties from all names that mean something else.
pub fn role_of(name: &str) -> Role
    ensures { result ≡ spec.role_of name.now }
{
    if begins_plain(name.as_bytes()) {
        return dotted_role(name);
    }
    searched_role(name)
}

/// Do the first letters say that it is a property or a constraint, by the dot in it? Where they don't, it may be one
/// still.
#[tactic(auto, unfolding(crate::specs::Roles::role_of))]
fn begins_plain(name: &[u8]) -> bool
    ensures { IsTrue result → spec.role_of name.now ≡ spec.dotted_role name.now }
{
    match name {
        [b'p', b'r', ..] | [b't', b'e', b'x', b't'] | [b'm', b'i', ..] | [b'm', b'a', ..] => true,
        [b'l' | b'w' | b'h' | b'v' | b'i', ..] | [b'H' | b'V' | b'G', ..] => true,
        _ => false,
    }
}

#[tactic(auto, unfolding(crate::specs::Roles::role_of))]
fn searched_role(name: &str) -> Role
    ensures { result ≡ spec.role_of name.now }
{
    if name == "fx:id" {
        return Role::Name;
    }
    if is_ignored(name) {
        return Role::Ignored;
    }
    match handled_by(name) {
        Some(on) => Role::Handler(on),
        None => plain_role(name),
    }
}

/// The type of events that the attribute of this name handles.
fn handled_by(name: &str) -> Option<EventKind>
    ensures { result ≡ spec.handled_by name.now }
{
    match name {
        "onAction" => Some(EventKind::Action),
        "onKeyPressed" => Some(EventKind::KeyPressed),
        _ => mouse_handled_by(name),
    }
}

fn mouse_handled_by(name: &str) -> Option<EventKind>
    ensures { result ≡ spec.mouse_handled_by name.now }
{
    match name {
        "onMouseClicked" => Some(EventKind::MouseClicked),
        "onMousePressed" => Some(EventKind::MousePressed),
        "onMouseReleased" => Some(EventKind::MouseReleased),
        "onMouseMoved" => Some(EventKind::MouseMoved),
        "onMouseDragged" => Some(EventKind::MouseDragged),
        "onMouseEntered" => Some(EventKind::MouseEntered),
        "onMouseExited" => Some(EventKind::MouseExited),
        _ => None,
    }
}

fn plain_role(name: &str) -> Role
    ensures { result ≡ spec.plain_role name.now }
{
    if name == "style" {
        return Role::Style;
    }
    if name == "styleClass" {
        return Role::Classes;
    }
    if name == "stylesheets" {
        return Role::Sheets;
    }
    dotted_role(name)
}

fn dotted_role(name: &str) -> Role
    ensures { result ≡ spec.dotted_role name.now }
{
    if is_static(name) {
        return Role::Static;
    }
    Role::Property
}
