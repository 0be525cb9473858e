//! The types of events, and the phases in which a node handles one. `Handlers` keeps actions by both, and
//! `route` asks the type which nodes an event passes.
ghost use Rattle.std.specs.Prelude.{◌≡◌};
ghost use Rattle.fx_events.specs.Routes.{is_of_one_node};
ghost use Rattle.fx_events.specs.Events.{is_same_phase, is_same_type, parts_of, types_of};

/// A type of event, as the constants of JavaFX's `Event`, `InputEvent`, `MouseEvent`, `KeyEvent` and `ActionEvent`.
#[derive(Clone, Copy, PartialEq, Eq, Debug)]
pub enum EventKind {
    Any,
    Mouse,
    Key,
    Action,
    MouseMoved,
    MouseDragged,
    MousePressed,
    MouseReleased,
    MouseClicked,
    MouseEntered,
    MouseExited,
    KeyPressed,
}

/// When a registration runs: on the way down to the target, on the way back up, or on the way up behind all handlers of
/// its type, as what JavaFX's `setOnMouseClicked` and the like set.
#[derive(Clone, Copy, PartialEq, Eq, Debug)]
pub enum Phase {
    Filter,
    Handler,
    Convenience,
}

impl EventKind {
    /// The type itself, its general type and the type of all events, each once.
    pub(crate) fn types(self) -> &'static [EventKind]
        ensures { result.now ≡ types_of self }
    {
        match self {
            EventKind::Any => &[EventKind::Any],
            EventKind::Mouse => &[EventKind::Mouse, EventKind::Any],
            EventKind::Key => &[EventKind::Key, EventKind::Any],
            EventKind::Action => &[EventKind::Action, EventKind::Any],
            EventKind::MouseMoved => &[EventKind::MouseMoved, EventKind::Mouse, EventKind::Any],
            EventKind::MouseDragged => &[EventKind::MouseDragged, EventKind::Mouse, EventKind::Any],
            EventKind::MousePressed => &[EventKind::MousePressed, EventKind::Mouse, EventKind::Any],
            EventKind::MouseReleased => &[
                EventKind::MouseReleased,
                EventKind::Mouse,
                EventKind::Any,
            ],
            EventKind::MouseClicked => &[EventKind::MouseClicked, EventKind::Mouse, EventKind::Any],
            EventKind::MouseEntered => &[EventKind::MouseEntered, EventKind::Mouse, EventKind::Any],
            EventKind::MouseExited => &[EventKind::MouseExited, EventKind::Mouse, EventKind::Any],
            EventKind::KeyPressed => &[EventKind::KeyPressed, EventKind::Key, EventKind::Any],
        }
    }

    /// Whether an event of this type goes to its target alone.
    pub(crate) fn is_of_one_node(self) -> bool
        ensures { result ≡ is_of_one_node self }
    {
        match self {
            EventKind::MouseEntered | EventKind::MouseExited => true,
            _ => false,
        }
    }

    pub(crate) fn is(self, other: EventKind) -> bool
        ensures { result ≡ is_same_type self other }
    {
        self == other
    }
}

impl Phase {
    /// What runs in the phase, in order.
    pub(crate) fn parts(self) -> &'static [Phase]
        ensures { result.now ≡ parts_of self }
    {
        match self {
            Phase::Filter => &[Phase::Filter],
            Phase::Handler => &[Phase::Handler, Phase::Convenience],
            Phase::Convenience => &[Phase::Convenience],
        }
    }

    pub(crate) fn is(self, other: Phase) -> bool
        ensures { result ≡ is_same_phase self other }
    {
        self == other
    }
}
