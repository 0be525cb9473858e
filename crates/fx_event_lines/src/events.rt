//! Events that are to be sent.
ghost use Rattle.std.specs.Prelude.{◌≡◌, ◌++◌, OnOk};
ghost use Rattle.fx_event_lines.specs.Started as spec;

use fx_base::NodeKey;
use fx_events::EventKind;
use std::alloc::AllocError;

/// A type of event, and the node that it goes to. Which other nodes it passes is found when it is sent.
#[derive(Clone, Copy, PartialEq, Eq, Debug)]
pub struct Event {
    pub on: EventKind,
    pub target: NodeKey,
}

/// One more event to each of these nodes.
pub(crate) fn send_to(
    events: &mut Vec<Event>,
    on: EventKind,
    targets: &[NodeKey],
) -> Result<(), AllocError>
    ensures { OnOk result (events.new.items ≡ events.old.items ++ spec.sent_to on targets.now) }
{
    for target in targets {
        events.push(Event {
            on,
            target: *target,
        })?;
    }
    Ok(())
}

/// One more event to the node, if there is one.
pub(crate) fn send_if(
    events: &mut Vec<Event>,
    on: EventKind,
    target: Option<NodeKey>,
) -> Result<(), AllocError>
    ensures { OnOk result (events.new.items ≡ events.old.items ++ spec.sent_if on target) }
{
    if let Some(target) = target {
        events.push(Event { on, target })?;
    }
    Ok(())
}
