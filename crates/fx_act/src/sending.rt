//! Events on their way through the scene.
ghost use Rattle.std.specs.Prelude.{◌≡◌, ◌&&◌, OnOk, map};
ghost use Rattle.fx_events.specs.Events.{is_same_type};
ghost use Rattle.fx_events.specs.Routes.{route_of};
ghost use Rattle.fx_events.specs.declared.kinds.EventKind.TheVariants.{Action};
ghost use Rattle.fx_plain_dispatch.specs.Costs.{IsDoneWithin};
ghost use Rattle.fx_plain_dispatch.specs.Running.{AreCalled};
ghost use Rattle.fx_plain_dispatch.specs.Sending.{ArePassed, AreSent, calls_at, is_passed_over, passes_of, sent_off, there_and_back};
ghost use Rattle.fx_play_steps.specs.Traces.{course_of};
ghost use Rattle.fx_tree.specs.Scene.{is_alive};

use crate::running::call_all;
use fx_base::{Ledgers, NodeKey, Work};
use fx_event_lines::Event;
use fx_events::{EventKind, Phase, route};
use fx_play_steps::Trace;
use fx_stage::Stage;
use std::alloc::{AllocError, Global};

/// Sends these events, each along the route that it has when its turn comes.
pub(crate) fn send_all<L: Ledgers>(
    alloc: Global,
    stage: &mut Stage,
    events: &[Event],
    trace: &mut Trace,
    work: &mut Work<L>,
) -> Result<(), AllocError>
    ensures done { OnOk result (IsDoneWithin (AreSent events.now
        (course_of stage.old trace.old) (course_of stage.new trace.new))
        work.old.evaluated work.new.evaluated) }
    ensures others { work.new ≡ record work.old { evaluated = work.new.evaluated } }
{
    for event in events {
        send(alloc, stage, *event, trace, work)?;
    }
    Ok(())
}

fn send<L: Ledgers>(
    alloc: Global,
    stage: &mut Stage,
    event: Event,
    trace: &mut Trace,
    work: &mut Work<L>,
) -> Result<(), AllocError>
    ensures done { OnOk result (IsDoneWithin (ArePassed event.on (passes_of event (course_of stage.old trace.old))
        (sent_off event (course_of stage.old trace.old)) (course_of stage.new trace.new))
        work.old.evaluated work.new.evaluated) }
    ensures others { work.new ≡ record work.old { evaluated = work.new.evaluated } }
{
    let left_out = is_left_out(event, trace);
    trace.consumed = left_out;
    if left_out {
        return Ok(());
    }
    go_along(alloc, stage, event, trace, work)
}

/// Whether the event is an action behind one that was consumed.
fn is_left_out(event: Event, trace: &Trace) -> bool
    ensures { result ≡ (is_same_type event.on Action && trace.now.consumed) }
{
    is_action(event.on) && trace.consumed
}

/// The event goes to its target and back.
fn go_along<L: Ledgers>(
    alloc: Global,
    stage: &mut Stage,
    event: Event,
    trace: &mut Trace,
    work: &mut Work<L>,
) -> Result<(), AllocError>
    ensures done { OnOk result (IsDoneWithin (ArePassed event.on
        (there_and_back (route_of stage.old.graph.tree.nodes event.on event.target))
        (course_of stage.old trace.old) (course_of stage.new trace.new))
        work.old.evaluated work.new.evaluated) }
    ensures others { work.new ≡ record work.old { evaluated = work.new.evaluated } }
{
    let mut nodes = route(alloc, stage.graph().tree(), event.on, event.target)?;
    pass_all(
        alloc,
        stage,
        event.on,
        Phase::Filter,
        nodes.as_slice(),
        trace,
        work,
    )?;
    nodes.as_mut_slice().reverse();
    pass_all(
        alloc,
        stage,
        event.on,
        Phase::Handler,
        nodes.as_slice(),
        trace,
        work,
    )
}

/// The event passes by these nodes, one after another, in this phase.
fn pass_all<L: Ledgers>(
    alloc: Global,
    stage: &mut Stage,
    on: EventKind,
    phase: Phase,
    nodes: &[NodeKey],
    trace: &mut Trace,
    work: &mut Work<L>,
) -> Result<(), AllocError>
    ensures done { OnOk result (IsDoneWithin (ArePassed on (map (λ key. (phase, key)) nodes.now)
        (course_of stage.old trace.old) (course_of stage.new trace.new))
        work.old.evaluated work.new.evaluated) }
    ensures others { work.new ≡ record work.old { evaluated = work.new.evaluated } }
{
    for key in nodes {
        pass_by(alloc, stage, on, phase, *key, trace, work)?;
    }
    Ok(())
}

/// What the event calls at a node in this phase, unless it was consumed before or the node was dropped.
fn pass_by<L: Ledgers>(
    alloc: Global,
    stage: &mut Stage,
    on: EventKind,
    phase: Phase,
    key: NodeKey,
    trace: &mut Trace,
    work: &mut Work<L>,
) -> Result<(), AllocError>
    ensures done { OnOk result (IsDoneWithin (AreCalled (calls_at on (phase, key) (course_of stage.old trace.old))
        (course_of stage.old trace.old) (course_of stage.new trace.new))
        work.old.evaluated work.new.evaluated) }
    ensures others { work.new ≡ record work.old { evaluated = work.new.evaluated } }
{
    if is_passed_over(stage, key, trace) {
        return Ok(());
    }
    let calls = stage.graph().handlers().calls_on(alloc, key, on, phase)?;
    call_all(alloc, stage, calls.as_slice(), trace, work)
}

/// Whether nothing is called at the node: the event was consumed before, or the node was dropped.
fn is_passed_over(stage: &Stage, key: NodeKey, trace: &Trace) -> bool
    ensures { result ≡ is_passed_over key (course_of stage.now trace.now) }
{
    trace.consumed || !is_alive(stage, key)
}

/// Whether the node wasn't dropped.
fn is_alive(stage: &Stage, key: NodeKey) -> bool
    ensures { result ≡ is_alive stage.now.graph.tree.nodes key }
{
    stage.graph().tree().children(key).is_some()
}

fn is_action(on: EventKind) -> bool
    ensures { result ≡ is_same_type on Action }
{
    match on {
        EventKind::Action => true,
        _ => false,
    }
}
