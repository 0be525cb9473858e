//! What a property is at a position: the frames before and after it.
ghost use Rattle.std.specs.Prelude.{◌≡◌, ◌≤◌, IfOk, IfSome, Some, if◌then◌else◌};
ghost use Rattle.std.specs.Option.{option_copied};
ghost use Rattle.fx_keyframes.specs.Reading.{after, before, earlier, is_after, is_before, later, mixed, mixed_at, value_at};

use crate::frames::Frame;
use crate::mixing::between;
use fx_base::{Name, Value};
use std::alloc::{AllocError, Global};

/// What the frames make of a property at this position, or none where no frame is of it.
#[tactic(auto, unfolding(crate::specs::Reading::value_at))]
pub fn value_at(
    alloc: Global,
    frames: &[Frame],
    name: Name,
    position: u32,
) -> Result<Option<Value>, AllocError>
    ensures { IfOk result (λ value. value ≡ value_at name position frames.now) }
{
    let first = before(frames, name, position);
    let next = after(frames, name, position);
    mixed_at(alloc, position, first, next)
}

/// The last frame of a property up to a position.
fn before(frames: &[Frame], name: Name, position: u32) -> Option<&Frame>
    ensures { option_copied result ≡ before name position frames.now }
{
    let mut found = None;
    let mut place = frames.len();
    while place > 0 {
        place -= 1;
        found = with_before(&frames[place], found, name, position);
    }
    found
}

/// The first frame of a property from a position on.
fn after(frames: &[Frame], name: Name, position: u32) -> Option<&Frame>
    ensures value { option_copied result ≡ after name position frames.now }
    ensures late { IfSome result (λ frame. position ≤ frame.now.at) }
{
    let mut found = None;
    let mut place = frames.len();
    while place > 0 {
        place -= 1;
        found = with_after(&frames[place], found, name, position);
    }
    found
}

fn with_before<'a>(
    frame: &'a Frame,
    found: Option<&'a Frame>,
    name: Name,
    position: u32,
) -> Option<&'a Frame>
    ensures { option_copied result ≡ (if is_before name position frame.now
        then Some (later frame.now (option_copied found.entry)) else option_copied found.entry) }
{
    if frame.name == name && frame.at <= position {
        Some(later(frame, found))
    } else {
        found
    }
}

fn with_after<'a>(
    frame: &'a Frame,
    found: Option<&'a Frame>,
    name: Name,
    position: u32,
) -> Option<&'a Frame>
    requires { IfSome found (λ frame. position ≤ frame.now.at) }
    ensures value { option_copied result ≡ (if is_after name position frame.now
        then Some (earlier frame.now (option_copied found.entry)) else option_copied found.entry) }
    ensures late { IfSome result (λ frame. position ≤ frame.now.at) }
{
    if frame.name == name && position <= frame.at {
        Some(earlier(frame, found))
    } else {
        found
    }
}

fn later<'a>(frame: &'a Frame, found: Option<&'a Frame>) -> &'a Frame
    ensures { result.now ≡ later frame.now (option_copied found.entry) }
{
    match found {
        Some(other) if frame.at <= other.at => other,
        _ => frame,
    }
}

fn earlier<'a>(frame: &'a Frame, found: Option<&'a Frame>) -> &'a Frame
    ensures { result.now ≡ earlier frame.now (option_copied found.entry) }
{
    match found {
        Some(other) if other.at <= frame.at => other,
        _ => frame,
    }
}

fn mixed_at(
    alloc: Global,
    position: u32,
    first: Option<&Frame>,
    next: Option<&Frame>,
) -> Result<Option<Value>, AllocError>
    requires { IfSome next (λ frame. position ≤ frame.now.at) }
    ensures { IfOk result (λ value. value
        ≡ mixed_at position (option_copied first.entry) (option_copied next.entry)) }
{
    match first {
        Some(first) => match next {
            Some(next) => Ok(Some(mixed(alloc, position, first, next)?)),
            None => Ok(Some(first.value.copy(alloc)?)),
        },
        None => match next {
            Some(next) => Ok(Some(next.value.copy(alloc)?)),
            None => Ok(None),
        },
    }
}

#[tactic(auto, unfolding(crate::specs::Reading::mixed))]
fn mixed(alloc: Global, position: u32, first: &Frame, next: &Frame) -> Result<Value, AllocError>
    requires { position ≤ next.now.at }
    ensures { IfOk result (λ value. value ≡ mixed position first.now next.now) }
{
    if next.at <= first.at {
        return first.value.copy(alloc);
    }
    let part = position.saturating_sub(first.at);
    let whole = next.at - first.at;
    between(alloc, &first.value, &next.value, part, whole)
}
