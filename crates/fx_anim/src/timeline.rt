//! One timeline: its key frames, and how far it has come.
ghost use Rattle.std.specs.Prelude.{◌≡◌, ◌≢◌, ◌<◌, ◌≤◌, ◌↔◌, ◌++◌, ◌∷◌, [], IsTrue, IsFalse, IfNone, IfSome, OnErr, OnOk, is_none, length, slice_set};
ghost use Rattle.fx_anim.specs.Line as spec;
ghost use Rattle.fx_anim.specs.Shown.{line_of};
ghost use Rattle.std.specs.List.{filter_map};

use crate::answers::AnimError;
use fx_base::{Name, Value};
use fx_keyframes::{Cycles, Frame, is_over, position, value_at};
use std::alloc::Global;

/// The most key frames of a timeline.
const MOST_FRAMES: usize = 1024;

/// A timeline as it stands. Its targets are its properties in the order of their first key frames, and `elapsed` is in
/// milliseconds.
#[derive(Drop)]
pub struct Timeline {
    pub cycles: Cycles,
    pub frames: Vec<Frame>,
    pub targets: Vec<Name>,
    pub playing: bool,
    pub elapsed: u64,
}

impl Timeline {
    /// A timeline without key frames, which doesn't play.
    pub fn new(alloc: Global, cycles: Cycles) -> Timeline
        ensures { line_of result ≡ spec.new_line cycles }
    {
        Timeline {
            cycles,
            frames: Vec::new(alloc),
            targets: Vec::new(alloc),
            playing: false,
            elapsed: 0,
        }
    }

    /// Gives it a key frame, in the place of one of the same time and property.
    pub fn put(&mut self, frame: Frame) -> Result<(), AnimError>
        ensures ok { OnOk result (line_of self.new ≡ spec.with_frame frame (line_of self.old)) }
        ensures err { OnErr result (line_of self.new ≡ line_of self.old) }
        ensures playing { (result ≡ Err AnimError.Playing) ↔ IsTrue self.old.playing }
        ensures full { (result ≡ Err AnimError.Full)
            ↔ (IsFalse self.old.playing × IsTrue (spec.is_new frame self.old.frames.items)
            × (1024 ≤ length self.old.frames.items)) }
        ensures never_empty { result ≢ Err AnimError.Empty }
    {
        if self.playing {
            return Err(AnimError::Playing);
        }
        let place = place_of(self.frames.as_slice(), &frame);
        if place.is_none() && self.frames.len() >= MOST_FRAMES {
            return Err(AnimError::Full);
        }
        self.put_at(place, frame)
    }

    /// Puts a key frame at its place, or behind all, with its target.
    fn put_at(&mut self, place: Option<usize>, frame: Frame) -> Result<(), AnimError>
        requires none { IfNone place (spec.put_frame frame self.old.frames.items
            ≡ self.old.frames.items ++ frame ∷ []) }
        requires some { IfSome place (λ place. spec.put_frame frame self.old.frames.items
            ≡ slice_set self.old.frames.items place frame) }
        requires within { IfSome place (λ place. place < length self.old.frames.items) }
        ensures ok { OnOk result (line_of self.new ≡ spec.with_frame frame (line_of self.old)) }
        ensures err { OnErr result (line_of self.new ≡ line_of self.old) }
        ensures memory { OnErr result (result ≡ Err AnimError.Memory) }
    {
        let name = frame.name;
        let is_target = has_name(name, self.targets.as_slice());
        if !is_target {
            self.targets.push(name)?;
        }
        match put_in(&mut self.frames, place, frame) {
            Ok(()) => Ok(()),
            Err(error) => {
                if !is_target {
                    self.targets.pop();
                }
                Err(error)
            }
        }
    }

    /// Starts it, where it doesn't play.
    pub fn begin(&mut self) -> Result<(), AnimError>
        ensures ok { OnOk result (line_of self.new ≡ spec.begun (line_of self.old)) }
        ensures err { OnErr result (line_of self.new ≡ line_of self.old) }
        ensures empty { (result ≡ Err AnimError.Empty)
            ↔ (IsFalse self.old.playing × (spec.longest self.old.frames.items ≡ 0)) }
        ensures only { OnErr result (result ≡ Err AnimError.Empty) }
    {
        if self.playing {
            return Ok(());
        }
        if longest(self.frames.as_slice()) == 0 {
            return Err(AnimError::Empty);
        }
        self.playing = true;
        self.elapsed = 0;
        Ok(())
    }

    pub fn stop(&mut self)
        ensures { line_of self.new ≡ spec.stopped (line_of self.old) }
    {
        self.playing = false;
    }

    /// Lets so many milliseconds pass.
    pub fn advance(&mut self, ms: u32)
        ensures { line_of self.new ≡ spec.ticked ms (line_of self.old) }
    {
        if self.playing {
            let elapsed = self.elapsed_after(ms);
            self.playing = !is_over(self.cycles, longest(self.frames.as_slice()), elapsed);
            self.elapsed = elapsed;
        }
    }

    /// Appends what its properties become after so many milliseconds more, where it plays.
    pub fn push_sets(
        &self,
        alloc: Global,
        ms: u32,
        sets: &mut Vec<(Name, Value)>,
    ) -> Result<(), AnimError>
        ensures ok { OnOk result (sets.new.items ≡ sets.old.items ++ spec.sets_in ms (line_of self.now)) }
        ensures memory { OnErr result (result ≡ Err AnimError.Memory) }
    {
        if !self.playing {
            return Ok(());
        }
        let frames = self.frames.as_slice();
        let place = position(self.cycles, longest(frames), self.elapsed_after(ms));
        push_at(alloc, frames, self.targets.as_slice(), place, sets)
    }

    fn elapsed_after(&self, ms: u32) -> u64
        ensures { result ≡ spec.elapsed_after ms (line_of self.now) }
    {
        passed(
            self.cycles.count,
            longest(self.frames.as_slice()),
            u128::from(self.elapsed) + u128::from(ms),
        )
    }
}

/// How much of so much time counts: see the definition.
fn passed(count: Option<u32>, length: u32, elapsed: u128) -> u64
    ensures { result ≡ spec.passed count length elapsed }
{
    match count {
        None => {
            if length == 0 {
                0
            } else {
                (elapsed % (2 * u128::from(length))) as u64
            }
        }
        Some(count) => elapsed.min(u128::from(u64::from(length) * u64::from(count))) as u64,
    }
}

/// How long a cycle is: the greatest time of a key frame.
fn longest(frames: &[Frame]) -> u32
    ensures { result ≡ spec.longest frames.now }
{
    let mut most = 0;
    let mut place = frames.len();
    while place > 0 {
        place -= 1;
        most = frames[place].at.max(most);
    }
    most
}

fn has_name(name: Name, names: &[Name]) -> bool
    ensures { result ≡ spec.has_name name names.now }
{
    names.iter().any(|other| other.0 == name.0)
}

/// The place of the key frame of the same time and property.
fn place_of(frames: &[Frame], new: &Frame) -> Option<usize>
    ensures none { IfNone result (spec.put_frame new.now frames.now ≡ frames.now ++ new.now ∷ []) }
    ensures some { IfSome result (λ place. spec.put_frame new.now frames.now ≡ slice_set frames.now place new.now) }
    ensures within { IfSome result (λ place. place < length frames.now) }
    ensures new { is_none result ≡ spec.is_new new.now frames.now }
{
    for place in 0..frames.len() {
        let frame = &frames[place];
        if frame.at == new.at && frame.name.0 == new.name.0 {
            return Some(place);
        }
    }
    None
}

/// Puts a key frame at its place, or behind all.
fn put_in(frames: &mut Vec<Frame>, place: Option<usize>, frame: Frame) -> Result<(), AnimError>
    requires { IfSome place (λ place. place < length frames.old.items) }
    ensures none { IfNone place (OnOk result (frames.new.items ≡ frames.old.items ++ frame ∷ [])) }
    ensures some { IfSome place (λ place. OnOk result (frames.new.items ≡ slice_set frames.old.items place frame)) }
    ensures err { OnErr result (frames.new.items ≡ frames.old.items) }
    ensures memory { OnErr result (result ≡ Err AnimError.Memory) }
{
    match place {
        Some(place) => frames[place] = frame,
        None => frames.push(frame)?,
    }
    Ok(())
}

/// Appends what these properties become at a place of the cycle.
fn push_at(
    alloc: Global,
    frames: &[Frame],
    targets: &[Name],
    place: u32,
    sets: &mut Vec<(Name, Value)>,
) -> Result<(), AnimError>
    ensures ok { OnOk result (sets.new.items
        ≡ sets.old.items ++ filter_map (spec.set_at frames.now place) targets.now) }
    ensures memory { OnErr result (result ≡ Err AnimError.Memory) }
{
    for name in targets {
        if let Some(value) = value_at(alloc, frames, *name, place)? {
            sets.push((*name, value))?;
        }
    }
    Ok(())
}
