//! All timelines.
ghost use Rattle.std.specs.Prelude.{◌≡◌, ◌≢◌, ◌<◌, ◌≤◌, ◌↔◌, ◌++◌, ◌∷◌, [], pos, ◌≤ℤ◌, IfOk, OnErr, OnOk, length, map, slice_set, unsigned_abs, IsTrue, IsFalse};
ghost use Rattle.fx_anim.specs.Line.{begun, is_new, line_at, longest, new_line, sets_of, stopped, ticked, with_frame};
ghost use Rattle.fx_anim.specs.Shown.{frame_of, line_of, lines_of};

use crate::answers::AnimError;
use crate::timeline::Timeline;
use fx_base::{Name, Value};
use fx_keyframes::{Cycles, Frame};
use std::alloc::Global;

/// The most timelines.
const MOST: usize = 256;

/// Timelines by their numbers, from 0 in the order of their making.
#[derive(Drop)]
pub struct Timelines {
    lines: Vec<Timeline>,
}

impl Timelines {
    /// No timeline.
    pub fn new(alloc: Global) -> Timelines
        ensures { lines_of result ≡ [] }
    {
        Timelines {
            lines: Vec::new(alloc),
        }
    }

    /// How many timelines there are.
    pub fn len(&self) -> usize
        ensures { result ≡ length (lines_of self.now) }
    {
        self.lines.len()
    }

    /// Is there no timeline?
    pub fn is_empty(&self) -> bool
        ensures { IsTrue result ↔ (lines_of self.now ≡ []) }
    {
        self.lines.is_empty()
    }

    /// A further timeline, which runs so often, or without an end. Answers its number.
    pub fn add(
        &mut self,
        alloc: Global,
        count: Option<u32>,
        reverse: bool,
    ) -> Result<u32, AnimError>
        ensures number { IfOk result (λ id. id ≡ length (lines_of self.old)) }
        ensures ok { OnOk result (lines_of self.new
            ≡ lines_of self.old ++ new_line (record { count = count; reverse = reverse }) ∷ []) }
        ensures err { OnErr result (lines_of self.new ≡ lines_of self.old) }
        ensures full { (result ≡ Err AnimError.Full) ↔ (256 ≤ length (lines_of self.old)) }
        ensures memory { OnErr result (result ≢ Err AnimError.Full → result ≡ Err AnimError.Memory) }
    {
        let id = self.lines.len();
        if id >= MOST {
            return Err(AnimError::Full);
        }
        self.lines
            .push(Timeline::new(alloc, Cycles { count, reverse }))?;
        Ok(id as u32)
    }

    /// Gives a timeline a key frame: at this time, in milliseconds, the property has the value. It takes the place of
    /// one of the same time and property.
    pub fn key(
        &mut self,
        _alloc: Global,
        id: u32,
        at: i64,
        name: Name,
        value: Value,
    ) -> Result<(), AnimError>
        requires id { id < length (lines_of self.old) }
        requires at { (pos 0 ≤ℤ at) × (at ≤ℤ pos 3600000) }
        ensures ok { OnOk result (lines_of self.new ≡ slice_set (lines_of self.old) id
            (with_frame (frame_of at name value) (line_at (lines_of self.old) id))) }
        ensures err { OnErr result (lines_of self.new ≡ lines_of self.old) }
        ensures playing { (result ≡ Err AnimError.Playing) ↔ IsTrue (line_at (lines_of self.old) id).playing }
        ensures full { (result ≡ Err AnimError.Full) ↔ (IsFalse (line_at (lines_of self.old) id).playing
            × IsTrue (is_new (frame_of at name value) (line_at (lines_of self.old) id).frames)
            × (1024 ≤ length (line_at (lines_of self.old) id).frames)) }
        ensures never_empty { result ≢ Err AnimError.Empty }
    {
        let at = milliseconds(at);
        self.lines[id as usize].put(Frame { at, name, value })
    }

    /// Starts a timeline at time 0; one that plays goes on.
    pub fn play(&mut self, id: u32) -> Result<(), AnimError>
        requires { id < length (lines_of self.old) }
        ensures ok { OnOk result (lines_of self.new
            ≡ slice_set (lines_of self.old) id (begun (line_at (lines_of self.old) id))) }
        ensures err { OnErr result (lines_of self.new ≡ lines_of self.old) }
        ensures empty { (result ≡ Err AnimError.Empty) ↔ (IsFalse (line_at (lines_of self.old) id).playing
            × (longest (line_at (lines_of self.old) id).frames ≡ 0)) }
        ensures only { OnErr result (result ≡ Err AnimError.Empty) }
    {
        self.lines[id as usize].begin()
    }

    /// Stops a timeline; no property changes.
    pub fn stop(&mut self, id: u32)
        requires { id < length (lines_of self.old) }
        ensures { lines_of self.new ≡ slice_set (lines_of self.old) id (stopped (line_at (lines_of self.old) id)) }
    {
        self.lines[id as usize].stop();
    }

    /// Lets so many milliseconds pass for all timelines that play. Answers what their properties become, in the order
    /// of the timelines and of their properties.
    pub fn tick(&mut self, alloc: Global, ms: i64) -> Result<Vec<(Name, Value)>, AnimError>
        requires { (pos 1 ≤ℤ ms) × (ms ≤ℤ pos 3600000) }
        ensures sets { IfOk result (λ sets. sets.items ≡ sets_of (unsigned_abs ms) (lines_of self.old)) }
        ensures ok { OnOk result (lines_of self.new ≡ map (ticked (unsigned_abs ms)) (lines_of self.old)) }
        ensures err { OnErr result (lines_of self.new ≡ lines_of self.old) }
        ensures memory { OnErr result (result ≡ Err AnimError.Memory) }
    {
        let ms = milliseconds(ms);
        let sets = sets_of(alloc, ms, self.lines.as_slice())?;
        advance_all(ms, self.lines.as_mut_slice());
        Ok(sets)
    }
}

/// A time as a number without a sign.
fn milliseconds(time: i64) -> u32
    requires { (pos 0 ≤ℤ time) × (time ≤ℤ pos 3600000) }
    ensures { result ≡ unsigned_abs time }
{
    time as u32
}

fn sets_of(alloc: Global, ms: u32, lines: &[Timeline]) -> Result<Vec<(Name, Value)>, AnimError>
    ensures sets { IfOk result (λ sets. sets.items ≡ sets_of ms (map line_of lines.now)) }
    ensures memory { OnErr result (result ≡ Err AnimError.Memory) }
{
    let mut sets = Vec::new(alloc);
    for line in lines {
        line.push_sets(alloc, ms, &mut sets)?;
    }
    Ok(sets)
}

fn advance_all(ms: u32, lines: &mut [Timeline])
    ensures { map line_of lines.new ≡ map (ticked ms) (map line_of lines.old) }
{
    for place in 0..lines.len() {
        lines[place].advance(ms);
    }
}
