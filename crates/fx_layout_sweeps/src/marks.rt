//! Marks of places. A search for the nearest mark looks at many places at once, so that places which aren't marked cost
//! next to nothing.
ghost use Rattle.std.specs.Prelude.{ℕ, ◌≡◌, ◌<◌, ◌≤◌, ◌-◌, ◌==◌, ◌||◌, ◌&&◌, false, true, IfOk, drop, length, slice_set, take};
ghost use Rattle.fx_layout_sweeps.specs.Marks.{IsFirstMark, IsLastMark, flag_in, is_set};

use memchr::{memchr, memrchr};
use std::alloc::{AllocError, Global};
use std::marker::Model;

const UNSET: u8 = 0;

const SET: u8 = 1;

/// For each of so many places whether it is marked.
#[derive(Drop)]
pub struct Marks {
    bytes: Vec<u8>,
}

impl Model for Marks {
    ghost use Rattle.std.specs.Prelude.{Bool, List, map};
    ghost use Rattle.fx_layout_sweeps.specs.Marks.{is_set};

    ghost Value = { List Bool };

    ghost view = { λ marks. map is_set marks.bytes.items };
}

impl Marks {
    /// So many places, of which none is marked.
    pub fn new(alloc: Global, count: usize) -> Result<Marks, AllocError>
        ensures each { IfOk result (λ marks. length marks ≡ count) }
        ensures none { IfOk result (λ marks. (p : ℕ) → flag_in marks p ≡ false) }
    {
        let mut bytes = Vec::new(alloc);
        bytes.resize(count, UNSET)?;
        Ok(Marks { bytes })
    }

    /// Is this place marked?
    pub fn is_marked(&self, place: usize) -> bool
        ensures { result ≡ flag_in self.now place }
    {
        match self.bytes.get(place) {
            Some(byte) => *byte == SET,
            None => false,
        }
    }

    /// Is there a place just before this one, and is it marked?
    fn is_marked_before(&self, to: usize) -> bool
        ensures some { result ≡ true → 0 < to }
        ensures marked { result ≡ true → flag_in self.now (to - 1) ≡ true }
    {
        to > 0 && self.is_marked(to - 1)
    }

    /// Sets the mark of a place or takes it away.
    pub fn put(&mut self, place: usize, is_marked: bool)
        requires { place < length self.old }
        ensures { self.new ≡ slice_set self.old place is_marked }
    {
        self.bytes[place] = byte_of(is_marked);
    }

    /// Marks a place if a test says so and there is such a place. One that is marked stays marked.
    pub fn mark_if(&mut self, place: usize, test: bool)
        ensures each { length self.new ≡ length self.old }
        ensures marks { (p : ℕ) → p < length self.old
            → flag_in self.new p ≡ (flag_in self.old p || ((place == p) && test)) }
    {
        if test && place < self.bytes.len() {
            self.bytes[place] = SET;
        }
    }

    /// The first marked place from this one on.
    pub fn first_from(&self, from: usize) -> Option<usize>
        ensures { IsFirstMark self.now from result }
    {
        if self.is_marked(from) {
            return Some(from);
        }
        if from >= self.bytes.len() {
            return None;
        }
        match memchr(SET, later_bytes(self.bytes.as_slice(), from)) {
            Some(behind) => Some(from + behind),
            None => None,
        }
    }

    /// The last marked place before this one.
    pub fn last_before(&self, to: usize) -> Option<usize>
        ensures { IsLastMark self.now to result }
    {
        if self.is_marked_before(to) {
            return Some(to - 1);
        }
        memrchr(SET, first_bytes(self.bytes.as_slice(), to))
    }
}

fn byte_of(is_marked: bool) -> u8
    ensures { is_set result ≡ is_marked }
{
    if is_marked { SET } else { UNSET }
}

/// The bytes from a place on.
fn later_bytes(bytes: &[u8], from: usize) -> &[u8]
    requires { from ≤ length bytes.now }
    ensures { result.now ≡ drop from bytes.now }
{
    &bytes[from..]
}

/// The first bytes, so many or all.
fn first_bytes(bytes: &[u8], count: usize) -> &[u8]
    ensures { result.now ≡ take count bytes.now }
{
    if count < bytes.len() {
        &bytes[..count]
    } else {
        bytes
    }
}
