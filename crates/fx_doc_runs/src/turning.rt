//! Modes in place: one put in the place of another, and what one holds taken out of it.
//! A mode is let go here alone: what each of them holds makes letting one go dear to prove.
ghost use Rattle.std.specs.Prelude.{◌≡◌};
ghost use Rattle.fx_doc_runs.specs.declared.modes.Head.{Head};
ghost use Rattle.fx_doc_runs.specs.declared.modes.Valued.{Valued};
ghost use Rattle.fx_doc_runs.specs.declared.modes.Mode.TheVariants as kind;

use crate::modes::{Head, Mode, Valued};
use std::mem;

impl Mode {
    /// Goes on as that mode.
    pub(crate) fn turn(&mut self, next: Mode)
        ensures { self.new ≡ next }
    {
        *self = next;
    }

    /// Takes out the tag that more may stand right behind; a text goes on in its place.
    pub(crate) fn take_tight(&mut self) -> Head
        requires { (tag : Head) × (self.old ≡ kind.Tight tag) }
        ensures tag { self.old ≡ kind.Tight result }
        ensures inside { self.new ≡ kind.Inside }
    {
        let Mode::Tight(head) = mem::replace(self, Mode::Inside) else {
            unreachable!()
        };
        head
    }

    /// Takes out the tag in which white stands; a text goes on in its place.
    pub(crate) fn take_spaced(&mut self) -> Head
        requires { (tag : Head) × (self.old ≡ kind.Spaced tag) }
        ensures tag { self.old ≡ kind.Spaced result }
        ensures inside { self.new ≡ kind.Inside }
    {
        let Mode::Spaced(head) = mem::replace(self, Mode::Inside) else {
            unreachable!()
        };
        head
    }

    /// Takes out the value that is being read; a text goes on in its place.
    pub(crate) fn take_valued(&mut self) -> Valued
        requires { (value : Valued) × (self.old ≡ kind.Quoted value) }
        ensures value { self.old ≡ kind.Quoted result }
        ensures inside { self.new ≡ kind.Inside }
    {
        let Mode::Quoted(valued) = mem::replace(self, Mode::Inside) else {
            unreachable!()
        };
        valued
    }
}
