//! Steps on what the reader holds: a sign more in a run, an element that opens or ends.
//! Each is a function of the machine in `fx_doc_grammar`, on the reader's own values, in place.
ghost use Rattle.std.specs.Prelude.{◌≡◌, true, nat_lt, OnOk, IsErrOf};
ghost use Rattle.fx_doc_grammar.specs.Grammar.{fresh_level, one_sign, one_child, closed, first_shown};
ghost use Rattle.fx_doc_grammar.specs.Characters.{class_of};
ghost use Rattle.fx_doc_grammar.specs.Machine as machine;
ghost use Rattle.fx_doc_runs.specs.Views as views;

use crate::document::{Content, Element};
use crate::modes::{Head, Held, Level, Mode, Open, Reader};
use fx_base::{List, Position};
use fx_doc_drafts::{Draft, Halt};
use fx_doc_grammar::Class;
use std::alloc::{AllocError, Global};
use std::mem;

/// The reader goes on in this mode.
pub fn goes(held: &Held, mode: Mode) -> Result<Option<Mode>, Halt>
    ensures { views.Moves (machine.at (views.held_view held.now)
        (views.mode_view (views.stack_view held.now.stack.items) mode)) held.now result }
{
    let _held = held;
    Ok(Some(mode))
}

/// The greatest number of elements that may be open where one begins.
const DEPTH_LIMIT: usize = 128;

impl Level {
    pub fn new(alloc: Global) -> Level
        ensures { views.level_view result ≡ fresh_level }
    {
        Level {
            content: Vec::new(alloc),
            run: Draft::new(alloc),
            first: None,
        }
    }

    /// Appends a character, which is written at that position, to the run.
    pub fn add_sign(&mut self, position: Position, c: char) -> Result<(), Halt>
        ensures sign { OnOk result (views.level_view self.new ≡ one_sign position c (views.level_view self.old)) }
        ensures refused { IsErrOf result Halt.Long → self.old.run.count ≡ 4096 }
    {
        self.run.push(c)?;
        self.first = shown_first(self.first, position, c);
        Ok(())
    }

    /// Puts the run behind the content, unless it is blank, and begins another.
    pub fn end_run(&mut self, alloc: Global) -> Result<(), AllocError>
        ensures { OnOk result (views.level_view self.new ≡ views.level_behind (closed (views.level_view self.old))) }
    {
        match self.first {
            None => {
                self.run.clear();
                Ok(())
            }
            Some(position) => self.keep_run(alloc, position),
        }
    }

    fn keep_run(&mut self, alloc: Global, position: Position) -> Result<(), AllocError>
        requires { self.old.first ≡ Some position }
        ensures { OnOk result (views.level_view self.new ≡ views.level_behind (closed (views.level_view self.old))) }
    {
        let run = mem::replace(&mut self.run, Draft::new(alloc));
        self.first = None;
        self.content
            .push(Content::Chars(run.into_text(), position))?;
        Ok(())
    }

    /// Puts an element behind the run.
    pub fn add_child(
        &mut self,
        alloc: Global,
        head: Head,
        inner: Vec<Content>,
    ) -> Result<(), AllocError>
        ensures { OnOk result (views.level_view self.new
            ≡ one_child (views.level_view self.old) (views.head_view head) (views.nodes_of inner.items)) }
    {
        self.end_run(alloc)?;
        let Head {
            name,
            attributes,
            position,
            later: _,
        } = head;
        let element = Element {
            name,
            attributes: List::from_vec(attributes),
            content: inner,
            position,
        };
        self.content.push(Content::Child(element))?;
        Ok(())
    }
}

fn shown_first(first: Option<Position>, position: Position, c: char) -> Option<Position>
    ensures { result ≡ first_shown first position (class_of c) }
{
    match (first, Class::of(c)) {
        (Some(position), _) => Some(position),
        (None, Class::White) => None,
        (None, _) => Some(position),
    }
}

impl Held {
    /// Is an element open?
    pub fn is_within(&self) -> bool
        ensures { result ≡ machine.is_open (views.stack_view self.now.stack.items) }
    {
        !self.stack.is_empty()
    }

    /// Are fewer elements open than may be where one begins?
    pub fn has_depth(&self) -> bool
        ensures { result ≡ nat_lt (machine.stack_depth (views.stack_view self.now.stack.items)) 128 }
    {
        self.stack.len() < DEPTH_LIMIT
    }

    /// Is this the name of the innermost open element?
    pub fn is_open_name(&self, name: &str) -> bool
        ensures { result ≡ true → views.open_name (views.stack_view self.now.stack.items) ≡ name.now }
    {
        let Some(open) = self.stack.last() else {
            return false;
        };
        open.head.name.equals(name)
    }

    /// May an element begin here: within another, or as the first?
    pub fn may_begin(&self) -> bool
        ensures { result ≡ machine.may_begin (views.held_view self.now) }
    {
        self.is_within() || self.level.content.is_empty()
    }

    /// Appends a character to the run at hand; white outside the elements is not kept.
    pub fn add_sign(&mut self, position: Position, c: char) -> Result<(), Halt>
        ensures sign { OnOk result (views.held_view self.new
            ≡ machine.with_sign position c (views.held_view self.old)) }
        ensures refused { IsErrOf result Halt.Long
            → machine.level_long (machine.with_sign position c (views.held_view self.old)) ≡ true }
    {
        if !self.is_within() {
            return Ok(());
        }
        self.level.add_sign(position, c)
    }

    /// Adds an element that has no content.
    pub fn add_leaf(&mut self, alloc: Global, head: Head) -> Result<(), AllocError>
        ensures { OnOk result (views.held_view self.new
            ≡ machine.with_leaf (views.held_view self.old) (views.head_view head)) }
    {
        self.level.add_child(alloc, head, Vec::new(alloc))
    }

    /// An element begins with this tag.
    pub fn open(&mut self, alloc: Global, head: Head) -> Result<(), AllocError>
        ensures { OnOk result (views.held_view self.new
            ≡ machine.open_element (views.held_view self.old) (views.head_view head)) }
    {
        let before = mem::replace(&mut self.level, Level::new(alloc));
        self.stack.push(Open { before, head })?;
        Ok(())
    }

    /// The innermost element ends.
    pub fn close(&mut self, alloc: Global) -> Result<Option<Mode>, Halt>
        ensures { views.Moves (machine.close (views.held_view self.old)) self.new result }
    {
        let Some(open) = self.stack.pop() else {
            return Ok(None);
        };
        let Open { before, head } = open;
        let mut inside = mem::replace(&mut self.level, before);
        inside.end_run(alloc)?;
        let Level {
            content,
            run: _,
            first: _,
        } = inside;
        self.level.add_child(alloc, head, content)?;
        goes(self, Mode::Inside)
    }
}

impl Reader {
    /// The reader before a text.
    pub fn new(alloc: Global) -> Reader
        ensures { views.view result ≡ machine.initial }
    {
        let held = Held {
            imports: Vec::new(alloc),
            stack: Vec::new(alloc),
            level: Level::new(alloc),
        };
        Reader {
            held,
            mode: Mode::Inside,
        }
    }
}
