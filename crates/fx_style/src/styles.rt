//! The looks of all nodes, kept from one update to the next.
ghost use Rattle.std.specs.Prelude.{◌≡◌, ◌+◌, ◌<◌, [], ℕ, List, false, true, IfOk, IfSome, OnErr, OnOk, is_some, length, map, slice_get, slice_index_or};
ghost use Rattle.std.specs.Option.{option_copied};
ghost use Rattle.fx_select.specs.Chains.{ParentsStandBefore};
ghost use Rattle.fx_style.specs.Changes.{NamesChanges};
ghost use Rattle.fx_style.specs.Kept.{AreDifferent, HaveDifferentKeys, fresh_at, is_among, put_looks, put_rest};
ghost use Rattle.fx_style.specs.Lasts.{AreStylesOf};
ghost use Rattle.fx_style.specs.Parting.{IsParted};
ghost use Rattle.fx_style.specs.Rewriting.{rewritten_at};
ghost use Rattle.fx_style.specs.Rules.{AreIndexed, HaveRows, IsUpdate, KeepsOthers, kept_of, needs, worked};
ghost use Rattle.fx_style.specs.Turns.{ArePut, AreRightBelow, HaveKeysOf};

use crate::entries::Entries;
use crate::kept::{Fresh, Rest};
use crate::making::{Old, Scene, made};
use crate::marks::marked;
use crate::memory::Memory;
use crate::parting::{Parts, parts_of};
use crate::putting::{blank_looks, blank_rest, changed_places, places_of};
use crate::rewriting::{places_of_all, rewrite};
use fx_base::{Ledgers, Work};
use fx_kinds::StyleFacts;
use fx_look::Look;
use std::alloc::{AllocError, Global};
use std::marker::Model;
use std::mem;

/// The look of each node of the last update in their order, and what updates need of them: their keys and the paints
/// that are looked up on them. Contracts don't see the memory that serves again.
#[derive(Drop)]
pub struct Styles {
    looks: Vec<Look>,
    rest: Vec<Rest>,
    changed: Vec<usize>,
    memory: Memory,
}

impl Model for Styles {
    ghost use Rattle.fx_style.specs.Kept.{Kept, HaveDifferentKeys};

    ghost Value = { Kept };

    ghost view = { λ s. record { looks = s.looks.items; rest = s.rest.items; changed = s.changed.items } };

    ghost invariant = { λ s. HaveDifferentKeys s.rest.items };
}

impl Styles {
    /// Nothing is kept.
    pub fn new(alloc: Global) -> Styles
        ensures { result ≡ record { looks = []; rest = []; changed = [] } }
    {
        Styles {
            looks: Vec::new(alloc),
            rest: Vec::new(alloc),
            changed: Vec::new(alloc),
            memory: Memory::new(alloc),
        }
    }

    /// The looks of the nodes of the last update, in their order.
    pub fn looks(&self) -> &[Look]
        ensures { result.now ≡ self.now.looks }
    {
        self.looks.as_slice()
    }

    /// The places whose looks may be others than before the last update.
    pub fn changed(&self) -> &[usize]
        ensures { result.now ≡ self.now.changed }
    {
        self.changed.as_slice()
    }

    /// Styles the nodes of these places anew, from the root downwards, and those of which nothing is kept; every other
    /// node keeps what it had, whatever the facts and sheets say now. Counts one styled node for each that is styled
    /// anew. Memory is taken before anything that is kept is changed.
    pub fn update<L: Ledgers>(
        &mut self,
        alloc: Global,
        scene: Scene<'_>,
        restyle: &[usize],
        work: &mut Work<L>,
    ) -> Result<(), AllocError>
        requires before { ParentsStandBefore scene.facts.now }
        requires keys { AreDifferent scene.facts.now }
        requires sheets { AreIndexed scene.index.now scene.sheets.now }
        requires codes { HaveRows scene.facts.now }
        requires last { IfSome (option_copied scene.last) (AreStylesOf scene.sheets.now scene.facts.now restyle.now
            self.old.looks self.old.rest) }
        ensures styles { OnOk result
            (IsUpdate scene.entry.sheets.now scene.entry.facts.now restyle.now self.old self.new) }
        ensures changed { OnOk result (KeepsOthers self.old self.new) }
        ensures err { OnErr result (self.new ≡ self.old) }
        ensures cost { OnOk result (work.new ≡ record work.old {
          styled = work.old.styled
              + worked (needs restyle.now (kept_of self.old scene.entry.facts.now)) (length scene.entry.facts.now);
        }) }
    {
        let memory = self.take_memory(alloc);
        self.update_in(alloc, scene, restyle, memory, work)
    }

    /// Takes the memory that serves again.
    fn take_memory(&mut self, alloc: Global) -> Memory
        ensures { self.new ≡ self.old }
    {
        mem::replace(&mut self.memory, Memory::new(alloc))
    }

    /// Updates what is kept, in this memory.
    fn update_in<L: Ledgers>(
        &mut self,
        alloc: Global,
        scene: Scene<'_>,
        restyle: &[usize],
        mut memory: Memory,
        work: &mut Work<L>,
    ) -> Result<(), AllocError>
        requires before { ParentsStandBefore scene.facts.now }
        requires keys { AreDifferent scene.facts.now }
        requires sheets { AreIndexed scene.index.now scene.sheets.now }
        requires codes { HaveRows scene.facts.now }
        requires last { IfSome (option_copied scene.last) (AreStylesOf scene.sheets.now scene.facts.now restyle.now
            self.old.looks self.old.rest) }
        ensures styles { OnOk result
            (IsUpdate scene.entry.sheets.now scene.entry.facts.now restyle.now self.old self.new) }
        ensures changed { OnOk result (KeepsOthers self.old self.new) }
        ensures err { OnErr result (self.new ≡ self.old) }
        ensures cost { OnOk result (work.new ≡ record work.old {
          styled = work.old.styled
              + worked (needs restyle.now (kept_of self.old scene.entry.facts.now)) (length scene.entry.facts.now);
        }) }
    {
        if let Some(parts) = self.parted(alloc, scene, restyle)? {
            return self.update_parts(alloc, scene, &parts, memory, work);
        }
        let stay = self.stays(scene.facts.len());
        let fresh = self.fresh(alloc, scene, stay, restyle, &mut memory, work)?;
        let changed = self.changes(alloc, stay, fresh.as_slice())?;
        self.put(alloc, scene.facts, stay, fresh, changed, memory)
    }

    /// The nodes of an update apart, if what is kept are the styles of other facts, and no node comes, goes or moves.
    fn parted(
        &self,
        alloc: Global,
        scene: Scene<'_>,
        restyle: &[usize],
    ) -> Result<Option<Parts>, AllocError>
        requires before { ParentsStandBefore scene.facts.now }
        requires last { IfSome (option_copied scene.last) (AreStylesOf scene.sheets.now scene.facts.now restyle.now
            self.now.looks self.now.rest) }
        ensures { IfOk result (λ found. IfSome found (λ parts. IsParted scene.entry.sheets.now scene.entry.facts.now
            restyle.now self.now parts.there.items parts.left.items)) }
    {
        if !self.stays(scene.facts.len()) {
            return Ok(None);
        }
        let marks = marked(alloc, restyle, scene.facts.len())?;
        parts_of(alloc, scene, self.rest.as_slice(), marks.as_slice())
    }

    /// Styles the nodes that are left anew, and writes the lengths that bindings give into what is kept of the others
    /// that are listed.
    fn update_parts<L: Ledgers>(
        &mut self,
        alloc: Global,
        scene: Scene<'_>,
        parts: &Parts,
        mut memory: Memory,
        work: &mut Work<L>,
    ) -> Result<(), AllocError>
        requires before { ParentsStandBefore scene.facts.now }
        requires keys { AreDifferent scene.facts.now }
        requires sheets { AreIndexed scene.index.now scene.sheets.now }
        requires codes { HaveRows scene.facts.now }
        requires looks { length self.old.looks ≡ length scene.facts.now }
        requires rest { length self.old.rest ≡ length scene.facts.now }
        requires there { length parts.now.there.items ≡ length scene.facts.now }
        ensures styles { OnOk result ((restyle : List ℕ) → IsParted scene.entry.sheets.now scene.entry.facts.now restyle
            self.old parts.now.there.items parts.now.left.items
            → IsUpdate scene.entry.sheets.now scene.entry.facts.now restyle self.old self.new) }
        ensures changed { OnOk result (KeepsOthers self.old self.new) }
        ensures err { OnErr result (self.new ≡ self.old) }
        ensures cost { OnOk result ((restyle : List ℕ) → IsParted scene.entry.sheets.now scene.entry.facts.now restyle
            self.old parts.now.there.items parts.now.left.items
            → work.new ≡ record work.old {
              styled = work.old.styled
                  + worked (needs restyle (kept_of self.old scene.entry.facts.now)) (length scene.entry.facts.now);
            }) }
    {
        let bare = Scene {
            index: scene.index,
            sheets: scene.sheets,
            facts: scene.facts,
            last: None,
        };
        let fresh = self.fresh(alloc, bare, true, parts.left.as_slice(), &mut memory, work)?;
        let there = parts.there.as_slice();
        let changed = self.changes_of_all(alloc, scene.facts, there, fresh.as_slice())?;
        self.put(alloc, scene.facts, true, fresh, changed, memory)?;
        self.rewrite(scene.facts, there, work);
        Ok(())
    }

    /// The places whose looks may be others once the fresh entries stand there, and the lengths of the marked ones.
    fn changes_of_all(
        &self,
        alloc: Global,
        facts: &[StyleFacts],
        marks: &[bool],
        fresh: &[Fresh],
    ) -> Result<Vec<usize>, AllocError>
        requires looks { length self.now.looks ≡ length facts.now }
        requires marks { length marks.now ≡ length facts.now }
        ensures lengths { IfOk result (λ places. (at : ℕ) → is_among places.items at ≡ false
            → rewritten_at marks.now facts.now self.now.looks at ≡ slice_get self.now.looks at) }
        ensures named { IfOk result (λ places. NamesChanges self.now.looks fresh.now places.items) }
    {
        places_of_all(alloc, self.looks.as_slice(), facts, marks, fresh)
    }

    /// Writes the lengths that bindings give into what is kept of the marked nodes.
    fn rewrite<L: Ledgers>(&mut self, facts: &[StyleFacts], marks: &[bool], work: &mut Work<L>)
        requires looks { length self.old.looks ≡ length facts.now }
        requires marks { length marks.now ≡ length facts.now }
        ensures long { length self.new.looks ≡ length self.old.looks }
        ensures looks { (at : ℕ) → slice_get self.new.looks at ≡ rewritten_at marks.now facts.now self.old.looks at }
        ensures rest { self.new.rest ≡ self.old.rest }
        ensures changed { self.new.changed ≡ self.old.changed }
        ensures cost { work.new ≡ record work.old {
          styled = work.old.styled + worked (λ at. slice_index_or marks.now at false) (length facts.now);
        } }
    {
        rewrite(&mut self.looks, facts, marks, work);
    }

    /// Are there as many entries as nodes now, so that what is kept may stay in its places?
    fn stays(&self, count: usize) -> bool
        ensures { result ≡ true → (length self.now.looks ≡ count) × (length self.now.rest ≡ count) }
    {
        self.looks.len() == count && self.rest.len() == count
    }

    fn fresh<L: Ledgers>(
        &self,
        alloc: Global,
        scene: Scene<'_>,
        stay: bool,
        restyle: &[usize],
        memory: &mut Memory,
        work: &mut Work<L>,
    ) -> Result<Entries, AllocError>
        requires before { ParentsStandBefore scene.facts.now }
        requires sheets { AreIndexed scene.index.now scene.sheets.now }
        requires codes { HaveRows scene.facts.now }
        requires stay { stay ≡ true → (length self.now.looks ≡ length scene.facts.now)
            × (length self.now.rest ≡ length scene.facts.now) }
        requires last { IfSome (option_copied scene.last) (AreStylesOf scene.sheets.now scene.facts.now restyle.now
            self.now.looks self.now.rest) }
        ensures right { IfOk result (λ fresh. AreRightBelow scene.entry.sheets.now scene.entry.facts.now restyle.now
            (kept_of self.now scene.entry.facts.now) self.now.looks self.now.rest fresh
            (length scene.entry.facts.now)) }
        ensures all { IfOk result (λ fresh. stay ≡ false → (at : ℕ) → at < length scene.entry.facts.now
            → is_some (fresh_at fresh at) ≡ true) }
        ensures cost { OnOk result (work.new ≡ record work.old {
          styled = work.old.styled
              + worked (needs restyle.now (kept_of self.now scene.entry.facts.now)) (length scene.entry.facts.now);
        }) }
    {
        let old = Old {
            looks: self.looks.as_slice(),
            rest: self.rest.as_slice(),
            stay,
        };
        made(alloc, scene, old, restyle, memory, work)
    }

    /// The places whose looks may be others once the fresh entries stand there.
    fn changes(&self, alloc: Global, stay: bool, fresh: &[Fresh]) -> Result<Vec<usize>, AllocError>
        ensures named { IfOk result (λ places. stay ≡ true → NamesChanges self.now.looks fresh.now places.items) }
        ensures all { IfOk result (λ places. stay ≡ false → places.items ≡ map (λ f. f.at) fresh.now) }
    {
        if stay {
            changed_places(alloc, self.looks.as_slice(), fresh)
        } else {
            places_of(alloc, fresh)
        }
    }

    /// Puts the fresh entries in their places, of what is kept where that may stay.
    fn put(
        &mut self,
        alloc: Global,
        facts: &[StyleFacts],
        stay: bool,
        fresh: Entries,
        changed: Vec<usize>,
        memory: Memory,
    ) -> Result<(), AllocError>
        requires stay { stay ≡ true → (length self.old.looks ≡ length facts.now)
            × (length self.old.rest ≡ length facts.now) }
        requires keys { AreDifferent facts.now }
        requires all { stay ≡ false → (at : ℕ) → at < length facts.now → is_some (fresh_at fresh at) ≡ true }
        requires right { HaveKeysOf facts.now self.old.looks self.old.rest fresh }
        ensures put { OnOk result (ArePut self.old self.new fresh (length facts.now)) }
        ensures looks { OnOk result (stay ≡ true → self.new.looks ≡ put_looks self.old.looks fresh) }
        ensures changed { OnOk result (self.new.changed ≡ changed.items) }
        ensures err { OnErr result (self.new ≡ self.old) }
    {
        if stay {
            let old = mem::replace(self, Styles::new(alloc));
            let Styles { looks, rest, .. } = old;
            *self = put_in(looks, rest, fresh, changed, memory);
            return Ok(());
        }
        let looks = blank_looks(alloc, facts.len())?;
        let rest = blank_rest(alloc, facts.len())?;
        *self = put_in(looks, rest, fresh, changed, memory);
        Ok(())
    }
}

/// What is kept once fresh entries stand in their places.
fn put_in(
    mut looks: Vec<Look>,
    mut rest: Vec<Rest>,
    mut fresh: Entries,
    changed: Vec<usize>,
    mut memory: Memory,
) -> Styles
    requires keys { HaveDifferentKeys (put_rest rest.items fresh) }
    ensures { result ≡ record {
      looks = put_looks looks.items fresh;
      rest = put_rest rest.items fresh;
      changed = changed.items;
    } }
{
    fresh.put(looks.as_mut_slice(), rest.as_mut_slice());
    memory.gone = fresh;
    Styles {
        looks,
        rest,
        changed,
        memory,
    }
}
