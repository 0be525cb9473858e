//! The winners of all properties of a node, in one pass over the declarations of the rules that match it.
ghost use Rattle.std.specs.Prelude.{◌≡◌, ◌<◌, ◌≤◌, ◌+◌, ℕ, List, Option as Maybe, Some, None, All, IfOk, OnOk, length, map, slice_get, slice_index_or, slice_set};
ghost use Rattle.std.specs.Option.{option_map};
ghost use Rattle.fx_look.specs.StyleRows.{style_named};
ghost use Rattle.fx_css_types.specs.Limits.{AreWithinLimits, IsKeptDeclaration, row_of};
ghost use Rattle.fx_cascade.specs.Sources.{best_source, code_voice, declarations_of, declared_voices, row_name, rule_at, rule_voices, voice};
ghost use Rattle.fx_cascade.specs.Winners.{hear, heard};
ghost use Rattle.fx_cascade.specs.Ranks.{greater};
ghost use Rattle.fx_cascade.specs.Tables.{AreRows, IsRaised, row_source, source_of};

use crate::one_property::declarations_at;
use crate::others::{NamedSource, place_of, under};
use crate::ranks::greater_of;
use crate::sources::Source;
use fx_base::{Ledgers, Text, Work};
use fx_css_types::{Candidate, Declaration, SheetAt};
use fx_look::{CodeValue, STYLE_COUNT, StyleName};
use std::alloc::{AllocError, Global};
use std::marker::Model;

/// What wins each property of a node: of the rows of the style table by row, where something was heard of it, and of
/// other names by name. Contracts ask it for a name. A table that serves again clears the marks alone.
#[derive(Drop)]
pub struct Winners {
    heard: [bool; STYLE_COUNT],
    rows: [Source; STYLE_COUNT],
    others: Vec<NamedSource>,
}

impl Model for Winners {
    ghost use Rattle.fx_cascade.specs.Tables.{Table, slots};

    ghost Value = { Table };

    ghost view = { λ w. record { rows = slots w.heard w.rows; others = w.others.items } };
}

/// The winners of a node among the code values and the declarations of the rules that match it. Counts one styled node.
/// Takes memory only for names that are no rows of the style table.
pub fn style_node<L: Ledgers>(
    alloc: Global,
    sheets: &[SheetAt],
    matched: &[Candidate],
    codes: &[CodeValue],
    work: &mut Work<L>,
) -> Result<Winners, AllocError>
    requires rows { AreRows codes.now }
    requires sheets { AreWithinLimits sheets.now }
    ensures winners { IfOk result (λ winners. (name : List ℕ)
        → source_of winners name ≡ best_source sheets.now matched.now codes.now name) }
    ensures cost { work.new ≡ record work.old { styled = work.old.styled + 1 } }
{
    let mut winners = Winners::new(alloc);
    winners.find(alloc, sheets, matched, codes, work)?;
    Ok(winners)
}

impl Winners {
    /// Nothing has won.
    pub fn new(alloc: Global) -> Winners
        ensures { (name : List ℕ) → source_of result name ≡ None }
    {
        Winners {
            heard: [false; STYLE_COUNT],
            rows: [Source::Code(false); STYLE_COUNT],
            others: Vec::new(alloc),
        }
    }

    /// Nothing has won any more.
    pub fn clear(&mut self)
        ensures { (name : List ℕ) → source_of self.new name ≡ None }
    {
        self.heard = [false; STYLE_COUNT];
        self.others.clear();
    }

    /// Finds the winners of a node as `style_node` does, in place, where nothing has won.
    pub fn find<L: Ledgers>(
        &mut self,
        alloc: Global,
        sheets: &[SheetAt],
        matched: &[Candidate],
        codes: &[CodeValue],
        work: &mut Work<L>,
    ) -> Result<(), AllocError>
        requires rows { AreRows codes.now }
        requires sheets { AreWithinLimits sheets.now }
        requires none { (name : List ℕ) → source_of self.old name ≡ None }
        ensures winners { OnOk result ((name : List ℕ)
            → source_of self.new name ≡ best_source sheets.now matched.now codes.now name) }
        ensures cost { work.new ≡ record work.old { styled = work.old.styled + 1 } }
    {
        work.styled.tick();
        self.hear_codes(matched, codes);
        self.hear_matched(alloc, sheets, matched)?;
        Ok(())
    }

    /// What wins the row of the style table at this place.
    #[inline]
    pub fn row(&self, row: usize) -> Option<Source>
        requires { row < STYLE_COUNT }
        ensures { (name : List ℕ) → style_named name ≡ Some row → result ≡ source_of self.now name }
    {
        self.slot(row)
    }

    /// What wins the row at this place, where something was heard of it.
    #[inline]
    fn slot(&self, row: usize) -> Option<Source>
        requires { row < STYLE_COUNT }
        ensures { result ≡ row_source self.now.rows row }
    {
        if self.heard[row] {
            Some(self.rows[row])
        } else {
            None
        }
    }

    /// What wins for a name that is no row of the style table.
    pub fn other(&self, name: &Text) -> Option<Source>
        requires { style_named name.now ≡ None }
        ensures { result ≡ source_of self.now name.now }
    {
        let said = name.as_str();
        under(self.others.as_slice(), said)
    }

    /// The winner of the row after one more that speaks.
    #[inline]
    #[tactic(auto, unfolding(crate::specs::Ranks::greater))]
    fn best_of(&self, matched: &[Candidate], row: usize, source: Source) -> Source
        requires { row < STYLE_COUNT }
        ensures { Some result ≡ greater matched.now (row_source self.now.rows row) source }
    {
        match self.slot(row) {
            Some(best) => greater_of(matched, best, source),
            None => source,
        }
    }

    fn hear_row(&mut self, matched: &[Candidate], row: usize, source: Source)
        requires { row < STYLE_COUNT }
        ensures { (said name : List ℕ) → style_named said ≡ Some row
            → source_of self.new name ≡ hear matched.now name (source_of self.old name) (voice said source) }
    {
        let best = self.best_of(matched, row, source);
        self.heard[row] = true;
        self.rows[row] = best;
    }

    fn hear_other(
        &mut self,
        alloc: Global,
        matched: &[Candidate],
        name: &Text,
        source: Source,
    ) -> Result<(), AllocError>
        requires { style_named name.now ≡ None }
        ensures { OnOk result ((other : List ℕ)
            → source_of self.new other ≡ hear matched.now other (source_of self.old other) (voice name.now source)) }
    {
        let said = name.as_str();
        match place_of(self.others.as_slice(), said) {
            Some(place) => {
                raise(matched, self.others.as_mut_slice(), place, source);
                Ok(())
            }
            None => {
                let name = name.copy(alloc)?;
                self.others.push(NamedSource { name, source })?;
                Ok(())
            }
        }
    }
}

/// The greater of what stands at the place and this one.
fn raise(matched: &[Candidate], others: &mut [NamedSource], place: usize, source: Source)
    requires { place < length others.old }
    ensures { IsRaised matched.now others.old others.new place source }
{
    let other = &mut others[place];
    other.source = greater_of(matched, other.source, source);
}

impl Winners {
    fn hear_named(
        &mut self,
        alloc: Global,
        matched: &[Candidate],
        declaration: &Declaration,
        source: Source,
    ) -> Result<(), AllocError>
        requires { declaration.now.row ≡ row_of declaration.now.name }
        ensures { OnOk result ((other : List ℕ) → source_of self.new other
            ≡ hear matched.now other (source_of self.old other) (voice declaration.now.name source)) }
    {
        match declaration.row {
            Some(row) => {
                self.hear_row(matched, row.0 as usize, source);
                Ok(())
            }
            None => self.hear_other(alloc, matched, &declaration.name, source),
        }
    }

    fn hear_code(&mut self, matched: &[Candidate], code: &CodeValue)
        requires { code.now.style.0 < STYLE_COUNT }
        ensures { (name : List ℕ)
            → source_of self.new name ≡ hear matched.now name (source_of self.old name) (code_voice code.now) }
    {
        self.hear_row(matched, code.style.0 as usize, Source::Code(code.bound));
    }

    fn hear_codes(&mut self, matched: &[Candidate], codes: &[CodeValue])
        requires { AreRows codes.now }
        ensures { (name : List ℕ) → source_of self.new name
            ≡ heard matched.now name (source_of self.old name) (map code_voice codes.now) }
    {
        for code in codes {
            self.hear_code(matched, code);
        }
    }

    fn hear_rule(
        &mut self,
        alloc: Global,
        declarations: &[Declaration],
        matched: &[Candidate],
        at: usize,
    ) -> Result<(), AllocError>
        requires { All IsKeptDeclaration declarations.now }
        ensures { OnOk result ((name : List ℕ) → source_of self.new name
            ≡ heard matched.now name (source_of self.old name) (rule_voices at 0 declarations.now)) }
    {
        for (place, declaration) in declarations.iter().enumerate() {
            self.hear_named(alloc, matched, declaration, Source::Declared(at, place))?;
        }
        Ok(())
    }

    fn hear_matched(
        &mut self,
        alloc: Global,
        sheets: &[SheetAt],
        matched: &[Candidate],
    ) -> Result<(), AllocError>
        requires { AreWithinLimits sheets.now }
        ensures { OnOk result ((name : List ℕ) → source_of self.new name
            ≡ heard matched.now name (source_of self.old name) (declared_voices sheets.now 0 matched.now)) }
    {
        for (at, candidate) in matched.iter().enumerate() {
            self.hear_rule(alloc, declarations_at(sheets, candidate), matched, at)?;
        }
        Ok(())
    }
}
