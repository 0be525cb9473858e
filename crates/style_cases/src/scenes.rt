//! Sheets, nodes and what is kept of them, and what a line makes of them.
ghost use Rattle.std.specs.Prelude.{◌≡◌, IfOk, None};
ghost use Rattle.fx_select.specs.Chains.{ParentsStandBefore};
ghost use Rattle.fx_style.specs.Kept.{AreDifferent};
ghost use Rattle.fx_style.specs.Rules.{AreIndexed, HaveRows};
ghost use Rattle.fx_css_types.specs.Limits.{AreWithinLimits, IsWithinLimits};

use crate::looks::push_looks;
use crate::matching::{push_matched, push_matching};
use crate::reading::{read_node, read_places};
use anyhow::bail;
use fx_base::{Ledgers, Work};
use fx_css::{agent_sheet, read_inline, read_sheet};
use fx_css_types::{SheetAt, SheetOrigin};
use fx_kinds::StyleFacts;
use fx_select::RuleIndex;
use fx_style::{Scene, Styles};
use fx_style_checks::can_be_styled;
use std::alloc::Global;
use std::marker::Model;

/// The sheets and nodes of a scene, and the styles that are kept of it.
#[derive(Drop)]
pub struct Scenery {
    sheets: Vec<SheetAt>,
    facts: Vec<StyleFacts>,
    styles: Styles,
}

impl Model for Scenery {
    ghost use Rattle.fx_css_types.specs.Limits.{AreWithinLimits};

    ghost Value = { Unit {0} };

    ghost view = { λ s. tt };

    ghost invariant = { λ s. AreWithinLimits s.sheets.items };
}

impl Scenery {
    /// Nothing.
    pub fn new(alloc: Global) -> Scenery {
        Scenery {
            sheets: Vec::new(alloc),
            facts: Vec::new(alloc),
            styles: Styles::new(alloc),
        }
    }

    /// Writes what is printed of a line.
    pub fn carry_out<L: Ledgers>(
        &mut self,
        alloc: Global,
        line: &str,
        out: &mut String,
        work: &mut Work<L>,
    ) -> anyhow::Result<()> {
        let (word, rest) = line.split_once(' ').unwrap_or((line, ""));
        match word {
            "update" => self.update(alloc, rest, out, work),
            "matches" => push_matching(alloc, out, rest, self.facts.as_slice()),
            "rules" => push_matched(alloc, out, self.sheets.as_slice(), self.facts.as_slice()),
            _ => self.change(alloc, word, rest),
        }
    }

    fn change(&mut self, alloc: Global, word: &str, rest: &str) -> anyhow::Result<()> {
        match word {
            "case" => self.forget(alloc),
            "sheets" => self.sheets.clear(),
            "nodes" => self.facts.clear(),
            "node" => self.facts.push(read_node(alloc, rest)?)?,
            _ => list(alloc, &mut self.sheets, word, rest)?,
        }
        Ok(())
    }

    fn forget(&mut self, alloc: Global) {
        self.sheets.clear();
        self.facts.clear();
        self.styles = Styles::new(alloc);
    }

    /// Styles the nodes of these places, and writes the looks of all.
    fn update<L: Ledgers>(
        &mut self,
        alloc: Global,
        places: &str,
        out: &mut String,
        work: &mut Work<L>,
    ) -> anyhow::Result<()> {
        let mut restyle = Vec::new(alloc);
        read_places(places, &mut restyle)?;
        self.restyle(alloc, restyle.as_slice(), work)?;
        push_looks(out, &self.styles)
    }

    fn restyle<L: Ledgers>(
        &mut self,
        alloc: Global,
        restyle: &[usize],
        work: &mut Work<L>,
    ) -> anyhow::Result<()> {
        let lists = Lists {
            sheets: self.sheets.as_slice(),
            facts: self.facts.as_slice(),
        };
        update(alloc, lists, &mut self.styles, restyle, work)
    }
}

/// The sheets and nodes of a scene.
#[derive(Clone, Copy)]
struct Lists<'a> {
    sheets: &'a [SheetAt],
    facts: &'a [StyleFacts],
}

fn update<L: Ledgers>(
    alloc: Global,
    lists: Lists<'_>,
    styles: &mut Styles,
    restyle: &[usize],
    work: &mut Work<L>,
) -> anyhow::Result<()>
    requires { AreWithinLimits lists.sheets.now }
{
    if !can_be_styled(lists.facts) {
        bail!("the nodes aren't those of a scene");
    }
    let index = RuleIndex::build(alloc, lists.sheets)?;
    styles.update(alloc, scene_of(&index, lists), restyle, work)?;
    Ok(())
}

/// The scene of these lists, of which no styles are kept by other facts.
fn scene_of<'a>(index: &'a RuleIndex, lists: Lists<'a>) -> Scene<'a>
    ensures index { result.index.now ≡ index.now }
    ensures lists { (result.sheets.now ≡ lists.entry.sheets.now) × (result.facts.now ≡ lists.entry.facts.now) }
    ensures last { result.last ≡ None }
{
    Scene {
        index,
        sheets: lists.sheets,
        facts: lists.facts,
        last: None,
    }
}

/// Puts the sheet that a line lists behind the others.
fn list(alloc: Global, sheets: &mut Vec<SheetAt>, word: &str, rest: &str) -> anyhow::Result<()>
    requires { AreWithinLimits sheets.old.items }
    ensures { AreWithinLimits sheets.new.items }
{
    let sheet = sheet(alloc, word, rest)?;
    sheets.push(sheet)?;
    Ok(())
}

/// The sheet that a line lists.
fn sheet(alloc: Global, word: &str, rest: &str) -> anyhow::Result<SheetAt>
    ensures { IfOk result (λ sheet. IsWithinLimits sheet.sheet) }
{
    if rest.len() > 4194304 {
        bail!("the sheet is too long");
    }
    if word == "style" {
        return Ok(SheetAt {
            sheet: read_inline(alloc, rest)?,
            origin: SheetOrigin::Inline,
        });
    }
    let (whose, text) = rest.split_once(' ').unwrap_or((rest, ""));
    match whose {
        "agent" => Ok(SheetAt {
            sheet: agent_sheet(alloc)?,
            origin: SheetOrigin::Agent,
        }),
        "scene" => scene_sheet(alloc, text, SheetOrigin::Scene),
        "parent" => parent_sheet(alloc, text),
        _ => bail!("no such sheet"),
    }
}

fn parent_sheet(alloc: Global, rest: &str) -> anyhow::Result<SheetAt>
    ensures { IfOk result (λ sheet. IsWithinLimits sheet.sheet) }
{
    let (depth, text) = rest.split_once(' ').unwrap_or((rest, ""));
    scene_sheet(alloc, text, SheetOrigin::Parent(depth.parse::<u32>()?))
}

fn scene_sheet(alloc: Global, text: &str, origin: SheetOrigin) -> anyhow::Result<SheetAt>
    ensures { IfOk result (λ sheet. IsWithinLimits sheet.sheet) }
{
    if text.len() > 4194304 {
        bail!("the sheet is too long");
    }
    Ok(SheetAt {
        sheet: read_sheet(alloc, text.as_bytes(), 0)?,
        origin,
    })
}
