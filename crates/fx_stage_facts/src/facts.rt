//! All that a frame takes from a stage.
ghost use Rattle.std.specs.Prelude.{◌≡◌, ◌≤◌, ◌+◌, [], IfOk, None, OnErr, OnOk, length, take, true};
ghost use Rattle.fx_stage_model.specs.Taking.{IsReadSome};
ghost use Rattle.fx_tree.specs.Scene.{is_once};
ghost use Rattle.fx_stage_facts.specs.Attached.{attached_keys, look_cost, looked};
ghost use Rattle.fx_stage_facts.specs.Drafts.{ReachTo};
ghost use Rattle.fx_stage_facts.specs.Reads.{AreRead};
ghost use Rattle.fx_stage_facts.specs.Sheets.{common_sheets};
ghost use Rattle.fx_stage_facts.specs.Scenes as spec;

use crate::attached::{attached, unread_names};
use crate::drafts::{Draft, Standing, push_node};
use crate::places::Places;
use fx_base::{Ledgers, List, NodeKey, Work};
use fx_css_types::SheetAt;
use fx_kinds::{BoxFacts, StyleFacts};
use fx_stage::Stage;
use std::alloc::{AllocError, Global};
use std::mem::replace;

/// What a frame is made of: all style sheets, the facts of the nodes in the scene, in pre-order, whether each of them
/// is disabled itself, and the window if there is one, as width and height in pixels.
#[derive(Drop)]
pub struct Facts {
    pub sheets: List<SheetAt>,
    pub styles: List<StyleFacts>,
    pub boxes: List<BoxFacts>,
    pub disabled: List<bool>,
    pub window: Option<(u32, u32)>,
}

impl Facts {
    /// No sheet, no node and no window.
    pub fn new(alloc: Global) -> Facts
        ensures { result ≡ record { sheets = []; styles = []; boxes = []; disabled = []; window = None } }
    {
        Facts {
            sheets: List::new(alloc),
            styles: List::new(alloc),
            boxes: List::new(alloc),
            disabled: List::new(alloc),
            window: None,
        }
    }
}

/// The facts that these lists make.
fn finished(stage: &Stage, standing: Standing, draft: Draft) -> Facts
    ensures { result ≡ record {
      sheets = draft.sheets;
      styles = draft.styles;
      boxes = draft.boxes;
      disabled = standing.marks.items;
      window = stage.now.window;
    } }
{
    let Draft {
        sheets,
        styles,
        boxes,
    } = draft;
    let Standing { marks, .. } = standing;
    Facts {
        sheets: sheets.finish(),
        styles: styles.finish(),
        boxes: boxes.finish(),
        disabled: List::from_vec(marks),
        window: stage.window(),
    }
}

/// Puts the nodes from this place on behind the others, up to one of which something is unread that a frame reads, and
/// answers where that one stands. If it is sure that nothing is, that isn't looked at.
fn fill(
    alloc: Global,
    stage: &Stage,
    keys: &[NodeKey],
    from: usize,
    places: &mut Places,
    common: usize,
    standing: &mut Standing,
    draft: &mut Draft,
    sure: bool,
) -> Result<usize, AllocError>
    requires reach { ReachTo stage.now keys.now from standing.old draft.old }
    requires sure { sure ≡ true → AreRead stage.now keys.now }
    requires once { is_once keys.now ≡ true }
    requires common { common ≡ length (common_sheets stage.now.graph) }
    ensures reach { IfOk result (λ place. ReachTo stage.now keys.now place standing.new draft.new) }
    ensures sure { sure ≡ true → IfOk result (λ place. place ≡ length keys.now) }
{
    for place in from..keys.len() {
        let put = push_node(
            alloc,
            stage,
            places,
            common,
            standing,
            draft,
            keys[place],
            sure,
        )?;
        if !put {
            return Ok(place);
        }
    }
    Ok(keys.len())
}

/// Reads what a frame reads of the nodes in the scene, whose keys these are, where nothing is unread of a node before
/// this place.
fn look<L: Ledgers>(
    alloc: Global,
    stage: &mut Stage,
    places: &mut Places,
    keys: &[NodeKey],
    from: usize,
    work: &mut Work<L>,
) -> Result<(), AllocError>
    requires keys { keys.now ≡ attached_keys stage.old }
    requires within { from ≤ length keys.now }
    requires read { AreRead stage.old (take from keys.now) }
    ensures ok { OnOk result (stage.new ≡ looked stage.old) }
    ensures read { OnOk result (AreRead stage.new keys.now) }
    ensures part { IsReadSome stage.old stage.new }
    ensures cost { work.new.evaluated ≤ work.old.evaluated + look_cost stage.old }
    ensures others { work.new ≡ record work.old { evaluated = work.new.evaluated } }
{
    stage.laws();
    stage.store().laws();
    let names = unread_names(alloc, stage.graph(), stage.store(), places, keys, from)?;
    stage.read_all(alloc, names.as_slice(), work)
}

/// Reads what a frame reads of the nodes in the scene, whose keys these are, and lists their facts in the memory of old
/// ones. Nodes in front of the first of which something is unread are looked at once.
fn facts_at<L: Ledgers>(
    alloc: Global,
    stage: &mut Stage,
    keys: &[NodeKey],
    old: Facts,
    work: &mut Work<L>,
) -> Result<Facts, AllocError>
    requires keys { keys.now ≡ attached_keys stage.old }
    requires once { is_once keys.now ≡ true }
    ensures facts { IfOk result (λ facts. facts ≡ spec.facts_of stage.old) }
    ensures ok { OnOk result (stage.new ≡ looked stage.old) }
    ensures part { IsReadSome stage.old stage.new }
    ensures cost { work.new.evaluated ≤ work.old.evaluated + look_cost stage.old }
    ensures others { work.new ≡ record work.old { evaluated = work.new.evaluated } }
{
    let Facts {
        sheets,
        styles,
        boxes,
        disabled,
        ..
    } = old;
    let mut standing = Standing::over(alloc, disabled, keys.len())?;
    let mut draft = Draft::over(alloc, stage.graph(), sheets, styles, boxes, keys.len())?;
    let common = draft.sheets.len();
    let mut places = Places::new(alloc)?;
    let place = fill(
        alloc,
        stage,
        keys,
        0,
        &mut places,
        common,
        &mut standing,
        &mut draft,
        false,
    )?;
    look(alloc, stage, &mut places, keys, place, work)?;
    fill(
        alloc,
        stage,
        keys,
        place,
        &mut places,
        common,
        &mut standing,
        &mut draft,
        true,
    )?;
    Ok(finished(stage, standing, draft))
}

/// Reads the properties of all nodes in the scene, but their sizes, and makes these facts the ones that a frame is made
/// of. What they held before doesn't matter: only their memory serves again. After want of memory they may hold
/// anything.
pub fn refresh_facts<L: Ledgers>(
    alloc: Global,
    stage: &mut Stage,
    facts: &mut Facts,
    work: &mut Work<L>,
) -> Result<(), AllocError>
    ensures facts { OnOk result (facts.new ≡ spec.facts_of stage.old) }
    ensures ok { OnOk result (stage.new ≡ looked stage.old) }
    ensures err { OnErr result (IsReadSome stage.old stage.new) }
    ensures cost { work.new.evaluated ≤ work.old.evaluated + look_cost stage.old }
    ensures others { work.new ≡ record work.old { evaluated = work.new.evaluated } }
{
    let keys = attached(alloc, stage.graph().tree())?;
    let old = replace(facts, Facts::new(alloc));
    *facts = facts_at(alloc, stage, keys.as_slice(), old, work)?;
    Ok(())
}

/// Reads the properties of all nodes in the scene, but their sizes, and lists what a frame is made of. All lists are
/// made anew.
pub fn read_facts<L: Ledgers>(
    alloc: Global,
    stage: &mut Stage,
    work: &mut Work<L>,
) -> Result<Facts, AllocError>
    ensures facts { IfOk result (λ facts. facts ≡ spec.facts_of stage.old) }
    ensures ok { OnOk result (stage.new ≡ looked stage.old) }
    ensures err { OnErr result (IsReadSome stage.old stage.new) }
    ensures cost { work.new.evaluated ≤ work.old.evaluated + look_cost stage.old }
    ensures others { work.new ≡ record work.old { evaluated = work.new.evaluated } }
{
    let mut facts = Facts::new(alloc);
    refresh_facts(alloc, stage, &mut facts, work)?;
    Ok(facts)
}
