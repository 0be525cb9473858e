//! The lists of a frame's facts while they are made, one node after another, so that each node is looked up once.
ghost use Rattle.std.specs.Prelude.{◌≡◌, ◌≤◌, ◌+◌, ◌++◌, ◌∷◌, [], IfOk, IsTrue, None, OnOk, Some, length, true};
ghost use Rattle.fx_stage_types.specs.Tables.{data_of};
ghost use Rattle.fx_stage_facts.specs.Boxes.{box_at, box_in};
ghost use Rattle.fx_stage_facts.specs.Drafts.{IsPut};
ghost use Rattle.fx_stage_facts.specs.Reads.{IsRead, IsReadAt};
ghost use Rattle.fx_stage_facts.specs.Sheets.{common_sheets as common_of, sheets_at};
ghost use Rattle.fx_stage_facts.specs.Stands.{AreOnce, stand_of as next_stand};
ghost use Rattle.fx_stage_facts.specs.Styles.{style_at, style_in};
ghost use Rattle.fx_stage_facts.specs.Values.{is_set_disabled};

use crate::attached::is_read;
use crate::boxes::{bare_box, refill_box};
use crate::places::{Asked, Places};
use crate::refills::Refill;
use crate::sheets::{common_sheets, push_own};
use crate::stands::{Stand, stand_of};
use crate::styles::{Spot, bare_style, refill_style};
use crate::values::truth_in;
use fx_base::{List, NodeKey};
use fx_css_types::SheetAt;
use fx_kinds::{BoxFacts, StyleFacts};
use fx_stage::Stage;
use fx_stage_graph::Graph;
use fx_stage_types::NodeData;
use std::alloc::{AllocError, Global};

/// The facts of the nodes so far, and all sheets, each list over an older one.
#[derive(Drop)]
pub struct Draft {
    pub sheets: Refill<SheetAt>,
    pub styles: Refill<StyleFacts>,
    pub boxes: Refill<BoxFacts>,
}

/// Where the nodes so far stand, and which of them are disabled themselves.
#[derive(Drop)]
pub struct Standing {
    pub stands: Vec<Stand>,
    pub marks: Vec<bool>,
}

impl Draft {
    /// No facts, over these lists and with room for the facts of so many nodes, and the sheets that count for every
    /// node.
    pub(crate) fn over(
        alloc: Global,
        graph: &Graph,
        sheets: List<SheetAt>,
        styles: List<StyleFacts>,
        boxes: List<BoxFacts>,
        count: usize,
    ) -> Result<Draft, AllocError>
        ensures sheets { IfOk result (λ draft. draft.sheets ≡ common_of graph.now) }
        ensures styles { IfOk result (λ draft. draft.styles ≡ []) }
        ensures boxes { IfOk result (λ draft. draft.boxes ≡ []) }
    {
        let sheets = common_sheets(alloc, graph, sheets)?;
        let styles = Refill::with_room(styles, count)?;
        let boxes = Refill::with_room(boxes, count)?;
        Ok(Draft {
            sheets,
            styles,
            boxes,
        })
    }
}

impl Standing {
    /// No nodes, and room for so many. The marks stand in the memory of old ones.
    pub(crate) fn over(
        alloc: Global,
        disabled: List<bool>,
        count: usize,
    ) -> Result<Standing, AllocError>
        ensures stands { IfOk result (λ standing. standing.stands.items ≡ []) }
        ensures marks { IfOk result (λ standing. standing.marks.items ≡ []) }
    {
        let stands = Vec::with_capacity(alloc, count)?;
        let mut marks = disabled.into_vec();
        marks.clear();
        Ok(Standing { stands, marks })
    }
}

/// Puts the style's facts of a node that has something behind the others.
fn put_style(
    alloc: Global,
    styles: &mut Refill<StyleFacts>,
    stage: &Stage,
    places: &Places,
    spot: Spot,
    stand: &Stand,
    node: &NodeData,
) -> Result<(), AllocError>
    requires class { places.now ≡ node.now.class }
    requires read { IsRead stage.now.store node.now }
    requires room { spot.start + length node.now.sheets ≤ spot.end }
    requires common { spot.common ≡ length (common_of stage.now.graph) }
    ensures { OnOk result (styles.new ≡ styles.old ++ style_in stage.now spot.start stand.now (Some node.now) ∷ []) }
{
    if styles.count == styles.items.len() {
        let mut facts = bare_style(alloc, *stand);
        refill_style(alloc, &mut facts, stage, places, spot, stand, node)?;
        return styles.push(facts);
    }
    let place = styles.count;
    let facts = &mut styles.items[place];
    refill_style(alloc, facts, stage, places, spot, stand, node)?;
    styles.count += 1;
    Ok(())
}

/// Puts the box's facts of a node that has something behind the others.
fn put_box(
    alloc: Global,
    boxes: &mut Refill<BoxFacts>,
    stage: &Stage,
    places: &Places,
    stand: &Stand,
    node: &NodeData,
) -> Result<(), AllocError>
    requires class { places.now ≡ node.now.class }
    requires read { IsRead stage.now.store node.now }
    ensures { OnOk result (boxes.new ≡ boxes.old ++ box_in stage.now.store.entries stand.now (Some node.now) ∷ []) }
{
    if boxes.count == boxes.items.len() {
        let mut facts = bare_box(alloc, *stand);
        refill_box(alloc, &mut facts, stage, places, stand, node)?;
        return boxes.push(facts);
    }
    let place = boxes.count;
    let facts = &mut boxes.items[place];
    refill_box(alloc, facts, stage, places, stand, node)?;
    boxes.count += 1;
    Ok(())
}

/// Puts a node that has nothing behind the others.
fn push_bare(
    alloc: Global,
    stage: &Stage,
    standing: &mut Standing,
    draft: &mut Draft,
    key: NodeKey,
) -> Result<(), AllocError>
    requires here { data_of stage.now.graph.table key ≡ None }
    requires once { AreOnce standing.old.stands.items }
    ensures stands { OnOk result (standing.new.stands.items
        ≡ standing.old.stands.items ++ next_stand stage.now standing.old.stands.items key ∷ []) }
    ensures marks { OnOk result (standing.new.marks.items
        ≡ standing.old.marks.items ++ is_set_disabled stage.now key ∷ []) }
    ensures sheets { OnOk result (draft.new.sheets ≡ draft.old.sheets
        ++ sheets_at stage.now.graph (next_stand stage.now standing.old.stands.items key)) }
    ensures styles { OnOk result (draft.new.styles ≡ draft.old.styles
        ++ style_at stage.now (length draft.old.sheets)
        (next_stand stage.now standing.old.stands.items key) ∷ []) }
    ensures boxes { OnOk result (draft.new.boxes ≡ draft.old.boxes
        ++ box_at stage.now (next_stand stage.now standing.old.stands.items key) ∷ []) }
    ensures read { OnOk result (IsReadAt stage.now key) }
{
    let stand = stand_of(stage, standing.stands.as_slice(), key, false);
    standing.stands.push(stand)?;
    standing.marks.push(false)?;
    draft.styles.push(bare_style(alloc, stand))?;
    draft.boxes.push(bare_box(alloc, stand))?;
    Ok(())
}

/// Puts the facts of a node that has something behind the others. So many sheets count for every node.
fn push_facts(
    alloc: Global,
    stage: &Stage,
    places: &Places,
    common: usize,
    draft: &mut Draft,
    stand: &Stand,
    node: &NodeData,
) -> Result<(), AllocError>
    requires class { places.now ≡ node.now.class }
    requires read { IsRead stage.now.store node.now }
    requires here { data_of stage.now.graph.table stand.now.key ≡ Some node.now }
    requires common { common ≡ length (common_of stage.now.graph) }
    ensures sheets { OnOk result (draft.new.sheets ≡ draft.old.sheets ++ sheets_at stage.now.graph stand.now) }
    ensures styles { OnOk result (draft.new.styles
        ≡ draft.old.styles ++ style_at stage.now (length draft.old.sheets) stand.now ∷ []) }
    ensures boxes { OnOk result (draft.new.boxes ≡ draft.old.boxes ++ box_at stage.now stand.now ∷ []) }
{
    let start = draft.sheets.len();
    push_own(
        alloc,
        &mut draft.sheets,
        stage.graph().tree(),
        stand.key,
        node,
    )?;
    let end = draft.sheets.len();
    let spot = Spot { common, start, end };
    put_style(alloc, &mut draft.styles, stage, places, spot, stand, node)?;
    put_box(alloc, &mut draft.boxes, stage, places, stand, node)?;
    Ok(())
}

/// Puts a node that has something behind the others.
fn push_present(
    alloc: Global,
    stage: &Stage,
    places: &Places,
    common: usize,
    standing: &mut Standing,
    draft: &mut Draft,
    key: NodeKey,
    node: &NodeData,
) -> Result<(), AllocError>
    requires class { places.now ≡ node.now.class }
    requires read { IsRead stage.now.store node.now }
    requires here { data_of stage.now.graph.table key ≡ Some node.now }
    requires once { AreOnce standing.old.stands.items }
    requires common { common ≡ length (common_of stage.now.graph) }
    ensures stands { OnOk result (standing.new.stands.items
        ≡ standing.old.stands.items ++ next_stand stage.now standing.old.stands.items key ∷ []) }
    ensures marks { OnOk result (standing.new.marks.items
        ≡ standing.old.marks.items ++ is_set_disabled stage.now key ∷ []) }
    ensures sheets { OnOk result (draft.new.sheets ≡ draft.old.sheets
        ++ sheets_at stage.now.graph (next_stand stage.now standing.old.stands.items key)) }
    ensures styles { OnOk result (draft.new.styles ≡ draft.old.styles
        ++ style_at stage.now (length draft.old.sheets)
        (next_stand stage.now standing.old.stands.items key) ∷ []) }
    ensures boxes { OnOk result (draft.new.boxes ≡ draft.old.boxes
        ++ box_at stage.now (next_stand stage.now standing.old.stands.items key) ∷ []) }
    ensures read { OnOk result (IsReadAt stage.now key) }
{
    let own = truth_in(stage, places, node, Asked::Disable);
    let stand = stand_of(stage, standing.stands.as_slice(), key, own);
    standing.stands.push(stand)?;
    standing.marks.push(own)?;
    push_facts(alloc, stage, places, common, draft, &stand, node)
}

/// Is nothing of the node unread that a frame reads? If that is sure, it isn't looked at.
#[inline]
fn is_ready(stage: &Stage, places: &Places, key: NodeKey, node: &NodeData, sure: bool) -> bool
    requires class { places.now ≡ node.now.class }
    requires here { data_of stage.now.graph.table key ≡ Some node.now }
    requires sure { sure ≡ true → IsReadAt stage.now key }
    ensures read { IsTrue result → IsRead stage.now.store node.now }
    ensures sure { sure ≡ true → result ≡ true }
{
    stage.laws();
    if sure {
        return true;
    }
    is_read(stage.store(), places, node)
}

/// Puts a node behind the others, unless something of it is unread that a frame reads, and answers whether it is put.
/// If it is sure that nothing is, that isn't looked at.
pub(crate) fn push_node(
    alloc: Global,
    stage: &Stage,
    places: &mut Places,
    common: usize,
    standing: &mut Standing,
    draft: &mut Draft,
    key: NodeKey,
    sure: bool,
) -> Result<bool, AllocError>
    requires sure { sure ≡ true → IsReadAt stage.now key }
    requires once { AreOnce standing.old.stands.items }
    requires common { common ≡ length (common_of stage.now.graph) }
    ensures put { IfOk result (λ put. IsPut put stage.now key standing.old standing.new draft.old draft.new) }
    ensures sure { sure ≡ true → IfOk result (λ put. put ≡ true) }
{
    match stage.graph().node(key) {
        None => {
            push_bare(alloc, stage, standing, draft, key)?;
            Ok(true)
        }
        Some(node) => {
            places.turn_to(alloc, node.class)?;
            if !is_ready(stage, places, key, node, sure) {
                return Ok(false);
            }
            push_present(alloc, stage, places, common, standing, draft, key, node)?;
            Ok(true)
        }
    }
}
