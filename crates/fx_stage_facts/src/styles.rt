//! What the style of each node in a scene hangs on.
ghost use Rattle.std.specs.Prelude.{◌≡◌, ◌≤◌, ◌+◌, ◌++◌, ◌∷◌, [], IsTrue, OnOk, Some, false, length, option_to_list, slice_get};
ghost use Rattle.fx_graph_model.specs.Uses.{unknown_in};
ghost use Rattle.fx_graph_model.specs.Unread.{marked};
ghost use Rattle.fx_base.specs.declared.values.Value.TheVariants as value;
ghost use Rattle.fx_kinds.specs.Properties.{properties_of};
ghost use Rattle.fx_stage_types.specs.declared.node_data.NodeData.{NodeData as Data};
ghost use Rattle.fx_stage_facts.specs.Reads.{AreStyledRead, IsRead};
ghost use Rattle.fx_stage_facts.specs.Sheets.{common_sheets as common_of, inline_place};
ghost use Rattle.fx_stage_facts.specs.Styles as spec;

use crate::places::{Asked, Places, Styled};
use crate::refills::{Refill, are_empty, push_all, refill_list};
use crate::sheets::refill_places;
use crate::stands::{Stand, is_same};
use crate::values::refill_text;
use fx_base::{List, Name, NodeKey, Same, Text, Value};
use fx_css_types::Sheet;
use fx_graph_model::Origin;
use fx_kinds::{Class, StyleFacts};
use fx_look::{CodeValue, StyleName};
use fx_stage::Stage;
use fx_stage_graph::Graph;
use fx_stage_types::NodeData;
use fx_store::Store;
use std::alloc::{AllocError, Global};
use std::mem::replace;

fn is_among(keys: &[NodeKey], key: NodeKey) -> bool
    ensures { result ≡ spec.is_among keys.now key }
{
    keys.iter().any(|other| is_same(*other, key))
}

fn is_focus(focus: Option<NodeKey>, key: NodeKey) -> bool
    ensures { result ≡ spec.is_focus focus key }
{
    match focus {
        None => false,
        Some(focus) => is_same(focus, key),
    }
}

/// Puts the name behind the others, if it is so.
fn push_if(alloc: Global, names: &mut Refill<Text>, so: bool, name: &str) -> Result<(), AllocError>
    ensures { OnOk result (names.new ≡ names.old ++ spec.named_if so name.now) }
{
    if !so {
        return Ok(());
    }
    match Text::from_str(alloc, name) {
        Ok(name) => names.push(name),
        Err(_) => Err(AllocError),
    }
}

/// Is the node under no pointer, without the focus, not pressed and not disabled?
#[inline]
fn is_calm(graph: &Graph, stand: &Stand) -> bool
    ensures { IsTrue result → (node : Data) → spec.pseudos_of graph.now stand.now node ≡ node.pseudos }
{
    let key = stand.key;
    !(stand.disabled
        || is_focus(graph.focus(), key)
        || is_among(graph.hover(), key)
        || is_among(graph.pressed(), key))
}

/// Makes these names the pseudo-classes of a node. Most nodes have none.
fn refill_pseudos(
    alloc: Global,
    kept: &mut List<Text>,
    graph: &Graph,
    stand: &Stand,
    node: &NodeData,
) -> Result<(), AllocError>
    ensures { OnOk result (kept.new ≡ spec.pseudos_of graph.now stand.now node.now) }
{
    if are_empty(kept.as_slice(), node.pseudos.as_slice()) && is_calm(graph, stand) {
        return Ok(());
    }
    let mut names = Refill::over(replace(kept, List::new(alloc)));
    push_all(alloc, &mut names, node.pseudos.as_slice())?;
    let key = stand.key;
    push_if(alloc, &mut names, is_among(graph.hover(), key), "hover")?;
    push_if(alloc, &mut names, is_focus(graph.focus(), key), "focused")?;
    push_if(alloc, &mut names, is_among(graph.pressed(), key), "pressed")?;
    push_if(alloc, &mut names, stand.disabled, "disabled")?;
    *kept = names.finish();
    Ok(())
}

/// Does this value by code stand at the place?
#[inline]
fn stands_at(
    codes: &[CodeValue],
    place: usize,
    style: StyleName,
    value: &Value,
    bound: bool,
) -> bool
    ensures { IsTrue result → slice_get codes.now place
        ≡ Some (record { style = style; value = value.now; bound = bound }) }
{
    match codes.get(place) {
        None => false,
        Some(other) => other.style == style && other.bound == bound && other.value.is_same(value),
    }
}

/// Makes the value by code this number. Only the number is written where it was one before.
#[inline]
fn put_number(code: &mut CodeValue, style: StyleName, number: i64, bound: bool)
    ensures { code.new ≡ record { style = style; value = value.Int number; bound = bound } }
{
    code.style = style;
    code.bound = bound;
    match &mut code.value {
        Value::Int(old) => *old = number,
        other => *other = Value::Int(number),
    }
}

/// Puts a number by code behind the others. It takes no memory where an old value stands there.
#[inline]
fn push_number(
    codes: &mut Refill<CodeValue>,
    style: StyleName,
    number: i64,
    bound: bool,
) -> Result<(), AllocError>
    ensures { OnOk result (codes.new
        ≡ codes.old ++ record { style = style; value = value.Int number; bound = bound } ∷ []) }
{
    let place = codes.count;
    if place == codes.items.len() {
        let value = Value::Int(number);
        return codes.push(CodeValue {
            style,
            value,
            bound,
        });
    }
    put_number(&mut codes.items[place], style, number, bound);
    codes.count += 1;
    Ok(())
}

/// Puts a value by code behind the others, unless the old one that stands there is the same.
#[tactic(auto, using(crate::proofs::RefillLemmas::one_more))]
fn push_value(
    alloc: Global,
    codes: &mut Refill<CodeValue>,
    style: StyleName,
    value: &Value,
    bound: bool,
) -> Result<(), AllocError>
    ensures { OnOk result (codes.new
        ≡ codes.old ++ record { style = style; value = value.now; bound = bound } ∷ []) }
{
    if stands_at(codes.items.as_slice(), codes.count, style, value, bound) {
        codes.count += 1;
        return Ok(());
    }
    let value = value.copy(alloc)?;
    codes.push(CodeValue {
        style,
        value,
        bound,
    })
}

/// Puts the value by code of a property that a declaration styles behind the others. Most properties have none.
#[inline]
fn push_code(
    alloc: Global,
    store: &Store,
    codes: &mut Refill<CodeValue>,
    name: Name,
    style: StyleName,
) -> Result<(), AllocError>
    requires known { unknown_in store.now.entries name.0 ≡ false }
    requires read { marked store.now.unread name.0 ≡ false }
    ensures { OnOk result (codes.new
        ≡ codes.old ++ option_to_list (spec.code_of store.now.entries name.0 (Some style.0))) }
{
    let bound = match store.origin(name) {
        None => return Ok(()),
        Some(Origin::Initial) => return Ok(()),
        Some(Origin::Code) => false,
        Some(Origin::Bound) => true,
    };
    match store.value(name) {
        None => Ok(()),
        Some(Value::Int(number)) => push_number(codes, style, *number, bound),
        Some(value) => push_value(alloc, codes, style, value, bound),
    }
}

/// Puts the values by code of these properties behind the others, where the first property of all has this number.
fn push_codes(
    alloc: Global,
    store: &Store,
    codes: &mut Refill<CodeValue>,
    first: u32,
    styled: &[Styled],
) -> Result<(), AllocError>
    requires { AreStyledRead store.now first styled.now }
    ensures { OnOk result (codes.new ≡ codes.old ++ spec.styled_codes store.now.entries first styled.now) }
{
    for row in styled {
        push_code(alloc, store, codes, Name(first + row.place), row.style)?;
    }
    Ok(())
}

/// Makes these values those by code of a node's properties.
fn refill_codes(
    alloc: Global,
    kept: &mut List<CodeValue>,
    store: &Store,
    places: &Places,
    node: &NodeData,
) -> Result<(), AllocError>
    requires class { places.now ≡ node.now.class }
    requires read { IsRead store.now node.now }
    ensures { OnOk result (kept.new
        ≡ spec.codes_from store.now.entries node.now.first (properties_of node.now.class)) }
{
    let mut codes = Refill::over(replace(kept, List::new(alloc)));
    push_codes(alloc, store, &mut codes, node.first, places.styled())?;
    *kept = codes.finish();
    Ok(())
}

fn inline_place(place: usize, inline: &Option<Sheet>) -> Option<usize>
    ensures { result ≡ inline_place place inline.now }
{
    match inline {
        None => None,
        Some(_) => Some(place),
    }
}

/// A node that has nothing.
pub(crate) fn bare_style(alloc: Global, stand: Stand) -> StyleFacts
    ensures { result ≡ spec.bare_style stand }
{
    StyleFacts {
        key: stand.key,
        parent: stand.parent,
        class: Class::Region,
        id: Text::new(alloc),
        classes: List::new(alloc),
        pseudos: List::new(alloc),
        inline: None,
        sheets: List::new(alloc),
        codes: List::new(alloc),
    }
}

/// Where the sheets of a node stand: so many count for every node, and its own begin at a place, with so many sheets in
/// all by now.
#[derive(Clone, Copy)]
pub struct Spot {
    pub common: usize,
    pub start: usize,
    pub end: usize,
}

/// Makes these facts those of a node that has something.
pub(crate) fn refill_style(
    alloc: Global,
    facts: &mut StyleFacts,
    stage: &Stage,
    places: &Places,
    spot: Spot,
    stand: &Stand,
    node: &NodeData,
) -> Result<(), AllocError>
    requires class { places.now ≡ node.now.class }
    requires read { IsRead stage.now.store node.now }
    requires room { spot.start + length node.now.sheets ≤ spot.end }
    requires common { spot.common ≡ length (common_of stage.now.graph) }
    ensures { OnOk result (facts.new ≡ spec.style_in stage.now spot.start stand.now (Some node.now)) }
{
    let end = spot.start + node.sheets.as_slice().len();
    facts.key = stand.key;
    facts.parent = stand.parent;
    facts.class = node.class;
    facts.inline = inline_place(end, &node.inline);
    refill_text(alloc, &mut facts.id, stage, places, node, Asked::Id)?;
    refill_list(alloc, &mut facts.classes, &node.classes)?;
    refill_pseudos(alloc, &mut facts.pseudos, stage.graph(), stand, node)?;
    refill_places(
        alloc,
        &mut facts.sheets,
        spot.common,
        stand.parent,
        spot.start,
        end,
    )?;
    refill_codes(alloc, &mut facts.codes, stage.store(), places, node)?;
    Ok(())
}
