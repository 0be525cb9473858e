//! What a frame gives back to the stage: the window, and the sizes of nodes.
ghost use Rattle.std.specs.Prelude.{◌≡◌, ◌≤◌, ◌+◌, ◌++◌, ◌∷◌, [], IfOk, OnOk, Some, false};
ghost use Rattle.fx_graph_model.specs.Sound.{AreSound};
ghost use Rattle.fx_stage_model.specs.Sound.{IsSound};
ghost use Rattle.fx_stage_types.specs.Tables.{data_of};
ghost use Rattle.fx_stage_types.specs.declared.node_data.NodeData.{NodeData as Data};
ghost use Rattle.fx_base.specs.declared.keys.NodeKey.{NodeKey as Key};
ghost use Rattle.fx_stage_facts.specs.Places.{name_of};
ghost use Rattle.fx_stage_facts.specs.Publishing as spec;
ghost use Rattle.fx_stage_facts.specs.Resting.{IsStill};
ghost use Rattle.fx_stage_facts.specs.Staying.{differing};

use crate::places::{Asked, Places};
use crate::values::name_in;
use fx_base::{Kind, Ledgers, List, Name, NodeKey, Value, Work};
use fx_stage::Stage;
use fx_stage_types::{NodeData, Outcome};
use fx_store::Store;
use fx_store_model::Notices;
use std::alloc::{AllocError, Global};

/// What a publication told, and whether a size was another than before. Where none was, the next frame of the same
/// window publishes nothing either.
#[derive(Drop)]
pub struct Published {
    pub notices: Notices,
    pub is_new: bool,
}

fn is_number(kind: Option<Kind>) -> bool
    ensures { result ≡ spec.is_number kind }
{
    match kind {
        Some(Kind::Int) => true,
        _ => false,
    }
}

/// Is the property a number that only the player writes?
fn is_size(store: &Store, name: Name) -> bool
    ensures { result ≡ spec.is_size store.now.entries name.0 }
{
    store.is_read_only(name) && is_number(store.kind(name))
}

/// Puts the property behind the others, with this length, if it is a number that only the player writes, unless it has
/// the length already. Since most have it, that is looked at first.
fn push_if_new(
    pairs: &mut Vec<(Name, Value)>,
    store: &Store,
    name: Name,
    length: i64,
) -> Result<(), AllocError>
    ensures { OnOk result (pairs.new.items ≡ pairs.old.items
        ++ differing store.now (spec.pair_if store.now.entries length name.0)) }
{
    let value = Value::Int(length);
    if store.has_own_value(name, &value) {
        return Ok(());
    }
    if !is_size(store, name) {
        return Ok(());
    }
    pairs.push((name, value))?;
    Ok(())
}

/// Puts the node's property behind the others, with this length, unless it has it already.
fn push_pair(
    pairs: &mut Vec<(Name, Value)>,
    store: &Store,
    places: &Places,
    node: &NodeData,
    asked: Asked,
    length: i64,
) -> Result<(), AllocError>
    requires class { places.now ≡ node.now.class }
    requires low { node.now.first ≤ 4000000 }
    ensures { OnOk result (pairs.new.items ≡ pairs.old.items
        ++ differing store.now (spec.pair_of store.now.entries node.now (name_of asked) length)) }
{
    match name_in(places, node, asked) {
        None => Ok(()),
        Some(name) => push_if_new(pairs, store, name, length),
    }
}

/// Puts those of the two that differ behind the others.
fn push_both(
    pairs: &mut Vec<(Name, Value)>,
    store: &Store,
    places: &Places,
    node: &NodeData,
    width: i64,
    height: i64,
) -> Result<(), AllocError>
    requires class { places.now ≡ node.now.class }
    requires low { node.now.first ≤ 4000000 }
    ensures { OnOk result (pairs.new.items ≡ pairs.old.items
        ++ differing store.now (spec.pairs_in store.now.entries width height (Some node.now))) }
{
    push_pair(pairs, store, places, node, Asked::Width, width)?;
    push_pair(pairs, store, places, node, Asked::Height, height)
}

/// Puts those of a node's two properties that differ behind the others.
fn push_size(
    alloc: Global,
    pairs: &mut Vec<(Name, Value)>,
    stage: &Stage,
    places: &mut Places,
    size: &(NodeKey, i64, i64),
) -> Result<(), AllocError>
    requires low { (node : Data) → data_of stage.now.graph.table size.now.0 ≡ Some node → node.first ≤ 4000000 }
    ensures { OnOk result (pairs.new.items
        ≡ pairs.old.items ++ differing stage.now.store (spec.pairs_at stage.now size.now)) }
{
    let (key, width, height) = *size;
    match stage.graph().node(key) {
        None => Ok(()),
        Some(node) => {
            places.turn_to(alloc, node.class)?;
            push_both(pairs, stage.store(), places, node, width, height)
        }
    }
}

/// The two properties of each of these nodes, with their values, but for those that have them already.
fn pairs_of(
    alloc: Global,
    stage: &Stage,
    sizes: &[(NodeKey, i64, i64)],
) -> Result<Vec<(Name, Value)>, AllocError>
    requires low { (key : Key) (node : Data) → data_of stage.now.graph.table key ≡ Some node → node.first ≤ 4000000 }
    ensures { IfOk result (λ pairs. pairs.items
        ≡ differing stage.now.store (spec.pairs_of stage.now sizes.now)) }
{
    let mut places = Places::new(alloc)?;
    let mut pairs = Vec::with_capacity(alloc, sizes.len().saturating_mul(2))?;
    for size in sizes {
        push_size(alloc, &mut pairs, stage, &mut places, size)?;
    }
    Ok(pairs)
}

/// What is true of every stage and of its store.
fn laws_of(stage: &Stage)
    ensures stage { IsSound stage.now.store.entries stage.now.graph.table stage.now.names.free }
    ensures store { AreSound stage.now.store.entries }
{
    stage.laws();
    stage.store().laws();
}

/// Ends a frame: the window has this width and this height from now on, and the nodes have these widths and heights,
/// in pixels, published in one change. A width or height that stays costs a comparison.
pub fn publish<L: Ledgers>(
    alloc: Global,
    stage: &mut Stage,
    window: (u32, u32),
    sizes: &[(NodeKey, i64, i64)],
    work: &mut Work<L>,
) -> Result<Published, AllocError>
    requires { spec.AreOnce sizes.now }
    ensures published { spec.IsPublished window sizes.now stage.old stage.new result }
    ensures still { IfOk result (λ made. made.is_new ≡ false → IsStill window sizes.now stage.old stage.new) }
    ensures few { OnOk result (work.new.evaluated
        ≤ work.old.evaluated + (spec.sized sizes.now stage.old).cost) }
    ensures others { work.new ≡ record work.old { evaluated = work.new.evaluated } }
{
    laws_of(stage);
    let pairs = pairs_of(alloc, stage, sizes)?;
    let is_new = !pairs.is_empty();
    match stage.publish(alloc, List::from_vec(pairs), work) {
        Ok(outcome) => {
            let Outcome { notices, .. } = outcome;
            stage.keep_window(window);
            Ok(Published { notices, is_new })
        }
        Err(_) => Err(AllocError),
    }
}
