//! Where nodes stand in the tree.
ghost use Rattle.std.specs.Prelude.{◌≡◌, ◌≤◌, OnErr, OnOk, codes, length, unwrap_or};
ghost use Rattle.std.specs.Option.{option_copied, option_map};
ghost use Rattle.fx_base.specs.Answers.{IsAnswer};
ghost use Rattle.fx_stage_types.specs.Words.{of_tree};
ghost use Rattle.fx_stage_types.specs.declared.answers.StageError.TheVariants.{Memory};
ghost use Rattle.fx_stage_model.specs.Graphs as spec;
ghost use Rattle.fx_tree.specs.Refusals.{detach_refusal, root_refusal};
ghost use Rattle.fx_tree.specs.Scene.{children_or_none, is_alive};

use crate::graph::Graph;
use crate::pointing::{keep_outside, leave};
use fx_base::{NodeKey, Text};
use fx_kinds::{Class, takes_children};
use fx_stage_tables::NodeTable;
use fx_stage_types::{NodeData, NodeEdit, Spot, StageError};
use std::alloc::{AllocError, Global};

impl Graph {
    /// Puts the child into the pane's list, at the spot.
    #[tactic(auto, unfolding(fx_stage_model::specs::Graphs::attached, fx_stage_model::specs::Graphs::child_refusal))]
    pub fn attach(
        &mut self,
        alloc: Global,
        pane: NodeKey,
        child: NodeKey,
        spot: Spot,
    ) -> Result<(), StageError>
        ensures answer { IsAnswer Memory (option_map of_tree (spec.child_refusal pane child spot self.old)) result }
        ensures ok { OnOk result (self.new ≡ spec.attached pane child spot self.old) }
        ensures err { OnErr result (self.new ≡ self.old) }
    {
        let place = self.place_of(pane, spot);
        self.tree.attach(alloc, pane, child, place)?;
        self.nodes.set_edge(child, edge_at(spot));
        Ok(())
    }

    /// Takes the node from its parent, and it and all below it out of what the pointer, the button and the focus are
    /// on.
    #[tactic(auto, unfolding(fx_stage_model::specs::Graphs::detached))]
    pub fn detach(&mut self, alloc: Global, key: NodeKey) -> Result<(), StageError>
        ensures answer { IsAnswer Memory (option_map of_tree (detach_refusal self.old.tree key)) result }
        ensures ok { OnOk result (self.new ≡ spec.detached key self.old) }
        ensures err { OnErr result (self.new ≡ self.old) }
    {
        let gone = match self.tree.subtree(alloc, key) {
            Ok(gone) => gone,
            Err(error) => return Err(StageError::from(error)),
        };
        self.tree.detach(alloc, key)?;
        self.nodes.set_edge(key, None);
        leave(&mut self.hover, gone.as_slice());
        leave(&mut self.pressed, gone.as_slice());
        self.target = keep_outside(gone.as_slice(), self.target);
        self.focus = keep_outside(gone.as_slice(), self.focus);
        Ok(())
    }

    fn place_of(&self, pane: NodeKey, spot: Spot) -> usize
        ensures { result ≡ spec.place_of self.now pane spot }
    {
        let children = match self.tree.children(pane) {
            Some(children) => children,
            None => &[],
        };
        if !has_spot(&self.nodes, self.nodes.get(pane), children, spot) {
            return children.len() + 1;
        }
        match spot {
            Spot::At(place) => place,
            Spot::On(_) => children.len(),
        }
    }
}

/// Whether a pane with these children has the spot for one more.
fn has_spot(nodes: &NodeTable, pane: Option<&NodeData>, children: &[NodeKey], spot: Spot) -> bool
    ensures { result ≡ spec.has_spot nodes.now.map (option_copied pane.entry) children.now spot }
{
    match spot {
        Spot::At(_) => takes_places(pane),
        Spot::On(edge) => is_border(pane) && !is_taken(nodes, edge, children),
    }
}

fn takes_places(pane: Option<&NodeData>) -> bool
    ensures { result ≡ spec.takes_places (option_copied pane.entry) }
{
    match pane {
        None => false,
        Some(node) => takes_children(node.class) && !is_border(pane),
    }
}

fn is_border(pane: Option<&NodeData>) -> bool
    ensures { result ≡ spec.is_border (option_copied pane.entry) }
{
    match pane {
        None => false,
        Some(node) => is_border_class(node.class),
    }
}

fn is_border_class(class: Class) -> bool
    ensures { result ≡ spec.is_border_class class }
{
    match class {
        Class::BorderPane => true,
        _ => false,
    }
}

/// Whether one of these nodes stands on the edge.
fn is_taken(nodes: &NodeTable, edge: u8, keys: &[NodeKey]) -> bool
    ensures { result ≡ spec.is_taken nodes.now.map edge keys.now }
{
    keys.iter().any(|key| is_on(edge, nodes.get(*key)))
}

fn is_on(edge: u8, node: Option<&NodeData>) -> bool
    ensures { result ≡ spec.is_on edge (spec.edge_of (option_copied node.entry)) }
{
    match node {
        None => false,
        Some(node) => is_edge(edge, node.edge),
    }
}

fn is_edge(edge: u8, other: Option<u8>) -> bool
    ensures { result ≡ spec.is_on edge other }
{
    match other {
        None => false,
        Some(other) => edge == other,
    }
}

fn edge_at(spot: Spot) -> Option<u8>
    ensures { result ≡ spec.edge_at spot }
{
    match spot {
        Spot::At(_) => None,
        Spot::On(edge) => Some(edge),
    }
}
