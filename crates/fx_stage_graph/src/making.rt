//! Making nodes, and the root of the scene.
ghost use Rattle.std.specs.Prelude.{◌≡◌, ◌+◌, ◌==◌, ◌||◌, IfOk, None, OnErr, OnOk, Some, if◌then◌else◌, length};
ghost use Rattle.std.specs.FinMap as map_of;
ghost use Rattle.std.specs.Option.{option_map};
ghost use Rattle.fx_base.specs.Answers.{IsAnswer};
ghost use Rattle.fx_stage_model.specs.Graphs as spec;
ghost use Rattle.fx_stage_types.specs.Edits.{born_data};
ghost use Rattle.fx_stage_types.specs.Tables.{node_at};
ghost use Rattle.fx_stage_types.specs.Words.{of_tree};
ghost use Rattle.fx_stage_types.specs.declared.answers.StageError.TheVariants.{Memory, Refused};
ghost use Rattle.fx_stage_types.specs.declared.refusals.Refusal.TheVariants.{Full};
ghost use Rattle.fx_tree.specs.Refusals.{root_refusal};
ghost use Rattle.fx_tree.specs.Scene.{after_make};

use crate::graph::Graph;
use fx_base::{NodeKey, Text};
use fx_kinds::Class;
use fx_stage_tables::NodeTable;
use fx_stage_types::{NodeData, NodeEdit, Refusal, StageError};
use fx_tree::{Tree, TreeError};
use std::alloc::{AllocError, Global};

impl Graph {
    /// Whether no more nodes can be made.
    pub fn is_full(&self) -> bool
        ensures { result ≡ ((length self.now.tree.nodes == 4096) || (self.now.tree.born == 4294967295)) }
    {
        self.tree.is_full()
    }

    /// A further node of the class, its properties numbered from here on.
    pub fn make(&mut self, alloc: Global, class: Class, first: u32) -> Result<NodeKey, StageError>
        ensures answer { IsAnswer Memory (spec.make_refusal self.old) result }
        ensures birth { IfOk result (λ key. key.birth ≡ self.old.tree.born + 1) }
        ensures ok { IfOk result (λ key. self.new ≡ spec.with_born class first key self.old) }
        ensures err { OnErr result (self.new ≡ self.old) }
    {
        make_node(alloc, &mut self.tree, &mut self.nodes, class, first)
    }

    /// A further node of the class, which is known by this path, its properties numbered from here on.
    pub fn make_named(
        &mut self,
        alloc: Global,
        class: Class,
        first: u32,
        path: Vec<Text>,
    ) -> Result<NodeKey, StageError>
        requires new { node_at self.old.paths path.items ≡ None }
        ensures answer { IsAnswer Memory (spec.make_refusal self.old) result }
        ensures birth { IfOk result (λ key. key.birth ≡ self.old.tree.born + 1) }
        ensures ok { IfOk result (λ key. self.new
            ≡ spec.with_path path.items key (spec.with_born class first key self.old)) }
        ensures err { OnErr result (self.new ≡ self.old) }
    {
        if let Err(_) = self.paths.reserve() {
            return Err(StageError::Memory);
        }
        let key = make_node(alloc, &mut self.tree, &mut self.nodes, class, first)?;
        match self.paths.add(path, key) {
            Ok(()) => Ok(key),
            Err(_) => unreachable!(),
        }
    }

    /// Makes the node the root of the scene, which has the style class `root`, too.
    #[tactic(auto, unfolding(fx_stage_model::specs::Graphs::rooted))]
    pub fn set_root(&mut self, alloc: Global, key: NodeKey) -> Result<(), StageError>
        ensures answer { IsAnswer Memory (option_map of_tree (root_refusal self.old.tree key)) result }
        ensures ok { OnOk result (self.new ≡ spec.rooted key self.old) }
        ensures err { OnErr result (self.new ≡ self.old) }
    {
        if let Some(refusal) = root_refusal(&self.tree, key) {
            return Err(StageError::from(refusal));
        }
        let name = root_class(alloc)?;
        self.nodes.edit(alloc, key, NodeEdit::AddClass(name))?;
        match self.tree.set_root(alloc, key) {
            Ok(()) => Ok(()),
            Err(_) => unreachable!(),
        }
    }
}

/// A further node in the tree, and what it has of its own.
fn make_node(
    alloc: Global,
    tree: &mut Tree,
    nodes: &mut NodeTable,
    class: Class,
    first: u32,
) -> Result<NodeKey, StageError>
    ensures answer { IsAnswer Memory
        (if (length tree.old.nodes == 4096) || (tree.old.born == 4294967295) then Some (Refused Full) else None)
        result }
    ensures birth { IfOk result (λ key. key.birth ≡ tree.old.born + 1) }
    ensures tree { IfOk result (λ key. tree.new ≡ after_make tree.old key) }
    ensures nodes { IfOk result (λ key. nodes.new.map ≡ map_of.insert nodes.old.map key (born_data class first)) }
    ensures same_tree { OnErr result (tree.new ≡ tree.old) }
    ensures same_nodes { OnErr result (nodes.new.map ≡ nodes.old.map) }
{
    if tree.is_full() {
        return Err(StageError::Refused(Refusal::Full));
    }
    let node = NodeData::born(alloc, class, first)?;
    nodes.reserve()?;
    match tree.make(alloc) {
        Ok(key) => match nodes.put(key, node) {
            Ok(()) => Ok(key),
            Err(_) => unreachable!(),
        },
        Err(_) => Err(StageError::Memory),
    }
}

/// Why the node can't be the root, if it can't.
#[tactic(auto, unfolding(fx_tree::specs::Refusals::root_refusal))]
fn root_refusal(tree: &Tree, key: NodeKey) -> Option<TreeError>
    ensures { result ≡ root_refusal tree.now key }
{
    if tree.children(key).is_none() {
        return Some(TreeError::StaleKey);
    }
    if tree.parent(key).is_some() {
        return Some(TreeError::HasParent);
    }
    if tree.root().is_some() {
        return Some(TreeError::Attached);
    }
    None
}

fn root_class(alloc: Global) -> Result<Text, AllocError>
    ensures { IfOk result (λ name. name ≡ spec.root_class) }
{
    match Text::from_str(alloc, "root") {
        Ok(name) => Ok(name),
        Err(_) => Err(AllocError),
    }
}
