//! The scene graph itself, and what changes one part of it alone.
ghost use Rattle.std.specs.Prelude.{◌≡◌, ◌++◌, ◌∷◌, [], None, OnErr, OnOk};
ghost use Rattle.std.specs.Option.{option_copied, option_map};
ghost use Rattle.fx_base.specs.Answers.{IsAnswer};
ghost use Rattle.fx_stage_types.specs.Edits.{edited};
ghost use Rattle.fx_stage_types.specs.Tables.{data_of, node_at};
ghost use Rattle.fx_stage_types.specs.declared.answers.StageError.TheVariants.{Memory};
ghost use Rattle.fx_stage_model.specs.Graphs as spec;
ghost use Rattle.fx_stage_graph.specs.Pointing.{pointed};

use crate::pointing::Pointing;
use fx_base::{NodeKey, Text};
use fx_css_types::Sheet;
use fx_events::{EventKind, Handlers, Phase};
use fx_stage_tables::{NodeTable, Paths};
use fx_stage_types::{NodeData, NodeEdit, StageError};
use fx_tree::Tree;
use std::alloc::{AllocError, Global};
use std::marker::Model;

/// The scene graph. Contracts see its parts.
#[derive(Drop)]
pub struct Graph {
    pub(crate) tree: Tree,
    pub(crate) nodes: NodeTable,
    pub(crate) handlers: Handlers,
    pub(crate) paths: Paths,
    pub(crate) sheets: Vec<Sheet>,
    pub(crate) hover: Vec<NodeKey>,
    pub(crate) pressed: Vec<NodeKey>,
    pub(crate) target: Option<NodeKey>,
    pub(crate) focus: Option<NodeKey>,
}

impl Model for Graph {
    ghost use Rattle.std.specs.FinMap as map_of;
    ghost use Rattle.std.specs.Coded.{codes, coded_list};
    ghost use Rattle.fx_base.specs.contracts.keys.NodeKey.{the_row as key_row};
    ghost use Rattle.fx_events.specs.Keyed.{key_cmp};
    ghost use Rattle.fx_events.specs.contracts.registrations.Registration.{the_row as registration_row};
    ghost use Rattle.fx_stage_types.specs.contracts.node_data.NodeData.{the_row as node_row};
    ghost use Rattle.fx_stage_model.specs.Graphs.{Graph};

    ghost Value = { Graph };

    ghost coded = { Prim.hlevel (
      codes,
      map_of.code {R = key_cmp} key_row.coded (coded_list registration_row.coded),
      map_of.code {R = key_cmp} key_row.coded node_row.coded,
    ) };

    ghost use Rattle.fx_stage_model.specs.Graphs.{graph_of};

    ghost view = { λ g. graph_of g.tree g.nodes.map g.handlers g.paths.list g.sheets.items g.hover.items
        g.pressed.items g.target g.focus };
}

impl Graph {
    /// Nothing is built.
    pub fn new(alloc: Global) -> Graph
        ensures { result ≡ spec.bare }
    {
        Graph {
            tree: Tree::new(alloc),
            nodes: NodeTable::new(alloc),
            handlers: Handlers::new(alloc),
            paths: Paths::new(alloc),
            sheets: Vec::new(alloc),
            hover: Vec::new(alloc),
            pressed: Vec::new(alloc),
            target: None,
            focus: None,
        }
    }

    /// The node of this path.
    pub fn find(&self, path: &[Text]) -> Option<NodeKey>
        ensures { result ≡ node_at self.now.paths path.now }
    {
        self.paths.find(path)
    }

    /// What the node has of its own.
    pub fn node(&self, key: NodeKey) -> Option<&NodeData>
        ensures { option_copied result ≡ data_of self.now.table key }
    {
        self.nodes.get(key)
    }

    /// Lends the tree.
    pub fn tree(&self) -> &Tree
        ensures { result.now ≡ self.now.tree }
    {
        &self.tree
    }

    /// Lends the handlers.
    pub fn handlers(&self) -> &Handlers
        ensures { result.now ≡ self.now.handlers }
    {
        &self.handlers
    }

    /// The scene's own style sheets, in their order.
    pub fn sheets(&self) -> &[Sheet]
        ensures { result.now ≡ self.now.sheets }
    {
        self.sheets.as_slice()
    }

    /// The nodes that the pointer is over, from the outermost.
    pub fn hover(&self) -> &[NodeKey]
        ensures { result.now ≡ self.now.hover }
    {
        self.hover.as_slice()
    }

    /// The nodes that the button holds, from the outermost.
    pub fn pressed(&self) -> &[NodeKey]
        ensures { result.now ≡ self.now.pressed }
    {
        self.pressed.as_slice()
    }

    /// The node that was pressed, while the button is down.
    pub fn target(&self) -> Option<NodeKey>
        ensures { result ≡ self.now.target }
    {
        self.target
    }

    /// The node that has the focus.
    pub fn focus(&self) -> Option<NodeKey>
        ensures { result ≡ self.now.focus }
    {
        self.focus
    }

    /// Puts the pointer, the button and the focus on these nodes.
    pub fn point(&mut self, pointing: Pointing)
        ensures { self.new ≡ pointed pointing self.old }
    {
        self.hover = pointing.hover;
        self.pressed = pointing.pressed;
        self.target = pointing.target;
        self.focus = pointing.focus;
    }

    /// The node is known by this path, too.
    pub fn add_path(&mut self, path: Vec<Text>, key: NodeKey) -> Result<(), AllocError>
        requires { node_at self.old.paths path.items ≡ None }
        ensures ok { OnOk result (self.new ≡ spec.with_path path.items key self.old) }
        ensures err { OnErr result (self.new ≡ self.old) }
    {
        self.paths.add(path, key)
    }

    /// Makes one change of what the node has of its own.
    pub fn edit(&mut self, alloc: Global, key: NodeKey, edit: NodeEdit) -> Result<(), AllocError>
        ensures ok { OnOk result (self.new ≡ spec.edited_at key edit self.old) }
        ensures err { OnErr result (self.new ≡ self.old) }
    {
        self.nodes.edit(alloc, key, edit)
    }

    /// The scene has one more style sheet, behind the others.
    pub fn add_sheet(&mut self, sheet: Sheet) -> Result<(), AllocError>
        ensures ok { OnOk result (self.new ≡ spec.with_sheet sheet self.old) }
        ensures err { OnErr result (self.new ≡ self.old) }
    {
        self.sheets.push(sheet)?;
        Ok(())
    }

    /// Registers an action at the node.
    pub fn add_handler(
        &mut self,
        alloc: Global,
        key: NodeKey,
        on: EventKind,
        phase: Phase,
        action: Text,
    ) -> Result<(), StageError>
        ensures answer { IsAnswer Memory (spec.handler_refusal key (spec.registration on phase action) self.old)
            result }
        ensures ok { OnOk result (self.new ≡ spec.with_handler key (spec.registration on phase action) self.old) }
        ensures err { OnErr result (self.new ≡ self.old) }
    {
        self.handlers.add(alloc, key, on, phase, action)?;
        Ok(())
    }
}
