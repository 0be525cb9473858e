//! The layout of a scene, kept from one update to the next.
ghost use Rattle.std.specs.Prelude.{ℕ, ◌≡◌, ◌≤◌, ◌<◌, ◌+◌, ◌*◌, [], IfOk, OnErr, OnOk, length};
ghost use Rattle.fx_layout_sweeps.specs.Nodes.{AreNodes, children_lists, extent_at, keys, parents};
ghost use Rattle.fx_panes_parts.specs.declared.axes.Axis.TheVariants.{Across, Down};
ghost use Rattle.fx_layout.specs.Keeping.{AreSwept, IsWhole, kept_of};
ghost use Rattle.fx_layout.specs.Updates as spec;

use crate::along::{Along, Moved, Scene, Sweep, lay_again, lay_moved};
use crate::keys::{count_marked, keys_of, marks_of, old_places};
use crate::lengths::{root_length, window_height, window_width};
use crate::rects::{Halves, add_again, changed_of, rects_of};
use crate::spare::{Spare, catch_up, copied_spare};
use crate::trees::{Tree, fresh_tree, tree_in};
use fx_base::{Ledgers, NodeKey, Rect, Work};
use fx_kinds::BoxFacts;
use fx_layout_sweeps::{Marks, extent_at};
use fx_look::Look;
use fx_panes_parts::Axis;
use std::alloc::{AllocError, Global};
use std::marker::Model;
use std::mem;

/// Where each node of the last update stands, and what the next one needs of it: the keys of the nodes, their
/// children, and their lengths and places along both axes, of which there may be a second copy to work in.
#[derive(Drop)]
pub struct Layouts {
    keys: Vec<NodeKey>,
    tree: Tree,
    across: Along,
    down: Along,
    rects: Vec<Rect>,
    spare: Option<Spare>,
}

impl Model for Layouts {
    ghost use Rattle.std.specs.Prelude.{◌≡◌, IfSome};
    ghost use Rattle.fx_layout_sweeps.specs.Nodes.{children_lists};
    ghost use Rattle.fx_panes_parts.specs.declared.axes.Axis.TheVariants.{Across, Down};
    ghost use Rattle.fx_layout.specs.Keeping.{IsWhole};
    ghost use Rattle.fx_layout.specs.Updates.{Kept};

    ghost Value = { Kept };

    ghost view = { λ l. record {
      keys = l.keys.items;
      children = children_lists l.tree;
      widths = l.across.lengths.items;
      heights = l.down.lengths.items;
      across = l.across.spans.items;
      down = l.down.spans.items;
      rects = l.rects.items;
    } };

    ghost invariant = { λ l. IsWhole (record {
      keys = l.keys.items;
      children = children_lists l.tree;
      widths = l.across.lengths.items;
      heights = l.down.lengths.items;
      across = l.across.spans.items;
      down = l.down.spans.items;
      rects = l.rects.items;
    })
        × IfSome l.spare (λ s. (s.across.lengths.items ≡ l.across.lengths.items)
        × (s.across.spans.items ≡ l.across.spans.items)
        × (s.down.lengths.items ≡ l.down.lengths.items)
        × (s.down.spans.items ≡ l.down.spans.items)) };
}

/// What an update tells: the size of the root, marks of the nodes whose rectangle may be another than before, and how
/// many calls of panes it took.
#[derive(Drop)]
pub struct Updated {
    pub size: (u32, u32),
    pub changed: Marks,
    pub laid: usize,
}

/// What the sweeps of an update make, marks of the nodes whose children they placed anew, and how many calls of panes
/// they took.
#[derive(Drop)]
struct Swept {
    across: Along,
    down: Along,
    marks: Marks,
    laid: usize,
}

/// What an update makes anew, beside the keys and the tree.
#[derive(Drop)]
struct Laid {
    across: Along,
    down: Along,
    rects: Vec<Rect>,
}

/// What an update makes anew and what it tells, beside the size of the root.
#[derive(Drop)]
struct Told {
    made: Laid,
    changed: Marks,
    laid: usize,
}

/// What an update is given.
#[derive(Clone, Copy)]
struct Input<'a> {
    nodes: &'a [BoxFacts],
    looks: &'a [Look],
    window: Option<(u32, u32)>,
    remeasure: &'a [usize],
}

impl Layouts {
    /// Nothing is kept.
    pub fn new(alloc: Global) -> Layouts
        ensures { result ≡ record {
          keys = [];
          children = [];
          widths = [];
          heights = [];
          across = [];
          down = [];
          rects = [];
        } }
    {
        Layouts {
            keys: Vec::new(alloc),
            tree: Tree::new(alloc),
            across: Along {
                lengths: Vec::new(alloc),
                spans: Vec::new(alloc),
            },
            down: Along {
                lengths: Vec::new(alloc),
                spans: Vec::new(alloc),
            },
            rects: Vec::new(alloc),
            spare: None,
        }
    }

    /// The rectangle of each node of the last update in the window, in their order, in pixels.
    pub fn rects(&self) -> &[Rect]
        ensures { result.now ≡ self.now.rects }
    {
        self.rects.as_slice()
    }

    /// Lays the nodes out and answers the size of the root. The nodes of `remeasure` are measured and their children
    /// placed anew; every other node keeps what is kept under its key, whatever its facts and look say now, but that
    /// its children are placed anew, and its heights measured, where its size is another than the last. `window` is
    /// the size of the window; without one the root has its preferred size. Each call of a pane counts one laid node.
    pub fn update<L: Ledgers>(
        &mut self,
        alloc: Global,
        nodes: &[BoxFacts],
        looks: &[Look],
        window: Option<(u32, u32)>,
        remeasure: &[usize],
        work: &mut Work<L>,
    ) -> Result<(u32, u32), AllocError>
        requires some { 0 < length nodes.now }
        requires nodes { AreNodes nodes.now }
        requires keys { spec.AreDifferent (keys nodes.now) }
        requires looks { length looks.now ≡ length nodes.now }
        ensures update { OnOk result (spec.IsUpdate self.old nodes.now looks.now window remeasure.now self.new) }
        ensures size { IfOk result (λ size. size ≡ spec.root_size self.new) }
        ensures err { OnErr result (self.new ≡ self.old) }
        ensures others { OnOk result (work.new ≡ record work.old { laid = work.new.laid }) }
        ensures cost { OnOk result (work.new.laid
            ≤ work.old.laid + spec.laid_bound (length remeasure.now) (spec.resized self.old nodes.now self.new)) }
        ensures count { OnOk result (work.new.laid
            ≡ work.old.laid + spec.laid_count self.old nodes.now remeasure.now self.new) }
    {
        let told = self.update_telling(alloc, nodes, looks, window, remeasure, work)?;
        Ok(told.size)
    }

    /// Does what `update` does, and tells also which rectangles may be other ones than before, and how many calls of
    /// panes it took. A node is known by its key; one that wasn't there before is marked.
    pub fn update_telling<L: Ledgers>(
        &mut self,
        alloc: Global,
        nodes: &[BoxFacts],
        looks: &[Look],
        window: Option<(u32, u32)>,
        remeasure: &[usize],
        work: &mut Work<L>,
    ) -> Result<Updated, AllocError>
        requires some { 0 < length nodes.now }
        requires nodes { AreNodes nodes.now }
        requires keys { spec.AreDifferent (keys nodes.now) }
        requires looks { length looks.now ≡ length nodes.now }
        ensures update { OnOk result (spec.IsUpdate self.old nodes.now looks.now window remeasure.now self.new) }
        ensures size { IfOk result (λ told. told.size ≡ spec.root_size self.new) }
        ensures changed { IfOk result (λ told. spec.AreTold self.old nodes.now self.new told.changed) }
        ensures laid { IfOk result (λ told. told.laid ≡ spec.laid_count self.old nodes.now remeasure.now self.new) }
        ensures err { OnErr result (self.new ≡ self.old) }
        ensures others { OnOk result (work.new ≡ record work.old { laid = work.new.laid }) }
        ensures cost { IfOk result (λ told. work.new.laid ≡ work.old.laid + told.laid) }
    {
        let input = Input {
            nodes,
            looks,
            window,
            remeasure,
        };
        if self.tree.is_over(self.keys.as_slice(), nodes) {
            self.update_again(alloc, input, work)
        } else {
            self.update_moved(alloc, input, work)
        }
    }

    /// An update over the nodes of the last one, in their order.
    fn update_again<L: Ledgers>(
        &mut self,
        alloc: Global,
        input: Input<'_>,
        work: &mut Work<L>,
    ) -> Result<Updated, AllocError>
        requires some { 0 < length input.nodes.now }
        requires nodes { AreNodes input.nodes.now }
        requires keys { spec.AreDifferent (keys input.nodes.now) }
        requires looks { length input.looks.now ≡ length input.nodes.now }
        requires same_keys { self.old.keys ≡ keys input.nodes.now }
        requires same_children { self.old.children ≡ children_lists (parents input.nodes.now) }
        ensures update { OnOk result (spec.IsUpdate self.old input.entry.nodes.now input.entry.looks.now
            input.entry.window input.entry.remeasure.now self.new) }
        ensures size { IfOk result (λ told. told.size ≡ spec.root_size self.new) }
        ensures changed { IfOk result (λ told. spec.AreTold self.old input.entry.nodes.now self.new told.changed) }
        ensures laid { IfOk result (λ told. told.laid
            ≡ spec.laid_count self.old input.entry.nodes.now input.entry.remeasure.now self.new) }
        ensures err { OnErr result (self.new ≡ self.old) }
        ensures others { OnOk result (work.new ≡ record work.old { laid = work.new.laid }) }
        ensures cost { IfOk result (λ told. work.new.laid ≡ work.old.laid + told.laid) }
    {
        let spare = self.take_spare(alloc)?;
        let swept = self.swept_again(alloc, input, spare, work)?;
        let size = size_of(input.window, &swept.across, &swept.down);
        let Swept {
            across,
            down,
            mut marks,
            laid,
        } = swept;
        let scene = Scene {
            nodes: input.nodes,
            looks: input.looks,
            children: self.tree.children(),
        };
        let halves = Halves {
            across: across.spans.as_slice(),
            down: down.spans.as_slice(),
        };
        catch_up(scene, &marks, &across, &mut self.across);
        catch_up(scene, &marks, &down, &mut self.down);
        add_again(scene, halves, &mut marks, &mut self.rects);
        self.spare = Some(Spare { across, down });
        Ok(Updated {
            size,
            changed: marks,
            laid,
        })
    }

    /// An update over other nodes, or in another order.
    fn update_moved<L: Ledgers>(
        &mut self,
        alloc: Global,
        input: Input<'_>,
        work: &mut Work<L>,
    ) -> Result<Updated, AllocError>
        requires some { 0 < length input.nodes.now }
        requires nodes { AreNodes input.nodes.now }
        requires keys { spec.AreDifferent (keys input.nodes.now) }
        requires looks { length input.looks.now ≡ length input.nodes.now }
        ensures update { OnOk result (spec.IsUpdate self.old input.entry.nodes.now input.entry.looks.now
            input.entry.window input.entry.remeasure.now self.new) }
        ensures size { IfOk result (λ told. told.size ≡ spec.root_size self.new) }
        ensures changed { IfOk result (λ told. spec.AreTold self.old input.entry.nodes.now self.new told.changed) }
        ensures laid { IfOk result (λ told. told.laid
            ≡ spec.laid_count self.old input.entry.nodes.now input.entry.remeasure.now self.new) }
        ensures err { OnErr result (self.new ≡ self.old) }
        ensures others { OnOk result (work.new ≡ record work.old { laid = work.new.laid }) }
        ensures cost { IfOk result (λ told. work.new.laid ≡ work.old.laid + told.laid) }
    {
        let fresh = fresh_tree(alloc, &self.tree, input.nodes)?;
        let keys = keys_of(alloc, input.nodes)?;
        let told = self.laid_moved(alloc, input, tree_in(&fresh, &self.tree), work)?;
        let Told {
            made,
            changed,
            laid,
        } = told;
        let size = size_of(input.window, &made.across, &made.down);
        let Layouts { tree, .. } = mem::replace(self, Layouts::new(alloc));
        *self = made.over(keys, fresh.unwrap_or(tree));
        Ok(Updated {
            size,
            changed,
            laid,
        })
    }

    /// What the sweeps across start from.
    fn sweep_across(&self, window: Option<(u32, u32)>) -> Sweep<'_>
        ensures axis { result.axis ≡ Across }
        ensures old_lengths { result.old_lengths.now ≡ self.now.widths }
        ensures old_spans { result.old_spans.now ≡ self.now.across }
        ensures root { result.root ≡ spec.window_width window }
        ensures widths { result.widths.now ≡ [] }
        ensures spans { result.spans.now ≡ [] }
    {
        Sweep {
            axis: Axis::Across,
            old_lengths: self.across.lengths.as_slice(),
            old_spans: self.across.spans.as_slice(),
            root: window_width(window),
            widths: &[],
            spans: &[],
        }
    }

    /// What the sweeps down start from, over those across.
    fn sweep_down<'a>(&'a self, window: Option<(u32, u32)>, across: &'a Along) -> Sweep<'a>
        ensures axis { result.axis ≡ Down }
        ensures old_lengths { result.old_lengths.now ≡ self.now.heights }
        ensures old_spans { result.old_spans.now ≡ self.now.down }
        ensures root { result.root ≡ spec.window_height window }
        ensures widths { result.widths.now ≡ across.now.lengths.items }
        ensures spans { result.spans.now ≡ across.now.spans.items }
    {
        Sweep {
            axis: Axis::Down,
            old_lengths: self.down.lengths.as_slice(),
            old_spans: self.down.spans.as_slice(),
            root: window_height(window),
            widths: across.lengths.as_slice(),
            spans: across.spans.as_slice(),
        }
    }

    /// The second copy, or one that is made. None is left then.
    fn take_spare(&mut self, alloc: Global) -> Result<Spare, AllocError>
        ensures kept { self.new ≡ self.old }
        ensures widths { IfOk result (λ spare. spare.across.lengths.items ≡ self.old.widths) }
        ensures across { IfOk result (λ spare. spare.across.spans.items ≡ self.old.across) }
        ensures heights { IfOk result (λ spare. spare.down.lengths.items ≡ self.old.heights) }
        ensures down { IfOk result (λ spare. spare.down.spans.items ≡ self.old.down) }
    {
        match self.spare.take() {
            Some(spare) => Ok(spare),
            None => copied_spare(alloc, &self.across, &self.down),
        }
    }

    /// What the sweeps of an update make over the nodes of the last one, in a second copy of what is kept of them.
    fn swept_again<L: Ledgers>(
        &self,
        alloc: Global,
        input: Input<'_>,
        spare: Spare,
        work: &mut Work<L>,
    ) -> Result<Swept, AllocError>
        requires some { 0 < length input.nodes.now }
        requires nodes { AreNodes input.nodes.now }
        requires keys { spec.AreDifferent (keys input.nodes.now) }
        requires looks { length input.looks.now ≡ length input.nodes.now }
        requires same_keys { self.now.keys ≡ keys input.nodes.now }
        requires same_children { self.now.children ≡ children_lists (parents input.nodes.now) }
        requires widths { spare.across.lengths.items ≡ self.now.widths }
        requires across { spare.across.spans.items ≡ self.now.across }
        requires heights { spare.down.lengths.items ≡ self.now.heights }
        requires down { spare.down.spans.items ≡ self.now.down }
        ensures swept { IfOk result (λ made. AreSwept self.now input.entry.nodes.now input.entry.looks.now
            input.entry.window input.entry.remeasure.now made.across.lengths.items made.down.lengths.items
            made.across.spans.items made.down.spans.items made.marks) }
        ensures others { OnOk result (work.new ≡ record work.old { laid = work.new.laid }) }
        ensures laid { IfOk result (λ made. made.laid ≡ spec.laid_count self.now input.entry.nodes.now
            input.entry.remeasure.now (kept_of input.entry.nodes.now made.across.lengths.items
            made.down.lengths.items made.across.spans.items made.down.spans.items [])) }
        ensures cost { IfOk result (λ made. work.new.laid ≡ work.old.laid + made.laid) }
    {
        let scene = Scene {
            nodes: input.nodes,
            looks: input.looks,
            children: self.tree.children(),
        };
        let mut marks = marks_of(alloc, input.remeasure, input.nodes.len())?;
        let first = count_marked(&marks, input.nodes);
        let wide = self.sweep_across(input.window);
        let across = lay_again(alloc, scene, wide, spare.across, &mut marks, work)?;
        let second = count_marked(&marks, input.nodes);
        let high = self.sweep_down(input.window, &across);
        let down = lay_again(alloc, scene, high, spare.down, &mut marks, work)?;
        let third = count_marked(&marks, input.nodes);
        Ok(Swept {
            across,
            down,
            marks,
            laid: calls(first, second, third),
        })
    }

    /// What an update makes over the tree of its nodes.
    fn laid_moved<L: Ledgers>(
        &self,
        alloc: Global,
        input: Input<'_>,
        tree: &Tree,
        work: &mut Work<L>,
    ) -> Result<Told, AllocError>
        requires some { 0 < length input.nodes.now }
        requires nodes { AreNodes input.nodes.now }
        requires keys { spec.AreDifferent (keys input.nodes.now) }
        requires looks { length input.looks.now ≡ length input.nodes.now }
        requires tree { tree.now ≡ parents input.nodes.now }
        ensures update { IfOk result (λ told. spec.IsUpdate self.now input.entry.nodes.now input.entry.looks.now
            input.entry.window input.entry.remeasure.now (kept_of input.entry.nodes.now
            told.made.across.lengths.items told.made.down.lengths.items told.made.across.spans.items
            told.made.down.spans.items told.made.rects.items)) }
        ensures whole { IfOk result (λ told. IsWhole (kept_of input.entry.nodes.now
            told.made.across.lengths.items told.made.down.lengths.items told.made.across.spans.items
            told.made.down.spans.items told.made.rects.items)) }
        ensures changed { IfOk result (λ told. spec.AreTold self.now input.entry.nodes.now (kept_of
            input.entry.nodes.now told.made.across.lengths.items told.made.down.lengths.items
            told.made.across.spans.items told.made.down.spans.items told.made.rects.items) told.changed) }
        ensures laid { IfOk result (λ told. told.laid ≡ spec.laid_count self.now input.entry.nodes.now
            input.entry.remeasure.now (kept_of input.entry.nodes.now told.made.across.lengths.items
            told.made.down.lengths.items told.made.across.spans.items told.made.down.spans.items
            told.made.rects.items)) }
        ensures others { OnOk result (work.new ≡ record work.old { laid = work.new.laid }) }
        ensures cost { IfOk result (λ told. work.new.laid ≡ work.old.laid + told.laid) }
    {
        let nodes = input.nodes;
        let olds = old_places(alloc, self.keys.as_slice(), nodes)?;
        let moved = Moved {
            scene: Scene {
                nodes,
                looks: input.looks,
                children: tree.children(),
            },
            olds: olds.as_slice(),
            old_children: self.tree.children(),
        };
        let mut marks = marks_of(alloc, input.remeasure, nodes.len())?;
        let first = count_marked(&marks, nodes);
        let wide = self.sweep_across(input.window);
        let across = lay_moved(alloc, moved, wide, &mut marks, work)?;
        let second = count_marked(&marks, nodes);
        let high = self.sweep_down(input.window, &across);
        let down = lay_moved(alloc, moved, high, &mut marks, work)?;
        let third = count_marked(&marks, nodes);
        let rects = rects_of(alloc, nodes, across.spans.as_slice(), down.spans.as_slice())?;
        let changed = changed_of(
            alloc,
            olds.as_slice(),
            self.rects.as_slice(),
            rects.as_slice(),
        )?;
        let made = Laid {
            across,
            down,
            rects,
        };
        Ok(Told {
            made,
            changed,
            laid: calls(first, second, third),
        })
    }
}

impl Laid {
    /// What is kept then, with these keys and this tree.
    fn over(self, keys: Vec<NodeKey>, tree: Tree) -> Layouts
        requires { IsWhole (record {
          keys = keys.items;
          children = children_lists tree;
          widths = self.across.lengths.items;
          heights = self.down.lengths.items;
          across = self.across.spans.items;
          down = self.down.spans.items;
          rects = self.rects.items;
        }) }
        ensures { result ≡ record {
          keys = keys.items;
          children = children_lists tree;
          widths = self.across.lengths.items;
          heights = self.down.lengths.items;
          across = self.across.spans.items;
          down = self.down.spans.items;
          rects = self.rects.items;
        } }
    {
        Layouts {
            keys,
            tree,
            across: self.across,
            down: self.down,
            rects: self.rects,
            spare: None,
        }
    }
}

/// The size of the root in the window, of what is laid along both axes.
fn size_of(window: Option<(u32, u32)>, across: &Along, down: &Along) -> (u32, u32)
    ensures { result ≡ (
      spec.root_length (spec.window_width window) (extent_at across.now.lengths.items 0),
      spec.root_length (spec.window_height window) (extent_at down.now.lengths.items 0),
    ) }
{
    (
        root_length(
            window_width(window),
            extent_at(across.lengths.as_slice(), 0),
        ),
        root_length(window_height(window), extent_at(down.lengths.as_slice(), 0)),
    )
}

/// How many calls of panes the four sweeps make, of how many nodes the first works on, each of the next two, and the
/// last.
fn calls(first: usize, second: usize, third: usize) -> usize
    requires first { first ≤ 4096 }
    requires second { second ≤ 4096 }
    requires third { third ≤ 4096 }
    ensures { result ≡ first + 2 * second + third }
{
    first + 2 * second + third
}
