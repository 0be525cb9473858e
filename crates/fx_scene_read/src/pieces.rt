//! What a piece of a document asks for.
ghost use Rattle.std.specs.Prelude.{◌≡◌, ◌++◌, Ok, OnOk};
ghost use Rattle.fx_scene_elements.specs.Added.{flaw_in};
ghost use Rattle.fx_scene_outline.specs.Views.{content_of, head_of, piece_view, shown};
ghost use Rattle.fx_scene_read.specs.Opening.{rank_of};
ghost use Rattle.fx_scene_read.specs.Pieces as spec;
ghost use Rattle.fx_scene_things.specs.Known.{known};
ghost use Rattle.fx_scene_values.specs.Views.{scope_view};

use crate::counting::node_at;
use crate::instances::add_instance;
use crate::references::add_reference;
use fx_doc::Element;
use fx_kinds::Class;
use fx_scene_acts::Act;
use fx_scene_bindings::add_name;
use fx_scene_elements::{Lane, add_element, push_flaw, push_flaw_in};
use fx_scene_instances::{Want, entered};
use fx_scene_literals::whole;
use fx_scene_outline::Piece;
use fx_scene_things::Names;
use fx_scene_values::Scope;
use std::alloc::{AllocError, Global};

/// Adds what a piece asks for behind these pieces, with the ordinals that they have: an element with its own name
/// first, then its attributes from left to right. An instance is the node of this ordinal, and the child at this place
/// if it is one (`rank_of`). Of an include nothing is added, since what it asks for is told where its document is
/// read.
#[tactic(auto, unfolding(crate::specs::Pieces::piece_told))]
pub fn add_piece(
    alloc: Global,
    scope: &Scope<'_>,
    before: &[Piece<'_>],
    nodes: &[usize],
    node: usize,
    piece: &Piece<'_>,
    rank: usize,
    names: &mut Names,
    lanes: &mut Vec<Lane>,
    acts: &mut Vec<Act>,
) -> Result<(), AllocError>
    requires { rank ≡ rank_of (shown before.now) (piece_view piece.now) }
    ensures acts { OnOk result (acts.new.items ≡ acts.old.items ++ (spec.piece_told (scope_view scope.now)
        (known names.old) lanes.old.items (shown before.now) nodes.now node (piece_view piece.now)).acts) }
    ensures lanes { OnOk result (lanes.new.items ≡ lanes.old.items ++ (spec.piece_told (scope_view scope.now)
        (known names.old) lanes.old.items (shown before.now) nodes.now node (piece_view piece.now)).lanes) }
    ensures names { OnOk result (known names.new ≡ (spec.piece_told (scope_view scope.now) (known names.old)
        lanes.old.items (shown before.now) nodes.now node (piece_view piece.now)).names) }
{
    match piece {
        Piece::Instance(seat, element) => {
            add_instance(
                alloc, scope, names, before, nodes, node, *seat, rank, element, acts,
            )?;
            add_name(alloc, element, node, names)
        }
        Piece::Reference(seat, element) => {
            add_reference(names, before, nodes, *seat, rank, element, acts)
        }
        Piece::Include(_, _) => Ok(()),
        Piece::Value(element) => add_value(alloc, scope, element, names, acts),
        Piece::Property(owner, class, element) => {
            let grid = node_at(*owner, nodes);
            add_element(
                alloc, scope, *owner, grid, *class, element, names, lanes, acts,
            )
        }
        Piece::Flaw(flaw, place) => push_flaw(acts, *place, *flaw),
    }
}

/// A value in a definition.
fn add_value(
    alloc: Global,
    scope: &Scope<'_>,
    element: &Element,
    names: &mut Names,
    acts: &mut Vec<Act>,
) -> Result<(), AllocError>
    ensures acts { OnOk result (acts.new.items ≡ acts.old.items ++ flaw_in (spec.value_told (scope_view scope.now)
        (known names.old) (head_of element.now) (content_of element.now)).found) }
    ensures names { OnOk result (known names.new ≡ (spec.value_told (scope_view scope.now) (known names.old)
        (head_of element.now) (content_of element.now)).names) }
{
    match entered(scope, Want::Defined, element) {
        Ok(class) => add_whole(alloc, scope, element, class, names, acts),
        Err(flaw) => push_flaw(acts, element.position, flaw),
    }
}

fn add_whole(
    alloc: Global,
    scope: &Scope<'_>,
    element: &Element,
    class: Class,
    names: &mut Names,
    acts: &mut Vec<Act>,
) -> Result<(), AllocError>
    ensures acts { OnOk result (acts.new.items ≡ acts.old.items ++ flaw_in (spec.entered_value (scope_view scope.now)
        (known names.old) (head_of element.now) (content_of element.now) (Ok class)).found) }
    ensures names { OnOk result (known names.new ≡ (spec.entered_value (scope_view scope.now) (known names.old)
        (head_of element.now) (content_of element.now) (Ok class)).names) }
{
    let found = whole(alloc, scope, element, class, true, names)?;
    push_flaw_in(found, acts)
}
