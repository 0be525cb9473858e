//! What the layout of each node in a scene hangs on.
ghost use Rattle.std.specs.Prelude.{◌≡◌, OnOk, Some};
ghost use Rattle.fx_stage_facts.specs.Reads.{IsRead};
ghost use Rattle.fx_stage_facts.specs.Boxes as spec;

use crate::places::{Asked, Places};
use crate::refills::{are_empty, refill_list};
use crate::stands::Stand;
use crate::values::{number_in, refill_text, truth_in};
use fx_base::{List, Text, Track};
use fx_kinds::{BoxFacts, Class};
use fx_stage::Stage;
use fx_stage_types::NodeData;
use std::alloc::{AllocError, Global};
use std::mem::replace;

/// A node that has nothing.
pub(crate) fn bare_box(alloc: Global, stand: Stand) -> BoxFacts
    ensures { result ≡ spec.bare_box stand }
{
    BoxFacts {
        key: stand.key,
        parent: stand.parent,
        class: Class::Region,
        constraints: List::new(alloc),
        edge: None,
        columns: List::new(alloc),
        rows: List::new(alloc),
        text: Text::new(alloc),
        layout_x: 0,
        layout_y: 0,
        focus_traversable: false,
    }
}

/// Makes the tracks the same as the others. Most nodes have none.
#[inline]
fn refill_tracks(
    alloc: Global,
    kept: &mut List<Track>,
    next: &List<Track>,
) -> Result<(), AllocError>
    ensures { OnOk result (kept.new ≡ next.now) }
{
    if are_empty(kept.as_slice(), next.as_slice()) {
        return Ok(());
    }
    let mut tracks = replace(kept, List::new(alloc)).into_vec();
    tracks.clear();
    tracks.extend_from_slice(next.as_slice())?;
    *kept = List::from_vec(tracks);
    Ok(())
}

/// Makes these facts those of a node that has something.
pub(crate) fn refill_box(
    alloc: Global,
    facts: &mut BoxFacts,
    stage: &Stage,
    places: &Places,
    stand: &Stand,
    node: &NodeData,
) -> Result<(), AllocError>
    requires class { places.now ≡ node.now.class }
    requires read { IsRead stage.now.store node.now }
    ensures { OnOk result (facts.new ≡ spec.box_in stage.now.store.entries stand.now (Some node.now)) }
{
    facts.key = stand.key;
    facts.parent = stand.parent;
    facts.class = node.class;
    facts.edge = node.edge;
    facts.layout_x = number_in(stage, places, node, Asked::LayoutX);
    facts.layout_y = number_in(stage, places, node, Asked::LayoutY);
    facts.focus_traversable = truth_in(stage, places, node, Asked::FocusTraversable);
    refill_list(alloc, &mut facts.constraints, &node.constraints)?;
    refill_tracks(alloc, &mut facts.columns, &node.columns)?;
    refill_tracks(alloc, &mut facts.rows, &node.rows)?;
    refill_text(alloc, &mut facts.text, stage, places, node, Asked::Text)?;
    Ok(())
}
