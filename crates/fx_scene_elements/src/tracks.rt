//! The constraints of columns and rows as elements.
ghost use Rattle.std.specs.Prelude.{◌≡◌, ◌++◌, ◌||◌, IfOk, OnOk, length};
ghost use Rattle.fx_doc.specs.Views.{nodes_of, onto};
ghost use Rattle.fx_doc_grammar.specs.Grammar.{Nothing};
ghost use Rattle.fx_scene_elements.specs.Added.{flaw_in, stops};
ghost use Rattle.fx_scene_elements.specs.Elements.{columns_by, rows_by};
ghost use Rattle.fx_scene_elements.specs.Tracks as spec;
ghost use Rattle.fx_scene_outline.specs.Views.{content_of, head_of};
ghost use Rattle.fx_scene_things.specs.Known.{known};
ghost use Rattle.fx_scene_values.specs.Views.{scope_view};

use crate::held::add_closed;
use crate::lanes::{Lane, add_lanes, tracks_of};
use crate::pushing::{push, push_flaw, push_node, stops_from};
use fx_base::{List, Position, Track};
use fx_doc::{Content, Element};
use fx_kinds::Class;
use fx_scene_acts::{Act, Deed};
use fx_scene_flaws::Flaw;
use fx_scene_instances::{Found, Made, Want, entered, referred};
use fx_scene_literals::whole;
use fx_scene_outline::is_reference;
use fx_scene_plan::PlannedStep;
use fx_scene_things::Names;
use fx_scene_values::Scope;
use std::alloc::{AllocError, Global};

/// The most columns and the most rows of a grid that have constraints.
const TRACK_LIMIT: usize = 256;

/// Adds further columns of the grid at the place `owner`, which is the node of an ordinal.
pub(crate) fn add_columns(
    alloc: Global,
    scope: &Scope<'_>,
    owner: usize,
    node: usize,
    element: &Element,
    names: &mut Names,
    lanes: &mut Vec<Lane>,
    acts: &mut Vec<Act>,
) -> Result<(), AllocError>
    ensures acts { OnOk result (acts.new.items ≡ acts.old.items ++ (columns_by (head_of element.now) lanes.old.items
        owner node (spec.columns_told (scope_view scope.now) (known names.old) lanes.old.items owner
        (content_of element.now))).acts) }
    ensures lanes { OnOk result (lanes.new.items ≡ lanes.old.items ++ (columns_by (head_of element.now) lanes.old.items
        owner node (spec.columns_told (scope_view scope.now) (known names.old) lanes.old.items owner
        (content_of element.now))).lanes) }
    ensures names { OnOk result (known names.new ≡ (columns_by (head_of element.now) lanes.old.items owner node
        (spec.columns_told (scope_view scope.now) (known names.old) lanes.old.items owner
        (content_of element.now))).names) }
{
    let mut columns = tracks_of(alloc, lanes.as_slice(), owner, false)?;
    let rows = tracks_of(alloc, lanes.as_slice(), owner, true)?;
    let content = element.content.as_slice();
    let more = add_tracks(
        alloc,
        scope,
        Want::Column,
        columns.as_slice(),
        content,
        names,
        acts,
    )?;
    add_lanes(lanes, owner, false, more.as_slice())?;
    columns.extend_from_slice(more.as_slice())?;
    add_step(node, element.position, columns, rows, acts)
}

/// Adds further rows of the grid at the place `owner`, which is the node of an ordinal.
pub(crate) fn add_rows(
    alloc: Global,
    scope: &Scope<'_>,
    owner: usize,
    node: usize,
    element: &Element,
    names: &mut Names,
    lanes: &mut Vec<Lane>,
    acts: &mut Vec<Act>,
) -> Result<(), AllocError>
    ensures acts { OnOk result (acts.new.items ≡ acts.old.items ++ (rows_by (head_of element.now) lanes.old.items owner
        node (spec.rows_told (scope_view scope.now) (known names.old) lanes.old.items owner
        (content_of element.now))).acts) }
    ensures lanes { OnOk result (lanes.new.items ≡ lanes.old.items ++ (rows_by (head_of element.now) lanes.old.items
        owner node (spec.rows_told (scope_view scope.now) (known names.old) lanes.old.items owner
        (content_of element.now))).lanes) }
    ensures names { OnOk result (known names.new ≡ (rows_by (head_of element.now) lanes.old.items owner node
        (spec.rows_told (scope_view scope.now) (known names.old) lanes.old.items owner
        (content_of element.now))).names) }
{
    let columns = tracks_of(alloc, lanes.as_slice(), owner, false)?;
    let mut rows = tracks_of(alloc, lanes.as_slice(), owner, true)?;
    let content = element.content.as_slice();
    let more = add_tracks(
        alloc,
        scope,
        Want::Row,
        rows.as_slice(),
        content,
        names,
        acts,
    )?;
    add_lanes(lanes, owner, true, more.as_slice())?;
    rows.extend_from_slice(more.as_slice())?;
    add_step(node, element.position, columns, rows, acts)
}

fn add_step(
    node: usize,
    place: Position,
    columns: Vec<Track>,
    rows: Vec<Track>,
    acts: &mut Vec<Act>,
) -> Result<(), AllocError>
    ensures ok { OnOk result (acts.new.items
        ≡ acts.old.items ++ spec.tracks_step node place columns.items rows.items) }
{
    let step = PlannedStep::Tracks(node, List::from_vec(columns), List::from_vec(rows));
    push(acts, place, Deed::Step(step))
}

/// The constraints that some content has, behind these. Adds what is wrong with it.
fn add_tracks(
    alloc: Global,
    scope: &Scope<'_>,
    want: Want,
    earlier: &[Track],
    content: &[Content],
    names: &mut Names,
    acts: &mut Vec<Act>,
) -> Result<Vec<Track>, AllocError>
    ensures acts { OnOk result (acts.new.items ≡ acts.old.items ++ (spec.tracks_told (scope_view scope.now) want
        (length earlier.now) (known names.old) (nodes_of content.now)).acts) }
    ensures tracks { IfOk result (λ tracks. tracks.items ≡ (spec.tracks_told (scope_view scope.now) want
        (length earlier.now) (known names.old) (nodes_of content.now)).tracks) }
    ensures names { OnOk result (known names.new ≡ (spec.tracks_told (scope_view scope.now) want
        (length earlier.now) (known names.old) (nodes_of content.now)).names) }
{
    let mut tracks = Vec::new(alloc);
    let mut stopped = false;
    for item in content {
        let count = earlier.len() + tracks.len();
        stopped = add_next(
            alloc,
            scope,
            want,
            count,
            stopped,
            item,
            names,
            &mut tracks,
            acts,
        )?;
    }
    Ok(tracks)
}

/// Adds a part, unless a node is read first. Answers whether one is read before anything behind the part.
fn add_next(
    alloc: Global,
    scope: &Scope<'_>,
    want: Want,
    count: usize,
    stopped: bool,
    item: &Content,
    names: &mut Names,
    tracks: &mut Vec<Track>,
    acts: &mut Vec<Act>,
) -> Result<bool, AllocError>
    ensures acts { OnOk result (acts.new.items ≡ acts.old.items ++ (spec.next_told stopped (scope_view scope.now) want
        (known names.old) count (onto item.now Nothing)).acts) }
    ensures tracks { OnOk result (tracks.new.items ≡ tracks.old.items ++ (spec.next_told stopped (scope_view scope.now)
        want (known names.old) count (onto item.now Nothing)).tracks) }
    ensures names { OnOk result (known names.new ≡ (spec.next_told stopped (scope_view scope.now) want
        (known names.old) count (onto item.now Nothing)).names) }
    ensures stops { IfOk result (λ now. now ≡ stopped || stops (spec.next_told stopped (scope_view scope.now) want
        (known names.old) count (onto item.now Nothing)).acts) }
{
    if stopped {
        return Ok(true);
    }
    let from = acts.len();
    add_part(alloc, scope, want, count, item, names, tracks, acts)?;
    Ok(stops_from(acts.as_slice(), from))
}

fn add_part(
    alloc: Global,
    scope: &Scope<'_>,
    want: Want,
    count: usize,
    item: &Content,
    names: &mut Names,
    tracks: &mut Vec<Track>,
    acts: &mut Vec<Act>,
) -> Result<(), AllocError>
    ensures acts { OnOk result (acts.new.items ≡ acts.old.items
        ++ (spec.part_told (scope_view scope.now) want (known names.old) count (onto item.now Nothing)).acts) }
    ensures tracks { OnOk result (tracks.new.items ≡ tracks.old.items
        ++ (spec.part_told (scope_view scope.now) want (known names.old) count (onto item.now Nothing)).tracks) }
    ensures names { OnOk result (known names.new
        ≡ (spec.part_told (scope_view scope.now) want (known names.old) count (onto item.now Nothing)).names) }
{
    match item {
        Content::Child(element) => {
            if is_reference(element.name.as_str()) {
                return add_reference(alloc, scope, want, count, element, names, tracks, acts);
            }
            add_item(alloc, scope, want, count, element, names, tracks, acts)
        }
        Content::Chars(_, place) => push_flaw(acts, *place, Flaw::Child),
    }
}

fn add_reference(
    alloc: Global,
    scope: &Scope<'_>,
    want: Want,
    count: usize,
    element: &Element,
    names: &mut Names,
    tracks: &mut Vec<Track>,
    acts: &mut Vec<Act>,
) -> Result<(), AllocError>
    ensures acts { OnOk result (acts.new.items ≡ acts.old.items ++ (spec.reference_told (scope_view scope.now) want
        (known names.old) count (head_of element.now) (content_of element.now)).acts) }
    ensures tracks { OnOk result (tracks.new.items ≡ tracks.old.items ++ (spec.reference_told (scope_view scope.now)
        want (known names.old) count (head_of element.now) (content_of element.now)).tracks) }
    ensures names { OnOk result (known names.new ≡ (spec.reference_told (scope_view scope.now) want (known names.old)
        count (head_of element.now) (content_of element.now)).names) }
{
    let found = limited(
        count,
        element.position,
        referred(alloc, names, want, element)?,
    );
    add_found(found, tracks, acts)?;
    add_closed(alloc, scope, element, names, acts)
}

/// A grid has at most 256 columns and 256 rows with constraints.
fn limited(count: usize, place: Position, found: Found) -> Found
    ensures { result ≡ spec.limited count place found }
{
    match found {
        Found::Whole(made) => {
            if count >= TRACK_LIMIT {
                Found::Flaw(Flaw::Limit, place)
            } else {
                Found::Whole(made)
            }
        }
        Found::Flaw(flaw, spot) => Found::Flaw(flaw, spot),
        Found::Node(spot) => Found::Node(spot),
    }
}

fn add_item(
    alloc: Global,
    scope: &Scope<'_>,
    want: Want,
    count: usize,
    element: &Element,
    names: &mut Names,
    tracks: &mut Vec<Track>,
    acts: &mut Vec<Act>,
) -> Result<(), AllocError>
    ensures acts { OnOk result (acts.new.items ≡ acts.old.items ++ (spec.item_told (scope_view scope.now) want
        (known names.old) count (head_of element.now) (content_of element.now)).acts) }
    ensures tracks { OnOk result (tracks.new.items ≡ tracks.old.items ++ (spec.item_told (scope_view scope.now) want
        (known names.old) count (head_of element.now) (content_of element.now)).tracks) }
    ensures names { OnOk result (known names.new ≡ (spec.item_told (scope_view scope.now) want (known names.old) count
        (head_of element.now) (content_of element.now)).names) }
{
    match entered(scope, want, element) {
        Ok(class) => add_class(alloc, scope, count, element, class, names, tracks, acts),
        Err(flaw) => push_flaw(acts, element.position, flaw),
    }
}

fn add_class(
    alloc: Global,
    scope: &Scope<'_>,
    count: usize,
    element: &Element,
    class: Class,
    names: &mut Names,
    tracks: &mut Vec<Track>,
    acts: &mut Vec<Act>,
) -> Result<(), AllocError>
    ensures acts { OnOk result (acts.new.items ≡ acts.old.items ++ (spec.class_told (scope_view scope.now)
        (known names.old) count (head_of element.now) (content_of element.now) class).acts) }
    ensures tracks { OnOk result (tracks.new.items ≡ tracks.old.items ++ (spec.class_told (scope_view scope.now)
        (known names.old) count (head_of element.now) (content_of element.now) class).tracks) }
    ensures names { OnOk result (known names.new ≡ (spec.class_told (scope_view scope.now) (known names.old) count
        (head_of element.now) (content_of element.now) class).names) }
{
    if count >= TRACK_LIMIT {
        return push_flaw(acts, element.position, Flaw::Limit);
    }
    let found = whole(alloc, scope, element, class, false, names)?;
    add_found(found, tracks, acts)
}

fn add_found(found: Found, tracks: &mut Vec<Track>, acts: &mut Vec<Act>) -> Result<(), AllocError>
    ensures acts { OnOk result (acts.new.items ≡ acts.old.items ++ flaw_in found) }
    ensures tracks { OnOk result (tracks.new.items ≡ tracks.old.items ++ spec.tracks_in found) }
{
    match found {
        Found::Whole(Made::Track(track)) => Ok(tracks.push(track)?),
        Found::Whole(_) => Ok(()),
        Found::Flaw(flaw, spot) => push_flaw(acts, spot, flaw),
        Found::Node(spot) => push_node(acts, spot),
    }
}
