//! A document piece by piece, with the documents that it includes.
ghost use Rattle.std.specs.Prelude.{ℕ, ◌≡◌, ◌≤◌, ◌<◌, ◌++◌, ◌∷◌, [], IfOk, List, OnOk, Some, drop, false, length, map, slice_get};
ghost use Rattle.std.specs.Option.{option_map};
ghost use Rattle.fx_doc.specs.Views.{reading};
ghost use Rattle.fx_port.specs.Causes.{HasCause};
ghost use Rattle.fx_port.specs.Files.{Files};
ghost use Rattle.fx_port.specs.declared.files.FetchError.TheVariants.{Failed};
ghost use Rattle.fx_scene_course.specs.Making.{AreActsDone};
ghost use Rattle.fx_scene_load.specs.Reading as spec;
ghost use Rattle.fx_scene_load.specs.Reading.{ArePiecesRead, IsDefinedRead, IsDocumentRead, IsIncludeRead, IsPieceRead, IsWantedRead};
ghost use Rattle.fx_scene_load.specs.Made.{AreDefinedRead, IsFaultKept, IsInnerRead, IsNextRead};
ghost use Rattle.fx_scene_course.specs.Views.{course_view, open_view};
ghost use Rattle.fx_scene_load.specs.Views.{desk_view};
ghost use Rattle.fx_scene_outline.specs.Pieces.{Include, Piece as PlainPiece};
ghost use Rattle.fx_scene_outline.specs.Views.{defined_shown, defined_view, head_of, piece_view, shown};
ghost use Rattle.fx_scene_read.specs.Opening.{owner_in, rank_in, rank_of, stand_at};
ghost use Rattle.fx_scene_things.specs.Known.{known, settled_view};
ghost use Rattle.fx_scene_things.specs.Settled.{settled_of};

use crate::asking::{Asked, asked_of};
use crate::desks::{Desk, copy_desk, desk_with, empty_desk};
use crate::documents::fetch_document;
use fx_base::{Place, Position, Str};
use fx_doc::{Document, Element};
use fx_kinds::Class;
use fx_load_parts::LoadError;
use fx_port::{FetchError, Shelf};
use fx_scene_acts::{Act, Doing};
use fx_scene_bindings::add_named;
use fx_scene_course::{
    Course, Open, acts_before, acts_behind, acts_between, add_class, add_fault_in, add_file,
    add_flaw, add_space, add_task, around_with, do_acts, has_id, inner_path, place_in, scope_in,
};
use fx_scene_flaws::Flaw;
use fx_scene_names::class_named;
use fx_scene_outline::{Piece, Seat, aside_outline, defined_nodes, outline};
use fx_scene_read::{Stand, add_piece, add_root_attributes, no_counts, rank_of, stand_at};
use fx_scene_things::{Named, Names, Settled};
use std::alloc::{AllocError, Global};

/// Room for what most pieces ask for.
const ROOM: usize = 8;

/// The most levels of nodes that are defined within the values of each other: documents aren't deeper.
const MOST_LEVELS: usize = 128;

/// The nodes of definitions within a piece that were read already, and how many acts of the piece are done.
#[derive(Drop)]
pub struct Progress {
    pub settled: Vec<Settled>,
    pub done: usize,
}

/// Reads a document, up to the first fault.
#[cycle(walk)]
pub(crate) fn read_whole<F: Shelf>(
    alloc: Global,
    shelf: &mut F,
    here: &Open<'_>,
    document: &Document,
    course: &mut Course,
) -> Result<(), FetchError>
    requires { length here.now.around.items ≤ 17 }
    ensures held { F.held shelf.new ≡ F.held shelf.old }
    ensures cause { HasCause Failed (F.faults shelf.old) (F.faults shelf.new) result }
    ensures done { (files : Files) → F.held shelf.old ≡ Some files → OnOk result (IsDocumentRead files
        (open_view here.now) (course_view course.old) (reading document.now) (course_view course.new)) }
{
    let pieces = outline(alloc, document)?;
    let mut desk = empty_desk(alloc);
    read_pieces(
        alloc,
        shelf,
        here,
        MOST_LEVELS,
        pieces.as_slice(),
        &mut desk,
        course,
    )?;
    Ok(add_space(course, here.file, desk.names)?)
}

/// Reads pieces with room for so many levels of definitions within values.
#[cycle(walk)]
fn read_pieces<F: Shelf>(
    alloc: Global,
    shelf: &mut F,
    here: &Open<'_>,
    room: usize,
    pieces: &[Piece<'_>],
    desk: &mut Desk,
    course: &mut Course,
) -> Result<(), FetchError>
    requires { length here.now.around.items ≤ 17 }
    ensures held { F.held shelf.new ≡ F.held shelf.old }
    ensures cause { HasCause Failed (F.faults shelf.old) (F.faults shelf.new) result }
    ensures done { (files : Files) → F.held shelf.old ≡ Some files → OnOk result (ArePiecesRead files
        (open_view here.now) room (desk_view [] desk.old) (course_view course.old) (shown pieces.now)
        (known desk.new.names) (course_view course.new)) }
{
    let mut counts = no_counts(alloc, pieces.len())?;
    for (index, piece) in pieces.iter().enumerate() {
        if course.at_fault {
            return Ok(());
        }
        let before = pieces.split_at(index).0;
        let rank = rank_of(&mut counts, before, piece);
        read_piece(alloc, shelf, here, room, before, piece, rank, desk, course)?;
    }
    Ok(())
}

#[cycle(walk)]
fn read_piece<F: Shelf>(
    alloc: Global,
    shelf: &mut F,
    here: &Open<'_>,
    room: usize,
    before: &[Piece<'_>],
    piece: &Piece<'_>,
    rank: usize,
    desk: &mut Desk,
    course: &mut Course,
) -> Result<(), FetchError>
    requires around { length here.now.around.items ≤ 17 }
    requires rank { rank ≡ rank_of (shown before.now) (piece_view piece.now) }
    ensures held { F.held shelf.new ≡ F.held shelf.old }
    ensures cause { HasCause Failed (F.faults shelf.old) (F.faults shelf.new) result }
    ensures done { (files : Files) → F.held shelf.old ≡ Some files → OnOk result (IsPieceRead files
        (open_view here.now) room (desk_view (shown before.now) desk.old) (course_view course.old)
        (piece_view piece.now) (desk_view (shown before.now ++ piece_view piece.now ∷ []) desk.new)
        (course_view course.new)) }
{
    match piece {
        Piece::Include(seat, element) => {
            read_included(
                alloc, shelf, here, before, *seat, rank, element, desk, course,
            )
        }
        _ => read_plain(alloc, shelf, here, room, before, piece, rank, desk, course),
    }
}

/// A piece that is no include: it is read up to each of the nodes in the definitions within it, and then as a whole.
#[cycle(walk)]
fn read_plain<F: Shelf>(
    alloc: Global,
    shelf: &mut F,
    here: &Open<'_>,
    room: usize,
    before: &[Piece<'_>],
    piece: &Piece<'_>,
    rank: usize,
    desk: &mut Desk,
    course: &mut Course,
) -> Result<(), FetchError>
    requires around { length here.now.around.items ≤ 17 }
    requires rank { rank ≡ rank_of (shown before.now) (piece_view piece.now) }
    requires plain { spec.is_include (piece_view piece.now) ≡ false }
    ensures held { F.held shelf.new ≡ F.held shelf.old }
    ensures cause { HasCause Failed (F.faults shelf.old) (F.faults shelf.new) result }
    ensures done { (files : Files) → F.held shelf.old ≡ Some files → OnOk result (IsPieceRead files
        (open_view here.now) room (desk_view (shown before.now) desk.old) (course_view course.old)
        (piece_view piece.now) (desk_view (shown before.now ++ piece_view piece.now ∷ []) desk.new)
        (course_view course.new)) }
{
    let node = course.classes.len();
    let defined = defined_nodes(alloc, piece)?;
    let progress = read_all_defined(
        alloc,
        shelf,
        here,
        room,
        node,
        before,
        piece,
        rank,
        defined.as_slice(),
        desk,
        course,
    )?;
    read_rest(
        alloc, shelf, here, node, before, piece, rank, progress, desk, course,
    )?;
    add_class(course, class_of(piece))?;
    Ok(push_node(desk, node)?)
}

/// The nodes in the definitions within a piece, one after another, each behind what stands before it.
#[cycle(walk)]
fn read_all_defined<F: Shelf>(
    alloc: Global,
    shelf: &mut F,
    here: &Open<'_>,
    room: usize,
    node: usize,
    before: &[Piece<'_>],
    piece: &Piece<'_>,
    rank: usize,
    defined: &[&Element],
    desk: &Desk,
    course: &mut Course,
) -> Result<Progress, FetchError>
    requires around { length here.now.around.items ≤ 17 }
    requires rank { rank ≡ rank_of (shown before.now) (piece_view piece.now) }
    ensures held { F.held shelf.new ≡ F.held shelf.old }
    ensures cause { HasCause Failed (F.faults shelf.old) (F.faults shelf.new) result }
    ensures done { (files : Files) → F.held shelf.old ≡ Some files → IfOk result (λ progress. AreDefinedRead files
        (open_view here.now) room (desk_view (shown before.now) desk.now) node (piece_view piece.now)
        (defined_shown defined.now) (course_view course.old) (map settled_view progress.settled.items)
        progress.done (course_view course.new)) }
{
    let mut progress = Progress {
        settled: Vec::new(alloc),
        done: 0,
    };
    for element in defined {
        read_next_defined(
            alloc,
            shelf,
            here,
            room,
            node,
            before,
            piece,
            rank,
            element,
            desk,
            &mut progress,
            course,
        )?;
    }
    Ok(progress)
}

/// A further node in a definition within a piece, behind what stands before it.
#[cycle(walk)]
fn read_next_defined<F: Shelf>(
    alloc: Global,
    shelf: &mut F,
    here: &Open<'_>,
    room: usize,
    node: usize,
    before: &[Piece<'_>],
    piece: &Piece<'_>,
    rank: usize,
    element: &Element,
    desk: &Desk,
    progress: &mut Progress,
    course: &mut Course,
) -> Result<(), FetchError>
    requires around { length here.now.around.items ≤ 17 }
    requires rank { rank ≡ rank_of (shown before.now) (piece_view piece.now) }
    ensures held { F.held shelf.new ≡ F.held shelf.old }
    ensures cause { HasCause Failed (F.faults shelf.old) (F.faults shelf.new) result }
    ensures done { (files : Files) → F.held shelf.old ≡ Some files → OnOk result (IsNextRead files
        (open_view here.now) room (desk_view (shown before.now) desk.now) node (piece_view piece.now)
        (defined_view element.now) (map settled_view progress.old.settled.items) progress.old.done
        (course_view course.old) (map settled_view progress.new.settled.items) progress.new.done
        (course_view course.new)) }
{
    let mut trial = copy_desk(alloc, desk)?;
    let settled = progress.settled.as_slice();
    let acts = tell_piece(alloc, here, settled, before, node, piece, rank, &mut trial)?;
    let count = acts_before(acts.as_slice());
    let acts = acts_between(alloc, acts, progress.done, count)?;
    do_acts(alloc, shelf, here, acts, course)?;
    let names = read_defined(alloc, shelf, here, room, element, trial.names, course)?;
    Ok(settle(progress, element.position, names, count)?)
}

/// The node at this place was read, and so many acts are done.
fn settle(
    progress: &mut Progress,
    place: Position,
    names: Names,
    done: usize,
) -> Result<(), AllocError>
    ensures settled { OnOk result (map settled_view progress.new.settled.items
        ≡ map settled_view progress.old.settled.items ++ (settled_of place (known names) ∷ [])) }
    ensures done { OnOk result (progress.new.done ≡ done) }
{
    progress.settled.push(Settled { place, names })?;
    progress.done = done;
    Ok(())
}

/// A node in a definition within a value, where these names are known. Answers the names that are known behind it.
#[cycle(walk)]
fn read_defined<F: Shelf>(
    alloc: Global,
    shelf: &mut F,
    here: &Open<'_>,
    room: usize,
    element: &Element,
    names: Names,
    course: &mut Course,
) -> Result<Names, FetchError>
    requires { length here.now.around.items ≤ 17 }
    ensures held { F.held shelf.new ≡ F.held shelf.old }
    ensures cause { HasCause Failed (F.faults shelf.old) (F.faults shelf.new) result }
    ensures done { (files : Files) → F.held shelf.old ≡ Some files → IfOk result (λ behind. IsDefinedRead files
        (open_view here.now) room (known names) (course_view course.old) (defined_view element.now) (known behind)
        (course_view course.new)) }
{
    if room == 0 {
        add_flaw(course, place_in(here.file, element.position), Flaw::Limit)?;
        return Ok(names);
    }
    let pieces = aside_outline(alloc, element)?;
    let mut desk = desk_with(alloc, names);
    read_pieces(
        alloc,
        shelf,
        here,
        room - 1,
        pieces.as_slice(),
        &mut desk,
        course,
    )?;
    Ok(desk.names)
}

/// A piece as a whole, of which these nodes of definitions were read and so many acts are done.
fn read_rest<F: Shelf>(
    alloc: Global,
    shelf: &mut F,
    here: &Open<'_>,
    node: usize,
    before: &[Piece<'_>],
    piece: &Piece<'_>,
    rank: usize,
    progress: Progress,
    desk: &mut Desk,
    course: &mut Course,
) -> Result<(), FetchError>
    requires { rank ≡ rank_of (shown before.now) (piece_view piece.now) }
    ensures held { F.held shelf.new ≡ F.held shelf.old }
    ensures cause { HasCause Failed (F.faults shelf.old) (F.faults shelf.new) result }
    ensures names { OnOk result (known desk.new.names
        ≡ (spec.told_in (open_view here.now) (desk_view (shown before.now) desk.old)
        (map settled_view progress.settled.items) node (piece_view piece.now)).names) }
    ensures lanes { OnOk result (desk.new.lanes.items ≡ desk.old.lanes.items
        ++ (spec.told_in (open_view here.now) (desk_view (shown before.now) desk.old)
        (map settled_view progress.settled.items) node (piece_view piece.now)).lanes) }
    ensures nodes { desk.new.nodes ≡ desk.old.nodes }
    ensures done { (files : Files) → F.held shelf.old ≡ Some files → OnOk result (AreActsDone files
        (open_view here.now) (course_view course.old) (drop progress.done (spec.told_in (open_view here.now)
        (desk_view (shown before.now) desk.old) (map settled_view progress.settled.items) node
        (piece_view piece.now)).acts) (course_view course.new)) }
{
    let settled = progress.settled.as_slice();
    let acts = tell_piece(alloc, here, settled, before, node, piece, rank, desk)?;
    let acts = acts_behind(alloc, acts, progress.done)?;
    do_acts(alloc, shelf, here, acts, course)
}

/// What a piece asks for, which is the node of this ordinal where it is an instance, where these nodes of definitions
/// within it were read.
fn tell_piece(
    alloc: Global,
    here: &Open<'_>,
    settled: &[Settled],
    before: &[Piece<'_>],
    node: usize,
    piece: &Piece<'_>,
    rank: usize,
    desk: &mut Desk,
) -> Result<Vec<Act>, AllocError>
    requires { rank ≡ rank_of (shown before.now) (piece_view piece.now) }
    ensures acts { IfOk result (λ acts. acts.items
        ≡ (spec.told_in (open_view here.now) (desk_view (shown before.now) desk.old)
        (map settled_view settled.now) node (piece_view piece.now)).acts) }
    ensures names { OnOk result (known desk.new.names
        ≡ (spec.told_in (open_view here.now) (desk_view (shown before.now) desk.old)
        (map settled_view settled.now) node (piece_view piece.now)).names) }
    ensures lanes { OnOk result (desk.new.lanes.items ≡ desk.old.lanes.items
        ++ (spec.told_in (open_view here.now) (desk_view (shown before.now) desk.old)
        (map settled_view settled.now) node (piece_view piece.now)).lanes) }
    ensures nodes { desk.new.nodes ≡ desk.old.nodes }
{
    let scope = scope_in(here, settled);
    let mut acts = Vec::with_capacity(alloc, ROOM)?;
    add_piece(
        alloc,
        &scope,
        before,
        desk.nodes.as_slice(),
        node,
        piece,
        rank,
        &mut desk.names,
        &mut desk.lanes,
        &mut acts,
    )?;
    Ok(acts)
}

/// The class of the node that a piece is.
fn class_of(piece: &Piece<'_>) -> Option<Class>
    ensures { result ≡ spec.class_of (piece_view piece.now) }
{
    match piece {
        Piece::Instance(_, element) => class_named(element.name.as_str()),
        _ => None,
    }
}

/// A further piece stands behind so many nodes.
fn push_node(desk: &mut Desk, node: usize) -> Result<(), AllocError>
    ensures ok { OnOk result (desk.new.nodes.items ≡ desk.old.nodes.items ++ (node ∷ [])) }
    ensures others { desk.new ≡ record desk.old { nodes = desk.new.nodes } }
{
    desk.nodes.push(node)?;
    Ok(())
}

/// An include as a piece of its document.
#[cycle(walk)]
fn read_included<F: Shelf>(
    alloc: Global,
    shelf: &mut F,
    here: &Open<'_>,
    before: &[Piece<'_>],
    seat: Seat,
    rank: usize,
    element: &Element,
    desk: &mut Desk,
    course: &mut Course,
) -> Result<(), FetchError>
    requires around { length here.now.around.items ≤ 17 }
    requires rank { rank ≡ rank_in (shown before.now) (owner_in seat) }
    ensures held { F.held shelf.new ≡ F.held shelf.old }
    ensures cause { HasCause Failed (F.faults shelf.old) (F.faults shelf.new) result }
    ensures done { (files : Files) → F.held shelf.old ≡ Some files → (room : ℕ) → OnOk result (IsPieceRead files
        (open_view here.now) room (desk_view (shown before.now) desk.old) (course_view course.old)
        (Include seat (head_of element.now))
        (desk_view (shown before.now ++ Include seat (head_of element.now) ∷ []) desk.new) (course_view course.new)) }
{
    let node = course.classes.len();
    read_include(
        alloc, shelf, here, before, seat, rank, element, desk, course,
    )?;
    Ok(push_node(desk, node)?)
}

#[cycle(walk)]
fn read_include<F: Shelf>(
    alloc: Global,
    shelf: &mut F,
    here: &Open<'_>,
    before: &[Piece<'_>],
    seat: Seat,
    rank: usize,
    element: &Element,
    desk: &mut Desk,
    course: &mut Course,
) -> Result<(), FetchError>
    requires around { length here.now.around.items ≤ 17 }
    requires rank { rank ≡ rank_in (shown before.now) (owner_in seat) }
    ensures held { F.held shelf.new ≡ F.held shelf.old }
    ensures cause { HasCause Failed (F.faults shelf.old) (F.faults shelf.new) result }
    ensures kept { desk.new ≡ record desk.old { names = desk.new.names } }
    ensures done { (files : Files) → F.held shelf.old ≡ Some files → OnOk result (IsIncludeRead files
        (open_view here.now) (desk_view (shown before.now) desk.old) (course_view course.old) seat
        (head_of element.now) (known desk.new.names) (course_view course.new)) }
{
    let place = place_in(here.file, element.position);
    match asked_of(alloc, here, seat, element, course.files.len())? {
        Asked::Misplaced(flaw) => Ok(add_flaw(course, place, flaw)?),
        Asked::Refused(flaw, source) => {
            let stand = include_stand(here, before, desk.nodes.as_slice(), seat, rank);
            add_room(course, place, stand)?;
            Ok(add_flaw(course, place_in(here.file, source), flaw)?)
        }
        Asked::Wanted(target) => {
            let stand = include_stand(here, before, desk.nodes.as_slice(), seat, rank);
            add_room(course, place, stand)?;
            read_wanted(alloc, shelf, here, stand, element, target, desk, course)
        }
    }
}

/// Where the root of an included document comes to stand.
fn include_stand(
    here: &Open<'_>,
    before: &[Piece<'_>],
    nodes: &[usize],
    seat: Seat,
    rank: usize,
) -> Stand
    requires { rank ≡ rank_in (shown before.now) (owner_in seat) }
    ensures { result ≡ spec.stand_in (open_view here.now) (stand_at (shown before.now) nodes.now seat) }
{
    stand_in(here, stand_at(before, nodes, seat, rank))
}

fn stand_in(here: &Open<'_>, stand: Stand) -> Stand
    ensures { result ≡ spec.stand_in (open_view here.now) stand }
{
    match stand {
        Stand::Root => here.stand,
        other => other,
    }
}

/// Before a document is fetched there has to be room for its root.
fn add_room(course: &mut Course, place: Place, stand: Stand) -> Result<(), AllocError>
    ensures ok { OnOk result (course_view course.new ≡ spec.with_room (course_view course.old) place stand) }
{
    match stand {
        Stand::Below(owner, _) => add_task(course, place, Doing::Room(owner)),
        _ => Ok(()),
    }
}

/// The document that an include asks for, whose root comes to stand there.
#[cycle(walk)]
fn read_wanted<F: Shelf>(
    alloc: Global,
    shelf: &mut F,
    here: &Open<'_>,
    stand: Stand,
    element: &Element,
    target: Str,
    desk: &mut Desk,
    course: &mut Course,
) -> Result<(), FetchError>
    requires around { length here.now.around.items ≤ 16 }
    requires few { length course.old.files.items < 63 }
    ensures held { F.held shelf.new ≡ F.held shelf.old }
    ensures cause { HasCause Failed (F.faults shelf.old) (F.faults shelf.new) result }
    ensures kept { desk.new ≡ record desk.old { names = desk.new.names } }
    ensures done { (files : Files) → F.held shelf.old ≡ Some files → (before : List PlainPiece) → OnOk result
        (IsWantedRead files (open_view here.now) (desk_view before desk.old) stand (course_view course.old)
        (head_of element.now) target (known desk.new.names) (course_view course.new)) }
{
    let file = course.files.len();
    add_file(course, target.copy(alloc)?)?;
    match fetch_document(alloc, shelf, file, target.as_str()) {
        Ok(document) => read_inner(
            alloc,
            shelf,
            here,
            stand,
            file as u32,
            target.as_str(),
            element,
            &document,
            desk,
            course,
        ),
        Err(error) => keep_fault(file as u32, error, course),
    }
}

/// The fault of a file that was fetched, or why it gave nothing.
fn keep_fault(file: u32, error: LoadError<'_>, course: &mut Course) -> Result<(), FetchError>
    ensures { IsFaultKept file error.entry (course_view course.old) (course_view course.new) result }
{
    match error {
        LoadError::Fault(fault) => Ok(add_fault_in(course, file, &fault)?),
        LoadError::Failed => Err(FetchError::Failed),
        LoadError::Memory => Err(FetchError::Memory),
    }
}

/// The document of an include, in the file of this number and name.
#[cycle(walk)]
fn read_inner<'x, F: Shelf>(
    alloc: Global,
    shelf: &mut F,
    here: &Open<'_>,
    stand: Stand,
    file: u32,
    target: &'x str,
    element: &Element,
    document: &'x Document,
    desk: &mut Desk,
    course: &mut Course,
) -> Result<(), FetchError>
    requires { length here.now.around.items ≤ 16 }
    ensures held { F.held shelf.new ≡ F.held shelf.old }
    ensures cause { HasCause Failed (F.faults shelf.old) (F.faults shelf.new) result }
    ensures kept { desk.new ≡ record desk.old { names = desk.new.names } }
    ensures done { (files : Files) → F.held shelf.old ≡ Some files → (before : List PlainPiece) → OnOk result
        (IsInnerRead files (open_view here.now) (desk_view before desk.old) stand file target.now
        (course_view course.old) (head_of element.now) (reading document.now) (known desk.new.names)
        (course_view course.new)) }
{
    let node = course.classes.len();
    let path = inner_path(alloc, here, &desk.names, element.attributes.as_slice())?;
    let around = around_with(alloc, here.around.as_slice(), target)?;
    let inner = Open {
        file,
        name: target,
        imports: document.imports.as_slice(),
        around,
        path,
        stand,
    };
    read_whole(alloc, shelf, &inner, document, course)?;
    read_root(alloc, shelf, here, node, file, element, desk, course)
}

/// What the attributes of an include ask for of the node of this ordinal, which is the root of the document in the file
/// of this number.
fn read_root<F: Shelf>(
    alloc: Global,
    shelf: &mut F,
    here: &Open<'_>,
    node: usize,
    file: u32,
    element: &Element,
    desk: &mut Desk,
    course: &mut Course,
) -> Result<(), FetchError>
    ensures held { F.held shelf.new ≡ F.held shelf.old }
    ensures cause { HasCause Failed (F.faults shelf.old) (F.faults shelf.new) result }
    ensures kept { desk.new ≡ record desk.old { names = desk.new.names } }
    ensures names { OnOk result (known desk.new.names ≡ spec.root_names (known desk.old.names) node file
        (head_of element.now).attributes (slice_get course.old.classes.items node)) }
    ensures done { (files : Files) → F.held shelf.old ≡ Some files → (before : List PlainPiece) → OnOk result
        (AreActsDone files (open_view here.now) (course_view course.old)
        (spec.include_acts (open_view here.now) (desk_view before desk.old) (course_view course.old) node
        (head_of element.now)) (course_view course.new)) }
{
    match class_at(course.classes.as_slice(), node) {
        Some(class) => read_root_of(alloc, shelf, here, node, file, class, element, desk, course),
        None => Ok(()),
    }
}

fn class_at(classes: &[Class], node: usize) -> Option<Class>
    ensures { result ≡ slice_get classes.now node }
{
    match classes.get(node) {
        Some(class) => Some(*class),
        None => None,
    }
}

fn read_root_of<F: Shelf>(
    alloc: Global,
    shelf: &mut F,
    here: &Open<'_>,
    node: usize,
    file: u32,
    class: Class,
    element: &Element,
    desk: &mut Desk,
    course: &mut Course,
) -> Result<(), FetchError>
    ensures held { F.held shelf.new ≡ F.held shelf.old }
    ensures cause { HasCause Failed (F.faults shelf.old) (F.faults shelf.new) result }
    ensures kept { desk.new ≡ record desk.old { names = desk.new.names } }
    ensures names { OnOk result (known desk.new.names ≡ spec.root_names (known desk.old.names) node file
        (head_of element.now).attributes (Some class)) }
    ensures done { (files : Files) → F.held shelf.old ≡ Some files → (before : List PlainPiece) → OnOk result
        (AreActsDone files (open_view here.now) (course_view course.old)
        (spec.root_acts_if (open_view here.now) (desk_view before desk.old) (course_view course.old) node
        (head_of element.now) (Some class)) (course_view course.new)) }
{
    let attributes = element.attributes.as_slice();
    let scope = scope_in(here, &[]);
    let given = has_id(course, node);
    let mut acts = Vec::new(alloc);
    add_root_attributes(
        alloc,
        &scope,
        &desk.names,
        class,
        node,
        given,
        attributes,
        &mut acts,
    )?;
    do_acts(alloc, shelf, here, acts, course)?;
    let named = Named {
        node,
        class,
        inside: Some(file),
    };
    Ok(add_named(alloc, attributes, named, &mut desk.names)?)
}
