//! A frame: the looks and the layout that are kept, brought up to the scene, and its picture, whole or by edits of the
//! last one.
ghost use Rattle.std.specs.Prelude.{◌≡◌, ◌↔◌, ◌≤◌, ◌+◌, ◌*◌, ℕ, false, true, IfOk, IfSome, IsTrue, OnOk, Option as Maybe, Some, length};
ghost use Rattle.fx_layout.specs.Layouts.{IsLayout};
ghost use Rattle.fx_layout.specs.Updates.{rect_at, root_size};
ghost use Rattle.fx_layout_sweeps.specs.Nodes.{IsTree, parents};
ghost use Rattle.fx_pulse_kept.specs.Costs.{AreFew};
ghost use Rattle.fx_pulse_kept.specs.Keeping.{AreOf};
ghost use Rattle.fx_pulse_model.specs.Frames.{IsFrame};
ghost use Rattle.fx_pulse_model.specs.Pictures.{IsPicture, is_disabled, shows};
ghost use Rattle.fx_pulse_model.specs.Scenes.{IsScene, Scene as SceneValue, looks_of};
ghost use Rattle.fx_pulse_touched.specs.Marks.{told};
ghost use Rattle.fx_pulse_touched.specs.Sights.{scene_of, seen};
ghost use Rattle.fx_pulse_touched.specs.Touched.{AreTouched, IsOfShape, IsUntouched};
ghost use Rattle.fx_pulse.specs.Drawing.{drawn};
ghost use Rattle.fx_pulse.specs.Editing.{AreLast, IsEditable, IsOfSize, IsOver, IsShownScene, IsSince, IsWhole, entries_after};
ghost use Rattle.fx_shapes.specs.Rects.{IsNear};

use crate::copies::copied;
use crate::edit_lists::Edits;
use crate::edits::{Last, edits_of};
use crate::entries::{Laid, Notes, picture_of};
use crate::flags::{disabled_flags, shown_flags};
use fx_base::{Ledgers, Rect, Work};
use fx_damage::Edit;
use fx_picture::Picture;
use fx_pulse_kept::{Brought, KeptScene};
use fx_pulse_touched::{Compared, Scene, SceneLists};
use std::alloc::{AllocError, Global};

/// The next picture.
#[derive(Drop)]
pub(crate) enum Next {
    Whole(Picture),
    /// Edits that make it of the last one.
    Edited(Edits),
}

/// The frame before: its size in pixels, and whether each node of its scene shows.
#[derive(Clone, Copy)]
pub(crate) struct Before<'a> {
    pub width: u32,
    pub height: u32,
    pub shown: &'a [bool],
}

/// What was shown last: the frame, if it is of the scene that is kept, and its picture.
#[derive(Clone, Copy)]
pub(crate) struct Past<'a> {
    pub frame: Option<Before<'a>>,
    pub picture: &'a Picture,
}

/// A scene that was compared with the last one.
#[derive(Drop)]
pub(crate) struct Following {
    pub scene: SceneLists,
    pub compared: Compared,
}

/// What is made of a scene: the size of its window in pixels, the rectangle of each node, whether each shows, and the
/// picture.
#[derive(Drop)]
pub(crate) struct Made {
    pub width: u32,
    pub height: u32,
    pub rects: Vec<Rect>,
    pub shown: Vec<bool>,
    pub next: Next,
}

/// The frame of a scene, in a window or in one as large as its root, by what is kept of the last scene, which this one
/// becomes. Where the frame before it shows the last scene, is as large, and the nodes hang and show as they did, its
/// picture is edited: entries are made for the nodes that were measured anew, that stand elsewhere, or that are
/// disabled where they weren't or the other way round.
pub(crate) fn made_of<L: Ledgers>(
    alloc: Global,
    following: Following,
    window: Option<(u32, u32)>,
    kept: &mut KeptScene,
    past: Past<'_>,
    gone: &mut Vec<Edit>,
    work: &mut Work<L>,
) -> Result<Made, AllocError>
    requires scene { IsScene (scene_of following.scene) }
    requires touched { AreTouched kept.old.last (scene_of following.scene) following.compared.touched.styles.items
        following.compared.touched.boxes.items }
    requires shape { IsTrue following.compared.has_shape → IsOfShape kept.old.last (scene_of following.scene) }
    requires before { IfSome past.frame (λ b. (last : SceneValue) → kept.old.last ≡ Some last
        → IsShownScene last past.picture.now.entries b.shown.now) }
    ensures frame { IfOk result (λ made. IsFrame (scene_of following.scene) window made.width made.height
        made.rects.items (entries_after made.next past.entry.picture.now.entries)) }
    ensures over { IfOk result (λ made. IsOver past.entry.picture.now.entries made.next) }
    ensures same_size { IfOk result (λ made. IsOfSize past.entry.frame made.width made.height made.next) }
    ensures shown { IfOk result (λ made. IsShownScene (scene_of following.scene)
        (entries_after made.next past.entry.picture.now.entries) made.shown.items) }
    ensures size { IfOk result (λ made. root_size kept.new.layout ≡ (made.width, made.height)) }
    ensures last { OnOk result (kept.new.last ≡ Some (scene_of following.scene)) }
    ensures placed { OnOk result (IsLayout following.scene.boxes (looks_of (scene_of following.scene)) window
        kept.new.layout) }
    ensures evaluated { OnOk result (work.new.evaluated ≡ work.old.evaluated) }
    ensures painted { OnOk result (work.new.painted ≡ work.old.painted) }
    ensures few { OnOk result (AreFew kept.old.last (scene_of following.scene) kept.old.layout kept.new.layout
        work.old.styled work.new.styled work.old.laid work.new.laid) }
    ensures still { OnOk result (IsUntouched kept.old.last (scene_of following.scene)
        → root_size kept.old.layout ≡ root_size kept.new.layout
        → (work.new.styled ≤ work.old.styled) × (work.new.laid ≤ work.old.laid)) }
    ensures styled { OnOk result (work.new.styled ≤ work.old.styled + length following.scene.styles) }
    ensures laid { OnOk result (work.new.laid ≤ work.old.laid + 7 * length following.scene.boxes) }
{
    let Following { scene, compared } = following;
    let past = Past {
        frame: frame_since(past.frame, compared.has_shape),
        picture: past.picture,
    };
    let brought = kept.update(alloc, scene.scene(), compared.touched, window, work)?;
    let made = made_by(alloc, scene.scene(), brought, kept, past, gone)?;
    kept.keep(scene);
    Ok(made)
}

/// The frame before, if the nodes of this one are those that it showed and hang as they did.
fn frame_since(frame: Option<Before<'_>>, has_shape: bool) -> Option<Before<'_>>
    ensures { IfSome result (λ before. (frame.entry ≡ Some before) × IsTrue has_shape) }
{
    if has_shape {
        return frame;
    }
    None
}

/// The frame of a scene up to which all that is kept was brought.
fn made_by(
    alloc: Global,
    scene: Scene<'_>,
    brought: Brought,
    kept: &KeptScene,
    past: Past<'_>,
    gone: &mut Vec<Edit>,
) -> Result<Made, AllocError>
    requires looks { kept.now.styles.looks ≡ looks_of (seen scene) }
    requires kept { AreOf (seen scene) kept.now.styles kept.now.layout }
    requires size { brought.size ≡ root_size kept.now.layout }
    requires since { IsSince past.frame past.picture.now.entries (seen scene) brought.marks.items }
    ensures frame { (window : Maybe (ℕ × ℕ))
        → IsLayout scene.entry.boxes.now (looks_of (seen scene.entry)) window kept.now.layout
        → IfOk result (λ made. IsFrame (seen scene.entry) window made.width made.height made.rects.items
        (entries_after made.next past.entry.picture.now.entries)) }
    ensures over { IfOk result (λ made. IsOver past.entry.picture.now.entries made.next) }
    ensures same_size { IfOk result (λ made. IsOfSize past.entry.frame made.width made.height made.next) }
    ensures shown { IfOk result (λ made. IsShownScene (seen scene.entry)
        (entries_after made.next past.entry.picture.now.entries) made.shown.items) }
    ensures size { IfOk result (λ made. root_size kept.now.layout ≡ (made.width, made.height)) }
{
    let (width, height) = brought.size;
    let laid = Laid {
        boxes: scene.boxes,
        looks: kept.looks(),
        rects: kept.rects(),
        disabled: scene.disabled,
    };
    let shown = shown_flags(alloc, laid)?;
    let disabled = disabled_flags(alloc, laid)?;
    let notes = Notes {
        shown: shown.as_slice(),
        disabled: disabled.as_slice(),
    };
    let last = Last {
        entries: past.picture.entries.as_slice(),
        marks: brought.marks.as_slice(),
    };
    let edits = can_be_edited(past.frame, width, height, notes.shown);
    let next = next_picture(alloc, laid, notes, last, edits, gone)?;
    let rects = copied(alloc, kept.rects())?;
    Ok(Made {
        width,
        height,
        rects,
        shown,
        next,
    })
}

/// Can the picture be made by edits: is there a frame before it, as large as it, in which the same nodes show?
fn can_be_edited(before: Option<Before<'_>>, width: u32, height: u32, shown: &[bool]) -> bool
    ensures { IsTrue result → IsEditable before.entry width height shown.now }
{
    match before {
        None => false,
        Some(frame) => is_like(frame, width, height, shown),
    }
}

fn is_like(frame: Before<'_>, width: u32, height: u32, shown: &[bool]) -> bool
    ensures { IsTrue result → (frame.entry.width ≡ width) × (frame.entry.height ≡ height)
        × (frame.entry.shown.now ≡ shown.now) }
{
    frame.width == width && frame.height == height && are_same(frame.shown, shown)
}

fn are_same(flags: &[bool], others: &[bool]) -> bool
    ensures { IsTrue result ↔ (flags.now ≡ others.now) }
{
    flags == others
}

/// The next picture, by edits of the last one in the memory of those that are gone, or whole.
fn next_picture(
    alloc: Global,
    laid: Laid<'_>,
    notes: Notes<'_>,
    last: Last<'_>,
    edits: bool,
    gone: &mut Vec<Edit>,
) -> Result<Next, AllocError>
    requires tree { IsTree (parents laid.boxes.now) }
    requires few { length laid.boxes.now ≤ 4096 }
    requires looks { length laid.looks.now ≡ length laid.boxes.now }
    requires rects { length laid.rects.now ≡ length laid.boxes.now }
    requires near { (k : ℕ) → IsNear (rect_at laid.rects.now k) }
    requires shown { notes.shown.now ≡ told (shows (drawn laid)) (length laid.boxes.now) }
    requires disabled { notes.disabled.now ≡ told (is_disabled (drawn laid)) (length laid.boxes.now) }
    requires last { edits ≡ true → AreLast (drawn laid) last.marks.now last.entries.now }
    ensures picture { IfOk result (λ next. IsPicture (drawn laid.entry) (entries_after next last.entry.entries.now)) }
    ensures over { IfOk result (λ next. IsOver last.entry.entries.now next) }
    ensures whole { edits ≡ false → IfOk result IsWhole }
{
    if edits {
        return Ok(Next::Edited(edits_of(alloc, laid, notes, last, gone)?));
    }
    Ok(Next::Whole(picture_of(alloc, laid, notes)?))
}
