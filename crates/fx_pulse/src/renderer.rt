//! Frame by frame.
ghost use Rattle.std.specs.Prelude.{ℕ, ◌≡◌, ◌≤◌, ◌<◌, ◌+◌, ◌*◌, length, [], None, Some, true, false, IfOk, IfSome, IsTrue, OnErr, OnOk, is_some};
ghost use Rattle.std.specs.List.{list_all, sum_by};
ghost use Rattle.std.specs.Option.{option_copied};
ghost use Rattle.fx_canvas.specs.Painting.{most_writes};
ghost use Rattle.fx_canvas.specs.Surfaces.{is_size, lies_in, row_at};
ghost use Rattle.fx_canvas_laws.specs.Frames.{IsRepainted, Shows};
ghost use Rattle.fx_picture.specs.Entries.{HasDistinctBirths, Rises};
ghost use Rattle.fx_damage.specs.Damage.{damage as damage_of};
ghost use Rattle.fx_layout.specs.Layouts.{IsLayout};
ghost use Rattle.fx_layout.specs.Updates.{root_size};
ghost use Rattle.fx_pulse_kept.specs.Costs.{AreFew};
ghost use Rattle.fx_pulse_kept.specs.Keeping.{no_layout};
ghost use Rattle.fx_pulse_model.specs.Frames.{IsFrame, frame_damage, has_size};
ghost use Rattle.fx_pulse_model.specs.Scenes.{IsScene, Scene as SceneValue, looks_of};
ghost use Rattle.fx_pulse_touched.specs.Sights.{scene_of};
ghost use Rattle.fx_pulse_touched.specs.Touched.{IsUntouched};
ghost use Rattle.fx_pulse.specs.Editing.{IsOver, IsShownScene, IsWhole, entries_after};
ghost use Rattle.fx_pulse.specs.Rendering.{IsDrawn, IsDrawnBefore, IsShown, last_frame, surface_of};
ghost use Rattle.fx_pulse.specs.Showing.{IsShowing};
ghost use Rattle.fx_row_text.specs.Rows.{row_text};

use crate::frames::{Before, Following, Made, Past, made_of};
use crate::pictures::{damage_by, follow, whole};
use fx_base::{Ledgers, Rect, Work};
use fx_canvas::Canvas;
use fx_damage::{Edit, damage};
use fx_picture::Picture;
use fx_pulse_kept::KeptScene;
use fx_pulse_touched::SceneLists;
use std::alloc::{AllocError, Global};
use std::marker::Model;

/// What is kept from one frame to the next: the last picture, the canvas that shows it, where each node of its scene
/// stood, and the looks and the layout of the last scene. Before the first frame the picture is empty and there is no
/// canvas.
#[derive(Drop)]
pub struct Renderer {
    picture: Picture,
    canvas: Option<Canvas>,
    rects: Vec<Rect>,
    kept: KeptScene,
    /// How the picture was drawn, unless it isn't that of the scene that is kept.
    drawn: Option<Drawing>,
    /// Edits that are gone: only their memory serves again.
    gone: Vec<Edit>,
}

/// The window in which a picture was drawn, and whether each node of its scene shows.
#[derive(Drop)]
struct Drawing {
    window: Option<(u32, u32)>,
    shown: Vec<bool>,
}

impl Model for Renderer {
    ghost use Rattle.fx_pulse.specs.Rendering.{IsCurrent, IsShown, Rendering};

    ghost Value = { Rendering };

    ghost view = { λ r. record {
      canvas = r.canvas;
      picture = r.picture.entries;
      rects = r.rects.items;
      kept = r.kept;
    } };

    ghost invariant = { λ r. let shown : Rendering = record {
      canvas = r.canvas;
      picture = r.picture.entries;
      rects = r.rects.items;
      kept = r.kept;
    } in IsShown shown × IsCurrent r.drawn shown };
}

/// The size of a frame in pixels, and the rectangles outside which it shows what the last one did.
#[derive(Drop)]
pub struct Frame {
    pub width: u32,
    pub height: u32,
    pub damage: Vec<Rect>,
}

impl Renderer {
    /// Nothing was shown.
    pub fn new(alloc: Global) -> Renderer
        ensures canvas { result.canvas ≡ None }
        ensures picture { result.picture ≡ [] }
        ensures rects { result.rects ≡ [] }
        ensures last { result.kept.last ≡ None }
        ensures layout { result.kept.layout ≡ no_layout }
    {
        Renderer {
            picture: Picture::new(alloc),
            canvas: None,
            rects: Vec::new(alloc),
            kept: KeptScene::new(alloc),
            drawn: None,
            gone: Vec::new(alloc),
        }
    }

    /// Makes the frame of a scene and shows it: the frame that the scene has from nothing. `window` is the size of the
    /// window in pixels; without one it is as large as the root, which has its preferred size. Only nodes that were
    /// touched since the last frame are styled anew, with all below them, and measured, with all above them; the
    /// facts and the sheets are compared with those of the last scene for that. In a window as large as the last one,
    /// where the same nodes show, the last picture is edited: entries are made of those nodes alone, and of those that
    /// stand elsewhere, and the damage is found from these. The last scene in the last window leaves all as it is.
    /// The scene is kept, and `take_spare` hands out the memory of one that was kept before. After want of memory the
    /// last picture still shows, and the next frame may be made afresh.
    pub fn pulse<L: Ledgers>(
        &mut self,
        alloc: Global,
        scene: SceneLists,
        window: Option<(u32, u32)>,
        work: &mut Work<L>,
    ) -> Result<Frame, AllocError>
        requires scene { IsScene (scene_of scene) }
        requires window { IfSome window (λ size. is_size size.0 size.1 ≡ true) }
        ensures frame { IfOk result (λ frame. IsFrame (scene_of scene) window frame.width frame.height
            self.new.rects self.new.picture) }
        ensures damage { IfOk result (λ frame. frame.damage.items
            ≡ frame_damage (last_frame self.old) self.new.picture frame.width frame.height) }
        ensures width { IfOk result (λ frame. (surface_of self.new.canvas).width ≡ frame.width) }
        ensures height { IfOk result (λ frame. (surface_of self.new.canvas).height ≡ frame.height) }
        ensures pixels { OnOk result (Shows (surface_of self.new.canvas) self.new.picture) }
        ensures err { OnErr result (self.new ≡ record self.old { kept = self.new.kept }) }
        ensures last { OnOk result (self.new.kept.last ≡ Some (scene_of scene)) }
        ensures size { IfOk result (λ frame. root_size self.new.kept.layout ≡ (frame.width, frame.height)) }
        ensures placed { OnOk result (IsLayout scene.boxes (looks_of (scene_of scene)) window
            self.new.kept.layout) }
        ensures evaluated { OnOk result (work.new.evaluated ≡ work.old.evaluated) }
        ensures few { OnOk result (AreFew self.old.kept.last (scene_of scene) self.old.kept.layout
            self.new.kept.layout work.old.styled work.new.styled work.old.laid work.new.laid) }
        ensures still { OnOk result (IsUntouched self.old.kept.last (scene_of scene)
            → root_size self.old.kept.layout ≡ root_size self.new.kept.layout
            → (work.new.styled ≤ work.old.styled) × (work.new.laid ≤ work.old.laid)) }
        ensures styled { OnOk result (work.new.styled ≤ work.old.styled + length scene.styles) }
        ensures laid { OnOk result (work.new.laid ≤ work.old.laid + 7 * length scene.boxes) }
        ensures painted { IfOk result (λ frame. work.new.painted
            ≤ work.old.painted + sum_by (most_writes self.new.picture) frame.damage.items) }
    {
        let compared = self.kept.compared(alloc, scene.scene())?;
        if self.stands_still(compared.is_last, window) {
            self.kept.spare(scene);
            return Ok(self.still_frame(alloc));
        }
        let drawn = self.drawn.take();
        let past = Past {
            frame: frame_before(&drawn, &self.canvas),
            picture: &self.picture,
        };
        let made = made_of(
            alloc,
            Following { scene, compared },
            window,
            &mut self.kept,
            past,
            &mut self.gone,
            work,
        )?;
        if self.has_size(made.width, made.height) {
            self.show_next(alloc, made, window, work)
        } else {
            self.show_first(alloc, made, window, work)
        }
    }

    /// The last frame again, in which nothing is damaged, if its scene was drawn in this window. No scene is looked at:
    /// what is said holds where the present one is the last one.
    pub fn again(&self, alloc: Global, window: Option<(u32, u32)>) -> Option<Frame>
        ensures frame { IfSome result (λ frame. (scene : SceneValue) → self.now.kept.last ≡ Some scene
            → IsFrame scene window frame.width frame.height self.now.rects self.now.picture) }
        ensures placed { IfSome result (λ frame. (scene : SceneValue) → self.now.kept.last ≡ Some scene
            → IsLayout scene.boxes (looks_of scene) window self.now.kept.layout) }
        ensures damage { IfSome result (λ frame. is_size frame.width frame.height ≡ true
            → frame.damage.items ≡ frame_damage (last_frame self.now) self.now.picture frame.width frame.height) }
        ensures width { IfSome result (λ frame. (surface_of self.now.canvas).width ≡ frame.width) }
        ensures height { IfSome result (λ frame. (surface_of self.now.canvas).height ≡ frame.height) }
        ensures few { IfSome result (λ frame. (scene : SceneValue) (styled laid : ℕ) → self.now.kept.last ≡ Some scene
            → AreFew self.now.kept.last scene self.now.kept.layout self.now.kept.layout styled styled laid laid) }
    {
        if !self.is_drawn_in(window) {
            return None;
        }
        Some(self.still_frame(alloc))
    }

    /// Does the frame stay as it is: is this the last scene again, in the window in which it was drawn?
    fn stands_still(&self, is_last: bool, window: Option<(u32, u32)>) -> bool
        ensures last { IsTrue result → IsTrue is_last }
        ensures drawn { IsTrue result → (scene : SceneValue) → self.now.kept.last ≡ Some scene
            → IsDrawn self.now scene window }
    {
        is_last && self.is_drawn_in(window)
    }

    /// Was the last scene drawn in this window?
    fn is_drawn_in(&self, window: Option<(u32, u32)>) -> bool
        ensures { IsTrue result → (scene : SceneValue) → self.now.kept.last ≡ Some scene
            → IsDrawn self.now scene window }
    {
        match &self.drawn {
            None => false,
            Some(last) => is_same_window(last.window, window),
        }
    }

    /// The last frame again, in which nothing is damaged.
    fn still_frame(&self, alloc: Global) -> Frame
        ensures width { result.width ≡ (surface_of self.now.canvas).width }
        ensures height { result.height ≡ (surface_of self.now.canvas).height }
        ensures damage { result.damage.items ≡ [] }
    {
        let (width, height) = match &self.canvas {
            Some(canvas) => (canvas.width(), canvas.height()),
            None => (0, 0),
        };
        Frame {
            width,
            height,
            damage: Vec::new(alloc),
        }
    }

    /// What is true at all times: the canvas shows the last picture, whose entries rise by their paths and have
    /// different birth numbers.
    pub fn laws(&self)
        ensures { IsShown self.now }
    {
        let _picture = &self.picture;
    }

    /// Lists of an earlier scene, on which nothing hangs any more: their memory serves again.
    pub fn take_spare(&mut self, alloc: Global) -> SceneLists
        ensures { self.new ≡ self.old }
    {
        self.kept.take_spare(alloc)
    }

    /// What is kept of the last scene.
    pub fn kept(&self) -> &KeptScene
        ensures { result.now ≡ self.now.kept }
    {
        &self.kept
    }

    /// The last picture.
    pub fn picture(&self) -> &Picture
        ensures { result.now.entries ≡ self.now.picture }
    {
        &self.picture
    }

    /// The canvas that shows the last picture, if there was a frame.
    pub fn canvas(&self) -> Option<&Canvas>
        ensures { option_copied result ≡ self.now.canvas }
    {
        self.canvas.as_ref()
    }

    /// The rectangle of each node of the last scene in the window, in its order, in pixels.
    pub fn rects(&self) -> &[Rect]
        ensures { result.now ≡ self.now.rects }
    {
        self.rects.as_slice()
    }

    /// The pixels of a row of the window, each 0x00RRGGBB, counted from the top.
    pub fn row(&self, y: u32) -> &[u32]
        requires { y < (surface_of self.now.canvas).height }
        ensures { result.now ≡ (row_at (surface_of self.now.canvas).rows y).pixels }
    {
        match &self.canvas {
            Some(canvas) => canvas.row(y),
            None => &[],
        }
    }

    /// Prints each row whose text is out of date. Want of memory leaves some so, and nothing else.
    pub fn refresh(&mut self) -> Result<(), AllocError>
        ensures fresh { OnOk result ((y : ℕ) → y < (surface_of self.new.canvas).height
            → (row_at (surface_of self.new.canvas).rows y).stale ≡ false) }
        ensures pixels { (y : ℕ) → (row_at (surface_of self.new.canvas).rows y).pixels
            ≡ (row_at (surface_of self.old.canvas).rows y).pixels }
        ensures width { (surface_of self.new.canvas).width ≡ (surface_of self.old.canvas).width }
        ensures height { (surface_of self.new.canvas).height ≡ (surface_of self.old.canvas).height }
        ensures some { is_some self.new.canvas ≡ is_some self.old.canvas }
        ensures picture { self.new.picture ≡ self.old.picture }
        ensures rects { self.new.rects ≡ self.old.rects }
        ensures kept { self.new.kept ≡ self.old.kept }
    {
        match &mut self.canvas {
            Some(canvas) => canvas.refresh(),
            None => Ok(()),
        }
    }

    /// The text of a row, six hexadecimal digits a pixel, with a line feed.
    pub fn text(&self, y: u32) -> &[u8]
        requires within { y < (surface_of self.now.canvas).height }
        requires fresh { (row_at (surface_of self.now.canvas).rows y).stale ≡ false }
        ensures { result.now ≡ row_text (row_at (surface_of self.now.canvas).rows y).pixels }
    {
        match &self.canvas {
            Some(canvas) => canvas.text(y),
            None => &[],
        }
    }

    /// Has the last frame this size?
    fn has_size(&self, width: u32, height: u32) -> bool
        ensures { result ≡ has_size (last_frame self.now) width height }
    {
        match &self.canvas {
            Some(canvas) => canvas.width() == width && canvas.height() == height,
            None => false,
        }
    }

    /// Shows a frame in the window of the last one.
    fn show_next<L: Ledgers>(
        &mut self,
        alloc: Global,
        made: Made,
        window: Option<(u32, u32)>,
        work: &mut Work<L>,
    ) -> Result<Frame, AllocError>
        requires size { has_size (last_frame self.old) made.width made.height ≡ true }
        requires over { IsOver self.old.picture made.next }
        requires rises { Rises (entries_after made.next self.old.picture) }
        requires births { HasDistinctBirths (entries_after made.next self.old.picture) }
        requires drawn { IfSome self.old.kept.last (λ scene. IsFrame scene window made.width made.height
            made.rects.items (entries_after made.next self.old.picture)) }
        requires shown { IfSome self.old.kept.last (λ scene.
            IsShownScene scene (entries_after made.next self.old.picture) made.shown.items) }
        requires root { root_size self.old.kept.layout ≡ (made.width, made.height) }
        requires placed { IfSome self.old.kept.last (λ scene.
            IsLayout scene.boxes (looks_of scene) window self.old.kept.layout) }
        ensures frame { IfOk result (λ frame. IsShowing made self.old self.new frame) }
        ensures err { OnErr result (self.new ≡ self.old) }
        ensures work { OnOk result (work.new ≡ record work.old { painted = work.new.painted }) }
        ensures painted { IfOk result (λ frame. work.new.painted
            ≤ work.old.painted + sum_by (most_writes self.new.picture) frame.damage.items) }
    {
        let Made {
            width,
            height,
            rects,
            shown,
            next,
        } = made;
        let damage = damage_by(alloc, &self.picture, &next, width, height)?;
        follow(alloc, &mut self.picture, next, &mut self.gone);
        repaint_in(&mut self.canvas, &self.picture, damage.as_slice(), work);
        self.rects = rects;
        self.drawn = Some(Drawing { window, shown });
        Ok(Frame {
            width,
            height,
            damage,
        })
    }

    /// Shows a frame in a window of another size, or the first one.
    fn show_first<L: Ledgers>(
        &mut self,
        alloc: Global,
        made: Made,
        window: Option<(u32, u32)>,
        work: &mut Work<L>,
    ) -> Result<Frame, AllocError>
        requires size { is_size made.width made.height ≡ true }
        requires other { has_size (last_frame self.old) made.width made.height ≡ false }
        requires whole { IsWhole made.next }
        requires rises { Rises (entries_after made.next self.old.picture) }
        requires births { HasDistinctBirths (entries_after made.next self.old.picture) }
        requires drawn { IfSome self.old.kept.last (λ scene. IsFrame scene window made.width made.height
            made.rects.items (entries_after made.next self.old.picture)) }
        requires shown { IfSome self.old.kept.last (λ scene.
            IsShownScene scene (entries_after made.next self.old.picture) made.shown.items) }
        requires root { root_size self.old.kept.layout ≡ (made.width, made.height) }
        requires placed { IfSome self.old.kept.last (λ scene.
            IsLayout scene.boxes (looks_of scene) window self.old.kept.layout) }
        ensures frame { IfOk result (λ frame. IsShowing made self.old self.new frame) }
        ensures err { OnErr result (self.new ≡ self.old) }
        ensures work { OnOk result (work.new ≡ record work.old { painted = work.new.painted }) }
        ensures painted { IfOk result (λ frame. work.new.painted
            ≤ work.old.painted + sum_by (most_writes self.new.picture) frame.damage.items) }
    {
        let Made {
            width,
            height,
            rects,
            shown,
            next,
        } = made;
        let picture = whole(next);
        let damage = damage(alloc, None, &picture, width, height)?;
        let canvas = painted(alloc, &picture, width, height, damage.as_slice(), work)?;
        self.picture = picture;
        self.canvas = Some(canvas);
        self.rects = rects;
        self.drawn = Some(Drawing { window, shown });
        Ok(Frame {
            width,
            height,
            damage,
        })
    }
}

/// The frame that was drawn last, if it is that of the scene that is kept.
fn frame_before<'a>(drawn: &'a Option<Drawing>, canvas: &Option<Canvas>) -> Option<Before<'a>>
    ensures { IsDrawnBefore drawn.now canvas.now result }
{
    match (drawn, canvas) {
        (Some(drawing), Some(canvas)) => Some(Before {
            width: canvas.width(),
            height: canvas.height(),
            shown: drawing.shown.as_slice(),
        }),
        _ => None,
    }
}

/// Are both windows of one size, or both as large as their root?
fn is_same_window(window: Option<(u32, u32)>, other: Option<(u32, u32)>) -> bool
    ensures { IsTrue result → window ≡ other }
{
    match (window, other) {
        (None, None) => true,
        (Some(one), Some(two)) => one.0 == two.0 && one.1 == two.1,
        _ => false,
    }
}

/// Paints the damage anew on the canvas, if there is one.
fn repaint_in<L: Ledgers>(
    canvas: &mut Option<Canvas>,
    picture: &Picture,
    damage: &[Rect],
    work: &mut Work<L>,
)
    requires { list_all (lies_in (surface_of canvas.old).width (surface_of canvas.old).height) damage.now ≡ true }
    ensures repainted { IsRepainted (surface_of canvas.old) picture.now.entries damage.now (surface_of canvas.new) }
    ensures work { work.new ≡ record work.old { painted = work.new.painted } }
    ensures painted { work.new.painted ≤ work.old.painted + sum_by (most_writes picture.now.entries) damage.now }
{
    match canvas {
        Some(canvas) => canvas.repaint(picture, damage, work),
        None => {}
    }
}

/// A new canvas on which the damage is painted.
fn painted<L: Ledgers>(
    alloc: Global,
    picture: &Picture,
    width: u32,
    height: u32,
    damage: &[Rect],
    work: &mut Work<L>,
) -> Result<Canvas, AllocError>
    requires size { is_size width height ≡ true }
    requires all { damage.now ≡ damage_of None picture.now.entries width height }
    ensures width { IfOk result (λ canvas. canvas.width ≡ width) }
    ensures height { IfOk result (λ canvas. canvas.height ≡ height) }
    ensures shows { IfOk result (λ canvas. Shows canvas picture.now.entries) }
    ensures work { OnOk result (work.new ≡ record work.old { painted = work.new.painted }) }
    ensures painted { OnOk result (work.new.painted
        ≤ work.old.painted + sum_by (most_writes picture.now.entries) damage.now) }
{
    let mut canvas = white_canvas(alloc, width, height)?;
    canvas.repaint(picture, damage, work);
    Ok(canvas)
}

fn white_canvas(alloc: Global, width: u32, height: u32) -> Result<Canvas, AllocError>
    requires { is_size width height ≡ true }
    ensures width { IfOk result (λ canvas. canvas.width ≡ width) }
    ensures height { IfOk result (λ canvas. canvas.height ≡ height) }
{
    match Canvas::new(alloc, width, height) {
        Ok(canvas) => Ok(canvas),
        Err(_) => Err(AllocError),
    }
}
