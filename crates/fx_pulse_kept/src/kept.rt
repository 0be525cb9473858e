//! What is kept of the last scene.
ghost use Rattle.std.specs.Prelude.{◌≡◌, ◌≤◌, ◌<◌, ◌+◌, ◌*◌, ◌↔◌, ℕ, false, [], IfOk, IfSome, IsTrue, OnOk, Option as Maybe, Some, None, length};
ghost use Rattle.std.specs.Option.{option_copied, option_map};
ghost use Rattle.fx_layout_sweeps.specs.Marks.{flag_in};
ghost use Rattle.fx_layout.specs.Layouts.{IsLayout};
ghost use Rattle.fx_layout.specs.Updates.{root_size};
ghost use Rattle.fx_layout_sweeps.specs.Nodes.{parents};
ghost use Rattle.fx_pulse_kept.specs.Costs.{AreFew, IsBrought};
ghost use Rattle.fx_pulse_kept.specs.Keeping.{Agrees, AreOf, AreStyled, AreStylesBefore, boxes_in, no_layout};
ghost use Rattle.fx_pulse_kept.specs.Lasts.{last_of};
ghost use Rattle.fx_pulse_kept.specs.Measuring.{AreOthersMarked};
ghost use Rattle.fx_pulse_model.specs.Scenes.{IsScene, Scene as SceneValue, looks_of};
ghost use Rattle.fx_pulse_touched.specs.Marks.{places_of, told};
ghost use Rattle.fx_pulse_touched.specs.Sights.{scene_of, seen};
ghost use Rattle.fx_pulse_touched.specs.Touched.{AreTouched, IsOfShape, IsStyledAsBefore, IsUntouched, is_restyled};
ghost use Rattle.fx_style.specs.Rules.{IsUpdate, KeepsOthers, kept_of, needs, worked};

use crate::measuring::measured_marks;
use fx_base::{Ledgers, Rect, Work};
use fx_kinds::{BoxFacts, StyleFacts};
use fx_layout::Layouts;
use fx_look::Look;
use fx_pulse_touched::{
    Compared, Scene, SceneLists, Touched, compared_since, marked_below, marked_places,
};
use fx_select::RuleIndex;
use fx_style::{Scene as Styled, Styles};
use std::alloc::{AllocError, Global};
use std::marker::Model;

/// What an update tells: the size of the root in pixels, and marks of the nodes that were measured anew. Every other
/// node has the facts for layout and the look that it had in the last scene.
#[derive(Drop)]
pub struct Brought {
    pub size: (u32, u32),
    pub marks: Vec<bool>,
}

/// The styles and the layout of the last scene, and its facts. Where these are missing, all is made afresh.
#[derive(Drop)]
pub struct KeptScene {
    styles: Styles,
    layouts: Layouts,
    last: Option<SceneLists>,
    /// Facts that nothing hangs on any more: only their memory serves again.
    spare: Option<SceneLists>,
}

impl Model for KeptScene {
    ghost use Rattle.fx_pulse_kept.specs.Keeping.{Agrees, Keeping};
    ghost use Rattle.fx_pulse_kept.specs.Lasts.{last_of};

    ghost Value = { Keeping };

    ghost view = { λ k. record { styles = k.styles; layout = k.layouts; last = last_of k.last } };

    ghost invariant = { λ k. Agrees (record { styles = k.styles; layout = k.layouts; last = last_of k.last }) };
}

impl KeptScene {
    /// Nothing is kept.
    pub fn new(alloc: Global) -> KeptScene
        ensures last { result.last ≡ None }
        ensures layout { result.layout ≡ no_layout }
    {
        KeptScene {
            styles: Styles::new(alloc),
            layouts: Layouts::new(alloc),
            last: None,
            spare: None,
        }
    }

    /// What is true at all times: what is kept is what the last scene gives from nothing, if there is one.
    pub fn laws(&self)
        ensures { Agrees self.now }
    {
        let _styles = &self.styles;
    }

    /// Compares a scene with the last one, all facts place by place, and the sheets.
    pub fn compared(&self, alloc: Global, scene: Scene<'_>) -> Result<Compared, AllocError>
        requires { IsScene (seen scene) }
        ensures touched { IfOk result (λ compared. AreTouched self.now.last (seen scene.entry)
            compared.touched.styles.items compared.touched.boxes.items) }
        ensures shape { IfOk result (λ compared. IsTrue compared.has_shape
            → IsOfShape self.now.last (seen scene.entry)) }
        ensures last { IfOk result (λ compared. IsTrue compared.is_last
            → self.now.last ≡ Some (seen scene.entry)) }
        ensures only_shape { IfOk result (λ compared. IsOfShape self.now.last (seen scene.entry)
            → IsTrue compared.has_shape) }
        ensures only_last { IfOk result (λ compared. self.now.last ≡ Some (seen scene.entry)
            → IsTrue compared.is_last) }
    {
        compared_since(alloc, lent(&self.last), scene)
    }

    /// The look of each node of the last scene.
    pub fn looks(&self) -> &[Look]
        ensures { result.now ≡ self.now.styles.looks }
    {
        self.styles.looks()
    }

    /// The rectangle of each node of the last scene in the window, in pixels.
    pub fn rects(&self) -> &[Rect]
        ensures { result.now ≡ self.now.layout.rects }
    {
        self.layouts.rects()
    }

    /// The nodes of the last scene, if there is one, as their layout sees them.
    pub fn boxes(&self) -> &[BoxFacts]
        ensures { result.now ≡ boxes_in self.now.last }
    {
        match &self.last {
            None => &[],
            Some(last) => last.boxes.as_slice(),
        }
    }

    /// Brings what is kept up to this scene in a window, by marks of the nodes that are touched since the last one, and
    /// forgets the last scene: it is this one, once it is handed to `keep`. Styled anew are the nodes of which the
    /// facts for style are others, and all below them; measured anew are those that are laid out by other facts or
    /// another look, and all above them. After want of memory the next scene is made afresh.
    pub fn update<L: Ledgers>(
        &mut self,
        alloc: Global,
        scene: Scene<'_>,
        touched: Touched,
        window: Option<(u32, u32)>,
        work: &mut Work<L>,
    ) -> Result<Brought, AllocError>
        requires scene { IsScene (seen scene) }
        requires touched { AreTouched self.old.last (seen scene) touched.styles.items touched.boxes.items }
        ensures looks { OnOk result (self.new.styles.looks ≡ looks_of (seen scene.entry)) }
        ensures layout { OnOk result
            (IsLayout scene.entry.boxes.now (looks_of (seen scene.entry)) window self.new.layout) }
        ensures size { IfOk result (λ told. told.size ≡ root_size self.new.layout) }
        ensures marks { IfOk result (λ told. AreOthersMarked self.old.last (seen scene.entry) told.marks.items) }
        ensures kept { OnOk result (AreOf (seen scene.entry) self.new.styles self.new.layout) }
        ensures last { self.new.last ≡ None }
        ensures evaluated { OnOk result (work.new.evaluated ≡ work.old.evaluated) }
        ensures painted { OnOk result (work.new.painted ≡ work.old.painted) }
        ensures still { OnOk result (IsUntouched self.old.last (seen scene.entry)
            → root_size self.old.layout ≡ root_size self.new.layout
            → (work.new.styled ≤ work.old.styled) × (work.new.laid ≤ work.old.laid)) }
        ensures few { OnOk result (AreFew self.old.last (seen scene.entry) self.old.layout self.new.layout
            work.old.styled work.new.styled work.old.laid work.new.laid) }
    {
        let last = self.last.take();
        let following = Following {
            last: lent(&last),
            scene,
        };
        let told = bring_up(
            alloc,
            &mut self.styles,
            &mut self.layouts,
            following,
            touched,
            window,
            work,
        )?;
        self.spare = last;
        Ok(told)
    }

    /// Keeps the scene up to which all was brought as the last one.
    pub fn keep(&mut self, scene: SceneLists)
        requires { AreOf (scene_of scene) self.old.styles self.old.layout }
        ensures styles { self.new.styles ≡ self.old.styles }
        ensures layout { self.new.layout ≡ self.old.layout }
        ensures last { self.new.last ≡ Some (scene_of scene) }
    {
        self.last = Some(scene);
    }

    /// Takes facts on which nothing hangs any more, so that their memory serves again.
    pub fn spare(&mut self, facts: SceneLists)
        ensures { self.new ≡ self.old }
    {
        self.spare = Some(facts);
    }

    /// Facts on which nothing hangs any more: those of the scene before the last one, if they are there.
    pub fn take_spare(&mut self, alloc: Global) -> SceneLists
        ensures { self.new ≡ self.old }
    {
        match self.spare.take() {
            None => SceneLists::new(alloc),
            Some(facts) => facts,
        }
    }
}

/// The scene of which something is kept, if there is one.
fn lent(last: &Option<SceneLists>) -> Option<Scene<'_>>
    ensures { option_map seen result ≡ last_of last.now }
{
    match last {
        None => None,
        Some(last) => Some(last.scene()),
    }
}

/// The scene of which something is kept, if there is one, and the scene that follows it.
#[derive(Clone, Copy)]
struct Following<'a> {
    last: Option<Scene<'a>>,
    scene: Scene<'a>,
}

/// Brings styles and layout of the last scene up to the next one.
fn bring_up<L: Ledgers>(
    alloc: Global,
    styles: &mut Styles,
    layouts: &mut Layouts,
    following: Following<'_>,
    touched: Touched,
    window: Option<(u32, u32)>,
    work: &mut Work<L>,
) -> Result<Brought, AllocError>
    requires scene { IsScene (seen following.scene) }
    requires was { IfSome (option_map seen following.last) (λ last. AreOf last styles.old layouts.old) }
    requires touched { AreTouched (option_map seen following.last) (seen following.scene) touched.styles.items
        touched.boxes.items }
    ensures brought { IfOk result (λ told. IsBrought (option_map seen following.entry.last)
        (seen following.entry.scene) window layouts.old styles.new layouts.new
        told.marks.items work.old.styled work.new.styled work.old.laid work.new.laid) }
    ensures size { IfOk result (λ told. told.size ≡ root_size layouts.new) }
    ensures evaluated { OnOk result (work.new.evaluated ≡ work.old.evaluated) }
    ensures painted { OnOk result (work.new.painted ≡ work.old.painted) }
{
    let scene = following.scene;
    let restyled = restyle(alloc, styles, following, touched.styles.as_slice(), work)?;
    let marks = measured_marks(
        scene.boxes,
        touched.boxes,
        restyled.as_slice(),
        styles.changed(),
    );
    let places = marked_places(alloc, marks.as_slice())?;
    let size = layouts.update(
        alloc,
        scene.boxes,
        styles.looks(),
        window,
        places.as_slice(),
        work,
    )?;
    Ok(Brought { size, marks })
}

/// Styles the touched nodes anew and all below them, and answers marks of these.
fn restyle<L: Ledgers>(
    alloc: Global,
    kept: &mut Styles,
    following: Following<'_>,
    touched: &[bool],
    work: &mut Work<L>,
) -> Result<Vec<bool>, AllocError>
    requires scene { IsScene (seen following.scene) }
    requires was { IfSome (option_map seen following.last) (λ last. IsScene last × AreStyled last kept.old) }
    requires quiet { (k : ℕ) → k < length following.scene.styles.now → flag_in touched.now k ≡ false
        → IsStyledAsBefore (option_map seen following.last) (seen following.scene) k }
    ensures marks { IfOk result (λ marks. marks.items
        ≡ told (is_restyled (parents following.entry.scene.boxes.now) touched.now)
        (length following.entry.scene.boxes.now)) }
    ensures update { IfOk result (λ marks. IsUpdate following.entry.scene.sheets.now
        following.entry.scene.styles.now (places_of marks.items) kept.old kept.new) }
    ensures others { OnOk result (KeepsOthers kept.old kept.new) }
    ensures cost { IfOk result (λ marks. work.new ≡ record work.old {
      styled = work.old.styled
          + worked (needs (places_of marks.items) (kept_of kept.old following.entry.scene.styles.now))
          (length following.entry.scene.styles.now);
    }) }
{
    let scene = following.scene;
    let marks = marked_below(alloc, scene.boxes, touched)?;
    let places = marked_places(alloc, marks.as_slice())?;
    let index = RuleIndex::build(alloc, scene.sheets)?;
    let nodes = Styled {
        index: &index,
        sheets: scene.sheets,
        facts: scene.styles,
        last: styles_before(following.last, marks.as_slice()),
    };
    kept.update(alloc, nodes, places.as_slice(), work)?;
    Ok(marks)
}

/// The facts of the last scene, where some node, and so the root, isn't styled anew.
fn styles_before<'a>(last: Option<Scene<'a>>, marks: &[bool]) -> Option<&'a [StyleFacts]>
    ensures { IfSome (option_copied result) (λ olds. AreStylesBefore (option_map seen last.entry) marks.now olds) }
{
    let last = last?;
    match marks {
        [false, ..] => Some(last.styles),
        _ => None,
    }
}
