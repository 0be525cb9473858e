//! What is done so many times.
ghost use Rattle.std.specs.Prelude.{◌≡◌};
ghost use Rattle.fx_css_types.specs.Limits.{AreShort, AreWithinLimits};
ghost use Rattle.fx_select.specs.Chains.{ParentsStandBefore};
ghost use Rattle.fx_style.specs.Kept.{AreDifferent};
ghost use Rattle.fx_style.specs.Rules.{AreIndexed, HaveRows};

use crate::nodes::{buttons, labels};
use anyhow::bail;
use fx_base::{Ledgers, Work};
use fx_css_types::{SheetAt, sheets_within_limits_are_short};
use fx_kinds::StyleFacts;
use fx_select::RuleIndex;
use fx_style::{Scene, Styles};
use fx_style_checks::can_be_styled;
use std::alloc::{AllocError, Global};
use std::mem::forget;

/// What is done with each node: its rules are searched, it is styled anew, among nodes that are like each other or not,
/// its look is kept, or it is a label whose width changes.
#[derive(Clone, Copy)]
pub enum Task {
    Search,
    Style,
    Mixed,
    Keep,
    Labels,
}

/// What is done, with how many nodes, and how often.
#[derive(Clone, Copy)]
pub struct Rounds {
    pub task: Task,
    pub nodes: u32,
    pub count: u64,
}

/// Does it over these sheets, and gives a checksum.
pub fn play<L: Ledgers>(
    alloc: Global,
    sheets: &[SheetAt],
    rounds: Rounds,
    work: &mut Work<L>,
) -> anyhow::Result<usize>
    requires { AreWithinLimits sheets.now }
{
    let index = RuleIndex::build(alloc, sheets)?;
    let mut styles = Styles::new(alloc);
    let sum = play_nodes(alloc, &index, sheets, rounds, &mut styles, work);
    // The process ends right after this, so nothing of the index and the styles is freed.
    forget(index);
    forget(styles);
    sum
}

/// Makes the nodes of the task, and does it with them.
fn play_nodes<L: Ledgers>(
    alloc: Global,
    index: &RuleIndex,
    sheets: &[SheetAt],
    rounds: Rounds,
    styles: &mut Styles,
    work: &mut Work<L>,
) -> anyhow::Result<usize>
    requires { AreIndexed index.now sheets.now }
{
    if let Task::Labels = rounds.task {
        let narrow = labels(alloc, rounds.nodes, 20)?;
        let wide = labels(alloc, rounds.nodes, 40)?;
        let scene = scene_of(index, sheets, narrow.as_slice());
        return play_labels(alloc, scene, wide.as_slice(), rounds, styles, work);
    }
    let facts = buttons(alloc, rounds.nodes, is_mixed(rounds.task))?;
    let scene = scene_of(index, sheets, facts.as_slice());
    play_buttons(alloc, scene, rounds, styles, work)
}

fn is_mixed(task: Task) -> bool {
    match task {
        Task::Search | Task::Mixed => true,
        _ => false,
    }
}

/// The scene of these lists, of which no styles are kept by other facts.
fn scene_of<'a>(index: &'a RuleIndex, sheets: &'a [SheetAt], facts: &'a [StyleFacts]) -> Scene<'a>
    ensures index { result.index.now ≡ index.now }
    ensures lists { (result.sheets.now ≡ sheets.now) × (result.facts.now ≡ facts.now) }
    ensures last { result.last ≡ None }
{
    Scene {
        index,
        sheets,
        facts,
        last: None,
    }
}

/// Searches the rules of the buttons, or updates their styles.
fn play_buttons<L: Ledgers>(
    alloc: Global,
    scene: Scene<'_>,
    rounds: Rounds,
    styles: &mut Styles,
    work: &mut Work<L>,
) -> anyhow::Result<usize>
    requires sheets { AreIndexed scene.index.now scene.sheets.now }
    requires last { scene.last ≡ None }
{
    if !can_be_styled(scene.facts) {
        bail!("the nodes aren't those of a scene");
    }
    if let Task::Search = rounds.task {
        return Ok(search(alloc, scene, rounds.count)?);
    }
    let places = listed(alloc, scene.facts, rounds.task)?;
    restyle(alloc, scene, places.as_slice(), rounds.count, styles, work)?;
    Ok(checksum(styles))
}

/// Styles all labels by one list of facts and then by the other, so many times.
fn play_labels<'a, L: Ledgers>(
    alloc: Global,
    scene: Scene<'a>,
    wide: &'a [StyleFacts],
    rounds: Rounds,
    styles: &mut Styles,
    work: &mut Work<L>,
) -> anyhow::Result<usize>
    requires sheets { AreIndexed scene.index.now scene.sheets.now }
    requires last { scene.last ≡ None }
{
    if !can_be_styled(scene.facts) {
        bail!("the narrow labels aren't those of a scene");
    }
    if !can_be_styled(wide) {
        bail!("the wide labels aren't those of a scene");
    }
    let places = listed(alloc, wide, rounds.task)?;
    alternate(
        alloc,
        scene,
        wide,
        places.as_slice(),
        rounds.count,
        styles,
        work,
    )?;
    Ok(checksum(styles))
}

/// The places of the nodes that each update styles anew: of all buttons, of none whose look is kept, and of all labels,
/// which alone have code values.
fn listed(alloc: Global, facts: &[StyleFacts], task: Task) -> Result<Vec<usize>, AllocError> {
    let mut places = Vec::new(alloc);
    for (at, node) in facts.iter().enumerate() {
        if is_listed(node, task) {
            places.push(at)?;
        }
    }
    Ok(places)
}

fn is_listed(node: &StyleFacts, task: Task) -> bool {
    match task {
        Task::Style | Task::Mixed => true,
        Task::Labels => !node.codes.as_slice().is_empty(),
        Task::Search | Task::Keep => false,
    }
}

/// How many rules match the nodes, in all rounds.
fn search(alloc: Global, scene: Scene<'_>, count: u64) -> Result<usize, AllocError>
    requires before { ParentsStandBefore scene.facts.now }
    requires sheets { AreIndexed scene.index.now scene.sheets.now }
{
    sheets_within_limits_are_short();
    let mut found = 0usize;
    for _ in 0..count {
        for at in 0..scene.facts.len() {
            let matched = scene.index.matched(alloc, scene.sheets, scene.facts, at)?;
            found = found.wrapping_add(matched.len());
        }
    }
    Ok(found)
}

/// Updates the styles so many times. Nodes of which nothing is kept are styled by the first update.
fn restyle<L: Ledgers>(
    alloc: Global,
    scene: Scene<'_>,
    places: &[usize],
    count: u64,
    styles: &mut Styles,
    work: &mut Work<L>,
) -> Result<(), AllocError>
    requires before { ParentsStandBefore scene.facts.now }
    requires keys { AreDifferent scene.facts.now }
    requires sheets { AreIndexed scene.index.now scene.sheets.now }
    requires codes { HaveRows scene.facts.now }
    requires last { scene.last ≡ None }
{
    for _ in 0..count {
        styles.update(alloc, scene, places, work)?;
    }
    Ok(())
}

/// Updates the styles by these facts and then by the others, so many times.
fn alternate<'a, L: Ledgers>(
    alloc: Global,
    scene: Scene<'a>,
    others: &'a [StyleFacts],
    places: &[usize],
    count: u64,
    styles: &mut Styles,
    work: &mut Work<L>,
) -> Result<(), AllocError>
    requires before { ParentsStandBefore scene.facts.now }
    requires keys { AreDifferent scene.facts.now }
    requires sheets { AreIndexed scene.index.now scene.sheets.now }
    requires codes { HaveRows scene.facts.now }
    requires last { scene.last ≡ None }
    requires others_before { ParentsStandBefore others.now }
    requires others_keys { AreDifferent others.now }
    requires others_codes { HaveRows others.now }
{
    let other = Scene {
        index: scene.index,
        sheets: scene.sheets,
        facts: others,
        last: None,
    };
    for _ in 0..count {
        styles.update(alloc, scene, places, work)?;
        styles.update(alloc, other, places, work)?;
    }
    Ok(())
}

fn checksum(styles: &Styles) -> usize {
    let mut sum = styles.changed().len();
    for look in styles.looks() {
        sum = sum
            .wrapping_mul(31)
            .wrapping_add(look.background_color.as_slice().len())
            .wrapping_add(look.text_fill.g as usize);
    }
    sum
}
