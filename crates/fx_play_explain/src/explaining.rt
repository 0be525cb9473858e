//! The line itself.
ghost use Rattle.std.specs.Prelude.{◌≡◌, ◌≤◌, ◌+◌, ◌<◌, [], IfOk, IsSome, OnOk, length, true};
ghost use Rattle.fx_focus.specs.Attached.{is_attached};
ghost use Rattle.fx_plain_explain.specs.Explaining as spec;
ghost use Rattle.fx_plain_explain.specs.Explaining.{IsExplainLine, IsTold, IsToldOf};
ghost use Rattle.fx_select.specs.Chains.{ParentsStandBefore};
ghost use Rattle.fx_stage_facts.specs.Attached.{look_cost, looked};
ghost use Rattle.fx_stage_facts.specs.Sheets.{sheets_of};
ghost use Rattle.fx_stage_facts.specs.Styles.{style_facts};

use crate::matching::{codes_at, matches_at, place_of, seen_at};
use crate::printing::print_explanation;
use fx_base::{Ledgers, NodeKey, Text, Work};
use fx_css_types::SheetAt;
use fx_explain::explain;
use fx_focus::is_attached;
use fx_kinds::StyleFacts;
use fx_play_steps::Trace;
use fx_stage::Stage;
use fx_stage_facts::{Facts, facts_fit_together, read_facts};
use fx_stage_text::print_refusal;
use fx_stage_types::Refusal;
use std::alloc::{AllocError, Global};

/// Takes the line `explain` of this number, which asks for the property of this name of the node of this path. The
/// trace then holds this line alone. Want of memory may leave a part of its text there, and some of the properties
/// read.
pub fn explain_line<L: Ledgers>(
    alloc: Global,
    stage: &mut Stage,
    number: u32,
    path: &[Text],
    name: &Text,
    trace: &mut Trace,
    work: &mut Work<L>,
) -> Result<(), AllocError>
    ensures told { OnOk result (IsExplainLine number path.now name.now stage.old
        (record { text = trace.new.text.items; heard = trace.new.heard.items; world = stage.new })) }
    ensures few { work.new.evaluated
        ≤ work.old.evaluated + spec.explain_cost stage.old (spec.find_attached stage.old path.now) }
    ensures others { work.new ≡ record work.old { evaluated = work.new.evaluated } }
{
    trace.clear();
    match find_attached(stage, path) {
        Ok(key) => tell(alloc, stage, key, name, &mut trace.text, work),
        Err(word) => print_refusal(alloc, &mut trace.text, number, word.word()),
    }
}

/// The node of this path, which stands in the scene, or the word for why there is none.
#[tactic(auto, unfolding(fx_plain_explain::specs::Explaining::find_attached, fx_stage_model::specs::Looking::find_node))]
fn find_attached(stage: &Stage, path: &[Text]) -> Result<NodeKey, Refusal>
    ensures found { result ≡ spec.find_attached stage.now path.now }
    ensures attached { IfOk result (λ key. is_attached stage.now.graph.tree key ≡ true) }
{
    let Some(key) = stage.find(path) else {
        return Err(Refusal::Unknown);
    };
    if !is_attached(stage.graph().tree(), key) {
        return Err(Refusal::Parent);
    }
    Ok(key)
}

/// Puts what is told of a property of the node into an empty text.
#[tactic(auto, unfolding(fx_stage_facts::specs::Scenes::facts_of))]
fn tell<L: Ledgers>(
    alloc: Global,
    stage: &mut Stage,
    key: NodeKey,
    name: &Text,
    text: &mut Vec<u8>,
    work: &mut Work<L>,
) -> Result<(), AllocError>
    requires attached { is_attached stage.old.graph.tree key ≡ true }
    requires empty { text.old.items ≡ [] }
    ensures told { OnOk result (IsToldOf (sheets_of stage.old) (style_facts stage.old) key name.now text.new.items) }
    ensures looked { OnOk result (stage.new ≡ looked stage.old) }
    ensures few { work.new.evaluated ≤ work.old.evaluated + look_cost stage.old }
    ensures others { work.new ≡ record work.old { evaluated = work.new.evaluated } }
{
    facts_fit_together();
    let _root = stage.graph().tree().root();
    let facts = read_facts(alloc, stage, work)?;
    tell_of(alloc, &facts, key, name, text)
}

/// The same from the facts of all nodes, of which it is one.
fn tell_of(
    alloc: Global,
    facts: &Facts,
    key: NodeKey,
    name: &Text,
    text: &mut Vec<u8>,
) -> Result<(), AllocError>
    requires before { ParentsStandBefore facts.now.styles }
    requires there { IsSome (spec.place_of facts.now.styles key) }
    requires empty { text.old.items ≡ [] }
    ensures { OnOk result (IsToldOf facts.now.sheets facts.now.styles key name.now text.new.items) }
{
    let nodes = facts.styles.as_slice();
    match place_of(nodes, key) {
        Some(at) => tell_at(alloc, facts.sheets.as_slice(), nodes, at, name, text),
        None => unreachable!(),
    }
}

/// The same from the node's place among them.
fn tell_at(
    alloc: Global,
    sheets: &[SheetAt],
    nodes: &[StyleFacts],
    at: usize,
    name: &Text,
    text: &mut Vec<u8>,
) -> Result<(), AllocError>
    requires before { ParentsStandBefore nodes.now }
    requires there { at < length nodes.now }
    requires empty { text.old.items ≡ [] }
    ensures { OnOk result (IsTold sheets.now nodes.now at name.now text.new.items) }
{
    let matched = matches_at(alloc, sheets, nodes, at)?;
    let seen = seen_at(alloc, nodes, at)?;
    let codes = codes_at(nodes, at);
    let told = explain(alloc, sheets, matched.as_slice(), codes, name.as_str())?;
    print_explanation(
        alloc,
        text,
        sheets,
        seen.as_slice(),
        matched.as_slice(),
        &told,
    )
}
