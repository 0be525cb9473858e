//! The rules of a sheet: what stands first says what is read and how far, and each part is judged by itself.
//! A sheet is read by turns, from what is left.
ghost use Rattle.std.specs.Prelude.{◌≡◌, ◌++◌, ◌∷◌, [], map, drop, length, IfOk, IfErr, OnOk};
ghost use Rattle.fx_css.specs.Numbered.{shown};
ghost use Rattle.fx_css.specs.Pieces.{warnings_in};
ghost use Rattle.fx_css.specs.Rules.{reading_of, past_rules};
ghost use Rattle.fx_css.specs.Cutting.{shown_turn, turn_at};
ghost use Rattle.fx_css.specs.Sheets.{IsStop};

use crate::cutting::{at_rule_length, block_length, closing, opening};
use crate::declarations::read_declarations;
use crate::errors::Stop;
use crate::parts::Part;
use fx_base::List;
use fx_css_parts::{Selectors, read_selectors};
use fx_css_types::Rule;
use std::alloc::Global;

/// The greatest number of rules of a sheet.
pub const RULE_LIMIT: usize = 4096;

/// The rules so far, and the numbers of what was dropped.
#[derive(Drop)]
pub struct Draft {
    pub rules: Vec<Rule>,
    pub warnings: Vec<usize>,
}

/// A rule with these selectors.
#[tactic(auto, unfolding(crate::specs::Rules::reading_of))]
fn read_rule(
    alloc: Global,
    start: usize,
    heading: Part<'_>,
    selectors: Selectors,
    body: Part<'_>,
    draft: &mut Draft,
) -> Result<(), Stop>
    ensures rules { OnOk result (draft.new.rules.items ≡ draft.old.rules.items
        ++ ((reading_of start (shown heading.entry) selectors (shown body.entry)).rule ∷ [])) }
    ensures warnings { OnOk result (draft.new.warnings.items
        ≡ draft.old.warnings.items ++ warnings_in (shown body.entry)) }
    ensures within { OnOk result (past_rules (length draft.old.rules.items)
        (reading_of start (shown heading.entry) selectors (shown body.entry) ∷ []) ≡ []) }
    ensures limit { IfErr result (IsStop (past_rules (length draft.old.rules.items)
        (reading_of start (shown heading.entry) selectors (shown body.entry) ∷ []))) }
{
    if draft.rules.len() >= RULE_LIMIT {
        return Err(Stop::Past(start));
    }
    if let Some(number) = heading.number_at(selectors.past) {
        return Err(Stop::Past(number));
    }
    let declarations = read_declarations(alloc, body, &mut draft.warnings)?;
    draft.rules.push(Rule {
        selectors: selectors.selectors,
        declarations: List::from_vec(declarations),
    })?;
    Ok(())
}

/// A turn at what is neither white nor an at-rule: how many bytes it takes.
#[tactic(auto, unfolding(crate::specs::Cutting::shown_turn, crate::specs::Rules::selected))]
fn read_shown(alloc: Global, start: usize, part: Part<'_>, draft: &mut Draft) -> Result<usize, Stop>
    ensures rest { IfOk result (λ taken. drop taken (shown part.entry) ≡ (shown_turn start (shown part.entry)).rest) }
    ensures rules { OnOk result (draft.new.rules.items ≡ draft.old.rules.items
        ++ map (λ r. r.rule) (shown_turn start (shown part.entry)).readings) }
    ensures warnings { OnOk result (draft.new.warnings.items ≡ draft.old.warnings.items
        ++ (shown_turn start (shown part.entry)).warnings) }
    ensures within { OnOk result (past_rules (length draft.old.rules.items)
        (shown_turn start (shown part.entry)).readings ≡ []) }
    ensures limit { IfErr result (IsStop (past_rules (length draft.old.rules.items)
        (shown_turn start (shown part.entry)).readings)) }
{
    let at = opening(part);
    if at == part.len() {
        draft.warnings.push(start)?;
        return Ok(at);
    }
    let heading = part.front(at);
    let rest = part.behind(at + 1);
    let Some(selectors) = read_selectors(alloc, heading.text())? else {
        draft.warnings.push(start)?;
        return Ok(at + 1 + block_length(rest));
    };
    let end = closing(rest);
    read_rule(alloc, start, heading, selectors, rest.front(end), draft)?;
    Ok(at + 1 + (end + 1))
}

/// A turn: white, an at-rule, or what begins as a rule does. How many bytes it takes.
#[tactic(auto, unfolding(crate::specs::Cutting::turn_of))]
pub fn read_turn(alloc: Global, part: Part<'_>, draft: &mut Draft) -> Result<usize, Stop>
    ensures rest { IfOk result (λ taken. drop taken (shown part.entry) ≡ (turn_at (shown part.entry)).rest) }
    ensures rules { OnOk result (draft.new.rules.items ≡ draft.old.rules.items
        ++ map (λ r. r.rule) (turn_at (shown part.entry)).readings) }
    ensures warnings { OnOk result (draft.new.warnings.items ≡ draft.old.warnings.items
        ++ (turn_at (shown part.entry)).warnings) }
    ensures within { OnOk result (past_rules (length draft.old.rules.items)
        (turn_at (shown part.entry)).readings ≡ []) }
    ensures limit { IfErr result (IsStop (past_rules (length draft.old.rules.items)
        (turn_at (shown part.entry)).readings)) }
{
    let Some((first, more)) = part.split_first() else {
        return Ok(0);
    };
    if first.is_white() {
        return Ok(1);
    }
    if first.is_sign(b'@') {
        draft.warnings.push(first.number)?;
        return Ok(1 + at_rule_length(more));
    }
    read_shown(alloc, first.number, part, draft)
}
