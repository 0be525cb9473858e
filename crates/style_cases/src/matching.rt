//! Which nodes a selector matches, and which rules match each node.
ghost use Rattle.std.specs.Prelude.{◌<◌, ◌≤◌, length};
ghost use Rattle.fx_select.specs.Chains.{ParentsStandBefore};
ghost use Rattle.fx_css_types.specs.Limits.{AreShort, AreWithinLimits};

use anyhow::bail;
use fx_css_parts::read_selectors;
use fx_css_types::{Candidate, Selector, SheetAt, sheets_within_limits_are_short};
use fx_kinds::StyleFacts;
use fx_select::{RuleIndex, matches};
use fx_style_checks::can_be_styled;
use std::alloc::{AllocError, Global};
use std::fmt::Write;

/// For each selector of the text a line that says of each node whether it matches.
pub fn push_matching(
    alloc: Global,
    lines: &mut String,
    text: &str,
    facts: &[StyleFacts],
) -> anyhow::Result<()> {
    match read_selectors(alloc, text.as_bytes())? {
        Some(read) => push_all(lines, read.selectors.as_slice(), facts),
        None => bail!("no selector"),
    }
}

fn push_all(
    lines: &mut String,
    selectors: &[Selector],
    facts: &[StyleFacts],
) -> anyhow::Result<()> {
    if !can_be_styled(facts) {
        bail!("the nodes aren't those of a scene");
    }
    if facts.len() > 4096 {
        bail!("too many nodes");
    }
    for selector in selectors {
        push_matches(lines, selector, facts)?;
    }
    Ok(())
}

fn push_matches(
    lines: &mut String,
    selector: &Selector,
    facts: &[StyleFacts],
) -> Result<(), AllocError>
    requires few { length facts.now ≤ 4096 }
    requires before { ParentsStandBefore facts.now }
{
    for at in 0..facts.len() {
        lines.push_str(if matches(selector, facts, at) {
            "1"
        } else {
            "0"
        })?;
    }
    lines.push_str("\n")
}

/// A line for each node: the rules that match it, each with the places of sheet and rule and with the specificity.
pub fn push_matched(
    alloc: Global,
    lines: &mut String,
    sheets: &[SheetAt],
    facts: &[StyleFacts],
) -> anyhow::Result<()>
    requires { AreWithinLimits sheets.now }
{
    if !can_be_styled(facts) {
        bail!("the nodes aren't those of a scene");
    }
    sheets_within_limits_are_short();
    push_rules(alloc, lines, sheets, facts)
}

fn push_rules(
    alloc: Global,
    lines: &mut String,
    sheets: &[SheetAt],
    facts: &[StyleFacts],
) -> anyhow::Result<()>
    requires before { ParentsStandBefore facts.now }
    requires short { AreShort sheets.now }
{
    let index = RuleIndex::build(alloc, sheets)?;
    for at in 0..facts.len() {
        push_matched_by(alloc, lines, &index, sheets, facts, at)?;
    }
    Ok(())
}

fn push_matched_by(
    alloc: Global,
    lines: &mut String,
    index: &RuleIndex,
    sheets: &[SheetAt],
    facts: &[StyleFacts],
    at: usize,
) -> anyhow::Result<()>
    requires before { ParentsStandBefore facts.now }
    requires there { at < length facts.now }
    requires short { AreShort sheets.now }
{
    let found = index.matched(alloc, sheets, facts, at)?;
    push_found(lines, found.as_slice())
}

fn push_found(lines: &mut String, found: &[Candidate]) -> anyhow::Result<()> {
    if found.is_empty() {
        lines.push_str("-")?;
    }
    for candidate in found {
        let Candidate {
            sheet,
            rule,
            specificity: (ids, classes, types),
            origin: _,
        } = *candidate;
        write!(lines, "{sheet} {rule} {ids} {classes} {types};")?;
    }
    Ok(lines.push_str("\n")?)
}
