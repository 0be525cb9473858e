//! Writes a sheet of many rules, reads it, makes an index of its rules and asks that for the rules of one node, and
//! prints a checksum of what was read and found. A script counts its instructions; no other crate stands on this one.
#![tactic(auto)]

ghost use Rattle.fx_css_types.specs.Limits.{AreWithinLimits};

mod nodes;
mod sheets;

use anyhow::bail;
use fx_css_types::{SheetAt, sheets_within_limits_are_short};
use fx_kinds::StyleFacts;
use fx_select::RuleIndex;
use nodes::{nodes, stand_before};
use sheets::{push_styles, read, sheet_text};
use std::alloc::Global;
use std::env;

/// How much is done, and of what.
#[derive(Clone, Copy)]
struct Work {
    rules: usize,
    /// How many rules name the same class.
    sharing: usize,
    reads: usize,
    searches: usize,
    commented: bool,
    /// How many inline styles stand beside the sheet, the button's own the first of them.
    styles: usize,
}

fn main(rt: HostRuntime) -> anyhow::Result<()> {
    let mut words = env::args(&rt)?;
    let _program = words.next();
    let (Some(rules), Some(sharing), Some(reads), Some(searches)) = (
        words.next(),
        words.next(),
        words.next(),
        words.next(),
    ) else {
        bail!("usage: sheets_bench RULES SHARING READS SEARCHES [plain|commented [STYLES]]");
    };
    let work = Work {
        rules: rules.as_str().parse::<usize>()?,
        sharing: sharing.as_str().parse::<usize>()?,
        reads: reads.as_str().parse::<usize>()?,
        searches: searches.as_str().parse::<usize>()?,
        commented: words
            .next()
            .is_some_and(|word| word.as_str() == "commented"),
        styles: count(words.next())?,
    };
    let (bytes, read, found) = run(rt.alloc(), work)?;
    println!(rt; "{bytes} bytes, {read} declarations read, {found} rules found")?;
    Ok(())
}

/// The number that a word is, or none.
fn count(word: Option<String>) -> anyhow::Result<usize> {
    match word {
        Some(word) => Ok(word.as_str().parse::<usize>()?),
        None => Ok(0),
    }
}

/// The bytes of the sheet, the declarations that were read and the rules that were found.
fn run(alloc: Global, work: Work) -> anyhow::Result<(usize, usize, usize)> {
    let text = sheet_text(alloc, work.rules, work.sharing, work.commented)?;
    let mut declarations = 0usize;
    for _ in 0..work.reads {
        let sheet = read(alloc, text.as_str())?;
        for rule in sheet.sheet.rules.as_slice() {
            declarations = declarations.wrapping_add(rule.declarations.as_slice().len());
        }
    }
    let found = search(alloc, text.as_str(), work.searches, work.styles)?;
    Ok((text.len(), declarations, found))
}

/// How many rules were found in so many searches.
fn search(alloc: Global, text: &str, searches: usize, styles: usize) -> anyhow::Result<usize> {
    if searches == 0 {
        return Ok(0);
    }
    let mut sheets = Vec::new(alloc);
    sheets.push(read(alloc, text)?)?;
    push_styles(alloc, &mut sheets, styles)?;
    let facts = nodes(alloc, if styles == 0 { None } else { Some(1) })?;
    search_in(alloc, sheets.as_slice(), facts.as_slice(), searches)
}

fn search_in(
    alloc: Global,
    sheets: &[SheetAt],
    facts: &[StyleFacts],
    searches: usize,
) -> anyhow::Result<usize>
    requires { AreWithinLimits sheets.now }
{
    if !stand_before(facts) || facts.is_empty() {
        bail!("the nodes are out of bounds");
    }
    sheets_within_limits_are_short();
    let index = RuleIndex::build(alloc, sheets)?;
    let mut found = 0usize;
    for _ in 0..searches {
        let matched = index.matched(alloc, sheets, facts, facts.len() - 1)?;
        found = found.wrapping_add(matched.len());
    }
    Ok(found)
}
