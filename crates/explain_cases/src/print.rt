//! Explanations as lines.
use crate::node::Node;
use anyhow::bail;
use fx_cascade::Source;
use fx_css_types::SheetOrigin;
use fx_explain::{Cut, Rank, explain, rank_of};
use std::alloc::{AllocError, Global};

/// The winner's line, and a line for each loser.
pub fn explanation(alloc: Global, node: &Node, name: &str) -> anyhow::Result<String> {
    let told = explain(
        alloc,
        node.sheets.as_slice(),
        node.matched.as_slice(),
        node.codes.as_slice(),
        name,
    )?;
    let Some(winner) = told.winner else {
        return Ok(format!(in alloc; "win none\n")?);
    };
    let mut text = format!(in alloc; "win {}\n", rank(alloc, node, winner)?.as_str())?;
    for loser in told.losers.as_slice() {
        let rank = rank(alloc, node, loser.source)?;
        let line = format!(in alloc; "lose {} {}\n", rank.as_str(), cut(loser.cut))?;
        text.push_str(line.as_str())?;
    }
    Ok(text)
}

fn rank(alloc: Global, node: &Node, source: Source) -> anyhow::Result<String> {
    let told = rank_of(
        node.sheets.as_slice(),
        node.seen.as_slice(),
        node.matched.as_slice(),
        source,
    );
    match told {
        Some(Rank::Bound) => Ok(format!(in alloc; "bound")?),
        Some(Rank::Code) => Ok(format!(in alloc; "code")?),
        Some(
            Rank::Declared {
                origin,
                specificity,
                sheet,
                rule,
                place,
            },
        ) => {
            let origin = origin_word(alloc, origin)?;
            let (ids, classes, types) = specificity;
            let (sheet, rule, place) = (first(sheet), first(rule), first(place));
            let weight = format!(in alloc; "{ids} {classes} {types}")?;
            let text = format!(in alloc;
                "{} {} {sheet} {rule} {place}",
                origin.as_str(),
                weight.as_str()
            )?;
            Ok(text)
        }
        None => bail!("a match is wanting"),
    }
}

/// A place, counted from 1.
fn first(place: usize) -> usize {
    place.saturating_add(1)
}

fn origin_word(alloc: Global, origin: SheetOrigin) -> Result<String, AllocError> {
    match origin {
        SheetOrigin::Agent => format!(in alloc; "agent"),
        SheetOrigin::Scene => format!(in alloc; "scene"),
        SheetOrigin::Parent(depth) => format!(in alloc; "parent:{depth}"),
        SheetOrigin::Inline => format!(in alloc; "inline"),
    }
}

fn cut(cut: Cut) -> &'static str {
    match cut {
        Cut::Bound => "bound",
        Cut::Origin => "origin",
        Cut::Specificity => "specificity",
        Cut::Sheet => "sheet",
        Cut::Rule => "rule",
        Cut::Place => "place",
    }
}
