//! All that speaks for a property, the winner first.
ghost use Rattle.std.specs.Prelude.{◌≡◌, IfOk, map};
ghost use Rattle.std.specs.List.Sorted.{IsPermutation};
ghost use Rattle.std.specs.Ordering.{is_lt};
ghost use Rattle.fx_cascade.specs.Ranks.{is_below};
ghost use Rattle.fx_explain.specs.Explained.{AreFalling, IsExplained, loser_of, told_of};

use crate::collected::sources_for;
use crate::cuts::{Cut, cut_of};
use fx_base::List;
use fx_cascade::{Source, is_below};
use fx_css_types::{Candidate, SheetAt};
use fx_look::CodeValue;
use std::alloc::{AllocError, Global};
use std::cmp::Ordering;

/// One that speaks for a property and doesn't win, and by what it is less than the winner.
#[derive(Clone, Copy, PartialEq, Eq, Debug)]
pub struct Loser {
    pub source: Source,
    pub cut: Cut,
}

/// What wins a property, none where nothing speaks for it, and all others that speak, the greater ones first.
#[derive(Drop)]
pub struct Explained {
    pub winner: Option<Source>,
    pub losers: List<Loser>,
}

/// Why the property of this name has its value: its code values and its declarations in the rules that match, in the
/// order of the cascade. Matches name their rules as `fx_select::RuleIndex::matched` gives them.
pub fn explain(
    alloc: Global,
    sheets: &[SheetAt],
    matched: &[Candidate],
    codes: &[CodeValue],
    property: &str,
) -> Result<Explained, AllocError>
    ensures { IfOk result (λ told. IsExplained sheets.now matched.now codes.now property.now told) }
{
    let mut sources = sources_for(alloc, sheets, matched, codes, property)?;
    sort_falling(&mut sources, matched);
    told_of(alloc, matched, sources.as_slice())
}

/// Puts the greater ones first.
fn sort_falling(sources: &mut Vec<Source>, matched: &[Candidate])
    ensures complete { IsPermutation sources.old.items sources.new.items }
    ensures falling { AreFalling matched.now sources.new.items }
{
    sources.sort_unstable_by(|one, other| falling(matched, *one, *other));
}

/// The greater one is less in falling order.
fn falling(matched: &[Candidate], one: Source, other: Source) -> Ordering
    ensures { is_lt result ≡ is_below matched.now other one }
{
    if is_below(matched, other, one) {
        Ordering::Less
    } else if is_below(matched, one, other) {
        Ordering::Greater
    } else {
        Ordering::Equal
    }
}

fn told_of(
    alloc: Global,
    matched: &[Candidate],
    falling: &[Source],
) -> Result<Explained, AllocError>
    ensures { IfOk result (λ told. told ≡ told_of matched.now falling.now) }
{
    match falling {
        [winner, losers @ ..] => Ok(Explained {
            winner: Some(*winner),
            losers: List::from_vec(losers_of(alloc, matched, *winner, losers)?),
        }),
        [] => Ok(Explained {
            winner: None,
            losers: List::new(alloc),
        }),
    }
}

fn losers_of(
    alloc: Global,
    matched: &[Candidate],
    winner: Source,
    sources: &[Source],
) -> Result<Vec<Loser>, AllocError>
    ensures { IfOk result (λ losers. losers.items ≡ map (loser_of matched.now winner) sources.now) }
{
    let mut losers = Vec::with_capacity(alloc, sources.len())?;
    for source in sources {
        losers.push(Loser {
            source: *source,
            cut: cut_of(matched, winner, *source),
        })?;
    }
    Ok(losers)
}
