//! The order of what speaks for a property.
ghost use Rattle.std.specs.Prelude.{◌≡◌, Some, if◌then◌else◌};
ghost use Rattle.std.specs.Option.{option_copied};
ghost use Rattle.fx_cascade.specs.Ranks.{code_key, declared_key, greater, greater_of, is_below, key, matched_key, origin_rank, precedes};
ghost use Rattle.fx_cascade.specs.RankKeys.{place_key, rank_key, weight_key};

use crate::sources::Source;
use fx_css_types::{Candidate, SheetOrigin};

/// By what values are ordered, the first field first. The origin has the depth of a parent beside it.
#[derive(Clone, Copy)]
pub(crate) struct Rank {
    pub origin: (u32, u32),
    pub specificity: (u32, u32, u32),
    pub sheet: usize,
    pub rule: usize,
    pub place: usize,
}

fn origin_rank(origin: SheetOrigin) -> (u32, u32)
    ensures { result ≡ origin_rank origin }
{
    match origin {
        SheetOrigin::Agent => (0, 0),
        SheetOrigin::Scene => (2, 0),
        SheetOrigin::Parent(depth) => (3, depth),
        SheetOrigin::Inline => (4, 0),
    }
}

fn origin_alone(origin: (u32, u32)) -> Rank
    ensures { result ≡ record { origin = origin; specificity = (0, 0, 0); sheet = 0; rule = 0; place = 0 } }
{
    Rank {
        origin,
        specificity: (0, 0, 0),
        sheet: 0,
        rule: 0,
        place: 0,
    }
}

fn code_rank(bound: bool) -> Rank
    ensures { rank_key result ≡ code_key bound }
{
    if bound {
        origin_alone((5, 0))
    } else {
        origin_alone((1, 0))
    }
}

fn declared_rank(candidate: &Candidate, place: usize) -> Rank
    ensures { rank_key result ≡ declared_key candidate.now place }
{
    Rank {
        origin: origin_rank(candidate.origin),
        specificity: candidate.specificity,
        sheet: candidate.sheet,
        rule: candidate.rule,
        place,
    }
}

fn matched_rank(candidate: Option<&Candidate>, place: usize) -> Rank
    ensures { rank_key result ≡ matched_key (option_copied candidate.entry) place }
{
    match candidate {
        Some(candidate) => declared_rank(candidate, place),
        None => origin_alone((0, 0)),
    }
}

fn rank_of(matched: &[Candidate], source: Source) -> Rank
    ensures { rank_key result ≡ key matched.now source }
{
    match source {
        Source::Code(bound) => code_rank(bound),
        Source::Declared(at, place) => matched_rank(matched.get(at), place),
    }
}

fn is_lower(one: Rank, other: Rank) -> bool
    ensures { result ≡ precedes (rank_key one) (rank_key other) }
{
    one.origin.0 < other.origin.0
        || (one.origin.0 == other.origin.0
            && (one.origin.1 < other.origin.1
                || (one.origin.1 == other.origin.1 && is_weaker(one, other))))
}

/// Is it less specific, or as specific and earlier?
fn is_weaker(one: Rank, other: Rank) -> bool
    ensures { result ≡ precedes (weight_key one) (weight_key other) }
{
    one.specificity.0 < other.specificity.0
        || (one.specificity.0 == other.specificity.0
            && (one.specificity.1 < other.specificity.1
                || (one.specificity.1 == other.specificity.1
                    && (one.specificity.2 < other.specificity.2
                        || (one.specificity.2 == other.specificity.2 && is_earlier(one, other))))))
}

/// Does it stand earlier, by sheet, rule and place?
fn is_earlier(one: Rank, other: Rank) -> bool
    ensures { result ≡ precedes (place_key one) (place_key other) }
{
    one.sheet < other.sheet
        || (one.sheet == other.sheet
            && (one.rule < other.rule || (one.rule == other.rule && one.place < other.place)))
}

/// Is the first below the second in the order of the cascade: by origin, then specificity, then sheet, rule and place?
pub fn is_below(matched: &[Candidate], one: Source, other: Source) -> bool
    ensures { result ≡ is_below matched.now one other }
{
    is_lower(rank_of(matched, one), rank_of(matched, other))
}

pub(crate) fn greater_of(matched: &[Candidate], best: Source, said: Source) -> Source
    ensures { result ≡ greater_of matched.now best said }
{
    if is_below(matched, said, best) {
        best
    } else {
        said
    }
}

/// The best so far, after one more that speaks.
#[tactic(auto, unfolding(crate::specs::Ranks::greater))]
pub(crate) fn greater(matched: &[Candidate], best: Option<Source>, said: Source) -> Option<Source>
    ensures { result ≡ greater matched.now best said }
{
    match best {
        None => Some(said),
        Some(best) => Some(greater_of(matched, best, said)),
    }
}
