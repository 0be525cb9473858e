//! By what one that speaks for a property is less than the winner.
ghost use Rattle.std.specs.Prelude.{◌≡◌, ◌∷◌, [], false};
ghost use Rattle.std.specs.Option.{option_copied};
ghost use Rattle.fx_cascade.specs.Ranks.{code_key, matched_key, origin_rank, precedes};
ghost use Rattle.fx_explain.specs.Cuts.{cut_of};
ghost use Rattle.fx_explain.specs.Standings.{IsStanding, cut_between, cut_of_place, standing_key};

use fx_cascade::Source;
use fx_css_types::{Candidate, SheetOrigin};

/// What is compared of two that speak for a property, in this order.
#[derive(Clone, Copy, PartialEq, Eq, Debug)]
pub enum Cut {
    /// A bound value is above all else.
    Bound,
    Origin,
    Specificity,
    /// The place of the sheet.
    Sheet,
    /// The place of the rule in its sheet.
    Rule,
    /// The place of the declaration in its rule.
    Place,
}

/// What of two that speak is compared, as the cascade orders them.
#[derive(Clone, Copy)]
struct Standing {
    bound: bool,
    origin: (u32, u32),
    specificity: (u32, u32, u32),
    sheet: usize,
    rule: usize,
    place: usize,
}

/// The first part of the order in which the loser is less than the winner; the last part where it is less in none.
#[tactic(auto, unfolding(crate::specs::Cuts::cut_of))]
pub fn cut_of(matched: &[Candidate], winner: Source, loser: Source) -> Cut
    ensures { result ≡ cut_of matched.now winner loser }
{
    cut_between(standing_of(matched, winner), standing_of(matched, loser))
}

fn cut_between(winner: Standing, loser: Standing) -> Cut
    ensures { result ≡ cut_between winner loser }
{
    if winner.bound && !loser.bound {
        Cut::Bound
    } else if is_less_pair(loser.origin, winner.origin) {
        Cut::Origin
    } else if is_less_triple(loser.specificity, winner.specificity) {
        Cut::Specificity
    } else {
        cut_of_place(winner, loser)
    }
}

fn cut_of_place(winner: Standing, loser: Standing) -> Cut
    ensures { result ≡ cut_of_place winner loser }
{
    if loser.sheet < winner.sheet {
        Cut::Sheet
    } else if loser.rule < winner.rule {
        Cut::Rule
    } else {
        Cut::Place
    }
}

fn is_less_pair(one: (u32, u32), other: (u32, u32)) -> bool
    ensures { result ≡ precedes (one.0 ∷ one.1 ∷ []) (other.0 ∷ other.1 ∷ []) }
{
    one.0 < other.0 || (one.0 == other.0 && one.1 < other.1)
}

fn is_less_triple(one: (u32, u32, u32), other: (u32, u32, u32)) -> bool
    ensures { result ≡ precedes (one.0 ∷ one.1 ∷ one.2 ∷ []) (other.0 ∷ other.1 ∷ other.2 ∷ []) }
{
    one.0 < other.0
        || (one.0 == other.0 && (one.1 < other.1 || (one.1 == other.1 && one.2 < other.2)))
}

fn standing_of(matched: &[Candidate], source: Source) -> Standing
    ensures { IsStanding matched.now source result }
{
    match source {
        Source::Code(bound) => standing_of_code(bound),
        Source::Declared(at, place) => standing_of_match(matched.get(at), place),
    }
}

fn standing_of_code(bound: bool) -> Standing
    ensures bound { result.bound ≡ bound }
    ensures keyed { standing_key result ≡ code_key bound }
{
    Standing {
        bound,
        origin: (if bound { 5 } else { 1 }, 0),
        specificity: (0, 0, 0),
        sheet: 0,
        rule: 0,
        place: 0,
    }
}

fn standing_of_match(candidate: Option<&Candidate>, place: usize) -> Standing
    ensures bound { result.bound ≡ false }
    ensures keyed { standing_key result ≡ matched_key (option_copied candidate.entry) place }
{
    match candidate {
        Some(candidate) => Standing {
            bound: false,
            origin: origin_rank(candidate.origin),
            specificity: candidate.specificity,
            sheet: candidate.sheet,
            rule: candidate.rule,
            place,
        },
        None => Standing {
            bound: false,
            origin: (0, 0),
            specificity: (0, 0, 0),
            sheet: 0,
            rule: 0,
            place: 0,
        },
    }
}

fn origin_rank(origin: SheetOrigin) -> (u32, u32)
    ensures { result ≡ origin_rank origin }
{
    match origin {
        SheetOrigin::Agent => (0, 0),
        SheetOrigin::Scene => (2, 0),
        SheetOrigin::Parent(depth) => (3, depth),
        SheetOrigin::Inline => (4, 0),
    }
}
