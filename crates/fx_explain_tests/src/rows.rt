//! What is asked of explanations one by one. Whole explanations are cases of explain_cases.
use fx_cascade::Source;
use fx_css_types::{Candidate, SheetOrigin};
use fx_explain::{Cut, Rank, cut_of, rank_of};

/// A rule of a sheet of the scene, selected by a class.
const MATCHED: [Candidate; 1] = [Candidate {
    sheet: 0,
    rule: 0,
    specificity: (0, 1, 0),
    origin: SheetOrigin::Scene,
}];

/// Of two declarations of one rule the later one wins.
#[test]
fn earlier_declarations_lose_by_place(rt: HostRuntime) {
    let cut = cut_of(&MATCHED, Source::Declared(0, 1), Source::Declared(0, 0));
    assert!(rt; cut == Cut::Place);
}

#[test]
fn rules_that_do_not_match_have_no_rank(rt: HostRuntime) {
    assert!(rt; rank_of(&[], &[], &MATCHED, Source::Code(true)) == Some(Rank::Bound));
    assert!(rt; rank_of(&[], &[], &MATCHED, Source::Declared(1, 0)).is_none());
}
