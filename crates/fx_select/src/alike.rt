//! Nodes that differ in their ids alone: where no selector asks for these, the same rules match.
ghost use Rattle.std.specs.Prelude.{◌≡◌, ◌↔◌, IsTrue, List};
ghost use Rattle.fx_css_types.specs.declared.sheets.SheetAt.{SheetAt as SheetValue};
ghost use Rattle.fx_kinds.specs.declared.facts.StyleFacts.{StyleFacts as StyleFactsValue};
ghost use Rattle.fx_select.specs.Alike.{AreAlike, IsUnasked, MatchAlike};
ghost use Rattle.fx_select.specs.Listing.{IsListing, Listing};

use fx_base::Same;
use fx_kinds::StyleFacts;

/// Below the same ancestors the same rules match two nodes of which all but the ids is the same, where no selector asks
/// for the id of either.
pub fn ids_that_nobody_asks_for()
    ensures { (sheets : List SheetValue) (listing : Listing) (one other : StyleFactsValue)
        (above : List StyleFactsValue) → IsListing sheets listing → AreAlike one other
        → IsUnasked listing one → IsUnasked listing other → MatchAlike sheets one other above }
{}

/// Do selectors and sheets see the same of both nodes, their ids aside?
pub fn are_alike(one: &StyleFacts, other: &StyleFacts) -> bool
    ensures { IsTrue result ↔ AreAlike one.now other.now }
{
    has_same_names(one, other) && has_same_sheets(one, other)
}

fn has_same_names(one: &StyleFacts, other: &StyleFacts) -> bool
    ensures { IsTrue result ↔ ((one.now.class ≡ other.now.class) × (one.now.classes ≡ other.now.classes)
        × (one.now.pseudos ≡ other.now.pseudos)) }
{
    one.class == other.class
        && one.classes.is_same(&other.classes)
        && one.pseudos.is_same(&other.pseudos)
}

fn has_same_sheets(one: &StyleFacts, other: &StyleFacts) -> bool
    ensures { IsTrue result ↔ ((one.now.inline ≡ other.now.inline) × (one.now.sheets ≡ other.now.sheets)) }
{
    one.inline == other.inline && one.sheets.as_slice() == other.sheets.as_slice()
}
