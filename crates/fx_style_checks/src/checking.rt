//! What updates ask of the facts of nodes, tested.
ghost use Rattle.std.specs.Prelude.{◌≡◌, ◌↔◌, ◌<◌, ℕ, IsTrue, Some, length, slice_get, true};
ghost use Rattle.fx_kinds.specs.declared.facts.StyleFacts.{StyleFacts as Facts};
ghost use Rattle.fx_select.specs.Chains.{ParentsStandBefore};
ghost use Rattle.fx_cascade.specs.Tables.{AreRows};
ghost use Rattle.fx_style.specs.Kept.{AreDifferent, is_key};
ghost use Rattle.fx_style.specs.Rules.{HaveRows};

use fx_kinds::StyleFacts;
use fx_look::{CodeValue, STYLE_COUNT};
use fx_style::is_key;

/// Do parents stand before their children, have no two nodes one key, and are all code values of rows that the style
/// table has? Compares each key with each other.
pub fn can_be_styled(facts: &[StyleFacts]) -> bool
    ensures before { IsTrue result → ParentsStandBefore facts.now }
    ensures keys { IsTrue result → AreDifferent facts.now }
    ensures codes { IsTrue result → HaveRows facts.now }
    ensures only { ParentsStandBefore facts.now → AreDifferent facts.now → HaveRows facts.now → IsTrue result }
{
    stand_before(facts) && are_different(facts) && have_rows(facts)
}

fn stand_before(facts: &[StyleFacts]) -> bool
    ensures { IsTrue result ↔ ParentsStandBefore facts.now }
{
    for (at, node) in facts.iter().enumerate() {
        if let Some(parent) = node.parent {
            if parent >= at {
                return false;
            }
        }
    }
    true
}

fn are_different(facts: &[StyleFacts]) -> bool
    ensures { IsTrue result ↔ AreDifferent facts.now }
{
    for (at, node) in facts.iter().enumerate() {
        if !stands_alone(facts, at, node) {
            return false;
        }
    }
    true
}

/// Has no other node the key of this one?
fn stands_alone(facts: &[StyleFacts], at: usize, node: &StyleFacts) -> bool
    ensures { IsTrue result ↔ ((other : ℕ) (b : Facts) → slice_get facts.now other ≡ Some b
        → is_key b.key node.now.key ≡ true → other ≡ at) }
{
    for (other, one) in facts.iter().enumerate() {
        if other != at && is_key(one.key, node.key) {
            return false;
        }
    }
    true
}

fn have_rows(facts: &[StyleFacts]) -> bool
    ensures { IsTrue result ↔ HaveRows facts.now }
{
    for node in facts {
        if !are_rows(node.codes.as_slice()) {
            return false;
        }
    }
    true
}

fn are_rows(codes: &[CodeValue]) -> bool
    ensures { IsTrue result ↔ AreRows codes.now }
{
    for code in codes {
        if code.style.0 >= STYLE_COUNT as u32 {
            return false;
        }
    }
    true
}
