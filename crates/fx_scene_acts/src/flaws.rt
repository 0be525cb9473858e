//! What is wrong with a document where a step of building is refused.
ghost use Rattle.std.specs.Prelude.{◌≡◌};
ghost use Rattle.fx_scene_acts.specs.Acts as spec;

use fx_scene_flaws::Flaw;
use fx_stage_types::Refusal;

/// What is wrong with a document where a step of building is refused by this word.
#[tactic(auto, unfolding(crate::specs::Acts::flaw_of))]
pub fn flaw_of(word: Refusal) -> Flaw
    ensures { result ≡ spec.flaw_of word }
{
    match word {
        Refusal::Syntax => Flaw::Expression,
        Refusal::Unknown | Refusal::Stale => Flaw::Name,
        Refusal::Property => Flaw::Property,
        Refusal::ReadOnly => Flaw::ReadOnly,
        Refusal::Kinds => Flaw::Kinds,
        Refusal::Value => Flaw::Value,
        Refusal::Exists => Flaw::Duplicate,
        Refusal::Bound | Refusal::Mixed | Refusal::Same | Refusal::Used => Flaw::Value,
        Refusal::Cycle => Flaw::Cycle,
        Refusal::WouldLoop | Refusal::Parent | Refusal::Attached | Refusal::Place => Flaw::Child,
        Refusal::Button => Flaw::Value,
        Refusal::Depth | Refusal::Full => Flaw::Limit,
    }
}
