//! What is true of what the line tells.
ghost use Rattle.std.specs.Prelude.{◌≡◌, ℕ, List};
ghost use Rattle.fx_base.specs.declared.keys.NodeKey.{NodeKey};
ghost use Rattle.fx_plain_explain.specs.Explaining.{IsExplainLine, IsToldOf};
ghost use Rattle.fx_plain_steps.specs.Lines.{Step};
ghost use Rattle.fx_stage_facts.specs.Sheets.{sheets_of};
ghost use Rattle.fx_stage_facts.specs.Styles.{style_facts};
ghost use Rattle.fx_stage_model.specs.World.{World};
ghost use Rattle.fx_style.specs.Rules.{winner_at};

use fx_explain::{one_explanation, the_winner_is_the_best};
use fx_stage_facts::facts_fit_together;
use fx_style::matches_name_each_rule_once;

/// The line tells one text and leaves one world.
pub fn one_step()
    ensures { (number : ℕ) (path : List (List ℕ)) (name : List ℕ) (world : World) (one other : Step)
        → IsExplainLine number path name world one → IsExplainLine number path name world other → one ≡ other }
{
    one_explanation();
    matches_name_each_rule_once();
}

/// The winner that is told is the one that the node's style has.
pub fn the_winner_is_that_of_the_style()
    ensures { (world : World) (key : NodeKey) (name text : List ℕ)
        (told : IsToldOf (sheets_of world) (style_facts world) key name text)
        → told.told.told.winner ≡ winner_at (sheets_of world) (style_facts world) told.at name }
{
    facts_fit_together();
    the_winner_is_the_best();
    matches_name_each_rule_once();
}
