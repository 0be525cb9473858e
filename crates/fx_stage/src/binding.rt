//! `bind`: properties whose values are expressions over others.
ghost use Rattle.std.specs.Prelude.{◌≡◌, ◌∷◌, IsTrue, IfOk, Ok, length, map, ◌≤◌, ◌+◌};
ghost use Rattle.fx_expr.specs.Tree.{is_within, tree};
ghost use Rattle.fx_script_commands.specs.Requests.{expression_view};
ghost use Rattle.fx_stage_model.specs.Answers.{all, and_then, both, cost_of};
ghost use Rattle.fx_stage_model.specs.Looking.{find};
ghost use Rattle.fx_stage_model.specs.Properties as spec;
ghost use Rattle.fx_stage_model.specs.Taking.{IsTaken};
ghost use Rattle.fx_stage.specs.Finding.{found_last_first, names_found};

use crate::stage::Stage;
use fx_base::{Ledgers, List, Name, Text, Work};
use fx_expr::{Expr, Parsed};
use fx_graph_model::Formula;
use fx_stage_parts::{both, earlier};
use fx_stage_types::{Outcome, Refusal, StageError};
use fx_stage_words::has_operands;
use fx_store_model::Change;
use std::alloc::{AllocError, Global};

impl Stage {
    /// `bind NAME ${EXPR}`: the property has the expression's value, whatever becomes of its operands.
    #[tactic(auto, unfolding(fx_stage_model::specs::Properties::bind))]
    pub fn bind<L: Ledgers>(
        &mut self,
        alloc: Global,
        path: &[Text],
        parsed: &Parsed,
        work: &mut Work<L>,
    ) -> Result<Outcome, StageError>
        ensures taken { IsTaken (spec.bind path.now (expression_view parsed.now) self.old) self.old self.new result }
        ensures few { work.new.evaluated ≤ work.old.evaluated
            + cost_of (spec.bind path.now (expression_view parsed.now) self.old) }
        ensures others { work.new ≡ record work.old { evaluated = work.new.evaluated } }
    {
        if !has_operands(&parsed.expr, parsed.paths.as_slice().len()) {
            return Err(StageError::Refused(Refusal::Syntax));
        }
        self.bind_within(alloc, path, parsed, work)
    }

    /// Binds the property to the expression, which has all its operands.
    #[tactic(auto, unfolding(fx_stage_model::specs::Properties::bound))]
    fn bind_within<L: Ledgers>(
        &mut self,
        alloc: Global,
        path: &[Text],
        parsed: &Parsed,
        work: &mut Work<L>,
    ) -> Result<Outcome, StageError>
        requires places { IsTrue (is_within (tree parsed.now.expr) (length parsed.now.paths)) }
        ensures taken { IsTaken (spec.bound path.now (expression_view parsed.now) self.old) self.old self.new result }
        ensures few { work.new.evaluated ≤ work.old.evaluated
            + cost_of (spec.bound path.now (expression_view parsed.now) self.old) }
        ensures others { work.new ≡ record work.old { evaluated = work.new.evaluated } }
    {
        let Ok(operands) = self.find_all(alloc, parsed.paths.as_slice()) else {
            return Err(StageError::Memory);
        };
        let Ok(formula) = formula_of(alloc, &parsed.expr) else {
            return Err(StageError::Memory);
        };
        match both(self.find_property(path), operands) {
            Ok((name, operands)) => self.change_store(
                alloc,
                Change::Bind(name, formula, List::from_vec(operands)),
                work,
            ),
            Err(word) => Err(StageError::Refused(word)),
        }
    }

    /// The properties of these paths, or the first word for why one isn't there.
    fn find_all(
        &self,
        alloc: Global,
        paths: &[List<Text>],
    ) -> Result<Result<Vec<Name>, Refusal>, AllocError>
        ensures { IfOk result (λ found. names_found found ≡ all (map (find self.now) paths.now)) }
    {
        let mut names = Vec::with_capacity(alloc, paths.len())?;
        let mut word = None;
        let mut place = paths.len();
        while place > 0 {
            place -= 1;
            word = self.find_before(&paths[place], &mut names, word)?;
        }
        names.reverse();
        match word {
            None => Ok(Ok(names)),
            Some(word) => Ok(Err(word)),
        }
    }

    /// Looks one more path up, which stands before those whose properties these are, the last one first, or of which
    /// one has this word.
    fn find_before(
        &self,
        path: &List<Text>,
        names: &mut Vec<Name>,
        word: Option<Refusal>,
    ) -> Result<Option<Refusal>, AllocError>
        ensures { IfOk result (λ now. found_last_first names.new.items now
            ≡ and_then (both (find self.now path.now) (found_last_first names.old.items word))
            (λ found. Ok (found.0 ∷ found.1))) }
    {
        match self.find_property(path.as_slice()) {
            Ok(name) => {
                names.push(name)?;
                Ok(word)
            }
            Err(refusal) => match word {
                None => Ok(Some(refusal)),
                Some(word) => Ok(Some(earlier(refusal, word))),
            },
        }
    }
}

/// A formula of the same tree.
fn formula_of(alloc: Global, expr: &Expr) -> Result<Formula, AllocError>
    ensures { IfOk result (λ formula. formula ≡ tree expr.now) }
{
    Formula::new(alloc, expr.copy(alloc)?)
}
