//! The text of an expression, read.
ghost use Rattle.std.specs.Prelude.{◌≡◌, ◌<◌, ◌≤◌, ℕ, IfOk, IsTrue, List as Items, length};
ghost use Rattle.std.specs.Str.{chars};
ghost use Rattle.fx_expr.specs.Tree.{tree, is_within, Tree};
ghost use Rattle.fx_expr.specs.Reading.{IsAnswer, reading_of, IsRead, HasForm, IsThat};

use crate::form::is_expression;
use crate::grouping::whole;
use crate::paths::{PATH_LIMIT, different_paths};
use crate::scanning::scan;
use crate::stops::Stop;
use crate::tree::Parsed;
use fx_base::List;
use std::alloc::{AllocError, Global};
use thiserror::Error;

/// Why a text is no expression.
#[derive(Debug, Drop, Error, PartialEq)]
pub enum ExprError {
    #[error("no expression")]
    Syntax,
    /// Parentheses and signs before operands nest more than 32 deep.
    #[error("an expression is nested too deep")]
    Depth,
    /// There are more than 256 different paths.
    #[error("an expression has too many operands")]
    Operands,
    #[error("out of memory")]
    Memory,
}

impl From<AllocError> for ExprError {
    ghost use Rattle.std.specs.Prelude.{◌≡◌};
    ghost use Rattle.fx_expr.specs.declared.reading.ExprError.TheVariants.{Memory};

    ghost from_gives = { λ _ e. e ≡ Memory };

    fn from(_e: AllocError) -> ExprError {
        ExprError::Memory
    }
}

/// The expression that the text is written in (Introduction to FXML, expression binding). Any number of
/// levels makes an expression; more than 32 of them, and then more than 256 different paths, are refused.
pub fn read_expr(alloc: Global, text: &str) -> Result<Parsed, ExprError>
    // What is read is written so.
    ensures found { IfOk result (λ p. IsRead (chars text.now) p.paths (tree p.expr)) }
    ensures few { IfOk result (λ p. length p.paths ≤ 256) }
    ensures within { IfOk result (λ p. IsTrue (is_within (tree p.expr) (length p.paths))) }

    // What is written so is read, unless memory runs out.
    ensures only { (paths : Items (Items (Items ℕ))) (t : Tree) → IsRead (chars text.now) paths t → length paths ≤ 256
        → IsThat t paths result }

    // Which refusal it is.
    ensures syntax { result ≡ Err ExprError.Syntax → HasForm (chars text.now) → ⊥ }
    ensures deep { result ≡ Err ExprError.Depth → HasForm (chars text.now) }
    ensures too_deep { result ≡ Err ExprError.Depth → (paths : Items (Items (Items ℕ))) (t : Tree)
        → IsRead (chars text.now) paths t → ⊥ }
    ensures operands { result ≡ Err ExprError.Operands → (paths : Items (Items (Items ℕ))) × (t : Tree)
        × IsRead (chars text.now) paths t × (256 < length paths) }
{
    parsed(alloc, text)
}

/// A text reads as one tree at most, over one list of paths.
pub fn one_reading()
    ensures { (text : Items ℕ) (paths others : Items (Items (Items ℕ))) (t u : Tree) → IsRead text paths t
        → IsRead text others u → (paths ≡ others) × (t ≡ u) }
{}

#[tactic(auto, unfolding(crate::specs::Reading::reading_of))]
fn parsed(alloc: Global, text: &str) -> Result<Parsed, ExprError>
    ensures { IsAnswer (reading_of (chars text.now)) result }
{
    let tokens = match scan(alloc, text) {
        Ok(tokens) => tokens,
        Err(Stop::Refused) => return Err(ExprError::Syntax),
        Err(Stop::Memory) => return Err(ExprError::Memory),
    };
    if !is_expression(tokens.as_slice()) {
        return Err(ExprError::Syntax);
    }
    let paths = different_paths(alloc, tokens.as_slice())?;
    let expr = match whole(alloc, paths.as_slice(), tokens.as_slice()) {
        Ok(expr) => expr,
        Err(Stop::Refused) => return Err(ExprError::Depth),
        Err(Stop::Memory) => return Err(ExprError::Memory),
    };
    if paths.len() > PATH_LIMIT {
        return Err(ExprError::Operands);
    }
    Ok(Parsed {
        expr,
        paths: List::from_vec(paths),
    })
}
