//! The tree of tokens: signs group by their strength and to the left.
ghost use Rattle.std.specs.Prelude.{◌≡◌, ◌<◌, ◌≤◌, ◌+◌, ◌-◌, ◌*◌, IfOk, IfSome, IfNone, length};
ghost use Rattle.std.specs.Option.{option_map};
ghost use Rattle.fx_expr.specs.Tree.{tree, Two};
ghost use Rattle.fx_expr.specs.Grammar.{strength};
ghost use Rattle.fx_expr.specs.Reading.{Gives, operator_at, level_of, more_of, operand_of, strength_at, whole_of, closed_by};

use crate::paths::place_of;
use crate::stops::Stop;
use crate::tokens::Token;
use crate::tree::{BinarySign, Expr, UnarySign};
use fx_base::{List, Text};
use std::alloc::{AllocError, Global};

const DEPTH_LIMIT: usize = 32;

/// The strength of the weakest sign, `||`.
const WEAKEST: usize = 6;

/// The tree of all the tokens, nested at most 32 deep. Its operands are places in `paths`.
#[tactic(auto, unfolding(crate::specs::Reading::whole_of))]
pub fn whole(alloc: Global, paths: &[List<Text>], tokens: &[Token]) -> Result<Expr, Stop>
    ensures { Gives tree result (whole_of paths.now tokens.now) }
{
    let (expr, rest) = level(alloc, paths, WEAKEST, DEPTH_LIMIT, tokens)?;
    match rest {
        [] => Ok(expr),
        [_, ..] => Err(Stop::Refused),
    }
}

/// Operands and signs of at most this strength, and what is behind them. A level without a sign is passed over.
#[cycle(grouping)]
fn level<'a>(
    alloc: Global,
    paths: &[List<Text>],
    strength: usize,
    depth: usize,
    tokens: &'a [Token],
) -> Result<(Expr, &'a [Token]), Stop>
    ensures { Gives (λ p. (tree p.0, p.1.now)) result (level_of paths.now depth strength tokens.now) }
{
    let (first, behind) = operand(alloc, paths, depth, tokens)?;
    let mut left = first;
    let mut rest = behind;
    let mut done = 0usize;
    while let Some(next) = next_strength(rest, done, strength) {
        let (more, after) = more_operands(alloc, paths, next, depth, left, rest)?;
        left = more;
        rest = after;
        done = next;
    }
    Ok((left, rest))
}

/// The operand on the left with those behind signs of this strength, and what is behind them.
#[cycle(grouping)]
fn more_operands<'a>(
    alloc: Global,
    paths: &[List<Text>],
    strength: usize,
    depth: usize,
    first: Expr,
    tokens: &'a [Token],
) -> Result<(Expr, &'a [Token]), Stop>
    requires { 0 < strength }
    ensures { Gives (λ p. (tree p.0, p.1.now)) result
        (more_of (level_of paths.now depth (strength - 1)) strength (length tokens.now) (tree first) tokens.now) }
{
    let mut left = first;
    let mut rest = tokens;
    for _ in 0..tokens.len() {
        match operator(strength, rest) {
            Some((sign, next)) => {
                let (right, after) = level(alloc, paths, strength - 1, depth, next)?;
                left = joined(alloc, sign, left, right)?;
                rest = after;
            }
            None => return Ok((left, rest)),
        }
    }
    Ok((left, rest))
}

/// A constant, a path, an operand behind a sign, or an expression in parentheses, and what is behind it.
#[cycle(grouping)]
#[tactic(auto, unfolding(crate::specs::Reading::operand_of))]
fn operand<'a>(
    alloc: Global,
    paths: &[List<Text>],
    depth: usize,
    tokens: &'a [Token],
) -> Result<(Expr, &'a [Token]), Stop>
    ensures { Gives (λ p. (tree p.0, p.1.now)) result (operand_of paths.now depth tokens.now) }
{
    match tokens {
        [Token::Constant(value), rest @ ..] => Ok((Expr::Const(value.copy(alloc)?), rest)),
        [Token::Path(names), rest @ ..] => Ok((Expr::Operand(place_of(paths, names)), rest)),
        [Token::Binary(BinarySign::Minus), rest @ ..] if depth > 0 => {
            let (inner, rest) = operand(alloc, paths, depth - 1, rest)?;
            let inner = Box::new(alloc, inner)?;
            Ok((Expr::Unary(UnarySign::Minus, inner), rest))
        }
        [Token::Exclamation, rest @ ..] if depth > 0 => {
            let (inner, rest) = operand(alloc, paths, depth - 1, rest)?;
            let inner = Box::new(alloc, inner)?;
            Ok((Expr::Unary(UnarySign::Not, inner), rest))
        }
        [Token::Opening, rest @ ..] if depth > 0 => {
            let (inner, rest) = level(alloc, paths, WEAKEST, depth - 1, rest)?;
            match rest {
                [Token::Closing, rest @ ..] => Ok((inner, rest)),
                _ => Err(Stop::Refused),
            }
        }
        _ => Err(Stop::Refused),
    }
}

fn joined(alloc: Global, sign: BinarySign, left: Expr, right: Expr) -> Result<Expr, AllocError>
    ensures { IfOk result (λ e. tree e ≡ Two sign (tree left) (tree right)) }
{
    let left = Box::new(alloc, left)?;
    let right = Box::new(alloc, right)?;
    Ok(Expr::Binary(sign, left, right))
}

fn operator(strength: usize, tokens: &[Token]) -> Option<(BinarySign, &[Token])>
    ensures { option_map (λ p. (p.0, p.1.now)) result ≡ operator_at strength tokens.now }
{
    match tokens {
        [Token::Binary(sign), rest @ ..] => {
            if strength_of(*sign) == strength {
                return Some((*sign, rest));
            }
            None
        }
        _ => None,
    }
}

/// The strength of the sign at the front, if it is more than one and at most the other.
fn next_strength(tokens: &[Token], done: usize, most: usize) -> Option<usize>
    ensures found { IfSome result (λ s. (strength_at tokens.now ≡ s) × (done < s) × (s ≤ most)) }
    ensures none { IfNone result (done < strength_at tokens.now → strength_at tokens.now ≤ most → ⊥) }
{
    let next = strength_at(tokens);
    if next <= done || most < next {
        return None;
    }
    Some(next)
}

/// The strength of the sign at the front, or 0 where there is none.
fn strength_at(tokens: &[Token]) -> usize
    ensures { result ≡ strength_at tokens.now }
{
    match tokens {
        [Token::Binary(sign), ..] => strength_of(*sign),
        _ => 0,
    }
}

fn strength_of(sign: BinarySign) -> usize
    ensures { result ≡ strength sign }
{
    match sign {
        BinarySign::Times | BinarySign::Over | BinarySign::Rest => 1,
        BinarySign::Plus | BinarySign::Minus => 2,
        BinarySign::Greater | BinarySign::GreaterEqual | BinarySign::Less | BinarySign::LessEqual =>
            3,
        BinarySign::Equal | BinarySign::Differ => 4,
        BinarySign::And => 5,
        BinarySign::Or => 6,
    }
}
