//! Expressions as trees over constants and numbered operands.
ghost use Rattle.std.specs.Prelude.{◌≡◌, IfOk};
ghost use Rattle.fx_expr.specs.Tree.{tree};

use fx_base::{List, Text, Value};
use std::alloc::{AllocError, Global};

/// A sign before an operand.
#[derive(Clone, Copy, PartialEq, Eq, Debug)]
pub enum UnarySign {
    Minus,
    Not,
}

/// A sign between two operands: `||`, `&&`, `==`, `!=`, `>`, `>=`, `<`, `<=`, `+`, `-`, `*`, `/` and `%`.
#[derive(Clone, Copy, PartialEq, Eq, Debug)]
pub enum BinarySign {
    Or,
    And,
    Equal,
    Differ,
    Greater,
    GreaterEqual,
    Less,
    LessEqual,
    Plus,
    Minus,
    Times,
    Over,
    Rest,
}

/// An expression. An operand is a place in a list of paths, names or values that stands beside it.
#[derive(Drop)]
pub enum Expr {
    Const(Value),
    Operand(usize),
    Unary(UnarySign, Box<Expr>),
    Binary(BinarySign, Box<Expr>, Box<Expr>),
}

impl Expr {
    /// The same tree.
    pub fn copy(&self, alloc: Global) -> Result<Expr, AllocError>
        ensures { IfOk result (λ copy. tree copy ≡ tree self.now) }
    {
        match self {
            Expr::Const(value) => Ok(Expr::Const(value.copy(alloc)?)),
            Expr::Operand(place) => Ok(Expr::Operand(*place)),
            Expr::Unary(sign, inner) => {
                let inner = Box::new(alloc, inner.copy(alloc)?)?;
                Ok(Expr::Unary(*sign, inner))
            }
            Expr::Binary(sign, left, right) => {
                let left = Box::new(alloc, left.copy(alloc)?)?;
                let right = Box::new(alloc, right.copy(alloc)?)?;
                Ok(Expr::Binary(*sign, left, right))
            }
        }
    }
}

/// An expression that was read, and its operands: each different path once, in order of first occurrence.
#[derive(Drop)]
pub struct Parsed {
    pub expr: Expr,
    pub paths: List<List<Text>>,
}

impl Parsed {
    /// The same tree over the same paths.
    pub fn copy(&self, alloc: Global) -> Result<Parsed, AllocError>
        ensures expr { IfOk result (λ copy. tree copy.expr ≡ tree self.now.expr) }
        ensures paths { IfOk result (λ copy. copy.paths ≡ self.now.paths) }
    {
        Ok(Parsed {
            expr: self.expr.copy(alloc)?,
            paths: self.paths.copy(alloc)?,
        })
    }
}
