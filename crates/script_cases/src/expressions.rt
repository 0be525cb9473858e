//! Expressions, in front of whose operands the signs stand.
use crate::printed::Printed;
use fx_base::Value;
use fx_expr::{BinarySign, Expr, Parsed, UnarySign};
use std::alloc::AllocError;

/// The paths, and the expression over their places.
pub fn put_parsed(out: &mut Printed, parsed: &Parsed) -> Result<(), AllocError> {
    for path in parsed.paths.as_slice() {
        out.names(path)?;
    }
    put(out, &parsed.expr)
}

fn put(out: &mut Printed, expr: &Expr) -> Result<(), AllocError> {
    match expr {
        Expr::Const(value) => put_value(out, value),
        Expr::Operand(place) => {
            let text = format!(in *out.text.allocator(); " #{place}")?;
            out.put(text.as_str())
        }
        Expr::Unary(sign, inner) => {
            out.put(unary(*sign))?;
            put(out, inner)
        }
        Expr::Binary(sign, left, right) => {
            out.put(binary(*sign))?;
            put(out, left)?;
            put(out, right)
        }
    }
}

fn put_value(out: &mut Printed, value: &Value) -> Result<(), AllocError> {
    match value {
        Value::Int(number) => {
            let text = format!(in *out.text.allocator(); " {number}")?;
            out.put(text.as_str())
        }
        Value::Bool(true) => out.put(" true"),
        Value::Bool(false) => out.put(" false"),
        Value::Text(text) => out.words(" ", &[text.as_str()]),
        Value::Choice(_, _) | Value::Color(_) | Value::Sides(_) => out.put(" ?"),
    }
}

fn unary(sign: UnarySign) -> &'static str {
    match sign {
        UnarySign::Minus => " neg",
        UnarySign::Not => " not",
    }
}

fn binary(sign: BinarySign) -> &'static str {
    match sign {
        BinarySign::Or => " ||",
        BinarySign::And => " &&",
        BinarySign::Equal => " ==",
        BinarySign::Differ => " !=",
        BinarySign::Greater => " >",
        BinarySign::GreaterEqual => " >=",
        BinarySign::Less => " <",
        BinarySign::LessEqual => " <=",
        BinarySign::Plus => " +",
        BinarySign::Minus => " -",
        BinarySign::Times => " *",
        BinarySign::Over => " /",
        BinarySign::Rest => " %",
    }
}
