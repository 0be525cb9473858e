//! Expressions with what they mean.
ghost use Rattle.std.specs.Prelude.{◌≡◌, IfOk, IsTrue, length};
ghost use Rattle.fx_expr.specs.Tree.{is_within, tree};

use anyhow::bail;
use fx_base::{Kind, Ledgers, List, Text, Value, Work};
use fx_expr::{Expr, ExprError, Parsed, eval, read_expr, type_of};
use std::alloc::{AllocError, Global};

fn operand(path: &List<Text>) -> Value {
    match path.as_slice() {
        [first, ..] => match first.as_str().as_bytes() {
            [b'b', ..] => Value::Bool(true),
            [b'p', ..] => Value::Bool(false),
            [b'n', ..] => Value::Int(-3),
            _ => Value::Int(7),
        },
        [] => Value::Int(0),
    }
}

fn operands(alloc: Global, paths: &[List<Text>]) -> Result<Vec<Value>, AllocError>
    ensures { IfOk result (λ values. length values.items ≡ length paths.now) }
{
    let mut values = Vec::new(alloc);
    for path in paths {
        values.push(operand(path))?;
    }
    Ok(values)
}

fn kinds(alloc: Global, values: &[Value]) -> Result<Vec<Kind>, AllocError>
    ensures { IfOk result (λ kinds. length kinds.items ≡ length values.now) }
{
    let mut kinds = Vec::new(alloc);
    for value in values {
        kinds.push(value.kind())?;
    }
    Ok(kinds)
}

fn name_of(kind: Kind) -> &'static str {
    match kind {
        Kind::Int => "Int ",
        Kind::Bool => "Bool ",
        _ => "Text ",
    }
}

/// Writes the kind of the expression and its value, or why there is none.
pub fn write_meaning<L: Ledgers>(
    alloc: Global,
    text: &str,
    out: &mut String,
    work: &mut Work<L>,
) -> anyhow::Result<()> {
    match read_expr(alloc, text) {
        Ok(parsed) => write_parsed(alloc, &parsed, out, work),
        Err(error) => Ok(out.push_str(name_of_error(error))?),
    }
}

fn name_of_error(error: ExprError) -> &'static str {
    match error {
        ExprError::Syntax => "Syntax",
        ExprError::Depth => "Depth",
        ExprError::Operands => "Operands",
        ExprError::Memory => "Memory",
    }
}

fn write_parsed<L: Ledgers>(
    alloc: Global,
    parsed: &Parsed,
    out: &mut String,
    work: &mut Work<L>,
) -> anyhow::Result<()>
    requires { IsTrue (is_within (tree parsed.now.expr) (length parsed.now.paths)) }
{
    let values = operands(alloc, parsed.paths.as_slice())?;
    write_value(alloc, &parsed.expr, values.as_slice(), out, work)
}

fn write_value<L: Ledgers>(
    alloc: Global,
    expr: &Expr,
    values: &[Value],
    out: &mut String,
    work: &mut Work<L>,
) -> anyhow::Result<()>
    requires { IsTrue (is_within (tree expr.now) (length values.now)) }
{
    let Some(kind) = kind_of(alloc, expr, values)? else {
        return Ok(out.push_str("Mismatch")?);
    };
    let value = eval(alloc, expr, values, work)?;
    out.push_str(name_of(kind))?;
    write_printed(alloc, &value, out)
}

fn kind_of(alloc: Global, expr: &Expr, values: &[Value]) -> Result<Option<Kind>, AllocError>
    requires { IsTrue (is_within (tree expr.now) (length values.now)) }
{
    let kinds = kinds(alloc, values)?;
    Ok(type_of(expr, kinds.as_slice()).ok())
}

fn write_printed(alloc: Global, value: &Value, out: &mut String) -> anyhow::Result<()> {
    let mut bytes = Vec::new(alloc);
    value.print(alloc, &mut bytes)?;
    match str::from_utf8(bytes.as_slice()) {
        Ok(text) => Ok(out.push_str(text)?),
        Err(_) => bail!("not UTF-8"),
    }
}
