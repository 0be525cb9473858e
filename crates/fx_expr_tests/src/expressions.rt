//! An expression is read, copied and filled, and is a number where numbers alone make it. What expressions mean,
//! refusals and limits are stored cases of reader_cases.
ghost use Rattle.std.specs.Prelude.{◌<◌, length};

use fx_base::{Name, Text, Value};
use fx_expr::{BinarySign, Expr, as_text, fill, number_over, read_expr};
use std::alloc::{AllocError, Global};
use std::test::Fail;

#[test]
fn fills_and_copies(rt: HostRuntime) -> Result<(), Fail> {
    let alloc = rt.alloc();
    let parsed = read_expr(alloc, "a.b + c * a.b")?;
    let paths = parsed.paths.as_slice();
    assert_eq!(rt; paths.len(), 2);
    let copy = parsed.copy(alloc)?;
    assert_eq!(rt; copy.paths.as_slice().len(), 2);
    let mut known = Vec::new(alloc);
    known.push(None)?;
    known.push(Some(Value::Int(3)))?;
    let expr = fill(alloc, copy, known)?.copy(alloc)?;
    let text = as_text(alloc, expr)?;
    let shape = matches!(&text, Expr::Binary(BinarySign::Plus, _, _));
    assert!(rt; shape);
    Ok(())
}

/// The rest that the value at the third name leaves by the one at the first.
fn rest_of_third(alloc: Global, values: &[Value]) -> Result<Option<i64>, AllocError>
    requires { 2 < length values.now }
{
    let left = Box::new(alloc, Expr::Operand(0))?;
    let right = Box::new(alloc, Expr::Operand(1))?;
    let expr = Expr::Binary(BinarySign::Rest, left, right);
    let operands = [Name(2), Name(0)];
    Ok(number_over(&expr, &operands, values))
}

#[test]
fn takes_numbers_at_their_names(rt: HostRuntime) -> Result<(), Fail> {
    let values = [Value::Int(7), Value::Bool(true), Value::Int(31)];
    let rest = rest_of_third(rt.alloc(), &values)?;
    assert_eq!(rt; rest, Some(3));
    Ok(())
}

#[test]
fn has_no_number_of_a_text(rt: HostRuntime) -> Result<(), Fail> {
    let alloc = rt.alloc();
    let values = [
        Value::Text(Text::new(alloc)),
        Value::Bool(true),
        Value::Int(31),
    ];
    let rest = rest_of_third(alloc, &values)?;
    assert_eq!(rt; rest, None);
    Ok(())
}
