//! What is told of a line.
ghost use Rattle.std.specs.Prelude.{◌≡◌, ◌++◌, OnOk};
ghost use Rattle.std.specs.List.{flat_map};
ghost use Rattle.std.specs.Option.{option_copied};
ghost use Rattle.fx_stage_text.specs.Printing as spec;

use crate::paths::{put, put_number, put_path};
use fx_base::{Place, Text, Value};
use std::alloc::{AllocError, Global};

/// Appends `refused LINE WORD`.
#[tactic(auto, unfolding(crate::specs::Printing::refused_line))]
pub fn print_refusal(
    alloc: Global,
    out: &mut Vec<u8>,
    number: u32,
    word: &str,
) -> Result<(), AllocError>
    ensures { OnOk result (out.new.items ≡ out.old.items ++ spec.refused_line number word.now) }
{
    put(out, b"refused ")?;
    put_number(alloc, out, number)?;
    put(out, b" ")?;
    put(out, word.as_bytes())?;
    put(out, b"\n")
}

/// Appends `say TEXT`.
#[tactic(auto, unfolding(crate::specs::Printing::said_line))]
pub fn print_saying(out: &mut Vec<u8>, text: &str) -> Result<(), AllocError>
    ensures { OnOk result (out.new.items ≡ out.old.items ++ spec.said_line text.now) }
{
    put(out, b"say ")?;
    put(out, text.as_bytes())?;
    put(out, b"\n")
}

/// Appends that more actions were to run behind the line with this number than may.
#[tactic(auto, unfolding(crate::specs::Printing::overrun_line))]
pub fn print_overrun(alloc: Global, out: &mut Vec<u8>, number: u32) -> Result<(), AllocError>
    ensures { OnOk result (out.new.items ≡ out.old.items ++ spec.overrun_line number) }
{
    put(out, b"overrun ")?;
    put_number(alloc, out, number)?;
    put(out, b"\n")
}

/// Appends `value NAME V`, if a value was asked for by this path.
pub fn print_value(
    alloc: Global,
    out: &mut Vec<u8>,
    path: &[Text],
    value: Option<&Value>,
) -> Result<(), AllocError>
    ensures { OnOk result (out.new.items
        ≡ out.old.items ++ spec.value_lines path.now (option_copied value.entry)) }
{
    match value {
        None => Ok(()),
        Some(value) => print_value_line(alloc, out, path, value),
    }
}

#[tactic(auto, unfolding(crate::specs::Printing::value_line))]
fn print_value_line(
    alloc: Global,
    out: &mut Vec<u8>,
    path: &[Text],
    value: &Value,
) -> Result<(), AllocError>
    ensures { OnOk result (out.new.items ≡ out.old.items ++ spec.value_line path.now value.now) }
{
    put(out, b"value ")?;
    put_path(out, path)?;
    put(out, b" ")?;
    value.print(alloc, out)?;
    put(out, b"\n")
}

/// Appends `warn inline LINE COLUMN` for each part that was dropped of an inline style.
pub fn print_warnings(
    alloc: Global,
    out: &mut Vec<u8>,
    number: u32,
    warnings: &[Place],
) -> Result<(), AllocError>
    ensures { OnOk result (out.new.items
        ≡ out.old.items ++ flat_map (spec.warning_line number) warnings.now) }
{
    for place in warnings {
        print_warning(alloc, out, number, *place)?;
    }
    Ok(())
}

#[tactic(auto, unfolding(crate::specs::Printing::warning_line))]
fn print_warning(
    alloc: Global,
    out: &mut Vec<u8>,
    number: u32,
    place: Place,
) -> Result<(), AllocError>
    ensures { OnOk result (out.new.items ≡ out.old.items ++ spec.warning_line number place) }
{
    let column = place.position.column;
    let text = format!(in alloc; "warn inline {number} {column}\n")?;
    put(out, text.as_bytes())
}
