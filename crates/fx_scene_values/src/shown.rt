//! Numbers and truths, printed.
ghost use Rattle.std.specs.Prelude.{◌≡◌, IfOk};
ghost use Rattle.std.specs.Fmt.{signed_decimal};
ghost use Rattle.std.specs.String.{string_bytes};
ghost use Rattle.fx_base.specs.Printing.{truth_text};

use std::alloc::{AllocError, Global};

pub(crate) fn decimal(alloc: Global, number: i64) -> Result<String, AllocError>
    ensures { IfOk result (λ text. string_bytes text ≡ signed_decimal number) }
{
    Ok(format!(in alloc; "{number}")?)
}

pub(crate) fn truth(alloc: Global, holds: bool) -> Result<String, AllocError>
    ensures { IfOk result (λ text. string_bytes text ≡ truth_text holds) }
{
    if holds {
        String::from_str(alloc, "true")
    } else {
        String::from_str(alloc, "false")
    }
}
