//! The line that tells what was dropped of a sheet.
ghost use Rattle.std.specs.Prelude.{◌≡◌, IfOk};
ghost use Rattle.fx_load_parts.specs.Warnings.{warn_line};

use fx_base::{Place, Position};
use std::alloc::{AllocError, Global};

/// The line `warn FILE LINE COLUMN` at a place of the file of this name.
#[tactic(auto, unfolding(crate::specs::Warnings::warn_line))]
pub fn warning_line(alloc: Global, name: &str, place: Place) -> Result<Vec<u8>, AllocError>
    ensures { IfOk result (λ text. text.items ≡ warn_line name.now place) }
{
    let Position { line, column } = place.position;
    Ok(format!(in alloc; "warn {name} {line} {column}\n")?.into_bytes())
}
