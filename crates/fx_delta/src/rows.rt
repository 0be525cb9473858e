//! A row item as text: its place, and its pixels as any row's are printed.
ghost use Rattle.std.specs.Prelude.{◌≡◌, ◌++◌, ◌∷◌, [], IfOk, codes};
ghost use Rattle.std.specs.Fmt.{decimal};
ghost use Rattle.fx_text.specs.Characters.{line_feed, space};
ghost use Rattle.fx_delta.specs.Lines.{item_line};

use fx_row_text::append_row;
use std::alloc::{AllocError, Global};

/// The line of the row item that starts at this place, with its line feed.
#[tactic(auto, unfolding(crate::specs::Lines::item_line))]
pub fn item_text(alloc: Global, x: u32, y: u32, pixels: &[u32]) -> Result<Vec<u8>, AllocError>
    ensures { IfOk result (λ text.
        text.items ≡ item_line (record { x = x; y = y; pixels = pixels.now }) ++ line_feed ∷ []) }
{
    let mut text = item_head(alloc, x, y)?;
    append_row(&mut text, pixels)?;
    Ok(text)
}

fn item_head(alloc: Global, x: u32, y: u32) -> Result<Vec<u8>, AllocError>
    ensures { IfOk result (λ text. text.items ≡ codes "row " ++ (decimal x ++ (space ∷ (decimal y ++ (space ∷ []))))) }
{
    Ok(format!(in alloc; "row {x} {y} ")?.into_bytes())
}
