//! Inline styles.
ghost use Rattle.std.specs.Prelude.{◌≡◌, IfOk, None, Some, if◌then◌else◌};
ghost use Rattle.fx_stage_model.specs.Dressing as spec;

use fx_base::{List, Place};
use fx_css::{SheetError, read_inline};
use fx_css_types::Sheet;
use std::alloc::{AllocError, Global};

/// The most bytes of a text that is read as a style.
const LONGEST_STYLE: usize = 4_194_304;

/// The sheet that the text is read as, or none where the text is too long or something in it is past a limit.
pub fn read_style(alloc: Global, text: &str) -> Result<Option<Sheet>, AllocError>
    ensures { IfOk result (λ found. found
        ≡ (if spec.is_past_limit text.now then None else Some (spec.style_sheet text.now))) }
{
    if text.len() > LONGEST_STYLE {
        return Ok(None);
    }
    match read_inline(alloc, text) {
        Ok(sheet) => Ok(Some(sheet)),
        Err(SheetError::Limit(_)) => Ok(None),
        Err(_) => Err(AllocError),
    }
}

/// The same places once more.
pub fn copy_places(alloc: Global, places: &[Place]) -> Result<List<Place>, AllocError>
    ensures { IfOk result (λ copies. copies ≡ places.now) }
{
    let mut copies = Vec::with_capacity(alloc, places.len())?;
    for place in places {
        copies.push(*place)?;
    }
    Ok(List::from_vec(copies))
}
