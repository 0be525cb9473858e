//! Texts behind one another.
ghost use Rattle.std.specs.Prelude.{◌≡◌, ◌++◌, ◌∷◌, OnOk};
ghost use Rattle.std.specs.Fmt.{decimal};
ghost use Rattle.std.specs.List.{flat_map};
ghost use Rattle.fx_text.specs.Characters.{full_stop};
ghost use Rattle.fx_stage_text.specs.Printing.{path_text};

use fx_base::Text;
use std::alloc::{AllocError, Global};

/// Appends names, joined by full stops.
pub fn put_path(out: &mut Vec<u8>, path: &[Text]) -> Result<(), AllocError>
    ensures { OnOk result (out.new.items ≡ out.old.items ++ path_text path.now) }
{
    let Some((first, others)) = path.split_first() else {
        return Ok(());
    };
    put(out, first.as_str().as_bytes())?;
    put_others(out, others)
}

/// Appends each name behind a full stop.
fn put_others(out: &mut Vec<u8>, names: &[Text]) -> Result<(), AllocError>
    ensures { OnOk result (out.new.items ≡ out.old.items ++ flat_map (λ name. full_stop ∷ name) names.now) }
{
    for name in names {
        put(out, b".")?;
        put(out, name.as_str().as_bytes())?;
    }
    Ok(())
}

/// Appends bytes.
pub fn put(out: &mut Vec<u8>, text: &[u8]) -> Result<(), AllocError>
    ensures { OnOk result (out.new.items ≡ out.old.items ++ text.now) }
{
    out.extend_from_slice(text)
}

/// Appends a number.
pub(crate) fn put_number(alloc: Global, out: &mut Vec<u8>, number: u32) -> Result<(), AllocError>
    ensures { OnOk result (out.new.items ≡ out.old.items ++ decimal number) }
{
    let text = format!(in alloc; "{number}")?;
    put(out, text.as_bytes())
}
