//! The way from a folder along the parts of a location.
ghost use Rattle.std.specs.Prelude.{◌≡◌, IfOk, Some, None, map, Option, if◌then◌else◌};
ghost use Rattle.std.specs.List.{slice_split};
ghost use Rattle.fx_scene_places.specs.Places as spec;

use std::alloc::{AllocError, Global};

/// The parts of a name between slashes.
pub(crate) fn parts_of<'a>(alloc: Global, name: &'a str) -> Result<Vec<&'a str>, AllocError>
    ensures { IfOk result (λ parts. map (λ part. part.now) parts.items ≡ spec.parts_of name.now) }
{
    name.split('/').collect(alloc)
}

/// The parts of the folder in which a file stands.
pub(crate) fn folder_of<'a>(alloc: Global, file: &'a str) -> Result<Vec<&'a str>, AllocError>
    ensures { IfOk result (λ folder. map (λ part. part.now) folder.items ≡ spec.folder_of file.now) }
{
    let mut parts = parts_of(alloc, file)?;
    let _ = parts.pop();
    Ok(parts)
}

/// Goes from the folder along the parts; no, where one of them leads above the start.
#[tactic(auto, unfolding(crate::specs::Places::walked))]
pub(crate) fn walk<'a>(folder: &mut Vec<&'a str>, parts: &[&'a str]) -> Result<bool, AllocError>
    ensures { IfOk result (λ found. spec.walked (map (λ part. part.now) folder.old.items)
        (map (λ part. part.now) parts.now) ≡ (if found then Some (map (λ part. part.now) folder.new.items) else None)) }
{
    for part in parts {
        if !step(folder, part)? {
            return Ok(false);
        }
    }
    Ok(true)
}

/// Goes along one part.
#[tactic(auto, unfolding(crate::specs::Places::stepped))]
fn step<'a>(folder: &mut Vec<&'a str>, part: &'a str) -> Result<bool, AllocError>
    ensures { IfOk result (λ found. spec.stepped (map (λ part. part.now) folder.old.items) part.now
        ≡ (if found then Some (map (λ part. part.now) folder.new.items) else None)) }
{
    if part == ".." {
        return Ok(step_up(folder));
    }
    if part == "." {
        return Ok(true);
    }
    folder.push(part)?;
    Ok(true)
}

fn step_up(folder: &mut Vec<&str>) -> bool
    ensures { spec.above (map (λ part. part.now) folder.old.items)
        ≡ (if result then Some (map (λ part. part.now) folder.new.items) else None) }
{
    if is_top(folder.as_slice()) {
        return false;
    }
    let _ = folder.pop();
    true
}

fn is_top(folder: &[&str]) -> bool
    ensures { result ≡ spec.is_top (map (λ part. part.now) folder.now) }
{
    match folder {
        [] => true,
        [only] => *only == "",
        _ => false,
    }
}
