//! A location joined to the folder of a file.
ghost use Rattle.std.specs.Prelude.{◌≡◌, ◌++◌, IfOk, map};
ghost use Rattle.std.specs.List.{list_any};
ghost use Rattle.fx_scene_places.specs.Places as spec;

use crate::walking::{folder_of, parts_of, walk};
use fx_base::Str;
use std::alloc::{AllocError, Global};

/// The name of the file at a location beside a file, or none where the location is bad. A location is judged by its
/// text; it has parts between slashes, of which `.` is the folder itself and `..` the one above.
#[tactic(auto, unfolding(crate::specs::Places::joined))]
pub fn joined(alloc: Global, file: &str, location: &str) -> Result<Option<Str>, AllocError>
    ensures { IfOk result (λ name. name ≡ spec.joined file.now location.now) }
{
    if is_barred(location) {
        return Ok(None);
    }
    let parts = parts_of(alloc, location)?;
    let mut folder = folder_of(alloc, file)?;
    if !walk(&mut folder, parts.as_slice())? {
        return Ok(None);
    }
    named(alloc, folder.as_slice())
}

fn is_barred(location: &str) -> bool
    ensures { result ≡ spec.is_barred location.now }
{
    location == "" || begins_with_slash(location.as_bytes()) || has_colon(location.as_bytes())
}

fn begins_with_slash(location: &[u8]) -> bool
    ensures { result ≡ spec.begins_with_slash location.now }
{
    match location {
        [first, ..] => *first == b'/',
        [] => false,
    }
}

fn has_colon(location: &[u8]) -> bool
    ensures { result ≡ list_any spec.is_colon location.now }
{
    location.iter().any(|byte| *byte == b':')
}

/// The name of these parts, unless it is empty.
fn named(alloc: Global, parts: &[&str]) -> Result<Option<Str>, AllocError>
    ensures { IfOk result (λ name. name ≡ spec.named (map (λ part. part.now) parts.now)) }
{
    let name = name_of(alloc, parts)?;
    Ok(name_if(name))
}

fn name_if(name: Str) -> Option<Str>
    ensures { result ≡ spec.name_if name }
{
    if name.as_str() == "" {
        None
    } else {
        Some(name)
    }
}

/// The parts with slashes between them.
fn name_of(alloc: Global, parts: &[&str]) -> Result<Str, AllocError>
    ensures { IfOk result (λ name. name ≡ spec.name_of (map (λ part. part.now) parts.now)) }
{
    match parts {
        [first, rest @ ..] => with_rest(alloc, first, rest),
        [] => Ok(Str::from_string(String::new(alloc))),
    }
}

fn with_rest(alloc: Global, first: &str, rest: &[&str]) -> Result<Str, AllocError>
    ensures { IfOk result (λ name. name ≡ first.now ++ spec.rest_name (map (λ part. part.now) rest.now)) }
{
    let mut name = String::from_str(alloc, first)?;
    for part in rest {
        name.push_str("/")?;
        name.push_str(part)?;
    }
    Ok(Str::from_string(name))
}
