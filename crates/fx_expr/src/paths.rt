//! The different paths of an expression.
ghost use Rattle.std.specs.Prelude.{◌≡◌, ◌<◌, ◌≤◌, ◌∷◌, ◌++◌, [], IfOk, OnOk, length, position};
ghost use Rattle.std.specs.List.{list_any};
ghost use Rattle.fx_expr.specs.Operands.{same_path, paths_in, once, place_in, with_path};

use crate::tokens::Token;
use fx_base::{List, Text};
use std::alloc::{AllocError, Global};

/// The greatest number of different paths in an expression.
pub const PATH_LIMIT: usize = 256;

/// Each different path once, in order of first occurrence. Past the limit they are no longer listed.
pub fn different_paths(alloc: Global, tokens: &[Token]) -> Result<Vec<List<Text>>, AllocError>
    ensures few { IfOk result (λ paths. length paths.items ≤ 256 → paths.items ≡ once (paths_in tokens.now)) }
    ensures many { IfOk result (λ paths. 256 < length paths.items → 256 < length (once (paths_in tokens.now))) }
{
    let mut paths = Vec::new(alloc);
    for token in tokens {
        add_path(alloc, &mut paths, token)?;
        if paths.len() > PATH_LIMIT {
            return Ok(paths);
        }
    }
    Ok(paths)
}

fn add_path(alloc: Global, paths: &mut Vec<List<Text>>, token: &Token) -> Result<(), AllocError>
    ensures { OnOk result (paths.new.items ≡ with_path paths.old.items token.now) }
{
    match token {
        Token::Path(names) => {
            if contains(paths.as_slice(), names) {
                return Ok(());
            }
            paths.push(names.copy(alloc)?)?;
            Ok(())
        }
        _ => Ok(()),
    }
}

fn contains(paths: &[List<Text>], names: &List<Text>) -> bool
    ensures { result ≡ list_any (λ path. same_path path names.now) paths.now }
{
    paths.iter().any(|path| is_same(path, names))
}

#[tactic(auto, unfolding(crate::specs::Operands::same_path))]
fn is_same(a: &List<Text>, b: &List<Text>) -> bool
    ensures { result ≡ same_path a.now b.now }
{
    a.as_slice() == b.as_slice()
}

/// The place of the path in the list, or the list's length where it isn't there.
#[tactic(auto, unfolding(crate::specs::Operands::place_in))]
pub fn place_of(paths: &[List<Text>], names: &List<Text>) -> usize
    ensures { result ≡ place_in paths.now names.now }
{
    match find(paths, names) {
        Some(place) => place,
        None => paths.len(),
    }
}

fn find(paths: &[List<Text>], names: &List<Text>) -> Option<usize>
    ensures { result ≡ position (λ path. same_path path names.now) paths.now }
{
    paths.iter().position(|path| is_same(path, names))
}
