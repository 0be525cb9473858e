//! The search for a looked-up colour.
ghost use Rattle.std.specs.Prelude.{◌≡◌, ℕ, IfOk, IfSome, IfNone, map, []};
ghost use Rattle.std.specs.List.{list_any};
ghost use Rattle.std.specs.Option.{option_map};
ghost use Rattle.std.specs.Str.{bytes_eq};
ghost use Rattle.fx_base.specs.declared.color.Color.{Color as Rgba};
ghost use Rattle.fx_lookup.specs.Lookups.{LeadsTo, has_name, nearest, resolved};

use crate::named::{NamedPaint, nearest};
use fx_base::{Color, Text};
use fx_css_types::Paint;
use std::alloc::{AllocError, Global};

/// The colour of a name, searched in a chain of nodes: the node being styled, and its ancestors from the nearest. None
/// where the search comes back to a name, comes to one that no node has, or to something else than one colour or name.
/// Takes memory only where a name leads to another.
pub fn resolve<'a>(
    alloc: Global,
    name: &'a Text,
    chain: &[&'a [NamedPaint]],
) -> Result<Option<Color>, AllocError>
    ensures found { IfOk result (λ o. IfSome o (LeadsTo (map (λ n. n.now) chain.now) [] name.now)) }
    ensures none { IfOk result (λ o. IfNone o ((color : Rgba)
        → LeadsTo (map (λ n. n.now) chain.now) [] name.now color → ⊥)) }
    ensures value { IfOk result (λ o. o ≡ resolved (map (λ n. n.now) chain.now) name.now) }
{
    search(alloc, name, chain)
}

fn search<'a>(
    alloc: Global,
    name: &'a Text,
    chain: &[&'a [NamedPaint]],
) -> Result<Option<Color>, AllocError>
    ensures { IfOk result (λ found. found ≡ resolved (map (λ n. n.now) chain.now) name.now) }
{
    let mut visited = Vec::new(alloc);
    let mut current = name;
    while !has_name(visited.as_slice(), current) {
        let Some(paint) = nearest_named(chain, current) else {
            return Ok(None);
        };
        match paint {
            Paint::Color(color) => return Ok(Some(*color)),
            Paint::Named(next) => {
                visited.push(current)?;
                current = next;
            }
        }
    }
    Ok(None)
}

fn nearest_named<'a>(chain: &[&'a [NamedPaint]], name: &Text) -> Option<&'a Paint>
    ensures { option_map (λ p. p.now) result ≡ nearest (map (λ n. n.now) chain.now) name.now }
{
    nearest(chain, name.as_str())
}

fn has_name(names: &[&Text], name: &Text) -> bool
    ensures { result ≡ has_name (map (λ n. n.now) names.now) name.now }
{
    has_text(names, name.as_str())
}

fn has_text(names: &[&Text], name: &str) -> bool
    ensures { result ≡ list_any (λ n. bytes_eq n.now name.now) names.now }
{
    names.iter().any(|one| one.as_str() == name)
}
