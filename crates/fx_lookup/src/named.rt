//! What wins for a name on a node, as look-ups see it.
ghost use Rattle.std.specs.Prelude.{◌≡◌, IfOk, map};
ghost use Rattle.std.specs.Option.{option_map};
ghost use Rattle.fx_lookup.specs.Lookups.{nearest, paint_under};

use fx_base::{Duplicate, Text};
use fx_css_types::Paint;
use std::alloc::{AllocError, Global};

/// A name for which something wins on a node, with its paint, or none where something else than one paint wins.
#[derive(Drop)]
pub struct NamedPaint {
    pub name: Text,
    pub paint: Option<Paint>,
}

/// The paint of a name on the first node of a chain that has anything for it.
pub fn nearest<'a>(chain: &[&'a [NamedPaint]], name: &str) -> Option<&'a Paint>
    ensures { option_map (λ p. p.now) result ≡ nearest (map (λ n. n.now) chain.now) name.now }
{
    for node in chain {
        if let Some(found) = under(node, name) {
            return found.paint.as_ref();
        }
    }
    None
}

/// What a node has for the name.
fn under<'a>(paints: &'a [NamedPaint], name: &str) -> Option<&'a NamedPaint>
    ensures { option_map (λ p. p.now.paint) result ≡ paint_under paints.now name.now }
{
    for paint in paints {
        if paint.name.as_str() == name {
            return Some(paint);
        }
    }
    None
}

impl NamedPaint {
    /// A name and paint of the same contents.
    pub fn copy(&self, alloc: Global) -> Result<NamedPaint, AllocError>
        ensures { IfOk result (λ copy. copy ≡ self.now) }
    {
        Ok(NamedPaint {
            name: self.name.copy(alloc)?,
            paint: copied(alloc, &self.paint)?,
        })
    }
}

impl Duplicate for NamedPaint {
    fn duplicate(&self, alloc: Global) -> Result<Self, AllocError> {
        self.copy(alloc)
    }
}

fn copied(alloc: Global, paint: &Option<Paint>) -> Result<Option<Paint>, AllocError>
    ensures { IfOk result (λ copy. copy ≡ paint.now) }
{
    match paint {
        Some(paint) => Ok(Some(paint.copy(alloc)?)),
        None => Ok(None),
    }
}
