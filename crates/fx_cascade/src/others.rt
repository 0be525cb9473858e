//! What wins for names that are no rows of the style table: colours that are looked up.
ghost use Rattle.std.specs.Prelude.{◌≡◌};
ghost use Rattle.std.specs.Str.{bytes_eq};
ghost use Rattle.std.specs.List.{position};
ghost use Rattle.fx_cascade.specs.Tables.{under};

use crate::sources::Source;
use fx_base::Text;

/// A name that is no row of the style table, with what wins for it.
#[derive(Drop)]
pub struct NamedSource {
    pub name: Text,
    pub source: Source,
}

/// Where the name stands.
pub(crate) fn place_of(others: &[NamedSource], name: &str) -> Option<usize>
    ensures { result ≡ position (λ o. bytes_eq o.name name.now) others.now }
{
    others.iter().position(|o| o.name.as_str() == name)
}

/// What wins for the name.
pub(crate) fn under(others: &[NamedSource], name: &str) -> Option<Source>
    ensures { result ≡ under others.now name.now }
{
    for other in others {
        if other.name.as_str() == name {
            return Some(other.source);
        }
    }
    None
}
