//! The attributes of nodes that documents may have and that change nothing.
//! Loaders skip them.
ghost use Rattle.std.specs.Prelude.{◌≡◌, map, codes, nat_eq};
ghost use Rattle.std.specs.List.{list_any, starts_with};
ghost use Rattle.std.specs.Str.{bytes_eq};
ghost use Rattle.fx_kinds.specs.Ignored.{ignored, is_ignored};

/// The whole names that are ignored.
static IGNORED: &[&str] = &[
    "xmlns",
    "fx:controller",
    "mnemonicParsing",
    "pickOnBounds",
    "cache",
    "cacheHint",
    "opaqueInsets",
    "snapToPixel",
    "accessibleText",
    "gridLinesVisible",
    "defaultButton",
    "cancelButton",
    "graphicTextGap",
    "contentDisplay",
    "textAlignment",
];

/// Is the attribute of this whole name ignored? So are all that bind a prefix, as `xmlns:fx`.
pub fn is_ignored(name: &str) -> bool
    ensures { result ≡ is_ignored name.now }
{
    binds_prefix(name.as_bytes()) || is_among(ignored_names(), name)
}

fn binds_prefix(name: &[u8]) -> bool
    ensures { result ≡ starts_with nat_eq name.now (codes "xmlns:") }
{
    name.starts_with(b"xmlns:")
}

/// The whole names that are ignored, in their order.
pub fn ignored_names() -> &'static [&'static str]
    ensures { map (λ name. name.now) result.now ≡ ignored }
{
    IGNORED
}

fn is_among(names: &[&str], name: &str) -> bool
    ensures { result ≡ list_any (λ other. bytes_eq other name.now) (map (λ other. other.now) names.now) }
{
    has_name(names, name)
}

fn has_name(names: &[&str], name: &str) -> bool
    ensures { result ≡ list_any (λ other. bytes_eq other.now name.now) names.now }
{
    names.iter().any(|other| *other == name)
}
