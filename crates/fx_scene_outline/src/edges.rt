//! What stands before an element in the same content: the edges of a `BorderPane` that are taken.
ghost use Rattle.std.specs.Prelude.{◌≡◌, [], length};
ghost use Rattle.fx_doc.specs.Views.{onto};
ghost use Rattle.fx_doc_grammar.specs.Grammar.{Nothing};
ghost use Rattle.fx_scene_outline.specs.Edges as spec;
ghost use Rattle.fx_scene_outline.specs.Views.{behind_part};

use fx_doc::Content;

/// Which edges have an element.
#[derive(Clone, Copy, PartialEq, Eq, Debug)]
pub struct Taken {
    pub top: bool,
    pub right: bool,
    pub bottom: bool,
    pub left: bool,
    pub center: bool,
}

impl Taken {
    /// None of them.
    pub fn none() -> Taken
        ensures { result ≡ spec.none_taken }
    {
        Taken {
            top: false,
            right: false,
            bottom: false,
            left: false,
            center: false,
        }
    }

    /// These, and the one of the element's name.
    pub fn with(self, name: &str) -> Taken
        ensures { result ≡ spec.with_name name.now self }
    {
        Taken {
            top: self.top || name == "top",
            right: self.right || name == "right",
            bottom: self.bottom || name == "bottom",
            left: self.left || name == "left",
            center: self.center || name == "center",
        }
    }

    /// Is the edge of this number among them?
    pub fn has(self, edge: u8) -> bool
        ensures { result ≡ spec.has_edge self edge }
    {
        match edge {
            0 => self.top,
            1 => self.right,
            2 => self.bottom,
            3 => self.left,
            _ => self.center,
        }
    }
}

/// The number of the edge that the property element of this name holds.
pub fn edge_named(name: &str) -> Option<u8>
    ensures { result ≡ spec.edge_named name.now }
{
    match name {
        "top" => Some(0),
        "right" => Some(1),
        "bottom" => Some(2),
        "left" => Some(3),
        "center" => Some(4),
        _ => None,
    }
}

/// What stands before a part of some content.
#[derive(Clone, Copy, PartialEq, Eq, Debug)]
pub struct Earlier {
    /// Nothing stands there.
    pub first: bool,
    /// The edges that have an element.
    pub taken: Taken,
}

impl Earlier {
    /// Nothing.
    pub fn nothing() -> Earlier
        ensures { result ≡ spec.nothing_earlier }
    {
        Earlier {
            first: true,
            taken: Taken::none(),
        }
    }

    /// What stands before the part, and the part.
    pub fn with(self, part: &Content) -> Earlier
        ensures { result ≡ behind_part (onto part.now Nothing) self }
    {
        match part {
            Content::Child(element) => self.with_element(element.name.as_str()),
            Content::Chars(_, _) => self.with_text(),
        }
    }

    fn with_element(self, name: &str) -> Earlier
        ensures { result ≡ spec.behind_element name.now self }
    {
        Earlier {
            first: false,
            taken: self.taken.with(name),
        }
    }

    fn with_text(self) -> Earlier
        ensures { result ≡ spec.behind_text self }
    {
        Earlier {
            first: false,
            taken: self.taken,
        }
    }
}
