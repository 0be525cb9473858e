//! The words by which script lines and steps of building a scene are refused.
ghost use Rattle.std.specs.Prelude.{◌≡◌};
ghost use Rattle.fx_stage_types.specs.Words.{rank, word_of};

/// Why a line is refused. Where several apply, the first in this order is told.
#[derive(Clone, Copy, Debug, PartialEq, Eq)]
pub enum Refusal {
    /// The line is of no form.
    Syntax,
    /// A node, a free property, an owner or a timeline isn't there.
    Unknown,
    /// The node's class has no such property, or no pane reads such a constraint.
    Property,
    /// The property is only published, or the pseudo-class only follows the pointer, the focus and `disable`.
    ReadOnly,
    /// The owner was released.
    Stale,
    /// Kinds differ.
    Kinds,
    /// A text spells no value that is taken there.
    Value,
    /// The name is taken.
    Exists,
    /// The property is bound.
    Bound,
    /// A property would be both bound and paired.
    Mixed,
    /// Both properties are one.
    Same,
    /// The binding would read itself.
    Cycle,
    /// The parent stands below the child.
    WouldLoop,
    /// The node has a parent, or has none.
    Parent,
    /// The node is the root of the scene, or has a parent.
    Attached,
    /// The pane has no such place for a child.
    Place,
    /// A path would have more than 64 nodes.
    Depth,
    /// A bound property outside reads one inside.
    Used,
    /// The button is down already, or isn't down.
    Button,
    /// A limit is reached.
    Full,
}

impl Refusal {
    /// The word that a script's output has.
    pub fn word(self) -> &'static str
        ensures { result.now ≡ word_of self }
    {
        match self {
            Refusal::Syntax => "syntax",
            Refusal::Unknown => "unknown",
            Refusal::Property => "property",
            Refusal::ReadOnly => "readonly",
            Refusal::Stale => "stale",
            Refusal::Kinds => "type",
            Refusal::Value => "value",
            Refusal::Exists => "exists",
            Refusal::Bound => "bound",
            Refusal::Mixed => "mixed",
            Refusal::Same => "same",
            Refusal::Cycle => "cycle",
            Refusal::WouldLoop => "wouldloop",
            Refusal::Parent => "parent",
            Refusal::Attached => "attached",
            Refusal::Place => "place",
            Refusal::Depth => "depth",
            Refusal::Used => "used",
            Refusal::Button => "button",
            Refusal::Full => "full",
        }
    }

    /// The place of the word in their order, from 0.
    pub fn rank(self) -> u8
        ensures { result ≡ rank self }
    {
        match self {
            Refusal::Syntax => 0,
            Refusal::Unknown => 1,
            Refusal::Property => 2,
            Refusal::ReadOnly => 3,
            Refusal::Stale => 4,
            Refusal::Kinds => 5,
            Refusal::Value => 6,
            Refusal::Exists => 7,
            Refusal::Bound => 8,
            Refusal::Mixed => 9,
            Refusal::Same => 10,
            Refusal::Cycle => 11,
            Refusal::WouldLoop => 12,
            Refusal::Parent => 13,
            Refusal::Attached => 14,
            Refusal::Place => 15,
            Refusal::Depth => 16,
            Refusal::Used => 17,
            Refusal::Button => 18,
            Refusal::Full => 19,
        }
    }
}
