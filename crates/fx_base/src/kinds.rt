//! The kinds of property values, and the constants of the four families.
ghost use Rattle.std.specs.Prelude.{◌≡◌, map};
ghost use Rattle.fx_base.specs.Constants.{constants_of};

/// A family of constants (JavaFX `Pos`, `Priority`, `HPos`, `VPos`).
#[derive(Clone, Copy, PartialEq, Eq, Debug)]
pub enum Family {
    Pos,
    Priority,
    HPos,
    VPos,
}

/// What a property holds.
#[derive(Clone, Copy, PartialEq, Eq, Debug)]
pub enum Kind {
    Int,
    Bool,
    Text,
    Choice(Family),
    Color,
    Sides,
}

const POS: [&str; 9] = [
    "TOP_LEFT",
    "TOP_CENTER",
    "TOP_RIGHT",
    "CENTER_LEFT",
    "CENTER",
    "CENTER_RIGHT",
    "BOTTOM_LEFT",
    "BOTTOM_CENTER",
    "BOTTOM_RIGHT",
];

const PRIORITY: [&str; 3] = ["NEVER", "SOMETIMES", "ALWAYS"];

const HPOS: [&str; 3] = ["LEFT", "CENTER", "RIGHT"];

const VPOS: [&str; 3] = ["TOP", "CENTER", "BOTTOM"];

impl Family {
    /// The constants of the family in their order; a value holds a place in this list.
    pub fn constants(self) -> &'static [&'static str]
        ensures { map (λ name. name.now) result.now ≡ constants_of self }
    {
        match self {
            Family::Pos => &POS,
            Family::Priority => &PRIORITY,
            Family::HPos => &HPOS,
            Family::VPos => &VPOS,
        }
    }
}
