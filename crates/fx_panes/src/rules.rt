//! What the rules of these panes share: which length of a child counts, and the room between its margins.
//! They stand on one axis each, between facts along it and the panes' rules.
ghost use Rattle.std.specs.Prelude.{◌≡◌, ◌≤◌};
ghost use Rattle.fx_panes_parts.specs.Axes.{IsChildAxis};
ghost use Rattle.fx_panes.specs.Rules.{inner, length_by, outer_by};

use fx_panes_parts::ChildAxis;

/// Which length of a child a pane's computed length is made of.
#[derive(Clone, Copy, PartialEq, Eq, Debug)]
pub enum Bound {
    Minimum,
    Preferred,
}

/// What is left of a length for a child between its margins.
pub fn inner(child: &ChildAxis, length: u64) -> u64
    requires { IsChildAxis child.now }
    ensures { result ≡ inner child.now length }
{
    length.saturating_sub(child.before + child.after)
}

/// The child's length of this kind, without its margins.
pub fn length_by(bound: Bound, child: &ChildAxis) -> u64
    requires { IsChildAxis child.now }
    ensures value { result ≡ length_by bound child.now }
    ensures most { result ≤ 100000 }
{
    match bound {
        Bound::Minimum => child.extent.min,
        Bound::Preferred => child.extent.pref,
    }
}

/// The child's length of this kind with its margins.
pub fn outer_by(bound: Bound, child: &ChildAxis) -> u64
    requires { IsChildAxis child.now }
    ensures value { result ≡ outer_by bound child.now }
    ensures most { result ≤ 300000 }
{
    length_by(bound, child) + (child.before + child.after)
}
