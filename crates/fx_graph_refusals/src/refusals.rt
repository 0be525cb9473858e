//! The refusals of a change, each over all its names in their order. The graph tests them before it changes anything.
ghost use Rattle.std.specs.Prelude.{◌≡◌, not};
ghost use Rattle.fx_base.specs.Printing.{kind_of};
ghost use Rattle.fx_base.specs.declared.keys.Name.{Name as Named};
ghost use Rattle.fx_graph_model.specs.declared.errors.GraphError.TheVariants as error;
ghost use Rattle.fx_graph_model.specs.Uses.{bound_in};
ghost use Rattle.fx_graph_model.specs.Equality.{same_family, same_kind};
ghost use Rattle.fx_base.specs.Answers.{refused_first};
ghost use Rattle.fx_graph_model.specs.Refusals.{unknown_name, pair_names, wrong_kind, read_only_in, kind_at, set_refusal, publish_refusal};
ghost use Rattle.fx_graph_refusals.specs.Known.{known_kind};

use crate::asking::{is_bound, is_read_only, is_unknown};
use fx_base::{Family, Kind, Name, Value};
use fx_graph_model::{Entry, GraphError};

fn is_same_family(one: Family, other: Family) -> bool
    ensures { result ≡ same_family one other }
{
    match (one, other) {
        (Family::Pos, Family::Pos) => true,
        (Family::Priority, Family::Priority) => true,
        (Family::HPos, Family::HPos) => true,
        (Family::VPos, Family::VPos) => true,
        _ => false,
    }
}

/// Are the kinds one?
pub fn is_same_kind(one: Kind, other: Kind) -> bool
    ensures { result ≡ same_kind one other }
{
    match (one, other) {
        (Kind::Int, Kind::Int) => true,
        (Kind::Bool, Kind::Bool) => true,
        (Kind::Text, Kind::Text) => true,
        (Kind::Choice(one), Kind::Choice(other)) => is_same_family(one, other),
        (Kind::Color, Kind::Color) => true,
        (Kind::Sides, Kind::Sides) => true,
        _ => false,
    }
}

/// The kind of the name; a name that was never declared counts as a truth.
pub fn kind_of(entries: &[Entry], name: Name) -> Kind
    ensures { result ≡ kind_at entries.now name.0 }
{
    match entries.get(name.0 as usize) {
        None => Kind::Bool,
        Some(entry) => entry.kind,
    }
}

/// The kind of a known name.
pub fn known_kind(entries: &[Entry], name: Name) -> Option<Kind>
    ensures { result ≡ known_kind entries.now name.0 }
{
    if is_unknown(entries, name) {
        return None;
    }
    Some(kind_of(entries, name))
}

/// Whether the two are of one kind.
pub fn are_of_one_kind(entries: &[Entry], one: Name, other: Name) -> bool
    ensures { result ≡ same_kind (kind_at entries.now one.0) (kind_at entries.now other.0) }
{
    is_same_kind(kind_of(entries, one), kind_of(entries, other))
}

fn unknown_pair(entries: &[Entry], pairs: &[(Name, Value)]) -> Option<GraphError>
    ensures { result ≡ unknown_name entries.now (pair_names pairs.now) }
{
    for pair in pairs {
        if is_unknown(entries, pair.0) {
            return Some(GraphError::Unknown(pair.0));
        }
    }
    None
}

fn read_only_pair(entries: &[Entry], pairs: &[(Name, Value)]) -> Option<GraphError>
    ensures { result ≡ refused_first error.ReadOnly (λ (name : Named). read_only_in entries.now name.0)
        (pair_names pairs.now) }
{
    for pair in pairs {
        if is_read_only(entries, pair.0) {
            return Some(GraphError::ReadOnly(pair.0));
        }
    }
    None
}

fn misfit(entries: &[Entry], pairs: &[(Name, Value)]) -> Option<GraphError>
    ensures { result ≡ wrong_kind entries.now pairs.now }
{
    for pair in pairs {
        if !is_same_kind(pair.1.kind(), kind_of(entries, pair.0)) {
            return Some(GraphError::WrongKind(pair.0));
        }
    }
    None
}

fn bound_pair(entries: &[Entry], pairs: &[(Name, Value)]) -> Option<GraphError>
    ensures { result ≡ refused_first error.Bound (λ (name : Named). bound_in entries.now name.0)
        (pair_names pairs.now) }
{
    for pair in pairs {
        if is_bound(entries, pair.0) {
            return Some(GraphError::Bound(pair.0));
        }
    }
    None
}

/// Why values may not be set by code.
#[tactic(auto, unfolding(fx_graph_model::specs::Refusals::set_refusal))]
pub fn of_set(entries: &[Entry], pairs: &[(Name, Value)]) -> Option<GraphError>
    ensures { result ≡ set_refusal pairs.now entries.now }
{
    if let Some(unknown) = unknown_pair(entries, pairs) {
        return Some(unknown);
    }
    if let Some(read_only) = read_only_pair(entries, pairs) {
        return Some(read_only);
    }
    if let Some(wrong) = misfit(entries, pairs) {
        return Some(wrong);
    }
    bound_pair(entries, pairs)
}

/// Why values may not be published.
#[tactic(auto, unfolding(fx_graph_model::specs::Refusals::publish_refusal))]
pub fn of_publish(entries: &[Entry], pairs: &[(Name, Value)]) -> Option<GraphError>
    ensures { result ≡ publish_refusal pairs.now entries.now }
{
    if let Some(unknown) = unknown_pair(entries, pairs) {
        return Some(unknown);
    }
    misfit(entries, pairs)
}
