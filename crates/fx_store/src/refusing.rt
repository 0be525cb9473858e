//! Why a change may not be made. The store tests it before it changes anything.
ghost use Rattle.std.specs.Prelude.{◌≡◌};
ghost use Rattle.fx_listen.specs.Listening.{living_in};
ghost use Rattle.fx_store_model.specs.Refusals.{listen_refusal, pair_refusal, unlisten_refusal, unpair_refusal};

use fx_base::Name;
use fx_graph::Graph;
use fx_handles::{Owner, Owners};
use fx_listen::{Listeners, has_life};
use fx_store_model::StoreError;
use fx_store_pairs::Pairs;

/// The most pairs that there are at once.
pub const MOST_PAIRS: usize = 10_000;

/// Why the two may not be joined, if they may not.
#[tactic(auto, unfolding(fx_store_model::specs::Refusals::pair_refusal))]
pub fn of_pair(graph: &Graph, pairs: &Pairs, one: Name, other: Name) -> Option<StoreError>
    ensures { result ≡ pair_refusal one other graph.now.entries pairs.now }
{
    if graph.is_unknown(one) {
        return Some(StoreError::Unknown(one));
    }
    if graph.is_unknown(other) {
        return Some(StoreError::Unknown(other));
    }
    if graph.is_read_only(one) {
        return Some(StoreError::ReadOnly(one));
    }
    if graph.is_read_only(other) {
        return Some(StoreError::ReadOnly(other));
    }
    if !graph.are_of_one_kind(one, other) {
        return Some(StoreError::WrongKind(other));
    }
    if graph.is_bound(one) {
        return Some(StoreError::Mixed(one));
    }
    if graph.is_bound(other) {
        return Some(StoreError::Mixed(other));
    }
    if one.0 == other.0 {
        return Some(StoreError::Same);
    }
    if pairs.len() >= MOST_PAIRS {
        return Some(StoreError::Full);
    }
    None
}

/// Why no pair of the two may be ended, if it may not.
#[tactic(auto, unfolding(fx_store_model::specs::Refusals::unpair_refusal))]
pub fn of_unpair(graph: &Graph, one: Name, other: Name) -> Option<StoreError>
    ensures { result ≡ unpair_refusal one other graph.now.entries }
{
    if graph.is_unknown(one) {
        return Some(StoreError::Unknown(one));
    }
    if graph.is_unknown(other) {
        return Some(StoreError::Unknown(other));
    }
    if one.0 == other.0 {
        return Some(StoreError::Same);
    }
    None
}

/// Why a listener with this owner may not be added, if it may not.
#[tactic(auto, unfolding(fx_store_model::specs::Refusals::listen_refusal))]
pub fn of_listen(
    graph: &Graph,
    listeners: &Listeners,
    owners: &Owners,
    name: Name,
    owner: Option<Owner>,
) -> Option<StoreError>
    ensures { result ≡ listen_refusal name owner graph.now.entries owners.now.living
        (living_in owners.now.living listeners.now.entries) listeners.now.given }
{
    if graph.is_unknown(name) {
        return Some(StoreError::Unknown(name));
    }
    match listeners.refuses_add(owners, owner) {
        Some(refusal) => Some(StoreError::from(refusal)),
        None => None,
    }
}

/// Why no listener with this owner may be removed, if it may not.
#[tactic(auto, unfolding(fx_store_model::specs::Refusals::unlisten_refusal))]
pub fn of_unlisten(
    graph: &Graph,
    owners: &Owners,
    name: Name,
    owner: Option<Owner>,
) -> Option<StoreError>
    ensures { result ≡ unlisten_refusal name owner graph.now.entries owners.now.living }
{
    if graph.is_unknown(name) {
        return Some(StoreError::Unknown(name));
    }
    if !has_life(owners, owner) {
        return Some(StoreError::StaleOwner);
    }
    None
}
