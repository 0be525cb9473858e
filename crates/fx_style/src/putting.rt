//! Fresh entries put in their places, which can't fail.
ghost use Rattle.std.specs.Prelude.{◌≡◌, ◌↔◌, ◌≤◌, IfOk, IsTrue, OnOk, Some, length, map, slice_get, slice_set, take};
ghost use Rattle.std.specs.Option.{option_copied};
ghost use Rattle.fx_style.specs.Kept.{put_looks, put_rest, rest_of};
ghost use Rattle.fx_style.specs.Changes.{IsNoted, NamesChanges};

use crate::kept::{Fresh, Rest};
use fx_base::{List, NodeKey};
use fx_look::Look;
use fx_lookup::NamedPaint;
use fx_node_style::{NodeStyle, Room, is_same_look};
use std::alloc::{AllocError, Global};
use std::mem;

/// Puts each of the first so many entries in its place, and takes what stood there.
pub(crate) fn put_all(looks: &mut [Look], rest: &mut [Rest], fresh: &mut [Fresh], count: usize)
    requires { count ≤ length fresh.old }
    ensures looks { looks.new ≡ put_looks looks.old (take count fresh.old) }
    ensures rest { rest.new ≡ put_rest rest.old (take count fresh.old) }
{
    for place in 0..count {
        put_one(looks, rest, &mut fresh[place]);
    }
}

fn put_one(looks: &mut [Look], rest: &mut [Rest], one: &mut Fresh)
    ensures looks { looks.new ≡ slice_set looks.old one.old.at one.old.entry.style.look }
    ensures rest { rest.new ≡ slice_set rest.old one.old.at (rest_of one.old.entry) }
{
    let at = one.at;
    put_look(looks, at, &mut one.entry.style.look);
    put_rest(rest, at, one.entry.key, &mut one.entry.style.paints);
}

/// Puts the look in its place, and takes what stood there, if there is such a place.
fn put_look(looks: &mut [Look], at: usize, look: &mut Look)
    ensures { looks.new ≡ slice_set looks.old at look.old }
{
    if at < looks.len() {
        mem::swap(&mut looks[at], look);
    }
}

/// Puts the key and the paints in their place, and takes the paints that stood there, if there is such a place.
fn put_rest(rest: &mut [Rest], at: usize, key: NodeKey, paints: &mut List<NamedPaint>)
    ensures { rest.new ≡ slice_set rest.old at (record { key = key; paints = paints.old }) }
{
    if at < rest.len() {
        let one = &mut rest[at];
        one.key = key;
        mem::swap(&mut one.paints, paints);
    }
}

/// The places of the entries.
pub(crate) fn places_of(alloc: Global, fresh: &[Fresh]) -> Result<Vec<usize>, AllocError>
    ensures { IfOk result (λ places. places.items ≡ map (λ f. f.at) fresh.now) }
{
    let mut places = Vec::with_capacity(alloc, fresh.len())?;
    for one in fresh {
        places.push(one.at)?;
    }
    Ok(places)
}

/// The places whose looks are others once the entries stand there.
pub(crate) fn changed_places(
    alloc: Global,
    looks: &[Look],
    fresh: &[Fresh],
) -> Result<Vec<usize>, AllocError>
    ensures { IfOk result (λ places. NamesChanges looks.now fresh.now places.items) }
{
    let mut places = Vec::new(alloc);
    for one in fresh {
        push_change(&mut places, looks, one)?;
    }
    Ok(places)
}

fn push_change(places: &mut Vec<usize>, looks: &[Look], one: &Fresh) -> Result<(), AllocError>
    ensures { OnOk result (IsNoted looks.now one.now places.old.items places.new.items) }
{
    if stands_there(looks, one.at, &one.entry.style.look) {
        return Ok(());
    }
    places.push(one.at)?;
    Ok(())
}

fn stands_there(looks: &[Look], at: usize, look: &Look) -> bool
    ensures { IsTrue result ↔ (slice_get looks.now at ≡ Some look.now) }
{
    match look_at(looks, at) {
        Some(old) => is_same_look(old, look),
        None => false,
    }
}

fn look_at(looks: &[Look], at: usize) -> Option<&Look>
    ensures { option_copied result ≡ slice_get looks.now at }
{
    looks.get(at)
}

/// So many looks that are to be replaced.
pub(crate) fn blank_looks(alloc: Global, count: usize) -> Result<Vec<Look>, AllocError>
    ensures { IfOk result (λ looks. length looks.items ≡ count) }
{
    let mut looks = Vec::with_capacity(alloc, count)?;
    for place in 0..count {
        looks.push(blank_look(alloc))?;
    }
    Ok(looks)
}

/// As many entries beside them.
pub(crate) fn blank_rest(alloc: Global, count: usize) -> Result<Vec<Rest>, AllocError>
    ensures { IfOk result (λ rest. length rest.items ≡ count) }
{
    let mut rest = Vec::with_capacity(alloc, count)?;
    for place in 0..count {
        rest.push(Rest {
            key: NodeKey { slot: 0, birth: 0 },
            paints: List::new(alloc),
        })?;
    }
    Ok(rest)
}

fn blank_look(alloc: Global) -> Look {
    let NodeStyle { look, .. } = Room::new(alloc).into_style();
    look
}
