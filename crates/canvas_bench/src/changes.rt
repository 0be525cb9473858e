//! The damage between two pictures of small nodes, and that of edits which make the one of the other.
use crate::pictures::{Change, entries, node, opacity_of};
use anyhow::bail;
use fx_base::{List, Rect};
use fx_damage::{
    Edit, are_edits, damage, damage_of_edits, has_distinct_births, keep_births_distinct,
};
use fx_picture::Picture;
use std::alloc::Global;

/// Works out the damage between both pictures so many times, and adds up the areas.
pub fn damaged(alloc: Global, change: Change, rounds: u32) -> anyhow::Result<u32> {
    let old = picture(alloc, change, false)?;
    let new = picture(alloc, change, true)?;
    if !has_distinct_births(alloc, &old)? || !has_distinct_births(alloc, &new)? {
        bail!("two nodes have one birth number");
    }
    let mut sum = 0u32;
    for _ in 0..rounds {
        sum = added(sum, damage(alloc, Some(&old), &new, 1000, 1000)?.as_slice());
    }
    Ok(sum)
}

/// The same of the edits.
pub fn edited(alloc: Global, change: Change, rounds: u32) -> anyhow::Result<u32> {
    let old = picture(alloc, change, false)?;
    let all = edits(alloc, change)?;
    let edits = all.as_slice();
    if !are_edits(&old, edits) || !has_distinct_births(alloc, &old)? {
        bail!("places that don't rise, or two nodes with one birth number");
    }
    if !keep_births_distinct(alloc, &old, edits)? {
        bail!("an edit makes a second node with one birth number");
    }
    let mut sum = 0u32;
    for _ in 0..rounds {
        sum = added(
            sum,
            damage_of_edits(alloc, &old, edits, 1000, 1000)?.as_slice(),
        );
    }
    Ok(sum)
}

fn picture(alloc: Global, change: Change, new: bool) -> anyhow::Result<Picture> {
    Ok(Picture {
        entries: List::from_vec(entries(alloc, change, new)?),
    })
}

fn edits(alloc: Global, change: Change) -> anyhow::Result<Vec<Edit>> {
    let mut edits = Vec::new(alloc);
    for place in 0..change.count {
        if change.changes(place) {
            edits.push(Edit {
                place: place as usize,
                entry: node(alloc, change.birth(place), place, opacity_of(true))?,
            })?;
        }
    }
    Ok(edits)
}

fn added(sum: u32, rects: &[Rect]) -> u32 {
    let mut all = sum;
    for rect in rects {
        all = all.wrapping_add(area(*rect));
    }
    all
}

fn area(rect: Rect) -> u32 {
    let w = u32::try_from(rect.w).unwrap_or(0);
    let h = u32::try_from(rect.h).unwrap_or(0);
    w.wrapping_mul(h)
}
