//! Runs a kernel over rows of pixels some number of times, and prints a checksum of what it left.
//! A script counts its instructions beside those of the plain loop; no other crate stands on this one.
#![tactic(auto)]

mod plain;

use anyhow::bail;
use fx_lanes::{blend_row, equal, fill};
use std::alloc::{AllocError, Global};
use std::env;

/// How many pixels a row has.
const WIDTH: usize = 1000;

#[derive(Clone, Copy)]
enum Kernel {
    Fill,
    PlainFill,
    Blend,
    PlainBlend,
    Equal,
    PlainEqual,
}

const KERNELS: [(&str, Kernel); 6] = [
    ("fill", Kernel::Fill),
    ("plain-fill", Kernel::PlainFill),
    ("blend", Kernel::Blend),
    ("plain-blend", Kernel::PlainBlend),
    ("equal", Kernel::Equal),
    ("plain-equal", Kernel::PlainEqual),
];

fn main(rt: HostRuntime) -> anyhow::Result<()> {
    let mut words = env::args(&rt)?;
    let _program = words.next();
    let (Some(word), Some(count)) = (words.next(), words.next()) else {
        bail!("usage: lanes_bench KERNEL|all COUNT");
    };
    let count = count.as_str().parse::<u32>()?;
    for (name, kernel) in KERNELS {
        if word.as_str() == name || word.as_str() == "all" {
            let sum = run(rt.alloc(), kernel, count)?;
            println!(rt; "{name} {sum}")?;
        }
    }
    Ok(())
}

/// A row of pixels that differ.
fn row_of(alloc: Global) -> Result<Vec<u32>, AllocError> {
    (0..WIDTH as u32)
        .map(|place| (place % 1000 * 2654435 + 12345678) % 16777216)
        .collect(alloc)
}

fn run(alloc: Global, kernel: Kernel, count: u32) -> Result<u32, AllocError> {
    let mut row = row_of(alloc)?;
    let mut other = row_of(alloc)?;
    let mut same = 0u32;
    for turn in 0..count {
        let color = turn.wrapping_mul(2654435761);
        match kernel {
            Kernel::Fill => fill(row.as_mut_slice(), color),
            Kernel::PlainFill => plain::fill(row.as_mut_slice(), color),
            Kernel::Blend => blend_row(row.as_mut_slice(), color),
            Kernel::PlainBlend => plain::blend_row(row.as_mut_slice(), color),
            Kernel::Equal => {
                change_last(&mut row, &mut other, turn);
                same = same.wrapping_add(u32::from(equal(row.as_slice(), other.as_slice())));
            }
            Kernel::PlainEqual => {
                change_last(&mut row, &mut other, turn);
                same = same.wrapping_add(u32::from(plain::equal(row.as_slice(), other.as_slice())));
            }
        }
    }
    Ok(checksum(row.as_slice()).wrapping_add(same))
}

/// Makes the last pixels of two rows differ at each second turn.
fn change_last(row: &mut [u32], other: &mut [u32], turn: u32) {
    let color = turn.wrapping_mul(2654435761);
    if let Some(last) = row.last_mut() {
        *last = color;
    }
    if turn % 2 == 0
        && let Some(last) = other.last_mut()
    {
        *last = color;
    }
}

fn checksum(row: &[u32]) -> u32 {
    let mut sum = 0u32;
    for pixel in row {
        sum = sum.wrapping_mul(31).wrapping_add(*pixel);
    }
    sum
}
