//! The checksums of a demo's scene and script.
ghost use Rattle.std.specs.Prelude.{◌≤◌};

use anyhow::bail;
use std::alloc::Global;

pub fn answer(alloc: Global, number: &str) -> anyhow::Result<String> {
    let number = number.parse::<u32>()?;
    if number < 1 || 3600 < number {
        bail!("no such demo");
    }
    let (scene, _, script) = fx_gen::make(alloc, number)?;
    let scene = checksum(scene.as_slice());
    let script = checksum(script.as_slice());
    Ok(format!(in alloc; "{scene:x} {script:x}")?)
}

/// Each byte behind 31 times those before it, in 64 bits.
fn checksum(bytes: &[u8]) -> u64 {
    let mut sum = 0u64;
    for byte in bytes {
        sum = sum.wrapping_mul(31).wrapping_add(u64::from(*byte));
    }
    sum
}
