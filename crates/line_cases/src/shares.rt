//! The parts of a total, shared out among caps.
use anyhow::bail;
use fx_share::{MOST, share};
use std::alloc::{AllocError, Global};

/// The parts of the total under the caps behind it.
pub fn answer(alloc: Global, numbers: &str) -> anyhow::Result<String> {
    let Some((total, caps)) = numbers.split_once('|') else {
        bail!("the caps are wanting");
    };
    let total = total.parse::<u64>()?;
    let caps = numbers_in(alloc, caps)?;
    let parts = parts_of(alloc, total, caps.as_slice())?;
    Ok(numbers_told(alloc, parts.as_slice())?)
}

fn numbers_in(alloc: Global, text: &str) -> anyhow::Result<Vec<u64>> {
    let mut numbers = Vec::new(alloc);
    if text.is_empty() {
        return Ok(numbers);
    }
    for word in text.split(' ') {
        numbers.push(word.parse::<u64>()?)?;
    }
    Ok(numbers)
}

fn parts_of(alloc: Global, total: u64, caps: &[u64]) -> anyhow::Result<Vec<u64>> {
    if total > MOST {
        bail!("the total is too great");
    }
    if !caps.iter().all(|cap| *cap <= MOST) {
        bail!("a cap is too great");
    }
    let mut parts = vec![in alloc; 0; caps.len()]?;
    share(total, caps, parts.as_mut_slice());
    Ok(parts)
}

fn numbers_told(alloc: Global, numbers: &[u64]) -> Result<String, AllocError> {
    let mut told = String::new(alloc);
    for number in numbers {
        if !told.is_empty() {
            told.push(' ')?;
        }
        write!(told, "{number}")?;
    }
    Ok(told)
}
