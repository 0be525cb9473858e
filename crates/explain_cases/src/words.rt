//! The words of a line.
use anyhow::bail;
use std::alloc::{AllocError, Global};
use std::str::Split;

/// The next word, which must be there.
pub fn next<'a>(words: &mut Split<'a, char>) -> anyhow::Result<&'a str> {
    match words.next() {
        Some(word) => Ok(word),
        None => bail!("a word is wanting"),
    }
}

/// All words that are left.
pub fn rest<'a>(alloc: Global, words: Split<'a, char>) -> Result<Vec<&'a str>, AllocError> {
    let mut all = Vec::new(alloc);
    for word in words {
        all.push(word)?;
    }
    Ok(all)
}

/// The word at this place as a number.
pub fn number(words: &[&str], place: usize) -> anyhow::Result<u32> {
    match words.get(place) {
        Some(word) => Ok(word.parse::<u32>()?),
        None => bail!("a number is wanting"),
    }
}
