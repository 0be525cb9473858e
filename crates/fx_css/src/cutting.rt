//! Where the parts of a sheet end, in bytes from the first one on.
//! Rules and declarations are cut off at these ends.
ghost use Rattle.std.specs.Prelude.{◌≡◌, ◌≤◌, ◌==◌, ◌||◌, length};
ghost use Rattle.std.specs.List.{position_or_len};
ghost use Rattle.fx_css.specs.Numbered.{shown};
ghost use Rattle.fx_css.specs.Pieces.{ends_declaration};
ghost use Rattle.fx_css.specs.Rules.{is_open, is_close};
ghost use Rattle.fx_css.specs.Cutting.{block_length, at_rule_length};

use crate::parts::Part;
use memchr::{memchr, memchr2};

/// Where the first of two bytes stands, or the length.
fn first_of_two(one: u8, other: u8, signs: &[u8]) -> usize
    ensures { result ≡ position_or_len (λ b. (b == one) || (b == other)) signs.now }
{
    match memchr2(one, other, signs) {
        Some(at) => at,
        None => signs.len(),
    }
}

/// Where the first such byte stands, or the length.
fn first_of(sign: u8, signs: &[u8]) -> usize
    ensures { result ≡ position_or_len (λ b. b == sign) signs.now }
{
    match memchr(sign, signs) {
        Some(at) => at,
        None => signs.len(),
    }
}

/// Where the first declaration ends, at a `;` or a `}`.
pub fn declaration_end(part: Part<'_>) -> usize
    ensures at { result ≡ position_or_len ends_declaration (shown part.entry) }
    ensures within { result ≤ length (shown part.entry) }
{
    first_of_two(b';', b'}', part.signs)
}

/// Where the first `{` stands.
pub fn opening(part: Part<'_>) -> usize
    ensures at { result ≡ position_or_len is_open (shown part.entry) }
    ensures within { result ≤ length (shown part.entry) }
{
    first_of(b'{', part.signs)
}

/// Where the first `}` stands.
pub fn closing(part: Part<'_>) -> usize
    ensures at { result ≡ position_or_len is_close (shown part.entry) }
    ensures within { result ≤ length (shown part.entry) }
{
    first_of(b'}', part.signs)
}

/// The bytes to the end of a block that is open before them.
pub fn block_length(part: Part<'_>) -> usize
    ensures length { result ≡ block_length 0 (shown part.entry) }
    ensures within { result ≤ length (shown part.entry) }
{
    let mut open: usize = 0;
    let mut taken: usize = 0;
    let mut rest = part;
    while let Some((first, behind)) = rest.split_first() {
        taken += 1;
        if first.is_sign(b'{') {
            open += 1;
        } else if first.is_sign(b'}') {
            if open == 0 {
                return taken;
            }
            open -= 1;
        }
        rest = behind;
    }
    taken
}

/// The bytes behind an `@` to the end of its at-rule.
pub fn at_rule_length(part: Part<'_>) -> usize
    ensures length { result ≡ at_rule_length (shown part.entry) }
    ensures within { result ≤ length (shown part.entry) }
{
    let mut taken: usize = 0;
    let mut rest = part;
    while let Some((first, behind)) = rest.split_first() {
        taken += 1;
        if first.is_sign(b';') {
            return taken;
        }
        if first.is_sign(b'{') {
            return taken + block_length(behind);
        }
        rest = behind;
    }
    taken
}
