//! Numbers that words of a line write.
ghost use Rattle.std.specs.Prelude.{◌≡◌, codes, nat_eq};
ghost use Rattle.std.specs.List.{starts_with};
ghost use Rattle.fx_stage_model.specs.Lines.{is_side, side_of};
ghost use Rattle.fx_stage_model.specs.Nodes.{place_of_digits};

use fx_base::Text;

/// The number that the digits write, or the greatest of 32 bits.
pub fn number_of(word: &Text) -> u32
    ensures { result ≡ place_of_digits word.now }
{
    let mut number: u32 = 0;
    for digit in word.as_str().as_bytes() {
        number = number
            .saturating_mul(10)
            .saturating_add(u32::from(digit.saturating_sub(b'0')));
    }
    number
}

/// The side of a window that the word says, from 1 to 2,048 pixels.
pub fn side_of(word: &Text) -> Option<u32>
    ensures { result ≡ side_of word.now }
{
    if is_negative(word.as_str().as_bytes()) {
        return None;
    }
    let side = number_of(word);
    if is_side(side) { Some(side) } else { None }
}

fn is_negative(word: &[u8]) -> bool
    ensures { result ≡ starts_with nat_eq word.now (codes "-") }
{
    word.starts_with(b"-")
}

fn is_side(side: u32) -> bool
    ensures { result ≡ is_side side }
{
    1 <= side && side <= 2048
}
