//! Texts that are separated by commas outside parentheses.
//! Selectors, paints and sides are read part by part.
ghost use Rattle.std.specs.Prelude.{◌≡◌, ◌+◌, ◌^◌, ◌<◌, ◌≤◌, length};
ghost use Rattle.std.specs.List.{prefix_len};
ghost use Rattle.std.specs.Option.{option_map};
ghost use Rattle.fx_css_parts.specs.Layers.{depth_behind, separates, part_length, first_part, behind_comma, behind_part};
ghost use Rattle.fx_css_parts.specs.Drafts.{is_flat};
ghost use Rattle.fx_text.specs.Trimming.{trimmed};

use fx_text::trimmed;

/// The first part without the white at its ends, and the text behind its comma.
pub fn split_part(text: &[u8]) -> (&[u8], Option<&[u8]>)
    ensures part { result.0.now ≡ trimmed (first_part text.now) }
    ensures rest { option_map (λ rest. rest.now) result.1 ≡ behind_part text.now }
{
    let (part, rest) = text.split_at(part_length(text));
    (trimmed(part), behind_comma(rest))
}

fn behind_comma(text: &[u8]) -> Option<&[u8]>
    ensures { option_map (λ rest. rest.now) result ≡ behind_comma text.now }
{
    match text {
        [_, rest @ ..] => Some(rest),
        [] => None,
    }
}

/// Most parts have no parentheses, and end at the first mark.
#[tactic(auto, using(crate::proofs::LayerLemmas::flat_skip))]
fn part_length(text: &[u8]) -> usize
    ensures length { result ≡ part_length 0 text.now }
    ensures within { result ≤ length text.now }
{
    let (flat, rest) = text.split_at(flat_length(text));
    flat.len() + nested_length(rest)
}

fn flat_length(text: &[u8]) -> usize
    ensures length { result ≡ prefix_len is_flat text.now }
    ensures within { result ≤ length text.now }
{
    text.iter().take_while(|c| is_flat(**c)).count()
}

/// Is it neither a comma nor a parenthesis that opens?
fn is_flat(c: u8) -> bool
    ensures { result ≡ is_flat c }
{
    c != b',' && c != b'('
}

fn nested_length(text: &[u8]) -> usize
    ensures length { result ≡ part_length 0 text.now }
    ensures within { result ≤ length text.now }
{
    let all = text.len();
    let mut depth = 0;
    let mut count = 0;
    let mut rest = text;
    while let Some((c, behind)) = rest.split_first() {
        if separates(depth, *c) {
            return count;
        }
        depth = depth_behind(depth, *c);
        count += 1;
        rest = behind;
    }
    all
}

/// Does the byte separate parts, inside so many parentheses?
pub fn separates(depth: usize, c: u8) -> bool
    ensures { result ≡ separates depth c }
{
    c == b',' && depth == 0
}

/// How many parentheses are open behind the byte.
pub fn depth_behind(depth: usize, c: u8) -> usize
    requires { depth + 1 < 2 ^ 64 }
    ensures { result ≡ depth_behind depth c }
{
    match c {
        b'(' => depth + 1,
        b')' => depth.saturating_sub(1),
        _ => depth,
    }
}
