//! The lines of a stream, read by their words: frame lines, rectangles and row items.
//! A viewer asks here what a line says; what it does with the line is decided there.
ghost use Rattle.std.specs.Prelude.{◌≡◌, ◌&&◌, ◌∷◌, ◌++◌, [], IfOk, codes, length, map};
ghost use Rattle.std.specs.Option.{option_map};
ghost use Rattle.std.specs.Str.{bytes_eq};
ghost use Rattle.fx_text.specs.Digits.{capped};
ghost use Rattle.fx_delta.specs.Lines as spec;
ghost use Rattle.fx_delta.specs.Reading.{IsFound, few_words};

use crate::views::is_size;
use fx_text::{all_digits, capped_number, hex_pair};
use std::alloc::{AllocError, Global};

/// What a line that opens a frame says: its size, and how many rectangles follow.
#[derive(Clone, Copy)]
pub struct Frame {
    pub width: u32,
    pub height: u32,
    pub rectangles: u32,
}

/// What a row item says: pixels, and where the first of them goes. A greater number than 32 bits hold is the
/// greatest of these.
#[derive(Drop)]
pub struct FoundItem {
    pub x: u32,
    pub y: u32,
    pub pixels: Vec<u32>,
}

/// `frame N W H damage K`
pub fn read_frame(alloc: Global, line: &[u8]) -> Result<Option<Frame>, AllocError>
    ensures { IfOk result (λ frame. frame ≡ spec.frame_in (spec.words line.now)) }
{
    match few_words(alloc, line, 6)? {
        Some(words) => Ok(frame_in(words.as_slice())),
        None => Ok(None),
    }
}

/// `X Y W H`
pub fn is_rectangle(alloc: Global, line: &[u8]) -> Result<bool, AllocError>
    ensures { IfOk result (λ is. is ≡ spec.is_rectangle (spec.words line.now)) }
{
    match few_words(alloc, line, 4)? {
        Some(words) => Ok(are_rectangle(words.as_slice())),
        None => Ok(false),
    }
}

/// `row X Y P1 P2 ..`; more pixels than a picture has in a row are nowhere.
pub fn read_item(alloc: Global, line: &[u8]) -> Result<Option<FoundItem>, AllocError>
    ensures { IfOk result (λ item. IsFound item (spec.item_in (spec.words line.now))) }
{
    match few_words(alloc, line, 2051)? {
        Some(words) => item_in(alloc, words.as_slice()),
        None => Ok(None),
    }
}

/// What stands between the single spaces of the line, unless that are more than so many words.
fn few_words<'a>(
    alloc: Global,
    line: &'a [u8],
    most: usize,
) -> Result<Option<Vec<&'a [u8]>>, AllocError>
    ensures { IfOk result (λ words.
        option_map (λ found. map (λ word. word.now) found.items) words ≡ few_words most line.now) }
{
    if word_count(line) > most {
        return Ok(None);
    }
    Ok(Some(words(alloc, line)?))
}

fn word_count(line: &[u8]) -> usize
    ensures { result ≡ length (spec.words line.now) }
{
    line.split(|byte| *byte == b' ').count()
}

fn words<'a>(alloc: Global, line: &'a [u8]) -> Result<Vec<&'a [u8]>, AllocError>
    ensures { IfOk result (λ words. map (λ word. word.now) words.items ≡ spec.words line.now) }
{
    line.split(|byte| *byte == b' ').collect(alloc)
}

fn frame_in(words: &[&[u8]]) -> Option<Frame>
    ensures { result ≡ spec.frame_in (map (λ word. word.now) words.now) }
{
    match words {
        [word, number, width, height, damage, count] => {
            frame_said(word, number, width, height, damage, count)
        }
        _ => None,
    }
}

fn frame_said(
    word: &[u8],
    number: &[u8],
    width: &[u8],
    height: &[u8],
    damage: &[u8],
    count: &[u8],
) -> Option<Frame>
    ensures { result ≡ spec.frame_in
        (word.now ∷ number.now ∷ width.now ∷ height.now ∷ damage.now ∷ count.now ∷ []) }
{
    if are_frame_words(word, damage) {
        capped_frame(
            number_of(number),
            number_of(width),
            number_of(height),
            number_of(count),
        )
    } else {
        None
    }
}

fn are_frame_words(first: &[u8], fifth: &[u8]) -> bool
    ensures { result ≡ (bytes_eq first.now (codes "frame") && bytes_eq fifth.now (codes "damage")) }
{
    first == b"frame".as_slice() && fifth == b"damage".as_slice()
}

fn capped_frame(
    number: Option<u32>,
    width: Option<u32>,
    height: Option<u32>,
    count: Option<u32>,
) -> Option<Frame>
    ensures { result ≡ spec.frame_of number width height count }
{
    match (number, width, height, count) {
        (Some(number), Some(width), Some(height), Some(rectangles)) => {
            if 1 <= number && is_size(width, height) && rectangles <= 16 {
                Some(Frame {
                    width,
                    height,
                    rectangles,
                })
            } else {
                None
            }
        }
        _ => None,
    }
}

fn are_rectangle(words: &[&[u8]]) -> bool
    ensures { result ≡ spec.is_rectangle (map (λ word. word.now) words.now) }
{
    match words {
        [x, y, w, h] => is_number(x) && is_number(y) && is_number(w) && is_number(h),
        _ => false,
    }
}

fn item_in(alloc: Global, words: &[&[u8]]) -> Result<Option<FoundItem>, AllocError>
    ensures { IfOk result (λ item. IsFound item (spec.item_in (map (λ word. word.now) words.now))) }
{
    if words.len() < 4 {
        return Ok(None);
    }
    let (head, pixels) = words.split_at(4);
    head_item(alloc, head, pixels)
}

fn head_item(
    alloc: Global,
    head: &[&[u8]],
    pixels: &[&[u8]],
) -> Result<Option<FoundItem>, AllocError>
    requires { length head.now ≡ 4 }
    ensures { IfOk result (λ item. IsFound item (spec.item_in
        (map (λ word. word.now) head.now ++ map (λ word. word.now) pixels.now))) }
{
    match head {
        [word, x, y, first] => words_item(alloc, word, x, y, first, pixels),
        _ => unreachable!(),
    }
}

fn words_item(
    alloc: Global,
    word: &[u8],
    x: &[u8],
    y: &[u8],
    first: &[u8],
    pixels: &[&[u8]],
) -> Result<Option<FoundItem>, AllocError>
    ensures { IfOk result (λ item. IsFound item (spec.item_in
        (word.now ∷ x.now ∷ y.now ∷ first.now ∷ map (λ word. word.now) pixels.now))) }
{
    if !is_row_word(word) {
        return Ok(None);
    }
    let pixels = first_pixels(alloc, first, pixels)?;
    Ok(item_said(x, y, pixels))
}

fn is_row_word(word: &[u8]) -> bool
    ensures { result ≡ bytes_eq word.now (codes "row") }
{
    word == b"row".as_slice()
}

fn item_said(x: &[u8], y: &[u8], pixels: Option<Vec<u32>>) -> Option<FoundItem>
    ensures { IsFound result (spec.item_of (spec.number_of x.now) (spec.number_of y.now)
        (option_map (λ found. found.items) pixels)) }
{
    item_of(number_of(x), number_of(y), pixels)
}

fn item_of(x: Option<u32>, y: Option<u32>, pixels: Option<Vec<u32>>) -> Option<FoundItem>
    ensures { IsFound result (spec.item_of x y (option_map (λ found. found.items) pixels)) }
{
    match (x, y, pixels) {
        (Some(x), Some(y), Some(pixels)) => Some(FoundItem { x, y, pixels }),
        _ => None,
    }
}

fn first_pixels(
    alloc: Global,
    first: &[u8],
    words: &[&[u8]],
) -> Result<Option<Vec<u32>>, AllocError>
    ensures { IfOk result (λ pixels.
        option_map (λ found. found.items) pixels ≡ spec.pixels_of (first.now ∷ map (λ word. word.now) words.now)) }
{
    let Some(pixel) = pixel_of(first) else {
        return Ok(None);
    };
    let mut pixels = Vec::with_capacity(alloc, words.len().saturating_add(1))?;
    pixels.push(pixel)?;
    for word in words {
        let Some(pixel) = pixel_of(word) else {
            return Ok(None);
        };
        pixels.push(pixel)?;
    }
    Ok(Some(pixels))
}

/// Six hexadecimal digits, in either case of letters.
fn pixel_of(word: &[u8]) -> Option<u32>
    ensures { result ≡ spec.pixel_of word.now }
{
    match word {
        [a, b, c, d, e, f] => {
            let red = u32::from(hex_pair(*a, *b)?);
            let green = u32::from(hex_pair(*c, *d)?);
            let blue = u32::from(hex_pair(*e, *f)?);
            Some(red * 65536 + green * 256 + blue)
        }
        _ => None,
    }
}

/// Decimal digits without zeros in front of others, as far as 32 bits hold the number.
fn number_of(word: &[u8]) -> Option<u32>
    ensures { result ≡ option_map capped (spec.number_of word.now) }
{
    if is_number(word) {
        Some(capped_number(word))
    } else {
        None
    }
}

fn is_number(word: &[u8]) -> bool
    ensures { result ≡ spec.is_number word.now }
{
    match word {
        [first, rest @ ..] => all_digits(word) && (*first != b'0' || rest.is_empty()),
        [] => false,
    }
}
