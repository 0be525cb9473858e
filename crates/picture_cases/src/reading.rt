//! An entry from a line: `BIRTH PATH X Y W H`, the path with dots between its numbers, or `-`, and behind semicolons a
//! letter with four numbers or one: `b`, `c` and `t` are colours of the background, of the border and of the text, `i`
//! and `n` the insets of background and border, `w` the border's widths, `p` the padding, `z` the font's size, `a` the
//! alignment and `r` wrapText. `x` is the text of a control.
ghost use Rattle.std.specs.Prelude.{◌≡◌, ◌&&◌};
ghost use Rattle.picture_cases.specs.Near.{is_near, is_short};

use anyhow::bail;
use fx_base::{Color, List, NodeKey, Rect, Sides, Text};
use fx_look::Look;
use fx_picture::Entry;
use fx_shapes::shapes;
use std::alloc::Global;
use std::str::Split;

/// The width and the height of a window.
pub fn read_size(text: &str) -> anyhow::Result<(u32, u32)> {
    let Some((width, height)) = text.split_once(' ') else {
        bail!("a size is two numbers");
    };
    Ok((width.parse::<u32>()?, height.parse::<u32>()?))
}

/// The entry of a line.
pub fn read_entry(alloc: Global, line: &str) -> anyhow::Result<Entry> {
    let (head, facts) = line.split_once(';').unwrap_or((line, ""));
    let mut words = head.split(' ');
    let birth = words.next().unwrap_or("").parse::<u32>()?;
    let path = words.next().unwrap_or("-");
    let rect = read_rect(&mut words)?;
    if !is_near(rect) {
        bail!("a rectangle is far away");
    }
    let path = read_path(alloc, path)?;
    let mut text = None;
    let look = read_look(alloc, facts, &mut text)?;
    let shapes = shapes(alloc, &look, rect, text.as_ref())?;
    Ok(Entry {
        key: NodeKey { slot: 0, birth },
        path: List::from_vec(path),
        rect,
        shapes: List::from_vec(shapes),
        disabled: false,
        focusable: false,
    })
}

fn next_number(words: &mut Split<'_, char>) -> anyhow::Result<i64> {
    match words.next() {
        Some(word) => Ok(word.parse::<i64>()?),
        None => bail!("a number is wanting"),
    }
}

fn read_path(alloc: Global, word: &str) -> anyhow::Result<Vec<u32>> {
    let mut path = Vec::new(alloc);
    if word != "-" {
        for place in word.split('.') {
            path.push(place.parse::<u32>()?)?;
        }
    }
    Ok(path)
}

fn read_rect(words: &mut Split<'_, char>) -> anyhow::Result<Rect> {
    Ok(Rect {
        x: next_number(words)?,
        y: next_number(words)?,
        w: next_number(words)?,
        h: next_number(words)?,
    })
}

/// Whether no number of the rectangle is more than 10^12, so that shapes can be made of it.
fn is_near(rect: Rect) -> bool
    ensures { result ≡ is_near rect }
{
    is_placed(rect) && is_sized(rect)
}

fn is_placed(rect: Rect) -> bool
    ensures { result ≡ (is_short rect.x && is_short rect.y) }
{
    is_across(rect) && is_down(rect)
}

fn is_sized(rect: Rect) -> bool
    ensures { result ≡ (is_short rect.w && is_short rect.h) }
{
    is_wide(rect) && is_high(rect)
}

fn is_across(rect: Rect) -> bool
    ensures { result ≡ is_short rect.x }
{
    -1_000_000_000_000 <= rect.x && rect.x <= 1_000_000_000_000
}

fn is_down(rect: Rect) -> bool
    ensures { result ≡ is_short rect.y }
{
    -1_000_000_000_000 <= rect.y && rect.y <= 1_000_000_000_000
}

fn is_wide(rect: Rect) -> bool
    ensures { result ≡ is_short rect.w }
{
    -1_000_000_000_000 <= rect.w && rect.w <= 1_000_000_000_000
}

fn is_high(rect: Rect) -> bool
    ensures { result ≡ is_short rect.h }
{
    -1_000_000_000_000 <= rect.h && rect.h <= 1_000_000_000_000
}

/// The lists of a look, as far as they are read.
#[derive(Drop)]
struct Layers {
    colors: Vec<Color>,
    insets: Vec<Sides>,
    border_colors: Vec<Color>,
    border_insets: Vec<Sides>,
    border_widths: Vec<Sides>,
}

fn read_look(alloc: Global, facts: &str, text: &mut Option<Text>) -> anyhow::Result<Look> {
    let mut look = Look::initial(alloc, 0)?;
    let mut layers = Layers {
        colors: Vec::new(alloc),
        insets: Vec::new(alloc),
        border_colors: Vec::new(alloc),
        border_insets: Vec::new(alloc),
        border_widths: Vec::new(alloc),
    };
    match read_pieces(alloc, facts, &mut look, &mut layers, text) {
        Ok(()) => Ok(with_layers(look, layers)),
        Err(error) => Err(error),
    }
}

fn read_pieces(
    alloc: Global,
    facts: &str,
    look: &mut Look,
    layers: &mut Layers,
    text: &mut Option<Text>,
) -> anyhow::Result<()> {
    for piece in facts.split(';') {
        let (letter, rest) = piece.split_once(' ').unwrap_or((piece, ""));
        if letter == "x" {
            *text = Some(Text::from_str(alloc, rest)?);
        } else {
            read_piece(look, layers, letter, rest)?;
        }
    }
    Ok(())
}

fn read_piece(
    look: &mut Look,
    layers: &mut Layers,
    letter: &str,
    rest: &str,
) -> anyhow::Result<()> {
    match letter {
        "" => {}
        "z" => look.font_size = rest.parse::<i64>()?,
        "a" => look.alignment = rest.parse::<u8>()?,
        "r" => look.wrap_text = rest == "1",
        "t" => look.text_fill = read_color(rest)?,
        "p" => look.padding = read_sides(rest)?,
        _ => read_layer(layers, letter, rest)?,
    }
    Ok(())
}

fn read_layer(layers: &mut Layers, letter: &str, rest: &str) -> anyhow::Result<()> {
    match letter {
        "b" => layers.colors.push(read_color(rest)?)?,
        "i" => layers.insets.push(read_sides(rest)?)?,
        "c" => layers.border_colors.push(read_color(rest)?)?,
        "n" => layers.border_insets.push(read_sides(rest)?)?,
        "w" => layers.border_widths.push(read_sides(rest)?)?,
        _ => bail!("no such fact"),
    }
    Ok(())
}

/// The look with these lists; what isn't said is as in a new look.
fn with_layers(mut look: Look, layers: Layers) -> Look {
    let Layers {
        colors,
        insets,
        border_colors,
        border_insets,
        border_widths,
    } = layers;
    look.background_color = List::from_vec(colors);
    look.border_color = List::from_vec(border_colors);
    if !insets.is_empty() {
        look.background_insets = List::from_vec(insets);
    }
    if !border_insets.is_empty() {
        look.border_insets = List::from_vec(border_insets);
    }
    if !border_widths.is_empty() {
        look.border_width = List::from_vec(border_widths);
    }
    look
}

fn read_sides(text: &str) -> anyhow::Result<Sides> {
    let mut words = text.split(' ');
    Ok(Sides {
        top: next_number(&mut words)?,
        right: next_number(&mut words)?,
        bottom: next_number(&mut words)?,
        left: next_number(&mut words)?,
    })
}

fn read_color(text: &str) -> anyhow::Result<Color> {
    let mut words = text.split(' ');
    Ok(Color {
        r: next_channel(&mut words)?,
        g: next_channel(&mut words)?,
        b: next_channel(&mut words)?,
        a: next_channel(&mut words)?,
    })
}

fn next_channel(words: &mut Split<'_, char>) -> anyhow::Result<u8> {
    match words.next() {
        Some(word) => Ok(word.parse::<u8>()?),
        None => bail!("a channel is wanting"),
    }
}
