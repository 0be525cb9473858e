//! What is printed of an update: the places whose looks may be others than before, and a line for each node with the
//! alignment, and with each other value that isn't a new node's.
use fx_base::{Color, Sides};
use fx_look::Look;
use fx_style::Styles;
use std::fmt::Write;

const ZERO: Sides = Sides {
    top: 0,
    right: 0,
    bottom: 0,
    left: 0,
};

const ONE: Sides = Sides {
    top: 1,
    right: 1,
    bottom: 1,
    left: 1,
};

/// The lines of all nodes.
pub fn push_looks(text: &mut String, styles: &Styles) -> anyhow::Result<()> {
    text.push_str("changed")?;
    for place in styles.changed() {
        write!(text, " {place}")?;
    }
    text.push_str("\n")?;
    for look in styles.looks() {
        push_look(text, look)?;
    }
    Ok(())
}

fn push_look(text: &mut String, look: &Look) -> anyhow::Result<()> {
    write!(text, "alignment={}", look.alignment)?;
    push_sizes(text, look)?;
    push_truths(text, look)?;
    push_layers(text, look)?;
    Ok(text.push_str("\n")?)
}

fn push_sizes(text: &mut String, look: &Look) -> anyhow::Result<()> {
    push_size(text, "spacing", look.spacing, 0)?;
    push_size(text, "hgap", look.hgap, 0)?;
    push_size(text, "vgap", look.vgap, 0)?;
    push_size(text, "min-width", look.min_width, -1)?;
    push_size(text, "min-height", look.min_height, -1)?;
    push_size(text, "pref-width", look.pref_width, -1)?;
    push_size(text, "pref-height", look.pref_height, -1)?;
    push_size(text, "max-width", look.max_width, -1)?;
    push_size(text, "max-height", look.max_height, -1)?;
    push_size(text, "font-size", look.font_size, 12)
}

fn push_size(text: &mut String, name: &str, size: i64, initial: i64) -> anyhow::Result<()> {
    if size == initial {
        return Ok(());
    }
    Ok(write!(text, " {name}={size}")?)
}

fn push_truths(text: &mut String, look: &Look) -> anyhow::Result<()> {
    push_truth(text, "fill-width", look.fill_width, true)?;
    push_truth(text, "fill-height", look.fill_height, true)?;
    push_truth(text, "wrap-text", look.wrap_text, false)?;
    push_truth(text, "visibility", look.visibility, true)
}

fn push_truth(text: &mut String, name: &str, truth: bool, initial: bool) -> anyhow::Result<()> {
    if truth == initial {
        return Ok(());
    }
    Ok(write!(text, " {name}={truth}")?)
}

fn push_layers(text: &mut String, look: &Look) -> anyhow::Result<()> {
    push_sides(text, "padding", &[look.padding], ZERO)?;
    push_sides(
        text,
        "background-insets",
        look.background_insets.as_slice(),
        ZERO,
    )?;
    push_sides(text, "border-width", look.border_width.as_slice(), ONE)?;
    push_sides(text, "border-insets", look.border_insets.as_slice(), ZERO)?;
    push_colors(text, "background-color", look.background_color.as_slice())?;
    push_colors(text, "border-color", look.border_color.as_slice())?;
    push_colors(text, "text-fill", &[look.text_fill])
}

/// The sides of layers, but for one layer of the initial ones.
fn push_sides(
    text: &mut String,
    name: &str,
    layers: &[Sides],
    initial: Sides,
) -> anyhow::Result<()> {
    if let [only] = layers {
        if only.equals(initial) {
            return Ok(());
        }
    }
    write!(text, " {name}=")?;
    for (at, sides) in layers.iter().enumerate() {
        push_bar(text, at)?;
        write!(
            text,
            "{},{},{},{}",
            sides.top, sides.right, sides.bottom, sides.left
        )?;
    }
    Ok(())
}

/// The colours of layers, if there are any.
fn push_colors(text: &mut String, name: &str, layers: &[Color]) -> anyhow::Result<()> {
    if layers.is_empty() {
        return Ok(());
    }
    write!(text, " {name}=")?;
    for (at, color) in layers.iter().enumerate() {
        push_bar(text, at)?;
        write!(text, "{},{},{},{}", color.r, color.g, color.b, color.a)?;
    }
    Ok(())
}

fn push_bar(text: &mut String, at: usize) -> anyhow::Result<()> {
    if at == 0 {
        return Ok(());
    }
    Ok(text.push_str("/")?)
}
