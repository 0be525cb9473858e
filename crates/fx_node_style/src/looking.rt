//! The look of a node by the values that win the rows of the style table.
ghost use Rattle.std.specs.Prelude.{◌≡◌, ◌<◌, ℕ, IfOk, OnOk, map};
ghost use Rattle.fx_lookup.specs.Lookups.{resolved};
ghost use Rattle.fx_node_style.specs.Kinds.{color_in, colors_in, layers_in, length_in, place_in, sides_in, truth_in};
ghost use Rattle.fx_node_style.specs.Looking.{joined, layers_of, layers_on, lengths_of, look_of, rows_of, spaces_of, truths_of};
ghost use Rattle.fx_node_style.specs.Values.{WinsBy};

use crate::values::row_value;
use crate::{kinds, paints};
use fx_base::{Color, List, Sides};
use fx_cascade::Winners;
use fx_css_types::{Candidate, SheetAt};
use fx_look::{CodeValue, Look, STYLE_COUNT, StyleKey};
use fx_lookup::NamedPaint;
use std::alloc::{AllocError, Global};

/// What the values of a node's rows are read from.
#[derive(Clone, Copy)]
pub struct Rows<'a> {
    pub sheets: &'a [SheetAt],
    pub matched: &'a [Candidate],
    pub codes: &'a [CodeValue],
    pub winners: &'a Winners,
}

impl Rows<'_> {
    fn length(self, row: usize, unset: i64, parent: i64) -> i64
        requires wins { WinsBy self.winners.now self.sheets.now self.matched.now self.codes.now }
        requires there { row < STYLE_COUNT }
        ensures { result ≡ length_in (rows_of self.entry row) unset parent }
    {
        kinds::length_in(
            row_value(self.sheets, self.matched, self.codes, self.winners, row),
            unset,
            parent,
        )
    }

    fn truth(self, row: usize, unset: bool, parent: bool) -> bool
        requires wins { WinsBy self.winners.now self.sheets.now self.matched.now self.codes.now }
        requires there { row < STYLE_COUNT }
        ensures { result ≡ truth_in (rows_of self.entry row) unset parent }
    {
        kinds::truth_in(
            row_value(self.sheets, self.matched, self.codes, self.winners, row),
            unset,
            parent,
        )
    }

    fn sides(self, row: usize, unset: Sides, parent: Sides) -> Sides
        requires wins { WinsBy self.winners.now self.sheets.now self.matched.now self.codes.now }
        requires there { row < STYLE_COUNT }
        ensures { result ≡ sides_in (rows_of self.entry row) unset parent }
    {
        kinds::sides_in(
            row_value(self.sheets, self.matched, self.codes, self.winners, row),
            unset,
            parent,
        )
    }

    fn place(self, row: usize, unset: u8, parent: u8) -> u8
        requires wins { WinsBy self.winners.now self.sheets.now self.matched.now self.codes.now }
        requires there { row < STYLE_COUNT }
        ensures { result ≡ place_in (rows_of self.entry row) unset parent }
    {
        kinds::place_in(
            row_value(self.sheets, self.matched, self.codes, self.winners, row),
            unset,
            parent,
        )
    }

    fn write_layers(
        self,
        alloc: Global,
        layers: &mut List<Sides>,
        row: usize,
        unset: Sides,
        parent: &List<Sides>,
    ) -> Result<(), AllocError>
        requires wins { WinsBy self.winners.now self.sheets.now self.matched.now self.codes.now }
        requires there { row < STYLE_COUNT }
        ensures { OnOk result (layers.new ≡ layers_in (rows_of self.entry row) unset parent.now) }
    {
        kinds::write_layers(
            alloc,
            layers,
            row_value(self.sheets, self.matched, self.codes, self.winners, row),
            unset,
            parent,
        )
    }
}

impl<'a> Rows<'a> {
    fn color(
        self,
        alloc: Global,
        row: usize,
        chain: &[&'a [NamedPaint]],
        unset: Color,
        parent: Color,
    ) -> Result<Color, AllocError>
        requires wins { WinsBy self.winners.now self.sheets.now self.matched.now self.codes.now }
        requires there { row < STYLE_COUNT }
        ensures { IfOk result (λ color. color
            ≡ color_in (resolved (map (λ n. n.now) chain.now)) (rows_of self.entry row) unset parent) }
    {
        paints::color_in(
            alloc,
            row_value(self.sheets, self.matched, self.codes, self.winners, row),
            chain,
            unset,
            parent,
        )
    }

    fn write_colors(
        self,
        alloc: Global,
        colors: &mut List<Color>,
        row: usize,
        chain: &[&'a [NamedPaint]],
        parent: &List<Color>,
    ) -> Result<(), AllocError>
        requires wins { WinsBy self.winners.now self.sheets.now self.matched.now self.codes.now }
        requires there { row < STYLE_COUNT }
        ensures { OnOk result (colors.new
            ≡ colors_in (resolved (map (λ n. n.now) chain.now)) (rows_of self.entry row) parent.now) }
    {
        paints::write_colors(
            alloc,
            colors,
            row_value(self.sheets, self.matched, self.codes, self.winners, row),
            chain,
            parent,
        )
    }
}

const BLACK: Color = Color {
    r: 0,
    g: 0,
    b: 0,
    a: 255,
};

const ZERO: Sides = Sides {
    top: 0,
    right: 0,
    bottom: 0,
    left: 0,
};

const ONE: Sides = Sides {
    top: 1,
    right: 1,
    bottom: 1,
    left: 1,
};

/// The six sizes of a node.
#[derive(Clone, Copy)]
struct Lengths {
    min_width: i64,
    min_height: i64,
    pref_width: i64,
    pref_height: i64,
    max_width: i64,
    max_height: i64,
}

#[derive(Clone, Copy)]
struct Spaces {
    spacing: i64,
    hgap: i64,
    vgap: i64,
    font_size: i64,
}

#[derive(Clone, Copy)]
struct Truths {
    fill_width: bool,
    fill_height: bool,
    wrap_text: bool,
    visibility: bool,
}

impl Rows<'_> {
    #[inline]
    #[tactic(auto, unfolding(fx_look::specs::Styles::styles))]
    fn lengths(self, parent: &Look) -> Lengths
        requires wins { WinsBy self.winners.now self.sheets.now self.matched.now self.codes.now }
        ensures { result ≡ lengths_of (rows_of self.entry) parent.now }
    {
        Lengths {
            min_width: self.length(StyleKey::MinWidth as usize, -1, parent.min_width),
            min_height: self.length(StyleKey::MinHeight as usize, -1, parent.min_height),
            pref_width: self.length(StyleKey::PrefWidth as usize, -1, parent.pref_width),
            pref_height: self.length(StyleKey::PrefHeight as usize, -1, parent.pref_height),
            max_width: self.length(StyleKey::MaxWidth as usize, -1, parent.max_width),
            max_height: self.length(StyleKey::MaxHeight as usize, -1, parent.max_height),
        }
    }

    #[inline]
    #[tactic(auto, unfolding(fx_look::specs::Styles::styles))]
    fn spaces(self, parent: &Look) -> Spaces
        requires wins { WinsBy self.winners.now self.sheets.now self.matched.now self.codes.now }
        ensures { result ≡ spaces_of (rows_of self.entry) parent.now }
    {
        // The font size is inherited.
        let above = parent.font_size;
        Spaces {
            spacing: self.length(StyleKey::Spacing as usize, 0, parent.spacing),
            hgap: self.length(StyleKey::Hgap as usize, 0, parent.hgap),
            vgap: self.length(StyleKey::Vgap as usize, 0, parent.vgap),
            font_size: self.length(StyleKey::FontSize as usize, above, above),
        }
    }

    #[inline]
    #[tactic(auto, unfolding(fx_look::specs::Styles::styles))]
    fn truths(self, parent: &Look) -> Truths
        requires wins { WinsBy self.winners.now self.sheets.now self.matched.now self.codes.now }
        ensures { result ≡ truths_of (rows_of self.entry) parent.now }
    {
        Truths {
            fill_width: self.truth(StyleKey::FillWidth as usize, true, parent.fill_width),
            fill_height: self.truth(StyleKey::FillHeight as usize, true, parent.fill_height),
            wrap_text: self.truth(StyleKey::WrapText as usize, false, parent.wrap_text),
            visibility: self.truth(StyleKey::Visibility as usize, true, parent.visibility),
        }
    }
}

/// Writes the layers of a look and the colour of its text.
#[tactic(auto, unfolding(fx_look::specs::Styles::styles))]
fn write_layers<'a>(
    alloc: Global,
    look: &mut Look,
    rows: Rows<'a>,
    chain: &[&'a [NamedPaint]],
    parent: &Look,
) -> Result<(), AllocError>
    requires wins { WinsBy rows.winners.now rows.sheets.now rows.matched.now rows.codes.now }
    ensures { OnOk result (layers_on look.new
        ≡ layers_of (rows_of rows.entry) (resolved (map (λ n. n.now) chain.now)) parent.now) }
{
    rows.write_colors(
        alloc,
        &mut look.background_color,
        StyleKey::BackgroundColor as usize,
        chain,
        &parent.background_color,
    )?;
    rows.write_layers(
        alloc,
        &mut look.background_insets,
        StyleKey::BackgroundInsets as usize,
        ZERO,
        &parent.background_insets,
    )?;
    rows.write_colors(
        alloc,
        &mut look.border_color,
        StyleKey::BorderColor as usize,
        chain,
        &parent.border_color,
    )?;
    rows.write_layers(
        alloc,
        &mut look.border_width,
        StyleKey::BorderWidth as usize,
        ONE,
        &parent.border_width,
    )?;
    rows.write_layers(
        alloc,
        &mut look.border_insets,
        StyleKey::BorderInsets as usize,
        ZERO,
        &parent.border_insets,
    )?;
    look.text_fill = rows.color(
        alloc,
        StyleKey::TextFill as usize,
        chain,
        BLACK,
        parent.text_fill,
    )?;
    Ok(())
}

/// Writes the look of a node, by its rows, its paints and its ancestors', and its parent's look, in the place of
/// another.
#[tactic(auto, unfolding(crate::specs::Looking::look_of, fx_look::specs::Styles::styles))]
pub fn write_look<'a>(
    alloc: Global,
    look: &mut Look,
    rows: Rows<'a>,
    chain: &[&'a [NamedPaint]],
    alignment: u8,
    parent: &Look,
) -> Result<(), AllocError>
    requires wins { WinsBy rows.winners.now rows.sheets.now rows.matched.now rows.codes.now }
    ensures { OnOk result (look.new ≡ look_of (rows_of rows.entry) (resolved (map
        (λ n. n.now) chain.now)) alignment parent.now) }
{
    write_layers(alloc, look, rows, chain, parent)?;
    let padding = rows.sides(StyleKey::Padding as usize, ZERO, parent.padding);
    let alignment = rows.place(StyleKey::Alignment as usize, alignment, parent.alignment);
    write_fields(
        look,
        padding,
        alignment,
        rows.spaces(parent),
        rows.lengths(parent),
        rows.truths(parent),
    );
    Ok(())
}

/// Writes all fields but those of layers and the colour of the text.
#[inline]
fn write_fields(
    look: &mut Look,
    padding: Sides,
    alignment: u8,
    spaces: Spaces,
    lengths: Lengths,
    truths: Truths,
)
    ensures { look.new ≡ joined padding alignment spaces lengths truths (layers_on look.old) }
{
    look.padding = padding;
    look.alignment = alignment;
    look.spacing = spaces.spacing;
    look.hgap = spaces.hgap;
    look.vgap = spaces.vgap;
    look.fill_width = truths.fill_width;
    look.fill_height = truths.fill_height;
    look.min_width = lengths.min_width;
    look.min_height = lengths.min_height;
    look.pref_width = lengths.pref_width;
    look.pref_height = lengths.pref_height;
    look.max_width = lengths.max_width;
    look.max_height = lengths.max_height;
    look.font_size = spaces.font_size;
    look.wrap_text = truths.wrap_text;
    look.visibility = truths.visibility;
}
