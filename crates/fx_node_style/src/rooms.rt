//! The memory of styles that are gone: the lists of the next ones are made in it.
ghost use Rattle.std.specs.Prelude.{◌≡◌, []};

use crate::node_styles::NodeStyle;
use fx_base::{Color, List, Sides};
use fx_look::Look;
use fx_lookup::NamedPaint;
use std::alloc::Global;

/// The memory of a style's lists. What stands in it doesn't matter.
#[derive(Drop)]
pub struct Room {
    pub layers: LayersRoom,
    pub paints: Vec<NamedPaint>,
}

/// The memory of a look's layers.
#[derive(Drop)]
pub struct LayersRoom {
    pub background_color: Vec<Color>,
    pub background_insets: Vec<Sides>,
    pub border_color: Vec<Color>,
    pub border_width: Vec<Sides>,
    pub border_insets: Vec<Sides>,
}

impl Room {
    /// No memory yet.
    pub fn new(alloc: Global) -> Room
        ensures { result.paints.items ≡ [] }
    {
        Room {
            layers: LayersRoom {
                background_color: Vec::new(alloc),
                background_insets: Vec::new(alloc),
                border_color: Vec::new(alloc),
                border_width: Vec::new(alloc),
                border_insets: Vec::new(alloc),
            },
            paints: Vec::new(alloc),
        }
    }

    /// The memory of this style: its lists, as they are.
    pub fn of(style: NodeStyle) -> Room
        ensures paints { result.paints.items ≡ style.paints }
        ensures backgrounds { (result.layers.background_color.items ≡ style.look.background_color)
            × (result.layers.background_insets.items ≡ style.look.background_insets) }
        ensures borders { (result.layers.border_color.items ≡ style.look.border_color)
            × (result.layers.border_width.items ≡ style.look.border_width)
            × (result.layers.border_insets.items ≡ style.look.border_insets) }
    {
        let NodeStyle { look, paints } = style;
        Room {
            layers: LayersRoom::of(look),
            paints: paints.into_vec(),
        }
    }
}

impl Room {
    /// A style in this room. What it is doesn't matter.
    pub fn into_style(self) -> NodeStyle {
        let Room { layers, paints } = self;
        NodeStyle {
            look: layers.into_look(),
            paints: List::from_vec(paints),
        }
    }
}

impl LayersRoom {
    fn into_look(self) -> Look {
        let none = Sides {
            top: 0,
            right: 0,
            bottom: 0,
            left: 0,
        };
        Look {
            padding: none,
            alignment: 0,
            spacing: 0,
            hgap: 0,
            vgap: 0,
            fill_width: true,
            fill_height: true,
            min_width: 0,
            min_height: 0,
            pref_width: 0,
            pref_height: 0,
            max_width: 0,
            max_height: 0,
            background_color: List::from_vec(self.background_color),
            background_insets: List::from_vec(self.background_insets),
            border_color: List::from_vec(self.border_color),
            border_width: List::from_vec(self.border_width),
            border_insets: List::from_vec(self.border_insets),
            text_fill: Color {
                r: 0,
                g: 0,
                b: 0,
                a: 0,
            },
            font_size: 0,
            wrap_text: false,
            visibility: true,
        }
    }

    fn of(look: Look) -> LayersRoom
        ensures backgrounds { (result.background_color.items ≡ look.background_color)
            × (result.background_insets.items ≡ look.background_insets) }
        ensures borders { (result.border_color.items ≡ look.border_color)
            × (result.border_width.items ≡ look.border_width)
            × (result.border_insets.items ≡ look.border_insets) }
    {
        let Look {
            background_color,
            background_insets,
            border_color,
            border_width,
            border_insets,
            ..
        } = look;
        LayersRoom {
            background_color: background_color.into_vec(),
            background_insets: background_insets.into_vec(),
            border_color: border_color.into_vec(),
            border_width: border_width.into_vec(),
            border_insets: border_insets.into_vec(),
        }
    }
}
