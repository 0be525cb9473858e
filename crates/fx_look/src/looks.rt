//! The look of a node: the value of each style declaration.
//! Layouts measure and shapes draw by it.
ghost use Rattle.std.specs.Prelude.{◌≡◌, IfOk, [], ◌∷◌};
ghost use Rattle.fx_look.specs.Insets.{sides};
ghost use Rattle.fx_look.specs.Looks.{initial_look};

use fx_base::{Color, List, Sides};
use std::alloc::{AllocError, Global};

/// The value of each style declaration, in their order (JavaFX CSS Reference Guide). Lengths are in pixels;
/// `alignment` is the place of a constant of `Pos`, and `visibility` is true for `visible`.
#[derive(Drop)]
pub struct Look {
    pub padding: Sides,
    pub alignment: u8,
    pub spacing: i64,
    pub hgap: i64,
    pub vgap: i64,
    pub fill_width: bool,
    pub fill_height: bool,
    pub min_width: i64,
    pub min_height: i64,
    pub pref_width: i64,
    pub pref_height: i64,
    pub max_width: i64,
    pub max_height: i64,
    pub background_color: List<Color>,
    pub background_insets: List<Sides>,
    pub border_color: List<Color>,
    pub border_width: List<Sides>,
    pub border_insets: List<Sides>,
    pub text_fill: Color,
    pub font_size: i64,
    pub wrap_text: bool,
    pub visibility: bool,
}

/// Black (JavaFX `Color.BLACK`).
const BLACK: Color = Color {
    r: 0,
    g: 0,
    b: 0,
    a: 255,
};

impl Look {
    /// The look of a node that nothing styles. Its alignment is that of its class.
    pub fn initial(alloc: Global, alignment: u8) -> Result<Look, AllocError>
        ensures { IfOk result (λ look. look ≡ initial_look alignment) }
    {
        Ok(Look {
            padding: even_sides(0),
            alignment,
            spacing: 0,
            hgap: 0,
            vgap: 0,
            fill_width: true,
            fill_height: true,
            min_width: -1,
            min_height: -1,
            pref_width: -1,
            pref_height: -1,
            max_width: -1,
            max_height: -1,
            background_color: List::new(alloc),
            background_insets: one_layer(alloc, even_sides(0))?,
            border_color: List::new(alloc),
            border_width: one_layer(alloc, even_sides(1))?,
            border_insets: one_layer(alloc, even_sides(0))?,
            text_fill: BLACK,
            font_size: 12,
            wrap_text: false,
            visibility: true,
        })
    }

    /// A look of the same contents.
    pub fn copy(&self, alloc: Global) -> Result<Look, AllocError>
        ensures { IfOk result (λ copy. copy ≡ self.now) }
    {
        Ok(Look {
            padding: self.padding,
            alignment: self.alignment,
            spacing: self.spacing,
            hgap: self.hgap,
            vgap: self.vgap,
            fill_width: self.fill_width,
            fill_height: self.fill_height,
            min_width: self.min_width,
            min_height: self.min_height,
            pref_width: self.pref_width,
            pref_height: self.pref_height,
            max_width: self.max_width,
            max_height: self.max_height,
            background_color: copied(alloc, &self.background_color)?,
            background_insets: copied(alloc, &self.background_insets)?,
            border_color: copied(alloc, &self.border_color)?,
            border_width: copied(alloc, &self.border_width)?,
            border_insets: copied(alloc, &self.border_insets)?,
            text_fill: self.text_fill,
            font_size: self.font_size,
            wrap_text: self.wrap_text,
            visibility: self.visibility,
        })
    }
}

/// The same length on each side.
fn even_sides(length: i64) -> Sides
    ensures { result ≡ sides length length length length }
{
    Sides {
        top: length,
        right: length,
        bottom: length,
        left: length,
    }
}

fn one_layer(alloc: Global, sides: Sides) -> Result<List<Sides>, AllocError>
    ensures { IfOk result (λ layers. layers ≡ sides ∷ []) }
{
    Ok(List::from_vec(Vec::from_slice(alloc, &[sides])?))
}

fn copied<T: Copy + Drop>(alloc: Global, items: &List<T>) -> Result<List<T>, AllocError>
    ensures { IfOk result (λ copy. copy ≡ items.now) }
{
    Ok(List::from_vec(Vec::from_slice(alloc, items.as_slice())?))
}
