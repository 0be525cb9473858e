//! Where the properties that a frame asks for by name stand among those of a class.
ghost use Rattle.std.specs.Prelude.{◌≡◌, ◌++◌, IfOk, IfSome, OnOk, true};
ghost use Rattle.std.specs.Option.{option_map};
ghost use Rattle.fx_kinds.specs.declared.classes.Class.TheVariants as class_named;
ghost use Rattle.fx_stage_model.specs.Looking.{place_of};
ghost use Rattle.fx_stage_facts.specs.Places as spec;
ghost use Rattle.fx_stage_facts.specs.Places.{name_of};

use fx_kinds::{Class, properties, property_named};
use fx_look::StyleName;
use std::alloc::{AllocError, Global};
use std::marker::Model;
use std::mem::swap;

/// A property that a frame asks for by name.
#[derive(Clone, Copy)]
pub enum Asked {
    Id,
    Disable,
    Text,
    LayoutX,
    LayoutY,
    FocusTraversable,
    Width,
    Height,
}

/// A property that a declaration styles, by its place among those of its class.
#[derive(Clone, Copy)]
pub struct Styled {
    pub place: u32,
    pub style: StyleName,
}

/// The properties of a class around its width and its height, which stand side by side: so many stand in front of the
/// two, and so many behind them.
#[derive(Clone, Copy)]
pub struct Around {
    pub front: usize,
    pub behind: usize,
}

/// The places of these properties in the list of one class, and those of it that declarations style. Contracts see the
/// class.
#[derive(Drop)]
struct ClassPlaces {
    class: Class,
    around: Option<Around>,
    styled: Vec<Styled>,
    id: Option<usize>,
    disable: Option<usize>,
    text: Option<usize>,
    layout_x: Option<usize>,
    layout_y: Option<usize>,
    focus_traversable: Option<usize>,
    width: Option<usize>,
    height: Option<usize>,
}

impl Model for ClassPlaces {
    ghost use Rattle.std.specs.Prelude.{◌≡◌, IfSome, codes};
    ghost use Rattle.fx_kinds.specs.declared.classes.Class.{Class as ClassName};
    ghost use Rattle.fx_stage_model.specs.Looking.{place_of};
    ghost use Rattle.fx_stage_facts.specs.Places.{IsAround, styled_of};

    ghost Value = { ClassName };

    ghost view = { λ p. p.class };

    ghost invariant = { λ p. (p.id ≡ place_of p.class (codes "id"))
        × (p.disable ≡ place_of p.class (codes "disable"))
        × (p.text ≡ place_of p.class (codes "text"))
        × (p.layout_x ≡ place_of p.class (codes "layoutX"))
        × (p.layout_y ≡ place_of p.class (codes "layoutY"))
        × (p.focus_traversable ≡ place_of p.class (codes "focusTraversable"))
        × (p.width ≡ place_of p.class (codes "width"))
        × (p.height ≡ place_of p.class (codes "height"))
        × IfSome p.around (IsAround p.class)
        × (p.styled.items ≡ styled_of p.class) };
}

#[tactic(auto, unfolding(fx_stage_model::specs::Looking::place_of))]
fn place_named(class: Class, name: &str) -> Option<usize>
    ensures { result ≡ place_of class name.now }
{
    property_named(class, name)
}

/// The properties around the width and the height of the class, if it has the two side by side.
fn around_of(class: Class) -> Option<Around>
    ensures { IfSome result (spec.IsAround class) }
{
    let Some(front) = place_named(class, "width") else {
        return None;
    };
    let Some(next) = place_named(class, "height") else {
        return None;
    };
    let second = front + 1;
    if next != second {
        return None;
    }
    let rows = properties(class);
    let behind = rows.len() - second - 1;
    Some(Around { front, behind })
}

/// Puts a property behind the others, if a declaration styles it.
fn push_row(
    styled: &mut Vec<Styled>,
    place: u32,
    style: Option<StyleName>,
) -> Result<(), AllocError>
    ensures { OnOk result (styled.new.items
        ≡ styled.old.items ++ spec.styled_at place (option_map (λ style. style.0) style)) }
{
    let Some(style) = style else {
        return Ok(());
    };
    styled.push(Styled { place, style })?;
    Ok(())
}

/// Those properties of the class that declarations style, in their order.
fn styled_of(alloc: Global, class: Class) -> Result<Vec<Styled>, AllocError>
    ensures { IfOk result (λ styled. styled.items ≡ spec.styled_of class) }
{
    let mut styled = Vec::new(alloc);
    for (place, row) in properties(class).iter().enumerate() {
        push_row(&mut styled, place as u32, row.styled)?;
    }
    Ok(styled)
}

impl ClassPlaces {
    fn of(alloc: Global, class: Class) -> Result<ClassPlaces, AllocError>
        ensures { IfOk result (λ places. places ≡ class) }
    {
        let styled = styled_of(alloc, class)?;
        Ok(ClassPlaces {
            class,
            around: around_of(class),
            styled,
            id: place_named(class, "id"),
            disable: place_named(class, "disable"),
            text: place_named(class, "text"),
            layout_x: place_named(class, "layoutX"),
            layout_y: place_named(class, "layoutY"),
            focus_traversable: place_named(class, "focusTraversable"),
            width: place_named(class, "width"),
            height: place_named(class, "height"),
        })
    }

    #[inline]
    fn is_of(&self, class: Class) -> bool
        ensures { result ≡ true → self.now ≡ class }
    {
        self.class == class
    }
}

/// Makes the first the places for this class, and the second what the first ones were. They are looked for only if the
/// second ones weren't of this class.
#[inline(never)]
fn exchange(
    alloc: Global,
    last: &mut Box<ClassPlaces>,
    other: &mut Box<ClassPlaces>,
    class: Class,
) -> Result<(), AllocError>
    ensures { OnOk result (last.new.value ≡ class) }
{
    swap(last, other);
    if last.is_of(class) {
        return Ok(());
    }
    **last = ClassPlaces::of(alloc, class)?;
    Ok(())
}

/// The places of the two classes that were asked for last, since a pane's children mostly are of one class. Contracts
/// see the class that counts now.
#[derive(Drop)]
pub struct Places {
    last: Box<ClassPlaces>,
    other: Box<ClassPlaces>,
}

impl Model for Places {
    ghost use Rattle.fx_kinds.specs.declared.classes.Class.{Class as ClassName};

    ghost Value = { ClassName };

    ghost view = { λ p. p.last.value };
}

impl Places {
    /// The places for a class that has no properties, before the first of those that are asked for.
    pub(crate) fn new(alloc: Global) -> Result<Places, AllocError>
        ensures { IfOk result (λ places. places ≡ class_named.String) }
    {
        let last = ClassPlaces::of(alloc, Class::String)?;
        let other = ClassPlaces::of(alloc, Class::String)?;
        Ok(Places {
            last: Box::new(alloc, last)?,
            other: Box::new(alloc, other)?,
        })
    }

    /// The places for this class from now on. They are looked for only if neither of the last two classes was it.
    #[inline]
    pub(crate) fn turn_to(&mut self, alloc: Global, class: Class) -> Result<(), AllocError>
        ensures { OnOk result (self.new ≡ class) }
    {
        if self.last.is_of(class) {
            return Ok(());
        }
        exchange(alloc, &mut self.last, &mut self.other, class)
    }

    /// The place of the property.
    #[inline]
    pub(crate) fn at(&self, asked: Asked) -> Option<usize>
        ensures { result ≡ place_of self.now (name_of asked) }
    {
        match asked {
            Asked::Id => self.last.id,
            Asked::Disable => self.last.disable,
            Asked::Text => self.last.text,
            Asked::LayoutX => self.last.layout_x,
            Asked::LayoutY => self.last.layout_y,
            Asked::FocusTraversable => self.last.focus_traversable,
            Asked::Width => self.last.width,
            Asked::Height => self.last.height,
        }
    }

    /// The properties around the width and the height, if the class has the two side by side.
    #[inline]
    pub(crate) fn around(&self) -> Option<Around>
        ensures { IfSome result (spec.IsAround self.now) }
    {
        self.last.around
    }

    /// The properties that declarations style, in their order.
    #[inline]
    pub(crate) fn styled(&self) -> &[Styled]
        ensures { result.now ≡ spec.styled_of self.now }
    {
        self.last.styled.as_slice()
    }
}
