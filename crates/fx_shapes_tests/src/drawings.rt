//! Shapes of looks as another program draws them, and what a picture says of them.
ghost use Rattle.std.specs.Prelude.{◌≡◌};
ghost use Rattle.fx_shapes.specs.Rects.{IsNear};

use fx_base::{Color, List, NodeKey, Rect, Same, Sides, Text};
use fx_look::Look;
use fx_picture::{
    Entry, Picture, Shape, bounds, bounds_of, color_of, is_empty, joined, meeting, same_bounds,
};
use fx_shapes::{insets_of, shapes};
use std::alloc::{AllocError, Global};
use std::test::Fail;

const RED: Color = Color {
    r: 255,
    g: 0,
    b: 0,
    a: 255,
};

const FAINT: Color = Color {
    r: 0,
    g: 0,
    b: 255,
    a: 128,
};

const CLEAR: Color = Color {
    r: 0,
    g: 0,
    b: 0,
    a: 0,
};

fn sides(top: i64, right: i64, bottom: i64, left: i64) -> Sides {
    Sides {
        top,
        right,
        bottom,
        left,
    }
}

fn rect(x: i64, y: i64, w: i64, h: i64) -> Rect
    ensures { result ≡ record { x = x; y = y; w = w; h = h } }
{
    Rect { x, y, w, h }
}

/// The shape in one line: a fill's rectangle or the letters with their clip, and the opacity of the colour.
fn shape_text(alloc: Global, shape: &Shape) -> Result<String, AllocError> {
    let opacity = color_of(shape).a;
    match shape {
        Shape::Fill { rect, .. } => rect_text(alloc, *rect, opacity),
        Shape::Letters {
            x,
            y,
            scale,
            text,
            clip,
            ..
        } => {
            let text = text.as_str();
            let clip = rect_text(alloc, *clip, opacity)?;
            format!(in alloc; "{x} {y} {scale} {text} {clip}")
        }
    }
}

fn rect_text(alloc: Global, rect: Rect, opacity: u8) -> Result<String, AllocError> {
    let x = rect.x;
    let y = rect.y;
    let w = rect.w;
    let h = rect.h;
    format!(in alloc; "{x} {y} {w} {h} {opacity}|")
}

fn drawn(alloc: Global, look: &Look, place: Rect, text: Option<&Text>) -> Result<String, AllocError>
    requires { IsNear place }
{
    let mut all = String::new(alloc);
    for shape in shapes(alloc, look, place, text)? {
        all.push_str(shape_text(alloc, &shape)?.as_str())?;
    }
    Ok(all)
}

#[test]
fn a_letter_stands_in_its_content(rt: HostRuntime) -> Result<(), Fail> {
    let mut look = Look::initial(rt.alloc(), 4)?;
    look.font_size = 6;
    let text = Text::from_str(rt.alloc(), "I")?;
    let shown = drawn(rt.alloc(), &look, rect(0, 0, 4, 6), Some(&text))?;
    assert_eq!(rt; shown.as_str(), "0 0 1 I 0 0 4 6 255|");
    Ok(())
}

#[test]
fn layers_are_painted_in_order(rt: HostRuntime) -> Result<(), Fail> {
    let mut look = Look::initial(rt.alloc(), 4)?;
    look.background_color = List::from_vec(vec![in rt.alloc(); RED, CLEAR, FAINT]?);
    look.background_insets = List::from_vec(vec![in rt.alloc();
        sides(0, 0, 0, 0),
        sides(1, 2, 3, 4),
    ]?);
    look.border_color = List::from_vec(vec![in rt.alloc(); RED, FAINT]?);
    look.border_width = List::from_vec(vec![in rt.alloc();
        sides(1, 2, 3, 4),
        sides(39, 1, 1, 29),
    ]?);
    look.border_insets = List::from_vec(vec![in rt.alloc();
        sides(0, 0, 0, 0),
        sides(-1, 0, 2, 0),
    ]?);
    let shown = drawn(rt.alloc(), &look, rect(10, 20, 30, 40), None)?;
    assert_eq!(rt;
        shown.as_str(),
        "10 20 30 40 255|14 21 24 36 128|10 20 30 1 255|10 57 30 3 255|10 21 4 36 255|38 21 2 36 255|10 19 30 39 128|"
    );
    let insets = insets_of(&look);
    assert_eq!(rt; insets.left, 29);
    Ok(())
}

#[test]
fn a_text_wraps(rt: HostRuntime) -> Result<(), Fail> {
    let mut look = Look::initial(rt.alloc(), 8)?;
    look.font_size = 6;
    look.wrap_text = true;
    look.padding = sides(1, 2, 3, 30);
    let text = Text::from_str(rt.alloc(), "AB CD")?;
    let shown = drawn(rt.alloc(), &look, rect(5, 5, 40, 60), Some(&text))?;
    assert_eq!(rt;
        shown.as_str(),
        "35 50 1 AB 35 6 8 56 255|35 56 1 CD 35 6 8 56 255|"
    );
    Ok(())
}

#[test]
fn pictures_are_copied(rt: HostRuntime) -> Result<(), Fail> {
    let fill = Shape::Fill {
        rect: rect(1, 2, 3, 4),
        color: RED,
    };
    assert!(rt; fill.is_same(&fill.copy(rt.alloc())?));
    let box_of_it = bounds(&fill);
    let nothing = meeting(box_of_it, bounds_of(rect(4, 2, 3, 4)));
    assert!(rt; is_empty(nothing));
    assert!(rt; same_bounds(joined(nothing, box_of_it), box_of_it));
    let entry = Entry {
        key: NodeKey { slot: 0, birth: 1 },
        path: List::from_vec(vec![in rt.alloc(); 0, 2]?),
        rect: rect(1, 2, 3, 4),
        shapes: List::from_vec(vec![in rt.alloc(); fill]?),
        disabled: false,
        focusable: true,
    };
    let picture = Picture {
        entries: List::from_vec(vec![in rt.alloc(); entry]?),
    };
    assert_eq!(rt; picture.copy(rt.alloc())?.entries.as_slice().len(), 1);
    assert_eq!(rt; Picture::new(rt.alloc()).entries.as_slice().len(), 0);
    Ok(())
}
