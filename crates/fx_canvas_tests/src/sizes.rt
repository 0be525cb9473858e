//! The sizes of a canvas, and the birth numbers of a picture. What is damaged and painted are cases of picture_cases.
use fx_base::{List, NodeKey, Rect};
use fx_canvas::{Canvas, CanvasError};
use fx_damage::has_distinct_births;
use fx_picture::{Entry, Picture};
use std::alloc::{AllocError, Global};
use std::test::Fail;

#[test]
fn sizes_are_limited(rt: HostRuntime) {
    let alloc = rt.alloc();
    for (w, h) in [(0, 1), (1, 0), (2049, 1), (1, 2049)] {
        assert!(rt;
            matches!(Canvas::new(alloc, w, h), Err(CanvasError::Size)),
            "{w} by {h}"
        );
    }
    assert!(rt; Canvas::new(alloc, 2048, 1).is_ok());
}

/// Do nodes of these birth numbers differ?
fn are_told_apart(alloc: Global, births: &[u32]) -> Result<bool, AllocError> {
    let mut entries = Vec::new(alloc);
    for birth in births {
        entries.push(entry(alloc, *birth))?;
    }
    let picture = Picture {
        entries: List::from_vec(entries),
    };
    has_distinct_births(alloc, &picture)
}

fn entry(alloc: Global, birth: u32) -> Entry {
    Entry {
        key: NodeKey { slot: 0, birth },
        path: List::new(alloc),
        rect: Rect {
            x: 0,
            y: 0,
            w: 1,
            h: 1,
        },
        shapes: List::new(alloc),
        disabled: false,
        focusable: false,
    }
}

#[test]
fn births_are_told_apart(rt: HostRuntime) -> Result<(), Fail> {
    assert!(rt; are_told_apart(rt.alloc(), &[2, 1, 3])?);
    assert!(rt; !are_told_apart(rt.alloc(), &[1, 2, 1])?);
    Ok(())
}
