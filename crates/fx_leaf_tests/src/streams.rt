//! What a view sends, and what a viewer shows of it; stream_cases has streams with a bad line each.
use fx_delta::{StreamError, View, ViewError, Viewer};
use std::alloc::Global;

fn sends(alloc: Global, view: &mut View, out: &mut Vec<u8>) -> bool {
    if view.begin(alloc, 0, 1) != Err(ViewError::Size) {
        return false;
    }
    let Ok(()) = view.begin(alloc, 3, 2) else {
        return false;
    };
    let Ok(first) = view.send(alloc, 1, 0, &[0x0000_00ff, 0x00ff_ffff], out) else {
        return false;
    };
    let Ok(again) = view.send(alloc, 1, 0, &[0x0000_00ff], out) else {
        return false;
    };
    first
        && !again
        && out.as_slice() == b"row 1 0 0000ff ffffff\n".as_slice()
        && view.row(0) == [0x00ff_ffff, 0x0000_00ff, 0x00ff_ffff].as_slice()
}

#[test]
fn sends_what_is_not_shown(rt: HostRuntime) {
    let alloc = rt.alloc();
    let mut view = View::new(alloc);
    let mut out = Vec::new(alloc);
    assert!(rt; sends(alloc, &mut view, &mut out));
}

fn shows(alloc: Global, viewer: &mut Viewer, out: &mut Vec<u8>) -> bool {
    viewer.take(alloc, b"frame 1 3 1 damage 1", out) == Ok(())
        && !viewer.is_between()
        && viewer.take(alloc, b"0 0 3 1", out) == Ok(())
        && viewer.take(alloc, b"row 1 0 0000ff ffffff", out) == Ok(())
        && viewer.take(alloc, b"row 3 0 ffffff", out) == Err(StreamError::Bad)
        && viewer.take(alloc, b"endframe", out) == Ok(())
        && viewer.is_between()
        && out.as_slice() == b"frame 1 3 1 damage 1\n0 0 3 1\nffffff 0000ff ffffff\n".as_slice()
}

#[test]
fn shows_what_was_sent(rt: HostRuntime) {
    let alloc = rt.alloc();
    let mut viewer = Viewer::new(alloc);
    let mut out = Vec::new(alloc);
    assert!(rt; shows(alloc, &mut viewer, &mut out));
}
