//! Row kernels, and shares.
use fx_lanes::{blend_row, equal, fill};
use fx_share::{MOST, share};

#[test]
fn kernels_take_whole_rows(rt: HostRuntime) {
    let mut row = [1; 37];
    fill(&mut row, 0x0012_3456);
    assert!(rt; row[0] == 0x0012_3456 && row[36] == 0x0012_3456);
    let mut copy = row;
    assert!(rt; equal(&row, &copy) && !equal(&row, &copy[..36]));
    copy[36] = 0;
    assert!(rt; !equal(&row, &copy));
    blend_row(&mut row, 0xffff_ffff);
    assert!(rt; row[0] == 0x00ff_ffff && row[36] == 0x00ff_ffff);
}

/// What a pixel is under this colour.
fn blended(color: u32, under: u32) -> u32 {
    let mut row = [under];
    blend_row(&mut row, color);
    row[0]
}

#[test]
fn blending_rounds_to_the_nearest(rt: HostRuntime) {
    assert!(rt; blended(0x0000_0080, 0x00ff_ffff) == 0x007f_7f7f);
    assert!(rt; blended(0x1234_5600, 0x00ab_cdef) == 0x00ab_cdef);
    assert!(rt; blended(0xffff_ffff, 0xff00_0000) == 0x00ff_ffff);
}

/// The parts of a total over three caps, of which none is over `MOST`.
fn shared(total: u64, caps: [u64; 3]) -> [u64; 3] {
    let mut parts = [0; 3];
    if total <= MOST && caps[0] <= MOST && caps[1] <= MOST && caps[2] <= MOST {
        share(total, &caps, &mut parts);
    }
    parts
}

#[test]
fn shares(rt: HostRuntime) {
    assert!(rt; shared(10, [10, 10, 10]) == [4, 3, 3]);
    assert!(rt; shared(10, [2, 10, 10]) == [2, 4, 4]);
    assert!(rt; shared(5, [1, 0, 3]) == [1, 0, 3]);
}
