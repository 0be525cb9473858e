//! The kernels as plain loops, one pixel at a time.
//! The bench counts them beside the lanes.

#[inline(never)]
pub fn fill(row: &mut [u32], color: u32) {
    for pixel in row.iter_mut() {
        *pixel = color;
    }
}

#[inline(never)]
pub fn blend_row(row: &mut [u32], color: u32) {
    for pixel in row.iter_mut() {
        *pixel = blended(*pixel, color / 256, color % 256);
    }
}

#[inline(never)]
pub fn equal(a: &[u32], b: &[u32]) -> bool {
    if a.len() != b.len() {
        return false;
    }
    for (x, y) in a.iter().zip(b.iter()) {
        if *x != *y {
            return false;
        }
    }
    true
}

fn blended(under: u32, over: u32, alpha: u32) -> u32 {
    let alpha = alpha % 256;
    let red = mixed(over / 65536, alpha, under / 65536) % 256;
    let green = mixed(over / 256, alpha, under / 256) % 256;
    let blue = mixed(over, alpha, under) % 256;
    red * 65536 + green * 256 + blue
}

fn mixed(over: u32, alpha: u32, under: u32) -> u32 {
    let alpha = alpha % 256;
    (over % 256 * alpha + under % 256 * (255 - alpha) + 127) / 255
}
