//! Adding up the pixels of a frame that isn't written.
ghost use Rattle.std.specs.Prelude.{◌≡◌, ◌≤◌, ◌<◌, ◌+◌, ◌*◌, ◌^◌, All, length, sum};
ghost use Rattle.fx_frame_text.specs.Canvases.{image_on};
ghost use Rattle.fx_frame_text.specs.Frames.{pixel_sum};

use fx_canvas::Canvas;

/// All pixels that the canvas shows, each as a number of 24 bits, added up.
pub fn canvas_sum(canvas: &Canvas) -> u128
    ensures sum { result ≡ pixel_sum (image_on canvas.now) }
    ensures small { result ≤ 2 ^ 54 }
{
    canvas.laws();
    let mut total = 0u128;
    for y in 0..canvas.height() {
        total += u128::from(row_sum(canvas.row(y)));
    }
    total
}

/// The most pixels, each of three bytes, that are added up as numbers of 32 bits.
const FEW: usize = 256;

/// The pixels of a row, each of three bytes, added up; few of them at a time, so that many are added at once.
fn row_sum(row: &[u32]) -> u64
    requires short { length row.now ≤ 2048 }
    requires bytes { All (λ pixel. pixel < 2 ^ 24) row.now }
    ensures sum { result ≡ sum row.now }
    ensures small { result ≤ length row.now * 16777215 }
{
    let mut total = 0u64;
    let mut at = 0;
    while at < row.len() {
        let end = row.len().min(at + FEW);
        total += u64::from(part_sum(&row[at..end]));
        at = end;
    }
    total
}

/// The pixels of a part of a row added up, its halves side by side.
fn part_sum(part: &[u32]) -> u32
    requires few { length part.now ≤ 256 }
    requires bytes { All (λ pixel. pixel < 2 ^ 24) part.now }
    ensures sum { result ≡ sum part.now }
    ensures small { result ≤ length part.now * 16777215 }
{
    let half = part.len() / 2;
    let (front, behind) = part.split_at(half);
    let (beside, last) = behind.split_at(half);
    sum_beside(front, beside) + last_of(last)
}

/// The pixels of two equally long parts added up, two at a time.
fn sum_beside(one: &[u32], other: &[u32]) -> u32
    requires long { length other.now ≡ length one.now }
    requires few { length one.now ≤ 128 }
    requires bytes { All (λ pixel. pixel < 2 ^ 24) one.now }
    requires others { All (λ pixel. pixel < 2 ^ 24) other.now }
    ensures sum { result ≡ sum one.now + sum other.now }
    ensures small { result ≤ length one.now * 33554430 }
{
    let mut total = 0u32;
    for at in 0..one.len() {
        total += one[at] + other[at];
    }
    total
}

/// The pixel, if there is one.
fn last_of(last: &[u32]) -> u32
    requires few { length last.now ≤ 1 }
    requires bytes { All (λ pixel. pixel < 2 ^ 24) last.now }
    ensures sum { result ≡ sum last.now }
    ensures small { result ≤ length last.now * 16777215 }
{
    match last.first() {
        Some(pixel) => *pixel,
        None => 0,
    }
}
