// Displaced samples, and the sum of absolute differences (SAD) of a block.
ghost use Rattle.std.specs.Prelude.{◌≡◌, true, ℕ, ◌+◌, ◌*◌, ◌<◌, ◌≤◌, pos, ◌+ℤ◌, length, get_or};
ghost use Rattle.laws.specs.Signed.{above, below};
ghost use Rattle.laws.specs.Sums.{sum_below};
ghost use Rattle.prediction.specs.Samples.{distance};
ghost use Rattle.prediction.specs.Plane.{sample_at, nearest_in};
ghost use Rattle.prediction.specs.Ceiled.{CeiledIs};
ghost use Rattle.prediction.specs.Internal.{row_apart};
ghost use Rattle.denoiser.specs.Search.{displaced_by, still};
ghost use Rattle.denoiser.specs.Internal.{Fits, Short, Span, Near, Runs, Lies, plane_in, packed_plane, row_distance, luma_row, sad_row};

use denoiser::{Block, Displacement, PlaneNumbers};
use prediction::ceiling::Ceiled;
use prediction::inverse_transform;

// No displacement.
pub(crate) const STILL: Displacement = Displacement { dx: 0, dy: 0 };

// The coordinate nearest to x + d among 0 .. n - 1.
fn edge(x: usize, d: i32, n: usize) -> usize
    requires { (x < 16400) × (0 < n) × (n ≤ 16383) × (above d ≤ 15) × (below d ≤ 15) }
    ensures { result ≡ nearest_in n (pos x +ℤ d) }
{
    (x as i32 + d).clamp(0, n as i32 - 1) as usize
}

// A displaced sample of a plane.
fn displaced(bytes: &[u8], p: PlaneNumbers, x: usize, y: usize, d: Displacement) -> u8
    requires fits { Fits bytes.now p }
    requires x_bound { (x < 16400) × (y < 16400) }
    requires short { Short d }
    ensures { result ≡ displaced_by d (sample_at (plane_in bytes.now p)) (pos x) (pos y) }
{
    let cx = edge(x, d.dx, p.columns);
    let cy = edge(y, d.dy, p.rows);
    let at = p.start + cy * p.stride + cx;
    bytes[at]
}

// A row of n displaced samples, from (x, y) on, wherever they lie.
fn edge_row(
    bytes: &[u8],
    p: PlaneNumbers,
    x: usize,
    y: usize,
    n: usize,
    d: Displacement,
) -> [u8; 16]
    requires fits { Fits bytes.now p }
    requires near { Near x y n }
    requires short { Short d }
    ensures { (k : ℕ) → k < n → get_or result k 0 ≡ displaced_by d (sample_at (plane_in bytes.now p)) (pos (x + k)) (pos y) }
{
    let mut row = [0u8; 16];
    for k in 0..n {
        row[k] = displaced(bytes, p, x + k, y, d);
    }
    row
}

// Whether there are columns, n of them from x on, and all lie in the plane once moved by d.
fn runs_inside(x: usize, n: usize, d: i32, columns: usize) -> bool
    requires { (x < 16400) × (n ≤ 16) × (columns ≤ 16383) × (above d ≤ 15) × (below d ≤ 15) }
    ensures { result ≡ true → Runs x n d columns }
{
    let first = x as i32 + d;
    0 < n && 0 <= first && first as usize + n <= columns
}

// The first n samples from a place on. Sixteen or eight, of a known count, become a plain copy; n, calls to clear and to copy.
fn inner_row(bytes: &[u8], at: usize, n: usize) -> [u8; 16]
    requires { (n ≤ 16) × (at + n ≤ length bytes.now) }
    ensures { (k : ℕ) → k < n → get_or result k 0 ≡ get_or bytes.now (at + k) 0 }
{
    let mut row = [0u8; 16];
    match n {
        16 => row.copy_from_slice(&bytes[at..at + 16]),
        8 => row[..8].copy_from_slice(&bytes[at..at + 8]),
        _ => row[..n].copy_from_slice(&bytes[at..at + n]),
    }
    row
}

// A row of n displaced samples, from (x, y) on: copied where they lie in the plane.
pub(crate) fn displaced_row(
    bytes: &[u8],
    p: PlaneNumbers,
    x: usize,
    y: usize,
    n: usize,
    d: Displacement,
) -> [u8; 16]
    requires fits { Fits bytes.now p }
    requires near { Near x y n }
    requires short { Short d }
    ensures { (k : ℕ) → k < n → get_or result k 0 ≡ displaced_by d (sample_at (plane_in bytes.now p)) (pos (x + k)) (pos y) }
{
    if runs_inside(x, n, d.dx, p.columns) {
        let cx = edge(x, d.dx, p.columns);
        let cy = edge(y, d.dy, p.rows);
        let at = p.start + cy * p.stride + cx;
        return inner_row(bytes, at, n);
    }
    edge_row(bytes, p, x, y, n, d)
}

// The SAD of two rows of N: a loop of a known count.
fn sad<const N: usize>(a: &[u8], b: &[u8]) -> u32
    requires { (length a.now ≡ N) × (length b.now ≡ N) × (N ≤ 16) }
    ensures { (result ≡ sum_below (row_distance a.now b.now) N) × (result ≤ 4080) }
{
    let mut sum: u32 = 0;
    for k in 0..N {
        sum += inverse_transform::abs_diff(a[k], b[k]) as u32;
    }
    sum
}

// The SAD of two rows of at most 16.
pub(crate) fn short_row_sad(a: &[u8], b: &[u8]) -> u32
    requires { (length b.now ≡ length a.now) × (length a.now ≤ 16) }
    ensures { (result ≡ sum_below (row_distance a.now b.now) (length a.now)) × (result ≤ 4080) }
{
    let mut sum: u32 = 0;
    for k in 0..a.len() {
        sum += inverse_transform::abs_diff(a[k], b[k]) as u32;
    }
    sum
}

// The SAD of two rows.
fn row_sad(a: &[u8], b: &[u8]) -> u32
    requires { (length b.now ≡ length a.now) × (length a.now ≤ 16) }
    ensures { (result ≡ sum_below (row_distance a.now b.now) (length a.now)) × (result ≤ 4080) }
{
    if a.len() == 16 {
        sad::<16>(a, b)
    } else {
        short_row_sad(a, b)
    }
}

// The SAD of one row of a block, wherever its displaced samples lie.
fn span_sad(
    bytes: &[u8],
    p: PlaneNumbers,
    x: usize,
    y: usize,
    n: usize,
    d: Displacement,
    centre: &[u8],
) -> u32
    requires fits { Fits bytes.now p }
    requires span { Span p.columns p.rows x y n }
    requires short { Short d }
    requires rows_in_bounds { p.columns * p.rows ≤ length centre.now }
    ensures { (result ≡ sum_below (λ i. distance (sample_at (packed_plane 0 p.columns p.rows centre.now) (pos (x + i)) (pos y))
        (displaced_by d (sample_at (plane_in bytes.now p)) (pos (x + i)) (pos y))) n) × (result ≤ 4080) }
{
    let row = displaced_row(bytes, p, x, y, n, d);
    let from = y * p.columns + x;
    let to = from + n;
    row_sad(&centre[from..to], &row[..n])
}

// The SAD of n rows up to a ceiling: each row, once measured, is held against what is left of it. Each closure has its own instance,
// which is called at one place, so that the compiler inlines it.
pub(crate) fn up_to<F: Fn(usize) -> u32>(n: usize, ceiling: u32, row: F) -> Ceiled
    requires rows_bound { n ≤ 16 }
    requires each { (r : ℕ) → r < n → F.pre row r }
    ensures { (sad : ℕ → ℕ) → ((r v : ℕ) → r < n → F.post row r v → v ≡ sad r) → CeiledIs sad n ceiling result }
{
    let mut left = ceiling;
    for r in 0..n {
        let measured = row(r);
        if left <= measured {
            return Ceiled {
                sad: ceiling,
                rows: r as u32 + 1,
            };
        }
        left -= measured;
    }
    Ceiled {
        sad: ceiling - left,
        rows: n as u32,
    }
}

// The SAD of a displaced block up to a ceiling, wherever it lies: row by row.
fn edge_sad(
    bytes: &[u8],
    p: PlaneNumbers,
    b: Block,
    d: Displacement,
    centre: &[u8],
    ceiling: u32,
) -> Ceiled
    requires fits { Fits bytes.now p }
    requires lies { Lies b p.columns p.rows }
    requires short { Short d }
    requires rows_in_bounds { p.columns * p.rows ≤ length centre.now }
    ensures { CeiledIs (luma_row centre.now bytes.now p b d) b.rows ceiling result }
{
    let by_row = |r| span_sad(bytes, p, b.x, b.y + r, b.columns, d, centre);
    up_to(b.rows, ceiling, by_row)
}

// The SAD of row r of two blocks of N columns.
pub(crate) fn row_at<const N: usize>(
    a: &[u8],
    at: usize,
    stride: usize,
    b: &[u8],
    from: usize,
    across: usize,
    r: usize,
) -> u32
    requires { (at + r * stride + N ≤ length a.now) × (from + r * across + N ≤ length b.now) × (N ≤ 16) }
    ensures { result ≡ sum_below (λ k. distance (get_or a.now (at + r * stride + k) 0) (get_or b.now (from + r * across + k) 0)) N }
{
    let i = at + r * stride;
    let j = from + r * across;
    sad::<N>(&a[i..i + N], &b[j..j + N])
}

// The SAD of two blocks of 16 by 16 up to a ceiling, by the places of the blocks in their planes.
fn placed_sad(
    bytes: &[u8],
    start: usize,
    stride: usize,
    left: usize,
    top: usize,
    centre: &[u8],
    columns: usize,
    x: usize,
    y: usize,
    ceiling: u32,
) -> Ceiled
    requires { (start + (top + 15) * stride + left + 15 < length bytes.now) × ((y + 15) * columns + x + 15 < length centre.now) }
    ensures { CeiledIs (row_apart centre.now (y * columns + x) columns
        bytes.now (start + top * stride + left) stride) 16 ceiling result }
{
    let at = y * columns + x;
    let from = start + top * stride + left;
    let by_row = |r| row_at::<16>(centre, at, columns, bytes, from, stride, r);
    up_to(16, ceiling, by_row)
}

// The SAD of a block of 16 by 16 up to a ceiling: in bounds, from the rows of the plane; else row by row, as `edge_sad` does.
fn square_sad(
    bytes: &[u8],
    p: PlaneNumbers,
    b: Block,
    d: Displacement,
    centre: &[u8],
    ceiling: u32,
) -> Ceiled
    requires fits { Fits bytes.now p }
    requires columns_value { (b.columns ≡ 16) × (b.rows ≡ 16) × Lies b p.columns p.rows }
    requires short { Short d }
    requires rows_in_bounds { p.columns * p.rows ≤ length centre.now }
    ensures { CeiledIs (luma_row centre.now bytes.now p b d) b.rows ceiling result }
{
    if runs_inside(b.x, 16, d.dx, p.columns) && runs_inside(b.y, 16, d.dy, p.rows) {
        let left = edge(b.x, d.dx, p.columns);
        let top = edge(b.y, d.dy, p.rows);
        return placed_sad(
            bytes, p.start, p.stride, left, top, centre, p.columns, b.x, b.y, ceiling,
        );
    }
    edge_sad(bytes, p, b, d, centre, ceiling)
}

// The SAD of a block of the centre's plane, which stands packed, and the displaced block of another frame's, up to a ceiling.
pub(crate) fn block_sad(
    bytes: &[u8],
    p: PlaneNumbers,
    b: Block,
    d: Displacement,
    centre: &[u8],
    ceiling: u32,
) -> Ceiled
    requires fits { Fits bytes.now p }
    requires lies { Lies b p.columns p.rows }
    requires short { Short d }
    requires rows_in_bounds { p.columns * p.rows ≤ length centre.now }
    ensures { CeiledIs (luma_row centre.now bytes.now p b d) b.rows ceiling result }
{
    if b.columns == 16 && b.rows == 16 {
        return square_sad(bytes, p, b, d, centre, ceiling);
    }
    edge_sad(bytes, p, b, d, centre, ceiling)
}

// The SAD of a block and the block at the same place in another frame, which lies inside, up to a ceiling. A function of its own, so
// that `block_sad` is called at one place and the compiler inlines it.
pub(crate) fn still_sad(
    bytes: &[u8],
    p: PlaneNumbers,
    b: Block,
    centre: &[u8],
    ceiling: u32,
) -> Ceiled
    requires fits { Fits bytes.now p }
    requires lies { Lies b p.columns p.rows }
    requires rows_in_bounds { p.columns * p.rows ≤ length centre.now }
    ensures { CeiledIs (luma_row centre.now bytes.now p b still) b.rows ceiling result }
{
    if b.columns == 16 && b.rows == 16 {
        return placed_sad(
            bytes, p.start, p.stride, b.x, b.y, centre, p.columns, b.x, b.y, ceiling,
        );
    }
    edge_sad(bytes, p, b, STILL, centre, ceiling)
}

// The SAD of a block of a plane that stands packed from `at` on and the displaced block of another frame's, up to a ceiling: 8
// columns in bounds from the rows of the plane, others row by row. `block_sad` is left to the search, which inlines it.
pub(crate) fn copied_sad(
    bytes: &[u8],
    p: PlaneNumbers,
    b: Block,
    d: Displacement,
    at: usize,
    out: &[u8],
    ceiling: u32,
) -> Ceiled
    requires fits { Fits bytes.now p }
    requires lies { Lies b p.columns p.rows }
    requires short { Short d }
    requires rows_in_bounds { at + p.columns * p.rows ≤ length out.now }
    ensures { CeiledIs (sad_row (sample_at (packed_plane at p.columns p.rows out.now)) (displaced_by d (sample_at
        (plane_in bytes.now p))) b) b.rows ceiling result }
{
    if b.columns == 8
        && runs_inside(b.x, 8, d.dx, p.columns)
        && runs_inside(b.y, b.rows, d.dy, p.rows)
    {
        let left = edge(b.x, d.dx, p.columns);
        let top = edge(b.y, d.dy, p.rows);
        let i = at + b.y * p.columns + b.x;
        let j = p.start + top * p.stride + left;
        let by_row = |r| row_at::<8>(out, i, p.columns, bytes, j, p.stride, r);
        return up_to(b.rows, ceiling, by_row);
    }
    edge_sad(bytes, p, b, d, &out[at..], ceiling)
}
