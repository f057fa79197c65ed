// Acceptance on three planes: U and V of a block, each measured against the centre's up to 13 times its area.
ghost use Rattle.std.specs.Prelude.{◌≡◌, true, cond, ◌&&◌, ◌+◌, ◌*◌, ◌<◌, ◌≤◌, length};
ghost use Rattle.prediction.specs.Plane.{sample_at};
ghost use Rattle.prediction.specs.Ceiled.{CeiledIs};
ghost use Rattle.window.specs.Layout.{packed_size};
ghost use Rattle.denoiser.specs.Grid.{block_in};
ghost use Rattle.denoiser.specs.Search.{displaced_by, displacement_in};
ghost use Rattle.denoiser.specs.Pictures.{picture_of};
ghost use Rattle.denoiser.specs.Internal.{Whole, Short, Span, Lies, sad_row, passes_by, packed_plane, packed_picture, block_samples};

use crate::{accumulate, sad};
use denoiser::{Block, Choice, Displacement, PlaneNumbers};
use prediction::ceiling::Ceiled;
use window::Frame;

// 13 times the area of a block: a sum that reaches it does not pass.
fn limit(b: Block) -> u32
    requires { (b.columns ≤ 16) × (b.rows ≤ 16) }
    ensures { result ≡ 13 * (b.columns * b.rows) }
{
    (13 * (b.columns * b.rows)) as u32
}

// Whether plane k of a block passes at its copied samples. Not one function with `filtered_passes`, over a closure that measures: its
// contract would be longer than the lines that the two share.
fn copied_passes(bytes: &[u8], f: Frame, k: usize, b: Block, d: Displacement, out: &[u8]) -> bool
    requires k_bound { (k < 3) × Whole bytes.now f }
    requires lies { Lies b f.width f.height }
    requires short { Short d }
    requires height_in_bounds { packed_size f.width f.height ≤ length out.now }
    ensures { result ≡ passes_by (packed_picture f.width f.height out.now k) (displaced_by (displacement_in k d) (picture_of
        bytes.now f k)) (block_in k b) }
{
    let p = accumulate::plane_of(f, k);
    let at = accumulate::offset_of(f.width as usize, f.height as usize, k);
    let c = accumulate::block_in(k, b);
    let e = accumulate::displacement_in(k, d);
    let ceiling = limit(c);
    let read = sad::copied_sad(bytes, p, c, e, at, out, ceiling);
    read.sad < ceiling
}

// The SAD of row r of a block of 8 by 8, as much of it as b covers, and the centre's plane, which stands packed from `at` on.
fn line_sad(block: &[u8], p: PlaneNumbers, b: Block, r: usize, at: usize, out: &[u8]) -> u32
    requires block_len { (length block.now ≡ 64) × (r < 8) × (b.columns ≤ 8) }
    requires span { Span p.columns p.rows b.x (b.y + r) b.columns }
    requires rows_in_bounds { at + p.columns * p.rows ≤ length out.now }
    ensures { (result ≡ sad_row (sample_at (packed_plane at p.columns p.rows out.now)) (block_samples block.now b.x b.y) b r)
        × (result ≤ 4080) }
{
    let n = b.columns;
    let first = 8 * r;
    let from = at + (b.y + r) * p.columns + b.x;
    let to = from + n;
    sad::short_row_sad(&out[from..to], &block[first..first + n])
}

// The SAD of a block of 8 by 8, as much of it as b covers, up to a ceiling: row by row.
fn cut_sad(block: &[u8], p: PlaneNumbers, b: Block, at: usize, out: &[u8], ceiling: u32) -> Ceiled
    requires block_len { (length block.now ≡ 64) × (b.columns ≤ 8) × (b.rows ≤ 8) }
    requires lies { Lies b p.columns p.rows }
    requires rows_in_bounds { at + p.columns * p.rows ≤ length out.now }
    ensures { CeiledIs (sad_row (sample_at (packed_plane at p.columns p.rows out.now)) (block_samples block.now b.x b.y) b)
        b.rows ceiling result }
{
    let by_row = |r| line_sad(block, p, b, r, at, out);
    sad::up_to(b.rows, ceiling, by_row)
}

// The SAD of a block of 8 by 8, as much of it as b covers, up to a ceiling.
fn filtered_sad(
    block: &[u8],
    p: PlaneNumbers,
    b: Block,
    at: usize,
    out: &[u8],
    ceiling: u32,
) -> Ceiled
    requires block_len { (length block.now ≡ 64) × (b.columns ≤ 8) × (b.rows ≤ 8) }
    requires lies { Lies b p.columns p.rows }
    requires rows_in_bounds { at + p.columns * p.rows ≤ length out.now }
    ensures { CeiledIs (sad_row (sample_at (packed_plane at p.columns p.rows out.now)) (block_samples block.now b.x b.y) b)
        b.rows ceiling result }
{
    if b.columns == 8 && 0 < b.rows {
        let from = at + b.y * p.columns + b.x;
        let by_row = |r| sad::row_at::<8>(out, from, p.columns, block, 0, 8, r);
        return sad::up_to(b.rows, ceiling, by_row);
    }
    cut_sad(block, p, b, at, out, ceiling)
}

// Whether plane k of a block passes at filtered samples, which stand in a block of 8 by 8.
fn filtered_passes(block: &[u8], f: Frame, k: usize, b: Block, out: &[u8]) -> bool
    requires k_nonzero { (0 < k) × (k < 3) × (length block.now ≡ 64) × (f.width ≤ 16383) × (f.height ≤ 16383) }
    requires lies { Lies b f.width f.height }
    requires height_in_bounds { packed_size f.width f.height ≤ length out.now }
    ensures { result ≡ passes_by (packed_picture f.width f.height out.now k) (block_samples block.now (block_in k b).x
        (block_in k b).y) (block_in k b) }
{
    let p = accumulate::plane_of(f, k);
    let at = accumulate::offset_of(f.width as usize, f.height as usize, k);
    let covered = accumulate::block_in(k, b);
    let most = limit(covered);
    let read = filtered_sad(block, p, covered, at, out, most);
    read.sad < most
}

// Whether U and V of a block pass at their copied samples, where the choice asks them.
pub(crate) fn copies_pass(
    bytes: &[u8],
    f: Frame,
    b: Block,
    d: Displacement,
    choice: Choice,
    out: &[u8],
) -> bool
    requires whole { Whole bytes.now f }
    requires lies { Lies b f.width f.height }
    requires short { Short d }
    requires height_in_bounds { packed_size f.width f.height ≤ length out.now }
    ensures { result ≡ cond choice.three_planes (passes_by (packed_picture f.width f.height out.now 1) (displaced_by
        (displacement_in 1 d) (picture_of bytes.now f 1)) (block_in 1 b) && passes_by (packed_picture f.width f.height
        out.now 2) (displaced_by (displacement_in 2 d) (picture_of bytes.now f 2)) (block_in 2 b)) true }
{
    !choice.three_planes
        || (copied_passes(bytes, f, 1, b, d, out) && copied_passes(bytes, f, 2, b, d, out))
}

// Whether U and V of a block pass at their filtered samples, where the choice asks them.
pub(crate) fn squares_pass(
    u: &[u8],
    v: &[u8],
    f: Frame,
    b: Block,
    choice: Choice,
    out: &[u8],
) -> bool
    requires u_len { (length u.now ≡ 64) × (length v.now ≡ 64) × (f.width ≤ 16383) × (f.height ≤ 16383) }
    requires lies { Lies b f.width f.height }
    requires height_in_bounds { packed_size f.width f.height ≤ length out.now }
    ensures { result ≡ cond choice.three_planes (passes_by (packed_picture f.width f.height out.now 1) (block_samples
        u.now (block_in 1 b).x (block_in 1 b).y) (block_in 1 b) && passes_by (packed_picture f.width f.height out.now 2)
        (block_samples v.now (block_in 2 b).x (block_in 2 b).y) (block_in 2 b)) true }
{
    !choice.three_planes || (filtered_passes(u, f, 1, b, out) && filtered_passes(v, f, 2, b, out))
}
