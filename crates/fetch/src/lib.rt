// The luma fetches: a macroblock, or its halo, from a reference plane whose edge samples repeat.
#![tactic(auto)]

ghost use Rattle.std.specs.Prelude.{◌≡◌, true, ◌||◌, ◌+◌, ◌-◌, ◌*◌, ◌≤◌, ◌<◌, min, ltb, length, get_or, IfOk};
ghost use Rattle.laws.specs.Signed.{above, below};
ghost use Rattle.laws.specs.Tabulate.{tabulate};
ghost use Rattle.laws.specs.Internal.{Filling};
ghost use Rattle.prediction.specs.Vector.{whole_of};
ghost use Rattle.prediction.specs.Plane.{luma_plane};
ghost use Rattle.prediction.specs.Refusals.{bad_side, bad_origin};
ghost use Rattle.fetch.specs.Refusals.{fetch_lines, macroblock_at, halo_at, FetchIs, FillIs};
ghost use Rattle.fetch.specs.Internal.{Decides, Legal, square_at};

use prediction::motion_comp::whole_offset;
use prediction::motion_vector::Mv;

// Why a fetch is refused.
#[derive(Clone, Copy, Debug, PartialEq, Eq)]
pub enum FetchRefusal {
    BadSize,
    ShortPlane,
    BadOrigin,
}

// A block beside the answer: all zeros with a refusal (MODEL.md), and so no Result of a block.
#[derive(Clone, Copy)]
pub struct Fetched<const N: usize> {
    pub answer: Result<(), FetchRefusal>,
    pub block: [u8; N],
}

// A square of N by N samples, from column x - bias and row y - bias on, of a plane that is long enough.
#[derive(Clone, Copy)]
struct Square<'a, const N: usize> {
    samples: &'a [u8],
    stride: usize,
    width: usize,
    height: usize,
    bias: usize,
    x: usize,
    y: usize,
    ghost small: { (N ≤ 21) × (x < 32768) × (y < 32768) },
    ghost sized: { (0 < width) × (0 < height) },
    ghost long: { (height - 1) * stride + width ≤ length samples.now },
}

// A width or height that is 0 or above 16383.
fn bad_side(n: usize) -> bool
    ensures { result ≡ bad_side n }
{
    n == 0 || 16383 < n
}

// Refusal 8: the width or the height is 0 or above 16383.
pub fn bad_size(width: usize, height: usize) -> bool
    ensures { result ≡ (bad_side width || bad_side height) }
{
    bad_side(width) || bad_side(height)
}

// Refusal 9: len is below (height - 1) times stride + width, at any stride; height 0 counts as one row. A product is made only where
// it cannot wrap.
pub fn short_plane(len: usize, stride: usize, width: usize, height: usize) -> bool
    ensures { result ≡ ltb len ((height - 1) * stride + width) }
{
    if len < width {
        return true;
    }
    if height <= 1 {
        return false;
    }
    if height <= 16384 && stride <= 4294967296 {
        return len - width < (height - 1) * stride;
    }
    (len - width) / (height - 1) < stride
}

// Refusal 10: an origin exceeds 16368 in either direction.
fn bad_origin(x: usize, y: usize) -> bool
    ensures { result ≡ bad_origin x y }
{
    16368 < x || 16368 < y
}

// The first refusal of a fetch that applies.
fn check_fetch(
    plane: &[u8],
    stride: usize,
    width: usize,
    height: usize,
    x: usize,
    y: usize,
) -> Result<(), FetchRefusal>
    ensures decides { Decides (fetch_lines (luma_plane plane.now stride width height) x y) result }
    ensures legal { IfOk result (λ _. Legal (length plane.now) stride width height x y) }
{
    if bad_size(width, height) {
        return Err(FetchRefusal::BadSize);
    }
    if short_plane(plane.len(), stride, width, height) {
        return Err(FetchRefusal::ShortPlane);
    }
    if bad_origin(x, y) {
        return Err(FetchRefusal::BadOrigin);
    }
    Ok(())
}

// The coordinate x moved by the whole offset of a component, plus 4096.
fn moved(x: usize, v: i16) -> usize
    requires { x ≤ 16368 }
    ensures { (result ≡ x + (4096 + above (whole_of v) - below (whole_of v))) × (result < 32768) }
{
    x + ((whole_offset(v) + 4096) as usize)
}

// x - bias, but at least 0 and at most n - 1.
fn cut(x: usize, bias: usize, n: usize) -> usize
    requires { 0 < n }
    ensures { result ≡ min (x - bias) (n - 1) }
{
    x.saturating_sub(bias).min(n - 1)
}

impl<'a, const N: usize> Square<'a, N> {
    ghost use Rattle.fetch.specs.Square.{samples_of, IsInside};

    // Whether it lies in the plane.
    fn lies_inside(&self) -> bool
        ensures { result ≡ true → IsInside self.now }
    {
        self.bias <= self.x
            && self.bias <= self.y
            && self.x - self.bias + N <= self.width
            && self.y - self.bias + N <= self.height
    }

    // Row r: edge samples repeat.
    fn edge_row(&self, out: &mut [u8], r: usize)
        requires r_lt_n { r < N }
        requires filling { Filling (samples_of self.now) (N * N) out.old (r * N) }
        ensures { Filling (samples_of self.now) (N * N) out.new (r * N + N) }
    {
        let from = cut(self.y + r, self.bias, self.height) * self.stride;
        for k in 0..N {
            out[r * N + k] = self.samples[from + cut(self.x + k, self.bias, self.width)];
        }
    }

    // Row r of a square that lies in the plane. The row is an array of its own first: the compiler then knows that plane and lent array do
    // not overlap there, and copies in wide steps.
    fn inside_row(&self, out: &mut [u8], r: usize)
        requires r_lt_n { r < N }
        requires inside { IsInside self.now }
        requires filling { Filling (samples_of self.now) (N * N) out.old (r * N) }
        ensures { Filling (samples_of self.now) (N * N) out.new (r * N + N) }
    {
        let from = (self.y - self.bias + r) * self.stride + (self.x - self.bias);
        let mut row = [0u8; N];
        row.copy_from_slice(&self.samples[from..from + N]);
        out[r * N..r * N + N].copy_from_slice(&row);
    }

    // The square, row by row.
    fn fill(&self, out: &mut [u8])
        requires { length out.old ≡ N * N }
        ensures { out.new ≡ tabulate (N * N) (samples_of self.now) }
    {
        let inside = self.lies_inside();
        for r in 0..N {
            if inside {
                self.inside_row(out, r);
            } else {
                self.edge_row(out, r);
            }
        }
    }
}

// The square of N by N samples from margin left and above of a pixel origin on, moved by the whole offset of a vector in eighths, into a
// lent array.
fn fill_square<const N: usize>(
    plane: &[u8],
    stride: usize,
    width: usize,
    height: usize,
    x: usize,
    y: usize,
    mv: Mv,
    margin: usize,
    out: &mut [u8],
) -> Result<(), FetchRefusal>
    requires n_bound { (N ≤ 21) × (margin ≤ 21) × (length out.old ≡ N * N) }
    ensures { FillIs (square_at N margin (luma_plane plane.now stride width height) x y mv) result out.old out.new }
{
    check_fetch(plane, stride, width, height, x, y)?;
    let square: Square<N> = Square {
        samples: plane,
        stride,
        width,
        height,
        bias: 4096 + margin,
        x: moved(x, mv.col),
        y: moved(y, mv.row),
    };
    square.fill(out);
    Ok(())
}

// The macroblock at a pixel origin, moved by the whole offset of a vector in eighths, into a lent array.
pub fn fill_luma_mb_whole_pixel(
    plane: &[u8],
    stride: usize,
    width: usize,
    height: usize,
    x: usize,
    y: usize,
    mv: Mv,
    block: &mut [u8; 256],
) -> Result<(), FetchRefusal>
    ensures { FillIs (macroblock_at (luma_plane plane.now stride width height) x y mv) result block.old block.new }
{
    fill_square::<16>(plane, stride, width, height, x, y, mv, 0, block)
}

// The same by value. One function for both would have to be told the size and its square, and is no plainer.
pub fn fetch_luma_mb_whole_pixel(
    plane: &[u8],
    stride: usize,
    width: usize,
    height: usize,
    x: usize,
    y: usize,
    mv: Mv,
) -> Fetched<256>
    ensures { FetchIs (macroblock_at (luma_plane plane.now stride width height) x y mv) 256 result.answer result.block }
{
    let mut block = [0u8; 256];
    let answer = fill_luma_mb_whole_pixel(plane, stride, width, height, x, y, mv, &mut block);
    Fetched { answer, block }
}

// The halo of that macroblock, which starts two samples left and above, into a lent array.
pub fn fill_luma_mb_halo(
    plane: &[u8],
    stride: usize,
    width: usize,
    height: usize,
    x: usize,
    y: usize,
    mv: Mv,
    halo: &mut [u8; 441],
) -> Result<(), FetchRefusal>
    ensures { FillIs (halo_at (luma_plane plane.now stride width height) x y mv) result halo.old halo.new }
{
    fill_square::<21>(plane, stride, width, height, x, y, mv, 2, halo)
}

// The same by value.
pub fn fetch_luma_mb_halo(
    plane: &[u8],
    stride: usize,
    width: usize,
    height: usize,
    x: usize,
    y: usize,
    mv: Mv,
) -> Fetched<441>
    ensures { FetchIs (halo_at (luma_plane plane.now stride width height) x y mv) 441 result.answer result.block }
{
    let mut block = [0u8; 441];
    let answer = fill_luma_mb_halo(plane, stride, width, height, x, y, mv, &mut block);
    Fetched { answer, block }
}
