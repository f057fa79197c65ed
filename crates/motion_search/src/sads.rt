// Sums of absolute differences (SADs) of macroblocks. The loops take slices, a place and a stride one by one: a struct that is handed on
// whole is copied (docs/SPEED.md).
ghost use Rattle.std.specs.Prelude.{◌≡◌, ◌+◌, ◌-◌, ◌*◌, ◌/◌, ◌≤◌, ◌<◌, true, length, get_or, IfSome};
ghost use Rattle.std.specs.Fn.{FnReturnsAt};
ghost use Rattle.laws.specs.Signed.{above, below};
ghost use Rattle.laws.specs.Sums.{sum_below};
ghost use Rattle.prediction.specs.Samples.{distance};
ghost use Rattle.prediction.specs.Vector.{whole_of};
ghost use Rattle.prediction.specs.Filter.{sixtap, taps_of, rows_for};
ghost use Rattle.prediction.specs.Ceiled.{CeiledIs};
ghost use Rattle.prediction.specs.Internal.{row_apart, parts};
ghost use Rattle.search.specs.Sad.{sad16, row_sad};
ghost use Rattle.search.specs.Internal.{cost_at, cost_by, cost_row, copied_at, predicted_from, Copied, Inside, Lying, two_apart};

use crate::targets::Target;
use bilinear::bilinear_mb_luma;
use fetch::{fetch_luma_mb_halo, fetch_luma_mb_whole_pixel};
use prediction::ceiling::{Ceiled, NO_CEILING};
use prediction::inverse_transform::abs_diff;
use prediction::motion_comp::{
    FilterSet, filter_set_for_version, fraction, stored_luma_mv, whole_offset,
};
use prediction::motion_vector::Mv;
use sixtap::sixtap_mb_luma;

// The SAD of two rows of a block, which follow one another, and of two rows of a plane.
fn two_rows_sad(a: &[u8], b: &[u8], c: &[u8]) -> u32
    requires { (length a.now ≡ 32) × (length b.now ≡ 16) × (length c.now ≡ 16) }
    ensures { (result ≡ sum_below (two_apart a.now b.now c.now) 16) × (result ≤ 8160) }
{
    let mut sum: u32 = 0;
    for k in 0..16 {
        sum += abs_diff(a[k], b[k]) as u32 + abs_diff(a[k + 16], c[k]) as u32;
    }
    sum
}

// The SAD of a block and of 16 rows of 16 samples of a plane, from a place on: two rows a turn, none held against a ceiling. A loop of
// its own beside `rows_up_to`, since one row a turn, each held against a ceiling, is slower (docs/SPEED.md).
fn all_rows_sad(src: &[u8], plane: &[u8], at: usize, stride: usize) -> u32
    requires { (length src.now ≡ 256) × (at + 15 * stride + 16 ≤ length plane.now) }
    ensures { (result ≡ sum_below (row_apart src.now 0 16 plane.now at stride) 16) × (result ≤ 65280) }
{
    let mut sum: u32 = 0;
    for pair in 0..8 {
        let r = pair * 2;
        let i = r * 16;
        let j = at + r * stride;
        let n = j + stride;
        sum += two_rows_sad(&src[i..i + 32], &plane[j..j + 16], &plane[n..n + 16]);
    }
    sum
}

// The SAD of two rows of 16.
fn row_sad(a: &[u8], b: &[u8]) -> u32
    requires { (length a.now ≡ 16) × (length b.now ≡ 16) }
    ensures { result ≡ sum_below (λ k. distance (get_or a.now k 0) (get_or b.now k 0)) 16 }
{
    let mut sum: u32 = 0;
    for k in 0..16 {
        sum += abs_diff(a[k], b[k]) as u32;
    }
    sum
}

// The SAD of row r of a block and of the rows of a plane, from a place on.
fn row_at(src: &[u8], plane: &[u8], at: usize, stride: usize, r: usize) -> u32
    requires { (length src.now ≡ 256) × (at + 15 * stride + 16 ≤ length plane.now) × (r < 16) }
    ensures { result ≡ row_apart src.now 0 16 plane.now at stride r }
{
    let i = r * 16;
    let j = at + r * stride;
    row_sad(&src[i..i + 16], &plane[j..j + 16])
}

// The rows of `all_rows_sad` up to a ceiling: each row, once measured, is held against what is left of it. Four rows a turn, written
// out: one a turn is slower (docs/SPEED.md). Gives the number of rows measured, plus 32 times what is left of the ceiling where it was
// not reached: one number, which comes back in a register, where a struct comes through memory.
fn rows_up_to(src: &[u8], plane: &[u8], at: usize, stride: usize, ceiling: u32) -> u64
    requires { (length src.now ≡ 256) × (at + 15 * stride + 16 ≤ length plane.now) }
    ensures { CeiledIs (row_apart src.now 0 16 plane.now at stride) 16 ceiling (parts ceiling result) × (result / 32 ≤ ceiling) }
{
    let mut left = ceiling;
    for turn in 0..4 {
        let r: usize = turn * 4;
        let first = row_at(src, plane, at, stride, r);
        if left <= first {
            return r as u64 + 1;
        }
        left -= first;
        let second = row_at(src, plane, at, stride, r + 1);
        if left <= second {
            return r as u64 + 2;
        }
        left -= second;
        let third = row_at(src, plane, at, stride, r + 2);
        if left <= third {
            return r as u64 + 3;
        }
        left -= third;
        let fourth = row_at(src, plane, at, stride, r + 3);
        if left <= fourth {
            return r as u64 + 4;
        }
        left -= fourth;
    }
    (left as u64) * 32 + 16
}

// The value and the rows out of that number.
fn parted(ceiling: u32, both: u64) -> Ceiled
    requires { both / 32 ≤ ceiling }
    ensures { result ≡ parts ceiling both }
{
    Ceiled {
        sad: ceiling - (both / 32) as u32,
        rows: (both % 32) as u32,
    }
}

// The SAD of two blocks up to a ceiling.
pub(crate) fn block_sad(src: &[u8], pred: &[u8], ceiling: u32) -> Ceiled
    requires { (length src.now ≡ 256) × (length pred.now ≡ 256) }
    ensures { CeiledIs (row_sad src.now pred.now) 16 ceiling result }
{
    parted(ceiling, rows_up_to(src, pred, 0, 16, ceiling))
}

// The SAD of two blocks, not cut short.
pub(crate) fn uncut_block_sad(src: &[u8], pred: &[u8]) -> u32
    requires { (length src.now ≡ 256) × (length pred.now ≡ 256) }
    ensures { result ≡ sad16 src.now pred.now }
{
    all_rows_sad(src, pred, 0, 16)
}

// The first coordinate of a macroblock moved by the whole offset of a component in eighths, plus 4096.
fn displaced(mb: usize, v: i16) -> usize
    requires { mb ≤ 1023 }
    ensures { (result + below (whole_of v) ≡ 16 * mb + 4096 + above (whole_of v)) × (result < 32768) }
{
    16 * mb + ((whole_offset(v) + 4096) as usize)
}

// The 16 coordinates from `start` on, less 4096, are among 0 .. n - 1.
fn lies_inside(start: usize, n: usize) -> bool
    requires { start < 32768 }
    ensures { result ≡ true → Inside start n }
{
    4096 <= start && start - 4096 + 16 <= n
}

impl Target<'_> {
    // What is measured of the block at a vector in eighths whose fractions are not read: the block is copied. It is moved into a variable
    // of its own, which the compiler makes no copy for (docs/SPEED.md).
    fn measured_copy<R, F: Fn(&[u8; 256]) -> R>(&self, eighths: Mv, measure: F) -> R
        requires { F.IsAlwaysCallable measure }
        ensures { FnReturnsAt F.Fn measure (copied_at self.now.plane.now self.now.site eighths) result }
    {
        let s = self.site;
        let x = 16 * s.column;
        let y = 16 * s.row;
        let fetched = fetch_luma_mb_whole_pixel(
            self.plane, s.stride, s.width, s.height, x, y, eighths,
        );
        let block = fetched.block;
        measure(&block)
    }

    // The SAD at a vector in eighths up to a ceiling, by the halo and the filter of a set. Each filter's block is measured where it is
    // made: brought together first, it would be copied.
    fn filtered_sad(&self, eighths: Mv, ceiling: u32, set: FilterSet) -> Ceiled
        ensures { CeiledIs (row_sad self.now.src.now (predicted_from (taps_of set) self.now.plane.now self.now.site eighths)) 16 ceiling result }
    {
        let s = self.site;
        let x = 16 * s.column;
        let y = 16 * s.row;
        let fetched = fetch_luma_mb_halo(self.plane, s.stride, s.width, s.height, x, y, eighths);
        let halo = fetched.block;
        let mx = fraction(eighths.col);
        let my = fraction(eighths.row);
        match set {
            FilterSet::Sixtap => {
                let filtered = sixtap_mb_luma(halo, mx, my);
                block_sad(self.src, &filtered.block, ceiling)
            }
            FilterSet::Bilinear => {
                let filtered = bilinear_mb_luma(halo, mx, my);
                block_sad(self.src, &filtered.block, ceiling)
            }
        }
    }

    // The SAD at any vector up to a ceiling, by a fetch: without fractions the block is copied, else filtered by a filter set. It may
    // lie anywhere.
    pub(crate) fn any_sad(&self, mv: Mv, ceiling: u32, set: FilterSet) -> Ceiled
        ensures { CeiledIs (cost_row (taps_of set) self.now.plane.now self.now.site self.now.src.now mv) 16 ceiling result }
    {
        let eighths = stored_luma_mv(mv);
        if fraction(eighths.col) == 0 && fraction(eighths.row) == 0 {
            self.measured_copy(eighths, |block| block_sad(self.src, block, ceiling))
        } else {
            self.filtered_sad(eighths, ceiling, set)
        }
    }

    // Where the first sample of the copied block stands in the plane, if the block lies inside.
    fn inside_at(&self, eighths: Mv) -> Option<usize>
        ensures { IfSome result (λ at. Lying self.now.plane.now self.now.site eighths at) }
    {
        let s = self.site;
        let left = displaced(s.column, eighths.col);
        let top = displaced(s.row, eighths.row);
        if lies_inside(left, s.width) && lies_inside(top, s.height) {
            Some((top - 4096) * s.stride + (left - 4096))
        } else {
            None
        }
    }

    // The SAD at a vector without fractions up to a ceiling: rows of the plane where the block lies inside, else by `any_sad`; by
    // `measured_copy` alone the diamond is slower (docs/SPEED.md). The answer is read field by field: the compiler then keeps value and
    // rows in registers.
    pub(crate) fn whole_sad(&self, mv: Mv, ceiling: u32) -> Ceiled
        requires { Copied mv }
        ensures { CeiledIs (cost_row sixtap self.now.plane.now self.now.site self.now.src.now mv) 16 ceiling result }
    {
        if let Some(at) = self.inside_at(stored_luma_mv(mv)) {
            let both = rows_up_to(self.src, self.plane, at, self.site.stride, ceiling);
            return parted(ceiling, both);
        }
        let read = self.any_sad(mv, ceiling, FilterSet::Sixtap);
        Ceiled {
            sad: read.sad,
            rows: read.rows,
        }
    }

    // The same, not cut short, by the faster loop: no sum reaches NO_CEILING, so that no row is held against it.
    pub(crate) fn uncut_whole_sad(&self, mv: Mv) -> u32
        requires { Copied mv }
        ensures { result ≡ cost_at self.now.plane.now self.now.site self.now.src.now mv }
    {
        let eighths = stored_luma_mv(mv);
        if let Some(at) = self.inside_at(eighths) {
            all_rows_sad(self.src, self.plane, at, self.site.stride)
        } else {
            self.measured_copy(eighths, |block| uncut_block_sad(self.src, block))
        }
    }

    // The SAD at any vector by a version's filter, not cut short.
    pub(crate) fn uncut_any_sad(&self, mv: Mv, version: u8) -> u32
        ensures { result ≡ cost_by (rows_for version) self.now.plane.now self.now.site self.now.src.now mv }
    {
        let eighths = stored_luma_mv(mv);
        if fraction(eighths.col) == 0 && fraction(eighths.row) == 0 {
            return self.uncut_whole_sad(mv);
        }
        let set = filter_set_for_version(version);
        self.any_sad(mv, NO_CEILING, set).sad
    }
}
