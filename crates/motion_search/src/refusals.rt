// One function for each line of the refusals 10 to 12 and of 23; those of 8 and 9 are the fetches' own.
ghost use Rattle.std.specs.Prelude.{◌≡◌, ◌<◌};
ghost use Rattle.prediction.specs.Refusals.{bad_version};
ghost use Rattle.search.specs.Refusals.{bad_macroblock, outside, out_of_range, not_multiple, off_grid};

use crate::motion_search::{MV_MAX, MV_MIN};
use prediction::motion_vector::Mv;

// 23.
pub(crate) fn bad_version(version: u8) -> bool
    ensures { result ≡ bad_version version }
{
    2 < version
}

// 10.
pub(crate) fn bad_macroblock(column: usize, row: usize) -> bool
    ensures { result ≡ bad_macroblock column row }
{
    1023 < column || 1023 < row
}

fn is_outside(v: i16) -> bool
    ensures { result ≡ outside v }
{
    v < MV_MIN || MV_MAX < v
}

// 11.
pub(crate) fn out_of_range(mv: Mv) -> bool
    ensures { result ≡ out_of_range mv }
{
    is_outside(mv.row) || is_outside(mv.col)
}

// Whether v is no multiple of n, a number and not a kind, since it divides. A division by a literal is a mask.
fn not_multiple(n: u32, v: i16) -> bool
    requires { 0 < n }
    ensures { result ≡ not_multiple n v }
{
    let m = u32::from(v.unsigned_abs());
    match n {
        4 => 0 < m % 4,
        2 => 0 < m % 2,
        _ => 0 < m % n,
    }
}

// 12.
pub(crate) fn off_grid(n: u32, mv: Mv) -> bool
    requires { 0 < n }
    ensures { result ≡ off_grid n mv }
{
    not_multiple(n, mv.row) || not_multiple(n, mv.col)
}
