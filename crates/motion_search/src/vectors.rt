// Vectors that the searches visit.
ghost use Rattle.std.specs.Prelude.{◌≡◌, ◌+◌, ◌≤◌, ◌<◌, nat_abs};
ghost use Rattle.laws.specs.Signed.{above, below};
ghost use Rattle.search.specs.Search.{cut_to4, on_grid, gridded, stepped, raster_of};
ghost use Rattle.laws.specs.Square.{square_place, step_to};
ghost use Rattle.search.specs.Internal.{Whole, Room};

use crate::motion_search::{MV_MAX, MV_MIN, WHOLE_PIXEL_STEP};
use prediction::motion_vector::Mv;

// Cut toward zero to a multiple of 4.
fn snap_to_whole_pixel(v: i16) -> i16
    ensures { result ≡ cut_to4 v }
{
    v / WHOLE_PIXEL_STEP * WHOLE_PIXEL_STEP
}

// Clamped first, then cut.
fn on_grid(v: i16) -> i16
    ensures { result ≡ on_grid v }
{
    snap_to_whole_pixel(v.clamp(MV_MIN, MV_MAX))
}

pub(crate) fn to_grid(mv: Mv) -> Mv
    ensures { result ≡ gridded mv }
{
    Mv {
        row: on_grid(mv.row),
        col: on_grid(mv.col),
    }
}

// A neighbour of a whole vector.
pub(crate) fn neighbour(mv: Mv, drow: i16, dcol: i16) -> Mv
    requires whole { Whole mv }
    requires drow_bound { (above drow ≤ 4) × (below drow ≤ 4) × (above dcol ≤ 4) × (below dcol ≤ 4) }
    ensures { result ≡ stepped drow dcol mv }
{
    to_grid(Mv {
        row: mv.row + drow,
        col: mv.col + dcol,
    })
}

// A component less one step, and as many steps more as the place says.
fn step_to(v: i16, place: u32, step: u32) -> i16
    requires { (place ≤ 2) × (step ≤ 2) × (nat_abs v ≤ 1023) }
    ensures { result ≡ step_to v place step }
{
    v + ((place * step) as i16) - (step as i16)
}

// The places of a 3 by 3 square without the middle one.
fn place_of(k: u32) -> u32
    requires { k < 8 }
    ensures { result ≡ square_place k }
{
    if k < 4 { k } else { k + 1 }
}

// Neighbour k of a vector, in raster order.
pub(crate) fn raster_of(mv: Mv, step: u32, k: u32) -> Mv
    requires { (k < 8) × (step ≤ 2) × Room step mv }
    ensures { result ≡ raster_of mv step k }
{
    let place = place_of(k);
    Mv {
        row: step_to(mv.row, place / 3, step),
        col: step_to(mv.col, place % 3, step),
    }
}
