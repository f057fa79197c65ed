// The block search: 33 comparisons, no displacement beyond 15.
ghost use Rattle.std.specs.Prelude.{◌≡◌, ◌-◌, ◌*◌, ◌<◌, ◌≤◌, length};
ghost use Rattle.laws.specs.Signed.{above, below};
ghost use Rattle.laws.specs.Best.{better_of};
ghost use Rattle.denoiser.specs.Search.{neighbour_of, block_search};
ghost use Rattle.denoiser.specs.Internal.{step_best, Fits, Reach, Short, Lies, Measured, luma_cost};
ghost use Rattle.laws.specs.Square.{step_to};

use crate::sad;
use denoiser::{Block, Displacement, Motion, PlaneNumbers};
use prediction::ceiling::NO_CEILING;

// The better of the best so far and the displacement d, measured up to the best SAD: only a strictly smaller SAD replaces the best.
fn try_at(
    bytes: &[u8],
    p: PlaneNumbers,
    b: Block,
    centre: &[u8],
    best: Motion,
    d: Displacement,
) -> Motion
    requires fits { Fits bytes.now p }
    requires lies { Lies b p.columns p.rows }
    requires short { Short d }
    requires rows_in_bounds { p.columns * p.rows ≤ length centre.now }
    requires sad_value { best.sad ≡ luma_cost centre.now bytes.now p b best.displacement }
    ensures { Measured (luma_cost centre.now bytes.now p b) (better_of (luma_cost centre.now bytes.now p b)
        best.displacement d) result }
{
    let read = sad::block_sad(bytes, p, b, d, centre, best.sad);
    if read.sad < best.sad {
        Motion {
            displacement: d,
            sad: read.sad,
        }
    } else {
        best
    }
}

// v, less one step, and as many steps more as the place says. `motion_search` has its own, for the numbers of a vector.
fn step_to(v: i32, place: u32, step: u32) -> i32
    requires { (place ≤ 2) × (step ≤ 8) × (above v ≤ 15) × (below v ≤ 15) }
    ensures { result ≡ step_to v place step }
{
    v + (place * step) as i32 - step as i32
}

// The neighbours of a displacement, at the distance of a step, in raster order.
fn next_to(d: Displacement, step: u32, k: u32) -> Displacement
    requires { (k < 8) × (step ≤ 8) × Short d }
    ensures { result ≡ neighbour_of d step k }
{
    let place = if k < 4 { k } else { k + 1 };
    let dx = step_to(d.dx, place % 3, step);
    let dy = step_to(d.dy, place / 3, step);
    Displacement { dx, dy }
}

// One step: the eight neighbours of the best at its beginning.
fn round(bytes: &[u8], p: PlaneNumbers, b: Block, centre: &[u8], best: Motion, step: u32) -> Motion
    requires fits { Fits bytes.now p }
    requires lies { Lies b p.columns p.rows }
    requires step_bound { (step ≤ 8) × Reach (15 - step) best.displacement }
    requires rows_in_bounds { p.columns * p.rows ≤ length centre.now }
    requires sad_value { best.sad ≡ luma_cost centre.now bytes.now p b best.displacement }
    ensures { Measured (luma_cost centre.now bytes.now p b) (step_best (luma_cost centre.now bytes.now p b) step
        best.displacement) result }
{
    let from = best.displacement;
    let mut found = best;
    for k in 0..8 {
        found = try_at(bytes, p, b, centre, found, next_to(from, step, k));
    }
    found
}

// The block search: the last best and its SAD.
pub(crate) fn block_search(bytes: &[u8], p: PlaneNumbers, b: Block, centre: &[u8]) -> Motion
    requires fits { Fits bytes.now p }
    requires lies { Lies b p.columns p.rows }
    requires rows_in_bounds { p.columns * p.rows ≤ length centre.now }
    ensures { Measured (luma_cost centre.now bytes.now p b)
        (block_search (luma_cost centre.now bytes.now p b)) result }
{
    let first = sad::still_sad(bytes, p, b, centre, NO_CEILING);
    let mut best = Motion {
        displacement: sad::STILL,
        sad: first.sad,
    };
    for step in [8, 4, 2, 1] {
        best = round(bytes, p, b, centre, best, step);
    }
    best
}
