// The small diamond.
ghost use Rattle.std.specs.Prelude.{◌≡◌, ◌≤◌, ◌<◌};
ghost use Rattle.laws.specs.Signed.{above, below};
ghost use Rattle.search.specs.Search.{tried, round_of, diamond};
ghost use Rattle.search.specs.Internal.{cost_at, step_at, Whole, Good};

use crate::motion_search::WHOLE_PIXEL_STEP;
use crate::targets::Target;
use crate::vectors::{neighbour, to_grid};
use prediction::motion_vector::Mv;
use search::DiamondResult;

// How far neighbour k of a round lies along one axis, in quarter pixels: neighbour `first` a step back, the one after it a step on, the
// others not at all.
fn step_at(first: u32, k: u32) -> i16
    requires { first ≤ 2 }
    ensures { result ≡ step_at first k }
{
    if k == first {
        -WHOLE_PIXEL_STEP
    } else if k == first + 1 {
        WHOLE_PIXEL_STEP
    } else {
        0
    }
}

impl Target<'_> {
    // One neighbour of the best so far, measured up to the best SAD.
    fn try_at(&self, best: DiamondResult, drow: i16, dcol: i16) -> DiamondResult
        requires whole { Whole best.mv }
        requires sads_bound { best.sads < 4000000000 }
        requires drow_bound { (above drow ≤ 4) × (below drow ≤ 4) × (above dcol ≤ 4) × (below dcol ≤ 4) }
        ensures { result ≡ tried (cost_at self.now.plane.now self.now.site self.now.src.now) drow dcol best }
    {
        let mv = neighbour(best.mv, drow, dcol);
        if mv == best.mv {
            return best;
        }
        let read = self.whole_sad(mv, best.sad);
        if read.sad < best.sad {
            return DiamondResult {
                mv,
                sad: read.sad,
                sads: best.sads + 1,
                ..best
            };
        }
        DiamondResult {
            sads: best.sads + 1,
            ..best
        }
    }

    // One round: the neighbours 0 to 3 are up, down, left, right. In a loop, so that `try_at` is called at one place and the compiler
    // inlines it.
    fn round(&self, best: DiamondResult) -> DiamondResult
        requires good { Good (cost_at self.now.plane.now self.now.site self.now.src.now) best }
        requires sads_bound { (best.sads < 3999999990) × (best.rounds < 4000000000) }
        ensures { result ≡ round_of (cost_at self.now.plane.now self.now.site self.now.src.now) best }
    {
        let mut next = best;
        for k in 0..4 {
            next = self.try_at(next, step_at(0, k), step_at(2, k));
        }
        DiamondResult {
            rounds: next.rounds + 1,
            ..next
        }
    }

    // The start is one SAD computed, no round made. Rounds until one does not move, at most `limit`: a round that finds no smaller SAD
    // has not moved. A `while`, since the rounds made are a number of the result, which each round counts.
    pub(crate) fn small_diamond(&self, center: Mv, limit: u32) -> DiamondResult
        ensures { result ≡ diamond (cost_at self.now.plane.now self.now.site self.now.src.now) center limit }
    {
        let mv = to_grid(center);
        let mut best = DiamondResult {
            mv,
            sad: self.uncut_whole_sad(mv),
            sads: 1,
            rounds: 0,
        };
        while best.rounds < limit {
            let next = self.round(best);
            if best.sad <= next.sad {
                return next;
            }
            best = next;
        }
        best
    }
}
