// Half and quarter refinement.
ghost use Rattle.std.specs.Prelude.{◌≡◌, ◌≤◌};
ghost use Rattle.laws.specs.Best.{better_of};
ghost use Rattle.search.specs.Search.{refine};
ghost use Rattle.prediction.specs.Filter.{taps_of};
ghost use Rattle.search.specs.Internal.{cost_by, Room};

use crate::targets::Target;
use crate::vectors::raster_of;
use prediction::motion_comp::FilterSet;
use prediction::motion_vector::Mv;
use search::SearchResult;

impl Target<'_> {
    // The better of the best so far and a vector, measured up to the best SAD: only a smaller SAD replaces the best.
    fn try_mv(&self, best: SearchResult, mv: Mv, set: FilterSet) -> SearchResult
        requires { best.sad ≡ cost_by (taps_of set) self.now.plane.now self.now.site self.now.src.now best.mv }
        ensures mv_value { result.mv ≡ better_of (cost_by (taps_of set) self.now.plane.now self.now.site self.now.src.now) best.mv mv }
        ensures sad_value { result.sad ≡ cost_by (taps_of set) self.now.plane.now self.now.site self.now.src.now result.mv }
    {
        let read = self.any_sad(mv, best.sad, set);
        if read.sad < best.sad {
            SearchResult { mv, sad: read.sad }
        } else {
            best
        }
    }

    // The best of the centre, given with its SAD, and its eight neighbours at a step: 1 or 2, a number and not a kind, since it is added.
    pub(crate) fn refine_at(&self, first: SearchResult, step: u32, set: FilterSet) -> SearchResult
        requires sad_value { first.sad ≡ cost_by (taps_of set) self.now.plane.now self.now.site self.now.src.now first.mv }
        requires step_bound { (step ≤ 2) × Room step first.mv }
        ensures { result ≡ refine (cost_by (taps_of set) self.now.plane.now self.now.site self.now.src.now) step first.mv }
    {
        let mut best = first;
        for k in 0..8 {
            let mv = raster_of(first.mv, step, k);
            best = self.try_mv(best, mv, set);
        }
        best
    }
}
