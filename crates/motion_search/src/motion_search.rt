// Luma motion search: SADs, the small diamond, half and quarter refinement.
ghost use Rattle.std.specs.Prelude.{◌≡◌, ◌*◌, ◌≤◌, ◌<◌};
ghost use Rattle.laws.specs.Outcome.{first_of, result_outcome};
ghost use Rattle.prediction.specs.Plane.{luma_plane};
ghost use Rattle.prediction.specs.Filter.{rows_for};
ghost use Rattle.prediction.specs.Ceiled.{CeiledIs};
ghost use Rattle.search.specs.Sad.{sad16, row_sad, cost_in, cost_of};
ghost use Rattle.search.specs.Search.{diamond, refine};
ghost use Rattle.search.specs.Refusals.{place_refusal, search_refusal, place_lines, grid_lines, any_sad_lines, refine_lines, sad_outcome, search_outcome, diamond_outcome};
ghost use Rattle.search.specs.Internal.{plane_of, cost_by};

use crate::refusals::{bad_macroblock, bad_version, off_grid, out_of_range};
use crate::sads::{block_sad, uncut_block_sad};
use crate::targets::Target;
use fetch::{bad_size, short_plane};
use prediction::ceiling::Ceiled;
use prediction::motion_comp::filter_set_for_version;
use prediction::motion_vector::Mv;
use search::{DiamondResult, PlaceRefusal, SearchRefusal, SearchResult, Site};

// The range of a component, in quarter pixels.
pub const MV_MIN: i16 = -1023;

pub const MV_MAX: i16 = 1023;

// Steps of a whole, a half and a quarter pixel.
pub const WHOLE_PIXEL_STEP: i16 = 4;

pub const HALF_PIXEL_STEP: i16 = 2;

pub const QUARTER_PIXEL_STEP: i16 = 1;

// The SAD of two blocks of 16 by 16 samples up to a ceiling: the lesser of SAD and ceiling, and the number of rows measured.
pub fn block_sad_16x16_up_to(src: &[u8; 256], pred: &[u8; 256], ceiling: u32) -> Ceiled
    ensures { CeiledIs (row_sad src.now pred.now) 16 ceiling result }
{
    block_sad(src, pred, ceiling)
}

// The SAD of two blocks of 16 by 16 samples.
pub fn block_sad_16x16(src: &[u8; 256], pred: &[u8; 256]) -> u32
    ensures { result ≡ sad16 src.now pred.now }
{
    uncut_block_sad(src, pred)
}

// The first refusal that applies to a macroblock of a plane.
fn check_place(plane: &[u8], s: Site) -> Result<(), PlaceRefusal>
    ensures { result_outcome place_refusal result ≡ first_of (place_lines (plane_of plane.now s) s.column s.row) tt }
{
    if bad_size(s.width, s.height) {
        return Err(PlaceRefusal::BadSize);
    }
    if short_plane(plane.len(), s.stride, s.width, s.height) {
        return Err(PlaceRefusal::ShortPlane);
    }
    if bad_macroblock(s.column, s.row) {
        return Err(PlaceRefusal::BadMacroblock);
    }
    Ok(())
}

// The first refusal that applies to a vector on the grid of n, whose components are multiples of n.
fn checked(plane: &[u8], s: Site, mv: Mv, n: u32) -> Result<(), SearchRefusal>
    requires { 0 < n }
    ensures { result_outcome search_refusal result ≡ first_of (grid_lines n (plane_of plane.now s) s.column s.row mv) tt }
{
    check_place(plane, s)?;
    if out_of_range(mv) {
        return Err(SearchRefusal::OutOfRange);
    }
    if off_grid(n, mv) {
        return Err(SearchRefusal::OffGrid);
    }
    Ok(())
}

// The SAD of a macroblock at a whole vector. Here and below the numbers of the plane and the macroblock come one by one, as the C
// interface has them; `Site` and `Target` gather them.
pub fn mb_luma_sad_at_whole_mv(
    plane: &[u8],
    stride: usize,
    width: usize,
    height: usize,
    mb_col: usize,
    mb_row: usize,
    src_y: &[u8; 256],
    mv: Mv,
) -> Result<u32, SearchRefusal>
    ensures { sad_outcome result
        ≡ first_of (grid_lines 4 (luma_plane plane.now stride width height) mb_col mb_row mv)
        (cost_of (luma_plane plane.now stride width height) mb_col mb_row src_y.now mv) }
{
    let site = Site {
        stride,
        width,
        height,
        column: mb_col,
        row: mb_row,
    };
    checked(plane, site, mv, WHOLE_PIXEL_STEP as u32)?;
    Ok(Target::new(plane, site, src_y).uncut_whole_sad(mv))
}

// The SAD of a macroblock at any vector in range, by a version's filter: every vector is on the grid of 1.
pub fn mb_luma_sad_at_mv(
    plane: &[u8],
    stride: usize,
    width: usize,
    height: usize,
    mb_col: usize,
    mb_row: usize,
    src_y: &[u8; 256],
    mv: Mv,
    version: u8,
) -> Result<u32, SearchRefusal>
    ensures { sad_outcome result
        ≡ first_of (any_sad_lines version (luma_plane plane.now stride width height) mb_col mb_row mv)
        (cost_in (rows_for version) (luma_plane plane.now stride width height) mb_col mb_row src_y.now mv) }
{
    if bad_version(version) {
        return Err(SearchRefusal::BadVersion);
    }
    let site = Site {
        stride,
        width,
        height,
        column: mb_col,
        row: mb_row,
    };
    checked(plane, site, mv, 1)?;
    Ok(Target::new(plane, site, src_y).uncut_any_sad(mv, version))
}

// The small diamond around any centre.
pub fn small_diamond_search_luma(
    plane: &[u8],
    stride: usize,
    width: usize,
    height: usize,
    mb_col: usize,
    mb_row: usize,
    src_y: &[u8; 256],
    center: Mv,
    max_iters: u32,
) -> Result<DiamondResult, PlaceRefusal>
    ensures { diamond_outcome result
        ≡ first_of (place_lines (luma_plane plane.now stride width height) mb_col mb_row)
        (diamond (cost_of (luma_plane plane.now stride width height) mb_col mb_row src_y.now) center max_iters) }
{
    let site = Site {
        stride,
        width,
        height,
        column: mb_col,
        row: mb_row,
    };
    check_place(plane, site)?;
    Ok(Target::new(plane, site, src_y).small_diamond(center, max_iters))
}

// Refines by a step and a version's filter a centre on the grid of twice the step; refuses the version, then as `checked` does.
fn refine_luma(
    plane: &[u8],
    s: Site,
    src: &[u8; 256],
    center: Mv,
    step: u32,
    version: u8,
) -> Result<SearchResult, SearchRefusal>
    requires { (0 < step) × (step ≤ 2) }
    ensures { search_outcome result
        ≡ first_of (refine_lines version (2 * step) (plane_of plane.now s) s.column s.row center)
        (refine (cost_by (rows_for version) plane.now s src.now) step center) }
{
    if bad_version(version) {
        return Err(SearchRefusal::BadVersion);
    }
    checked(plane, s, center, 2 * step)?;
    let target = Target::new(plane, s, src);
    let start = SearchResult {
        mv: center,
        sad: target.uncut_any_sad(center, version),
    };
    let set = filter_set_for_version(version);
    Ok(target.refine_at(start, step, set))
}

// The centre, a whole vector, and its eight neighbours at half a pixel, by a version's filter. This and the quarter's are two by name, as
// in the C interface; both are `refine_luma`.
pub fn half_pixel_refine_luma(
    plane: &[u8],
    stride: usize,
    width: usize,
    height: usize,
    mb_col: usize,
    mb_row: usize,
    src_y: &[u8; 256],
    whole_pixel_center: Mv,
    version: u8,
) -> Result<SearchResult, SearchRefusal>
    ensures { search_outcome result
        ≡ first_of (refine_lines version 4 (luma_plane plane.now stride width height) mb_col mb_row whole_pixel_center)
        (refine (cost_in (rows_for version) (luma_plane plane.now stride width height) mb_col mb_row src_y.now) 2 whole_pixel_center) }
{
    let site = Site {
        stride,
        width,
        height,
        column: mb_col,
        row: mb_row,
    };
    refine_luma(
        plane,
        site,
        src_y,
        whole_pixel_center,
        HALF_PIXEL_STEP as u32,
        version,
    )
}

// The centre, a vector on the grid of half pixels, and its eight neighbours at a quarter pixel, by a version's filter.
pub fn quarter_pixel_refine_luma(
    plane: &[u8],
    stride: usize,
    width: usize,
    height: usize,
    mb_col: usize,
    mb_row: usize,
    src_y: &[u8; 256],
    half_pixel_center: Mv,
    version: u8,
) -> Result<SearchResult, SearchRefusal>
    ensures { search_outcome result
        ≡ first_of (refine_lines version 2 (luma_plane plane.now stride width height) mb_col mb_row half_pixel_center)
        (refine (cost_in (rows_for version) (luma_plane plane.now stride width height) mb_col mb_row src_y.now) 1 half_pixel_center) }
{
    let site = Site {
        stride,
        width,
        height,
        column: mb_col,
        row: mb_row,
    };
    refine_luma(
        plane,
        site,
        src_y,
        half_pixel_center,
        QUARTER_PIXEL_STEP as u32,
        version,
    )
}
