// SADs and luma motion searches, exported for C.
ghost use Rattle.std.specs.Prelude.{◌≡◌};
ghost use Rattle.laws.specs.Outcome.{first_of};
ghost use Rattle.prediction.specs.Plane.{luma_plane};
ghost use Rattle.prediction.specs.Filter.{rows_for};
ghost use Rattle.laws.specs.Ceiling.{sum_up_to, rows_measured};
ghost use Rattle.search.specs.Sad.{sad16, row_sad, cost_in, cost_of};
ghost use Rattle.search.specs.Search.{diamond, refine};
ghost use Rattle.search.specs.Refusals.{place_lines, grid_lines, any_sad_lines, refine_lines};
ghost use Rattle.search.specs.Picture.{lists};
ghost use Rattle.numbers.specs.Answers.{mv_of, sad_numbers, ceiled_numbers, search_numbers, diamond_numbers, Searches};

use numbers::answers::{Ceiled, Diamond, Picture, Sad, Search};

#[unsafe(no_mangle)]
pub extern "C" fn vp8model_block_sad_16x16_up_to(
    src: &[u8; 256],
    pred: &[u8; 256],
    ceiling: u32,
) -> Ceiled
    ensures { result
        ≡ ceiled_numbers (record {
          sad = sum_up_to (row_sad src.now pred.now) 16 ceiling;
          rows = rows_measured (row_sad src.now pred.now) 16 ceiling;
        }) }
{
    model::search_calls::vp8model_block_sad_16x16_up_to(src, pred, ceiling)
}

#[unsafe(no_mangle)]
pub extern "C" fn vp8model_block_sad_16x16(src: &[u8; 256], pred: &[u8; 256]) -> u32
    ensures { result ≡ sad16 src.now pred.now }
{
    model::search_calls::vp8model_block_sad_16x16(src, pred)
}

#[unsafe(no_mangle)]
pub extern "C" fn vp8model_mb_luma_sad_at_whole_mv(
    plane: &[u8],
    stride: usize,
    width: usize,
    height: usize,
    mb_col: usize,
    mb_row: usize,
    src_y: &[u8; 256],
    mv_row: i16,
    mv_col: i16,
) -> Sad
    ensures { result
        ≡ sad_numbers (first_of (grid_lines 4 (luma_plane plane.now stride width height) mb_col mb_row (mv_of mv_row mv_col))
        (cost_of (luma_plane plane.now stride width height) mb_col mb_row src_y.now (mv_of mv_row mv_col))) }
{
    model::search_calls::vp8model_mb_luma_sad_at_whole_mv(
        plane, stride, width, height, mb_col, mb_row, src_y, mv_row, mv_col,
    )
}

#[unsafe(no_mangle)]
pub extern "C" fn vp8model_mb_luma_sad_at_mv(
    plane: &[u8],
    stride: usize,
    width: usize,
    height: usize,
    mb_col: usize,
    mb_row: usize,
    src_y: &[u8; 256],
    mv_row: i16,
    mv_col: i16,
    version: u8,
) -> Sad
    ensures { result
        ≡ sad_numbers (first_of (any_sad_lines version (luma_plane plane.now stride width height) mb_col mb_row (mv_of mv_row mv_col))
        (cost_in (rows_for version) (luma_plane plane.now stride width height) mb_col mb_row src_y.now (mv_of mv_row mv_col))) }
{
    model::search_calls::vp8model_mb_luma_sad_at_mv(
        plane, stride, width, height, mb_col, mb_row, src_y, mv_row, mv_col, version,
    )
}

#[unsafe(no_mangle)]
pub extern "C" fn vp8model_small_diamond_search_luma(
    plane: &[u8],
    stride: usize,
    width: usize,
    height: usize,
    mb_col: usize,
    mb_row: usize,
    src_y: &[u8; 256],
    center_row: i16,
    center_col: i16,
    max_iters: u32,
) -> Diamond
    ensures { result
        ≡ diamond_numbers (first_of (place_lines (luma_plane plane.now stride width height) mb_col mb_row)
        (diamond (cost_of (luma_plane plane.now stride width height) mb_col mb_row src_y.now)
        (mv_of center_row center_col) max_iters)) }
{
    model::search_calls::vp8model_small_diamond_search_luma(
        plane, stride, width, height, mb_col, mb_row, src_y, center_row, center_col, max_iters,
    )
}

#[unsafe(no_mangle)]
pub extern "C" fn vp8model_half_pixel_refine_luma(
    plane: &[u8],
    stride: usize,
    width: usize,
    height: usize,
    mb_col: usize,
    mb_row: usize,
    src_y: &[u8; 256],
    center_row: i16,
    center_col: i16,
    version: u8,
) -> Search
    ensures { result
        ≡ search_numbers (first_of (refine_lines version 4 (luma_plane plane.now stride width height) mb_col mb_row (mv_of center_row center_col))
        (refine (cost_in (rows_for version) (luma_plane plane.now stride width height) mb_col mb_row src_y.now)
        2 (mv_of center_row center_col))) }
{
    model::search_calls::vp8model_half_pixel_refine_luma(
        plane, stride, width, height, mb_col, mb_row, src_y, center_row, center_col, version,
    )
}

#[unsafe(no_mangle)]
pub extern "C" fn vp8model_quarter_pixel_refine_luma(
    plane: &[u8],
    stride: usize,
    width: usize,
    height: usize,
    mb_col: usize,
    mb_row: usize,
    src_y: &[u8; 256],
    center_row: i16,
    center_col: i16,
    version: u8,
) -> Search
    ensures { result
        ≡ search_numbers (first_of (refine_lines version 2 (luma_plane plane.now stride width height) mb_col mb_row (mv_of center_row center_col))
        (refine (cost_in (rows_for version) (luma_plane plane.now stride width height) mb_col mb_row src_y.now)
        1 (mv_of center_row center_col))) }
{
    model::search_calls::vp8model_quarter_pixel_refine_luma(
        plane, stride, width, height, mb_col, mb_row, src_y, center_row, center_col, version,
    )
}

#[unsafe(no_mangle)]
pub extern "C" fn vp8model_search_picture_luma(
    plane: &[u8],
    stride: usize,
    width: usize,
    height: usize,
    source: &[u8],
    source_stride: usize,
    max_iters: u32,
    version: u8,
    rows: &mut [i16],
    cols: &mut [i16],
    sads: &mut [u32],
) -> Picture
    ensures { Searches version max_iters (luma_plane plane.now stride width height) (luma_plane source.now source_stride width height)
        result (lists rows.old cols.old sads.old)
        (lists rows.new cols.new sads.new) }
{
    model::search_calls::vp8model_search_picture_luma(
        plane,
        stride,
        width,
        height,
        source,
        source_stride,
        max_iters,
        version,
        rows,
        cols,
        sads,
    )
}
