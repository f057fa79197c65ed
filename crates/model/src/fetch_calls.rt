// Fetches for C, and the two refusals of a plane that can be asked for alone.
ghost use Rattle.std.specs.Prelude.{◌≡◌, ◌||◌, ◌+◌, ◌-◌, ◌*◌, ltb};
ghost use Rattle.prediction.specs.Plane.{luma_plane, sample_at};
ghost use Rattle.prediction.specs.Prediction.{macroblock_of, halo_of, offset_by};
ghost use Rattle.prediction.specs.Refusals.{bad_side};
ghost use Rattle.fetch.specs.Refusals.{fetch_lines};
ghost use Rattle.numbers.specs.Answers.{bit, mv_of, Fills};

use numbers::answers::Status;
use prediction::motion_vector::Mv;

pub fn vp8model_bad_size(width: usize, height: usize) -> u8
    ensures { result ≡ bit (bad_side width || bad_side height) }
{
    numbers::bit_of(fetch::bad_size(width, height))
}

pub fn vp8model_short_plane(len: usize, stride: usize, width: usize, height: usize) -> u8
    ensures { result ≡ bit (ltb len ((height - 1) * stride + width)) }
{
    numbers::bit_of(fetch::short_plane(len, stride, width, height))
}

pub fn vp8model_fetch_luma_mb_whole_pixel(
    plane: &[u8],
    stride: usize,
    width: usize,
    height: usize,
    x: usize,
    y: usize,
    mv_row: i16,
    mv_col: i16,
    block: &mut [u8; 256],
) -> Status
    ensures { Fills (fetch_lines (luma_plane plane.now stride width height) x y)
        (macroblock_of (offset_by x y (mv_of mv_row mv_col) (sample_at (luma_plane plane.now stride width height))))
        block.old result block.new }
{
    let mv = Mv {
        row: mv_row,
        col: mv_col,
    };
    let answer = fetch::fill_luma_mb_whole_pixel(plane, stride, width, height, x, y, mv, block);
    Status {
        refusal: numbers::fetch_number(answer),
    }
}

pub fn vp8model_fetch_luma_mb_halo(
    plane: &[u8],
    stride: usize,
    width: usize,
    height: usize,
    x: usize,
    y: usize,
    mv_row: i16,
    mv_col: i16,
    halo: &mut [u8; 441],
) -> Status
    ensures { Fills (fetch_lines (luma_plane plane.now stride width height) x y)
        (halo_of (offset_by x y (mv_of mv_row mv_col) (sample_at (luma_plane plane.now stride width height))))
        halo.old result halo.new }
{
    let mv = Mv {
        row: mv_row,
        col: mv_col,
    };
    let answer = fetch::fill_luma_mb_halo(plane, stride, width, height, x, y, mv, halo);
    Status {
        refusal: numbers::fetch_number(answer),
    }
}
