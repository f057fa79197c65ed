// The search of a whole picture within an allowance, exported for C.
ghost use Rattle.prediction.specs.Plane.{luma_plane};
ghost use Rattle.search.specs.Picture.{lists};
ghost use Rattle.numbers.specs.Answers.{Allows};

use numbers::answers::Allowed;

#[unsafe(no_mangle)]
pub extern "C" fn vp8model_search_picture_luma_within(
    plane: &[u8],
    stride: usize,
    width: usize,
    height: usize,
    source: &[u8],
    source_stride: usize,
    allowance: u32,
    version: u8,
    rows: &mut [i16],
    cols: &mut [i16],
    sads: &mut [u32],
) -> Allowed
    ensures { Allows version allowance (luma_plane plane.now stride width height) (luma_plane source.now source_stride width height)
        result (lists rows.old cols.old sads.old)
        (lists rows.new cols.new sads.new) }
{
    model::allowance_calls::vp8model_search_picture_luma_within(
        plane,
        stride,
        width,
        height,
        source,
        source_stride,
        allowance,
        version,
        rows,
        cols,
        sads,
    )
}
