// The luma motion search of a whole picture, by the public calls for one macroblock.
#![tactic(auto)]

pub mod allowance;

ghost use Rattle.std.specs.Prelude.{◌≡◌, false, ◌||◌, ◌*◌, ◌/◌, ◌+◌, ◌≤◌, ◌<◌, ltb, length};
ghost use Rattle.prediction.specs.Plane.{luma_plane};
ghost use Rattle.prediction.specs.Filter.{rows_for};
ghost use Rattle.search.specs.Sad.{cost_of};
ghost use Rattle.search.specs.Search.{diamond};
ghost use Rattle.search.specs.Refusals.{bad_macroblock};
ghost use Rattle.search.specs.Picture.{mb_count, source_block, searched_at, picture_at, zero_mv, lists, picture_expected, picture_outcome, PictureSearched};
ghost use Rattle.picture_search.specs.Internal.{reference_of, source_of, Placed, Legal, Entered, Filled};

use fetch::{bad_size, fetch_luma_mb_whole_pixel, short_plane};
use motion_search::motion_search::{
    half_pixel_refine_luma, quarter_pixel_refine_luma, small_diamond_search_luma,
};
use prediction::motion_vector::Mv;
use search::DiamondResult;
use search::picture::{PictureRefusal, SearchedMb};

// Where every diamond starts.
const ZERO_MV: Mv = Mv { row: 0, col: 0 };

// The reference plane and the source plane, of one size. No ghost field says that they are legal: `checked` takes those that are not.
#[derive(Clone, Copy)]
struct Planes<'a> {
    plane: &'a [u8],
    stride: usize,
    width: usize,
    height: usize,
    source: &'a [u8],
    source_stride: usize,
}

// A macroblock's samples of the source plane.
fn source_block(p: Planes, column: usize, row: usize) -> [u8; 256]
    requires { Placed (source_of p) column row }
    ensures { result ≡ source_block (source_of p.entry) column row }
{
    fetch_luma_mb_whole_pixel(
        p.source,
        p.source_stride,
        p.width,
        p.height,
        16 * column,
        16 * row,
        ZERO_MV,
    )
    .block
}

// The diamond, which is not refused here.
fn whole_search(
    p: Planes,
    column: usize,
    row: usize,
    src: &[u8; 256],
    max_iters: u32,
) -> DiamondResult
    requires { Placed (reference_of p) column row }
    ensures found { result ≡ diamond (cost_of (reference_of p.entry) column row src.now) zero_mv max_iters }
    ensures few { result.sads ≤ 261125 }
{
    small_diamond_search_luma(
        p.plane, p.stride, p.width, p.height, column, row, src, ZERO_MV, max_iters,
    )
    .unwrap()
}

// The three searches of one macroblock, none of which is refused here, and the SADs computed.
fn search_mb(p: Planes, column: usize, row: usize, max_iters: u32, version: u8) -> SearchedMb
    requires legal { Legal version p }
    requires place { bad_macroblock column row ≡ false }
    ensures { result ≡ searched_at (rows_for version) (reference_of p.entry) (source_of p.entry) max_iters column row }
{
    let src = source_block(p, column, row);
    let whole = whole_search(p, column, row, &src, max_iters);
    let half = half_pixel_refine_luma(
        p.plane, p.stride, p.width, p.height, column, row, &src, whole.mv, version,
    )
    .unwrap();
    let quarter = quarter_pixel_refine_luma(
        p.plane, p.stride, p.width, p.height, column, row, &src, half.mv, version,
    )
    .unwrap();
    SearchedMb {
        mv: quarter.mv,
        sad: quarter.sad,
        sads: whole.sads + 18,
    }
}

// Searches macroblock i within a round limit, into its entry of the lists; gives the SADs computed.
// The lists stay three slices: a record of three `&mut` would need clauses that each still lends the same list.
fn search_entry(
    p: Planes,
    i: usize,
    max_iters: u32,
    version: u8,
    rows: &mut [i16],
    cols: &mut [i16],
    sads: &mut [u32],
) -> u32
    requires legal { Legal version p }
    requires here { i < mb_count (reference_of p) }
    requires room { (i < length rows.old) × (i < length cols.old) × (i < length sads.old) }
    ensures { (result ≡ (picture_at (rows_for version) (reference_of p.entry) (source_of p.entry) max_iters i).sads)
        × Entered (picture_at (rows_for version) (reference_of p.entry) (source_of p.entry) max_iters i) i
        (lists rows.old cols.old sads.old)
        (lists rows.new cols.new sads.new) }
{
    let columns = (p.width + 15) / 16;
    let found = search_mb(p, i % columns, i / columns, max_iters, version);
    rows[i] = found.mv.row;
    cols[i] = found.mv.col;
    sads[i] = found.sad;
    found.sads
}

// All macroblocks in raster order, each into its entry of the lists.
fn search_all(
    p: Planes,
    max_iters: u32,
    version: u8,
    count: usize,
    rows: &mut [i16],
    cols: &mut [i16],
    sads: &mut [u32],
)
    requires legal { Legal version p }
    requires count_value { count ≡ mb_count (reference_of p) }
    requires count_in_bounds { (count ≤ length rows.old) × (count ≤ length cols.old) × (count ≤ length sads.old) }
    ensures { Filled count
        (picture_at (rows_for version) (reference_of p.entry) (source_of p.entry) max_iters)
        (lists rows.old cols.old sads.old)
        (lists rows.new cols.new sads.new) }
{
    for i in 0..count {
        search_entry(p, i, max_iters, version, rows, cols, sads);
    }
}

// The macroblocks of a picture, as document 02 writes them: `div_ceil` would be no plainer, and its proof is longer.
fn mb_count(width: usize, height: usize) -> usize
    requires { (width ≤ 16383) × (height ≤ 16383) }
    ensures { (result ≡ (width + 15) / 16 * ((height + 15) / 16)) × (result ≤ 1048576) }
{
    let columns = (width + 15) / 16;
    let rows = (height + 15) / 16;
    columns * rows
}

// Refusal 15: one of three lengths is below the count.
fn short_list(count: usize, rows: usize, cols: usize, sads: usize) -> bool
    ensures { result ≡ (ltb rows count || (ltb cols count || ltb sads count)) }
{
    rows < count || cols < count || sads < count
}

// The first refusal that applies; where none does, the macroblocks' count.
fn checked(
    p: Planes,
    version: u8,
    rows: &[i16],
    cols: &[i16],
    sads: &[u32],
) -> Result<u32, PictureRefusal>
    ensures { picture_outcome result
        ≡ picture_expected version (reference_of p.entry) (source_of p.entry) (lists rows.now cols.now sads.now) }
{
    if 2 < version {
        return Err(PictureRefusal::BadVersion);
    }
    if bad_size(p.width, p.height) {
        return Err(PictureRefusal::BadSize);
    }
    if short_plane(p.plane.len(), p.stride, p.width, p.height) {
        return Err(PictureRefusal::ShortPlane);
    }
    if short_plane(p.source.len(), p.source_stride, p.width, p.height) {
        return Err(PictureRefusal::ShortSource);
    }
    let count = mb_count(p.width, p.height);
    if short_list(count, rows.len(), cols.len(), sads.len()) {
        return Err(PictureRefusal::ShortList);
    }
    Ok(count as u32)
}

// Searches every macroblock of a picture: the diamond from the zero vector, then both refinements by a version's filter.
pub fn search_picture_luma(
    plane: &[u8],
    stride: usize,
    width: usize,
    height: usize,
    source: &[u8],
    source_stride: usize,
    max_iters: u32,
    version: u8,
    rows: &mut [i16],
    cols: &mut [i16],
    sads: &mut [u32],
) -> Result<u32, PictureRefusal>
    ensures { PictureSearched version max_iters (luma_plane plane.now stride width height)
        (luma_plane source.now source_stride width height)
        (picture_outcome result) (lists rows.old cols.old sads.old)
        (lists rows.new cols.new sads.new) }
{
    let p = Planes {
        plane,
        stride,
        width,
        height,
        source,
        source_stride,
    };
    let count = checked(p, version, rows, cols, sads)?;
    search_all(p, max_iters, version, count as usize, rows, cols, sads);
    Ok(count)
}
