// The luma motion search of a whole picture within an allowance of comparisons.
ghost use Rattle.std.specs.Prelude.{◌≡◌, ◌*◌, ◌≤◌, ◌<◌, length};
ghost use Rattle.prediction.specs.Plane.{luma_plane};
ghost use Rattle.prediction.specs.Filter.{rows_for};
ghost use Rattle.search.specs.Picture.{mb_count, lists};
ghost use Rattle.search.specs.Allowance.{grant_of, rounds_for, spent, picture_made, allowed_at, low_allowance, allowance_outcome, AllowanceIs};
ghost use Rattle.picture_search.specs.Internal.{reference_of, source_of, Legal, Filled};

use crate::{Planes, checked, search_entry};
use search::allowance::{AllowanceRefusal, PictureWork};

// The rounds of a macroblock's diamond: 19 comparisons of its grant are the start's and the refinements'.
fn granted_rounds(remains: u32, left: usize) -> u32
    requires { (left ≤ 1048576) × (0 < left) × (19 ≤ grant_of remains left) }
    ensures { result ≡ rounds_for (grant_of remains left) }
{
    let grant = remains / left as u32;
    (grant - 19) / 4
}

// All macroblocks in raster order, each into its entry of the lists; gives the comparisons made.
fn search_within(
    p: Planes,
    allowance: u32,
    version: u8,
    count: usize,
    rows: &mut [i16],
    cols: &mut [i16],
    sads: &mut [u32],
) -> u32
    requires legal { Legal version p }
    requires count_value { count ≡ mb_count (reference_of p) }
    requires count_in_bounds { (count ≤ length rows.old) × (count ≤ length cols.old) × (count ≤ length sads.old) }
    requires count_bound { 19 * count ≤ allowance }
    ensures { (result ≡ spent (picture_made (rows_for version) (reference_of p.entry) (source_of p.entry)) allowance count)
        × Filled count
        (allowed_at (rows_for version) (reference_of p.entry) (source_of p.entry) allowance)
        (lists rows.old cols.old sads.old)
        (lists rows.new cols.new sads.new) }
{
    let mut remains = allowance;
    for i in 0..count {
        let rounds = granted_rounds(remains, count - i);
        remains -= search_entry(p, i, rounds, version, rows, cols, sads);
    }
    allowance - remains
}

// Refusal 30: the allowance is below 19 times the macroblocks.
fn low_allowance(allowance: u32, count: u32) -> bool
    requires { count ≤ 1048576 }
    ensures { result ≡ low_allowance allowance count }
{
    allowance < 19 * count
}

// Searches every macroblock of a picture as `search_picture_luma` does, each within its grant of the allowance.
pub fn search_picture_luma_within(
    plane: &[u8],
    stride: usize,
    width: usize,
    height: usize,
    source: &[u8],
    source_stride: usize,
    allowance: u32,
    version: u8,
    rows: &mut [i16],
    cols: &mut [i16],
    sads: &mut [u32],
) -> Result<PictureWork, AllowanceRefusal>
    ensures { AllowanceIs version allowance (luma_plane plane.now stride width height)
        (luma_plane source.now source_stride width height)
        (allowance_outcome result) (lists rows.old cols.old sads.old)
        (lists rows.new cols.new sads.new) }
{
    let p = Planes {
        plane,
        stride,
        width,
        height,
        source,
        source_stride,
    };
    let macroblocks = checked(p, version, rows, cols, sads)?;
    if low_allowance(allowance, macroblocks) {
        return Err(AllowanceRefusal::LowAllowance);
    }
    let comparisons = search_within(
        p,
        allowance,
        version,
        macroblocks as usize,
        rows,
        cols,
        sads,
    );
    Ok(PictureWork {
        macroblocks,
        comparisons,
    })
}
