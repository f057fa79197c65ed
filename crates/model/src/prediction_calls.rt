// Samples, vectors and filters for C.
ghost use Rattle.std.specs.Prelude.{◌≡◌, get_or};
ghost use Rattle.laws.specs.Outcome.{first_of};
ghost use Rattle.prediction.specs.Samples.{clamped255, distance};
ghost use Rattle.prediction.specs.Vector.{stored_mv, whole_of, fraction_of};
ghost use Rattle.prediction.specs.Filter.{filter_set_of, sixtap, bilinear, filtered};
ghost use Rattle.prediction.specs.Prediction.{filtered_mb};
ghost use Rattle.filters.specs.Refusals.{selector_lines, filter_lines};
ghost use Rattle.numbers.specs.Answers.{filter_number, mv_of, vector_numbers, sample_numbers, Fills};

use crate::filled::store;
use numbers::answers::{Sample, Status, Vector};
use prediction::motion_vector::Mv;

pub fn vp8model_clamp255(v: i32) -> u8
    ensures { result ≡ clamped255 v }
{
    prediction::inverse_transform::clamp255(v)
}

pub fn vp8model_abs_diff(a: u8, b: u8) -> u8
    ensures { result ≡ distance a b }
{
    prediction::inverse_transform::abs_diff(a, b)
}

pub fn vp8model_stored_luma_mv(row: i16, col: i16) -> Vector
    ensures { result ≡ vector_numbers (stored_mv (mv_of row col)) }
{
    numbers::vector_numbers(prediction::motion_comp::stored_luma_mv(Mv { row, col }))
}

pub fn vp8model_whole_offset(v: i16) -> i32
    ensures { result ≡ whole_of v }
{
    prediction::motion_comp::whole_offset(v)
}

pub fn vp8model_fraction(v: i16) -> u32
    ensures { result ≡ fraction_of v }
{
    prediction::motion_comp::fraction(v)
}

pub fn vp8model_filter_set_for_version(version: u8) -> u32
    ensures { result ≡ filter_number (filter_set_of version) }
{
    numbers::filter_number(prediction::motion_comp::filter_set_for_version(version))
}

pub fn vp8model_interp(selector: u32, support: &[u8; 6]) -> Sample
    ensures { result ≡ sample_numbers (first_of (selector_lines selector) (filtered (sixtap selector) (λ k. get_or support.now k 0))) }
{
    numbers::sample_numbers(sixtap::interp(selector, *support))
}

pub fn vp8model_sixtap_mb_luma(halo: &[u8; 441], mx: u32, my: u32, block: &mut [u8; 256]) -> Status
    ensures { Fills (filter_lines mx my) (filtered_mb sixtap mx my halo.now) block.old result block.new }
{
    store(sixtap::sixtap_mb_luma(*halo, mx, my), block)
}

pub fn vp8model_bilinear_mb_luma(
    halo: &[u8; 441],
    mx: u32,
    my: u32,
    block: &mut [u8; 256],
) -> Status
    ensures { Fills (filter_lines mx my) (filtered_mb bilinear mx my halo.now) block.old result block.new }
{
    store(bilinear::bilinear_mb_luma(*halo, mx, my), block)
}
