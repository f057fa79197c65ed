// Vectors in eighths, and which filter rows a frame uses: RFC 6386 section 18.
ghost use Rattle.std.specs.Prelude.{◌≡◌};
ghost use Rattle.prediction.specs.Vector.{doubled, stored_mv, whole_of, fraction_of};
ghost use Rattle.prediction.specs.Filter.{filter_set_of};

use crate::motion_vector::Mv;

// Twice a component, wrapping: 32767 gives -2.
fn double(v: i16) -> i16
    ensures { result ≡ doubled v }
{
    v.wrapping_mul(2)
}

// The vector in eighths.
pub fn stored_luma_mv(mv: Mv) -> Mv
    ensures { result ≡ stored_mv mv }
{
    Mv {
        row: double(mv.row),
        col: double(mv.col),
    }
}

// A component in eighths divided by 8, rounded down.
pub fn whole_offset(v: i16) -> i32
    ensures { result ≡ whole_of v }
{
    (v as i32) >> 3
}

// What the whole offset leaves, 0 to 7; 32768, a multiple of 8, keeps the sum from falling below 0.
pub fn fraction(v: i16) -> u32
    ensures { result ≡ fraction_of v }
{
    (((v as i32) + 32768) as u32) % 8
}

// Which rows a frame uses.
#[derive(Clone, Copy, Debug, PartialEq, Eq)]
pub enum FilterSet {
    Sixtap,
    Bilinear,
}

// Six-tap for version 0, bilinear for every other.
pub fn filter_set_for_version(version: u8) -> FilterSet
    ensures { result ≡ filter_set_of version }
{
    match version {
        0 => FilterSet::Sixtap,
        _ => FilterSet::Bilinear,
    }
}
