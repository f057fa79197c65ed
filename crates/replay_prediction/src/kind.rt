// The calls that are replayed.
use std::fmt;
use stored::tally::Fault;

#[derive(Clone, Copy, Debug, PartialEq, Eq)]
pub enum Kind {
    WholePixel,
    Halo,
    Sixtap,
    Interp,
    Clamp,
    AbsDiff,
    StoredMv,
    WholeOffset,
    Fraction,
    FilterSet,
    Bilinear,
}

pub(crate) const KINDS: [Kind; 11] = [
    Kind::WholePixel,
    Kind::Halo,
    Kind::Sixtap,
    Kind::Interp,
    Kind::Clamp,
    Kind::AbsDiff,
    Kind::StoredMv,
    Kind::WholeOffset,
    Kind::Fraction,
    Kind::FilterSet,
    Kind::Bilinear,
];

impl TryFrom<usize> for Kind {
    type Error = Fault;

    fn try_from(number: usize) -> Result<Kind, Fault> {
        match number {
            1 => Ok(Kind::WholePixel),
            2 => Ok(Kind::Halo),
            3 => Ok(Kind::Sixtap),
            4 => Ok(Kind::Interp),
            5 => Ok(Kind::Clamp),
            6 => Ok(Kind::AbsDiff),
            7 => Ok(Kind::StoredMv),
            8 => Ok(Kind::WholeOffset),
            9 => Ok(Kind::Fraction),
            10 => Ok(Kind::FilterSet),
            11 => Ok(Kind::Bilinear),
            _ => Err(Fault::UnknownKind),
        }
    }
}

impl fmt::Display for Kind {
    fn fmt<W: fmt::Write>(&self, f: &mut fmt::Formatter<W>) -> fmt::Result {
        f.write_str(match self {
            Kind::WholePixel => "fetch_luma_mb_whole_pixel",
            Kind::Halo => "fetch_luma_mb_halo",
            Kind::Sixtap => "sixtap_mb_luma",
            Kind::Interp => "interp",
            Kind::Clamp => "clamp255",
            Kind::AbsDiff => "abs_diff",
            Kind::StoredMv => "stored_luma_mv",
            Kind::WholeOffset => "whole_offset",
            Kind::Fraction => "fraction",
            Kind::FilterSet => "filter_set_for_version",
            Kind::Bilinear => "bilinear_mb_luma",
        })
    }
}
