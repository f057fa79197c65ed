// The calls that are replayed.
use std::fmt;
use stored::tally::Fault;

#[derive(Clone, Copy, Debug, PartialEq, Eq)]
pub enum Kind {
    BlockSad,
    WholeSad,
    AnySad,
    Diamond,
    Half,
    Quarter,
    BlockSadUpTo,
}

pub(crate) const KINDS: [Kind; 7] = [
    Kind::BlockSad,
    Kind::WholeSad,
    Kind::AnySad,
    Kind::Diamond,
    Kind::Half,
    Kind::Quarter,
    Kind::BlockSadUpTo,
];

impl TryFrom<usize> for Kind {
    type Error = Fault;

    fn try_from(number: usize) -> Result<Kind, Fault> {
        match number {
            1 => Ok(Kind::BlockSad),
            2 => Ok(Kind::WholeSad),
            3 => Ok(Kind::AnySad),
            4 => Ok(Kind::Diamond),
            5 => Ok(Kind::Half),
            6 => Ok(Kind::Quarter),
            7 => Ok(Kind::BlockSadUpTo),
            _ => Err(Fault::UnknownKind),
        }
    }
}

impl fmt::Display for Kind {
    fn fmt<W: fmt::Write>(&self, f: &mut fmt::Formatter<W>) -> fmt::Result {
        f.write_str(match self {
            Kind::BlockSad => "block_sad_16x16",
            Kind::WholeSad => "mb_luma_sad_at_whole_mv",
            Kind::AnySad => "mb_luma_sad_at_mv",
            Kind::Diamond => "small_diamond_search_luma",
            Kind::Half => "half_pixel_refine_luma",
            Kind::Quarter => "quarter_pixel_refine_luma",
            Kind::BlockSadUpTo => "block_sad_16x16_up_to",
        })
    }
}
