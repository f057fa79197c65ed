// The calls that are replayed.
use std::fmt;
use stored::tally::Fault;

#[derive(Clone, Copy, Debug, PartialEq, Eq)]
pub enum Kind {
    Limit,
    Allowance,
}

pub(crate) const KINDS: [Kind; 2] = [Kind::Limit, Kind::Allowance];

impl TryFrom<usize> for Kind {
    type Error = Fault;

    fn try_from(number: usize) -> Result<Kind, Fault> {
        match number {
            1 => Ok(Kind::Limit),
            2 => Ok(Kind::Allowance),
            _ => Err(Fault::UnknownKind),
        }
    }
}

impl fmt::Display for Kind {
    fn fmt<W: fmt::Write>(&self, f: &mut fmt::Formatter<W>) -> fmt::Result {
        f.write_str(match self {
            Kind::Limit => "search_picture_luma",
            Kind::Allowance => "search_picture_luma_within",
        })
    }
}
