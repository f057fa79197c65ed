// What is replayed.
use std::fmt;
use stored::tally::Fault;

#[derive(Clone, Copy, Debug, PartialEq, Eq)]
pub enum Kind {
    NoFrames,
    OneFrame,
    StrengthZero,
    Windows,
    Refusals,
    Configurations,
    Caps,
    HalfSamples,
    ThreePlanes,
    ThreePlanesHalfSamples,
}

pub(crate) const KINDS: [Kind; 10] = [
    Kind::NoFrames,
    Kind::OneFrame,
    Kind::StrengthZero,
    Kind::Windows,
    Kind::Refusals,
    Kind::Configurations,
    Kind::Caps,
    Kind::HalfSamples,
    Kind::ThreePlanes,
    Kind::ThreePlanesHalfSamples,
];

impl TryFrom<usize> for Kind {
    type Error = Fault;

    fn try_from(number: usize) -> Result<Kind, Fault> {
        match number {
            1 => Ok(Kind::NoFrames),
            2 => Ok(Kind::OneFrame),
            3 => Ok(Kind::StrengthZero),
            4 => Ok(Kind::Windows),
            5 => Ok(Kind::Refusals),
            6 => Ok(Kind::Configurations),
            7 => Ok(Kind::Caps),
            8 => Ok(Kind::HalfSamples),
            9 => Ok(Kind::ThreePlanes),
            10 => Ok(Kind::ThreePlanesHalfSamples),
            _ => Err(Fault::UnknownKind),
        }
    }
}

impl fmt::Display for Kind {
    fn fmt<W: fmt::Write>(&self, f: &mut fmt::Formatter<W>) -> fmt::Result {
        f.write_str(match self {
            Kind::NoFrames => "no frames",
            Kind::OneFrame => "one frame",
            Kind::StrengthZero => "strength 0",
            Kind::Windows => "windows",
            Kind::Refusals => "refusals",
            Kind::Configurations => "configurations",
            Kind::Caps => "caps",
            Kind::HalfSamples => "half samples",
            Kind::ThreePlanes => "three planes",
            Kind::ThreePlanesHalfSamples => "three planes, half samples",
        })
    }
}
