// What the definitions of a picture's search within an allowance speak of; the code stands in the crate `picture_search`.
ghost use Rattle.std.specs.Prelude.{◌≡◌};
ghost use Rattle.search.specs.declared.allowance.AllowanceRefusal.TheVariants.{Picture};

use crate::picture::PictureRefusal;

// The macroblocks searched, and the comparisons made for them: the SADs computed.
#[derive(Clone, Copy, Debug, PartialEq, Eq)]
pub struct PictureWork {
    pub macroblocks: u32,
    pub comparisons: u32,
}

// Why the search of a picture within an allowance is refused.
#[derive(Clone, Copy, Debug, PartialEq, Eq)]
pub enum AllowanceRefusal {
    Picture(PictureRefusal),
    LowAllowance,
}

impl From<PictureRefusal> for AllowanceRefusal {
    ghost from_gives = { λ p e. e ≡ Picture p };

    fn from(p: PictureRefusal) -> AllowanceRefusal {
        AllowanceRefusal::Picture(p)
    }
}
