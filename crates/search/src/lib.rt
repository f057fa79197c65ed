// What the definitions of the SADs and of the luma motion searches speak of; the code that is held to them stands in the
// crate `motion_search`.
#![tactic(auto)]

pub mod allowance;
pub mod picture;

ghost use Rattle.std.specs.Prelude.{◌≡◌};
ghost use Rattle.search.specs.declared.SearchRefusal.TheVariants.{Place};

use prediction::motion_vector::Mv;

// The numbers of a reference plane and of one macroblock.
#[derive(Clone, Copy, Debug, PartialEq, Eq)]
pub struct Site {
    pub stride: usize,
    pub width: usize,
    pub height: usize,
    pub column: usize,
    pub row: usize,
}

// A vector and its SAD.
#[derive(Clone, Copy, Debug, PartialEq, Eq)]
pub struct SearchResult {
    pub mv: Mv,
    pub sad: u32,
}

// A vector, its SAD, the SADs computed (the first included) and the rounds made (the last without a move included).
#[derive(Clone, Copy, Debug, PartialEq, Eq)]
pub struct DiamondResult {
    pub mv: Mv,
    pub sad: u32,
    pub sads: u32,
    pub rounds: u32,
}

// Why a macroblock of a plane is refused.
#[derive(Clone, Copy, Debug, PartialEq, Eq)]
pub enum PlaceRefusal {
    BadSize,
    ShortPlane,
    BadMacroblock,
}

// Why a SAD or a refinement at a vector is refused.
#[derive(Clone, Copy, Debug, PartialEq, Eq)]
pub enum SearchRefusal {
    Place(PlaceRefusal),
    OutOfRange,
    OffGrid,
    BadVersion,
}

impl From<PlaceRefusal> for SearchRefusal {
    ghost from_gives = { λ p e. e ≡ Place p };

    fn from(p: PlaceRefusal) -> SearchRefusal {
        SearchRefusal::Place(p)
    }
}
