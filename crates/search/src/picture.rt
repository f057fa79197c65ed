// What the definitions of the whole-picture search speak of; the code stands in the crate `picture_search`.
use prediction::motion_vector::Mv;

// A macroblock's last vector, its SAD, and the SADs computed on the way.
#[derive(Clone, Copy, Debug, PartialEq, Eq)]
pub struct SearchedMb {
    pub mv: Mv,
    pub sad: u32,
    pub sads: u32,
}

// Why the search of a picture is refused.
#[derive(Clone, Copy, Debug, PartialEq, Eq)]
pub enum PictureRefusal {
    BadSize,
    ShortPlane,
    ShortSource,
    ShortList,
    BadVersion,
}
