// What the private functions of the searches have in common.
ghost use Rattle.std.specs.Prelude.{◌≡◌, ◌<◌, ℕ, get_or};
ghost use Rattle.search.specs.Internal.{Ready};

use search::Site;

// A macroblock that refusals 8 to 10 let pass: its reference plane, its site there and its source block. That is a slice, since a lent
// array tells the prover nothing of its bytes: with `[u8; 256]` the proof of `src_bytes` did not close.
#[derive(Clone, Copy)]
pub(crate) struct Target<'a> {
    pub(crate) plane: &'a [u8],
    pub(crate) site: Site,
    pub(crate) src: &'a [u8],
    ghost ready: { Ready plane.now site src.now },
    ghost plane_bytes: { (k : ℕ) → get_or plane.now k 0 < 256 },
    ghost src_bytes: { (k : ℕ) → get_or src.now k 0 < 256 },
}

impl<'a> Target<'a> {
    pub(crate) fn new(plane: &'a [u8], site: Site, src: &'a [u8]) -> Target<'a>
        requires { Ready plane.now site src.now }
        ensures plane_is { result.plane.now ≡ plane.now }
        ensures site_is { result.site ≡ site }
        ensures src_is { result.src.now ≡ src.now }
    {
        Target { plane, site, src }
    }
}
