// Samples: the one place where a clamp and an absolute difference are done, as the silicon's cells do them: by arithmetic alone.
// A word of 32 bits shifted right by 31 is its sign: -1 below 0, else 0. One plus the sign, as a factor, keeps a word that is not
// below 0 and turns every other into 0.
ghost use Rattle.std.specs.Prelude.{◌≡◌};
ghost use Rattle.prediction.specs.Samples.{clamped255, distance};

// v clamped to 0..255.
pub fn clamp255(v: i32) -> u8
    ensures { result ≡ clamped255 v }
{
    // the lower end: keep v, or 0 where its sign is set
    let kept = v * (1 + (v >> 31));
    // what it leaves of 255: its sign is set where it is above 255
    let room = 255 - kept;
    // the upper end: keep the room, or 0 where its sign is set, and take it from 255
    (255 - room * (1 + (room >> 31))) as u8
}

// The absolute value of one sample less the other.
pub fn abs_diff(a: u8, b: u8) -> u8
    ensures { result ≡ distance a b }
{
    // the difference, with a sign
    let d = (a as i32) - (b as i32);
    // its opposite: where either has its sign set, the other has not
    let e = 0 - d;
    // keep of each what has no sign set, else 0, and add the two
    (d * (1 + (d >> 31)) + e * (1 + (e >> 31))) as u8
}
