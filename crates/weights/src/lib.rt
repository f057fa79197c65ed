// The denoiser's configuration and weight curves, and how far it can move a sample.
#![tactic(auto)]

mod table;

ghost use Rattle.std.specs.Prelude.{◌≡◌, ◌+◌, ◌*◌, ◌≤◌, ◌<◌, min};
ghost use Rattle.laws.specs.Tabulate.{tabulate};
ghost use Rattle.laws.specs.Largest.{nearest};
ghost use Rattle.weights.specs.Weights.{scale, weight_of, weight_read};
ghost use Rattle.weights.specs.Blend.{distance_bound};

use table::WEIGHTS;

// How strongly other frames are blended: 0 only crops the centre, 7 to 255 are read as 6.
#[derive(Clone, Copy, Debug, PartialEq, Eq)]
pub struct ArnrConfig {
    pub strength: u8,
}

impl ArnrConfig {
    // The largest strength that differs from those below it.
    pub const MAX_STRENGTH: u8 = 6;

    // Stores at most 6.
    pub fn new(strength: u8) -> ArnrConfig
        ensures { result.strength ≡ min strength 6 }
    {
        ArnrConfig {
            strength: strength.min(ArnrConfig::MAX_STRENGTH),
        }
    }

    // Stores any byte.
    pub fn with_strength(self, v: u8) -> ArnrConfig
        ensures { result.strength ≡ v }
    {
        ArnrConfig { strength: v }
    }
}

// Strength 3.
impl Default for ArnrConfig {
    ghost is_default = { λ c. c.strength ≡ 3 };

    fn default() -> ArnrConfig {
        ArnrConfig { strength: 3 }
    }
}

// The scale at a strength byte: 7 to 255 are read as 6.
pub fn scale_of(strength: u8) -> u32
    ensures { result ≡ scale (min strength 6) }
{
    8 << strength.min(6)
}

// The curve of strength row + 1.
fn row_of(row: usize) -> [u32; 256]
    requires { row < 6 }
    ensures { result ≡ tabulate 256 (weight_of (row + 1)) }
{
    WEIGHTS[row]
}

// The weights at a strength byte: none at 0; 7 to 255 are read as 6.
pub fn curve(strength: u8) -> [u32; 256]
    ensures { result ≡ tabulate 256 (weight_read strength) }
{
    match strength {
        0 => [0; 256],
        1..=6 => row_of(strength as usize - 1),
        _ => row_of(5),
    }
}

// The weight of one difference.
pub fn weight(strength: u8, e: u8) -> u32
    ensures { result ≡ weight_read strength e }
{
    let weights = curve(strength);
    weights[e as usize]
}

// How far n frames with the weight w at the difference e move a sample, rounded to nearest with halves up.
fn moved_by(n: u64, e: u64, w: u64) -> u64
    requires { (n < 4294967296) × (e < 256) × (w ≤ 16) }
    ensures { (result ≡ nearest (n * (e * w)) (16 + n * w)) × (result ≤ e) }
{
    let total = 16 + n * w;
    (2 * (n * (e * w)) + total) / (2 * total)
}

// The distance bound of n other frames: no denoised sample lies farther from the centre sample.
pub fn distance_bound(n: u32, strength: u8) -> u32
    ensures { result ≡ distance_bound (weight_read strength) n }
{
    let shares = curve(strength);
    let mut bound: u64 = 0;
    for e in 0..256 {
        bound = bound.max(moved_by(n as u64, e as u64, shares[e] as u64));
    }
    bound as u32
}
