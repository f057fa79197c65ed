// The six-tap filter of a macroblock: RFC 6386 section 18.3.
#![tactic(auto)]

ghost use Rattle.std.specs.Prelude.{◌≡◌, List, ℕ, ◌+◌, ◌-◌, ◌*◌, ◌/◌, ◌≤◌, ◌<◌, min, length, get_or};
ghost use Rattle.laws.specs.Signed.{above, below};
ghost use Rattle.laws.specs.Outcome.{first_of};
ghost use Rattle.laws.specs.Tabulate.{tabulate};
ghost use Rattle.laws.specs.Internal.{Filling};
ghost use Rattle.prediction.specs.Filter.{sixtap, filtered};
ghost use Rattle.prediction.specs.Prediction.{filtered_mb};
ghost use Rattle.filters.specs.Refusals.{filter_lines, selector_lines, FilterIs};
ghost use Rattle.filters.specs.Internal.{window, across_of, down_of};
ghost use Rattle.sixtap.specs.Refusals.{sample_outcome};
ghost use Rattle.sixtap.specs.Internal.{Row, sample_of, Gives, across, down};

mod taps;

use filters::{BadSelector, FilteredMb};
use prediction::inverse_transform::clamp255;
use taps::Taps;

// The six-tap rows, by selector.
pub const SIXTAP_FILTERS: [[i32; 6]; 8] = [
    [0, 0, 128, 0, 0, 0],
    [0, -6, 123, 12, -1, 0],
    [2, -11, 108, 36, -8, 1],
    [0, -9, 93, 50, -6, 0],
    [3, -16, 77, 77, -16, 3],
    [0, -6, 50, 93, -9, 0],
    [1, -8, 36, 108, -11, 2],
    [0, -1, 12, 123, -6, 0],
];

// The size of a tap that is added, which is not negative. Each sign has its function, so that a table with another sign is refused (the edit
// `added_for_taken`).
fn added_size(t: i32) -> u16
    requires { (above t ≤ 128) × (below t ≡ 0) }
    ensures { result ≡ above t }
{
    t as u16
}

// The size of a tap that is taken away, which is not positive. By a branch: with a plain difference `interp` takes twice as long at the odd
// selectors too (docs/SPEED.md).
fn taken_size(t: i32) -> u16
    requires { (below t ≤ 128) × (above t ≡ 0) }
    ensures { result ≡ below t }
{
    if t < 0 { (0 - t) as u16 } else { 0 }
}

// The row of a selector.
fn row(s: usize) -> Taps
    requires { s < 8 }
    ensures { Row s result }
{
    let t = SIXTAP_FILTERS[s];
    let a = added_size(t[0]);
    let b = taken_size(t[1]);
    let c = added_size(t[2]);
    let d = added_size(t[3]);
    let e = taken_size(t[4]);
    let f = added_size(t[5]);
    Taps { a, b, c, d, e, f }
}

// A tap times a sample.
fn weighed(t: u16, x: u8) -> u16
    requires { t ≤ 160 }
    ensures { (result ≡ t * x) × (result ≤ 255 * t) }
{
    t * (x as u16)
}

// p less n, plus 64, divided by 128 rounding down, clamped to 0..255. In 16 bits up to the clamp, which the compiler does side by side:
// 8192 more keeps the difference from falling below 0, and is taken away again, halved, once the half fits a signed number.
fn rounded(p: u16, n: u16) -> u8
    requires { (p ≤ 40800) × (n ≤ 8160) }
    ensures { result ≡ min ((p + 64 - n) / 128) 255 }
{
    let half = (p + 8256 - n) / 2;
    clamp255((((half as i16) - 4096) >> 6) as i32)
}

// One filtered sample.
fn filter(t: Taps, support: [u8; 6]) -> u8
    ensures { result ≡ sample_of t support }
{
    let p = weighed(t.a, support[0])
        + weighed(t.c, support[2])
        + weighed(t.d, support[3])
        + weighed(t.f, support[5]);
    let n = weighed(t.b, support[1]) + weighed(t.e, support[4]);
    rounded(p, n)
}

// One sample filtered by the six-tap row of a selector.
pub fn interp(selector: u32, support: [u8; 6]) -> Result<u8, BadSelector>
    ensures { sample_outcome result ≡ first_of (selector_lines selector) (filtered (sixtap selector) (λ k. get_or support k 0)) }
{
    if 7 < selector {
        return Err(BadSelector);
    }
    Ok(filter(row(selector as usize), support))
}

// The same by row 4, which stands halfway between the third sample and the fourth: a call for one row, which the compiler does side by side.
pub fn halfway(support: [u8; 6]) -> u8
    ensures { result ≡ filtered (sixtap 4) (λ k. get_or support k 0) }
{
    filter(row(4), support)
}

// Six samples, the first at `at`, each `step` past the one before. Not public: no public function has a `requires`, so `arnr` has its own.
fn gather(a: &[u8], at: usize, step: usize) -> [u8; 6]
    requires { (at + 5 * step < length a.now) × (step ≤ 16) }
    ensures { result ≡ window a.now at step }
{
    [
        a[at],
        a[at + step],
        a[at + 2 * step],
        a[at + 3 * step],
        a[at + 4 * step],
        a[at + 5 * step],
    ]
}

// Row r of the horizontal pass. A function of its own: with both loops in one the compiler copies halo and rows once more, and a macroblock
// takes 1.1 to 1.2 of its time (tried).
fn horiz_row<F: Fn([u8; 6]) -> u8>(out: &mut [u8; 336], halo: &[u8; 441], sample: &F, r: usize)
    requires row { (r < 21) × (length halo.now ≡ 441) }
    requires callable { F.IsAlwaysCallable sample.now }
    requires filling { (g : List ℕ → ℕ) → Gives (F.post sample.now) g → Filling (across g halo.now) 336 out.old (r * 16) }
    ensures { (g : List ℕ → ℕ) → Gives (F.post sample.now) g → Filling (across g halo.now) 336 out.new (r * 16 + 16) }
{
    for k in 0..16 {
        out[r * 16 + k] = sample(gather(halo, r * 21 + k, 1));
    }
}

// The horizontal pass: 21 rows of 16, each sample as `sample` makes it of six.
fn sixtap_horiz<F: Fn([u8; 6]) -> u8>(halo: [u8; 441], sample: F) -> [u8; 336]
    requires { F.IsAlwaysCallable sample }
    ensures { (g : List ℕ → ℕ) → Gives (F.post sample) g → result ≡ tabulate 336 (across g halo) }
{
    let mut out = [0u8; 336];
    for r in 0..21 {
        horiz_row(&mut out, &halo, &sample, r);
    }
    out
}

// The vertical pass: 16 rows of 16.
fn sixtap_vert<F: Fn([u8; 6]) -> u8>(rows: [u8; 336], sample: F) -> [u8; 256]
    requires { F.IsAlwaysCallable sample }
    ensures { (g : List ℕ → ℕ) → Gives (F.post sample) g → result ≡ tabulate 256 (down g rows) }
{
    let mut out = [0u8; 256];
    for i in 0..256 {
        out[i] = sample(gather(&rows, i, 16));
    }
    out
}

// The third of six samples, as it is: what row 0 makes of them.
fn third(support: [u8; 6]) -> u8
    ensures { result ≡ get_or support 2 0 }
{
    support[2]
}

// The horizontal pass of a selector; with selector 0 it copies.
fn horizontal(halo: [u8; 441], mx: usize) -> [u8; 336]
    requires { mx < 8 }
    ensures { result ≡ tabulate 336 (across_of sixtap mx halo) }
{
    if mx == 0 {
        return sixtap_horiz(halo, third);
    }
    let t = row(mx);
    let sample = |support|
        ensures { result ≡ sample_of t support }
    { filter(t, support) };
    sixtap_horiz(halo, sample)
}

// The vertical pass of a selector; with selector 0 it copies.
fn vertical(rows: [u8; 336], my: usize) -> [u8; 256]
    requires { my < 8 }
    ensures { result ≡ tabulate 256 (down_of sixtap my rows) }
{
    if my == 0 {
        return sixtap_vert(rows, third);
    }
    let t = row(my);
    let sample = |support|
        ensures { result ≡ sample_of t support }
    { filter(t, support) };
    sixtap_vert(rows, sample)
}

// The macroblock filtered from its halo, the horizontal pass first.
pub fn sixtap_mb_luma(halo: [u8; 441], mx: u32, my: u32) -> FilteredMb
    ensures { FilterIs (first_of (filter_lines mx my) (filtered_mb sixtap mx my halo)) 256 result.answer result.block }
{
    if 7 < mx || 7 < my {
        return FilteredMb {
            answer: Err(BadSelector),
            block: [0u8; 256],
        };
    }
    let rows = horizontal(halo, mx as usize);
    let block = vertical(rows, my as usize);
    FilteredMb {
        answer: Ok(()),
        block,
    }
}
