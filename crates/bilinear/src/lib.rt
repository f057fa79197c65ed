// The bilinear filter of a macroblock: RFC 6386 section 18.3. The horizontal pass makes the rows 2 to 18 of the halo's 21: with two taps
// the vertical one reads no others.
#![tactic(auto)]

ghost use Rattle.std.specs.Prelude.{◌≡◌, ◌+◌, ◌*◌, ◌≤◌, ◌<◌, min, length};
ghost use Rattle.laws.specs.Outcome.{first_of};
ghost use Rattle.laws.specs.Tabulate.{tabulate};
ghost use Rattle.prediction.specs.Filter.{bilinear};
ghost use Rattle.prediction.specs.Prediction.{filtered_mb};
ghost use Rattle.filters.specs.Refusals.{filter_lines, FilterIs};
ghost use Rattle.filters.specs.Internal.{inner_across, inner_down};
ghost use Rattle.bilinear.specs.Internal.{mean_of, columns_of, bytes_of, weighed_of, Copying};

use filters::{BadSelector, FilteredMb};

// One filtered sample: the sample and the next one weighed by eighths, the paper's sum divided by 16 throughout.
fn eighths(s: u16, x: u8, y: u8) -> u8
    requires { s ≤ 7 }
    ensures { result ≡ mean_of s x y }
{
    (((8 - s) * (x as u16) + s * (y as u16) + 4) / 8) as u8
}

// A sample as it is, which is at most 255: what a proof knows of an array's element it knows by a call alone (tried without).
fn kept(x: u8) -> u8
    ensures { (result ≡ x) × (result ≡ min x 255) }
{
    x
}

// Row r of `columns`. A function of its own: with both loops in one a macroblock takes 1.1 to 1.6 of its time (tried).
fn copy_row(out: &mut [u8; 272], halo: &[u8; 441], right: usize, r: usize)
    requires { (r < 17) × (right ≤ 1) × (length halo.now ≡ 441) × Copying right halo.now out.old (r * 16) }
    ensures { Copying right halo.now out.new (r * 16 + 16) }
{
    for k in 0..16 {
        out[r * 16 + k] = kept(halo[r * 21 + k + 44 + right]);
    }
}

// The macroblock's samples with the row below it, 17 rows of 16, or those one column further right.
fn columns(halo: [u8; 441], right: usize) -> [u8; 272]
    requires { right ≤ 1 }
    ensures { (result ≡ tabulate 272 (columns_of right halo)) × (result ≡ tabulate 272 (bytes_of right halo)) }
{
    let mut out = [0u8; 272];
    for r in 0..17 {
        copy_row(&mut out, &halo, right, r);
    }
    out
}

// A pass: each sample and the one `at` further in `next`, weighed. In one loop: of sixteen samples a turn the compiler would make columns
// of eight (docs/SPEED.md).
fn weighed<const N: usize>(samples: [u8; 272], next: [u8; 272], at: usize, s: u16) -> [u8; N]
    requires selector { s ≤ 7 }
    requires inside { N + at ≤ 272 }
    ensures { result ≡ tabulate N (weighed_of s at samples next) }
{
    let mut out = [0u8; N];
    for i in 0..N {
        out[i] = eighths(s, samples[i], next[i + at]);
    }
    out
}

// The vertical pass where its selector is 0.
fn first_rows(rows: [u8; 272]) -> [u8; 256]
    ensures { result ≡ tabulate 256 (inner_down bilinear 0 rows) }
{
    let mut out = [0u8; 256];
    for i in 0..256 {
        out[i] = kept(rows[i]);
    }
    out
}

// The horizontal pass of a selector.
fn horizontal(halo: [u8; 441], mx: u32) -> [u8; 272]
    requires { mx ≤ 7 }
    ensures { result ≡ tabulate 272 (inner_across bilinear mx halo) }
{
    let samples = columns(halo, 0);
    if mx == 0 {
        return samples;
    }
    let next = columns(halo, 1);
    weighed(samples, next, 0, mx as u16)
}

// The vertical pass of a selector.
fn vertical(rows: [u8; 272], my: u32) -> [u8; 256]
    requires { my ≤ 7 }
    ensures { result ≡ tabulate 256 (inner_down bilinear my rows) }
{
    if my == 0 {
        return first_rows(rows);
    }
    weighed(rows, rows, 16, my as u16)
}

// The macroblock filtered from its halo, the horizontal pass first.
pub fn bilinear_mb_luma(halo: [u8; 441], mx: u32, my: u32) -> FilteredMb
    ensures { FilterIs (first_of (filter_lines mx my) (filtered_mb bilinear mx my halo)) 256 result.answer result.block }
{
    if 7 < mx || 7 < my {
        return FilteredMb {
            answer: Err(BadSelector),
            block: [0u8; 256],
        };
    }
    let rows = horizontal(halo, mx);
    let block = vertical(rows, my);
    FilteredMb {
        answer: Ok(()),
        block,
    }
}
