// The builder: the centre is cropped into the output; the other frames are blended in the working slices; the output is resolved from these.
ghost use Rattle.std.specs.Prelude.{◌≡◌, ℕ, ◌+◌, ◌-◌, ◌*◌, ◌/◌, ◌<◌, ◌≤◌, pos, length, get_or};
ghost use Rattle.prediction.specs.Plane.{sample_at};
ghost use Rattle.weights.specs.Blend.{denoised};
ghost use Rattle.window.specs.Layout.{side_of, offset_of, packed_size};
ghost use Rattle.denoiser.specs.Pictures.{picture_of};
ghost use Rattle.denoiser.specs.Window.{centre_at};
ghost use Rattle.denoiser.specs.Chroma.{rule_of};
ghost use Rattle.denoiser.specs.Build.{asked, scene_of};
ghost use Rattle.denoiser.specs.Internal.{Fits, Whole, Lent, Exact, Front, Stored, Shows, Ready, Legal, Blended, Made, plane_in};

use crate::accumulate::{self, Curve};
use denoiser::{Choice, PlaneNumbers};
use window::Frame;

// A row is copied: by a loop, of which the compiler knows that the two do not overlap; the slice's own copy takes longer (docs/SPEED.md).
fn copy_row(from: &[u8], to: &mut [u8])
    requires { length to.old ≡ length from.now }
    ensures { to.new ≡ from.now }
{
    for k in 0..from.len() {
        to[k] = from[k];
    }
}

// A plane is copied, packed, from `at` on.
fn crop_plane(bytes: &[u8], p: PlaneNumbers, at: usize, out: &mut [u8])
    requires fits { Fits bytes.now p }
    requires rows_in_bounds { at + p.columns * p.rows ≤ length out.old }
    ensures { Stored at p.columns p.rows (λ x y. sample_at (plane_in bytes.now p) (pos x) (pos y)) out.old
        out.new }
{
    for r in 0..p.rows {
        let from = p.start + r * p.stride;
        let to = at + r * p.columns;
        copy_row(&bytes[from..from + p.columns], &mut out[to..to + p.columns]);
    }
}

// A frame is copied, packed.
fn crop(bytes: &[u8], f: Frame, out: &mut [u8])
    requires whole { Whole bytes.now f }
    requires height_in_bounds { packed_size f.width f.height ≤ length out.old }
    ensures out_len_unchanged { length out.new ≡ length out.old }
    ensures shows { Shows f.width f.height (λ k x y. picture_of bytes.now f k (pos x) (pos y)) out.new }
{
    for k in 0..3 {
        let at = accumulate::offset_of(f.width as usize, f.height as usize, k);
        crop_plane(bytes, accumulate::plane_of(f, k), at, out);
    }
}

// The sums are 16 times the centre's samples, the weights 16.
fn seed(out: &[u8], sums: &mut [u32], weights: &mut [u32])
    requires exact { Exact (length out.now) out.now sums.old weights.old }
    ensures front { Front (length out.now) (λ k. 16 * get_or out.now k 0) sums.old sums.new }
    ensures front_2 { Front (length out.now) (λ k. 16) weights.old weights.new }
{
    for k in 0..out.len() {
        sums[k] = 16 * (out[k] as u32);
    }
    weights.fill(16);
}

// The samples of the output are those of the sums and the total weights.
fn resolve(out: &mut [u8], sums: &[u32], weights: &[u32])
    requires exact { Exact (length out.old) out.old sums.now weights.now }
    requires by_index { (k : ℕ) → k < length out.old → Ready (get_or sums.now k 0) (get_or weights.now k 0) }
    ensures { Front (length out.old) (λ k. denoised (get_or sums.now k 0) (get_or weights.now k 0)) out.old
        out.new }
{
    for k in 0..out.len() {
        let total = weights[k];
        out[k] = ((sums[k] + total / 2) / total) as u8;
    }
}

// P: the samples of all three planes. Not by `window`, whose `packed_size` is private: it asks for legal sides, and no public function asks for anything.
fn samples_in(w: usize, h: usize) -> usize
    requires { (w ≤ 16383) × (h ≤ 16383) }
    ensures { result ≡ packed_size w h }
{
    accumulate::offset_of(w, h, 2) + (w + 1) / 2 * ((h + 1) / 2)
}

// The other frames are blended with the centre, which stands packed in the output. The number of accepted blocks.
fn blend(
    bytes: &[u8],
    numbers: &[u32],
    centre: usize,
    strength: u8,
    choice: Choice,
    w: usize,
    h: usize,
    output: &mut [u8],
    sums: &mut [u32],
    weights: &mut [u32],
) -> u32
    requires legal { Legal (asked bytes.now numbers.now centre strength) w h }
    requires exact { Exact (packed_size w h) output.old sums.old weights.old }
    requires shows { Shows w h (centre_at (scene_of (asked bytes.now numbers.now centre strength))) output.old }
    ensures { Blended (rule_of choice) (asked bytes.now numbers.now centre strength) w h result (record {
      output = output.new;
      sums = sums.new;
      weights = weights.new;
    }) }
{
    let curve = Curve {
        at: weights::curve(strength),
    };
    seed(output, sums, weights);
    let count = window::frame_count(numbers);
    let accepted = accumulate::blend_frames(
        bytes, numbers, count, centre, w, h, choice, &curve, output, sums, weights,
    );
    resolve(output, sums, weights);
    accepted
}

// What an accepted call makes of w by h. The number of accepted blocks, 0 where the centre is only cropped.
pub(crate) fn make(
    bytes: &[u8],
    numbers: &[u32],
    centre: usize,
    strength: u8,
    choice: Choice,
    w: usize,
    h: usize,
    output: &mut [u8],
    sums: &mut [u32],
    weights: &mut [u32],
) -> u32
    requires legal { Legal (asked bytes.now numbers.now centre strength) w h }
    requires lent { Lent (packed_size w h) output.old sums.old weights.old }
    ensures { Made (rule_of choice) (asked bytes.now numbers.now centre strength) (record {
      output = output.old;
      sums = sums.old;
      weights = weights.old;
    }) result (record {
      output = output.new;
      sums = sums.new;
      weights = weights.new;
    }) }
{
    let n = samples_in(w, h);
    let f = window::frame_at(numbers, centre);
    crop(bytes, f, &mut output[..n]);
    if window::frame_count(numbers) == 1 || strength == 0 {
        return 0;
    }
    blend(
        bytes,
        numbers,
        centre,
        strength,
        choice,
        w,
        h,
        &mut output[..n],
        &mut sums[..n],
        &mut weights[..n],
    )
}
