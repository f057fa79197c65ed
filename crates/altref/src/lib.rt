// The builders over a lent slice of frame records: their numbers are taken into an array, and handed to the builders over numbers.
#![tactic(auto)]

ghost use Rattle.std.specs.Prelude.{◌≡◌, ◌≤◌, length};
ghost use Rattle.denoiser.specs.Chroma.{rule_of};
ghost use Rattle.denoiser.specs.Build.{asked, BuildBy, BuildIs};
ghost use Rattle.altref.specs.Records.{numbers_of, flat};
ghost use Rattle.altref.specs.Internal.{max_frames, filled, taken_of, OverArray, OverArrayBy};

use denoiser::{Built, Choice};
use weights::ArnrConfig;
use window::{Frame, MAX_FRAMES, NUMBERS_PER_FRAME, Refusal};

// The numbers of the most frames that are not refused.
const ARRAY_SIZE: usize = MAX_FRAMES * NUMBERS_PER_FRAME;

// The numbers of one frame, in their order.
fn numbers_of(f: Frame) -> [u32; NUMBERS_PER_FRAME]
    ensures { result ≡ numbers_of f }
{
    [
        f.width,
        f.height,
        f.y,
        f.u,
        f.v,
        f.luma_stride,
        f.chroma_stride,
        f.cap,
    ]
}

// The numbers of the frames, one frame after the other; zeros follow.
fn flatten(frames: &[Frame]) -> [u32; ARRAY_SIZE]
    requires { length frames.now ≤ max_frames }
    ensures { result ≡ filled frames.now (length frames.now) }
{
    let mut numbers = [0; ARRAY_SIZE];
    for i in 0..frames.len() {
        let at = i * NUMBERS_PER_FRAME;
        numbers[at..at + NUMBERS_PER_FRAME].copy_from_slice(&numbers_of(frames[i]));
    }
    numbers
}

// How many frames go into the array: none where there are too many.
fn taken(count: usize) -> usize
    ensures { result ≡ taken_of count }
{
    if count <= MAX_FRAMES { count } else { 0 }
}

// A builder, by its choice, over an array that begins with the numbers of `count` frames, where these are not too many.
// The centre is tested first and the count second, both before the array is read. The count stands beside the array, since it may
// exceed what the array holds (`OverArrayBy`; the edits `taken_for_count` and `taken_for_count_by`).
fn core_by(
    bytes: &[u8],
    numbers: &[u32; ARRAY_SIZE],
    count: usize,
    centre: usize,
    config: ArnrConfig,
    choice: Choice,
    output: &mut [u8],
    sums: &mut [u32],
    weights: &mut [u32],
) -> Result<Built, Refusal>
    ensures { OverArrayBy (rule_of choice) bytes.now numbers.now count centre config.strength (record {
      output = output.old;
      sums = sums.old;
      weights = weights.old;
    }) result (record {
      output = output.new;
      sums = sums.new;
      weights = weights.new;
    }) }
{
    if count <= centre {
        return Err(Refusal::NoCentre);
    }
    if MAX_FRAMES < count {
        return Err(Refusal::TooManyFrames);
    }
    let n = count * NUMBERS_PER_FRAME;
    arnr::build_by(
        bytes,
        &numbers[..n],
        centre,
        config,
        choice,
        output,
        sums,
        weights,
    )
}

// The first builder over such an array. The edit `filters_too` names this function.
fn core_of(
    bytes: &[u8],
    numbers: &[u32; ARRAY_SIZE],
    count: usize,
    centre: usize,
    config: ArnrConfig,
    output: &mut [u8],
    sums: &mut [u32],
    weights: &mut [u32],
) -> Result<Built, Refusal>
    ensures { OverArray bytes.now numbers.now count centre config.strength (record {
      output = output.old;
      sums = sums.old;
      weights = weights.old;
    }) result (record {
      output = output.new;
      sums = sums.new;
      weights = weights.new;
    }) }
{
    core_by(
        bytes,
        numbers,
        count,
        centre,
        config,
        Choice::WHOLE,
        output,
        sums,
        weights,
    )
}

// The builder over frame records.
pub fn build_arnr_altref(
    bytes: &[u8],
    frames: &[Frame],
    centre: usize,
    config: ArnrConfig,
    output: &mut [u8],
    sums: &mut [u32],
    weights: &mut [u32],
) -> Result<Built, Refusal>
    ensures { BuildIs (record {
      request = asked bytes.now (flat frames.now) centre config.strength;
      lent = record {
        output = output.old;
        sums = sums.old;
        weights = weights.old;
      };
    }) result (record {
      output = output.new;
      sums = sums.new;
      weights = weights.new;
    }) }
{
    let count = frames.len();
    let numbers = flatten(&frames[..taken(count)]);
    core_of(
        bytes, &numbers, count, centre, config, output, sums, weights,
    )
}

// Every builder, by its choice, over frame records.
pub fn build_altref_by(
    bytes: &[u8],
    frames: &[Frame],
    centre: usize,
    config: ArnrConfig,
    choice: Choice,
    output: &mut [u8],
    sums: &mut [u32],
    weights: &mut [u32],
) -> Result<Built, Refusal>
    ensures { BuildBy (rule_of choice) (record {
      request = asked bytes.now (flat frames.now) centre config.strength;
      lent = record { output = output.old; sums = sums.old; weights = weights.old };
    }) result (record {
      output = output.new;
      sums = sums.new;
      weights = weights.new;
    }) }
{
    let given = frames.len();
    let array = flatten(&frames[..taken(given)]);
    core_by(
        bytes, &array, given, centre, config, choice, output, sums, weights,
    )
}
