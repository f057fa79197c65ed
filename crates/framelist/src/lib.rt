// Frame records in an array: the first of them are lent to a builder over records.
#![tactic(auto)]

ghost use Rattle.std.specs.Prelude.{◌≡◌, min, take};
ghost use Rattle.window.specs.Frames.{frame_count};
ghost use Rattle.denoiser.specs.Chroma.{rule_of};
ghost use Rattle.denoiser.specs.Build.{asked, BuildBy};
ghost use Rattle.altref.specs.Records.{flat};
ghost use Rattle.framelist.specs.Lists.{array_records, Listed};

use denoiser::{Built, Choice};
use weights::ArnrConfig;
use window::{Frame, Refusal};

// The records of the array: one more than the most that are not refused.
pub const ARRAY_RECORDS: usize = 1025;

// A builder, by its choice, over the first `count` records, over all where there are no more. The array and its count are those of
// the call in docs/MODEL.md.
pub fn build_of(
    bytes: &[u8],
    frames: [Frame; ARRAY_RECORDS],
    count: usize,
    centre: usize,
    config: ArnrConfig,
    choice: Choice,
    output: &mut [u8],
    sums: &mut [u32],
    weights: &mut [u32],
) -> Result<Built, Refusal>
    ensures { BuildBy (rule_of choice) (record {
      request = asked bytes.now (flat (take count frames)) centre config.strength;
      lent = record {
        output = output.old;
        sums = sums.old;
        weights = weights.old;
      };
    }) result (record {
      output = output.new;
      sums = sums.new;
      weights = weights.new;
    }) }
{
    let n = count.min(ARRAY_RECORDS);
    altref::build_altref_by(
        bytes,
        &frames[..n],
        centre,
        config,
        choice,
        output,
        sums,
        weights,
    )
}

// The frames that are given as numbers, as records: as many as the array holds.
pub fn records_of(numbers: &[u32]) -> [Frame; ARRAY_RECORDS]
    ensures { Listed numbers.now (min (frame_count numbers.now) array_records) result }
{
    let n = window::frame_count(numbers).min(ARRAY_RECORDS);
    let zeros = Frame::default();
    let mut frames = [zeros; ARRAY_RECORDS];
    for g in 0..n {
        frames[g] = window::frame_at(numbers, g);
    }
    frames
}
