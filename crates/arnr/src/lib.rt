// Motion-compensated temporal filtering: a denoised picture from a window of frames.
#![tactic(auto)]

mod accumulate;
mod build;
mod half;
mod sad;
mod search;
mod three;

ghost use Rattle.denoiser.specs.Chroma.{rule_of};
ghost use Rattle.denoiser.specs.Build.{BuildBy, BuildIs, BuildHalf, BuildThree, asked};

use denoiser::{Built, Choice};
use weights::ArnrConfig;
use window::Refusal;

// Every builder: the checks, and what an accepted call makes by the choice.
pub fn build_by(
    bytes: &[u8],
    numbers: &[u32],
    centre: usize,
    config: ArnrConfig,
    choice: Choice,
    output: &mut [u8],
    sums: &mut [u32],
    weights: &mut [u32],
) -> Result<Built, Refusal>
    ensures { BuildBy (rule_of choice) (record {
      request = asked bytes.now numbers.now centre config.strength;
      lent = record {
        output = output.old;
        sums = sums.old;
        weights = weights.old;
      };
    }) result (record {
      output = output.new;
      sums = sums.new;
      weights = weights.new;
    }) }
{
    let size = window::check_build(
        bytes,
        numbers,
        centre,
        output.len(),
        sums.len(),
        weights.len(),
    )?;
    let accepted = build::make(
        bytes,
        numbers,
        centre,
        config.strength,
        choice,
        size.width as usize,
        size.height as usize,
        output,
        sums,
        weights,
    );
    Ok(Built {
        width: size.width,
        height: size.height,
        accepted,
    })
}

// The builder over the numbers of the frames: eight for each, numbers left over are not read.
pub fn build_from_numbers(
    bytes: &[u8],
    numbers: &[u32],
    centre: usize,
    config: ArnrConfig,
    output: &mut [u8],
    sums: &mut [u32],
    weights: &mut [u32],
) -> Result<Built, Refusal>
    ensures { BuildIs (record {
      request = asked bytes.now numbers.now centre config.strength;
      lent = record {
        output = output.old;
        sums = sums.old;
        weights = weights.old;
      };
    }) result (record {
      output = output.new;
      sums = sums.new;
      weights = weights.new;
    }) }
{
    let whole = Choice {
        half_sample: false,
        three_planes: false,
    };
    build_by(bytes, numbers, centre, config, whole, output, sums, weights)
}

// The same with half samples in U and V.
pub fn build_half_sample(
    bytes: &[u8],
    numbers: &[u32],
    centre: usize,
    config: ArnrConfig,
    output: &mut [u8],
    sums: &mut [u32],
    weights: &mut [u32],
) -> Result<Built, Refusal>
    ensures { BuildHalf (record {
      request = asked bytes.now numbers.now centre config.strength;
      lent = record {
        output = output.old;
        sums = sums.old;
        weights = weights.old;
      };
    }) result (record {
      output = output.new;
      sums = sums.new;
      weights = weights.new;
    }) }
{
    let half = Choice {
        half_sample: true,
        three_planes: false,
    };
    build_by(bytes, numbers, centre, config, half, output, sums, weights)
}

// A block is accepted on all three planes together, without half samples in U and V or with them.
pub fn build_three_planes(
    bytes: &[u8],
    numbers: &[u32],
    centre: usize,
    config: ArnrConfig,
    half_sample: bool,
    output: &mut [u8],
    sums: &mut [u32],
    weights: &mut [u32],
) -> Result<Built, Refusal>
    ensures { BuildThree half_sample (record {
      request = asked bytes.now numbers.now centre config.strength;
      lent = record {
        output = output.old;
        sums = sums.old;
        weights = weights.old;
      };
    }) result (record {
      output = output.new;
      sums = sums.new;
      weights = weights.new;
    }) }
{
    let three = Choice {
        half_sample,
        three_planes: true,
    };
    build_by(bytes, numbers, centre, config, three, output, sums, weights)
}
