// Weights, configurations, frames as numbers and the builders for C.
ghost use Rattle.std.specs.Prelude.{◌≡◌, true, false, min};
ghost use Rattle.laws.specs.Tabulate.{tabulate};
ghost use Rattle.weights.specs.Weights.{scale, weight_read};
ghost use Rattle.weights.specs.Blend.{distance_bound};
ghost use Rattle.window.specs.Frames.{frame_count, frame_at};
ghost use Rattle.window.specs.Refusals.{given, checks};
ghost use Rattle.denoiser.specs.Window.{arnr_rule};
ghost use Rattle.denoiser.specs.Chroma.{half_rule, three_rule};
ghost use Rattle.denoiser.specs.Build.{asked};
ghost use Rattle.altref.specs.Records.{flat};
ghost use Rattle.numbers.specs.Answers.{check_numbers};
ghost use Rattle.model.specs.Builders.{BuildExport};

use numbers::answers::Build;
use weights::ArnrConfig;
use window::Frame;

pub fn vp8model_curve(strength: u8, curve: &mut [u32; 256])
    ensures { curve.new ≡ tabulate 256 (weight_read strength) }
{
    *curve = weights::curve(strength);
}

pub fn vp8model_weight(strength: u8, e: u8) -> u32
    ensures { result ≡ weight_read strength e }
{
    weights::weight(strength, e)
}

pub fn vp8model_scale_of(strength: u8) -> u32
    ensures { result ≡ scale (min strength 6) }
{
    weights::scale_of(strength)
}

pub fn vp8model_distance_bound(n: u32, strength: u8) -> u32
    ensures { result ≡ distance_bound (weight_read strength) n }
{
    weights::distance_bound(n, strength)
}

pub fn vp8model_arnr_config_new(strength: u8) -> u8
    ensures { result ≡ min strength 6 }
{
    ArnrConfig::new(strength).strength
}

pub fn vp8model_arnr_config_default() -> u8
    ensures { result ≡ 3 }
{
    ArnrConfig::default().strength
}

pub fn vp8model_arnr_config_with_strength(config: u8, v: u8) -> u8
    ensures { result ≡ v }
{
    let old = ArnrConfig { strength: config };
    old.with_strength(v).strength
}

pub fn vp8model_frame_count(numbers: &[u32]) -> usize
    ensures { result ≡ frame_count numbers.now }
{
    window::frame_count(numbers)
}

pub fn vp8model_frame_at(numbers: &[u32], g: usize) -> Frame
    ensures { result ≡ frame_at numbers.now g }
{
    window::frame_at(numbers, g)
}

pub fn vp8model_check_build(
    bytes: &[u8],
    numbers: &[u32],
    centre: usize,
    output_len: usize,
    sums_len: usize,
    weights_len: usize,
) -> Build
    ensures { result ≡ check_numbers (checks (given bytes.now numbers.now centre output_len sums_len weights_len)) }
{
    numbers::check_numbers(window::check_build(
        bytes,
        numbers,
        centre,
        output_len,
        sums_len,
        weights_len,
    ))
}

pub fn vp8model_build_from_numbers(
    bytes: &[u8],
    numbers: &[u32],
    centre: usize,
    strength: u8,
    output: &mut [u8],
    sums: &mut [u32],
    weights: &mut [u32],
) -> Build
    ensures { BuildExport arnr_rule (record {
      request = asked bytes.now numbers.now centre strength;
      lent = record {
        output = output.old;
        sums = sums.old;
        weights = weights.old;
      };
    }) result (record {
      output = output.new;
      sums = sums.new;
      weights = weights.new;
    }) }
{
    let config = ArnrConfig { strength };
    let answer = arnr::build_from_numbers(bytes, numbers, centre, config, output, sums, weights);
    numbers::build_numbers(answer)
}

pub fn vp8model_build_arnr_altref(
    bytes: &[u8],
    frames: &[Frame],
    centre: usize,
    strength: u8,
    output: &mut [u8],
    sums: &mut [u32],
    weights: &mut [u32],
) -> Build
    ensures { BuildExport arnr_rule (record {
      request = asked bytes.now (flat frames.now) centre strength;
      lent = record {
        output = output.old;
        sums = sums.old;
        weights = weights.old;
      };
    }) result (record {
      output = output.new;
      sums = sums.new;
      weights = weights.new;
    }) }
{
    let config = ArnrConfig { strength };
    let answer = altref::build_arnr_altref(bytes, frames, centre, config, output, sums, weights);
    numbers::build_numbers(answer)
}

pub fn vp8model_build_half_sample(
    bytes: &[u8],
    numbers: &[u32],
    centre: usize,
    strength: u8,
    output: &mut [u8],
    sums: &mut [u32],
    weights: &mut [u32],
) -> Build
    ensures { BuildExport half_rule (record {
      request = asked bytes.now numbers.now centre strength;
      lent = record {
        output = output.old;
        sums = sums.old;
        weights = weights.old;
      };
    }) result (record {
      output = output.new;
      sums = sums.new;
      weights = weights.new;
    }) }
{
    let config = ArnrConfig { strength };
    let answer = arnr::build_half_sample(bytes, numbers, centre, config, output, sums, weights);
    numbers::build_numbers(answer)
}

pub fn vp8model_build_three_planes(
    bytes: &[u8],
    numbers: &[u32],
    centre: usize,
    strength: u8,
    output: &mut [u8],
    sums: &mut [u32],
    weights: &mut [u32],
) -> Build
    ensures { BuildExport (three_rule false) (record {
      request = asked bytes.now numbers.now centre strength;
      lent = record {
        output = output.old;
        sums = sums.old;
        weights = weights.old;
      };
    }) result (record {
      output = output.new;
      sums = sums.new;
      weights = weights.new;
    }) }
{
    let config = ArnrConfig { strength };
    let r = arnr::build_three_planes(bytes, numbers, centre, config, false, output, sums, weights);
    numbers::build_numbers(r)
}

pub fn vp8model_build_three_planes_half_sample(
    bytes: &[u8],
    numbers: &[u32],
    centre: usize,
    strength: u8,
    output: &mut [u8],
    sums: &mut [u32],
    weights: &mut [u32],
) -> Build
    ensures { BuildExport (three_rule true) (record {
      request = asked bytes.now numbers.now centre strength;
      lent = record {
        output = output.old;
        sums = sums.old;
        weights = weights.old;
      };
    }) result (record {
      output = output.new;
      sums = sums.new;
      weights = weights.new;
    }) }
{
    let config = ArnrConfig { strength };
    let r = arnr::build_three_planes(bytes, numbers, centre, config, true, output, sums, weights);
    numbers::build_numbers(r)
}
