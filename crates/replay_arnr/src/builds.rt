// One record: the builder of its kind called in both forms, its answers and the lent slices compared.
ghost use Rattle.std.specs.Prelude.{◌<◌};

use crate::kind::Kind;
use denoiser::{Built, Choice};
use std::array;
use stored::{number, part};
use weights::ArnrConfig;
use window::Refusal;

// What stands in the output before a call, and in the sums and weights: what is not written must still be there.
const OLD_BYTE: u8 = 165;

const OLD_WORD: u32 = 3000000001;

// How a record's window is built: over numbers, or over records of the same frames.
#[derive(Clone, Copy, Debug, PartialEq, Eq)]
enum Form {
    Numbers,
    Records,
}

// What the builder of a kind chooses.
fn choice_of(kind: Kind) -> Choice {
    Choice {
        half_sample: matches!(kind, Kind::HalfSamples | Kind::ThreePlanesHalfSamples),
        three_planes: matches!(kind, Kind::ThreePlanes | Kind::ThreePlanesHalfSamples),
    }
}

fn config_of(record: &[u8; 144]) -> ArnrConfig {
    let strength = (number(record, 6) % 256) as u8;
    match number(record, 7) {
        0 => ArnrConfig::default().with_strength(strength),
        1 => ArnrConfig::new(strength),
        _ => ArnrConfig::default(),
    }
}

// Whether a configuration stores the strength that it is to store.
pub(crate) fn stores(record: &[u8; 144]) -> bool {
    config_of(record).strength as usize == number(record, 1)
}

// The documents' number of an answer, 0 where the call is accepted, and its values.
fn numbers_of(answer: Result<Built, Refusal>) -> (usize, [u32; 4]) {
    match answer {
        Ok(built) => (0, [built.width, built.height, built.accepted, 0]),
        Err(Refusal::NoCentre) => (1, [0; 4]),
        Err(Refusal::TooManyFrames) => (2, [0; 4]),
        Err(Refusal::BadSize(size)) => (3, [size.width, size.height, 0, 0]),
        Err(Refusal::OtherSize(other, centre)) => (
            4,
            [other.width, other.height, centre.width, centre.height],
        ),
        Err(Refusal::CapTooHigh(index)) => (29, [index, 0, 0, 0]),
        Err(Refusal::PlaneUnfit(index)) => (5, [index, 0, 0, 0]),
        Err(Refusal::ShortOutput) => (6, [0; 4]),
        Err(Refusal::ShortWorking) => (7, [0; 4]),
    }
}

fn has_answer(record: &[u8; 144], answer: Result<Built, Refusal>) -> bool {
    let (outcome, [a, b, c, d]) = numbers_of(answer);
    number(record, 1) == outcome
        && number(record, 13) == a as usize
        && number(record, 14) == b as usize
        && number(record, 15) == c as usize
        && number(record, 16) == d as usize
}

// A number of a record that is below 2^20.
fn small(record: &[u8; 144], index: usize) -> usize
    ensures { result < 1048576 }
{
    number(record, index) % 1048576
}

// The first n numbers of a payload, four bytes each, again and again.
fn loaded(payload: &[u8], n: usize) -> [u32; 8300] {
    let stored = payload.as_chunks::<4>().0;
    array::from_fn(|k| match k.checked_rem(n).and_then(|k| stored.get(k)) {
        Some(word) => u32::from_le_bytes(*word),
        None => 0,
    })
}

// Whether the bytes are what is written, and behind it what was there before.
fn bytes_agree(got: &[u8], written: &[u8]) -> bool {
    got.iter().enumerate().all(|(k, byte)| *byte == written.get(k).copied().unwrap_or(OLD_BYTE))
}

// The same of numbers, of which three bytes are stored.
fn words_agree(got: &[u32], written: &[u8]) -> bool {
    let written = written.as_chunks::<3>().0;
    got.iter().enumerate().all(|(k, word)| {
        *word
            == match written.get(k) {
                Some([a, b, c]) => u32::from_le_bytes([*a, *b, *c, 0]),
                None => OLD_WORD,
            }
    })
}

// Whether each lent slice holds what is to be written, and behind it what it held before.
fn hold(record: &[u8; 144], payload: &[u8], output: &[u8], sums: &[u32], weights: &[u32]) -> bool {
    let samples = small(record, 11);
    let entries = 3 * small(record, 12);
    let from = 4 * small(record, 3);
    bytes_agree(output, part(payload, from, samples))
        && words_agree(sums, part(payload, from + samples, entries))
        && words_agree(weights, part(payload, from + samples + entries, entries))
}

// The public call of each rule.
fn over_numbers(
    choice: Choice,
    bytes: &[u8],
    numbers: &[u32],
    centre: usize,
    config: ArnrConfig,
    output: &mut [u8],
    sums: &mut [u32],
    weights: &mut [u32],
) -> Result<Built, Refusal> {
    if choice.three_planes {
        let half = choice.half_sample;
        arnr::build_three_planes(bytes, numbers, centre, config, half, output, sums, weights)
    } else if choice.half_sample {
        arnr::build_half_sample(bytes, numbers, centre, config, output, sums, weights)
    } else {
        arnr::build_from_numbers(bytes, numbers, centre, config, output, sums, weights)
    }
}

fn built(
    form: Form,
    choice: Choice,
    bytes: &[u8],
    numbers: &[u32],
    centre: usize,
    config: ArnrConfig,
    output: &mut [u8],
    sums: &mut [u32],
    weights: &mut [u32],
) -> Result<Built, Refusal> {
    match form {
        Form::Numbers => over_numbers(
            choice, bytes, numbers, centre, config, output, sums, weights,
        ),
        Form::Records => {
            let count = window::frame_count(numbers);
            let frames = framelist::records_of(numbers);
            framelist::build_of(
                bytes, frames, count, centre, config, choice, output, sums, weights,
            )
        }
    }
}

// The call, with slices of the lengths that the record has: its answer, then each lent slice.
fn agrees_by(form: Form, kind: Kind, pictures: &[u8], payload: &[u8], record: &[u8; 144]) -> bool {
    let mut output = [OLD_BYTE; 40000];
    let mut sums = [OLD_WORD; 40000];
    let mut weights = [OLD_WORD; 40000];
    let output = &mut output[..number(record, 8).min(40000)];
    let sums = &mut sums[..number(record, 9).min(40000)];
    let weights = &mut weights[..number(record, 10).min(40000)];
    let numbers = loaded(payload, small(record, 3));
    let answer = built(
        form,
        choice_of(kind),
        part(pictures, 0, number(record, 2)),
        &numbers[..number(record, 4).min(8300)],
        number(record, 5),
        config_of(record),
        output,
        sums,
        weights,
    );
    has_answer(record, answer) && hold(record, payload, output, sums, weights)
}

// Both forms, each with slices of its own: the answer and every slice are the stored ones, so those of one form are those of the other.
pub(crate) fn agrees(kind: Kind, pictures: &[u8], payload: &[u8], record: &[u8; 144]) -> bool {
    let over_numbers = agrees_by(Form::Numbers, kind, pictures, payload, record);
    let over_records = agrees_by(Form::Records, kind, pictures, payload, record);
    over_numbers && over_records
}
