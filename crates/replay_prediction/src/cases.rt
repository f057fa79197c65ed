// One record: read, replayed, compared.
use crate::kind::Kind;
use bilinear::bilinear_mb_luma;
use fetch::{fetch_luma_mb_halo, fetch_luma_mb_whole_pixel};
use filters::{BadSelector, FilteredMb};
use prediction::inverse_transform::{abs_diff, clamp255};
use prediction::motion_comp::{filter_set_for_version, fraction, stored_luma_mv, whole_offset};
use prediction::motion_vector::Mv;
use sixtap::{interp, sixtap_mb_luma};
use std::io::Read;
use stored::tally::{Counts, Fault};
use stored::{number, part, vector};

pub enum Step {
    Compared(Kind, Counts),
    // the fetches since the last such record are over planes of at most so many bytes
    Group(usize),
    // the last record: how many stand before it
    End(usize),
}

pub(crate) fn next(input: &mut impl Read, planes: &[u8]) -> Result<Step, Fault> {
    let mut header = [0u8; 80];
    fill(input, &mut header)?;
    match number(&header, 0) {
        0 => Ok(Step::Group(number(&header, 2))),
        99 => Ok(Step::End(number(&header, 1))),
        kind => {
            let kind = Kind::try_from(kind)?;
            let counts = compared(kind, input, planes, &header)?;
            Ok(Step::Compared(kind, counts))
        }
    }
}

fn fill(input: &mut impl Read, buf: &mut [u8]) -> Result<(), Fault> {
    if stored::read_full(input, buf).0 < buf.len() {
        return Err(Fault::EndsEarly);
    }
    Ok(())
}

fn compared(
    kind: Kind,
    input: &mut impl Read,
    planes: &[u8],
    header: &[u8; 80],
) -> Result<Counts, Fault> {
    let answer = number(header, 1);
    let given = number(header, 2);
    let byte = (given % 256) as u8;
    let component = vector(given).row;
    let agrees = match kind {
        Kind::WholePixel => whole_pixel(input, planes, header)?,
        Kind::Halo => halo(input, planes, header)?,
        Kind::Sixtap => macroblock(input, header, sixtap_mb_luma)?,
        Kind::Bilinear => macroblock(input, header, bilinear_mb_luma)?,
        Kind::AbsDiff => return distances(input, byte),
        Kind::Interp => is_sample(header),
        Kind::Clamp => clamp255(signed(given)) as usize == answer,
        Kind::StoredMv => stored_luma_mv(vector(given)) == vector(answer) && answer < 4294967296,
        Kind::WholeOffset => whole_offset(component) == signed(answer) && answer < 4294967296,
        Kind::Fraction => fraction(component) as usize == answer,
        Kind::FilterSet => numbers::filter_number(filter_set_for_version(byte)) as usize == answer,
    };
    Ok(Counts::one(agrees))
}

// A 32-bit number that was stored with 2^31 added.
fn signed(biased: usize) -> i32 {
    ((biased % 4294967296) as i64 - 2147483648) as i32
}

fn selector(n: usize) -> u32 {
    (n % 4294967296) as u32
}

fn filter_number(answer: Result<(), BadSelector>) -> usize {
    match answer {
        Ok(()) => 0,
        Err(BadSelector) => 13,
    }
}

// What a fetch is passed: its plane is a part of the planes.
#[derive(Drop)]
struct Fetch<'a> {
    plane: &'a [u8],
    stride: usize,
    width: usize,
    height: usize,
    x: usize,
    y: usize,
    mv: Mv,
}

fn fetch_of<'a>(planes: &'a [u8], header: &[u8; 80]) -> Fetch<'a> {
    Fetch {
        plane: part(planes, number(header, 2), number(header, 3)),
        stride: number(header, 4),
        width: number(header, 5),
        height: number(header, 6),
        x: number(header, 7),
        y: number(header, 8),
        mv: eighths(number(header, 9)),
    }
}

// A fetch's vector, in eighths; one that was stored in quarter pixels is doubled first.
fn eighths(packed: usize) -> Mv {
    let mv = vector(packed);
    if packed < 4294967296 {
        mv
    } else {
        stored_luma_mv(mv)
    }
}

fn whole_pixel(input: &mut impl Read, planes: &[u8], header: &[u8; 80]) -> Result<bool, Fault> {
    let mut expected = [0u8; 256];
    fill(input, &mut expected)?;
    let f = fetch_of(planes, header);
    let got = fetch_luma_mb_whole_pixel(f.plane, f.stride, f.width, f.height, f.x, f.y, f.mv);
    Ok(got.block == expected && numbers::fetch_number(got.answer) as usize == number(header, 1))
}

fn halo(input: &mut impl Read, planes: &[u8], header: &[u8; 80]) -> Result<bool, Fault> {
    let mut expected = [0u8; 441];
    fill(input, &mut expected)?;
    let f = fetch_of(planes, header);
    let got = fetch_luma_mb_halo(f.plane, f.stride, f.width, f.height, f.x, f.y, f.mv);
    Ok(got.block == expected && numbers::fetch_number(got.answer) as usize == number(header, 1))
}

// A filter of either set.
fn macroblock<F: FnOnce([u8; 441], u32, u32) -> FilteredMb>(
    input: &mut impl Read,
    header: &[u8; 80],
    filter: F,
) -> Result<bool, Fault>
    requires { F.IsAlwaysCallable filter }
{
    let mut halo = [0u8; 441];
    fill(input, &mut halo)?;
    let mut expected = [0u8; 256];
    fill(input, &mut expected)?;
    let got = filter(
        halo,
        selector(number(header, 2)),
        selector(number(header, 3)),
    );
    Ok(got.block == expected && filter_number(got.answer) == number(header, 1))
}

fn is_sample(header: &[u8; 80]) -> bool {
    let [a, b, c, d, e, f, ..] = number(header, 3).to_le_bytes();
    let refusal = number(header, 1);
    match interp(selector(number(header, 2)), [a, b, c, d, e, f]) {
        Ok(sample) => refusal == 0 && sample as usize == number(header, 4),
        Err(BadSelector) => refusal == 13,
    }
}

// The distances of one byte to all 256.
fn distances(input: &mut impl Read, a: u8) -> Result<Counts, Fault> {
    let mut expected = [0u8; 256];
    fill(input, &mut expected)?;
    let mut differ: u64 = 0;
    for b in 0..256usize {
        differ = differ.wrapping_add((abs_diff(a, b as u8) != expected[b]) as u64);
    }
    Ok(Counts {
        compared: 256,
        differ,
    })
}
