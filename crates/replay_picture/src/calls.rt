// One record: the call made, its answer and the three lists compared.
use crate::kind::Kind;
use numbers::{allowance_number, picture_number};
use picture_search::allowance::search_picture_luma_within;
use picture_search::search_picture_luma;
use search::allowance::PictureWork;
use std::array;
use stored::{number, part, vector};

// The macroblocks of a record, and the comparisons made for them: the lower and the upper half of its last number.
pub(crate) fn work_of(record: &[u8; 128]) -> PictureWork {
    let n = number(record, 15);
    PictureWork {
        macroblocks: (n % 4294967296) as u32,
        comparisons: (n / 4294967296) as u32,
    }
}

// What entry k of each list holds before a call: no component and no SAD that is ever found.
fn old_row(k: usize) -> i16 {
    10000 + (k % 8000) as i16
}

fn old_col(k: usize) -> i16 {
    30000 - (k % 8000) as i16
}

fn old_sad(k: usize) -> u32 {
    3000000000 + (k % 8000) as u32
}

// What is stored of a macroblock: the vector, and 2^32 times the SAD.
fn new_row(entry: usize) -> i16 {
    vector(entry).row
}

fn new_col(entry: usize) -> i16 {
    vector(entry).col
}

fn new_sad(entry: usize) -> u32 {
    (entry / 4294967296) as u32
}

// Whether a list holds what is stored of each macroblock, and behind that what it held before.
fn holds<T: Copy + Drop + PartialEq, N: Fn(usize) -> T, O: Fn(usize) -> T>(
    list: &[T],
    entries: &[u8],
    new: N,
    old: O,
) -> bool
    requires new_called { N.IsAlwaysCallable new }
    requires old_called { O.IsAlwaysCallable old }
{
    for (k, found) in list.iter().enumerate() {
        let expected = if k < entries.len() / 8 {
            new(number(entries, k))
        } else {
            old(k)
        };
        if *found != expected {
            return false;
        }
    }
    true
}

// The call of a kind: what it did, or the number of its refusal.
fn searched(
    kind: Kind,
    samples: &[u8],
    record: &[u8; 128],
    rows: &mut [i16],
    cols: &mut [i16],
    sads: &mut [u32],
) -> Result<PictureWork, u32> {
    let plane = part(samples, number(record, 2), number(record, 3));
    let stride = number(record, 4);
    let width = number(record, 5);
    let height = number(record, 6);
    let source = part(samples, number(record, 7), number(record, 8));
    let source_stride = number(record, 9);
    let most = (number(record, 10) % 4294967296) as u32;
    let version = (number(record, 11) % 256) as u8;
    match kind {
        Kind::Limit => search_picture_luma(
            plane,
            stride,
            width,
            height,
            source,
            source_stride,
            most,
            version,
            rows,
            cols,
            sads,
        )
        .map(|macroblocks| PictureWork {
            macroblocks,
            comparisons: 0,
        })
        .map_err(picture_number),
        Kind::Allowance => search_picture_luma_within(
            plane,
            stride,
            width,
            height,
            source,
            source_stride,
            most,
            version,
            rows,
            cols,
            sads,
        )
        .map_err(allowance_number),
    }
}

// Whether the call gives the stored number of a refusal, 0 where it is accepted, the stored work, none with a refusal, and the stored
// lists. The lists are as long as the record says, at most 1100.
pub(crate) fn agrees(kind: Kind, samples: &[u8], entries: &[u8], record: &[u8; 128]) -> bool {
    let mut rows: [i16; 1100] = array::from_fn(old_row);
    let mut cols: [i16; 1100] = array::from_fn(old_col);
    let mut sads: [u32; 1100] = array::from_fn(old_sad);
    let rows = &mut rows[..number(record, 12).min(1100)];
    let cols = &mut cols[..number(record, 13).min(1100)];
    let sads = &mut sads[..number(record, 14).min(1100)];
    let none = PictureWork {
        macroblocks: 0,
        comparisons: 0,
    };
    let (refusal, work) = match searched(kind, samples, record, rows, cols, sads) {
        Ok(work) => (0, work),
        Err(refusal) => (refusal, none),
    };
    refusal as usize == number(record, 1)
        && work == work_of(record)
        && holds(rows, entries, new_row, old_row)
        && holds(cols, entries, new_col, old_col)
        && holds(sads, entries, new_sad, old_sad)
}
