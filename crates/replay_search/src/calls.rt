// One record: the call made, its answer compared.
use crate::kind::Kind;
use motion_search::motion_search::{
    block_sad_16x16, block_sad_16x16_up_to, half_pixel_refine_luma, mb_luma_sad_at_mv,
    mb_luma_sad_at_whole_mv, quarter_pixel_refine_luma, small_diamond_search_luma,
};
use numbers::{place_number, search_number};
use prediction::ceiling::Ceiled;
use prediction::motion_vector::Mv;
use search::{DiamondResult, SearchResult};
use stored::{number, part, vector};

// What a call finds; what it does not is 0, and the vector the one that is stored as 0. The count is that of the SADs computed, or of
// the rows measured.
#[derive(Clone, Copy, Debug, PartialEq, Eq)]
struct Found {
    sad: usize,
    mv: Mv,
    count: usize,
    rounds: usize,
}

fn nothing() -> Found {
    Found {
        sad: 0,
        mv: vector(0),
        count: 0,
        rounds: 0,
    }
}

impl From<u32> for Found {
    fn from(sad: u32) -> Found {
        Found {
            sad: sad as usize,
            ..nothing()
        }
    }
}

impl From<Ceiled> for Found {
    fn from(read: Ceiled) -> Found {
        Found {
            sad: read.sad as usize,
            count: read.rows as usize,
            ..nothing()
        }
    }
}

impl From<SearchResult> for Found {
    fn from(best: SearchResult) -> Found {
        Found {
            sad: best.sad as usize,
            mv: best.mv,
            ..nothing()
        }
    }
}

impl From<DiamondResult> for Found {
    fn from(best: DiamondResult) -> Found {
        Found {
            sad: best.sad as usize,
            mv: best.mv,
            count: best.sads as usize,
            rounds: best.rounds as usize,
        }
    }
}

// Where a call measures, the macroblock that it measures, and the version and the limit of those that take one.
#[derive(Drop)]
struct Site<'a> {
    plane: &'a [u8],
    stride: usize,
    width: usize,
    height: usize,
    col: usize,
    row: usize,
    mv: Mv,
    version: u8,
    limit: u32,
}

fn site_of<'a>(samples: &'a [u8], record: &[u8; 128]) -> Site<'a> {
    Site {
        plane: part(samples, number(record, 2), number(record, 3)),
        stride: number(record, 4),
        width: number(record, 5),
        height: number(record, 6),
        col: number(record, 7),
        row: number(record, 8),
        mv: vector(number(record, 10)),
        version: (number(record, 15) % 256) as u8,
        limit: (number(record, 11) % 4294967296) as u32,
    }
}

// A macroblock: 256 of the samples; 0 past their end.
fn block(samples: &[u8], start: usize) -> [u8; 256] {
    let mut all = [0u8; 256];
    let there = samples.get(start % 4294967296..).unwrap_or(&[]);
    for (to, from) in all.iter_mut().zip(there) {
        *to = *from;
    }
    all
}

// What the call of a kind finds, or the number of its refusal.
fn answered(kind: Kind, samples: &[u8], record: &[u8; 128]) -> Result<Found, u32> {
    let s = site_of(samples, record);
    let src = block(samples, number(record, 9));
    let pred = block(samples, number(record, 2));
    match kind {
        Kind::BlockSad => Ok(Found::from(block_sad_16x16(&src, &pred))),
        Kind::BlockSadUpTo => Ok(Found::from(block_sad_16x16_up_to(&src, &pred, s.limit))),
        Kind::WholeSad => mb_luma_sad_at_whole_mv(
            s.plane, s.stride, s.width, s.height, s.col, s.row, &src, s.mv,
        )
        .map(Found::from)
        .map_err(search_number),
        Kind::AnySad => mb_luma_sad_at_mv(
            s.plane, s.stride, s.width, s.height, s.col, s.row, &src, s.mv, s.version,
        )
        .map(Found::from)
        .map_err(search_number),
        Kind::Diamond => small_diamond_search_luma(
            s.plane, s.stride, s.width, s.height, s.col, s.row, &src, s.mv, s.limit,
        )
        .map(Found::from)
        .map_err(place_number),
        Kind::Half => half_pixel_refine_luma(
            s.plane, s.stride, s.width, s.height, s.col, s.row, &src, s.mv, s.version,
        )
        .map(Found::from)
        .map_err(search_number),
        Kind::Quarter => quarter_pixel_refine_luma(
            s.plane, s.stride, s.width, s.height, s.col, s.row, &src, s.mv, s.version,
        )
        .map(Found::from)
        .map_err(search_number),
    }
}

// The rounds stored; where a call takes a version, that stands in their place.
fn rounds(kind: Kind, record: &[u8; 128]) -> usize {
    match kind {
        Kind::AnySad | Kind::Half | Kind::Quarter => 0,
        _ => number(record, 15),
    }
}

// Whether the call gives the stored number of a refusal, 0 where it is accepted, and what is stored beside it.
pub(crate) fn agrees(kind: Kind, samples: &[u8], record: &[u8; 128]) -> bool {
    let (refusal, found) = match answered(kind, samples, record) {
        Ok(found) => (0, found),
        Err(refusal) => (refusal, nothing()),
    };
    let expected = Found {
        sad: number(record, 12),
        mv: vector(number(record, 13)),
        count: number(record, 14),
        rounds: rounds(kind, record),
    };
    refusal as usize == number(record, 1) && found == expected
}
