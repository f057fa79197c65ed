// Replays the stored answers of the Rust originals and the documents' refusals on the builders, each over numbers and over frame
// records, and on their configuration, and prints how many cases it compared and how many differ: the empty window first, then one
// frame, then strength 0, then windows, refusals, configurations, caps, half samples, three planes, and three planes with half
// samples.
// The layout of `pictures` and `cases` is written in oracle/src/denoiser/mod.rs.
// What opens the files, reads to the end and prints is not in `stored`: a contract there fixes the outcome, and none can say what a
// file gives.
#![tactic(auto)]

mod builds;
mod kind;

use kind::{KINDS, Kind};
use std::fs::File;
use std::io;
use std::io::Read;
use stored::tally::{Counts, Failure, Fault, Tally};

// The cases, and the builds that were run over numbers and over records.
#[derive(Drop)]
struct Counted {
    tally: Tally<10>,
    both: u64,
}

// Fills the first bytes of a payload.
fn fill_first(input: &mut impl Read, payload: &mut [u8], len: usize) -> Result<(), Fault> {
    if payload.len() < len || stored::read_full(input, &mut payload[..len]).0 < len {
        return Err(Fault::BadPayload);
    }
    Ok(())
}

// The case of a record: a configuration, or a build with its payload.
fn replay_one(
    input: &mut impl Read,
    pictures: &[u8],
    record: &[u8; 144],
    counted: &mut Counted,
) -> Result<(), Fault> {
    let kind = Kind::try_from(stored::number(record, 0))?;
    let agrees = if kind == Kind::Configurations {
        builds::stores(record)
    } else {
        let mut payload = [0u8; 240000];
        fill_first(input, &mut payload, stored::number(record, 17))?;
        counted.both = counted.both.wrapping_add(1);
        builds::agrees(kind, pictures, &payload, record)
    };
    counted.tally.add(kind as usize, Counts::one(agrees));
    Ok(())
}

// Counts the cases, up to the last record: how many it says stand before it. A proved loop has to end, so this one has so many turns
// at most: more than any file has records.
fn replay_all(
    input: &mut impl Read,
    pictures: &[u8],
    counted: &mut Counted,
) -> Result<usize, Fault> {
    let mut record = [0u8; 144];
    for _ in 0..u64::MAX {
        if stored::read_full(input, &mut record).0 < 144 {
            break;
        }
        if stored::number(&record, 0) == 99 {
            return Ok(stored::number(&record, 1));
        }
        replay_one(input, pictures, &record, counted)?;
    }
    Err(Fault::EndsEarly)
}

fn replay(rt: &impl Print, input: &mut impl Read, pictures: &[u8]) -> io::Result<()> {
    let mut counted = Counted {
        tally: Tally::new(),
        both: 0,
    };
    let ended = replay_all(input, pictures, &mut counted);
    let tally = counted.tally;
    for (kind, counts) in KINDS.iter().zip(&tally.kinds) {
        println!(rt; "{kind}: {counts}")?;
    }
    println!(rt;
        "all: {}; {} builds were run in both forms, over numbers and over records",
        tally.all, counted.both
    )?;
    match tally.verdict(ended) {
        Ok(()) => Ok(()),
        Err(failure) => println!(rt; "{failure}"),
    }
}

fn main(rt: HostRuntime) -> io::Result<()> {
    let mut pictures = [0u8; 98304];
    let Ok(mut file) = File::open(&rt, "pictures") else {
        return println!(rt; "{}", Failure::Unread("pictures"));
    };
    let n = stored::read_full(&mut file, &mut pictures).0;
    drop(file);
    let Ok(mut input) = File::open(&rt, "cases") else {
        return println!(rt; "{}", Failure::Unread("cases"));
    };
    replay(&rt, &mut input, &pictures[..n])
}
