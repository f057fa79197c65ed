// Replays the stored answers of the whole-picture searches, within a limit and within an allowance, made by single calls of
// the Rust originals, at versions 1 and 2 of a copy that takes a version, and by a second implementation, and the refusals
// on the crate `picture_search`, and prints how many cases it compared and how many differ. The layout of `samples` and
// `cases` is written in oracle/src/picture/mod.rs.
// What opens the files, reads to the end and prints is not in `stored`: a contract there fixes the outcome, and none can say what a
// file gives.
#![tactic(auto)]

mod calls;
mod kind;

use kind::{KINDS, Kind};
use std::fs::File;
use std::io;
use std::io::Read;
use stored::tally::{Counts, Failure, Fault, Tally};

// The cases, and the macroblocks of all of them.
#[derive(Drop)]
struct Counted {
    tally: Tally<2>,
    macroblocks: u64,
}

// The case of a record: its entries, of eight bytes each, at most 1100, are read.
fn replay_one(
    input: &mut impl Read,
    samples: &[u8],
    record: &[u8; 128],
    counted: &mut Counted,
) -> Result<(), Fault> {
    let kind = Kind::try_from(stored::number(record, 0))?;
    let macroblocks = calls::work_of(record).macroblocks;
    let mut payload = [0u8; 8800];
    let len = macroblocks as usize * 8;
    if payload.len() < len || stored::read_full(input, &mut payload[..len]).0 < len {
        return Err(Fault::BadEntries);
    }
    let agrees = calls::agrees(kind, samples, &payload[..len], record);
    counted.tally.add(kind as usize, Counts::one(agrees));
    counted.macroblocks = counted.macroblocks.wrapping_add(u64::from(macroblocks));
    Ok(())
}

// Counts the cases, up to the last record: how many it says stand before it. A proved loop has to end, so this one has so many turns
// at most: more than any file has records.
fn replay_all(
    input: &mut impl Read,
    samples: &[u8],
    counted: &mut Counted,
) -> Result<usize, Fault> {
    let mut record = [0u8; 128];
    for _ in 0..u64::MAX {
        if stored::read_full(input, &mut record).0 < 128 {
            break;
        }
        if stored::number(&record, 0) == 99 {
            return Ok(stored::number(&record, 1));
        }
        replay_one(input, samples, &record, counted)?;
    }
    Err(Fault::EndsEarly)
}

fn replay(rt: &impl Print, input: &mut impl Read, samples: &[u8]) -> io::Result<()> {
    let mut counted = Counted {
        tally: Tally::new(),
        macroblocks: 0,
    };
    let ended = replay_all(input, samples, &mut counted);
    let tally = counted.tally;
    for (kind, counts) in KINDS.iter().zip(&tally.kinds) {
        println!(rt; "{kind}: {counts}")?;
    }
    println!(rt;
        "all: {}; {} macroblocks in each of three lists",
        tally.all, counted.macroblocks
    )?;
    match tally.verdict(ended) {
        Ok(()) => Ok(()),
        Err(failure) => println!(rt; "{failure}"),
    }
}

fn main(rt: HostRuntime) -> io::Result<()> {
    let mut samples = [0u8; 65536];
    let Ok(mut file) = File::open(&rt, "samples") else {
        return println!(rt; "{}", Failure::Unread("samples"));
    };
    let n = stored::read_full(&mut file, &mut samples).0;
    drop(file);
    let Ok(mut input) = File::open(&rt, "cases") else {
        return println!(rt; "{}", Failure::Unread("cases"));
    };
    replay(&rt, &mut input, &samples[..n])
}
