// Replays the stored answers of the Rust originals, the refusals, and the second implementation's SADs with a ceiling and answers at
// versions 1 and 2 on the crate `motion_search`, and prints how many cases it compared and how many differ, by call.
// The layout of `samples` and `cases` is written in oracle/src/search/mod.rs.
// What opens the files, reads to the end and prints is not in `stored`: a contract there fixes the outcome, and none can say what a
// file gives.
#![tactic(auto)]

mod calls;
mod kind;

use kind::{KINDS, Kind};
use std::fs::File;
use std::io;
use std::io::Read;
use stored::tally::{Counts, Failure, Fault, Tally};

// Counts the cases, up to the last record: how many it says stand before it. A proved loop has to end, so this one has so many turns
// at most: more than any file has records.
fn replay_all(input: &mut impl Read, samples: &[u8], tally: &mut Tally<7>) -> Result<usize, Fault> {
    let mut record = [0u8; 128];
    for _ in 0..u64::MAX {
        if stored::read_full(input, &mut record).0 < 128 {
            break;
        }
        let number = stored::number(&record, 0);
        if number == 99 {
            return Ok(stored::number(&record, 1));
        }
        let kind = Kind::try_from(number)?;
        tally.add(
            kind as usize,
            Counts::one(calls::agrees(kind, samples, &record)),
        );
    }
    Err(Fault::EndsEarly)
}

fn print_tally(rt: &impl Print, tally: &Tally<7>) -> io::Result<()> {
    for (kind, counts) in KINDS.iter().zip(&tally.kinds) {
        println!(rt; "{kind}: {counts}")?;
    }
    println!(rt; "all: {}", tally.all)
}

fn replay(rt: &impl Print, input: &mut impl Read, samples: &[u8]) -> io::Result<()> {
    let mut tally = Tally::new();
    let ended = replay_all(input, samples, &mut tally);
    print_tally(rt, &tally)?;
    match tally.verdict(ended) {
        Ok(()) => Ok(()),
        Err(failure) => println!(rt; "{failure}"),
    }
}

fn main(rt: HostRuntime) -> io::Result<()> {
    let mut samples = [0u8; 65536];
    let Ok(mut file) = File::open(&rt, "samples") else {
        return println!(rt; "{}", Failure::Unread("samples"));
    };
    let n = stored::read_full(&mut file, &mut samples).0;
    drop(file);
    let Ok(mut input) = File::open(&rt, "cases") else {
        return println!(rt; "{}", Failure::Unread("cases"));
    };
    replay(&rt, &mut input, &samples[..n])
}
