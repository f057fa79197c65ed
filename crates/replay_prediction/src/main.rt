// Replays the stored answers of the Rust originals, and document 01's refusals, on the crates `prediction`, `fetch`, `sixtap`
// and `bilinear`, and prints how many cases it compared and how many differ: by the size of the plane, the empty one first,
// then by call.
// The layout of `planes` and `cases` is written in oracle/src/prediction/mod.rs.
// What opens the files, reads to the end and prints is not in `stored`: a contract there fixes the outcome, and none can say what a
// file gives.
#![tactic(auto)]

mod cases;
mod kind;

use cases::Step;
use kind::KINDS;
use std::fs::File;
use std::io;
use std::io::Read;
use stored::tally::{Counts, Failure, Fault, Tally};

// The counts by call, and the failure if there is one.
fn finish(rt: &impl Print, tally: &Tally<11>, ended: Result<usize, Fault>) -> io::Result<()> {
    for (kind, counts) in KINDS.iter().zip(&tally.kinds) {
        println!(rt; "{kind}: {counts}")?;
    }
    println!(rt; "all: {}", tally.all)?;
    match tally.verdict(ended) {
        Ok(()) => Ok(()),
        Err(failure) => println!(rt; "{failure}"),
    }
}

// Beside the tally the counts of the group of planes under way. A proved loop has to end, so this one has so many turns at most: more
// than any file has records.
fn replay(rt: &impl Print, input: &mut impl Read, planes: &[u8]) -> io::Result<()> {
    let mut tally = Tally::new();
    let mut group = Counts::default();
    for _ in 0..u64::MAX {
        match cases::next(input, planes) {
            Ok(Step::Compared(kind, counts)) => {
                tally.add(kind as usize, counts);
                group = group.plus(counts);
            }
            Ok(Step::Group(most)) => {
                println!(rt; "fetches over planes of at most {most} bytes: {group}")?;
                tally.records = tally.records.wrapping_add(1);
                group = Counts::default();
            }
            Ok(Step::End(records)) => return finish(rt, &tally, Ok(records)),
            Err(fault) => return finish(rt, &tally, Err(fault)),
        }
    }
    Ok(())
}

fn main(rt: HostRuntime) -> io::Result<()> {
    let mut planes = [0u8; 65536];
    let Ok(mut file) = File::open(&rt, "planes") else {
        return println!(rt; "{}", Failure::Unread("planes"));
    };
    let n = stored::read_full(&mut file, &mut planes).0;
    drop(file);
    let Ok(mut input) = File::open(&rt, "cases") else {
        return println!(rt; "{}", Failure::Unread("cases"));
    };
    replay(&rt, &mut input, &planes[..n])
}
