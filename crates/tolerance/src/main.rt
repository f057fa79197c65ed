// Prints the distance bounds: for 1 to 16, 31, 63, 127, 255, 511 and 1023 other frames a line with n, their count, and the bounds of
// strengths 1 to 6.
#![tactic(auto)]

use std::io;

fn print_line(rt: &impl Print, n: u32) -> io::Result<()> {
    print!(rt; "{n}")?;
    for strength in 1..=6 {
        print!(rt; " {}", weights::distance_bound(n, strength))?;
    }
    println!(rt)
}

fn main(rt: HostRuntime) -> io::Result<()> {
    for n in (1..17).chain([31, 63, 127, 255, 511, 1023]) {
        print_line(&rt, n)?;
    }
    Ok(())
}
