// Prints, for each strength from 1 to 6, the strength, its scale s and the greatest difference whose weight is not 0.
#![tactic(auto)]

ghost use Rattle.std.specs.Prelude.{◌≡◌};
ghost use Rattle.weights.specs.Weights.{weight_read};
ghost use Rattle.curves.specs.Reach.{reach_of};

use std::io;

// The greatest difference whose weight is not 0; 0 where there is none.
fn reach(strength: u8) -> usize
    ensures { result ≡ reach_of (weight_read strength) 256 }
{
    let mut reach = 0;
    for e in 0..256usize {
        if 0 < weights::weight(strength, e as u8) {
            reach = e;
        }
    }
    reach
}

fn main(rt: HostRuntime) -> io::Result<()> {
    for strength in 1..=6 {
        println!(rt;
            "{strength} {} {}",
            weights::scale_of(strength),
            reach(strength)
        )?;
    }
    Ok(())
}
