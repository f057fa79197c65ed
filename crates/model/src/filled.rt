// What the calls of both filters end with.
ghost use Rattle.std.specs.Prelude.{◌≡◌};
ghost use Rattle.laws.specs.Outcome.{after};
ghost use Rattle.filters.specs.Refusals.{filter_outcome};
ghost use Rattle.numbers.specs.Answers.{status_numbers};

use filters::FilteredMb;
use numbers::answers::Status;

// Stores a filtered macroblock in a lent array, which is kept where the filter refuses.
pub(crate) fn store(made: FilteredMb, block: &mut [u8; 256]) -> Status
    ensures status { result ≡ status_numbers (filter_outcome made.answer made.block) }
    ensures array { block.new ≡ after (filter_outcome made.answer made.block) block.old made.block }
{
    if made.answer.is_ok() {
        *block = made.block;
        Status { refusal: 0 }
    } else {
        Status { refusal: 13 }
    }
}
