// A sum of absolute differences (SAD) that is measured up to a ceiling.

// The value, which is the sum, or the ceiling where that is less; and how many rows were measured.
#[derive(Clone, Copy, Debug, PartialEq, Eq)]
pub struct Ceiled {
    pub sad: u32,
    pub rows: u32,
}

// Above every SAD of a block, which is at most 256 times 255: a ceiling that is never reached.
pub const NO_CEILING: u32 = 65281;
