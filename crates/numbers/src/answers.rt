// What the calls give C: numbers only. The first is the refusal, 0 where the call is accepted.

// Whether a call that fills an array was accepted.
#[repr(C)]
#[derive(Clone, Copy, Debug, Default, PartialEq, Eq)]
pub struct Status {
    pub refusal: u32,
}

// One filtered sample.
#[repr(C)]
#[derive(Clone, Copy, Debug, Default, PartialEq, Eq)]
pub struct Sample {
    pub refusal: u32,
    pub sample: u32,
}

// A motion vector; never refused.
#[repr(C)]
#[derive(Clone, Copy, Debug, Default, PartialEq, Eq)]
pub struct Vector {
    pub refusal: u32,
    pub row: i16,
    pub col: i16,
}

// The sum of absolute differences (SAD) of a macroblock.
#[repr(C)]
#[derive(Clone, Copy, Debug, Default, PartialEq, Eq)]
pub struct Sad {
    pub refusal: u32,
    pub sad: u32,
}

// The SAD of two blocks up to a ceiling, and the rows measured; never refused.
#[repr(C)]
#[derive(Clone, Copy, Debug, Default, PartialEq, Eq)]
pub struct Ceiled {
    pub refusal: u32,
    pub sad: u32,
    pub rows: u32,
}

// The best vector of a refinement and its SAD.
#[repr(C)]
#[derive(Clone, Copy, Debug, Default, PartialEq, Eq)]
pub struct Search {
    pub refusal: u32,
    pub row: i16,
    pub col: i16,
    pub sad: u32,
}

// The diamond's last best, its SAD and its two counts.
#[repr(C)]
#[derive(Clone, Copy, Debug, Default, PartialEq, Eq)]
pub struct Diamond {
    pub refusal: u32,
    pub row: i16,
    pub col: i16,
    pub sad: u32,
    pub sads: u32,
    pub rounds: u32,
}

// The macroblocks of a picture that were searched.
#[repr(C)]
#[derive(Clone, Copy, Debug, Default, PartialEq, Eq)]
pub struct Picture {
    pub refusal: u32,
    pub macroblocks: u32,
}

// The macroblocks of a picture that were searched within an allowance, and the comparisons made for them.
#[repr(C)]
#[derive(Clone, Copy, Debug, Default, PartialEq, Eq)]
pub struct Allowed {
    pub refusal: u32,
    pub macroblocks: u32,
    pub comparisons: u32,
}

// A builder's answer, or the values of its refusal.
#[repr(C)]
#[derive(Clone, Copy, Debug, Default, PartialEq, Eq)]
pub struct Build {
    pub refusal: u32,
    pub width: u32,
    pub height: u32,
    pub accepted: u32,
    pub other_width: u32,
    pub other_height: u32,
    pub frame: u32,
}
