// What the denoiser's definitions speak of; the code that is held to them stands in the crate `arnr`.
#![tactic(auto)]

// A rectangle of a plane.
#[derive(Clone, Copy, Debug, PartialEq, Eq)]
pub struct Block {
    pub x: usize,
    pub y: usize,
    pub columns: usize,
    pub rows: usize,
}

// A displacement in whole samples: columns to the right, rows down.
#[derive(Clone, Copy, Debug, PartialEq, Eq)]
pub struct Displacement {
    pub dx: i32,
    pub dy: i32,
}

// A plane in the picture bytes: where it starts, the bytes from row to row, and its size.
#[derive(Clone, Copy, Debug, PartialEq, Eq)]
pub struct PlaneNumbers {
    pub start: usize,
    pub stride: usize,
    pub columns: usize,
    pub rows: usize,
}

// What a builder's call chooses: whether U and V are displaced by half samples, and whether a block is accepted on three planes.
#[derive(Clone, Copy, Debug, PartialEq, Eq)]
pub struct Choice {
    pub half_sample: bool,
    pub three_planes: bool,
}

impl Choice {
    // Whole samples, and acceptance on luma alone.
    pub const WHOLE: Choice = Choice {
        half_sample: false,
        three_planes: false,
    };
}

// A displacement and its SAD.
#[derive(Clone, Copy, Debug, PartialEq, Eq)]
pub struct Motion {
    pub displacement: Displacement,
    pub sad: u32,
}

// The picture's size, and the number of accepted blocks over all other frames.
#[derive(Clone, Copy, Debug, PartialEq, Eq)]
pub struct Built {
    pub width: u32,
    pub height: u32,
    pub accepted: u32,
}
