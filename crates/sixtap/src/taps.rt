// A row of taps. In a file of its own: a ghost field would have the struct import the definitions that speak of it.
ghost use Rattle.std.specs.Prelude.{◌+◌, ◌≤◌};

// The sizes of a row of taps; the second and the fifth are taken away, the others added. Every sum of their products with samples fits 16 bits.
#[derive(Clone, Copy, Debug, PartialEq, Eq)]
pub(crate) struct Taps {
    pub a: u16,
    pub b: u16,
    pub c: u16,
    pub d: u16,
    pub e: u16,
    pub f: u16,
    ghost more: { a + c + d + f ≤ 160 },
    ghost less: { b + e ≤ 32 },
}
