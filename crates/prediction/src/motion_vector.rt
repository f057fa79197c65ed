// A motion vector in quarter pixels; in eighths where it is stored.
#[derive(Clone, Copy, Debug, PartialEq, Eq)]
pub struct Mv {
    pub row: i16,
    pub col: i16,
}
