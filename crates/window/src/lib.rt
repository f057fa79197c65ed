// A window of frames in one slice of picture bytes, and the refusals of a builder call.
#![tactic(auto)]

ghost use Rattle.std.specs.Prelude.{◌≡◌, ◌||◌, ◌+◌, ◌-◌, ◌*◌, ◌≤◌, ◌<◌, ltb};
ghost use Rattle.prediction.specs.Refusals.{bad_side};
ghost use Rattle.window.specs.Layout.{packed_size};
ghost use Rattle.window.specs.Frames.{frame_count, frame_at};
ghost use Rattle.window.specs.Refusals.{size_of, checks, checked_outcome, given};
ghost use Rattle.window.specs.Internal.{cap_above, planes_unfit, FirstBy};

// A frame: its size, where its planes start in the picture bytes, the bytes from row to row, and its cap: the most that it
// weighs where it is not the centre.
#[repr(C)]
#[derive(Clone, Copy, Debug, Default, PartialEq, Eq)]
pub struct Frame {
    pub width: u32,
    pub height: u32,
    pub y: u32,
    pub u: u32,
    pub v: u32,
    pub luma_stride: u32,
    pub chroma_stride: u32,
    pub cap: u32,
}

// A picture's size.
#[derive(Clone, Copy, Debug, PartialEq, Eq)]
pub struct Size {
    pub width: u32,
    pub height: u32,
}

// Why a builder call is refused, with the values that are returned.
#[derive(Clone, Copy, Debug, PartialEq, Eq)]
pub enum Refusal {
    NoCentre,
    TooManyFrames,
    BadSize(Size),
    OtherSize(Size, Size),
    CapTooHigh(u32),
    PlaneUnfit(u32),
    ShortOutput,
    ShortWorking,
}

// The numbers of one frame.
pub const NUMBERS_PER_FRAME: usize = 8;

// The most frames that are not refused.
pub const MAX_FRAMES: usize = 1024;

// The largest cap that is not refused.
pub const MAX_CAP: u32 = 16;

// The frame count: numbers left over are not read.
pub fn frame_count(numbers: &[u32]) -> usize
    ensures { result ≡ frame_count numbers.now }
{
    numbers.len() / NUMBERS_PER_FRAME
}

// Frame g; from the frame count on, the frame of zeros.
pub fn frame_at(numbers: &[u32], g: usize) -> Frame
    ensures { result ≡ frame_at numbers.now g }
{
    if frame_count(numbers) <= g {
        return Frame::default();
    }
    let f = &numbers[g * NUMBERS_PER_FRAME..];
    Frame {
        width: f[0],
        height: f[1],
        y: f[2],
        u: f[3],
        v: f[4],
        luma_stride: f[5],
        chroma_stride: f[6],
        cap: f[7],
    }
}

// The frame's size.
fn size_of(f: Frame) -> Size
    ensures { result ≡ size_of f }
{
    Size {
        width: f.width,
        height: f.height,
    }
}

// 3: the width or height is 0 or above 16383. The edit `height_unchecked` names this function.
fn bad_size(size: Size) -> bool
    ensures { result ≡ (bad_side size.width || bad_side size.height) }
{
    fetch::bad_size(size.width as usize, size.height as usize)
}

// 29 of one frame: its cap exceeds 16. The edits `cap_16_refused` and `cap_17_accepted` name this function.
fn cap_too_high(f: Frame) -> bool
    ensures { result ≡ cap_above f }
{
    MAX_CAP < f.cap
}

// The first frame that `has` a property.
fn first_frame<P: Fn(Frame) -> bool>(numbers: &[u32], has: P) -> Option<usize>
    requires { P.IsAlwaysCallable has }
    ensures { FirstBy (P.post has) numbers.now result }
{
    for g in 0..frame_count(numbers) {
        if has(frame_at(numbers, g)) {
            return Some(g);
        }
    }
    None
}

// 5 of one plane: start + (rows - 1) times stride + columns exceeds the length. No sum of 32-bit numbers wraps here.
fn plane_unfit(length: usize, start: u32, stride: u32, columns: u32, rows: u32) -> bool
    ensures { result ≡ ltb length (start + (rows - 1) * stride + columns) }
{
    let before_last = rows.saturating_sub(1) as u64 * stride as u64;
    (length as u64) < start as u64 + before_last + columns as u64
}

// 5 of one frame: one of its planes does not fit.
fn frame_unfit(length: usize, f: Frame) -> bool
    ensures { result ≡ planes_unfit length f }
{
    let columns = f.width.div_ceil(2);
    let rows = f.height.div_ceil(2);
    plane_unfit(length, f.y, f.luma_stride, f.width, f.height)
        || plane_unfit(length, f.u, f.chroma_stride, columns, rows)
        || plane_unfit(length, f.v, f.chroma_stride, columns, rows)
}

// P: the samples of all three planes.
fn packed_size(size: Size) -> usize
    requires { (size.width ≤ 16383) × (size.height ≤ 16383) }
    ensures { result ≡ packed_size size.width size.height }
{
    let chroma = size.width.div_ceil(2) as usize * size.height.div_ceil(2) as usize;
    size.width as usize * size.height as usize + chroma + chroma
}

// 7: either working slice is shorter than P. The edit `one_slice_unchecked` names this function.
fn working_short(sums: usize, weights: usize, samples: usize) -> bool
    ensures { result ≡ (ltb sums samples || ltb weights samples) }
{
    sums < samples || weights < samples
}

// The first of the refusals 1, 2, 3, 4, 29, 5, 6, 7 that applies, or the picture's size.
#[tactic(auto, unfolding(crate::specs::Refusals::checks))]
pub fn check_build(
    bytes: &[u8],
    numbers: &[u32],
    centre: usize,
    output: usize,
    sums: usize,
    weights: usize,
) -> Result<Size, Refusal>
    ensures { checked_outcome result ≡ checks (given bytes.now numbers.now centre output sums weights) }
{
    let count = frame_count(numbers);
    if count <= centre {
        return Err(Refusal::NoCentre);
    }
    if MAX_FRAMES < count {
        return Err(Refusal::TooManyFrames);
    }
    let size = size_of(frame_at(numbers, centre));
    if bad_size(size) {
        return Err(Refusal::BadSize(size));
    }
    let other_sized = |f: Frame| size_of(f) != size;
    if let Some(g) = first_frame(numbers, other_sized) {
        return Err(Refusal::OtherSize(size_of(frame_at(numbers, g)), size));
    }
    if let Some(g) = first_frame(numbers, cap_too_high) {
        return Err(Refusal::CapTooHigh(g as u32));
    }
    let unfit = |f: Frame| frame_unfit(bytes.len(), f);
    if let Some(g) = first_frame(numbers, unfit) {
        return Err(Refusal::PlaneUnfit(g as u32));
    }
    let samples = packed_size(size);
    if output < samples {
        return Err(Refusal::ShortOutput);
    }
    if working_short(sums, weights, samples) {
        return Err(Refusal::ShortWorking);
    }
    Ok(size)
}
