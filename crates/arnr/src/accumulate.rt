// What the other frames add to the sums and the total weights, in three planes that lie one after the other in the working slices.
ghost use Rattle.std.specs.Prelude.{◌≡◌, ℕ, true, ◌+◌, ◌-◌, ◌*◌, ◌/◌, ◌<◌, ◌≤◌, min, eqb, pos, length, get_or};
ghost use Rattle.laws.specs.Sums.{sum_below, sum_over};
ghost use Rattle.prediction.specs.Samples.{distance};
ghost use Rattle.prediction.specs.Plane.{Samples, sample_at};
ghost use Rattle.prediction.specs.Prediction.{square_of};
ghost use Rattle.window.specs.Layout.{side_of, offset_of, packed_size};
ghost use Rattle.denoiser.specs.Grid.{grid_block, grid_side, block_in, unit_of};
ghost use Rattle.denoiser.specs.Search.{displaced_by, displacement_in};
ghost use Rattle.denoiser.specs.Chroma.{half_sample, sample_in, chosen_accepts};
ghost use Rattle.denoiser.specs.Window.{gate, cost_of, displacement_of, sad_accepted, accepted_in};
ghost use Rattle.denoiser.specs.Pictures.{picture_of, others_of};
ghost use Rattle.denoiser.specs.Internal.{Fits, Whole, Short, Span, Lies, Lent, Slack, Light, Frames, Measured, Raised, Placed, Spread, within, between, row_share, row_term, share_by, term_by, plane_in, packed_plane, numbers_of, packed_picture, packed_scene, block_samples, filtered_in, chroma_passes, curve_rule, curve_share, curve_term, capped_curve, other_share, other_term, other_blocks};

use crate::{half, sad, search, three};
use denoiser::{Block, Choice, Displacement, Motion, PlaneNumbers};
use prediction::inverse_transform;
use window::Frame;

// The weights by difference, none above 16.
#[derive(Drop)]
pub(crate) struct Curve {
    pub at: [u32; 256],
    ghost light: { Light at },
}

// The weight of a displaced sample against the centre's.
fn share(curve: &Curve, d: u8, c: u8) -> u32
    ensures { (result ≡ get_or curve.now.at (distance d c) 0) × (result ≤ 16) }
{
    curve.at[inverse_transform::abs_diff(d, c) as usize]
}

// A row of displaced samples, weighed against the centre's, is added to the sums and to the total weights.
fn blend_row(centre: &[u8], displaced: &[u8], curve: &Curve, sums: &mut [u32], weights: &mut [u32])
    requires displaced_len { (length displaced.now ≡ length centre.now) × (length sums.old ≡ length centre.now) × (length weights.old ≡ length
        centre.now) }
    requires slack { Slack 1 sums.old weights.old }
    ensures raised { Raised (row_term curve.now.at centre.now displaced.now) (length centre.now)
        sums.old sums.new }
    ensures raised_2 { Raised (row_share curve.now.at centre.now displaced.now) (length centre.now)
        weights.old weights.new }
{
    for k in 0..centre.len() {
        let d = displaced[k];
        let w = share(curve, d, centre[k]);
        sums[k] += w * d as u32;
        weights[k] += w;
    }
}

// Displaced samples are added to those from (x, y) on, in one row of the plane that stands packed from `at` on: by any
// function of the place that has these samples there.
fn blend_span(
    row: &[u8],
    p: PlaneNumbers,
    x: usize,
    y: usize,
    curve: &Curve,
    at: usize,
    out: &[u8],
    sums: &mut [u32],
    weights: &mut [u32],
)
    requires span { Span p.columns p.rows x y (length row.now) }
    requires lent { Lent (at + p.columns * p.rows) out.now sums.old weights.old }
    requires slack { Slack 1 sums.old weights.old }
    ensures placed { (s : Samples) → ((k : ℕ) → k < length row.now → get_or row.now k 0 ≡ s (pos (x + k)) (pos y)) → Placed at
        p.columns p.rows (λ i j. gate (eqb j y) (gate (between x (length row.now) i) (term_by curve.now.at (sample_at
        (packed_plane at p.columns p.rows out.now)) s i j))) sums.old sums.new }
    ensures placed_2 { (s : Samples) → ((k : ℕ) → k < length row.now → get_or row.now k 0 ≡ s (pos (x + k)) (pos y)) → Placed at
        p.columns p.rows (λ i j. gate (eqb j y) (gate (between x (length row.now) i) (share_by curve.now.at (sample_at
        (packed_plane at p.columns p.rows out.now)) s i j))) weights.old weights.new }
{
    let from = at + y * p.columns + x;
    let to = from + row.len();
    blend_row(
        &out[from..to],
        row,
        curve,
        &mut sums[from..to],
        &mut weights[from..to],
    );
}

// One block of such a plane.
fn blend_block(
    bytes: &[u8],
    p: PlaneNumbers,
    b: Block,
    d: Displacement,
    curve: &Curve,
    at: usize,
    out: &[u8],
    sums: &mut [u32],
    weights: &mut [u32],
)
    requires fits { Fits bytes.now p }
    requires lies { Lies b p.columns p.rows }
    requires short { Short d }
    requires lent { Lent (at + p.columns * p.rows) out.now sums.old weights.old }
    requires slack { Slack 2 sums.old weights.old }
    ensures placed { Placed at p.columns p.rows (λ i j. gate (within b i j) (term_by curve.now.at (sample_at (packed_plane at p.columns
        p.rows out.now)) (displaced_by d (sample_at (plane_in bytes.now p))) i j)) sums.old sums.new }
    ensures placed_2 { Placed at p.columns p.rows (λ i j. gate (within b i j) (share_by curve.now.at (sample_at (packed_plane at p.columns
        p.rows out.now)) (displaced_by d (sample_at (plane_in bytes.now p))) i j)) weights.old
        weights.new }
{
    for r in 0..b.rows {
        let y = b.y + r;
        let row = sad::displaced_row(bytes, p, b.x, y, b.columns, d);
        blend_span(&row[..b.columns], p, b.x, y, curve, at, out, sums, weights);
    }
}

// The planes are numbered, as the definitions number them: 0 is Y, 1 is U, 2 is V. The columns or rows of a plane in a picture of n.
fn side_of(k: usize, n: u32) -> usize
    ensures { result ≡ side_of k n }
{
    if k == 0 {
        n as usize
    } else {
        (n as usize + 1) / 2
    }
}

// The numbers of a plane of a frame.
pub(crate) fn plane_of(f: Frame, k: usize) -> PlaneNumbers
    requires { (k < 3) × (f.width ≤ 16383) × (f.height ≤ 16383) }
    ensures { result ≡ numbers_of f k }
{
    let (start, stride) = match k {
        0 => (f.y, f.luma_stride),
        1 => (f.u, f.chroma_stride),
        _ => (f.v, f.chroma_stride),
    };
    PlaneNumbers {
        start: start as usize,
        stride: stride as usize,
        columns: side_of(k, f.width),
        rows: side_of(k, f.height),
    }
}

// Where a plane starts in the packed picture.
pub(crate) fn offset_of(w: usize, h: usize, k: usize) -> usize
    requires { (k < 3) × (w ≤ 16383) × (h ≤ 16383) }
    ensures { result ≡ offset_of k w h }
{
    match k {
        0 => 0,
        1 => w * h,
        _ => w * h + (w + 1) / 2 * ((h + 1) / 2),
    }
}

// The block in row i and column j of the grid, cut at the right and bottom edge.
fn grid_block(w: usize, h: usize, i: usize, j: usize) -> Block
    requires { (16 * i < h) × (16 * j < w) × (w ≤ 16383) × (h ≤ 16383) }
    ensures { result ≡ grid_block w h i j }
{
    let x = 16 * j;
    let y = 16 * i;
    Block {
        x,
        y,
        columns: 16.min(w - x),
        rows: 16.min(h - y),
    }
}

// What a block covers in a plane.
pub(crate) fn block_in(k: usize, b: Block) -> Block
    requires { (b.columns ≤ 16) × (b.rows ≤ 16) }
    ensures { result ≡ block_in k b }
{
    if k == 0 {
        return b;
    }
    Block {
        x: b.x / 2,
        y: b.y / 2,
        columns: (b.columns + 1) / 2,
        rows: (b.rows + 1) / 2,
    }
}

// A displacement in a plane: in U and V it is halved toward zero.
pub(crate) fn displacement_in(k: usize, d: Displacement) -> Displacement
    requires { Short d }
    ensures { (result ≡ displacement_in k d) × Short result }
{
    if k == 0 {
        return d;
    }
    Displacement {
        dx: d.dx / 2,
        dy: d.dy / 2,
    }
}

// A block is excluded exactly when its SAD is at least 13 times its area.
fn accepts(b: Block, sad: u32) -> bool
    requires { (b.columns ≤ 16) × (b.rows ≤ 16) }
    ensures { result ≡ sad_accepted b sad }
{
    (sad as usize) < 13 * (b.columns * b.rows)
}

// One block of a frame at its displacement, in plane k.
fn blend_in(
    bytes: &[u8],
    f: Frame,
    k: usize,
    b: Block,
    d: Displacement,
    curve: &Curve,
    out: &[u8],
    sums: &mut [u32],
    weights: &mut [u32],
)
    requires k_bound { (k < 3) × Whole bytes.now f }
    requires lies { Lies b f.width f.height }
    requires short { Short d }
    requires lent { Lent (packed_size f.width f.height) out.now sums.old weights.old }
    requires slack { Slack 2 sums.old weights.old }
    ensures placed { Placed (offset_of k f.width f.height) (side_of k f.width) (side_of k f.height) (λ x y. gate (within (block_in k b) x y)
        (term_by curve.now.at (packed_picture f.width f.height out.now k) (displaced_by (displacement_in k d) (picture_of
        bytes.now f k)) x y)) sums.old sums.new }
    ensures placed_2 { Placed (offset_of k f.width f.height) (side_of k f.width) (side_of k f.height) (λ x y. gate (within (block_in k b) x y)
        (share_by curve.now.at (packed_picture f.width f.height out.now k) (displaced_by (displacement_in k d) (picture_of
        bytes.now f k)) x y)) weights.old weights.new }
{
    let p = plane_of(f, k);
    let at = offset_of(f.width as usize, f.height as usize, k);
    let c = block_in(k, b);
    let e = displacement_in(k, d);
    blend_block(bytes, p, c, e, curve, at, out, sums, weights);
}

// A block of 8 by 8, as much of it as b covers.
fn blend_square(
    block: &[u8],
    p: PlaneNumbers,
    b: Block,
    curve: &Curve,
    at: usize,
    out: &[u8],
    sums: &mut [u32],
    weights: &mut [u32],
)
    requires block_len { (length block.now ≡ 64) × (0 < p.columns) × (b.columns ≤ 8) × (b.rows ≤ 8) }
    requires lies { Lies b p.columns p.rows }
    requires lent { Lent (at + p.columns * p.rows) out.now sums.old weights.old }
    requires slack { Slack 2 sums.old weights.old }
    ensures placed { Placed at p.columns p.rows (λ i j. gate (within b i j) (term_by curve.now.at (sample_at (packed_plane at p.columns
        p.rows out.now)) (block_samples block.now b.x b.y) i j)) sums.old sums.new }
    ensures placed_2 { Placed at p.columns p.rows (λ i j. gate (within b i j) (share_by curve.now.at (sample_at (packed_plane at p.columns
        p.rows out.now)) (block_samples block.now b.x b.y) i j)) weights.old weights.new }
{
    for r in 0..b.rows {
        let first = 8 * r;
        let row = &block[first..first + b.columns];
        blend_span(row, p, b.x, b.y + r, curve, at, out, sums, weights);
    }
}

// The half samples of a block of a frame in U or V: a block of 8 by 8.
fn filtered(bytes: &[u8], f: Frame, k: usize, b: Block, d: Displacement) -> [u8; 64]
    requires k_bound { (k < 3) × Whole bytes.now f }
    requires lies { Lies b f.width f.height }
    requires short { Short d }
    ensures { result ≡ square_of 8 (pos (block_in k b).x) (pos (block_in k b).y) (half_sample d (picture_of bytes.now f k)) }
{
    let q = plane_of(f, k);
    let c = block_in(k, b);
    half::block(bytes, q, c.x, c.y, d)
}

// One block of a frame in U or V at its filtered samples, which stand in a block of 8 by 8.
fn blend_half(
    block: &[u8],
    f: Frame,
    k: usize,
    b: Block,
    curve: &Curve,
    out: &[u8],
    sums: &mut [u32],
    weights: &mut [u32],
)
    requires k_nonzero { (0 < k) × (k < 3) × (length block.now ≡ 64) }
    requires width_nonzero { (0 < f.width) × (f.width ≤ 16383) × (f.height ≤ 16383) }
    requires lies { Lies b f.width f.height }
    requires lent { Lent (packed_size f.width f.height) out.now sums.old weights.old }
    requires slack { Slack 2 sums.old weights.old }
    ensures placed { Placed (offset_of k f.width f.height) (side_of k f.width) (side_of k f.height) (λ x y. gate (within (block_in k b) x y)
        (term_by curve.now.at (packed_picture f.width f.height out.now k) (block_samples block.now
        (block_in k b).x (block_in k b).y) x y)) sums.old sums.new }
    ensures placed_2 { Placed (offset_of k f.width f.height) (side_of k f.width) (side_of k f.height) (λ x y. gate (within (block_in k b) x y)
        (share_by curve.now.at (packed_picture f.width f.height out.now k) (block_samples block.now
        (block_in k b).x (block_in k b).y) x y)) weights.old weights.new }
{
    let q = plane_of(f, k);
    let at = offset_of(f.width as usize, f.height as usize, k);
    let c = block_in(k, b);
    blend_square(block, q, c, curve, at, out, sums, weights);
}

// Whether a block is filtered in U and V: by half samples, where a component of its displacement is odd.
fn filters(d: Displacement, choice: Choice) -> bool
    requires { Short d }
    ensures { result ≡ filtered_in choice.half_sample 1 d }
{
    choice.half_sample && 0 < half::row(d.dx) + half::row(d.dy)
}

// One block of a frame at its displacement, in all three planes: U and V are copied. A function of its own, and each plane a call: with one
// function for a plane that is copied or filtered the builder was slower (docs/SPEED.md, request 6).
fn blend_copied(
    bytes: &[u8],
    f: Frame,
    b: Block,
    d: Displacement,
    curve: &Curve,
    out: &[u8],
    sums: &mut [u32],
    weights: &mut [u32],
)
    requires whole { Whole bytes.now f }
    requires lies { Lies b f.width f.height }
    requires short { Short d }
    requires lent { Lent (packed_size f.width f.height) out.now sums.old weights.old }
    requires slack { Slack 4 sums.old weights.old }
    ensures spread { Spread f.width f.height (λ k x y. gate (within (block_in k b) x y) (term_by curve.now.at (packed_picture f.width
        f.height out.now k) (displaced_by (displacement_in k d) (picture_of bytes.now f k)) x y)) sums.old
        sums.new }
    ensures spread_2 { Spread f.width f.height (λ k x y. gate (within (block_in k b) x y) (share_by curve.now.at (packed_picture f.width
        f.height out.now k) (displaced_by (displacement_in k d) (picture_of bytes.now f k)) x y)) weights.old
        weights.new }
{
    blend_in(bytes, f, 0, b, d, curve, out, sums, weights);
    blend_in(bytes, f, 1, b, d, curve, out, sums, weights);
    blend_in(bytes, f, 2, b, d, curve, out, sums, weights);
}

// The same with U and V filtered: their half samples stand in two blocks of 8 by 8.
fn blend_filtered(
    bytes: &[u8],
    f: Frame,
    b: Block,
    d: Displacement,
    u: &[u8],
    v: &[u8],
    curve: &Curve,
    out: &[u8],
    sums: &mut [u32],
    weights: &mut [u32],
)
    requires whole { Whole bytes.now f }
    requires lies { Lies b f.width f.height }
    requires short { Short d }
    requires u_value { u.now ≡ square_of 8 (pos (block_in 1 b).x) (pos (block_in 1 b).y) (half_sample d (picture_of bytes.now f 1)) }
    requires v_value { v.now ≡ square_of 8 (pos (block_in 2 b).x) (pos (block_in 2 b).y) (half_sample d (picture_of bytes.now f 2)) }
    requires lent { Lent (packed_size f.width f.height) out.now sums.old weights.old }
    requires slack { Slack 4 sums.old weights.old }
    ensures spread { Spread f.width f.height (λ k x y. gate (within (block_in k b) x y) (term_by curve.now.at (packed_picture f.width
        f.height out.now k) (sample_in true k d (picture_of bytes.now f k)) x y)) sums.old sums.new }
    ensures spread_2 { Spread f.width f.height (λ k x y. gate (within (block_in k b) x y) (share_by curve.now.at (packed_picture f.width
        f.height out.now k) (sample_in true k d (picture_of bytes.now f k)) x y)) weights.old
        weights.new }
{
    blend_in(bytes, f, 0, b, d, curve, out, sums, weights);
    blend_half(u, f, 1, b, curve, out, sums, weights);
    blend_half(v, f, 2, b, curve, out, sums, weights);
}

// One block of a frame at its displacement, in all three planes, where U and V pass; whether they do.
// Whether a block is filtered is asked once, and a block is filtered once, before it is measured.
fn blend_planes(
    bytes: &[u8],
    f: Frame,
    b: Block,
    d: Displacement,
    choice: Choice,
    curve: &Curve,
    out: &[u8],
    sums: &mut [u32],
    weights: &mut [u32],
) -> bool
    requires whole { Whole bytes.now f }
    requires lies { Lies b f.width f.height }
    requires short { Short d }
    requires lent { Lent (packed_size f.width f.height) out.now sums.old weights.old }
    requires slack { Slack 4 sums.old weights.old }
    ensures value { result ≡ chroma_passes choice (packed_picture f.width f.height out.now) (picture_of bytes.now f) b d }
    ensures spread { Spread f.width f.height (λ k x y. gate (chroma_passes choice (packed_picture f.width f.height out.now)
        (picture_of bytes.now f) b d) (gate (within (block_in k b) x y) (term_by curve.now.at (packed_picture f.width
        f.height out.now k) (sample_in choice.half_sample k d (picture_of bytes.now f k)) x y))) sums.old
        sums.new }
    ensures spread_2 { Spread f.width f.height (λ k x y. gate (chroma_passes choice (packed_picture f.width f.height out.now)
        (picture_of bytes.now f) b d) (gate (within (block_in k b) x y) (share_by curve.now.at (packed_picture f.width
        f.height out.now k) (sample_in choice.half_sample k d (picture_of bytes.now f k)) x y))) weights.old
        weights.new }
{
    if filters(d, choice) {
        let u = filtered(bytes, f, 1, b, d);
        let v = filtered(bytes, f, 2, b, d);
        if three::squares_pass(&u, &v, f, b, choice, out) {
            blend_filtered(bytes, f, b, d, &u, &v, curve, out, sums, weights);
            return true;
        }
        return false;
    }
    if three::copies_pass(bytes, f, b, d, choice, out) {
        blend_copied(bytes, f, b, d, curve, out, sums, weights);
        return true;
    }
    false
}

// The last best of the block in row i and column j of the grid.
fn motion_at(bytes: &[u8], f: Frame, i: usize, j: usize, out: &[u8]) -> Motion
    requires whole { Whole bytes.now f }
    requires i_bound { (16 * i < f.height) × (16 * j < f.width) }
    requires height_in_bounds { packed_size f.width f.height ≤ length out.now }
    ensures { Measured (cost_of (packed_scene f.width f.height out.now) (picture_of bytes.now f) i j) (displacement_of
        (packed_scene f.width f.height out.now) (picture_of bytes.now f) i j) result }
{
    let b = grid_block(f.width as usize, f.height as usize, i, j);
    let p = plane_of(f, 0);
    search::block_search(bytes, p, b, out)
}

// One block of a frame: searched, and where luma passes, and U and V by the choice, added in all three planes; whether it is.
fn blend_at(
    bytes: &[u8],
    f: Frame,
    i: usize,
    j: usize,
    choice: Choice,
    curve: &Curve,
    out: &[u8],
    sums: &mut [u32],
    weights: &mut [u32],
) -> bool
    requires whole { Whole bytes.now f }
    requires i_bound { (16 * i < f.height) × (16 * j < f.width) }
    requires lent { Lent (packed_size f.width f.height) out.now sums.old weights.old }
    requires slack { Slack 4 sums.old weights.old }
    ensures value { result ≡ chosen_accepts choice (packed_scene f.width f.height out.now) (picture_of bytes.now f) i j }
    ensures spread { Spread f.width f.height (λ k x y. gate (eqb (y / unit_of k) i) (gate (eqb (x / unit_of k) j) (curve_term choice curve.now.at
        (packed_scene f.width f.height out.now) (picture_of bytes.now f) k x y))) sums.old sums.new }
    ensures spread_2 { Spread f.width f.height (λ k x y. gate (eqb (y / unit_of k) i) (gate (eqb (x / unit_of k) j) (curve_share choice curve.now.at
        (packed_scene f.width f.height out.now) (picture_of bytes.now f) k x y))) weights.old
        weights.new }
{
    let b = grid_block(f.width as usize, f.height as usize, i, j);
    let m = motion_at(bytes, f, i, j, out);
    accepts(b, m.sad)
        && blend_planes(
            bytes,
            f,
            b,
            m.displacement,
            choice,
            curve,
            out,
            sums,
            weights,
        )
}

// All blocks in row i of the grid. The number of accepted blocks.
fn blend_grid_row(
    bytes: &[u8],
    f: Frame,
    i: usize,
    choice: Choice,
    curve: &Curve,
    out: &[u8],
    sums: &mut [u32],
    weights: &mut [u32],
) -> u32
    requires whole { Whole bytes.now f }
    requires i_bound { 16 * i < f.height }
    requires lent { Lent (packed_size f.width f.height) out.now sums.old weights.old }
    requires slack { Slack 5 sums.old weights.old }
    ensures value { (result ≡ sum_below (λ j. gate (chosen_accepts choice (packed_scene f.width f.height out.now)
        (picture_of bytes.now f) i j) 1) (grid_side f.width)) × (result ≤ grid_side f.width) }
    ensures spread { Spread f.width f.height (λ k x y. gate (eqb (y / unit_of k) i) (curve_term choice curve.now.at (packed_scene f.width
        f.height out.now) (picture_of bytes.now f) k x y)) sums.old sums.new }
    ensures spread_2 { Spread f.width f.height (λ k x y. gate (eqb (y / unit_of k) i) (curve_share choice curve.now.at (packed_scene f.width
        f.height out.now) (picture_of bytes.now f) k x y)) weights.old weights.new }
{
    let columns = (f.width as usize + 15) / 16;
    let mut count: u32 = 0;
    for j in 0..columns {
        if blend_at(bytes, f, i, j, choice, curve, out, sums, weights) {
            count += 1;
        }
    }
    count
}

// All blocks of a frame. The number of accepted blocks.
fn blend_frame(
    bytes: &[u8],
    f: Frame,
    choice: Choice,
    curve: &Curve,
    out: &[u8],
    sums: &mut [u32],
    weights: &mut [u32],
) -> u32
    requires whole { Whole bytes.now f }
    requires lent { Lent (packed_size f.width f.height) out.now sums.old weights.old }
    requires slack { Slack 6 sums.old weights.old }
    ensures value { (result ≡ accepted_in (curve_rule choice curve.now.at (packed_scene f.width f.height out.now)) (packed_scene f.width
        f.height out.now) (picture_of bytes.now f)) × (result ≤ 1048576) }
    ensures spread { Spread f.width f.height (curve_term choice curve.now.at (packed_scene f.width f.height out.now)
        (picture_of bytes.now f)) sums.old sums.new }
    ensures spread_2 { Spread f.width f.height (curve_share choice curve.now.at (packed_scene f.width f.height out.now)
        (picture_of bytes.now f)) weights.old weights.new }
{
    let rows = (f.height as usize + 15) / 16;
    let mut count: u32 = 0;
    for i in 0..rows {
        count += blend_grid_row(bytes, f, i, choice, curve, out, sums, weights);
    }
    count
}

// A frame's curve: the lesser of its cap and the curve's weight, at each difference.
fn capped(curve: &Curve, cap: u32) -> Curve
    ensures { result.at ≡ capped_curve curve.now.at cap }
{
    let mut cut = [0; 256];
    for e in 0..256 {
        cut[e] = cap.min(curve.at[e]);
    }
    Curve { at: cut }
}

// All frames but the centre, each with its curve cut at its cap. The number of accepted blocks.
pub(crate) fn blend_frames(
    bytes: &[u8],
    numbers: &[u32],
    count: usize,
    centre: usize,
    w: usize,
    h: usize,
    choice: Choice,
    curve: &Curve,
    out: &[u8],
    sums: &mut [u32],
    weights: &mut [u32],
) -> u32
    requires frames { Frames bytes.now numbers.now count w h }
    requires count_bound { (count ≤ 1024) × (0 < w) }
    requires lent { Lent (packed_size w h) out.now sums.old weights.old }
    requires slack { Slack 1030 sums.old weights.old }
    ensures value { result ≡ sum_over (other_blocks choice curve.now.at (packed_scene w h out.now))
        (others_of bytes.now numbers.now centre count) }
    ensures spread { Spread w h (λ k x y. sum_over (λ f. other_term choice curve.now.at (packed_scene w h out.now) f k x y) (others_of
        bytes.now numbers.now centre count)) sums.old sums.new }
    ensures spread_2 { Spread w h (λ k x y. sum_over (λ f. other_share choice curve.now.at (packed_scene w h out.now) f k x y) (others_of
        bytes.now numbers.now centre count)) weights.old weights.new }
{
    let mut total: u32 = 0;
    for g in 0..count {
        if g == centre {
            continue;
        }
        let f = window::frame_at(numbers, g);
        let cut = capped(curve, f.cap);
        total += blend_frame(bytes, f, choice, &cut, out, sums, weights);
    }
    total
}
