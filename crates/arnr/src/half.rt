// Half samples: a block of 8 by 8 of a plane, by two passes of the six-tap filter over samples whose edges repeat.
ghost use Rattle.std.specs.Prelude.{◌≡◌, ◌+◌, ◌*◌, ◌%◌, ◌<◌, ◌≤◌, pos, ◌-ℤ◌, length};
ghost use Rattle.laws.specs.Signed.{above, below};
ghost use Rattle.laws.specs.Tabulate.{tabulate};
ghost use Rattle.laws.specs.Internal.{Filling};
ghost use Rattle.prediction.specs.Plane.{sample_at};
ghost use Rattle.prediction.specs.Filter.{sixtap};
ghost use Rattle.prediction.specs.Prediction.{square_of};
ghost use Rattle.filters.specs.Internal.{window, filtered_list};
ghost use Rattle.denoiser.specs.Search.{displaced_by};
ghost use Rattle.denoiser.specs.Chroma.{half_down, half_row, half_sample};
ghost use Rattle.denoiser.specs.Internal.{Fits, Short, plane_in, halo_by, halo_entry, across_eight, down_eight};

use crate::sad;
use denoiser::{Displacement, PlaneNumbers};
use sixtap::halfway;

// The six-tap row of a component: 0 where it is even, 4 where it is odd.
pub(crate) fn row(v: i32) -> u32
    requires { (above v ≤ 15) × (below v ≤ 15) }
    ensures { (result ≡ half_row v) × (result ≤ 4) × (result % 4 ≡ 0) }
{
    ((v - (v >> 1) * 2) * 4) as u32
}

// Half of a component, rounded down, and two back.
fn back(v: i32) -> i32
    requires { (above v ≤ 15) × (below v ≤ 15) }
    ensures { result ≡ half_down v -ℤ pos 2 }
{
    (v >> 1) - 2
}

// Where the samples around a block begin: two left of it and two above, by the whole offsets.
fn halo_by(d: Displacement) -> Displacement
    requires { Short d }
    ensures { (result ≡ halo_by d) × Short result }
{
    Displacement {
        dx: back(d.dx),
        dy: back(d.dy),
    }
}

// Row r of the samples around a block.
fn halo_row(
    out: &mut [u8; 208],
    r: usize,
    bytes: &[u8],
    p: PlaneNumbers,
    x: usize,
    y: usize,
    d: Displacement,
)
    requires fits { Fits bytes.now p }
    requires r_bound { (r < 13) × (x ≤ 16383) × (y ≤ 16383) }
    requires short { Short d }
    requires filling { Filling (halo_entry (displaced_by d (sample_at (plane_in bytes.now p))) x y) 208 out.old (r * 16) }
    ensures { Filling (halo_entry (displaced_by d (sample_at (plane_in bytes.now p))) x y) 208 out.new (r * 16 + 16) }
{
    let row = sad::displaced_row(bytes, p, x, y + r, 16, d);
    for k in 0..16 {
        out[r * 16 + k] = row[k];
    }
}

// 13 rows of 16 samples, from (x, y) moved by d on.
fn halo(bytes: &[u8], p: PlaneNumbers, x: usize, y: usize, d: Displacement) -> [u8; 208]
    requires fits { Fits bytes.now p }
    requires x_bound { (x ≤ 16383) × (y ≤ 16383) }
    requires short { Short d }
    ensures { result ≡ tabulate 208 (halo_entry (displaced_by d (sample_at (plane_in bytes.now p))) x y) }
{
    let mut out = [0u8; 208];
    for r in 0..13 {
        halo_row(&mut out, r, bytes, p, x, y, d);
    }
    out
}

// Six samples, the first at `at`, each `step` past the one before. It stands in `sixtap` too, which cannot lend it: a public function has
// no `requires`.
fn six(a: &[u8], at: usize, step: usize) -> [u8; 6]
    requires { (at + 5 * step < length a.now) × (step ≤ 8) }
    ensures { result ≡ window a.now at step }
{
    [
        a[at],
        a[at + step],
        a[at + 2 * step],
        a[at + 3 * step],
        a[at + 4 * step],
        a[at + 5 * step],
    ]
}

// One sample of a pass by the six-tap row 0, which copies, or 4.
fn passed(s: u32, support: [u8; 6]) -> u8
    requires { (s ≤ 4) × (s % 4 ≡ 0) }
    ensures { result ≡ filtered_list sixtap s support }
{
    if s == 0 { support[2] } else { halfway(support) }
}

// Row r of the first pass. It and `down` stay two functions: as one by its row and step, the builder with half samples took 1.18 of its time.
fn across_row(out: &mut [u8; 104], halo: &[u8; 208], s: u32, r: usize)
    requires { (r < 13) × (s ≤ 4) × (s % 4 ≡ 0) × (length halo.now ≡ 208) × Filling (across_eight s halo.now) 104 out.old (r * 8) }
    ensures { Filling (across_eight s halo.now) 104 out.new (r * 8 + 8) }
{
    for k in 0..8 {
        let support = six(halo, r * 16 + k, 1);
        out[r * 8 + k] = passed(s, support);
    }
}

// The first pass, across: 13 rows of 8.
fn across(halo: [u8; 208], s: u32) -> [u8; 104]
    requires { (s ≤ 4) × (s % 4 ≡ 0) }
    ensures { result ≡ tabulate 104 (across_eight s halo) }
{
    let mut out = [0u8; 104];
    for r in 0..13 {
        across_row(&mut out, &halo, s, r);
    }
    out
}

// The second pass, down: 8 rows of 8.
fn down(rows: [u8; 104], s: u32) -> [u8; 64]
    requires { (s ≤ 4) × (s % 4 ≡ 0) }
    ensures { result ≡ tabulate 64 (down_eight s rows) }
{
    let mut out = [0u8; 64];
    for i in 0..64 {
        let support = six(&rows, i, 8);
        out[i] = passed(s, support);
    }
    out
}

// The 8 by 8 half samples of a plane from (x, y) on.
pub(crate) fn block(bytes: &[u8], p: PlaneNumbers, x: usize, y: usize, d: Displacement) -> [u8; 64]
    requires fits { Fits bytes.now p }
    requires x_bound { (x ≤ 16383) × (y ≤ 16383) }
    requires short { Short d }
    ensures { result ≡ square_of 8 (pos x) (pos y) (half_sample d (sample_at (plane_in bytes.now p))) }
{
    let around = halo(bytes, p, x, y, halo_by(d));
    let rows = across(around, row(d.dx));
    down(rows, row(d.dy))
}
