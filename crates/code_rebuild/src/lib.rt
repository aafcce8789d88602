// Rebuilding: the block whose fragments are those marked, by weights, whole columns at a time.
#![tactic(auto)]

ghost use Rattle.std.specs.Prelude.{◌≡◌, true, false, ℕ, suc, ◌+◌, ◌-◌, ◌*◌, ◌/◌, ◌^◌, ◌<◌, ◌≤◌, length, get_or, take};
ghost use Rattle.std.specs.Int.Count.{ones};
ghost use Rattle.code.specs.Code.{Apart};
ghost use Rattle.code_through.specs.Rebuild.{Rebuilt};
ghost use Rattle.code_through.specs.Fits.{First, Some, Wrote};
ghost use Rattle.code_sum.specs.Sums.{InArea};
ghost use Rattle.code_through.specs.Sums.{Master, Scales, Sums, Remade, Scattered, Column};

use code_sum::{combine, place};
use code_through::{advance, expand, members, scales, weights_at};

// The bytes of src into column m from row c on.
fn scatter(src: &[u8], out: &mut [u8], k: usize, m: usize, c: usize)
    requires { (m < k) × (k ≤ 64) × (c + length src.now ≤ 16388) × ((c + length src.now) * k ≤ length out.old) }
    ensures { Scattered src.now k m c (length src.now) out.old out.new }
{
    for i in 0..src.len() {
        out[(c + i) * k + m] = src[i];
    }
}

// Column m of the rows: the bytes at the points by their weights. sum is room to work in.
fn write_column(
    area: &[u8],
    s: usize,
    points: &[u8],
    ws: &[u8],
    count: usize,
    m: usize,
    out: &mut [u8],
    sum: &mut [u8],
)
    requires { InArea (length area.now) s points.now × (s ≤ 16388) × (count ≤ s) × (length ws.now ≡ length points.now) × (m < length points.now)
        × (length points.now ≤ 64) × (count * length points.now ≤ length out.old) × (0 < length sum.old) }
    ensures { Column area.now s points.now ws.now (length points.now) m count out.old out.new }
{
    let k = points.len();
    let mut c = 0;
    // Stays: a step is as long as the room, and the last one as what is left, which no range with a step says.
    while c < count {
        let n = (count - c).min(sum.len());
        combine(area, s, points, ws, c, n, sum);
        scatter(&sum[..n], out, k, m, c);
        c += n;
    }
}

// All rows, from the highest column down. m has the product of all X - x; ds its scales; ws is zeros, sum room to work in.
fn write_columns(
    area: &[u8],
    s: usize,
    points: &[u8],
    m: &[u8],
    ds: &[u8],
    count: usize,
    out: &mut [u8],
    ws: &mut [u8],
    sum: &mut [u8],
)
    requires { InArea (length area.now) s points.now × (s ≤ 16388) × (count ≤ s) × Apart points.now × (length points.now ≤ 64)
        × (count * length points.now ≤ length out.old) × Master points.now m.now × (length ds.now ≡ length points.now)
        × Scales points.now m.now ds.now × (length ws.old ≡ length points.now) × ((j : ℕ) → j < length ws.old → get_or ws.old j 0 ≡ 0)
        × (0 < length sum.old) }
    ensures { Wrote area.now s points.now count out.old out.new }
{
    for i in (0..points.len()).rev() {
        advance(points, ds, m[i + 1], ws);
        write_column(area, s, points, ws, count, i, out, sum);
    }
}

// Whether the bytes of a and b are the same, by all that they differ in: a loop without a branch, of which the compiler makes vector code.
// Stays: all that differs is gathered, so that the loop has no branch and becomes vector code.
fn same_bytes(a: &[u8], b: &[u8]) -> bool
    requires { length a.now ≡ length b.now }
    ensures yes { result ≡ true → (i : ℕ) → i < length a.now → get_or a.now i 0 ≡ get_or b.now i 0 }
    ensures no { ((i : ℕ) → i < length a.now → get_or a.now i 0 ≡ get_or b.now i 0) → result ≡ true }
{
    let mut differ: u8 = 0;
    for i in 0..a.len() {
        differ |= a[i] ^ b[i];
    }
    differ == 0
}

// Whether each of count bytes of fragment z is the sum of the bytes at the points by their weights. sum is room to work in.
fn column_agrees(
    area: &[u8],
    s: usize,
    points: &[u8],
    ws: &[u8],
    z: u8,
    count: usize,
    sum: &mut [u8],
) -> bool
    requires { InArea (length area.now) s points.now × (s ≤ 16388) × (count ≤ s) × (length ws.now ≡ length points.now) × (0 < z) × (z ≤ 64)
        × (z * s ≤ length area.now) × (0 < length sum.old) }
    ensures yes { result ≡ true → (c : ℕ) → c < count → Sums area.now s points.now ws.now z c }
    ensures no { result ≡ false → ((c : ℕ) → c < count → Sums area.now s points.now ws.now z c) → ⊥ }
{
    let mut c = 0;
    // Stays: in steps as write_column's.
    while c < count {
        let n = (count - c).min(sum.len());
        combine(area, s, points, ws, c, n, sum);
        let from = place(z, s, c);
        if !same_bytes(&sum[..n], &area[from..from + n]) {
            return false;
        }
        c += n;
    }
    true
}

// Whether some rows give the count bytes of every marked fragment. The points are the first of those marked; ws and sum are room to work in.
fn others_agree(
    area: &[u8],
    s: usize,
    points: &[u8],
    marked: &[u8],
    m: &[u8],
    ds: &[u8],
    count: usize,
    ws: &mut [u8],
    sum: &mut [u8],
) -> bool
    requires { InArea (length area.now) s marked.now × (s ≤ 16388) × (count ≤ s) × Apart points.now × First points.now marked.now
        × Master points.now m.now × (length ds.now ≡ length points.now) × Scales points.now m.now ds.now
        × (length ws.old ≡ length points.now) × (0 < length sum.old) }
    ensures yes { result ≡ true → (c : ℕ) → c < count → Some area.now s c marked.now (length points.now) }
    ensures no { result ≡ false → ((c : ℕ) → c < count → Some area.now s c marked.now (length points.now)) → ⊥ }
{
    for i in points.len()..marked.len() {
        let z = marked[i];
        weights_at(points, ds, z, ws);
        if !column_agrees(area, s, points, ws, z, count, sum) {
            return false;
        }
    }
    true
}

// The block whose fragments are all those marked: true, with its rows in out; or false where there is none, and out is left as it was.
// The points are the first of those marked. m, ds, ws and sum are room to work in.
fn rebuild_in(
    area: &[u8],
    s: usize,
    points: &[u8],
    marked: &[u8],
    count: usize,
    out: &mut [u8],
    m: &mut [u8],
    ds: &mut [u8],
    ws: &mut [u8],
    sum: &mut [u8],
) -> bool
    requires { InArea (length area.now) s marked.now × (s ≤ 16388) × (count ≤ s) × Apart points.now × First points.now marked.now
        × (length points.now ≤ 64) × (count * length points.now ≤ length out.old) × (length m.old ≡ suc (length points.now))
        × (length ds.old ≡ length points.now) × (length ws.old ≡ length points.now) × (0 < length sum.old) }
    ensures { Remade area.now s points.now marked.now count out.old out.new result }
{
    expand(points, m);
    scales(points, m, ws, ds);
    if others_agree(area, s, points, marked, m, ds, count, ws, sum) {
        ws.fill(0);
        write_columns(area, s, points, m, ds, count, out, ws, sum);
        return true;
    }
    false
}

// The same, with the marked boards in ascending order: the first k are rebuilt from, and the others compared.
fn rebuild_listed(
    area: &[u8],
    s: usize,
    marked: &[u8],
    k: usize,
    count: usize,
    out: &mut [u8],
) -> bool
    requires { InArea (length area.now) s marked.now × (s ≤ 16388) × (count ≤ s) × Apart marked.now × (k ≤ 64) × (k ≤ length marked.now)
        × (count * k ≤ length out.old) }
    ensures { Remade area.now s (take k marked.now) marked.now count out.old out.new result }
{
    let mut m = [0u8; 65];
    let mut ds = [0u8; 64];
    let mut ws = [0u8; 64];
    let mut sum = [0u8; 112];
    rebuild_in(
        area,
        s,
        &marked[..k],
        marked,
        count,
        out,
        &mut m[..k + 1],
        &mut ds[..k],
        &mut ws[..k],
        &mut sum,
    )
}

// The one block of len rows of k bytes whose fragments are all those marked, into out: true; or false where there is none, and out is left
// as it was. Fragment i + 1 of the n stands in the area from i * s on.
// Stays: a bool beside the buffer, as Rebuilt says it; area, room and points one by one, as code_sum's combine takes them.
pub fn rebuild(
    area: &[u8],
    s: usize,
    n: usize,
    k: usize,
    marked: u64,
    len: usize,
    out: &mut [u8],
) -> bool
    requires { (n ≤ 64) × (0 < k) × (k ≤ 64) × (n * s ≤ length area.now) × (s ≤ 16388) × (0 < len) × (len ≤ s) × (marked / 2 ^ n ≡ 0)
        × (k ≤ ones marked) × (len * k ≤ length out.old) }
    ensures { Rebuilt n k s len marked area.now out.old result out.new }
{
    let mut list = [0u8; 64];
    let count = members(marked, n, &mut list);
    rebuild_listed(area, s, &list[..count], k, len, out)
}
