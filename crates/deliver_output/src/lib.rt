// What a board delivers in the output stage: the message whose fragments were kept, or void. No block is held in memory: each of its bytes,
// and of its fragments' bytes, is a weighed sum of the kept bytes of its row.
#![tactic(auto)]

ghost use Rattle.std.specs.Prelude.{◌≡◌, true, List, ℕ, suc, ◌+◌, ◌-◌, ◌*◌, ◌/◌, ◌^◌, ◌<◌, ◌≤◌, length, get_or, Some};
ghost use Rattle.std.specs.Int.Count.{ones};
ghost use Rattle.octets.specs.Bytes.{two_at, part, put};
ghost use Rattle.octets.specs.Sets.{has};
ghost use Rattle.table.specs.Table.{k_of, s_max};
ghost use Rattle.code.specs.Code.{Apart};
ghost use Rattle.code_sum.specs.Sums.{InArea, weighed};
ghost use Rattle.code_through.specs.Through.{block_through};
ghost use Rattle.deliver_afresh.specs.Working.{Made};
ghost use Rattle.deliver.specs.Delivered.{all_of_length, block_read, afresh, result_from, result_of, left, left_by};
ghost use Rattle.deliver.specs.Working.{Whole, Copied};

use deliver::{Delivery, begin};
use deliver_afresh::Fragments;
use octets::two_at;
use table::InLimits;

// Byte p of the block, x: into out, if it is the message's, of `size` bytes.
// Stays: size beside out, and steps by hand; with a slice of the message and step_by the delivering step took 1,584 bytes (measured; limit 1,560).
fn copy_byte(out: &mut [u8], p: usize, size: usize, x: u8)
    requires { (size ≤ 16384) × (size ≤ length out.old) }
    ensures { (b old : List ℕ) (k q c : ℕ) → p ≡ c * k + q → x ≡ get_or b (c * k + q) 0 → Copied b size k (suc q) c old out.old
        → Copied b size k (suc q) (c + 1) old out.new }
{
    if p < 4 {
        return;
    }
    if 4 + size <= p {
        return;
    }
    out[p - 4] = x;
}

// The bytes of src, which are those of column q from row c on: into out, as far as they are the message's, of `size` bytes.
fn copy_column(src: &[u8], out: &mut [u8], k: usize, q: usize, c: usize, size: usize)
    requires { (q < k) × (k ≤ 64) × (c + length src.now ≤ 16388) × (size ≤ 16384) × (size ≤ length out.old) }
    ensures { (b old : List ℕ) → ((i : ℕ) → i < length src.now → get_or src.now i 0 ≡ get_or b ((c + i) * k + q) 0)
        → Copied b size k (suc q) c old out.old → Copied b size k (suc q) (c + length src.now) old out.new }
{
    for i in 0..src.len() {
        copy_byte(out, (c + i) * k + q, size, src[i]);
    }
}

// Column q of the message. ws has the weights of coefficient q; sum is room to work in.
fn write_column(
    kept: &Fragments<'_>,
    ws: &[u8],
    len: usize,
    q: usize,
    size: usize,
    out: &mut [u8],
    sum: &mut [u8],
)
    requires { (len ≤ kept.now.s) × (length ws.now ≡ length kept.now.points.now) × (q < length kept.now.points.now)
        × (size ≤ 16384) × (size ≤ length out.old) × (length sum.old ≡ 64) }
    ensures { (b old : List ℕ)
        → ((c : ℕ) → c < len → weighed kept.now.area.now kept.now.s kept.now.points.now ws.now c (length kept.now.points.now) ≡ get_or b (c * length kept.now.points.now + q) 0)
        → Copied b size (length kept.now.points.now) (suc q) 0 old out.old → Copied b size (length kept.now.points.now) (suc q) len old out.new }
{
    let k = kept.points.len();
    // Stays: as at copy_byte, measured.
    let mut c = 0;
    while c < len {
        let n = (len - c).min(64);
        code_sum::combine(kept.area, kept.s, kept.points, ws, c, n, sum);
        copy_column(&sum[..n], out, k, q, c, size);
        c += n;
    }
}

// The message, of `size` bytes, from the highest column down. ws and sum are room to work in.
fn write_message(
    kept: &Fragments<'_>,
    m: &[u8],
    ds: &[u8],
    len: usize,
    size: usize,
    out: &mut [u8],
    ws: &mut [u8],
    sum: &mut [u8],
)
    requires { (length ds.now ≡ length kept.now.points.now) × (length ws.old ≡ length kept.now.points.now) × (length sum.old ≡ 64)
        × (len ≤ kept.now.s) × (size ≤ 16384) × (size ≤ length out.old) × (4 + size ≤ len * length kept.now.points.now) × (length m.now ≡ suc (length kept.now.points.now)) }
    ensures { (b : List ℕ) → Made kept.now.area.now kept.now.s kept.now.points.now m.now ds.now len b → out.new ≡ put 0 (part 4 size b) out.old }
{
    ws.fill(0);
    for i in (0..kept.points.len()).rev() {
        code_through::advance(kept.points, ds, m[i + 1], ws);
        write_column(kept, ws, len, i, size, out, sum);
    }
}

// What is worked out after the fresh root: the message, of `size` bytes. m, ds, ws and sum are room to work in.
fn finish_in(
    kept: &Fragments<'_>,
    len: usize,
    size: usize,
    out: &mut [u8],
    m: &mut [u8],
    ds: &mut [u8],
    ws: &mut [u8],
    sum: &mut [u8],
)
    requires { (length ds.old ≡ length kept.now.points.now) × (length ws.old ≡ length kept.now.points.now) × (length sum.old ≡ 64)
        × (len ≤ kept.now.s) × (size ≤ 16384) × (size ≤ length out.old) × (4 + size ≤ len * length kept.now.points.now) × (length m.old ≡ suc (length kept.now.points.now))
        × Apart kept.now.points.now }
    ensures { (given : List ℕ) → Whole kept.now.area.now kept.now.s kept.now.points.now len given → out.new ≡ put 0 (part 4 size given) out.old }
{
    code_through::prepare(kept.points, m, ws, ds);
    write_message(kept, m, ds, len, size, out, ws, sum);
}

// The same, in the front of `room`.
fn finish(
    kept: &Fragments<'_>,
    len: usize,
    size: usize,
    out: &mut [u8],
    ds: &mut [u8],
    ws: &mut [u8],
    sum: &mut [u8],
    room: &mut [u8],
)
    requires { (length ds.old ≡ length kept.now.points.now) × (length ws.old ≡ length kept.now.points.now) × (length sum.old ≡ 64)
        × (len ≤ kept.now.s) × (size ≤ 16384) × (size ≤ length out.old) × (4 + size ≤ len * length kept.now.points.now) × (224 ≤ length room.old) × Apart kept.now.points.now }
    ensures { (given : List ℕ) → Whole kept.now.area.now kept.now.s kept.now.points.now len given → out.new ≡ put 0 (part 4 size given) out.old }
{
    let k = kept.points.len();
    finish_in(kept, len, size, out, &mut room[..k + 1], ds, ws, sum);
}

// The length given for board x.
fn length_of(lengths: &[u8], x: u8) -> usize
    requires { (0 < x) × (x ≤ 64) × (2 * x ≤ length lengths.now) }
    ensures { result ≡ two_at lengths.now (2 * (x - 1)) }
{
    two_at(lengths, 2 * (usize::from(x) - 1))
}

// Whether the lengths given for the points are all len.
fn all_of_length(lengths: &[u8], points: &[u8], len: usize) -> bool
    requires { InArea (length lengths.now) 2 points.now }
    ensures { (fragment : ℕ → List ℕ) → ((i : ℕ) → i < length points.now
        → length (fragment (get_or points.now i 0)) ≡ two_at lengths.now (2 * (get_or points.now i 0 - 1)))
        → result ≡ all_of_length len points.now fragment }
{
    for &x in points {
        if length_of(lengths, x) != len {
            return false;
        }
    }
    true
}

// The message that the fragments at the points give, all of len bytes, if it has the root; else void. ds, row, ws, sum and room are room to work
// in: the product of all X - x is in `room` before and after the fresh root, whose hashes wait there.
fn deliver_in(
    b: InLimits,
    kept: &Fragments<'_>,
    len: usize,
    root: &[u8],
    out: &mut [u8],
    ds: &mut [u8],
    row: &mut [u8],
    ws: &mut [u8],
    sum: &mut [u8],
    room: &mut [u8],
) -> Delivery
    requires { (length kept.now.points.now ≡ k_of b.table) × (length ds.old ≡ length kept.now.points.now) × (0 < len) × (len ≤ kept.now.s)
        × (length root.now ≡ 32) × (b.table.longest ≤ length out.old) × (length row.old ≡ length kept.now.points.now) × (length ws.old ≡ length kept.now.points.now)
        × (length sum.old ≡ 64) × (224 ≤ length room.old) × Apart kept.now.points.now }
    ensures { (fragment : ℕ → List ℕ) → ((i : ℕ) → i < length kept.now.points.now
        → fragment (get_or kept.now.points.now i 0) ≡ part ((get_or kept.now.points.now i 0 - 1) * kept.now.s) len kept.now.area.now)
        → left (Some result) out.new ≡ left_by (afresh b.table root.now (block_read b.table (block_through len kept.now.points.now fragment))) out.old }
{
    let Some(size) = begin(b, kept, len, ds, row, ws, sum, room) else {
        return Delivery::Void;
    };
    deliver_afresh::fresh_root(kept, ds, row, len, b.table.n, ws, sum, room);
    if &room[..32] != root {
        return Delivery::Void;
    }
    finish(kept, len, size, out, ds, ws, sum, room);
    Delivery::Message {
        length: size as u32,
    }
}

// What the k fragments at the points give, in rooms of s_max bytes.
fn deliver_from(
    b: InLimits,
    lengths: &[u8],
    area: &[u8],
    s: usize,
    points: &[u8],
    root: &[u8],
    out: &mut [u8],
) -> Delivery
    requires { (s ≡ s_max b.table) × (length points.now ≡ k_of b.table) × InArea (length lengths.now) 2 points.now
        × InArea (length area.now) s points.now × Apart points.now
        × ((i : ℕ) → i < length points.now → (1 ≤ two_at lengths.now (2 * (get_or points.now i 0 - 1))) × (two_at lengths.now (2 * (get_or points.now i 0 - 1)) ≤ s))
        × (length root.now ≡ 32) × (b.table.longest ≤ length out.old) }
    ensures { left (Some result) out.new ≡ left_by (result_from b.table root.now points.now
        (λ i. part ((i - 1) * s) (two_at lengths.now (2 * (i - 1))) area.now)) out.old }
{
    let k = points.len();
    let len = length_of(lengths, points[0]);
    if !all_of_length(lengths, points, len) {
        return Delivery::Void;
    }
    let kept = Fragments {
        area: area,
        s: s,
        points: points,
    };
    let mut ds = [0u8; 64];
    let mut row = [0u8; 64];
    let mut ws = [0u8; 64];
    let mut sum = [0u8; 64];
    let mut room = [0u8; 224];
    deliver_in(
        b,
        &kept,
        len,
        root,
        out,
        &mut ds[..k],
        &mut row[..k],
        &mut ws[..k],
        &mut sum,
        &mut room,
    )
}

// What a board delivers once k usable echoes name the root: the message that the k lowest-numbered fragments of the set give, into out, if
// encoding it afresh gives the root again; else void, and out is left as it was. Board i is bit i - 1 of the set.
pub fn deliver(
    b: InLimits,
    lengths: &[u8],
    area: &[u8],
    set: u64,
    root: &[u8],
    out: &mut [u8],
) -> Delivery
    requires { (2 * b.table.n ≤ length lengths.now) × (b.table.n * s_max b.table ≤ length area.now) × (set / 2 ^ b.table.n ≡ 0) × (k_of b.table ≤ ones set)
        × ((i : ℕ) → i < b.table.n → has set i ≡ true → (1 ≤ two_at lengths.now (2 * i)) × (two_at lengths.now (2 * i) ≤ s_max b.table))
        × (length root.now ≡ 32) × (b.table.longest ≤ length out.old) }
    ensures { left (Some result) out.new ≡ left_by (result_of b.table root.now set
        (λ i. part ((i - 1) * s_max b.table) (two_at lengths.now (2 * (i - 1))) area.now)) out.old }
{
    let k = b.fragments_needed();
    let s = b.fragment_most();
    let mut list = [0u8; 64];
    code_through::members(set, b.table.n, &mut list);
    deliver_from(b, lengths, area, s, &list[..k], root, out)
}
