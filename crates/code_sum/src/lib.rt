// Weighed sums of fragments: bytes of the fragments at some points, each times its weight, added up, many bytes at a time.
#![tactic(auto)]

ghost use Rattle.std.specs.Prelude.{◌≡◌, true, ℕ, ◌+◌, ◌-◌, ◌*◌, ◌^◌, ◌<◌, ◌≤◌, length, get_or};
ghost use Rattle.field.specs.Field.{add};
ghost use Rattle.code_sum.specs.Sums.{InArea, weighed, Added};
ghost use Rattle.code_sum.specs.Blocks.{Weighable, Summed, Low, picked};

use field::Element;
use octets::clear_at;

// The first bytes of sum have w times those of src added. (A loop that the compiler makes vector code of.)
fn accumulate(sum: &mut [u8], src: &[u8], w: u8)
    requires { length src.now ≤ length sum.old }
    ensures { Added w src.now 0 (length src.now) sum.old sum.new }
{
    for c in 0..src.len() {
        sum[c] = Element(sum[c]).fold(Element(w), Element(src[c])).0;
    }
}

// Where byte c of fragment x stands, with room s for each.
pub fn place(x: u8, s: usize, c: usize) -> usize
    requires { (0 < x) × (x ≤ 64) × (s ≤ 16388) × (c ≤ s) }
    ensures { result ≡ (x - 1) * s + c }
{
    (usize::from(x) - 1) * s + c
}

// How many bits a byte takes. (Were it always 8, the compiler would lay out eight rounds in a line and keep the sum in memory.)
fn width(top: u8) -> u8
    ensures { (result ≤ 8) × (top < 2 ^ result) }
{
    for b in (0..8).rev() {
        if 0 < top >> b {
            return b + 1;
        }
    }
    0
}

// All bytes of src are added to the first of sum.
fn add_part(sum: &mut [u8], src: &[u8])
    requires { length src.now ≤ length sum.old }
    ensures { (i : ℕ) → i < length src.now → get_or sum.new i 0 ≡ add (get_or sum.old i 0) (get_or src.now i 0) }
{
    for i in 0..src.len() {
        sum[i] = Element(sum[i]).add(Element(src[i])).0;
    }
}

// Bytes c, c + 1, .. of the fragments whose weights have bit b are added, as many as there are sums.
fn add_picked(area: &[u8], s: usize, points: &[u8], ws: &[u8], b: u8, c: usize, sum: &mut [u8])
    requires { Weighable (length area.now) s points.now ws.now c (length sum.old) × (b < 8) }
    ensures { (i : ℕ) → i < length sum.old → get_or sum.new i 0 ≡ add (get_or sum.old i 0)
        (picked area.now s points.now ws.now b (c + i) (length points.now)) }
{
    for j in 0..points.len() {
        if (ws[j] >> b) % 2 == 1 {
            let from = place(points[j], s, c);
            add_part(sum, &area[from..from + sum.len()]);
        }
    }
}

// From zeros, bytes c, c + 1, .. of the fragments at the points, each times its weight, added up: by the bits of the weights from the highest
// down, so that the sum is doubled, and not each product. (It is called with an array for sum, and its loops become straight lines.)
fn sum_up(area: &[u8], s: usize, points: &[u8], ws: &[u8], c: usize, bits: u8, sum: &mut [u8])
    requires { Weighable (length area.now) s points.now ws.now c (length sum.old) × (bits ≤ 8) × Low bits ws.now
        × ((i : ℕ) → i < length sum.old → get_or sum.old i 0 ≡ 0) }
    ensures { Summed area.now s points.now ws.now c (length sum.old) sum.new }
{
    for b in (0..bits).rev() {
        field::double_all(sum);
        add_picked(area, s, points, ws, b, c, sum);
    }
}

// N such bytes into out. (The sum stays in registers; out might be a part of the area, for all that the compiler knows.)
fn put_sum<const N: usize>(
    area: &[u8],
    s: usize,
    points: &[u8],
    ws: &[u8],
    c: usize,
    out: &mut [u8],
)
    requires { Weighable (length area.now) s points.now ws.now c N × (N ≤ length out.old) }
    ensures { Summed area.now s points.now ws.now c N out.new }
{
    let mut sum = [0u8; N];
    sum_up(area, s, points, ws, c, width(octets::largest(ws)), &mut sum);
    octets::copy_at(out, 0, &sum);
}

// The n bytes from d on stand at the front.
fn shift(sum: &mut [u8], d: usize, n: usize)
    requires { d + n ≤ length sum.old }
    ensures { (i : ℕ) → i < n → get_or sum.new i 0 ≡ get_or sum.old (d + i) 0 }
{
    if d == 0 {
        return;
    }
    for i in 0..n {
        sum[i] = sum[d + i];
    }
}

// Whether a block of w bytes takes n, and lies in a room of s and in a buffer.
fn takes(w: usize, n: usize, s: usize, size: usize) -> bool
    ensures { result ≡ true → (n ≤ w) × (w ≤ s) × (w ≤ size) }
{
    if n > w {
        return false;
    }
    if s < w {
        return false;
    }
    w <= size
}

// Where a block of w bytes begins that has the n from c on, in a room of s.
fn begin(w: usize, c: usize, n: usize, s: usize) -> usize
    requires { (n ≤ w) × (w ≤ s) × (c + n ≤ s) }
    ensures { (result ≤ c) × (result + w ≤ s) × (c + n ≤ result + w) }
{
    if c < s - w { c } else { s - w }
}

// Bytes c, c + 1, .. of the fragments at the points, n of them, each times its weight, added up: one fragment after the other.
// (Apart, so that the blocks keep their registers; it is jumped to, with the same parameters.)
#[inline(never)]
fn combine_each(area: &[u8], s: usize, points: &[u8], ws: &[u8], c: usize, n: usize, sum: &mut [u8])
    requires { Weighable (length area.now) s points.now ws.now c n × (n ≤ length sum.old) }
    ensures { Summed area.now s points.now ws.now c n sum.new }
{
    clear_at(sum, 0, n);
    for j in 0..points.len() {
        let from = place(points[j], s, c);
        accumulate(sum, &area[from..from + n], ws[j]);
    }
}

// The same, by a block of 112 or 64 bytes where the rooms are as long: it may begin before byte c, and ends in its room. (`&*` lets the compiler
// hand the slices over in registers, so that no caller lays them out on its stack; and it is apart, so that its block lies in no frame of a caller.)
// Stays: area, room, points and weights one by one: a struct of slices is handed over in memory, in the frame of each caller, and those of the
// delivering step have 1,560 bytes. sum has room for a whole block, so that n is not its length.
#[inline(never)]
pub fn combine(area: &[u8], s: usize, points: &[u8], ws: &[u8], c: usize, n: usize, sum: &mut [u8])
    requires { InArea (length area.now) s points.now × (s ≤ 16388) × (c + n ≤ s) × (length ws.now ≡ length points.now) × (n ≤ length sum.old) }
    ensures { (i : ℕ) → i < n → get_or sum.new i 0 ≡ weighed area.now s points.now ws.now (c + i) (length points.now) }
{
    if takes(112, n, s, sum.len()) {
        let at = begin(112, c, n, s);
        put_sum::<112>(&*area, s, &*points, &*ws, at, sum);
        shift(sum, c - at, n);
        return;
    }
    if takes(64, n, s, sum.len()) {
        let at = begin(64, c, n, s);
        put_sum::<64>(&*area, s, &*points, &*ws, at, sum);
        shift(sum, c - at, n);
        return;
    }
    combine_each(&*area, s, &*points, &*ws, c, n, sum);
}
