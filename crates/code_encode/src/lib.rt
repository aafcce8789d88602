// Encoding: fragments of a message, whole columns at a time. A column is added to the rows of each board whose power has the bit, and doubled
// between the bits: once for all boards.
#![tactic(auto)]

ghost use Rattle.std.specs.Prelude.{◌≡◌, ◌++◌, ℕ, suc, ◌+◌, ◌-◌, ◌*◌, ◌/◌, ◌%◌, ◌^◌, ◌<◌, ◌≤◌, length, get_or};
ghost use Rattle.field.specs.Field.{add, mul};
ghost use Rattle.octets.specs.Bytes.{put, place_each};
ghost use Rattle.code.specs.Code.{fragment_byte, fragment_of};
ghost use Rattle.code.specs.Block.{header, rows, block};
ghost use Rattle.code_encode.specs.Patch.{Drawn, Filled, Patch, HasRooms, in_block, plus_bit, plus_times};

use code::{block_byte, row_count};
use field::Element;

// How many rows are worked on at a time.
const COLUMN: usize = 128;

// The bytes of src added to those of the area from a place on. (A loop that the compiler makes vector code of.)
fn add_in(area: &mut [u8], from: usize, src: &[u8])
    requires { from + length src.now ≤ length area.old }
    ensures { Filled from (length src.now) (λ d. add (get_or area.old (from + d) 0) (get_or src.now d 0)) area.old area.new }
{
    for d in 0..src.len() {
        area[from + d] = Element(area[from + d]).add(Element(src[d])).0;
    }
}

// The same with bit times the bytes of src.
fn add_bit(area: &mut [u8], from: usize, bit: u8, src: &[u8])
    requires { (from + length src.now ≤ length area.old) × (bit < 2) }
    ensures { Filled from (length src.now) (λ d. add (get_or area.old (from + d) 0) (bit * get_or src.now d 0)) area.old area.new }
{
    if bit == 0 {
        return;
    }
    // Stays: a loop whose length is written out is compiled without ends to see to.
    if src.len() == COLUMN {
        add_in(area, from, &src[..COLUMN]);
        return;
    }
    add_in(area, from, src);
}

// The column added to the bytes of each room, from `at` on, if the board's power has bit b.
fn add_marked(area: &mut [u8], at: usize, s: usize, b: usize, powers: &[u8], column: &[u8])
    requires { HasRooms at (length powers.now) s (length column.now) (length area.old) × (b < 8) }
    ensures { Patch at (length powers.now) s (length column.now) (plus_bit at s b powers.now column.now area.old) area.old area.new }
{
    for i in 0..powers.len() {
        add_bit(area, at + i * s, (powers[i] >> b) % 2, column);
    }
}

// The column, times the board's power, added to the bytes of each room, from `at` on: bit by bit, as far as the largest power has any. The column
// is used up.
fn add_column(area: &mut [u8], at: usize, s: usize, powers: &[u8], column: &mut [u8])
    requires { HasRooms at (length powers.now) s (length column.old) (length area.old) }
    ensures { Patch at (length powers.now) s (length column.old) (plus_times at s powers.now column.old area.old) area.old area.new }
{
    let most = octets::largest(powers);
    let mut b = 0;
    // Stays: the last round ends before the column is doubled, and the first one is always done, which no range says.
    loop {
        add_marked(area, at, s, b, powers, column);
        if most >> b < 2 {
            return;
        }
        field::double_all(column);
        b += 1;
    }
}

// Every k-th byte of a message's block, from place a to place e of the column: within the message.
// Stays: places a to e of the column, of which Drawn speaks.
fn gather_inside(message: &[u8], k: usize, from: usize, a: usize, e: usize, column: &mut [u8])
    requires { (0 < k) × (a ≤ e) × (a < e → 4 ≤ a) × (from + e * k < length message.now + 4 + k) × (k ≤ 64) × (e ≤ length column.old) }
    ensures { Drawn a e (in_block message.now k from) column.old column.new }
{
    let mut at = from + a * k;
    for i in a..e {
        column[i] = message[at - 4];
        at += k;
    }
}

// The same of any part of the block: also of its header, and of the zeros after it.
fn gather_any(message: &[u8], k: usize, from: usize, a: usize, e: usize, column: &mut [u8])
    requires { (length message.now ≤ 16384) × (k ≤ 64) × (from ≤ 2000000) × (a ≤ e) × (e ≤ 2000000) × (e ≤ length column.old) }
    ensures { Drawn a e (in_block message.now k from) column.old column.new }
{
    for i in a..e {
        column[i] = block_byte(message, from + i * k);
    }
}

// Column m of a message's block, from row c on. Only the first four of the rows can hold header bytes, only the last zeros.
fn gather(message: &[u8], k: usize, m: usize, c: usize, column: &mut [u8])
    requires { (length message.now ≤ 16384) × (m < k) × (k ≤ 64) × (c + length column.old ≤ rows k (length message.now)) × (0 < length column.old) }
    ensures { (i : ℕ) → i < length column.old → get_or column.new i 0 ≡ get_or (header (length message.now) ++ message.now) ((c + i) * k + m) 0 }
{
    let from = c * k + m;
    let n = column.len();
    // apart, since with steps of 1 the compiler would make another loop of gather_inside's
    if k < 2 {
        gather_any(message, k, from, 0, n, column);
        return;
    }
    let last = n - 1;
    let first = last.min(4);
    gather_any(message, k, from, 0, first, column);
    gather_inside(message, k, from, first, last, column);
    gather_any(message, k, from, last, n, column);
}

// The first power of each board: its number, from board first + 1 on.
fn start_powers(powers: &mut [u8], first: usize)
    requires { first + length powers.old ≤ 64 }
    ensures { (i : ℕ) → i < length powers.old → get_or powers.new i 0 ≡ suc (first + i) }
{
    for i in 0..powers.len() {
        powers[i] = (first + i + 1) as u8;
    }
}

// Each power times its board's number, from board first + 1 on.
fn raise_powers(powers: &mut [u8], first: usize)
    requires { first + length powers.old ≤ 64 }
    ensures { (i : ℕ) → i < length powers.old → get_or powers.new i 0 ≡ mul (suc (first + i)) (get_or powers.old i 0) }
{
    for i in 0..powers.len() {
        powers[i] = Element((first + i + 1) as u8).product(Element(powers[i])).0;
    }
}

// The column put into each room, from `at` on.
fn lay_column(area: &mut [u8], at: usize, count: usize, s: usize, column: &[u8])
    requires { HasRooms at count s (length column.now) (length area.old) }
    ensures { Patch at count s (length column.now) (λ i d. get_or column.now d 0) area.old area.new }
{
    for i in 0..count {
        octets::copy_at(area, at + i * s, column);
    }
}

// Rows of the fragments from row c on, as many as the column has room for; a fragment for each power, from that of board first + 1 on, the first of
// them at `at`, the others each s bytes later. What is in column and powers is used up.
// Stays: message and k, area, place and room one by one: a struct of slices is handed over in memory, and this frame is at its limit (tests/stack.c).
fn encode_rows(
    message: &[u8],
    k: usize,
    first: usize,
    s: usize,
    c: usize,
    area: &mut [u8],
    at: usize,
    column: &mut [u8],
    powers: &mut [u8],
)
    requires { (length message.now ≤ 16384) × (0 < k) × (k ≤ 64) × (first + length powers.old ≤ 64)
        × HasRooms at (length powers.old) s (length column.old) (length area.old)
        × (c + length column.old ≤ rows k (length message.now)) × (0 < length column.old) }
    ensures { Patch at (length powers.old) s (length column.old)
        (λ i d. fragment_byte k (block k message.now) (suc (first + i)) (c + d)) area.old area.new }
{
    gather(message, k, 0, c, column);
    lay_column(area, at, powers.len(), s, column);
    start_powers(powers, first);
    for m in 1..k {
        gather(message, k, m, c, column);
        add_column(area, at, s, powers, column);
        raise_powers(powers, first);
    }
}

// Where the next n of `size` rows start, if so many are done: at the end some are done again, so that always n are.
fn next_rows(done: usize, n: usize, size: usize) -> usize
    requires { (done < size) × (0 < n) × (n ≤ size) × (size ≤ 2000000) }
    ensures { (result ≤ done) × (done < result + n) × (result + n ≤ size) }
{
    if done + n < size { done } else { size - n }
}

// A fragment for each power, from that of board first + 1 on, each in its room of s bytes, from `at` on. What is in column and powers is used up.
fn encode_in(
    message: &[u8],
    k: usize,
    first: usize,
    s: usize,
    area: &mut [u8],
    at: usize,
    column: &mut [u8],
    powers: &mut [u8],
)
    requires { (length message.now ≤ 16384) × (0 < k) × (k ≤ 64) × (first + length powers.old ≤ 64) × (rows k (length message.now) ≤ s)
        × (at + length powers.old * s ≤ length area.old) × (0 < length column.old) }
    ensures { Patch at (length powers.old) s (rows k (length message.now))
        (λ i d. fragment_byte k (block k message.now) (suc (first + i)) d) area.old area.new }
{
    let size = row_count(message.len(), k);
    let n = size.min(column.len());
    let column = &mut column[..n];
    let mut done = 0;
    // Stays: the last rows begin earlier, so that always n are done at once, which no range with a step says.
    while done < size {
        let c = next_rows(done, n, size);
        encode_rows(message, k, first, s, c, area, at + c, column, powers);
        done = c + n;
    }
}

// Count fragments, from that of board first + 1 on. (It has a frame of its own, which is gone when the fragments are hashed.)
#[inline(never)]
fn encode_some(
    message: &[u8],
    k: usize,
    first: usize,
    count: usize,
    s: usize,
    area: &mut [u8],
    at: usize,
)
    requires { (length message.now ≤ 16384) × (0 < k) × (k ≤ 64) × (first + count ≤ 64) × (rows k (length message.now) ≤ s)
        × (at + count * s ≤ length area.old) }
    ensures { Patch at count s (rows k (length message.now)) (λ i d. fragment_byte k (block k message.now) (suc (first + i)) d) area.old area.new }
{
    let mut column = [0u8; COLUMN];
    let mut powers = [0u8; 64];
    encode_in(
        message,
        k,
        first,
        s,
        area,
        at,
        &mut column,
        &mut powers[..count],
    );
}

// All n fragments of a message, each in its room of s bytes.
pub fn put_fragments(message: &[u8], n: usize, k: usize, s: usize, area: &mut [u8])
    requires { (length message.now ≤ 16384) × (0 < k) × (n ≤ 64) × (k ≤ n) × (rows k (length message.now) ≤ s) × (s ≤ 16388)
        × (n * s ≤ length area.old) }
    ensures { area.new ≡ place_each n s (λ i. fragment_of k (block k message.now) (suc i)) area.old }
{
    encode_some(message, k, 0, n, s, area, 0);
}

// The fragment of board i + 1 alone, in the area from `at` on.
pub fn put_fragment(message: &[u8], k: usize, i: usize, area: &mut [u8], at: usize)
    requires { (length message.now ≤ 16384) × (0 < k) × (k ≤ 64) × (i < 64) × (rows k (length message.now) ≤ 16388)
        × (at + rows k (length message.now) ≤ length area.old) }
    ensures { area.new ≡ put at (fragment_of k (block k message.now) (suc i)) area.old }
{
    encode_some(message, k, i, 1, row_count(message.len(), k), area, at);
}
