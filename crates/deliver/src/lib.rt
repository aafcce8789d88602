// What a board reads from its kept fragments in the output stage, before it encodes them afresh: the message's length and the block's last row.
// No block is held in memory: each of its bytes is a weighed sum of the kept bytes of its row.
#![tactic(auto)]

ghost use Rattle.std.specs.Prelude.{◌≡◌, true, List, ℕ, suc, ◌+◌, ◌-◌, ◌*◌, ◌/◌, ◌%◌, ◌^◌, ◌<◌, ◌≤◌, length, get_or, IfSome};
ghost use Rattle.octets.specs.Bytes.{four_at};
ghost use Rattle.table.specs.Table.{k_of};
ghost use Rattle.field.specs.Field.{mul};
ghost use Rattle.code.specs.Code.{Apart};
ghost use Rattle.code_sum.specs.Sums.{cell, total};
ghost use Rattle.code_through.specs.Sums.{Master, Scales};
ghost use Rattle.deliver_afresh.specs.Working.{Made};
ghost use Rattle.deliver.specs.Delivered.{kind_of, size_of};
ghost use Rattle.deliver.specs.Working.{Row, Whole, fresh_byte, Readied};

use deliver_afresh::Fragments;
use field::Element;
use table::InLimits;

// What a board delivers: a message of so many bytes, or void, where nothing could be delivered.
#[derive(Clone, Copy, PartialEq, Eq)]
pub enum Delivery {
    Message { length: u32 },
    Void,
}

// The number of a delivery in C: 0 for none, 1 for a message, 2 for void.
pub fn kind_of(left: Option<Delivery>) -> u32
    ensures { result ≡ kind_of left }
{
    match left {
        None => 0,
        Some(Delivery::Message { length: _ }) => 1,
        Some(Delivery::Void) => 2,
    }
}

// The length of the message that is delivered, or 0.
pub fn size_of(left: Option<Delivery>) -> u32
    ensures { result ≡ size_of left }
{
    match left {
        Some(Delivery::Message { length }) => length,
        _ => 0,
    }
}

// Byte c of fragment x.
fn cell_at(kept: &Fragments<'_>, x: u8, c: usize) -> u8
    requires { (0 < x) × (x ≤ 64) × (c < kept.now.s) × (x * kept.now.s ≤ length kept.now.area.now) }
    ensures { result ≡ cell kept.now.area.now kept.now.s c x }
{
    kept.area[(usize::from(x) - 1) * kept.s + c]
}

// Byte c of each kept fragment, times its scale.
fn scale(kept: &Fragments<'_>, ds: &[u8], c: usize, es: &mut [u8])
    requires { (length ds.now ≡ length kept.now.points.now) × (c < kept.now.s) × (length es.old ≡ length kept.now.points.now) }
    ensures { (j : ℕ) → j < length kept.now.points.now
        → get_or es.new j 0 ≡ mul (get_or ds.now j 0) (cell kept.now.area.now kept.now.s c (get_or kept.now.points.now j 0)) }
{
    for j in 0..kept.points.len() {
        es[j] = Element(ds[j])
            .product(Element(cell_at(kept, kept.points[j], c)))
            .0;
    }
}

// The sum of all bytes.
fn sum_of(ts: &[u8]) -> u8
    ensures { result ≡ total (λ j. get_or ts.now j 0) (length ts.now) }
{
    let mut v = Element::ZERO;
    for &t in ts {
        v = v.add(Element(t));
    }
    v.0
}

// Row c of the block, from the highest coefficient down. ts and es are room to work in.
// Stays: m, ds, row, ts and es one by one; begin lends ws and sum for ts and es, so that a struct of them is no plainer.
fn write_row(
    kept: &Fragments<'_>,
    m: &[u8],
    ds: &[u8],
    c: usize,
    row: &mut [u8],
    ts: &mut [u8],
    es: &mut [u8],
)
    requires { (length ds.now ≡ length kept.now.points.now) × (length m.now ≡ suc (length kept.now.points.now)) × (c < kept.now.s)
        × (length row.old ≡ length kept.now.points.now) × (length ts.old ≡ length kept.now.points.now) × (length es.old ≡ length kept.now.points.now) }
    ensures { (len : ℕ) (b : List ℕ) → Made kept.now.area.now kept.now.s kept.now.points.now m.now ds.now len b → c < len
        → Row (length kept.now.points.now) b c row.new }
{
    scale(kept, ds, c, es);
    ts.fill(0);
    for i in (0..kept.points.len()).rev() {
        code_through::advance(kept.points, es, m[i + 1], ts);
        row[i] = sum_of(ts);
    }
}

// The row that byte p of the block is in: written where p begins it.
fn begin_row(
    kept: &Fragments<'_>,
    m: &[u8],
    ds: &[u8],
    p: usize,
    row: &mut [u8],
    ts: &mut [u8],
    es: &mut [u8],
)
    requires { (length ds.now ≡ length kept.now.points.now) × (length m.now ≡ suc (length kept.now.points.now)) × (p < kept.now.s * length kept.now.points.now)
        × (length row.old ≡ length kept.now.points.now) × (length ts.old ≡ length kept.now.points.now) × (length es.old ≡ length kept.now.points.now) }
    ensures { (len : ℕ) (b : List ℕ) → Made kept.now.area.now kept.now.s kept.now.points.now m.now ds.now len b → p < len * length kept.now.points.now
        → (0 < p % length kept.now.points.now → Row (length kept.now.points.now) b (p / length kept.now.points.now) row.old)
        → Row (length kept.now.points.now) b (p / length kept.now.points.now) row.new }
{
    let k = kept.points.len();
    if p % k != 0 {
        return;
    }
    write_row(kept, m, ds, p / k, row, ts, es);
}

// Byte p of the block. Its row is written where p begins it, and stands there otherwise.
fn byte_at(
    kept: &Fragments<'_>,
    m: &[u8],
    ds: &[u8],
    p: usize,
    row: &mut [u8],
    ts: &mut [u8],
    es: &mut [u8],
) -> u8
    requires { (length ds.now ≡ length kept.now.points.now) × (length m.now ≡ suc (length kept.now.points.now)) × (p < kept.now.s * length kept.now.points.now)
        × (length row.old ≡ length kept.now.points.now) × (length ts.old ≡ length kept.now.points.now) × (length es.old ≡ length kept.now.points.now) }
    ensures { (len : ℕ) (b : List ℕ) → Made kept.now.area.now kept.now.s kept.now.points.now m.now ds.now len b → p < len * length kept.now.points.now
        → (0 < p % length kept.now.points.now → Row (length kept.now.points.now) b (p / length kept.now.points.now) row.old)
        → (result ≡ get_or b p 0) × Row (length kept.now.points.now) b (p / length kept.now.points.now) row.new }
{
    begin_row(kept, m, ds, p, row, ts, es);
    row[p % kept.points.len()]
}

// The message's length, as the first four bytes of the block have it. row, ts and es are room to work in.
fn size_in(
    kept: &Fragments<'_>,
    m: &[u8],
    ds: &[u8],
    row: &mut [u8],
    ts: &mut [u8],
    es: &mut [u8],
) -> usize
    requires { (length ds.now ≡ length kept.now.points.now) × (length m.now ≡ suc (length kept.now.points.now)) × (3 < kept.now.s * length kept.now.points.now)
        × (length row.old ≡ length kept.now.points.now) × (length ts.old ≡ length kept.now.points.now) × (length es.old ≡ length kept.now.points.now) }
    ensures { (len : ℕ) (b : List ℕ) → Made kept.now.area.now kept.now.s kept.now.points.now m.now ds.now len b → 3 < len * length kept.now.points.now → result ≡ four_at b 0 }
{
    let mut head = [0u8; 4];
    for p in 0..4 {
        head[p] = byte_at(kept, m, ds, p, row, ts, es);
    }
    octets::four_at(&head, 0)
}

// A row of the block that begins at byte `at`, with zeros from byte `end` on.
fn end_row(row: &mut [u8], at: usize, end: usize)
    requires { at ≤ end }
    ensures { (b : List ℕ) → ((q : ℕ) → q < length row.old → get_or row.old q 0 ≡ get_or b (at + q) 0)
        → (q : ℕ) → q < length row.old → get_or row.new q 0 ≡ fresh_byte end b (at + q) }
{
    let from = (end - at).min(row.len());
    row[from..].fill(0);
}

// The last row of the block that is encoded afresh, whose message ends before byte `end`.
fn last_row(
    kept: &Fragments<'_>,
    m: &[u8],
    ds: &[u8],
    len: usize,
    end: usize,
    row: &mut [u8],
    ts: &mut [u8],
    es: &mut [u8],
)
    requires { (length ds.now ≡ length kept.now.points.now) × (length m.now ≡ suc (length kept.now.points.now)) × (0 < len) × (len ≤ kept.now.s)
        × (length row.old ≡ length kept.now.points.now) × (length ts.old ≡ length kept.now.points.now) × (length es.old ≡ length kept.now.points.now)
        × ((len - 1) * length kept.now.points.now ≤ end) }
    ensures { (b : List ℕ) → Made kept.now.area.now kept.now.s kept.now.points.now m.now ds.now len b
        → (q : ℕ) → q < length kept.now.points.now → get_or row.new q 0 ≡ fresh_byte end b ((len - 1) * length kept.now.points.now + q) }
{
    write_row(kept, m, ds, len - 1, row, ts, es);
    end_row(row, (len - 1) * kept.points.len(), end);
}

// The length of the message in the block of len rows, and the last row of the block that is encoded afresh; or none where the block cannot be
// read. ts and es are room to work in.
fn read(
    b: InLimits,
    kept: &Fragments<'_>,
    m: &[u8],
    ds: &[u8],
    len: usize,
    row: &mut [u8],
    ts: &mut [u8],
    es: &mut [u8],
) -> Option<usize>
    requires { (length kept.now.points.now ≡ k_of b.table) × (length ds.now ≡ length kept.now.points.now)
        × (length m.now ≡ suc (length kept.now.points.now)) × (0 < len) × (len ≤ kept.now.s)
        × (length row.old ≡ length kept.now.points.now) × (length ts.old ≡ length kept.now.points.now) × (length es.old ≡ length kept.now.points.now) }
    ensures fits { IfSome result (λ n. (n ≤ b.table.longest) × (4 + n ≤ len * length kept.now.points.now)) }
    ensures read { (given : List ℕ) → Made kept.now.area.now kept.now.s kept.now.points.now m.now ds.now len given
        → Readied b.table (length kept.now.points.now) len given result row.new }
{
    let k = kept.points.len();
    if len * k < 4 {
        return None;
    }
    // held against L before 4 is added to it
    let size = size_in(kept, m, ds, row, ts, es);
    if b.table.longest < size {
        return None;
    }
    if code::row_count(size, k) != len {
        return None;
    }
    last_row(kept, m, ds, len, 4 + size, row, ts, es);
    Some(size)
}

// What is worked out before the fresh root: the scales ds, the message's length, if the block can be read, and the last row. m, ts and es are room to work in.
fn begin_in(
    b: InLimits,
    kept: &Fragments<'_>,
    len: usize,
    m: &mut [u8],
    ds: &mut [u8],
    row: &mut [u8],
    ts: &mut [u8],
    es: &mut [u8],
) -> Option<usize>
    requires { (length kept.now.points.now ≡ k_of b.table) × (length ds.old ≡ length kept.now.points.now)
        × (length m.old ≡ suc (length kept.now.points.now)) × (0 < len) × (len ≤ kept.now.s)
        × (length row.old ≡ length kept.now.points.now) × (length ts.old ≡ length kept.now.points.now) × (length es.old ≡ length kept.now.points.now) × Apart kept.now.points.now }
    ensures fits { IfSome result (λ n. (n ≤ b.table.longest) × (4 + n ≤ len * length kept.now.points.now)) }
    ensures product { Master kept.now.points.now m.new }
    ensures scales { Scales kept.now.points.now m.new ds.new }
    ensures read { (given : List ℕ) → Made kept.now.area.now kept.now.s kept.now.points.now m.new ds.new len given
        → Readied b.table (length kept.now.points.now) len given result row.new }
{
    code_through::prepare(kept.points, m, ts, ds);
    read(b, kept, m, ds, len, row, ts, es)
}

// The same, in the front of `room` and of `sum`.
pub fn begin(
    b: InLimits,
    kept: &Fragments<'_>,
    len: usize,
    ds: &mut [u8],
    row: &mut [u8],
    ws: &mut [u8],
    sum: &mut [u8],
    room: &mut [u8],
) -> Option<usize>
    requires { (length kept.now.points.now ≡ k_of b.table) × (length ds.old ≡ length kept.now.points.now) × (0 < len) × (len ≤ kept.now.s)
        × (length row.old ≡ length kept.now.points.now) × (length ws.old ≡ length kept.now.points.now) × (length sum.old ≡ 64) × (224 ≤ length room.old)
        × Apart kept.now.points.now }
    ensures fits { IfSome result (λ n. (n ≤ b.table.longest) × (4 + n ≤ len * length kept.now.points.now)) }
    ensures read { (given : List ℕ) → Whole kept.now.area.now kept.now.s kept.now.points.now len given
        → ((m : List ℕ) × Made kept.now.area.now kept.now.s kept.now.points.now m ds.new len given
        × Readied b.table (length kept.now.points.now) len given result row.new) }
{
    let k = kept.points.len();
    begin_in(b, kept, len, &mut room[..k + 1], ds, row, ws, &mut sum[..k])
}
