// The root of a message's fragments, encoded afresh from the kept ones with no block in memory: each fragment's byte is a weighed sum of the kept
// bytes of its row, and 64 of them are hashed at a time.
#![tactic(auto)]

ghost use Rattle.std.specs.Prelude.{◌≡◌, List, ◌∷◌, ℕ, suc, ◌+◌, ◌-◌, ◌*◌, ◌/◌, ◌<◌, ◌≤◌, length, get_or};
ghost use Rattle.octets.specs.Bytes.{part, put};
ghost use Rattle.code_sum.specs.Sums.{weighed};
ghost use Rattle.sha256.specs.Sha256.{pad, block_at, sha256};
ghost use Rattle.tree.specs.Tree.{leaf_hash, root_of};
ghost use Rattle.deliver_afresh.specs.Working.{Ready, Made, Leaf, Anew};

// The kept fragments of the boards `points`, which lie in an area in rooms of s bytes. (Ready's scales are any list as long as the points.)
#[derive(Clone, Copy)]
pub struct Fragments<'a> {
    pub area: &'a [u8],
    pub s: usize,
    pub points: &'a [u8],
    ghost ready: { Ready (length area.now) s points.now points.now },
    ghost bytes: { ((i : ℕ) → get_or area.now i 0 < 256) × ((i : ℕ) → get_or points.now i 0 < 256) },
}

// 64 bytes moved up by one place, with a zero before them.
fn move_up(buffer: &mut [u8])
    requires { length buffer.old ≡ 64 }
    ensures { (get_or buffer.new 0 0 ≡ 0) × ((i : ℕ) → i < 63 → get_or buffer.new (i + 1) 0 ≡ get_or buffer.old i 0) }
{
    buffer.copy_within(..63, 1);
    buffer[0] = 0;
}

// Of a zero and then a fragment, 64 bytes from `at` on: those in the rows before the last.
fn fill_rows(kept: &Fragments<'_>, ws: &[u8], len: usize, at: usize, buffer: &mut [u8])
    requires { (0 < len) × (len ≤ kept.now.s) × (length ws.now ≡ length kept.now.points.now)
        × (length buffer.old ≡ 64) }
    ensures { (at ≡ 0 → get_or buffer.new 0 0 ≡ 0) × ((i : ℕ) → i < 64 → 0 < at + i → at + i < len
        → get_or buffer.new i 0 ≡ weighed kept.now.area.now kept.now.s kept.now.points.now ws.now (at + i - 1) (length kept.now.points.now)) }
{
    if at == 0 {
        let n = (len - 1).min(63);
        code_sum::combine(kept.area, kept.s, kept.points, ws, 0, n, buffer);
        move_up(buffer);
        return;
    }
    if at < len {
        let n = (len - at).min(64);
        code_sum::combine(kept.area, kept.s, kept.points, ws, at - 1, n, buffer);
    }
}

// Byte i of a zero and then a fragment, padded: x before the last byte v, which stands at len.
fn end_byte(x: u8, i: usize, len: usize, v: u8) -> u8
    requires { (len ≤ 65535) × (i < (len + 9) / 64 * 64 + 64) }
    ensures { (f : List ℕ) → length f ≡ len → get_or f (len - 1) 0 ≡ v → 0 < len → (i < len → result ≡ x) × (len ≤ i → result ≡ get_or (pad (0 ∷ f)) i 0) }
{
    if i < len {
        return x;
    }
    if i == len {
        return v;
    }
    sha256_strings::pad_byte(len + 1, i)
}

// The last byte and the padding, of the 64 bytes from `at` on.
fn fill_end(buffer: &mut [u8], at: usize, len: usize, v: u8)
    requires { (len ≤ 65535) × (at + 64 ≤ (len + 9) / 64 * 64 + 64) × (length buffer.old ≡ 64) }
    ensures { (f : List ℕ) → length f ≡ len → get_or f (len - 1) 0 ≡ v → 0 < len → (i : ℕ) → i < 64
        → (at + i < len → get_or buffer.new i 0 ≡ get_or buffer.old i 0)
        × (len ≤ at + i → get_or buffer.new i 0 ≡ get_or (pad (0 ∷ f)) (at + i) 0) }
{
    for i in 0..64 {
        buffer[i] = end_byte(buffer[i], at + i, len, v);
    }
}

// Block j of a zero and then a fragment, padded. The fragment is the kept bytes by the weights ws, and v in the last row.
fn fill(kept: &Fragments<'_>, ws: &[u8], v: u8, len: usize, j: usize, buffer: &mut [u8])
    requires { (0 < len) × (len ≤ kept.now.s) × (length ws.now ≡ length kept.now.points.now)
        × (length buffer.old ≡ 64) × (64 * j ≤ (len + 9) / 64 * 64) }
    ensures { (f : List ℕ) → Leaf kept.now.area.now kept.now.s kept.now.points.now ws.now v len f → buffer.new ≡ block_at j (pad (0 ∷ f)) }
{
    let at = 64 * j;
    fill_rows(kept, ws, len, at, buffer);
    fill_end(buffer, at, len, v);
}

// The leaf of a fragment, put on the stack. buffer is room to work in.
fn fresh_leaf(
    kept: &Fragments<'_>,
    ws: &[u8],
    v: u8,
    len: usize,
    buffer: &mut [u8],
    stack: &mut [u8],
    at: usize,
)
    requires { (0 < len) × (len ≤ kept.now.s) × (length ws.now ≡ length kept.now.points.now)
        × (length buffer.old ≡ 64) × (at + 32 ≤ length stack.old) }
    ensures { (f : List ℕ) → Leaf kept.now.area.now kept.now.s kept.now.points.now ws.now v len f
        → stack.new ≡ put at (leaf_hash sha256 f) stack.old }
{
    let count = (len + 73) / 64;
    let mut h = sha256::begun();
    for j in 0..count {
        fill(kept, ws, v, len, j, buffer);
        sha256_strings::take_block(&mut h, buffer);
    }
    sha256_strings::put_digest(&h, stack, at);
}

// The root of the n fragments of the block that is encoded afresh, into the first 32 bytes of the stack: `row` is its last row. ws and buffer are
// room to work in.
pub fn fresh_root(
    kept: &Fragments<'_>,
    ds: &[u8],
    row: &[u8],
    len: usize,
    n: usize,
    ws: &mut [u8],
    buffer: &mut [u8],
    stack: &mut [u8],
)
    requires { (length ds.now ≡ length kept.now.points.now) × (length ws.old ≡ length kept.now.points.now) × (length buffer.old ≡ 64)
        × (0 < len) × (len ≤ kept.now.s) × (0 < n) × (n ≤ 64) × (224 ≤ length stack.old) }
    ensures { (m b : List ℕ) (fs : ℕ → List ℕ) → Made kept.now.area.now kept.now.s kept.now.points.now m ds.now len b
        → ((i : ℕ) → i < n → Anew (length kept.now.points.now) len b row.now (suc i) (fs i)) → part 0 32 stack.new ≡ root_of n fs }
{
    for i in 0..n {
        let z = (i + 1) as u8;
        code_through::weights_at(kept.points, ds, z, ws);
        let v = code_through::value_at(row, z);
        fresh_leaf(kept, ws, v, len, buffer, stack, tree_stack::top_of(i));
        tree_stack::raise(stack, i, n);
    }
}
