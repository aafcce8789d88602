// SHA-256 of strings of bytes: padding, blocks taken into the chaining words, the digest.
#![tactic(auto)]

ghost use Rattle.std.specs.Prelude.{◌≡◌, ℕ, ◌<◌, ◌≤◌, ◌+◌, ◌-◌, ◌*◌, ◌/◌, ◌%◌, List, ◌++◌, length, get_or, take};
ghost use Rattle.octets.specs.Bytes.{put, tab, four_at};
ghost use Rattle.sha256.specs.Sha256.{compress, byte_of, pad, block_at, digest, sha256};
ghost use Rattle.sha256.specs.Chain.{chain_from};

use sha256::{begun, mixed};

// Byte i of a padded message of n bytes, past the message.
pub fn pad_byte(n: usize, i: usize) -> u8
    requires { (n ≤ 65536) × (n ≤ i) × (i < (n + 8) / 64 * 64 + 64) }
    ensures { (m : List ℕ) → length m ≡ n → result ≡ get_or (pad m) i 0 }
{
    if i == n {
        return 128;
    }
    let tail = (n + 8) / 64 * 64 + 56;
    if i < tail {
        return 0;
    }
    ((8 * n) as u64).to_be_bytes()[i - tail]
}

// Byte i of the padded message, before the length: head, then body, then the one bit and zeros.
// Stays: head and body go by themselves. As one type with their bound they took 32 bytes more of stack in each call that hashes, and a twentieth
// more time (measured).
fn padded(head: &[u8], body: &[u8], i: usize) -> u8
    requires { (length head.now + length body.now ≤ 65536) × (i < (length head.now + length body.now + 8) / 64 * 64 + 56) }
    ensures { result ≡ get_or (pad (head.now ++ body.now)) i 0 }
{
    let h = head.len();
    let n = h + body.len();
    if i < h {
        return head[i];
    }
    if i < n {
        return body[i - h];
    }
    if i == n { 128 } else { 0 }
}

// The word from i on of the padded message, before the length, byte by byte.
fn edge_word(head: &[u8], body: &[u8], i: usize) -> u32
    requires { (length head.now + length body.now ≤ 65536) × (i + 3 < (length head.now + length body.now + 8) / 64 * 64 + 56) }
    ensures { result ≡ four_at (pad (head.now ++ body.now)) i }
{
    u32::from_be_bytes([
        padded(head, body, i),
        padded(head, body, i + 1),
        padded(head, body, i + 2),
        padded(head, body, i + 3),
    ])
}

// The word from i on past a message of n bytes: the last of its eight length bytes, or zeros.
fn pad_word(n: usize, i: usize) -> u32
    requires { (n ≤ 65536) × (n < i) × (i % 4 ≡ 0) × (i < (n + 8) / 64 * 64 + 64) }
    ensures { (m : List ℕ) → length m ≡ n → result ≡ four_at (pad m) i }
{
    if i % 64 < 60 || i <= n + 4 {
        return 0;
    }
    (8 * n) as u32
}

// The word from i on of the padded message, where it does not lie inside the body.
fn other_word(head: &[u8], body: &[u8], i: usize) -> u32
    requires { (length head.now + length body.now ≤ 65536) × (i % 4 ≡ 0) × (i < length (pad (head.now ++ body.now))) }
    ensures { result ≡ four_at (pad (head.now ++ body.now)) i }
{
    let n = head.len() + body.len();
    if i <= n {
        return edge_word(head, body, i);
    }
    pad_word(n, i)
}

// Words t to u of the schedule, from the first bytes of `bytes`.
fn load_inside(w: &mut [u32; 64], bytes: &[u8], t: usize, u: usize)
    requires { (length w.old ≡ 64) × (t ≤ u) × (u ≤ 16) × (4 * (u - t) ≤ length bytes.now) }
    ensures { (length w.new ≡ 64) × ((f : ℕ → ℕ) → ((j : ℕ) → t + j < u → f (t + j) ≡ four_at bytes.now (4 * j))
        → take t w.old ≡ tab t f → take u w.new ≡ tab u f) }
{
    for i in t..u {
        w[i] = octets::four_at(bytes, 4 * (i - t)) as u32;
    }
}

// As far as which word the words from t on of the block at `at` lie inside the body, of a message of n bytes whose body starts at h.
fn inside_end(h: usize, n: usize, at: usize, t: usize) -> usize
    requires { (n ≤ 65536) × (at ≤ 65600) × (t < 16) }
    ensures { (t ≤ result) × (result ≤ 16) × (t < result → (h ≤ at + 4 * t) × (at + 4 * result ≤ n)) }
{
    let i = at + 4 * t;
    if i < h || n < i {
        return t;
    }
    // Stays: with the smaller of the two by min, every hash takes 32 bytes of stack more (measured).
    if n < at + 64 {
        return (n - at) / 4;
    }
    16
}

// Word t of the block at `at` of the padded message, put into the schedule, with those after it that lie inside the body too; the first word not put in.
fn load_run(w: &mut [u32; 64], head: &[u8], body: &[u8], at: usize, t: usize) -> usize
    requires { (length w.old ≡ 64) × (length head.now + length body.now ≤ 65536) × (at % 64 ≡ 0) × (at < length (pad (head.now ++ body.now))) × (t < 16) }
    ensures { (length w.new ≡ 64) × (t < result) × (result ≤ 16) × (take t w.old ≡ tab t (λ j. four_at (pad (head.now ++ body.now)) (at + 4 * j))
        → take result w.new ≡ tab result (λ j. four_at (pad (head.now ++ body.now)) (at + 4 * j))) }
{
    let h = head.len();
    let u = inside_end(h, h + body.len(), at, t);
    if t < u {
        load_inside(w, &body[at + 4 * t - h..], t, u);
        return u;
    }
    w[t] = other_word(head, body, at + 4 * t);
    t + 1
}

// The words of the first block, where one byte stands before the body, as before a leaf and a node, and the rest of the block is the body's.
fn load_first(w: &mut [u32; 64], head: &[u8], body: &[u8])
    requires { (length w.old ≡ 64) × (length head.now ≡ 1) × (63 ≤ length body.now) }
    ensures { (length w.new ≡ 64) × (take 16 w.new ≡ tab 16 (λ t. four_at (pad (head.now ++ body.now)) (0 + 4 * t))) }
{
    w[0] = u32::from_be_bytes([head[0], body[0], body[1], body[2]]);
    load_inside(w, &body[3..], 1, 16);
}

// The sixteen words from `at` on of the padded message, to the front of the schedule: most blocks lie inside the body whole.
fn load(w: &mut [u32; 64], head: &[u8], body: &[u8], at: usize)
    requires { (length w.old ≡ 64) × (length head.now + length body.now ≤ 65536) × (at % 64 ≡ 0) × (at < length (pad (head.now ++ body.now))) }
    ensures { (length w.new ≡ 64) × (take 16 w.new ≡ tab 16 (λ t. four_at (pad (head.now ++ body.now)) (at + 4 * t))) }
{
    let h = head.len();
    if h <= at && at + 64 <= h + body.len() {
        load_inside(w, &body[at - h..], 0, 16);
        return;
    }
    if h == 1 && at == 0 && 63 <= body.len() {
        load_first(w, head, body);
        return;
    }
    let mut t: usize = 0;
    // Stays: a step takes as many words as it finds, so there is no range to go over.
    while t < 16 {
        t = load_run(w, head, body, at, t);
    }
}

// The block from `at` on of the padded message, taken into the chaining words. Called from two places, so that the compiler leaves it
// its own frame: what the loops over the blocks keep does not lie beside the schedule.
fn take_at(h: &mut [u32; 8], head: &[u8], body: &[u8], at: usize)
    requires { (length head.now + length body.now ≤ 65536) × (at % 64 ≡ 0) × (at < length (pad (head.now ++ body.now))) }
    ensures { h.new ≡ compress h.old (block_at (at / 64) (pad (head.now ++ body.now))) }
{
    let mut w = [0u32; 64];
    load(&mut w, head, body, at);
    *h = mixed(*h, &mut w);
}

// The blocks of the padded message before `end`, taken into the chaining words.
pub fn absorb(h: &mut [u32; 8], head: &[u8], body: &[u8], end: usize)
    requires { (length head.now + length body.now ≤ 65536) × (end % 64 ≡ 0) × (end ≤ length (pad (head.now ++ body.now))) }
    ensures { h.new ≡ chain_from h.old (end / 64) (pad (head.now ++ body.now)) }
{
    for at in (0..end).step_by(64) {
        take_at(h, head, body, at);
    }
}

// The chaining words after head and then body, whole: their digest is the hash.
pub fn take_all(h: &mut [u32; 8], head: &[u8], body: &[u8])
    requires { length head.now + length body.now ≤ 65536 }
    ensures { (length h.new ≡ 8) × (digest h.new ≡ sha256 (head.now ++ body.now)) }
{
    *h = begun();
    absorb(h, head, body, (head.len() + body.len() + 72) / 64 * 64);
}

// One more block taken into the chaining words.
pub fn take_block(h: &mut [u32; 8], b: &[u8])
    requires { length b.now ≡ 64 }
    ensures { h.new ≡ compress h.old b.now }
{
    take_at(h, b"", b, 0);
}

// The chaining words as bytes, put in.
pub fn put_digest(h: &[u32; 8], out: &mut [u8], at: usize)
    requires { (length h.now ≡ 8) × (at + 32 ≤ length out.old) }
    ensures { out.new ≡ put at (digest h.now) out.old }
{
    for i in 0..8 {
        octets::copy_at(out, at + 4 * i, &h[i].to_be_bytes());
    }
}

// The chaining words as bytes.
pub fn written(h: [u32; 8]) -> [u8; 32]
    ensures { result ≡ digest h }
{
    let mut out = [0u8; 32];
    put_digest(&h, &mut out, 0);
    out
}

// The hash of head and then body, without joining them.
pub fn joined(head: &[u8], body: &[u8]) -> [u8; 32]
    requires { length head.now + length body.now ≤ 65536 }
    ensures { result ≡ sha256 (head.now ++ body.now) }
{
    let mut h = begun();
    take_all(&mut h, head, body);
    written(h)
}
