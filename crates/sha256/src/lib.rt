// SHA-256, as FIPS 180-4 has it: the compression of a block.
#![tactic(auto)]

ghost use Rattle.std.specs.Prelude.{◌≡◌, ℕ, ◌+◌, ◌-◌, ◌*◌, ◌/◌, ◌<◌, List, length, take};
ghost use Rattle.octets.specs.Bytes.{part};
ghost use Rattle.sha256.specs.Words.{rotr, ch, maj, Σ₀, Σ₁, σ₀, σ₁};
ghost use Rattle.sha256.specs.Tables.{K, H0};
ghost use Rattle.sha256.specs.Sha256.{T₁, T₂, expand, round, sums, words, rounds, compress};

// The 64 round constants, eight to a table: read at places known before, so that no table is copied to the stack.
// Stays: one table of 64, read in a loop, would be copied to the stack, which has to be small.
const K0: [u32; 8] = [
    0x428a2f98, 0x71374491, 0xb5c0fbcf, 0xe9b5dba5, 0x3956c25b, 0x59f111f1, 0x923f82a4, 0xab1c5ed5,
];

const K8: [u32; 8] = [
    0xd807aa98, 0x12835b01, 0x243185be, 0x550c7dc3, 0x72be5d74, 0x80deb1fe, 0x9bdc06a7, 0xc19bf174,
];

const K16: [u32; 8] = [
    0xe49b69c1, 0xefbe4786, 0x0fc19dc6, 0x240ca1cc, 0x2de92c6f, 0x4a7484aa, 0x5cb0a9dc, 0x76f988da,
];

const K24: [u32; 8] = [
    0x983e5152, 0xa831c66d, 0xb00327c8, 0xbf597fc7, 0xc6e00bf3, 0xd5a79147, 0x06ca6351, 0x14292967,
];

const K32: [u32; 8] = [
    0x27b70a85, 0x2e1b2138, 0x4d2c6dfc, 0x53380d13, 0x650a7354, 0x766a0abb, 0x81c2c92e, 0x92722c85,
];

const K40: [u32; 8] = [
    0xa2bfe8a1, 0xa81a664b, 0xc24b8b70, 0xc76c51a3, 0xd192e819, 0xd6990624, 0xf40e3585, 0x106aa070,
];

const K48: [u32; 8] = [
    0x19a4c116, 0x1e376c08, 0x2748774c, 0x34b0bcb5, 0x391c0cb3, 0x4ed8aa4a, 0x5b9cca4f, 0x682e6ff3,
];

const K56: [u32; 8] = [
    0x748f82ee, 0x78a5636f, 0x84c87814, 0x8cc70208, 0x90befffa, 0xa4506ceb, 0xbef9a3f7, 0xc67178f2,
];

// The eight starting words.
const H0: [u32; 8] = [
    0x6a09e667, 0xbb67ae85, 0x3c6ef372, 0xa54ff53a, 0x510e527f, 0x9b05688c, 0x1f83d9ab, 0x5be0cd19,
];

// x turned to the right by n places.
// Stays: document 01 names this form, a rotation helper from shifts and or.
fn turn(x: u32, n: u32) -> u32
    requires { (0 < n) × (n < 32) }
    ensures { result ≡ rotr n x }
{
    (x >> n) | (x << (32 - n))
}

// Bits of y where x has ones, of z where it has zeros: with one mask instead of two.
fn choice(x: u32, y: u32, z: u32) -> u32
    ensures { result ≡ ch x y z }
{
    z ^ (x & (y ^ z))
}

// The bit that most of x, y and z have, at each place: y's, unless both others differ from it. A round's x ^ y is the next round's y ^ z.
fn majority(x: u32, y: u32, z: u32) -> u32
    ensures { result ≡ maj x y z }
{
    y ^ ((x ^ y) & (y ^ z))
}

// Turned by 2, 13 and 22 places, for the first working word.
// Stays: the standard names each of these four functions, and the definitions with it (Σ₀, Σ₁, σ₀, σ₁); two of them shift besides.
fn big0(x: u32) -> u32
    ensures { result ≡ Σ₀ x }
{
    turn(x, 2) ^ turn(x, 13) ^ turn(x, 22)
}

// Turned by 6, 11 and 25 places, for the fifth working word.
fn big1(x: u32) -> u32
    ensures { result ≡ Σ₁ x }
{
    turn(x, 6) ^ turn(x, 11) ^ turn(x, 25)
}

// Turned by 7 and 18 places and shifted by 3, for the schedule.
fn small0(x: u32) -> u32
    ensures { result ≡ σ₀ x }
{
    turn(x, 7) ^ turn(x, 18) ^ (x >> 3)
}

// Turned by 17 and 19 places and shifted by 10, for the schedule.
fn small1(x: u32) -> u32
    ensures { result ≡ σ₁ x }
{
    turn(x, 17) ^ turn(x, 19) ^ (x >> 10)
}

// A schedule word from those 2, 7, 15 and 16 places back.
fn expanded(w2: u32, w7: u32, w15: u32, w16: u32) -> u32
    ensures { result ≡ expand w2 w7 w15 w16 }
{
    small1(w2)
        .wrapping_add(w7)
        .wrapping_add(small0(w15))
        .wrapping_add(w16)
}

// The first of a round's two sums.
fn first(e: u32, f: u32, g: u32, h: u32, k: u32, w: u32) -> u32
    ensures { result ≡ T₁ e f g h k w }
{
    h.wrapping_add(big1(e))
        .wrapping_add(choice(e, f, g))
        .wrapping_add(k)
        .wrapping_add(w)
}

// The second of a round's two sums.
fn second(a: u32, b: u32, c: u32) -> u32
    ensures { result ≡ T₂ a b c }
{
    big0(a).wrapping_add(majority(a, b, c))
}

// One round on the eight working words.
fn turned(s: [u32; 8], k: u32, w: u32) -> [u32; 8]
    ensures { result ≡ round s k w }
{
    let [a, b, c, d, e, f, g, h] = s;
    let x = first(e, f, g, h, k, w);
    let y = second(a, b, c);
    [x.wrapping_add(y), a, b, c, d.wrapping_add(x), e, f, g]
}

// The constants of rounds 8 q to 8 q + 7.
fn constants(q: usize) -> [u32; 8]
    requires { q < 8 }
    ensures { result ≡ part (8 * q) 8 K }
{
    match q {
        0 => K0,
        1 => K8,
        2 => K16,
        3 => K24,
        4 => K32,
        5 => K40,
        6 => K48,
        _ => K56,
    }
}

// Rounds 8 q to 8 q + 7: after eight of them every working word stands where it stood.
// Stays: written out, for the words then stay in registers, and a constant's place is known before.
fn turned_eight(h: [u32; 8], w: &[u32; 64], q: usize) -> [u32; 8]
    requires { q < 8 }
    ensures { (s : List ℕ) → h ≡ rounds w.now (8 * q) s → result ≡ rounds w.now (8 * q + 8) s }
{
    let k = constants(q);
    let t = 8 * q;
    let s1 = turned(h, k[0], w[t]);
    let s2 = turned(s1, k[1], w[t + 1]);
    let s3 = turned(s2, k[2], w[t + 2]);
    let s4 = turned(s3, k[3], w[t + 3]);
    let s5 = turned(s4, k[4], w[t + 4]);
    let s6 = turned(s5, k[5], w[t + 5]);
    let s7 = turned(s6, k[6], w[t + 6]);
    turned(s7, k[7], w[t + 7])
}

// The 64 rounds.
fn turned_all(h: [u32; 8], w: &[u32; 64]) -> [u32; 8]
    ensures { result ≡ rounds w.now 64 h }
{
    let mut s = h;
    for q in 0..8 {
        let next = turned_eight(s, w, q);
        s = next;
    }
    s
}

// Eight words added to eight words.
fn added(x: [u32; 8], y: [u32; 8]) -> [u32; 8]
    ensures { result ≡ sums x y }
{
    let mut sums = x;
    for i in 0..8 {
        sums[i] = sums[i].wrapping_add(y[i]);
    }
    sums
}

// The schedule words after the first sixteen.
fn expand_rest(w: &mut [u32; 64])
    requires { length w.old ≡ 64 }
    ensures { (length w.new ≡ 64) × ((b : List ℕ) → take 16 w.old ≡ words b 16 → w.new ≡ words b 64) }
{
    for t in 16..64 {
        w[t] = expanded(w[t - 2], w[t - 7], w[t - 15], w[t - 16]);
    }
}

// The chaining words after the block whose sixteen words w starts with.
pub fn mixed(h: [u32; 8], w: &mut [u32; 64]) -> [u32; 8]
    requires { length w.old ≡ 64 }
    ensures { (length w.new ≡ 64) × ((b : List ℕ) → take 16 w.old ≡ words b 16 → result ≡ compress h b) }
{
    expand_rest(w);
    added(h, turned_all(h, w))
}

// The chaining words before the first block.
pub fn begun() -> [u32; 8]
    ensures { result ≡ H0 }
{
    H0
}
