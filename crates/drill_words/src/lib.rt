// Lines, words, numbers and hex in bytes.
#![tactic(auto)]

ghost use Rattle.std.specs.Prelude.{◌≡◌, ◌==◌, ◌+◌, ◌*◌, ◌/◌, ◌%◌, ◌≤◌, ◌<◌, IfSome, length, ltb, position, unwrap_or};
ghost use Rattle.std.specs.List.{list_all};
ghost use Rattle.octets.specs.Bytes.{put};
ghost use Rattle.drill_words.specs.Words.{upto, past, how_many, skip, word};
ghost use Rattle.drill_words.specs.Numbers.{with_digit, value_of, number_of, hex_digit, is_hex, from_hex};

// Where the first `c` stands.
fn find(s: &[u8], c: u8) -> Option<usize>
    ensures { result ≡ position (λ x. x == c) s.now }
{
    s.iter().position(|x| *x == c)
}

// What stands before the first `c`, all if there is none; and what follows it.
pub fn cut(s: &[u8], c: u8) -> (&[u8], &[u8])
    ensures { (result.0.now ≡ upto c s.now) × (result.1.now ≡ past c s.now) }
{
    match find(s, c) {
        Some(i) => (&s[..i], &s[i + 1..]),
        None => (s, &s[s.len()..]),
    }
}

// How many bytes are `c`.
pub fn count_of(s: &[u8], c: u8) -> usize
    ensures { (result ≡ how_many c s.now) × (result ≤ length s.now) }
{
    s.iter().filter(|x| **x == c).count()
}

// Word i of a line: no bytes if there is none.
pub fn word(s: &[u8], i: usize) -> &[u8]
    ensures { result.now ≡ word i s.now }
{
    let mut rest = s;
    for _ in 0..i {
        rest = cut(rest, b' ').1;
    }
    cut(rest, b' ').0
}

// v with one more digit, if it is a digit and the number has at most four of them.
#[tactic(auto, using(std::proofs::lemmas::Bool::Decides::nat_tests), unfolding(crate::specs::Numbers::with_digit, octets::specs::Bytes::pick))]
fn with_digit(v: usize, x: u8) -> Option<usize>
    ensures { (unwrap_or result 10000 ≡ with_digit v x) × IfSome result (λ n. n < 10000) }
{
    match x {
        b'0'..=b'9' if v <= 999 => Some(v * 10 + usize::from(x - b'0')),
        _ => None,
    }
}

// The number that digits are, 0 for none of them.
fn value(w: &[u8]) -> Option<usize>
    ensures { (unwrap_or result 10000 ≡ value_of 0 w.now) × IfSome result (λ n. n < 10000) }
{
    let mut v = 0;
    for x in w {
        v = with_digit(v, *x)?;
    }
    Some(v)
}

// The number that a word is.
#[tactic(auto, using(std::proofs::lemmas::Bool::Decides::nat_tests), unfolding(crate::specs::Numbers::number_of, octets::specs::Bytes::pick))]
pub fn number(w: &[u8]) -> Option<usize>
    ensures { (unwrap_or result 10000 ≡ number_of w.now) × IfSome result (λ n. n < 10000) }
{
    match w {
        [] => None,
        [b'0', _, ..] => None,
        _ => value(w),
    }
}

// What a hex digit stands for.
#[tactic(auto, using(std::proofs::lemmas::Bool::Decides::nat_tests), unfolding(crate::specs::Numbers::hex_digit, octets::specs::Bytes::pick))]
fn hex_digit(x: u8) -> Option<u8>
    ensures { (unwrap_or result 16 ≡ hex_digit x) × IfSome result (λ n. n < 16) }
{
    match x {
        b'0'..=b'9' => Some(x - b'0'),
        b'a'..=b'f' => Some(x - b'a' + 10),
        _ => None,
    }
}

// Whether a byte is a hex digit.
fn is_digit(x: u8) -> bool
    ensures { result ≡ ltb (hex_digit x) 16 }
{
    hex_digit(x).is_some()
}

// Whether all are hex digits.
fn hex_digits(w: &[u8]) -> bool
    ensures { result ≡ list_all (λ x. ltb (hex_digit x) 16) w.now }
{
    w.iter().all(|x| is_digit(*x))
}

// Whether a word is hex.
pub fn is_hex(w: &[u8]) -> bool
    ensures { result ≡ is_hex w.now }
{
    hex_digits(w) && w.len() % 2 == 0
}

// The byte that two hex digits stand for.
// Stays: 16 for a byte that is no digit, by the definition `from_hex`.
fn hex_byte(a: u8, b: u8) -> u8
    ensures { result ≡ (hex_digit a * 16 + hex_digit b) % 256 }
{
    let high = hex_digit(a).unwrap_or(16);
    high.wrapping_mul(16)
        .wrapping_add(hex_digit(b).unwrap_or(16))
}

// The bytes that hex stands for, at the start of `out`.
pub fn decode(w: &[u8], out: &mut [u8])
    requires { length w.now / 2 ≤ length out.old }
    ensures { out.new ≡ put 0 (from_hex w.now) out.old }
{
    for i in 0..w.len() / 2 {
        out[i] = hex_byte(w[2 * i], w[2 * i + 1]);
    }
}
