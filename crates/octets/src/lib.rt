// Numbers and runs of bytes in a lent buffer.
#![tactic(auto)]

ghost use Rattle.std.specs.Prelude.{◌≡◌, ℕ, ◌+◌, ◌*◌, ◌^◌, ◌≤◌, ◌<◌, length, get_or, replicate};
ghost use Rattle.octets.specs.Bytes.{two_at, four_at, eight_at, two, four, eight, part, put, same};

// The two-byte number at `at`, high byte first.
// Stays: three functions, since each width is a type of the library with its own bytes, and has its own definition.
pub fn two_at(s: &[u8], at: usize) -> usize
    requires { at + 1 < length s.now }
    ensures { (result ≡ two_at s.now at) × (result < 65536) }
{
    usize::from(u16::from_be_bytes([s[at], s[at + 1]]))
}

// The four-byte number at `at`.
// Stays: as two_at.
pub fn four_at(s: &[u8], at: usize) -> usize
    requires { at + 3 < length s.now }
    ensures { (result ≡ four_at s.now at) × (result < 4294967296) }
{
    u32::from_be_bytes([s[at], s[at + 1], s[at + 2], s[at + 3]]) as usize
}

// The eight-byte number at `at`.
// Stays: as two_at.
pub fn eight_at(s: &[u8], at: usize) -> u64
    requires { at + 7 < length s.now }
    ensures { result ≡ eight_at s.now at }
{
    u64::from_be_bytes([
        s[at],
        s[at + 1],
        s[at + 2],
        s[at + 3],
        s[at + 4],
        s[at + 5],
        s[at + 6],
        s[at + 7],
    ])
}

// Two bytes put in.
// Stays: as two_at.
pub fn put_two(s: &mut [u8], at: usize, x: usize)
    requires { at + 1 < length s.old }
    ensures { s.new ≡ put at (two x) s.old }
{
    copy_at(s, at, &((x % 65536) as u16).to_be_bytes());
}

// Four bytes put in.
// Stays: as two_at.
pub fn put_four(s: &mut [u8], at: usize, x: usize)
    requires { at + 3 < length s.old }
    ensures { s.new ≡ put at (four x) s.old }
{
    copy_at(s, at, &((x % 4294967296) as u32).to_be_bytes());
}

// Eight bytes put in.
// Stays: as two_at.
pub fn put_eight(s: &mut [u8], at: usize, x: u64)
    requires { at + 7 < length s.old }
    ensures { s.new ≡ put at (eight x) s.old }
{
    copy_at(s, at, &x.to_be_bytes());
}

// All of `src` put in, where the compiler knows how long it is, as of a number, a digest or a root.
// Stays: one line of the library's, under the definition that callers cite (`put`).
pub fn copy_at(dst: &mut [u8], at: usize, src: &[u8])
    requires { at + length src.now ≤ length dst.old }
    ensures { dst.new ≡ put at src.now dst.old }
{
    dst[at..at + src.len()].copy_from_slice(src);
}

// All of `src` put in, however long it is, as of a message or a fragment.
// Stays: by a loop, since the compiler makes a call of C's memmove of the library's copy here, and boards need bring memcpy and memset alone.
// (With the loop for numbers and digests too, a delivering step takes 16 bytes more of stack.)
pub fn copy_bytes(dst: &mut [u8], at: usize, src: &[u8])
    requires { at + length src.now ≤ length dst.old }
    ensures { dst.new ≡ put at src.now dst.old }
{
    for i in 0..src.len() {
        dst[at + i] = src[i];
    }
}

// Whether the n bytes of `s` from a on are those of `r` from b on.
// Stays: one line of the library's, under the definition that callers cite (`same`).
pub fn same_at(s: &[u8], a: usize, r: &[u8], b: usize, n: usize) -> bool
    requires { (a + n ≤ length s.now) × (b + n ≤ length r.now) }
    ensures { result ≡ same (part a n s.now) (part b n r.now) }
{
    s[a..a + n] == r[b..b + n]
}

// n zeros put in.
// Stays: one line of the library's, under the definition that callers cite (`put`).
pub fn clear_at(s: &mut [u8], at: usize, n: usize)
    requires { at + n ≤ length s.old }
    ensures { s.new ≡ put at (replicate n 0) s.old }
{
    s[at..at + n].fill(0);
}

// A byte that no byte is above.
pub fn largest(s: &[u8]) -> u8
    ensures { (i : ℕ) → i < length s.now → get_or s.now i 0 ≤ result }
{
    s.iter().copied().max().unwrap_or(0)
}
