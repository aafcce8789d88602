// The calls of the ground: hash, encode, rebuild, read a block. Each gives why it refuses or works, whatever it is given.
#![tactic(auto)]

ghost use Rattle.std.specs.Prelude.{◌≡◌, true, false, not, ◌&&◌, ℕ, suc, ◌+◌, ◌*◌, ◌≤◌, ◌<◌, leb, length, IfOk, MatchOption};
ghost use Rattle.octets.specs.Sets.{has};
ghost use Rattle.refusal.specs.Numbers.{refused};
ghost use Rattle.refusal.specs.Answers.{sized_of};
ghost use Rattle.code_calls.specs.Hashing.{hash_of, digest_of, Digests};
ghost use Rattle.code_calls.specs.Encoding.{encode_refusal, encoded, encode_of};
ghost use Rattle.code_calls.specs.Rebuilding.{length_at, first_of, common_length, some_outside, by_lengths, too_short, rebuild_refusal, Rebuilds};
ghost use Rattle.code_calls.specs.Reading.{read_refusal, read_out, read_of};

use refusal::Refusal;
use table::{InLimits, Table};

// A hash, as C is given it: the refusal's number, or 0; and the 32 bytes.
// Stays: C is given a number and the bytes.
#[repr(C)]
#[derive(Clone, Copy)]
pub struct Digest {
    pub number: u32,
    pub bytes: [u8; 32],
}

impl From<Result<[u8; 32], Refusal>> for Digest {
    ghost from_gives = { Digests };

    fn from(r: Result<[u8; 32], Refusal>) -> Digest {
        match r {
            Ok(bytes) => Digest { number: 0, bytes },
            Err(e) => Digest {
                number: e.number(),
                bytes: [0u8; 32],
            },
        }
    }
}

// SHA-256 of at most 65,536 bytes.
pub fn hash(string: &[u8]) -> Result<[u8; 32], Refusal>
    ensures { digest_of result ≡ hash_of string.now }
{
    if 65536 < string.len() {
        return Err(Refusal::Hash);
    }
    Ok(sha256_strings::joined(b"", string))
}

// Whether encoding may begin with a table within its limits, or why not.
fn may_encode(
    b: InLimits,
    message: &[u8],
    area: &[u8],
    root: &[u8],
    paths: &[u8],
) -> Result<(), Refusal>
    ensures { refused result ≡ encode_refusal b.table message.now area.now root.now paths.now }
{
    let n = b.table.n;
    if area.len() < n * b.fragment_most() {
        return Err(Refusal::Buffer);
    }
    if root.len() < 32 {
        return Err(Refusal::Buffer);
    }
    if paths.len() < n * 192 {
        return Err(Refusal::Buffer);
    }
    if b.table.longest < message.len() {
        return Err(Refusal::Message);
    }
    Ok(())
}

// All fragments of a message, the root of their tree and the path of each; the length of a fragment.
pub fn encode(
    b: Table,
    message: &[u8],
    area: &mut [u8],
    root: &mut [u8],
    paths: &mut [u8],
) -> Result<u32, Refusal>
    ensures { encoded (sized_of result) area.new root.new paths.new
        ≡ encode_of b message.now area.old root.old paths.old }
{
    let b = InLimits::try_from(b)?;
    may_encode(b, message, area, root, paths)?;
    let n = b.table.n;
    let k = b.fragments_needed();
    let most = b.fragment_most();
    let len = code::row_count(message.len(), k);
    code_encode::put_fragments(message, n, k, most, area);
    tree_grow::write_tree(area, most, len, n, root, paths);
    Ok(len as u32)
}

// The length given for board i + 1.
fn length_at(lengths: &[u8], i: usize) -> usize
    requires { (i < 64) × (2 * i + 1 < length lengths.now) }
    ensures { (result ≡ length_at lengths.now i) × (result < 65536) }
{
    octets::two_at(lengths, 2 * i)
}

// Whether board i + 1 is marked, and its length is not from lo to hi.
fn outside_at(marked: u64, lengths: &[u8], lo: usize, hi: usize, i: usize) -> bool
    requires { (i < 64) × (2 * i + 1 < length lengths.now) }
    ensures { result ≡ (has marked i && not (leb lo (length_at lengths.now i) && leb (length_at lengths.now i) hi)) }
{
    if !table::has_board(marked, i) {
        return false;
    }
    let len = length_at(lengths, i);
    len < lo || hi < len
}

// Whether some marked length is not from lo to hi.
fn some_outside(n: usize, lo: usize, hi: usize, marked: u64, lengths: &[u8]) -> bool
    requires { (n ≤ 64) × (2 * n ≤ length lengths.now) }
    ensures { result ≡ some_outside n lo hi marked lengths.now }
{
    for i in 0..n {
        if outside_at(marked, lengths, lo, hi, i) {
            return true;
        }
    }
    false
}

// The lowest marked board, counted from 0.
fn first_marked(n: usize, marked: u64) -> Option<usize>
    requires { n ≤ 64 }
    ensures { MatchOption result (n ≤ first_of (has marked) 0 n) (λ i. (i ≡ first_of (has marked) 0 n) × (i < n)) }
{
    for i in 0..n {
        if table::has_board(marked, i) {
            return Some(i);
        }
    }
    None
}

// Whether one of the lent buffers is too short.
fn short(n: usize, k: usize, most: usize, lengths: usize, area: usize, block: usize) -> bool
    requires { (n ≤ 64) × (k ≤ 64) × (most ≤ 16388) }
    ensures { result ≡ too_short n k most lengths area block }
{
    if lengths < 2 * n {
        return true;
    }
    if area < n * most {
        return true;
    }
    block < k * most
}

// The length that the marked fragments have in common, 0 where none is marked; or the refusals that look at the marked lengths: 7, 10, 11.
fn by_lengths(
    n: usize,
    k: usize,
    most: usize,
    marked: u64,
    lengths: &[u8],
) -> Result<usize, Refusal>
    requires { (n ≤ 64) × (2 * n ≤ length lengths.now) }
    ensures number { refused result ≡ by_lengths n k most marked lengths.now }
    ensures length { IfOk result (λ len. (first_of (has marked) 0 n < n → len ≡ common_length n marked lengths.now)
        × (n ≤ first_of (has marked) 0 n → len ≡ 0)) }
{
    if some_outside(n, 1, most, marked, lengths) {
        return Err(Refusal::Length);
    }
    if table::size(marked) < k {
        return Err(Refusal::TooFew);
    }
    let Some(first) = first_marked(n, marked) else {
        return Ok(0);
    };
    let len = length_at(lengths, first);
    if some_outside(n, len, len, marked, lengths) {
        return Err(Refusal::Disagree);
    }
    Ok(len)
}

// The length of the marked fragments, or why rebuilding is refused before a block is looked for, with a table within its limits.
fn may_rebuild(
    b: InLimits,
    marked: u64,
    lengths: &[u8],
    area: &[u8],
    block: &[u8],
) -> Result<usize, Refusal>
    ensures number { refused result ≡ rebuild_refusal b.table marked lengths.now area.now block.now }
    ensures length { IfOk result (λ len. len ≡ common_length b.table.n marked lengths.now) }
{
    let n = b.table.n;
    let k = b.fragments_needed();
    let most = b.fragment_most();
    if short(n, k, most, lengths.len(), area.len(), block.len()) {
        return Err(Refusal::Buffer);
    }
    if !table::below(marked, n) {
        return Err(Refusal::Board);
    }
    by_lengths(n, k, most, marked, lengths)
}

// The block whose fragments are all those marked, and its length.
pub fn rebuild(
    b: Table,
    marked: u64,
    lengths: &[u8],
    area: &[u8],
    block: &mut [u8],
) -> Result<u32, Refusal>
    ensures { Rebuilds b marked lengths.now area.now block.old (sized_of result) block.new }
{
    let b = InLimits::try_from(b)?;
    let len = may_rebuild(b, marked, lengths, area, block)?;
    let k = b.fragments_needed();
    let most = b.fragment_most();
    if code_rebuild::rebuild(area, most, b.table.n, k, marked, len, block) {
        return Ok((len * k) as u32);
    }
    Err(Refusal::Disagree)
}

// Whether a block may be read with a table within its limits, or why not.
fn may_read(b: InLimits, block: &[u8], message: &[u8]) -> Result<(), Refusal>
    ensures { refused result ≡ read_refusal b.table block.now message.now }
{
    if message.len() < b.table.longest {
        return Err(Refusal::Buffer);
    }
    if !code::can_read(block, b.fragments_needed(), b.table.longest) {
        return Err(Refusal::Block);
    }
    Ok(())
}

// The message that stands in a block, and its length.
pub fn read_block(b: Table, block: &[u8], message: &mut [u8]) -> Result<u32, Refusal>
    ensures { read_out (sized_of result) message.new ≡ read_of b block.now message.old }
{
    let b = InLimits::try_from(b)?;
    may_read(b, block, message)?;
    let m = octets::four_at(block, 0);
    octets::copy_bytes(message, 0, &block[4..4 + m]);
    Ok(m as u32)
}
