// A board's marks: whether they know a record already, what they are once it is taken, and what is then due.
#![tactic(auto)]

ghost use Rattle.std.specs.Prelude.{◌≡◌, ◌&&◌, ◌||◌, ◌+◌, ◌^◌, ◌≤◌, ◌<◌, length};
ghost use Rattle.std.specs.Int.Bits.{bit_or};
ghost use Rattle.state.specs.State.{fixed_bytes};
ghost use Rattle.octets.specs.Bytes.{pick};
ghost use Rattle.record.specs.Kinds.{kind_number};
ghost use Rattle.board.specs.Planned.{is_again};
ghost use Rattle.board.specs.Stepped.{record_root, marked, vote_due, won, enough_usable, voted_now, output_now, ends_now, settled_to};

use naming::Kept;
use record::Kind;
use state::Marks;
use table::{InLimits, has_board};

// Whether it is a second send, or a second echo or vote from board i + 1.
pub fn again(m: Marks, i: usize, kind: Kind) -> bool
    requires { i < 64 }
    ensures { result ≡ is_again m i (kind_number kind) }
{
    match kind {
        Kind::Send => m.acquired,
        Kind::Echo => has_board(m.echoes, i),
        Kind::Vote => has_board(m.votes, i),
    }
}

// The set with board i + 1, if `on`.
fn joined(set: u64, i: usize, on: bool) -> u64
    requires { i < 64 }
    ensures { result ≡ pick on (bit_or set (2 ^ i)) set }
{
    if on { set | (1 << i) } else { set }
}

// The marks once a record of a kind from board i + 1 is taken; `good` says whether its path is correct.
pub fn mark(m: Marks, kind: Kind, i: usize, good: bool) -> Marks
    requires { i < 64 }
    ensures { result ≡ marked (kind_number kind) i good m }
{
    match kind {
        Kind::Send => Marks {
            acquired: true,
            ..m
        },
        Kind::Echo => Marks {
            echoes: joined(m.echoes, i, true),
            usable: joined(m.usable, i, good),
            ..m
        },
        Kind::Vote => Marks {
            votes: joined(m.votes, i, true),
            ..m
        },
    }
}

// Whether n - t echoes or t + 1 votes name the root of `r`.
pub fn is_due(s: &[u8], b: InLimits, m: Marks, r: &[u8]) -> bool
    requires { (fixed_bytes ≤ length s.now) × (35 ≤ length r.now) }
    ensures { result ≡ vote_due b.table m s.now (record_root r.now) }
{
    b.most() <= Kept::echoes(s, b, m.echoes).count(&r[3..35])
        || b.some() <= Kept::votes(s, b, m.votes).count(&r[3..35])
}

// Whether n - t votes name it.
pub fn is_won(s: &[u8], b: InLimits, m: Marks, r: &[u8]) -> bool
    requires { (fixed_bytes ≤ length s.now) × (35 ≤ length r.now) }
    ensures { result ≡ won b.table m s.now (record_root r.now) }
{
    b.most() <= Kept::votes(s, b, m.votes).count(&r[3..35])
}

// Whether k usable echoes name it.
pub fn is_enough(s: &[u8], b: InLimits, m: Marks, r: &[u8]) -> bool
    requires { (fixed_bytes ≤ length s.now) × (35 ≤ length r.now) }
    ensures { result ≡ enough_usable b.table m s.now (record_root r.now) }
{
    b.fragments_needed() <= Kept::echoes(s, b, m.usable).count(&r[3..35])
}

// Whether the board has voted, or votes now; `word` says whether the record is an echo or a vote.
pub fn voted_now(s: &[u8], b: InLimits, word: bool, m: Marks, r: &[u8]) -> bool
    requires { (fixed_bytes ≤ length s.now) × (35 ≤ length r.now) }
    ensures { result ≡ voted_now b.table word m s.now (record_root r.now) }
{
    m.voted || (word && is_due(s, b, m, r))
}

// Whether the output stage is open, or opens now.
pub fn output_now(s: &[u8], b: InLimits, word: bool, voted: bool, m: Marks, r: &[u8]) -> bool
    requires { (fixed_bytes ≤ length s.now) × ((35 ≤ length r.now) × (voted ≡ voted_now b.table word m s.now (record_root r.now))) }
    ensures { result ≡ output_now b.table word m s.now (record_root r.now) }
{
    m.output || (word && voted && is_won(s, b, m, r))
}

// Whether the delivery is due now.
pub fn ends_now(s: &[u8], b: InLimits, word: bool, output: bool, m: Marks, r: &[u8]) -> bool
    requires { (fixed_bytes ≤ length s.now) × ((35 ≤ length r.now) × (output ≡ output_now b.table word m s.now (record_root r.now))) }
    ensures { result ≡ ends_now b.table word m s.now (record_root r.now) }
{
    word && output && is_won(s, b, m, r) && is_enough(s, b, m, r)
}

// The marks once all that is due is done.
pub fn settle(s: &[u8], b: InLimits, word: bool, m: Marks, r: &[u8]) -> Marks
    requires { (fixed_bytes ≤ length s.now) × (35 ≤ length r.now) }
    ensures { result ≡ settled_to b.table word m s.now (record_root r.now) }
{
    let voted = voted_now(s, b, word, m, r);
    let output = output_now(s, b, word, voted, m, r);
    let ends = ends_now(s, b, word, output, m, r);
    Marks {
        voted: voted,
        output: output,
        done: m.done || ends,
        ..m
    }
}
