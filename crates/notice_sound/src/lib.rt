// Whether a notice board's state is sound, and how many boards are for a notice.
#![tactic(auto)]

ghost use Rattle.std.specs.Prelude.{◌≡◌, ℕ, ◌+◌, ◌≤◌, ◌<◌, length, get_or, leb, eqb};
ghost use Rattle.octets.specs.Bytes.{pick};
ghost use Rattle.octets.specs.Sets.{every};
ghost use Rattle.notice.specs.Form.{notice_most, notice_in};
ghost use Rattle.notice.specs.State.{notice_state_bytes, notice_table, notice_len, notice_kept, notice_view, notice_view_of, how_many};
ghost use Rattle.notice.specs.Sound.{heard_within, notice_board_ok, notice_quiet, notice_sound};

use naming::Kept;
use notice::{
    ECHO_NOTICES, ECHO_PLACES, Heard, MOST, ROOM, VOTE_NOTICES, VOTE_PLACES, read_heard, read_own,
    read_table,
};
use table::{InLimits, below, has_board};

// The notices of the echoes of a set, each after its length.
// Stays: beside `Kept::echoes` and `Kept::votes`, which ask nothing of kept lengths.
fn echoes(s: &[u8], b: InLimits, set: u64) -> Kept<'_>
    requires { (notice_state_bytes ≤ length s.now) × ((i : ℕ) → i < 64 → notice_len s.now 2 i ≤ notice_most) }
    ensures { (result.s.now ≡ s.now) × (result.p ≡ ECHO_PLACES) × (result.set ≡ set) × (result.n ≡ b.table.n) }
{
    Kept {
        s: s,
        p: ECHO_PLACES,
        set: set,
        n: b.table.n,
    }
}

// The notices of its votes.
fn votes(s: &[u8], b: InLimits, set: u64) -> Kept<'_>
    requires { (notice_state_bytes ≤ length s.now) × ((i : ℕ) → i < 64 → notice_len s.now 3 i ≤ notice_most) }
    ensures { (result.s.now ≡ s.now) × (result.p ≡ VOTE_PLACES) × (result.set ≡ set) × (result.n ≡ b.table.n) }
{
    Kept {
        s: s,
        p: VOTE_PLACES,
        set: set,
        n: b.table.n,
    }
}

// The notice in a record `r`, which has `len` bytes, held against those that a state keeps.
#[derive(Clone, Copy)]
pub struct Asked<'a> {
    pub s: &'a [u8],
    pub b: InLimits,
    pub m: Heard,
    pub r: &'a [u8],
    pub len: usize,
    ghost long: { notice_state_bytes ≤ length s.now },
    ghost most: { len ≤ notice_most },
    ghost room: { 3 + len ≤ length r.now },
    ghost count: { get_or r.now 2 0 ≡ len },
    ghost echoes: { (i : ℕ) → i < 64 → notice_len s.now 2 i ≤ notice_most },
    ghost votes: { (i : ℕ) → i < 64 → notice_len s.now 3 i ≤ notice_most },
}

impl Asked<'_> {
    // How many boards' echoes are for it.
    pub fn echoes(&self) -> usize
        ensures { result ≡ how_many self.now.b.table self.now.m (notice_kept self.now.s.now) 2 (notice_in self.now.len self.now.r.now) }
    {
        echoes(self.s, self.b, self.m.echoes).count(&self.r[2..3 + self.len])
    }

    // How many boards' votes are.
    pub fn votes(&self) -> usize
        ensures { result ≡ how_many self.now.b.table self.now.m (notice_kept self.now.s.now) 3 (notice_in self.now.len self.now.r.now) }
    {
        votes(self.s, self.b, self.m.votes).count(&self.r[2..3 + self.len])
    }
}

// Whether a kept length is in order, of a board that was heard or not.
fn length_ok(heard: bool, len: usize) -> bool
    ensures { result ≡ pick heard (leb len notice_most) (eqb len 0) }
{
    if heard { len <= MOST } else { len == 0 }
}

// A notice board's state that is looked at: its table is within its limits.
#[derive(Clone, Copy)]
struct Seen<'a> {
    s: &'a [u8],
    b: InLimits,
    m: Heard,
    ghost long: { notice_state_bytes ≤ length s.now },
}

impl Seen<'_> {
    // Whether the lengths kept of board i + 1's echo and vote are in order.
    fn board_ok(&self, i: usize) -> bool
        requires { i < 64 }
        ensures { result ≡ notice_board_ok (notice_view_of (notice_table self.now.s.now) self.now.m self.now.s.now) i }
    {
        length_ok(
            has_board(self.m.echoes, i),
            usize::from(self.s[ECHO_NOTICES + ROOM * i]),
        ) && length_ok(
            has_board(self.m.votes, i),
            usize::from(self.s[VOTE_NOTICES + ROOM * i]),
        )
    }

    // The same of all 64 places, those above n too.
    fn boards_ok(&self) -> bool
        ensures { result ≡ every (notice_board_ok (notice_view_of (notice_table self.now.s.now) self.now.m self.now.s.now)) 0 64 }
    {
        (0..64).all(|i| self.board_ok(i))
    }

    // Whether the sets name no board above n.
    fn heard_within(&self) -> bool
        ensures { result ≡ heard_within self.now.b.table self.now.m }
    {
        below(self.m.echoes, self.b.table.n) && below(self.m.votes, self.b.table.n)
    }

    // Whether nothing is overdue.
    // Stays: beside `state_sound`'s, since the figures differ: a notice board has no output stage.
    fn is_quiet(&self) -> bool
        requires { (i : ℕ) → i < 64 → (notice_len self.now.s.now 2 i ≤ notice_most) × (notice_len self.now.s.now 3 i ≤ notice_most) }
        ensures { result ≡ notice_quiet (notice_view_of self.now.b.table self.now.m self.now.s.now) }
    {
        if self.m.done {
            true
        } else if self.m.voted {
            !votes(self.s, self.b, self.m.votes).reached(self.b.most())
        } else {
            !echoes(self.s, self.b, self.m.echoes).reached(self.b.most())
                && !votes(self.s, self.b, self.m.votes).reached(self.b.some())
        }
    }
}

// Whether the state is sound.
pub fn is_sound(s: &[u8]) -> bool
    requires { notice_state_bytes ≤ length s.now }
    ensures { result ≡ notice_sound (notice_view s.now) }
{
    let Ok(b) = InLimits::try_from(read_table(s)) else {
        return false;
    };
    let m = read_heard(s);
    let x = Seen { s: s, b: b, m: m };
    b.table.is_board(read_own(s))
        && x.heard_within()
        && (!m.done || m.voted)
        && x.boards_ok()
        && x.is_quiet()
}
