// Whether a board's state is sound.
#![tactic(auto)]

ghost use Rattle.std.specs.Prelude.{◌≡◌, ◌≤◌, ◌<◌, length};
ghost use Rattle.octets.specs.Sets.{every};
ghost use Rattle.table.specs.Table.{s_max};
ghost use Rattle.state.specs.State.{fixed_bytes, view, view_of};
ghost use Rattle.state.specs.Sound.{sets_ok, flags_ok, board_ok, waits_at, waits, quiet, sound};

use naming::Kept;
use octets::two_at;
use state::{KEPT_LENGTHS, Marks, read_marks, read_own, read_table};
use table::{InLimits, below, has_board};

// A state that is looked at: its table is within its limits.
#[derive(Clone, Copy)]
struct Seen<'a> {
    s: &'a [u8],
    b: InLimits,
    m: Marks,
    ghost long: { fixed_bytes ≤ length s.now },
}

impl Seen<'_> {
    // Whether the root that board i + 1 voted for has n - t votes and fewer than k usable echoes.
    fn waits_at(&self, i: usize) -> bool
        requires { i < 64 }
        ensures { result ≡ waits_at (view_of self.now.b.table self.now.m self.now.s.now) i }
    {
        let votes = Kept::votes(self.s, self.b, self.m.votes);
        votes.backs(self.b.most(), i)
            && Kept::echoes(self.s, self.b, self.m.usable).count(votes.value(i))
                < self.b.fragments_needed()
    }

    // Whether a root has n - t votes and fewer than k usable echoes.
    fn waits(&self) -> bool
        ensures { result ≡ waits (view_of self.now.b.table self.now.m self.now.s.now) }
    {
        (0..self.b.table.n).any(|i| self.waits_at(i))
    }

    // Whether board i + 1 is usable only if its echo was heard, and its kept length is in order; `most` is s_max.
    fn board_ok(&self, most: usize, i: usize) -> bool
        requires { (most ≡ s_max self.now.b.table) × (i < 64) }
        ensures { result ≡ board_ok (view_of self.now.b.table self.now.m self.now.s.now) i }
    {
        let len = two_at(self.s, KEPT_LENGTHS + 2 * i);
        if has_board(self.m.echoes, i) {
            1 <= len && len <= most
        } else {
            !has_board(self.m.usable, i) && len == 0
        }
    }

    // The same of all 64 places, those above n too.
    fn boards_ok(&self) -> bool
        ensures { result ≡ every (board_ok (view_of self.now.b.table self.now.m self.now.s.now)) 0 64 }
    {
        let most = self.b.fragment_most();
        (0..64).all(|i| self.board_ok(most, i))
    }

    // Whether the sets name no board above n.
    fn sets_ok(&self) -> bool
        ensures { result ≡ sets_ok self.now.b.table self.now.m }
    {
        let n = self.b.table.n;
        below(self.m.echoes, n) && below(self.m.usable, n) && below(self.m.votes, n)
    }

    // Whether the output stage is open only after a vote, and done only in the output stage.
    fn flags_ok(&self) -> bool
        ensures { result ≡ flags_ok self.now.m }
    {
        (!self.m.output || self.m.voted) && (!self.m.done || self.m.output)
    }

    // Whether nothing is overdue.
    fn is_quiet(&self) -> bool
        ensures { result ≡ quiet (view_of self.now.b.table self.now.m self.now.s.now) }
    {
        if self.m.output {
            self.m.done || self.waits()
        } else if self.m.voted {
            !Kept::votes(self.s, self.b, self.m.votes).reached(self.b.most())
        } else {
            !Kept::echoes(self.s, self.b, self.m.echoes).reached(self.b.most())
                && !Kept::votes(self.s, self.b, self.m.votes).reached(self.b.some())
        }
    }
}

// Whether the state is sound.
pub fn is_sound(s: &[u8]) -> bool
    requires { fixed_bytes ≤ length s.now }
    ensures { result ≡ sound (view s.now) }
{
    let Ok(b) = InLimits::try_from(read_table(s)) else {
        return false;
    };
    let x = Seen {
        s: s,
        b: b,
        m: read_marks(s),
    };
    b.table.is_board(read_own(s)) && x.sets_ok() && x.flags_ok() && x.boards_ok() && x.is_quiet()
}
