// Which boards name a value, and whether a quorum names one: over places of any room.
#![tactic(auto)]

ghost use Rattle.std.specs.Prelude.{◌≡◌, ◌&&◌, ℕ, ◌+◌, ◌*◌, ◌≤◌, ◌<◌, length, leb};
ghost use Rattle.std.specs.Int.Count.{ones};
ghost use Rattle.octets.specs.Bytes.{same};
ghost use Rattle.octets.specs.Sets.{has};
ghost use Rattle.state.specs.State.{fixed_bytes};
ghost use Rattle.state.specs.Sound.{naming, reaches};
ghost use Rattle.naming.specs.Value.{span_at, value_of};

use state::{ECHO_PLACES, Places, VOTE_PLACES};
use table::{InLimits, has_board, size};

// The values that are kept of the boards of a set, of n in all: each whole in its place. (It has n and no table, so that it stays small on the stack.)
#[derive(Clone, Copy)]
pub struct Kept<'a> {
    pub s: &'a [u8],
    pub p: Places,
    pub set: u64,
    pub n: usize,
    ghost few: { n ≤ 64 },
    ghost room: { p.base + p.room * 64 ≤ length s.now },
    ghost whole: { (i : ℕ) → i < 64 → span_at p s.now (p.base + p.room * i) ≤ p.room },
}

impl<'a> Kept<'a> {
    // The roots that the echoes of a set name, in a state.
    // Stays: this and the next, which ask for the fixed part: from here on the type says it.
    pub fn echoes(s: &'a [u8], b: InLimits, set: u64) -> Kept<'a>
        requires { fixed_bytes ≤ length s.now }
        ensures { (result.s.now ≡ s.now) × (result.p ≡ ECHO_PLACES) × (result.set ≡ set) × (result.n ≡ b.table.n) }
    {
        Kept {
            s: s,
            p: ECHO_PLACES,
            set: set,
            n: b.table.n,
        }
    }

    // The roots that its votes name.
    pub fn votes(s: &'a [u8], b: InLimits, set: u64) -> Kept<'a>
        requires { fixed_bytes ≤ length s.now }
        ensures { (result.s.now ≡ s.now) × (result.p ≡ VOTE_PLACES) × (result.set ≡ set) × (result.n ≡ b.table.n) }
    {
        Kept {
            s: s,
            p: VOTE_PLACES,
            set: set,
            n: b.table.n,
        }
    }

    // How many bytes the value at `at` has.
    fn span(&self, at: usize) -> usize
        requires { at + span_at self.now.p self.now.s.now at ≤ length self.now.s.now }
        ensures { result ≡ span_at self.now.p self.now.s.now at }
    {
        if self.p.sized {
            1 + usize::from(self.s[at])
        } else {
            self.p.room
        }
    }

    // The value of board i + 1.
    pub fn value(&self, i: usize) -> &[u8]
        requires { i < 64 }
        ensures { result.now ≡ value_of self.now.p self.now.s.now i }
    {
        let at = self.p.base + self.p.room * i;
        &self.s[at..at + self.span(at)]
    }

    // Whether board i + 1 is in the set and names the value.
    fn names(&self, v: &[u8], i: usize) -> bool
        requires { i < 64 }
        ensures { result ≡ (has self.now.set i && same (value_of self.now.p self.now.s.now i) v.now) }
    {
        has_board(self.set, i) && self.value(i) == v
    }

    // The boards of the set that name the value.
    pub fn naming(&self, v: &[u8]) -> u64
        ensures { result ≡ naming self.now.n self.now.set (value_of self.now.p self.now.s.now) v.now }
    {
        let mut found = 0u64;
        for i in (0..self.n).rev() {
            found = found * 2 + u64::from(self.names(v, i));
        }
        found
    }

    // How many boards these are.
    pub fn count(&self, v: &[u8]) -> usize
        ensures { result ≡ ones (naming self.now.n self.now.set (value_of self.now.p self.now.s.now) v.now) }
    {
        size(self.naming(v))
    }

    // Whether board i + 1 of the set names a value that at least q of the set name.
    pub fn backs(&self, q: usize, i: usize) -> bool
        requires { i < 64 }
        ensures { result ≡ (has self.now.set i && leb q (ones (naming self.now.n self.now.set (value_of self.now.p self.now.s.now) (value_of self.now.p self.now.s.now i)))) }
    {
        has_board(self.set, i) && q <= self.count(self.value(i))
    }

    // Whether some value is named by at least q boards of the set. Fewer than q boards name none so often.
    pub fn reached(&self, q: usize) -> bool
        ensures { result ≡ reaches self.now.n q self.now.set (value_of self.now.p self.now.s.now) }
    {
        q <= size(self.set) && (0..self.n).any(|i| self.backs(q, i))
    }
}
