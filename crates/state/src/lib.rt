// A board's state in a lent buffer.
#![tactic(auto)]

ghost use Rattle.std.specs.Prelude.{◌≡◌, ◌≤◌, length};
ghost use Rattle.octets.specs.Bytes.{put};
ghost use Rattle.state.specs.State.{marks_at, fixed_bytes, state_size, table_of, own_of, marks_of, marks_bytes};

use octets::{eight_at, put_eight, two_at};
use table::{InLimits, Table};

// The first bytes of a state, all that soundness looks at; the fragments kept follow.
pub const FIXED_BYTES: usize = 4608;

// Where the own number and L stand; the table's n, t and S are the first three bytes.
pub const OWN: usize = 3;

pub const LONGEST: usize = 4;

// Where the flags, a byte each, and the sets, eight bytes each, begin.
pub const MARKS: usize = 6;

const ACQUIRED: usize = MARKS;

const VOTED: usize = 7;

const OUTPUT: usize = 8;

const DONE: usize = 9;

const ECHOES: usize = 10;

const USABLE: usize = 18;

const VOTES: usize = 26;

// Where the kept lengths, the echoes' roots and the votes' roots begin.
pub const KEPT_LENGTHS: usize = 40;

pub const ECHO_ROOTS: usize = 256;

pub const VOTE_ROOTS: usize = 2304;

// Where a value of each board is kept: board i + 1's at base + room * i. A sized place begins with a byte that says how many follow.
// Stays: `span`, by which the definitions say how long a value is, takes the flag as a test.
#[derive(Clone, Copy)]
pub struct Places {
    pub base: usize,
    pub room: usize,
    pub sized: bool,
}

// Where the roots are kept.
pub const ECHO_PLACES: Places = Places {
    base: ECHO_ROOTS,
    room: 32,
    sized: false,
};

pub const VOTE_PLACES: Places = Places {
    base: VOTE_ROOTS,
    room: 32,
    sized: false,
};

// What a state keeps beside the table, roots, lengths and fragments. Board i is bit i - 1 of a set.
#[derive(Clone, Copy)]
pub struct Marks {
    pub acquired: bool,
    pub voted: bool,
    pub output: bool,
    pub done: bool,
    pub echoes: u64,
    pub usable: u64,
    pub votes: u64,
}

// How many bytes a state buffer needs.
pub fn state_size(b: InLimits) -> usize
    ensures { result ≡ state_size b.table }
{
    FIXED_BYTES + b.table.n * b.fragment_most()
}

// The table in a state.
// Stays: this and what follows ask for the fixed part; a type for it is no plainer, since each is one look at a buffer that is then written.
pub fn read_table(s: &[u8]) -> Table
    requires { fixed_bytes ≤ length s.now }
    ensures { result ≡ table_of s.now }
{
    Table {
        n: usize::from(s[0]),
        t: usize::from(s[1]),
        sender: usize::from(s[2]),
        longest: two_at(s, LONGEST),
    }
}

// The own number in a state.
pub fn read_own(s: &[u8]) -> usize
    requires { fixed_bytes ≤ length s.now }
    ensures { result ≡ own_of s.now }
{
    usize::from(s[OWN])
}

// The flags and sets in a state.
pub fn read_marks(s: &[u8]) -> Marks
    requires { fixed_bytes ≤ length s.now }
    ensures { result ≡ marks_of s.now }
{
    Marks {
        acquired: s[ACQUIRED] != 0,
        voted: s[VOTED] != 0,
        output: s[OUTPUT] != 0,
        done: s[DONE] != 0,
        echoes: eight_at(s, ECHOES),
        usable: eight_at(s, USABLE),
        votes: eight_at(s, VOTES),
    }
}

// The flags and sets put into a state.
pub fn write_marks(s: &mut [u8], m: Marks)
    requires { fixed_bytes ≤ length s.old }
    ensures { s.new ≡ put marks_at (marks_bytes m) s.old }
{
    s[ACQUIRED] = u8::from(m.acquired);
    s[VOTED] = u8::from(m.voted);
    s[OUTPUT] = u8::from(m.output);
    s[DONE] = u8::from(m.done);
    put_eight(s, ECHOES, m.echoes);
    put_eight(s, USABLE, m.usable);
    put_eight(s, VOTES, m.votes);
}
