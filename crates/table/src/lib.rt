// The table of boards, and sets of boards as 64-bit numbers.
#![tactic(auto)]

ghost use Rattle.std.specs.Prelude.{◌≡◌, true, false, ℕ, ◌+◌, ◌-◌, ◌*◌, ◌/◌, ◌^◌, ◌≤◌, ◌<◌, eqb};
ghost use Rattle.std.specs.Int.Count.{ones};
ghost use Rattle.octets.specs.Sets.{has};
ghost use Rattle.table.specs.Table.{limits, is_board, k_of, s_max, most_of, some_of};

use refusal::Refusal;

// n boards, of which t may break the rules; the sender's number; the longest message, L.
#[derive(Clone, Copy)]
pub struct Table {
    pub n: usize,
    pub t: usize,
    pub sender: usize,
    pub longest: usize,
}

impl Table {
    // Whether the table is within its limits.
    pub fn in_limits(self) -> bool
        ensures { result ≡ limits self }
    {
        if self.n < 1 {
            return false;
        }
        if 64 < self.n {
            return false;
        }
        // before it is multiplied, so that nothing wraps
        if 64 < self.t {
            return false;
        }
        if self.n <= 3 * self.t {
            return false;
        }
        if self.sender < 1 {
            return false;
        }
        if self.n < self.sender {
            return false;
        }
        self.longest <= 16384
    }

    // Whether a number is a board's: from 1 to n.
    pub fn is_board(self, i: usize) -> bool
        ensures { result ≡ is_board self i }
    {
        if i < 1 {
            return false;
        }
        i <= self.n
    }
}

// A table within its limits.
#[derive(Clone, Copy)]
pub struct InLimits {
    pub table: Table,
    ghost within: { limits table ≡ true },
}

// The table, if it is within its limits; else refusal 1.
impl TryFrom<Table> for InLimits {
    ghost use Rattle.table.specs.Checked.{Checks};

    type Error = Refusal;

    ghost try_from_gives = { Checks };

    fn try_from(b: Table) -> Result<InLimits, Refusal> {
        if b.in_limits() {
            Ok(InLimits { table: b })
        } else {
            Err(Refusal::Table)
        }
    }
}

impl InLimits {
    // k, the number of fragments that give a block back.
    pub fn fragments_needed(self) -> usize
        ensures { (result ≡ k_of self.table) × (0 < result) × (result ≤ self.table.n) × (result ≤ 64) }
    {
        self.table.n - 2 * self.table.t
    }

    // s_max, the longest fragment.
    pub fn fragment_most(self) -> usize
        ensures { (result ≡ s_max self.table) × (result ≤ 16388) }
    {
        let k = self.fragments_needed();
        (self.table.longest + 4 + (k - 1)) / k
    }

    // n - t: so many boards that agree are more than half of those that keep the rules.
    pub fn most(self) -> usize
        ensures { (result ≡ most_of self.table) × (result ≤ 64) }
    {
        self.table.n - self.table.t
    }

    // t + 1: one of so many boards keeps the rules.
    pub fn some(self) -> usize
        ensures { (result ≡ some_of self.table) × (result ≤ 64) }
    {
        self.table.t + 1
    }
}

// Whether board i + 1 is in the set.
pub fn has_board(set: u64, i: usize) -> bool
    requires { i < 64 }
    ensures { result ≡ has set i }
{
    (set >> i) % 2 == 1
}

// Whether no board above n is in the set.
pub fn below(set: u64, n: usize) -> bool
    requires { n ≤ 64 }
    ensures { result ≡ eqb (set / 2 ^ n) 0 }
{
    if n == 64 {
        return true;
    }
    set >> n == 0
}

// How many boards are in the set.
pub fn size(set: u64) -> usize
    ensures { (result ≡ ones set) × (result ≤ 64) }
{
    set.count_ones() as usize
}
