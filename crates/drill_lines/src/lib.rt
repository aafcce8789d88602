// What each line of a drill must be, and what it then says.
#![tactic(auto, using(crate::proofs::Lines::tests), unfolding(crate::specs::Lines::right_table, crate::specs::Lines::right_breakers, crate::specs::Lines::right_message, crate::specs::Lines::right_count, crate::specs::Lines::right_step, table::specs::Table::limits, table::specs::Table::is_board, octets::specs::Bytes::pick))]

ghost use Rattle.std.specs.Prelude.{◌≡◌, ◌≤◌};
ghost use Rattle.drill_words.specs.Words.{word};
ghost use Rattle.drill_words.specs.Numbers.{number_of};
ghost use Rattle.drill_lines.specs.Lines.{form, table_in, right_table, breakers_in, are_boards, right_breakers, message_in, right_message, count_in, right_count, kind_in, right_kind, right_words, right_boards, right_step, breaks};
ghost use Rattle.drill_lines.specs.Read.{Reads, numbered, letter_of, IsRaw, IsStep};

use drill_words::{count_of, is_hex, number, word};
use table::{InLimits, Table};

// A table of a drill: within its limits, n up to 7 and L up to 64.
#[derive(Clone, Copy)]
pub struct Small {
    pub limits: InLimits,
    ghost few: { limits.table.n ≤ 7 },
    ghost short: { limits.table.longest ≤ 64 },
}

// The numbers of the rule-breaking boards.
#[derive(Clone, Copy)]
pub struct Breakers {
    pub first: Option<usize>,
    pub second: Option<usize>,
}

// What a step hands over: a record that a board put out, or the raw bytes that this hex stands for.
#[derive(Clone, Copy)]
pub enum Handed<'a> {
    Send,
    Echo,
    Vote,
    Raw(&'a [u8]),
}

impl Handed<'_> {
    // Its letter.
    pub fn letter(self) -> u8
        ensures { result ≡ letter_of self.entry }
    {
        match self {
            Handed::Send => b's',
            Handed::Echo => b'e',
            Handed::Vote => b'v',
            Handed::Raw(_) => b'r',
        }
    }
}

// A step: what is handed over, from which board and to which.
#[derive(Clone, Copy)]
pub struct Step<'a> {
    pub handed: Handed<'a>,
    pub from: usize,
    pub to: usize,
}

// Whether the line has at most 1,024 characters and n spaces.
fn has_form(l: &[u8], n: usize) -> bool
    ensures { result ≡ form l.now n }
{
    l.len() <= 1024 && count_of(l, b' ') == n
}

// The number that word i is; 10,000 if it is none, as the definitions count it.
pub fn number_in(l: &[u8], i: usize) -> usize
    ensures { result ≡ number_of (word i l.now) }
{
    number(word(l, i)).unwrap_or(10000)
}

// The four numbers of a line as a table, right or not.
pub fn table_in(l: &[u8]) -> Table
    ensures { result ≡ table_in l.now }
{
    Table {
        n: number_in(l, 0),
        t: number_in(l, 1),
        sender: number_in(l, 2),
        longest: number_in(l, 3),
    }
}

// The table that line 1 says, if it is right.
pub fn right_table_in(l: &[u8]) -> Option<Small>
    ensures { Reads result (right_table l.now) (λ b. b.limits.table ≡ table_in l.now) }
{
    // the length first, here and below: a line that is too long is refused before its words are read
    if !has_form(l, 3) {
        return None;
    }
    let b = table_in(l);
    let limits = InLimits::try_from(b).ok()?;
    if b.n <= 7 && b.longest <= 64 {
        Some(Small { limits })
    } else {
        None
    }
}

impl Breakers {
    // Whether board i is one of them; one that is not there counts as 10,000.
    pub fn names(self, i: usize) -> bool
        ensures { result ≡ breaks (numbered self) i }
    {
        i == self.first.unwrap_or(10000) || i == self.second.unwrap_or(10000)
    }
}

// Whether so many rule-breakers are boards, and none is named twice.
fn are_boards(b: Table, c: usize, x: Breakers) -> bool
    ensures { result ≡ are_boards b c (numbered x) }
{
    let first = x.first.unwrap_or(10000);
    let second = x.second.unwrap_or(10000);
    c < 1 || b.is_board(first) && (c < 2 || b.is_board(second) && first != second)
}

// The numbers of a line as rule-breakers, right or not.
pub fn breakers_in(l: &[u8]) -> Breakers
    ensures { numbered result ≡ breakers_in l.now }
{
    Breakers {
        first: number(word(l, 1)),
        second: number(word(l, 2)),
    }
}

// The rule-breakers that line 2 says, if it is right.
pub fn right_breakers_in(b: Table, l: &[u8]) -> Option<Breakers>
    ensures { Reads result (right_breakers b l.now) (λ x. numbered x ≡ breakers_in l.now) }
{
    if l.len() > 1024 {
        return None;
    }
    let c = number(word(l, 0))?;
    let x = breakers_in(l);
    (has_form(l, c) && c <= b.t && are_boards(b, c, x)).then_some(x)
}

// The hex of the message that line 3 says, if it is right.
pub fn message_in(b: Table, l: &[u8]) -> Option<&[u8]>
    ensures { Reads result (right_message b l.now) (λ w. w.now ≡ word 1 l.now) }
{
    if l.len() > 1024 {
        return None;
    }
    let c = number(word(l, 0))?;
    let w = word(l, 1);
    // hex is left out for no bytes, and the space before it
    let spaces = usize::from(c != 0);
    (has_form(l, spaces) && c <= b.longest && is_hex(w) && w.len() == 2 * c).then_some(w)
}

// The count of steps that line 4 says, if it is right.
pub fn count_in(l: &[u8]) -> Option<usize>
    ensures { Reads result (right_count l.now) (λ c. c ≡ count_in l.now) }
{
    if !has_form(l, 0) {
        return None;
    }
    let c = number(word(l, 0))?;
    if c <= 1000 { Some(c) } else { None }
}

// The letter of what a step hands over, its first word of one byte; 0 for any other word.
pub fn kind_in(l: &[u8]) -> u8
    ensures { result ≡ kind_in l.now }
{
    match word(l, 0) {
        [k] => *k,
        _ => 0,
    }
}

// What a step hands over, by its first word; raw bytes are the fourth.
fn handed_in(l: &[u8]) -> Option<Handed<'_>>
    ensures { Reads result (right_kind (kind_in l.now)) (λ h. (letter_of h ≡ kind_in l.now) × IsRaw h l.now) }
{
    match word(l, 0) {
        b"s" => Some(Handed::Send),
        b"e" => Some(Handed::Echo),
        b"v" => Some(Handed::Vote),
        b"r" => Some(Handed::Raw(word(l, 3))),
        _ => None,
    }
}

// Whether the words are so many: raw bytes that are not none are a fourth.
fn right_words(l: &[u8], h: Handed) -> bool
    requires { (letter_of h ≡ kind_in l.now) × IsRaw h l.now }
    ensures { result ≡ right_words l.now }
{
    match h {
        Handed::Raw(w) if count_of(l, b' ') == 3 => is_hex(w) && !w.is_empty(),
        _ => count_of(l, b' ') == 2,
    }
}

// Whether the boards are such: the receiver keeps the rules, and the sending board breaks them for raw bytes alone.
fn right_boards(b: Table, x: Breakers, s: Step) -> bool
    ensures { result ≡ right_boards b (numbered x) (letter_of s.entry.handed) s.entry.from s.entry.to }
{
    b.is_board(s.from)
        && b.is_board(s.to)
        && !x.names(s.to)
        && match s.handed {
            Handed::Raw(_) => x.names(s.from),
            _ => !x.names(s.from),
        }
}

// The step that a line says, if it is right.
pub fn step_in(b: Table, x: Breakers, l: &[u8]) -> Option<Step<'_>>
    ensures { Reads result (right_step b (numbered x) l.now) (λ s. IsStep s l.now) }
{
    if l.len() > 1024 {
        return None;
    }
    let s = Step {
        handed: handed_in(l)?,
        from: number_in(l, 1),
        to: number_in(l, 2),
    };
    (right_boards(b, x, s) && right_words(l, s.handed)).then_some(s)
}
