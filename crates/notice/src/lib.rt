// Notices: their records, and what a board keeps of them.
#![tactic(auto)]

ghost use Rattle.std.specs.Prelude.{◌≡◌, ◌+◌, ◌≤◌, length};
ghost use Rattle.octets.specs.Bytes.{put};
ghost use Rattle.notice.specs.Form.{notice_most, parse_notice, notice_form, notice_record};
ghost use Rattle.notice.specs.Kinds.{NoticeKinds, notice_number, notice_read_as};
ghost use Rattle.notice.specs.State.{notice_state_bytes, heard_at, notice_table, notice_own, heard_in, heard_bytes};

use octets::{copy_bytes, eight_at, put_eight, put_two, two_at};
use record::{Kind, Outline, field, need};
use refusal::{Refusal, Refused};
use state::Places;
use table::Table;

// How many bytes a state buffer needs, whatever n is.
pub const STATE_BYTES: usize = 8352;

// The most bytes of a notice.
pub const MOST: usize = 64;

// How many bytes an outgoing record buffer needs: as many as the longest record has.
pub const OUT_BYTES: usize = 67;

// Where the own number stands; the table's n, t and S are the first three bytes.
const OWN: usize = 3;

// Where the flags, a byte each, and the sets, eight bytes each, begin.
const ACQUIRED: usize = 4;

const VOTED: usize = 5;

const DONE: usize = 6;

const ECHOES: usize = 7;

const VOTES: usize = 15;

// Where the echoes' notices and the votes' notices begin, and how many bytes each has: its length, and room for 64.
pub const ECHO_NOTICES: usize = 32;

pub const VOTE_NOTICES: usize = 4192;

pub const ROOM: usize = 65;

pub const ECHO_PLACES: Places = Places {
    base: ECHO_NOTICES,
    room: ROOM,
    sized: true,
};

pub const VOTE_PLACES: Places = Places {
    base: VOTE_NOTICES,
    room: ROOM,
    sized: true,
};

// What a notice board keeps beside its table and the notices. Board i is bit i - 1 of a set.
// Stays: beside `state::Marks` and what reads and writes it, since the two states keep other flags and sets, at other places.
#[derive(Clone, Copy)]
pub struct Heard {
    pub acquired: bool,
    pub voted: bool,
    pub done: bool,
    pub echoes: u64,
    pub votes: u64,
}

// The kind of a notice record by its number, 4 a send, 5 an echo, 6 a vote; else refusal 21.
fn notice_kind(number: u32) -> Result<Kind, Refusal>
    ensures { NoticeKinds number result }
{
    match number {
        4 => Ok(Kind::Send),
        5 => Ok(Kind::Echo),
        6 => Ok(Kind::Vote),
        _ => Err(Refusal::Kind),
    }
}

// Reads a notice record: a send, an echo or a vote. It has no path; the notice is at 3.
pub fn read_notice(s: &[u8]) -> Result<Outline, Refused>
    ensures { notice_read_as result ≡ parse_notice s.now }
{
    need(s, 0, 1)?;
    let kind = notice_kind(u32::from(s[0]))?;
    need(s, 1, 2)?;
    let len = two_at(s, 1);
    field(len <= MOST, Refusal::Fragment, 1)?;
    need(s, 3, len)?;
    field(s.len() <= 3 + len, Refusal::After, 3 + len)?;
    Ok(Outline {
        kind: kind,
        nodes: 0,
        len: len,
    })
}

// The form of a record with a notice of so many bytes, or the field at fault and where it would start.
// Stays: the kind is a number here: C hands it in.
pub fn form_of(kind: u32, len: usize) -> Result<Outline, Refused>
    ensures { notice_read_as result ≡ notice_form kind len }
{
    let kind = notice_kind(kind)?;
    field(len <= MOST, Refusal::Fragment, 1)?;
    Ok(Outline {
        kind: kind,
        nodes: 0,
        len: len,
    })
}

// The record of a notice, written to the start of `out`.
pub fn write_notice(out: &mut [u8], kind: Kind, v: &[u8])
    requires { (length v.now ≤ notice_most) × (3 + length v.now ≤ length out.old) }
    ensures { out.new ≡ put 0 (notice_record (notice_number kind) v.now) out.old }
{
    out[0] = 3 + kind.number();
    put_two(out, 1, v.len());
    copy_bytes(out, 3, v);
}

// The table in a state.
// Stays: this and what follows, beside `state`'s: the layouts differ, and each is one look at a buffer that is then written.
pub fn read_table(s: &[u8]) -> Table
    requires { notice_state_bytes ≤ length s.now }
    ensures { result ≡ notice_table s.now }
{
    Table {
        n: usize::from(s[0]),
        t: usize::from(s[1]),
        sender: usize::from(s[2]),
        longest: 0,
    }
}

// The own number in a state.
pub fn read_own(s: &[u8]) -> usize
    requires { notice_state_bytes ≤ length s.now }
    ensures { result ≡ notice_own s.now }
{
    usize::from(s[OWN])
}

// The flags and sets in a state.
pub fn read_heard(s: &[u8]) -> Heard
    requires { notice_state_bytes ≤ length s.now }
    ensures { result ≡ heard_in s.now }
{
    Heard {
        acquired: s[ACQUIRED] != 0,
        voted: s[VOTED] != 0,
        done: s[DONE] != 0,
        echoes: eight_at(s, ECHOES),
        votes: eight_at(s, VOTES),
    }
}

// The flags and sets put into a state.
pub fn write_heard(s: &mut [u8], m: Heard)
    requires { notice_state_bytes ≤ length s.old }
    ensures { s.new ≡ put heard_at (heard_bytes m) s.old }
{
    s[ACQUIRED] = u8::from(m.acquired);
    s[VOTED] = u8::from(m.voted);
    s[DONE] = u8::from(m.done);
    put_eight(s, ECHOES, m.echoes);
    put_eight(s, VOTES, m.votes);
}
