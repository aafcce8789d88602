// What a board does with a record that it takes: it keeps what the record says, puts out what is then due, and delivers.
#![tactic(auto)]

ghost use Rattle.std.specs.Prelude.{◌≡◌, List, ℕ, ◌≤◌, length};
ghost use Rattle.octets.specs.Bytes.{put};
ghost use Rattle.board.specs.Planned.{Take, plan_of};
ghost use Rattle.record.specs.Kinds.{kind_number};
ghost use Rattle.state.specs.State.{fixed_bytes, table_of, marks_of};
ghost use Rattle.state.specs.Sound.{naming};
ghost use Rattle.naming.specs.Value.{value_of};
ghost use Rattle.board.specs.Stepped.{record_root, leaves};
ghost use Rattle.deliver.specs.Delivered.{left};
ghost use Rattle.board_step.specs.Asked.{Formed, out_room, Deliverable};
ghost use Rattle.board_step.specs.Step.{place_of, good, put_out, said_by, result_in, delivered};

use board::{keep_record, write_echo, write_vote};
use board_mark::{mark, settle};
use deliver::Delivery;
use deliver_output::deliver;
use naming::Kept;
use record::{Kind, Outline};
use state::{
    ECHO_PLACES, FIXED_BYTES, KEPT_LENGTHS, Marks, read_marks, read_own, read_table, write_marks,
};
use table::{InLimits, Table};

// What a step answers: 0 or a refusal's number; beside 20 to 25 the place of the field at fault, else 0; the length of the record put out; the
// delivery (0 none, 1 a message, 2 void) and its length.
// Stays: C is given five numbers.
#[repr(C)]
#[derive(Clone, Copy)]
pub struct Stepped {
    pub number: u32,
    pub offset: u32,
    pub record_length: u32,
    pub delivery: u32,
    pub message_length: u32,
}

// The board at whose place the path of a record is looked at: the own one for a send, else the one that it comes from.
fn place(s: &[u8], kind: Kind, from: usize) -> usize
    requires { fixed_bytes ≤ length s.now }
    ensures { result ≡ place_of (kind_number kind) from s.now }
{
    match kind {
        Kind::Send => read_own(s),
        Kind::Echo | Kind::Vote => from,
    }
}

// Whether the path of a record is correct.
pub fn is_good(s: &[u8], from: usize, r: &[u8], o: Outline) -> bool
    requires { (fixed_bytes ≤ length s.now) × Formed r.now o.nodes o.len }
    ensures { result ≡ good (kind_number o.kind) o.nodes o.len from r.now s.now }
{
    if o.kind.is_vote() {
        return false;
    }
    let b = read_table(s);
    let i = place(s, o.kind, from);
    let a = 37 + 32 * o.nodes;
    let c = a + 2;
    let e = c + o.len;
    tree::correct(b.n, i, &r[3..35], &r[37..a], &r[c..e])
}

// The echo or the vote put out, if there is one; its length.
fn put_out(out: &mut [u8], r: &[u8], o: Outline, echo: bool, vote: bool) -> u32
    requires { (length (put_out echo vote o.nodes o.len r.now) ≤ length out.old) × Formed r.now o.nodes o.len }
    ensures { (result ≡ length (put_out echo vote o.nodes o.len r.now)) × (out.new ≡ put 0 (put_out echo vote o.nodes o.len r.now) out.old) }
{
    if echo {
        write_echo(out, r, o);
        return (39 + 32 * o.nodes + o.len) as u32;
    }
    if vote {
        write_vote(out, r);
        return 39;
    }
    0
}

// The usable echoes that name a root, of n boards. Kept apart by an attribute, so that what is kept of the boards does not lie in the delivery's frame.
#[inline(never)]
fn naming_usable(s: &[u8], n: usize, usable: u64, root: &[u8]) -> u64
    requires { (fixed_bytes ≤ length s.now) × (n ≤ 64) }
    ensures { result ≡ naming n usable (value_of ECHO_PLACES s.now) root.now }
{
    let echoes = Kept {
        s: s,
        p: ECHO_PLACES,
        set: usable,
        n: n,
    };
    echoes.naming(root)
}

// The delivery, if it is due: from the usable echoes that name the root of `r`.
fn deliver_due(
    s: &[u8],
    b: Table,
    m: Marks,
    r: &[u8],
    ends: bool,
    delivery: &mut [u8],
) -> Option<Delivery>
    requires { Deliverable b m s.now r.now delivery.old ends }
    ensures { left result delivery.new ≡ delivered ends (result_in b m s.now (record_root r.now)) delivery.old }
{
    if !ends {
        return None;
    }
    let set = naming_usable(s, b.n, m.usable, &r[3..35]);
    Some(deliver(
        InLimits { table: b },
        &s[KEPT_LENGTHS..],
        &s[FIXED_BYTES..],
        set,
        &r[3..35],
        delivery,
    ))
}

// Whether the state says that the board is done.
pub fn is_done(s: &[u8]) -> bool
    requires { fixed_bytes ≤ length s.now }
    ensures { result ≡ (marks_of s.now).done }
{
    let m = read_marks(s);
    m.done
}

// The delivery by what the state says: it is due if the board is done now.
#[inline(never)]
pub fn deliver_done(s: &[u8], r: &[u8], delivery: &mut [u8]) -> Option<Delivery>
    requires { (fixed_bytes ≤ length s.now) × Deliverable (table_of s.now) (marks_of s.now) s.now r.now delivery.old (marks_of s.now).done }
    ensures { left result delivery.new ≡ delivered (marks_of s.now).done (result_in (table_of s.now) (marks_of s.now) s.now (record_root r.now)) delivery.old }
{
    let b = read_table(s);
    let m = read_marks(s);
    deliver_due(s, b, m, r, m.done, delivery)
}

// Keeps what a record says and puts out what is then due; the length of the record put out. `good` says whether its path is correct. The plan
// was made with an outgoing and a delivery buffer, whatever they are: `out` needs room only for what this kind of record can have put out. It is
// kept apart, as deliver_done is, so that no step pays for the frames of both.
#[inline(never)]
pub fn take_in(s: &mut [u8], from: usize, r: &[u8], out: &mut [u8], o: Outline, good: bool) -> u32
    requires { ((x : List ℕ) × ((d : List ℕ) × (plan_of s.old from r.now x d ≡ Take (kind_number o.kind) o.nodes o.len))) × (out_room (kind_number o.kind) ≤ length out.old) }
    ensures { (s.new ≡ leaves good (kind_number o.kind) o.nodes o.len from r.now s.old)
        × (result ≡ length (said_by good (kind_number o.kind) o.nodes o.len from r.now s.old))
        × (out.new ≡ put 0 (said_by good (kind_number o.kind) o.nodes o.len from r.now s.old) out.old) }
{
    let b = InLimits {
        table: read_table(s),
    };
    let m = mark(read_marks(s), o.kind, from - 1, good);
    keep_record(s, b.fragment_most(), from - 1, o, r);
    let send = o.kind.is_send();
    let after = settle(s, b, !send, m, r);
    write_marks(s, after);
    put_out(out, r, o, send & good, !m.voted & after.voted)
}
