// What a step is to do with a record: the refusals in order.
#![tactic(auto)]

ghost use Rattle.std.specs.Prelude.{◌≡◌, true, ℕ, ◌≤◌, length};
ghost use Rattle.table.specs.Table.{limits, is_board};
ghost use Rattle.refusal.specs.Numbers.{refused};
ghost use Rattle.record.specs.Form.{parse};
ghost use Rattle.record.specs.Kinds.{kind_number};
ghost use Rattle.state.specs.State.{fixed_bytes, table_of, marks_of};
ghost use Rattle.board.specs.Planned.{plan_as, is_short, is_stray, is_late, by_marks, by_board, after_buffers, plan_of};

use board_mark::again;
use record::{Kind, OUT_BYTES, Outline, read_record};
use refusal::{Refusal, Refused};
use state::{FIXED_BYTES, Marks, read_marks, read_table, state_size};
use state_sound::is_sound;
use table::{InLimits, Table};

// Whether it is a send from a board other than S.
fn stray(b: Table, from: usize, kind: Kind) -> bool
    ensures { result ≡ is_stray b from (kind_number kind) }
{
    match kind {
        Kind::Send => from != b.sender,
        Kind::Echo | Kind::Vote => false,
    }
}

// Whether the board is done, or it is a send in the output stage.
fn late(m: Marks, kind: Kind) -> bool
    ensures { result ≡ is_late m (kind_number kind) }
{
    match kind {
        Kind::Send => m.done || m.output,
        Kind::Echo | Kind::Vote => m.done,
    }
}

// What is to be done with a record of this form.
fn by_marks(b: InLimits, m: Marks, from: usize, o: Outline) -> Result<Outline, Refused>
    requires { is_board b.table from ≡ true }
    ensures { plan_as result ≡ by_marks b.table m from (kind_number o.kind) o.nodes o.len }
{
    if stray(b.table, from, o.kind) {
        return Err(Refused::from(Refusal::Sender));
    }
    if b.fragment_most() < o.len {
        return Err(Refused::from(Refusal::Length));
    }
    if late(m, o.kind) {
        return Err(Refused::from(Refusal::Late));
    }
    if again(m, from - 1, o.kind) {
        return Err(Refused::from(Refusal::Again));
    }
    Ok(o)
}

// Whether a buffer of so many bytes is shorter than needed.
fn short(b: InLimits, state: usize, out: usize, delivery: usize) -> bool
    ensures { result ≡ is_short b.table state out delivery }
{
    state < state_size(b) || out < OUT_BYTES || delivery < b.table.longest
}

// Why a step is refused before its record is looked at: by the state and the lengths of the other buffers.
pub fn first_refusal(s: &[u8], out: usize, delivery: usize) -> Result<(), Refusal>
    ensures { refused result ≡ after_buffers s.now out delivery (λ (q : ℕ). q) 0 }
{
    if s.len() < FIXED_BYTES {
        return Err(Refusal::Buffer);
    }
    if !is_sound(s) {
        return Err(Refusal::State);
    }
    let b = InLimits {
        table: read_table(s),
    };
    if short(b, s.len(), out, delivery) {
        return Err(Refusal::Buffer);
    }
    Ok(())
}

// What a sound board is to do with the record `r` from a board. It only looks: no buffer is written.
pub fn plan_record(s: &[u8], from: usize, r: &[u8]) -> Result<Outline, Refused>
    requires { (fixed_bytes ≤ length s.now) × (limits (table_of s.now) ≡ true) }
    ensures { plan_as result ≡ by_board (table_of s.now) (marks_of s.now) from (parse r.now) }
{
    let b = InLimits {
        table: read_table(s),
    };
    if !b.table.is_board(from) {
        return Err(Refused::from(Refusal::Board));
    }
    let o = read_record(r)?;
    by_marks(b, read_marks(s), from, o)
}

// What a step is to do with the record `r` from a board. first_refusal and plan_record are called here and for a mailbox, so that the compiler
// leaves each its own frame: a path check and a delivery then do not pay for them.
pub fn plan_for(
    s: &[u8],
    from: usize,
    r: &[u8],
    out: &[u8],
    delivery: &[u8],
) -> Result<Outline, Refused>
    ensures { plan_as result ≡ plan_of s.now from r.now out.now delivery.now }
{
    first_refusal(s, out.len(), delivery.len())?;
    plan_record(s, from, r)
}
