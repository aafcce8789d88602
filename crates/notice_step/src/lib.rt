// A notice board: its start, its step, and the sender's record.
#![tactic(auto)]

ghost use Rattle.std.specs.Prelude.{◌≡◌, true, not, ◌&&◌, ◌||◌, List, ℕ, ◌+◌, ◌≤◌, ◌<◌, length};
ghost use Rattle.refusal.specs.Numbers.{refused};
ghost use Rattle.refusal.specs.Answers.{sized_of};
ghost use Rattle.record.specs.Kinds.{kind_number};
ghost use Rattle.octets.specs.Bytes.{pick, put};
ghost use Rattle.table.specs.Table.{limits, is_board};
ghost use Rattle.board.specs.Planned.{Refuse, Take, plan_as};
ghost use Rattle.board.specs.Started.{begun};
ghost use Rattle.board_send.specs.Sent.{send_out};
ghost use Rattle.board_step.specs.Step.{stepped, outcome};
ghost use Rattle.notice.specs.Form.{notice_most, notice_out_bytes, parse_notice, notice_in};
ghost use Rattle.notice.specs.State.{notice_state_bytes, place_at, notice_table, heard_in, notice_kept, hearing, notice_due, notice_won, notice_settled};
ghost use Rattle.notice_step.specs.Asked.{said_by};
ghost use Rattle.notice_step.specs.Planned.{heard_again, by_heard, by_notice_form, notice_plan_by, notice_plan};
ghost use Rattle.notice_step.specs.Step.{kept_notice, notice_leaves, notice_said, notice_taken, notice_step_of};
ghost use Rattle.notice_step.specs.Started.{notice_fresh, notice_start_of};
ghost use Rattle.notice_step.specs.Sent.{notice_send_of};

use board_step::Stepped;
use notice::{
    ECHO_NOTICES, Heard, MOST, OUT_BYTES, ROOM, STATE_BYTES, VOTE_NOTICES, read_heard, read_notice,
    read_table, write_heard, write_notice,
};
use notice_sound::{Asked, is_sound};
use octets::{clear_at, copy_bytes};
use record::{Kind, Outline};
use refusal::{Refusal, Refused};
use table::{InLimits, Table, has_board};

// How many bytes of a state follow the table and the own number.
const AFTER_OWN: usize = STATE_BYTES - 4;

// Whether it is a second send, or a second echo or vote from board i + 1.
fn again(m: Heard, i: usize, kind: Kind) -> bool
    requires { i < 64 }
    ensures { result ≡ heard_again m i (kind_number kind) }
{
    match kind {
        Kind::Send => m.acquired,
        Kind::Echo => has_board(m.echoes, i),
        Kind::Vote => has_board(m.votes, i),
    }
}

// What is to be done with a record of this form.
fn by_heard(b: InLimits, m: Heard, from: usize, o: Outline) -> Result<Outline, Refused>
    requires { (is_board b.table from ≡ true) × (o.nodes ≡ 0) }
    ensures { plan_as result ≡ by_heard b.table m from (kind_number o.kind) o.len }
{
    if o.kind.is_send() && from != b.table.sender {
        return Err(Refusal::Sender.into());
    }
    if m.done {
        return Err(Refusal::Late.into());
    }
    if again(m, from - 1, o.kind) {
        return Err(Refusal::Again.into());
    }
    Ok(o)
}

// What a sound board is to do with the record `r` from a board. It only looks: no buffer is written.
fn plan_record(s: &[u8], from: usize, r: &[u8]) -> Result<Outline, Refused>
    requires { (notice_state_bytes ≤ length s.now) × (limits (notice_table s.now) ≡ true) }
    ensures { plan_as result ≡ pick (not (is_board (notice_table s.now) from)) (Refuse 4 0) (by_notice_form (notice_table s.now) (heard_in s.now) from (parse_notice r.now)) }
{
    let b = InLimits {
        table: read_table(s),
    };
    if !b.table.is_board(from) {
        return Err(Refusal::Board.into());
    }
    by_heard(b, read_heard(s), from, read_notice(r)?)
}

// What was heard once a record of a kind from board i + 1 is taken.
// Stays: this and what follows, beside a fragment board's: the figures differ, since a notice has no path, no fragment and no output stage.
fn hear(m: Heard, kind: Kind, i: usize) -> Heard
    requires { i < 64 }
    ensures { result ≡ hearing (kind_number kind) i m }
{
    match kind {
        Kind::Send => Heard {
            acquired: true,
            ..m
        },
        Kind::Echo => Heard {
            echoes: m.echoes | (1 << i),
            ..m
        },
        Kind::Vote => Heard {
            votes: m.votes | (1 << i),
            ..m
        },
    }
}

// Where board i + 1's echo or vote is kept.
fn place(kind: Kind, i: usize) -> usize
    requires { i < 64 }
    ensures { result ≡ place_at (kind_number kind) i }
{
    match kind {
        Kind::Echo => ECHO_NOTICES + ROOM * i,
        Kind::Send | Kind::Vote => VOTE_NOTICES + ROOM * i,
    }
}

// What a record of a kind from board i + 1 leaves among the notices: of an echo or a vote its notice, after its length.
// Stays: the record with the notice's length, as `kept_notice` takes them.
fn keep_notice(s: &mut [u8], kind: Kind, i: usize, len: usize, r: &[u8])
    requires { (notice_state_bytes ≤ length s.old) × (i < 64) × (len ≤ notice_most) × (3 + len ≤ length r.now) }
    ensures { s.new ≡ kept_notice (kind_number kind) i len r.now s.old }
{
    if kind.is_send() {
        return;
    }
    let a = place(kind, i);
    s[a] = len as u8;
    copy_bytes(s, a + 1, &r[3..3 + len]);
}

// The echo or the vote put out, with the notice of `r`, if there is one; its length.
// Stays: two tests, as `said_by` takes them.
fn put_out(out: &mut [u8], r: &[u8], len: usize, echo: bool, vote: bool) -> u32
    requires { (notice_out_bytes ≤ length out.old) × (len ≤ notice_most) × (3 + len ≤ length r.now) }
    ensures { (result ≡ length (said_by echo vote len r.now)) × (out.new ≡ put 0 (said_by echo vote len r.now) out.old) }
{
    let e = 3 + len;
    if echo {
        write_notice(out, Kind::Echo, &r[3..e]);
        return e as u32;
    }
    if vote {
        write_notice(out, Kind::Vote, &r[3..e]);
        return e as u32;
    }
    0
}

// What a step is to do with the record `r` from a board, by the lengths of the outgoing and the delivery buffer.
fn plan_for(
    s: &[u8],
    from: usize,
    r: &[u8],
    out: usize,
    delivery: usize,
) -> Result<Outline, Refused>
    ensures { plan_as result ≡ notice_plan_by s.now from out delivery (parse_notice r.now) }
{
    if s.len() < STATE_BYTES {
        return Err(Refusal::Buffer.into());
    }
    if !is_sound(s) {
        return Err(Refusal::State.into());
    }
    if out < OUT_BYTES || delivery < MOST {
        return Err(Refusal::Buffer.into());
    }
    plan_record(s, from, r)
}

// Whether n - t echoes or t + 1 votes are for a notice.
fn is_due(x: &Asked) -> bool
    ensures { result ≡ notice_due x.now.b.table x.now.m (notice_kept x.now.s.now) (notice_in x.now.len x.now.r.now) }
{
    x.b.most() <= x.echoes() || x.b.some() <= x.votes()
}

// Whether n - t votes are for it.
fn is_won(x: &Asked) -> bool
    ensures { result ≡ notice_won x.now.b.table x.now.m (notice_kept x.now.s.now) (notice_in x.now.len x.now.r.now) }
{
    x.b.most() <= x.votes()
}

// What was heard once all that is due for it is done; `word` says whether the record is an echo or a vote.
fn settle(x: &Asked, word: bool) -> Heard
    ensures { result ≡ notice_settled x.now.b.table word x.now.m (notice_kept x.now.s.now) (notice_in x.now.len x.now.r.now) }
{
    let voted = x.m.voted || word && is_due(x);
    let done = x.m.done || word && voted && is_won(x);
    Heard {
        voted: voted,
        done: done,
        ..x.m
    }
}

// Keeps what a record says and puts out what is then due; the length of the record put out.
fn take_in(s: &mut [u8], from: usize, r: &[u8], out: &mut [u8], o: Outline) -> u32
    requires { (d : List ℕ) × ((p : ℕ) × (notice_plan s.old from r.now out.old d ≡ Take (kind_number o.kind) p o.len)) }
    ensures { (s.new ≡ notice_leaves (kind_number o.kind) o.len from r.now s.old)
        × (result ≡ length (notice_said (kind_number o.kind) o.len from r.now s.old))
        × (out.new ≡ put 0 (notice_said (kind_number o.kind) o.len from r.now s.old) out.old) }
{
    let b = InLimits {
        table: read_table(s),
    };
    let m = hear(read_heard(s), o.kind, from - 1);
    keep_notice(s, o.kind, from - 1, o.len, r);
    let asked = Asked {
        s: s,
        b: b,
        m: m,
        r: r,
        len: o.len,
    };
    let after = settle(&asked, !o.kind.is_send());
    write_heard(s, after);
    put_out(out, r, o.len, o.kind.is_send(), !m.voted && after.voted)
}

// Whether the state says that the board is done.
fn is_done(s: &[u8]) -> bool
    requires { notice_state_bytes ≤ length s.now }
    ensures { result ≡ (heard_in s.now).done }
{
    let m = read_heard(s);
    m.done
}

// The answer of a step that took its record.
// Stays: C's struct, 0 being no refusal.
fn answered(put: u32, delivery: u32, len: u32) -> Stepped
    ensures { result ≡ stepped put delivery len }
{
    Stepped {
        number: 0,
        offset: 0,
        record_length: put,
        delivery: delivery,
        message_length: len,
    }
}

// Takes a record: keeps what it says, and does all that is then due.
fn take_record(
    s: &mut [u8],
    from: usize,
    r: &[u8],
    out: &mut [u8],
    delivery: &mut [u8],
    o: Outline,
) -> Stepped
    requires { (p : ℕ) × (notice_plan s.old from r.now out.old delivery.old ≡ Take (kind_number o.kind) p o.len) }
    ensures { outcome result s.new out.new delivery.new ≡ notice_taken (kind_number o.kind) o.len s.old from r.now out.old delivery.old }
{
    let put = take_in(s, from, r, out, o);
    if !is_done(s) {
        return answered(put, 0, 0);
    }
    copy_bytes(delivery, 0, &r[3..3 + o.len]);
    answered(put, 1, o.len as u32)
}

// A notice board's step: the record `r` from a board, by the board's state; `out` is for the record put out, `delivery` for the notice delivered.
pub fn step(state: &mut [u8], from: usize, r: &[u8], out: &mut [u8], delivery: &mut [u8]) -> Stepped
    ensures { outcome result state.new out.new delivery.new ≡ notice_step_of state.old from r.now out.old delivery.old }
{
    match plan_for(state, from, r, out.len(), delivery.len()) {
        Ok(o) => take_record(state, from, r, out, delivery, o),
        Err(e) => Stepped {
            number: e.why.number(),
            offset: e.at,
            record_length: 0,
            delivery: 0,
            message_length: 0,
        },
    }
}

// A fresh state put in.
fn write_fresh(s: &mut [u8], b: InLimits, own: usize)
    requires { (notice_state_bytes ≤ length s.old) × (is_board b.table own ≡ true) }
    ensures { s.new ≡ put 0 (notice_fresh b.table own) s.old }
{
    s[0] = b.table.n as u8;
    s[1] = b.table.t as u8;
    s[2] = b.table.sender as u8;
    s[3] = own as u8;
    clear_at(s, 4, AFTER_OWN);
}

// A start: a fresh state, or why it is refused.
pub fn start(b: Table, own: usize, state: &mut [u8]) -> Result<(), Refusal>
    ensures { begun (refused result) state.new ≡ notice_start_of b own state.old }
{
    let b = InLimits::try_from(b)?;
    if !b.table.is_board(own) {
        return Err(Refusal::Table);
    }
    if state.len() < STATE_BYTES {
        return Err(Refusal::Buffer);
    }
    write_fresh(state, b, own);
    Ok(())
}

// The sender's record for board `to`, the same for every board: its length, or why it is refused.
pub fn send(b: Table, notice: &[u8], to: usize, out: &mut [u8]) -> Result<u32, Refusal>
    ensures { send_out (sized_of result) out.new ≡ notice_send_of b notice.now to out.old }
{
    let b = InLimits::try_from(b)?;
    if out.len() < OUT_BYTES {
        return Err(Refusal::Buffer);
    }
    if !b.table.is_board(to) {
        return Err(Refusal::Board);
    }
    if MOST < notice.len() {
        return Err(Refusal::Message);
    }
    write_notice(out, Kind::Send, notice);
    Ok((3 + notice.len()) as u32)
}
