// A whole mailbox handed over to a board in one call, item by item. Soundness is looked at once: a step leaves a sound state sound. All but the
// callees of a step becomes one frame, the loop's, which every delivery pays for: it keeps little of an item.
#![tactic(auto)]

ghost use Rattle.std.specs.Prelude.{◌≡◌, true, List, [], ◌∷◌, ℕ, ◌≤◌, ◌<◌, length};
ghost use Rattle.octets.specs.Bytes.{put};
ghost use Rattle.table.specs.Table.{limits};
ghost use Rattle.record.specs.Form.{out_bytes, parse};
ghost use Rattle.record.specs.Kinds.{kind_number};
ghost use Rattle.refusal.specs.Numbers.{refused};
ghost use Rattle.state.specs.State.{fixed_bytes, table_of, marks_of};
ghost use Rattle.board.specs.Planned.{Take, by_board, plan_of};
ghost use Rattle.board.specs.Stepped.{record_root};
ghost use Rattle.deliver.specs.Delivered.{left};
ghost use Rattle.board_step.specs.Asked.{out_room, Deliverable};
ghost use Rattle.board_step.specs.Step.{stepped, outcome, result_in, delivered, taken_of};
ghost use Rattle.mailbox.specs.Items.{count_of, framed, items_of};
ghost use Rattle.board_mailbox.specs.Emptied.{only_number, emptied, handed, handed_all, mailbox_refusal, mailbox_of};
ghost use Rattle.board_mailbox.specs.Asked.{filed_echo, filed_vote, filed_delivery, refusal_in, Open};

use board_plan::{first_refusal, plan_record};
use board_step::{Stepped, deliver_done, is_done, is_good, take_in};
use deliver::{Delivery, kind_of, size_of};
use mailbox::is_framed;
use octets::two_at;
use record::{Kind, Outline, VOTE_BYTES};
use refusal::Refusal;

// What a mailbox answers: 0 or a refusal's number, the lengths of the echo and of the vote put out, the delivery (0 none, 1 a message, 2 void)
// and its length.
// Stays: C is given five numbers.
#[repr(C)]
#[derive(Clone, Copy)]
pub struct Mailed {
    pub number: u32,
    pub echo_length: u32,
    pub vote_length: u32,
    pub delivery: u32,
    pub message_length: u32,
}

// A number and nothing else.
fn only_number(q: u32) -> Mailed
    ensures { result ≡ only_number q }
{
    Mailed {
        number: q,
        echo_length: 0,
        vote_length: 0,
        delivery: 0,
        message_length: 0,
    }
}

// An answer with an echo of so many bytes, if there is one.
fn with_echo(m: Mailed, len: u32) -> Mailed
    ensures { result ≡ filed_echo len m }
{
    if len == 0 {
        return m;
    }
    Mailed {
        echo_length: len,
        ..m
    }
}

// An answer with a vote of so many bytes, if there is one.
fn with_vote(m: Mailed, len: u32) -> Mailed
    ensures { result ≡ filed_vote len m }
{
    if len == 0 {
        return m;
    }
    Mailed {
        vote_length: len,
        ..m
    }
}

// An answer with a delivery, if there is one.
// Stays: the delivery's number, as a step's answer to C has it.
fn with_delivery(m: Mailed, kind: u32, len: u32) -> Mailed
    ensures { result ≡ filed_delivery kind len m }
{
    if kind == 0 {
        return m;
    }
    Mailed {
        delivery: kind,
        message_length: len,
        ..m
    }
}

// The answer to item i, put in.
fn note(answers: &mut [u8], i: usize, number: u32)
    requires { (i < length answers.old) × (number < 256) }
    ensures { answers.new ≡ put i (number ∷ []) answers.old }
{
    answers[i] = number as u8;
}

// Why a record from a board is refused, or 0: the answer to its item.
// Stays: C's mailbox has this number, 0 for none, in its byte for each item.
fn record_refusal(s: &[u8], from: usize, r: &[u8]) -> u32
    requires { (fixed_bytes ≤ length s.now) × (limits (table_of s.now) ≡ true) }
    ensures { result ≡ refusal_in (by_board (table_of s.now) (marks_of s.now) from (parse r.now)) }
{
    match plan_record(s, from, r) {
        Err(e) => e.why.number(),
        Ok(_) => 0,
    }
}

// The delivery, if it is due. It stands by itself, so that what is lent here has its place on the stack only then.
fn finish(s: &[u8], r: &[u8], delivery: &mut [u8]) -> Option<Delivery>
    requires { (fixed_bytes ≤ length s.now) × Deliverable (table_of s.now) (marks_of s.now) s.now r.now delivery.old (marks_of s.now).done }
    ensures { left result delivery.new ≡ delivered (marks_of s.now).done (result_in (table_of s.now) (marks_of s.now) s.now (record_root r.now)) delivery.old }
{
    if !is_done(s) {
        return None;
    }
    deliver_done(s, r, delivery)
}

// Takes a send: the length of the echo put out. A send brings no delivery.
fn take_send(s: &mut [u8], from: usize, r: &[u8], echo: &mut [u8], o: Outline) -> u32
    requires { (kind_number o.kind ≡ 1) × (((x : List ℕ) × ((d : List ℕ) × (plan_of s.old from r.now x d ≡ Take 1 o.nodes o.len))) × (out_bytes ≤ length echo.old)) }
    ensures { (d : List ℕ) → outcome (stepped result 0 0) s.new echo.new d ≡ taken_of 1 o.nodes o.len s.old from r.now echo.old d }
{
    let good = is_good(s, from, r, o);
    take_in(s, from, r, echo, o, good)
}

// Takes an echo or a vote: what may be put out is a vote.
fn take_word(
    s: &mut [u8],
    from: usize,
    r: &[u8],
    vote: &mut [u8],
    delivery: &mut [u8],
    o: Outline,
) -> Stepped
    requires { ((x : List ℕ) × (plan_of s.old from r.now x delivery.old ≡ Take (kind_number o.kind) o.nodes o.len)) × (out_room (kind_number o.kind) ≤ length vote.old) }
    ensures { outcome result s.new vote.new delivery.new ≡ taken_of (kind_number o.kind) o.nodes o.len s.old from r.now vote.old delivery.old }
{
    let good = is_good(s, from, r, o);
    let put = take_in(s, from, r, vote, o, good);
    let left = finish(s, r, delivery);
    Stepped {
        number: 0,
        offset: 0,
        record_length: put,
        delivery: kind_of(left),
        message_length: size_of(left),
    }
}

// Item i handed over: the record `r` from a board. What the plan found in the record is read from it again, so that the loop's frame does
// not keep it.
// Stays: read again, and no outline from the plan, for the frame.
fn hand_over(
    state: &mut [u8],
    from: usize,
    r: &[u8],
    answers: &mut [u8],
    i: usize,
    echo: &mut [u8],
    vote: &mut [u8],
    delivery: &mut [u8],
    m: Mailed,
) -> Mailed
    requires { Open state.old echo.old vote.old delivery.old × (i < length answers.old) }
    ensures { emptied result state.new answers.new echo.new vote.new delivery.new
        ≡ handed i (record { board = from; bytes = r.now }) (emptied m state.old answers.old echo.old vote.old delivery.old) }
{
    let q = record_refusal(state, from, r);
    note(answers, i, q);
    if q != 0 {
        return m;
    }
    let Ok(kind) = Kind::try_from(r[0]) else {
        return m;
    };
    let nodes = two_at(r, 35);
    let o = Outline {
        kind: kind,
        nodes: nodes,
        len: r.len() - 39 - 32 * nodes,
    };
    if kind.is_send() {
        let put = take_send(state, from, r, echo, o);
        return with_echo(m, put);
    }
    let x = take_word(state, from, r, vote, delivery, o);
    with_delivery(with_vote(m, x.record_length), x.delivery, x.message_length)
}

// Every item handed over, in order.
fn hand_all(
    state: &mut [u8],
    mailbox: &[u8],
    answers: &mut [u8],
    echo: &mut [u8],
    vote: &mut [u8],
    delivery: &mut [u8],
) -> Mailed
    requires { Open state.old echo.old vote.old delivery.old × ((framed mailbox.now ≡ true) × (count_of mailbox.now ≤ length answers.old)) }
    ensures { emptied result state.new answers.new echo.new vote.new delivery.new
        ≡ handed_all 0 (items_of mailbox.now) (emptied (only_number 0) state.old answers.old echo.old vote.old delivery.old) }
{
    let count = two_at(mailbox, 0);
    let mut m = only_number(0);
    let mut at = 2;
    for i in 0..count {
        let a = at + 3;
        let e = a + two_at(mailbox, at + 1);
        let from = usize::from(mailbox[at]);
        let next = hand_over(
            state,
            from,
            &mailbox[a..e],
            answers,
            i,
            echo,
            vote,
            delivery,
            m,
        );
        m = next;
        at = e;
    }
    m
}

// Why a mailbox is refused.
fn mailbox_refusal(
    state: &[u8],
    mailbox: &[u8],
    answers: &[u8],
    echo: &[u8],
    vote: &[u8],
    delivery: &[u8],
) -> Result<(), Refusal>
    ensures { refused result ≡ mailbox_refusal state.now mailbox.now answers.now echo.now vote.now delivery.now }
{
    first_refusal(state, echo.len(), delivery.len())?;
    if vote.len() < VOTE_BYTES {
        return Err(Refusal::Buffer);
    }
    if !is_framed(mailbox) {
        return Err(Refusal::Mailbox);
    }
    if answers.len() < two_at(mailbox, 0) {
        return Err(Refusal::Mailbox);
    }
    Ok(())
}

// A mailbox: every item handed over, or a refusal before any is looked at.
pub fn mailbox(
    state: &mut [u8],
    mailbox: &[u8],
    answers: &mut [u8],
    echo: &mut [u8],
    vote: &mut [u8],
    delivery: &mut [u8],
) -> Mailed
    ensures { emptied result state.new answers.new echo.new vote.new delivery.new
        ≡ mailbox_of state.old mailbox.now answers.old echo.old vote.old delivery.old }
{
    match mailbox_refusal(state, mailbox, answers, echo, vote, delivery) {
        Err(e) => only_number(e.number()),
        Ok(()) => hand_all(state, mailbox, answers, echo, vote, delivery),
    }
}
