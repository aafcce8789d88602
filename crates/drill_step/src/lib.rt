// One step of a drill with its boards, which are in lent buffers; and their fresh states.
#![tactic(auto)]

ghost use Rattle.std.specs.Prelude.{◌≡◌, true, List, ℕ, ◌+◌, ◌*◌, ◌≤◌, ◌<◌, length, take};
ghost use Rattle.record.specs.Form.{out_bytes};
ghost use Rattle.octets.specs.Bytes.{put};
ghost use Rattle.table.specs.Table.{is_board};
ghost use Rattle.board.specs.Started.{start_of};
ghost use Rattle.board_send.specs.Sent.{send_record};
ghost use Rattle.drill_lines.specs.Read.{letter_of, IsRaw};
ghost use Rattle.drill_print.specs.Printed.{delivery_of, size_of, shown_by};
ghost use Rattle.drill_boards.specs.Held.{zeros};
ghost use Rattle.drill_boards.specs.Room.{state_at, boards_in};
ghost use Rattle.drill_step.specs.Boards.{fresh, record_for, turn, turn_of};
ghost use Rattle.drill_step.specs.Asked.{Shaped, Handing, Hands, Stepping, DrillRoom, Cleared, SameRoom, boards_of};

use board_step::Stepped;
use drill_lines::{Handed, Small, Step};
use drill_print::{Outcome, Shown};

// The lent buffers of a drill: the boards' states, what they have put out, the record handed over, the record put out, the message delivered.
#[derive(Drop)]
pub struct Room<'a> {
    pub states: &'a mut [u8],
    pub kept: &'a mut [u8],
    pub handed: &'a mut [u8],
    pub out: &'a mut [u8],
    pub delivery: &'a mut [u8],
}

// The sender's record, at the start of `handed`; its length.
fn hand_send(b: Small, message: &[u8], to: usize, handed: &mut [u8]) -> usize
    requires { (length message.now ≤ b.limits.table.longest) × (is_board b.limits.table to ≡ true) × (out_bytes ≤ length handed.old) }
    ensures { (take result handed.new ≡ send_record b.limits.table message.now to) × (result ≤ out_bytes) }
{
    board_send::send(b.limits.table, message, to, handed).unwrap_or(0) as usize
}

// The record of a step, at the start of `handed`; its length.
// Stays: the length beside its buffer, since a part lent out of `handed` as the result is no plainer.
fn hand(b: Small, message: &[u8], kept: &[u8], s: Step, handed: &mut [u8]) -> usize
    requires { Handing b.limits.table message.now s × (14336 ≤ length kept.now) × (out_bytes ≤ length handed.old) }
    ensures { ((states l : List ℕ) → IsRaw s.entry.handed l
        → take result handed.new ≡ record_for b.limits.table message.now (boards_in states kept.now) (letter_of s.entry.handed) s.entry.from s.entry.to l)
        × (result ≤ out_bytes) }
{
    match s.handed {
        Handed::Send => hand_send(b, message, s.to, handed),
        Handed::Echo => drill_boards::hand_slot(kept, 2 * (s.from - 1), handed),
        Handed::Vote => drill_boards::hand_slot(kept, 2 * (s.from - 1) + 1, handed),
        Handed::Raw(hex) => {
            drill_words::decode(hex, handed);
            hex.len() / 2
        }
    }
}

// What was delivered, by the numbers of a step's answer.
fn outcome_of(delivery: u32, length: u32) -> Outcome
    requires { Shaped delivery length }
    ensures { (delivery_of result ≡ delivery) × (size_of result ≡ length) }
{
    match delivery {
        1 => Outcome::Message(length as usize),
        2 => Outcome::Void,
        _ => Outcome::Nothing,
    }
}

// The receiver's step, with clean buffers.
fn step_at(
    states: &mut [u8],
    from: usize,
    to: usize,
    r: &[u8],
    out: &mut [u8],
    delivery: &mut [u8],
) -> Stepped
    requires { (1 ≤ to) × (to ≤ 7) × (length states.old ≡ 35588) × (length out.old ≡ out_bytes) × (length delivery.old ≡ 64) }
    ensures { Stepping states.old from to r.now result states.new out.new delivery.new }
{
    out.fill(0);
    delivery.fill(0);
    let a = (to - 1) * 5084;
    let e = a + 5084;
    board_call::step(&mut states[a..e], from, r, out, delivery)
}

// A fresh state for board i + 1.
fn start_one(b: Small, i: usize, states: &mut [u8])
    requires { (i < 7) × (length states.old ≡ 35588) }
    ensures { states.new ≡ put (i * 5084) (start_of b.limits.table (i + 1) (state_at i states.old)).state states.old }
{
    let a = i * 5084;
    let e = a + 5084;
    // the table is within its limits and the state long enough, so that no start is refused
    let _ = board::start(b.limits.table, i + 1, &mut states[a..e]);
}

impl Room<'_> {
    // Zeros all over the buffers.
    pub fn clear(&mut self)
        requires { DrillRoom self.old }
        ensures { Cleared self.new × SameRoom self.old self.new }
    {
        self.states.fill(0);
        self.kept.fill(0);
        self.handed.fill(0);
        self.out.fill(0);
        self.delivery.fill(0);
    }

    // A fresh state for each of the boards.
    pub fn start(&mut self, b: Small)
        requires { self.old.states.now ≡ zeros 35588 }
        ensures { (boards_in self.new.states.now (zeros 14336) ≡ fresh b.limits.table) × (length self.new.states.now ≡ 35588) × SameRoom self.old self.new
            × (self.new.kept.now ≡ self.old.kept.now) × (self.new.handed.now ≡ self.old.handed.now) × (self.new.out.now ≡ self.old.out.now) × (self.new.delivery.now ≡ self.old.delivery.now) }
    {
        let states = &mut *self.states;
        for i in 0..7 {
            start_one(b, i, states);
        }
    }

    // One step of the drill: the record is handed over and taken, unless it was not yet put out. It is the turn of each line that says the step,
    // right or not.
    pub fn step(&mut self, b: Small, message: &[u8], s: Step) -> Shown
        requires { Handing b.limits.table message.now s × DrillRoom self.old }
        ensures { ((l : List ℕ) → Hands s.entry l → turn (shown_by result) (take (size_of result.outcome) self.new.delivery.now) (boards_of self.new)
            ≡ turn_of b.limits.table message.now (boards_of self.old) l) × (result.answer ≤ 25) × (size_of result.outcome ≤ 64)
            × DrillRoom self.new × SameRoom self.old self.new }
    {
        let states = &mut *self.states;
        let kept = &mut *self.kept;
        let handed = &mut *self.handed;
        let out = &mut *self.out;
        let delivery = &mut *self.delivery;
        if !drill_boards::is_out(b, kept, s) {
            return Shown {
                answer: 14,
                act: b'-',
                outcome: Outcome::Nothing,
            };
        }
        let n = hand(b, message, kept, s, handed);
        let record = &*handed;
        let x = step_at(states, s.from, s.to, &record[..n], out, delivery);
        let put_out = &*out;
        let r = &put_out[..x.record_length as usize];
        drill_boards::keep(kept, s.to - 1, r);
        Shown {
            answer: x.number as usize,
            act: drill_boards::act_of(r),
            outcome: outcome_of(x.delivery, x.message_length),
        }
    }
}
