// A board's step: a record is refused, or taken with all that is then due.
#![tactic(auto)]

ghost use Rattle.std.specs.Prelude.{◌≡◌, length};
ghost use Rattle.octets.specs.Bytes.{put};
ghost use Rattle.board.specs.Planned.{Take, plan_of};
ghost use Rattle.deliver.specs.Delivered.{kind_of, size_of};
ghost use Rattle.record.specs.Kinds.{kind_number};
ghost use Rattle.board_step.specs.Step.{stepped, outcome, good, taken_of, step_of};

use board_plan::plan_for;
use board_step::{Stepped, deliver_done, is_done, is_good, take_in};
use deliver::{Delivery, kind_of, size_of};
use record::Outline;

// The answer of a step that took its record.
// Stays: C's struct, 0 being no refusal.
fn answered(put: u32, left: Option<Delivery>) -> Stepped
    ensures { result ≡ stepped put (kind_of left) (size_of left) }
{
    Stepped {
        number: 0,
        offset: 0,
        record_length: put,
        delivery: kind_of(left),
        message_length: size_of(left),
    }
}

// Takes a record: keeps what it says, and does all that is then due.
fn take_record(
    s: &mut [u8],
    from: usize,
    r: &[u8],
    out: &mut [u8],
    delivery: &mut [u8],
    o: Outline,
) -> Stepped
    requires { plan_of s.old from r.now out.old delivery.old ≡ Take (kind_number o.kind) o.nodes o.len }
    ensures { outcome result s.new out.new delivery.new ≡ taken_of (kind_number o.kind) o.nodes o.len s.old from r.now out.old delivery.old }
{
    let good = is_good(s, from, r, o);
    let put = take_in(s, from, r, out, o, good);
    if !is_done(s) {
        return answered(put, None);
    }
    answered(put, deliver_done(s, r, delivery))
}

// A board's step: the record `r` from a board, by the board's state; `out` is for the record put out, `delivery` for the message delivered.
pub fn step(state: &mut [u8], from: usize, r: &[u8], out: &mut [u8], delivery: &mut [u8]) -> Stepped
    ensures { outcome result state.new out.new delivery.new ≡ step_of state.old from r.now out.old delivery.old }
{
    match plan_for(state, from, r, out, delivery) {
        Err(e) => Stepped {
            number: e.why.number(),
            offset: e.at,
            record_length: 0,
            delivery: 0,
            message_length: 0,
        },
        Ok(o) => take_record(state, from, r, out, delivery, o),
    }
}
