// The drill program as one call: the rule-keeping boards of a line step by step, all that they answer printed into a lent buffer.
#![tactic(auto)]

ghost use Rattle.std.specs.Prelude.{◌≡◌, true, ◌||◌, ◌+◌, ◌*◌, ◌≤◌, ◌<◌, ltb, length};
ghost use Rattle.record.specs.Form.{out_bytes};
ghost use Rattle.drill_lines.specs.Read.{numbered};
ghost use Rattle.drill_open.specs.Opened.{opening1};
ghost use Rattle.drill_print.specs.Printed.{Wrote};
ghost use Rattle.drill_boards.specs.Held.{zeros};
ghost use Rattle.drill_step.specs.Asked.{DrillRoom, Cleared, SameRoom, boards_of};
ghost use Rattle.drill.specs.Drill.{steps_from, printed_by, drill_of};
ghost use Rattle.drill.specs.Call.{lent, drill_out, call_of};
ghost use Rattle.drill.specs.Asked.{Tells, Exact, Ended};

use drill_open::{BadLine, Opening, next_line};
use drill_print::Page;
use drill_step::Room;
use record::OUT_BYTES;
use refusal::{Refusal, Sized};

// The steps, on the lines after the first four; then nothing may follow.
fn run_steps(o: Opening, message: &[u8], room: &mut Room, page: &mut Page) -> Result<(), BadLine>
    requires { (length message.now ≤ o.table.limits.table.longest) × DrillRoom room.old × (page.old.at + 154014 ≤ length page.old.text.now) }
    ensures { Tells (steps_from o.entry.table.limits.table (numbered o.entry.breakers) message.now o.entry.count 1 o.entry.rest.now (boards_of room.old)) result page.old page.new
        × (page.new.at ≤ page.old.at + 154000) × DrillRoom room.new × SameRoom room.old room.new }
{
    let table = o.table.limits.table;
    let mut rest = o.rest;
    for k in 1..o.count + 1 {
        let (line, more) = next_line(rest, k + 4)?;
        let step = drill_lines::step_in(table, o.breakers, line).ok_or(BadLine { line: k + 4 })?;
        let shown = room.step(o.table, message, step);
        let delivery = &mut *room.delivery;
        page.put_line_of(k, line, shown, delivery);
        rest = more;
    }
    if rest.is_empty() {
        Ok(())
    } else {
        Err(BadLine { line: o.count + 5 })
    }
}

// All lines, in a room with no states and nothing put out.
fn run(input: &[u8], message: &mut [u8], room: &mut Room, page: &mut Page) -> Result<(), BadLine>
    requires { (length message.old ≡ 64) × DrillRoom room.old × (room.old.states.now ≡ zeros 35588) × (room.old.kept.now ≡ zeros 14336)
        × (page.old.at + 154014 ≤ length page.old.text.now) }
    ensures { Tells (printed_by (opening1 input.now)) result page.old page.new
        × (page.new.at ≤ page.old.at + 154000) × DrillRoom room.new × SameRoom room.old room.new }
{
    let o = Opening::read(input, message)?;
    room.start(o.table);
    let said = &*message;
    run_steps(o, &said[..o.size], room, page)
}

// The whole drill: all is clean afterwards.
fn run_all(input: &[u8], message: &mut [u8], room: &mut Room, page: &mut Page)
    requires { (length message.old ≡ 64) × DrillRoom room.old × (page.old.at ≡ 0) × (154051 ≤ length page.old.text.now) }
    ensures { Wrote (drill_of input.now) page.old page.new × (page.new.at ≤ 154051) × (message.new ≡ zeros 64) × Cleared room.new × SameRoom room.old room.new }
{
    // these two alone: a step writes each of the others before it reads it
    room.states.fill(0);
    room.kept.fill(0);
    page.put(b"step kind from to answer act outcome\n");
    if let Err(bad) = run(input, message, room, page) {
        page.put_bad(bad.line);
    }
    message.fill(0);
    room.clear();
}

// The whole drill in buffers of just the lengths needed, which are a room and a page; how many bytes are printed.
// Stays: the buffers one by one, as the C interface of `tumbeliko_drill` lends them.
fn run_lent(
    input: &[u8],
    message: &mut [u8],
    states: &mut [u8],
    kept: &mut [u8],
    handed: &mut [u8],
    out: &mut [u8],
    delivery: &mut [u8],
    text: &mut [u8],
) -> usize
    requires { Exact (lent message.old states.old kept.old handed.old out.old delivery.old text.old) }
    ensures { Ended input.now result text.old (lent message.new states.new kept.new handed.new out.new delivery.new text.new) }
{
    let mut room = Room {
        states,
        kept,
        handed,
        out,
        delivery,
    };
    let mut page = Page { text, at: 0 };
    run_all(input, message, &mut room, &mut page);
    page.at
}

// Whether a lent buffer is too short, by their lengths.
fn is_short(
    message: usize,
    states: usize,
    kept: usize,
    handed: usize,
    out: usize,
    delivery: usize,
    text: usize,
) -> bool
    ensures { result ≡ (ltb message 64 || (ltb states 35588 || (ltb kept 14336 || (ltb handed out_bytes || (ltb out out_bytes || (ltb delivery 64 || ltb text 154051)))))) }
{
    message < 64
        || states < 35588
        || kept < 14336
        || handed < OUT_BYTES
        || out < OUT_BYTES
        || delivery < 64
        || text < 154051
}

// A drill: all that it prints goes to the start of `text`; 2.
#[unsafe(no_mangle)]
pub extern "C" fn tumbeliko_drill(
    input: &[u8],
    message: &mut [u8],
    states: &mut [u8],
    kept: &mut [u8],
    handed: &mut [u8],
    out: &mut [u8],
    delivery: &mut [u8],
    text: &mut [u8],
) -> Sized
    ensures { drill_out result (lent message.new states.new kept.new handed.new out.new delivery.new text.new)
        ≡ call_of input.now (lent message.old states.old kept.old handed.old out.old delivery.old text.old) }
{
    if is_short(
        message.len(),
        states.len(),
        kept.len(),
        handed.len(),
        out.len(),
        delivery.len(),
        text.len(),
    ) {
        return Sized::from(Err(Refusal::Buffer));
    }
    let end = run_lent(
        input,
        &mut message[..64],
        &mut states[..35588],
        &mut kept[..14336],
        &mut handed[..OUT_BYTES],
        &mut out[..OUT_BYTES],
        &mut delivery[..64],
        text,
    );
    Sized::from(Ok(end as u32))
}
