// What C calls: every function of the library that firmware links, over the crates that do the work.
// A slice is a pointer and then a length; every number may come in. include/tumbeliko.h says it for C.
#![tactic(auto)]

ghost use Rattle.std.specs.Prelude.{◌≡◌};
ghost use Rattle.refusal.specs.Numbers.{refused};
ghost use Rattle.record.specs.Form.{parse, answered};
ghost use Rattle.tree.specs.Check.{path_correct};
ghost use Rattle.code_calls.specs.Hashing.{hash_of};
ghost use Rattle.code_calls.specs.Encoding.{encoded, encode_of};
ghost use Rattle.code_calls.specs.Rebuilding.{Rebuilds};
ghost use Rattle.code_calls.specs.Reading.{read_out, read_of};
ghost use Rattle.notice.specs.Form.{parse_notice};
ghost use Rattle.board.specs.Started.{begun, start_of};
ghost use Rattle.board_send.specs.Sent.{send_out, send_of};
ghost use Rattle.board_step.specs.Step.{outcome, step_of};
ghost use Rattle.board_mailbox.specs.Emptied.{emptied, mailbox_of};
ghost use Rattle.notice_step.specs.Started.{notice_start_of};
ghost use Rattle.notice_step.specs.Step.{notice_step_of};
ghost use Rattle.notice_step.specs.Sent.{notice_send_of};
ghost use Rattle.tumbeliko.specs.Tables.{table_from};
ghost use Rattle.tumbeliko.specs.Records.{parts_of, wrote, write_of};
ghost use Rattle.tumbeliko.specs.Notices.{notice_parts_of, notice_write_of};

use board_mailbox::Mailed;
use board_step::Stepped;
use code_calls::Digest;
use record::Written;
use refusal::{Refusal, Sized};
use table::Table;

// The parts of a record: the refusal's number, or 0, and the place of the field at fault; the kind, the path's nodes and the fragment's bytes.
// Stays: C is given numbers.
#[repr(C)]
#[derive(Clone, Copy)]
pub struct Parts {
    pub number: u32,
    pub offset: u32,
    pub kind: u32,
    pub nodes: u32,
    pub fragment_length: u32,
}

// The parts of a notice record: the refusal's number, or 0, and the place of the field at fault; the kind and the notice's bytes.
// Stays: C is given numbers.
#[repr(C)]
#[derive(Clone, Copy)]
pub struct Notice {
    pub number: u32,
    pub offset: u32,
    pub kind: u32,
    pub length: u32,
}

// The four numbers as a table.
fn table(n: u32, t: u32, sender: u32, longest: u32) -> Table
    ensures { result ≡ table_from n t sender longest }
{
    Table {
        n: n as usize,
        t: t as usize,
        sender: sender as usize,
        longest: longest as usize,
    }
}

// The answer of a call that writes a record.
fn answered(number: u32, offset: u32, length: u32) -> Written
    ensures { result ≡ answered number offset length }
{
    Written {
        number: number,
        offset: offset,
        length: length,
    }
}

// The answer of a start: 0, or a refusal's number.
fn number(started: Result<(), Refusal>) -> u32
    ensures { result ≡ refused started }
{
    match started {
        Ok(()) => 0,
        Err(e) => e.number(),
    }
}

// SHA-256 of at most 65,536 bytes; 15.
#[unsafe(no_mangle)]
pub extern "C" fn tumbeliko_hash(string: &[u8]) -> Digest
    ensures { result ≡ hash_of string.now }
{
    Digest::from(code_calls::hash(string))
}

// Whether the path is correct for the fragment of a board of n, under the root.
#[unsafe(no_mangle)]
pub extern "C" fn tumbeliko_path_correct(
    n: u32,
    board: u32,
    root: &[u8],
    path: &[u8],
    fragment: &[u8],
) -> bool
    ensures { result ≡ path_correct n board root.now path.now fragment.now }
{
    tree::correct(n as usize, board as usize, root, path, fragment)
}

// All fragments of a message, the root of their tree and the path of each; 1, 2, 13.
#[unsafe(no_mangle)]
pub extern "C" fn tumbeliko_encode(
    n: u32,
    t: u32,
    sender: u32,
    longest: u32,
    message: &[u8],
    area: &mut [u8],
    root: &mut [u8],
    paths: &mut [u8],
) -> Sized
    ensures { encoded result area.new root.new paths.new
        ≡ encode_of (table_from n t sender longest) message.now area.old root.old paths.old }
{
    Sized::from(code_calls::encode(table(n, t, sender, longest), message, area, root, paths))
}

// The block whose fragments are all those marked; 1, 2, 4, 7, 10, 11.
#[unsafe(no_mangle)]
pub extern "C" fn tumbeliko_rebuild(
    n: u32,
    t: u32,
    sender: u32,
    longest: u32,
    marked: u64,
    lengths: &[u8],
    area: &[u8],
    block: &mut [u8],
) -> Sized
    ensures { Rebuilds (table_from n t sender longest) marked lengths.now area.now block.old result block.new }
{
    Sized::from(code_calls::rebuild(table(n, t, sender, longest), marked, lengths, area, block))
}

// The message that stands in a block; 1, 2, 12.
#[unsafe(no_mangle)]
pub extern "C" fn tumbeliko_read_block(
    n: u32,
    t: u32,
    sender: u32,
    longest: u32,
    block: &[u8],
    message: &mut [u8],
) -> Sized
    ensures { read_out result message.new ≡ read_of (table_from n t sender longest) block.now message.old }
{
    Sized::from(code_calls::read_block(table(n, t, sender, longest), block, message))
}

// The parts of a record; 20 to 25.
// Stays: C's numbers.
#[unsafe(no_mangle)]
pub extern "C" fn tumbeliko_read_record(record: &[u8]) -> Parts
    ensures { result ≡ parts_of (parse «record».now) }
{
    match record::read_record(record) {
        Ok(o) => Parts {
            number: 0,
            offset: 0,
            kind: u32::from(o.kind.number()),
            nodes: o.nodes as u32,
            fragment_length: o.len as u32,
        },
        Err(e) => Parts {
            number: e.why.number(),
            offset: e.at,
            kind: 0,
            nodes: 0,
            fragment_length: 0,
        },
    }
}

// A record of these parts; 2, 21 to 24.
#[unsafe(no_mangle)]
pub extern "C" fn tumbeliko_write_record(
    kind: u32,
    root: &[u8],
    path: &[u8],
    fragment: &[u8],
    out: &mut [u8],
) -> Written
    ensures { wrote result out.new ≡ write_of kind root.now path.now fragment.now out.old }
{
    if out.len() < record::OUT_BYTES {
        return answered(2, 0, 0);
    }
    match record::form_of(kind, root.len(), path.len(), fragment.len()) {
        Err(e) => answered(e.why.number(), e.at, 0),
        Ok(o) => {
            record::write_parts(out, o.kind, root, o.nodes, path, fragment);
            answered(0, 0, (39 + 32 * o.nodes + o.len) as u32)
        }
    }
}

// A fresh state; 1, 2.
// Stays: C is given the number.
#[unsafe(no_mangle)]
pub extern "C" fn tumbeliko_start(
    n: u32,
    t: u32,
    sender: u32,
    longest: u32,
    own: u32,
    state: &mut [u8],
) -> u32
    ensures { begun result state.new ≡ start_of (table_from n t sender longest) own state.old }
{
    number(board::start(table(n, t, sender, longest), own as usize, state))
}

// One record through a board's step; 2 at once for a state under 4,608 bytes, then 3, 2, 4, 20 to 25, 6, 7, 8, 9.
#[unsafe(no_mangle)]
pub extern "C" fn tumbeliko_step(
    state: &mut [u8],
    from: u32,
    record: &[u8],
    out: &mut [u8],
    delivery: &mut [u8],
) -> Stepped
    ensures { outcome result state.new out.new delivery.new
        ≡ step_of state.old from «record».now out.old delivery.old }
{
    board_call::step(state, from as usize, record, out, delivery)
}

// A whole mailbox through a board's steps, item by item; 2 at once for a state under 4,608 bytes, then 3, 2, 16. An item's own refusal is its answer.
#[unsafe(no_mangle)]
pub extern "C" fn tumbeliko_mailbox(
    state: &mut [u8],
    mailbox: &[u8],
    answers: &mut [u8],
    echo: &mut [u8],
    vote: &mut [u8],
    delivery: &mut [u8],
) -> Mailed
    ensures { emptied result state.new answers.new echo.new vote.new delivery.new
        ≡ mailbox_of state.old mailbox.now answers.old echo.old vote.old delivery.old }
{
    board_mailbox::mailbox(state, mailbox, answers, echo, vote, delivery)
}

// The sender's record for one board; 1, 2, 4, 13.
#[unsafe(no_mangle)]
pub extern "C" fn tumbeliko_send(
    n: u32,
    t: u32,
    sender: u32,
    longest: u32,
    message: &[u8],
    to: u32,
    out: &mut [u8],
) -> Sized
    ensures { send_out result out.new ≡ send_of (table_from n t sender longest) message.now to out.old }
{
    Sized::from(board_send::send(table(n, t, sender, longest), message, to as usize, out))
}

// The parts of a notice record; 20, 21, 24, 25. The notice is at byte 3.
// Stays: C's numbers.
#[unsafe(no_mangle)]
pub extern "C" fn tumbeliko_read_notice(record: &[u8]) -> Notice
    ensures { result ≡ notice_parts_of (parse_notice «record».now) }
{
    match notice::read_notice(record) {
        Ok(o) => Notice {
            number: 0,
            offset: 0,
            kind: 3 + u32::from(o.kind.number()),
            length: o.len as u32,
        },
        Err(e) => Notice {
            number: e.why.number(),
            offset: e.at,
            kind: 0,
            length: 0,
        },
    }
}

// A record of this notice; 2, 21, 24.
// Stays: C's numbers.
#[unsafe(no_mangle)]
pub extern "C" fn tumbeliko_write_notice(kind: u32, notice: &[u8], out: &mut [u8]) -> Written
    ensures { wrote result out.new ≡ notice_write_of kind notice.now out.old }
{
    if out.len() < notice::OUT_BYTES {
        return answered(2, 0, 0);
    }
    match notice::form_of(kind, notice.len()) {
        Err(e) => answered(e.why.number(), e.at, 0),
        Ok(o) => {
            notice::write_notice(out, o.kind, notice);
            answered(0, 0, (3 + o.len) as u32)
        }
    }
}

// A fresh state of a notice board; 1, 2.
// Stays: C is given the number.
#[unsafe(no_mangle)]
pub extern "C" fn tumbeliko_notice_start(
    n: u32,
    t: u32,
    sender: u32,
    own: u32,
    state: &mut [u8],
) -> u32
    ensures { begun result state.new ≡ notice_start_of (table_from n t sender 0) own state.old }
{
    number(notice_step::start(table(n, t, sender, 0), own as usize, state))
}

// One record through a notice board's step; 2 at once for a state under 8,352 bytes, then 3, 2, 4, 20, 21, 24, 25, 6, 8, 9.
#[unsafe(no_mangle)]
pub extern "C" fn tumbeliko_notice_step(
    state: &mut [u8],
    from: u32,
    record: &[u8],
    out: &mut [u8],
    delivery: &mut [u8],
) -> Stepped
    ensures { outcome result state.new out.new delivery.new
        ≡ notice_step_of state.old from «record».now out.old delivery.old }
{
    notice_step::step(state, from as usize, record, out, delivery)
}

// The sender's notice record for one board; 1, 2, 4, 13.
#[unsafe(no_mangle)]
pub extern "C" fn tumbeliko_notice_send(
    n: u32,
    t: u32,
    sender: u32,
    notice: &[u8],
    to: u32,
    out: &mut [u8],
) -> Sized
    ensures { send_out result out.new ≡ notice_send_of (table_from n t sender 0) notice.now to out.old }
{
    Sized::from(notice_step::send(table(n, t, sender, 0), notice, to as usize, out))
}
