// A board: what a record that is taken leaves and has put out, and a start.
#![tactic(auto)]

ghost use Rattle.std.specs.Prelude.{◌≡◌, true, [], ◌+◌, ◌*◌, ◌≤◌, ◌<◌, length};
ghost use Rattle.state.specs.State.{fixed_bytes};
ghost use Rattle.octets.specs.Bytes.{put};
ghost use Rattle.table.specs.Table.{is_board};
ghost use Rattle.refusal.specs.Numbers.{refused};
ghost use Rattle.record.specs.Form.{vote_bytes, record_of};
ghost use Rattle.record.specs.Kinds.{kind_number};
ghost use Rattle.board.specs.Stepped.{record_root, record_path, record_fragment, kept, KeptRoom};
ghost use Rattle.board.specs.Started.{fresh_bytes, begun, start_of};

use octets::{clear_at, copy_at, copy_bytes, put_two};
use record::{Kind, Outline, write_parts};
use refusal::Refusal;
use state::{ECHO_ROOTS, FIXED_BYTES, KEPT_LENGTHS, LONGEST, MARKS, OWN, VOTE_ROOTS, state_size};
use table::{InLimits, Table};

// How many bytes of a state follow the table and the own number, before the fragments.
const AFTER_TABLE: usize = FIXED_BYTES - MARKS;

// What a record from board i + 1 leaves in the state; `max` is s_max.
pub fn keep_record(s: &mut [u8], max: usize, i: usize, o: Outline, r: &[u8])
    requires { KeptRoom s.old r.now max i o.nodes o.len }
    ensures { s.new ≡ kept max (kind_number o.kind) i o.nodes o.len r.now s.old }
{
    match o.kind {
        Kind::Send => {}
        Kind::Echo => {
            copy_at(s, ECHO_ROOTS + 32 * i, &r[3..35]);
            put_two(s, KEPT_LENGTHS + 2 * i, o.len);
            let a = 39 + 32 * o.nodes;
            let e = a + o.len;
            copy_bytes(s, FIXED_BYTES + i * max, &r[a..e]);
        }
        Kind::Vote => copy_at(s, VOTE_ROOTS + 32 * i, &r[3..35]),
    }
}

// An echo with the root, path and fragment of `r`, put out.
pub fn write_echo(out: &mut [u8], r: &[u8], o: Outline)
    requires { (39 + 32 * o.nodes + o.len ≤ length out.old) × ((o.nodes ≤ 6) × ((o.len ≤ 16388) × (39 + 32 * o.nodes + o.len ≡ length r.now))) }
    ensures { out.new ≡ put 0 (record_of 2 (record_root r.now) o.nodes (record_path o.nodes r.now) (record_fragment o.nodes o.len r.now)) out.old }
{
    let a = 37 + 32 * o.nodes;
    let c = a + 2;
    let e = c + o.len;
    write_parts(out, Kind::Echo, &r[3..35], o.nodes, &r[37..a], &r[c..e]);
}

// A vote for the root of `r`, put out.
pub fn write_vote(out: &mut [u8], r: &[u8])
    requires { (vote_bytes ≤ length out.old) × (35 ≤ length r.now) }
    ensures { out.new ≡ put 0 (record_of 3 (record_root r.now) 0 [] []) out.old }
{
    write_parts(out, Kind::Vote, &r[3..35], 0, &r[0..0], &r[0..0]);
}

// A fresh state put in; the fragment bytes stay.
fn write_fresh(s: &mut [u8], b: InLimits, own: usize)
    requires { (fixed_bytes ≤ length s.old) × (is_board b.table own ≡ true) }
    ensures { s.new ≡ put 0 (fresh_bytes b.table own) s.old }
{
    s[0] = b.table.n as u8;
    s[1] = b.table.t as u8;
    s[2] = b.table.sender as u8;
    s[OWN] = own as u8;
    put_two(s, LONGEST, b.table.longest);
    clear_at(s, MARKS, AFTER_TABLE);
}

// A start, of the board with the number `own`.
pub fn start(table: Table, own: usize, state: &mut [u8]) -> Result<(), Refusal>
    ensures { begun (refused result) state.new ≡ start_of table own state.old }
{
    let b = InLimits::try_from(table)?;
    if !table.is_board(own) {
        return Err(Refusal::Table);
    }
    if state.len() < state_size(b) {
        return Err(Refusal::Buffer);
    }
    write_fresh(state, b, own);
    Ok(())
}
