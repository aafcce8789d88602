// What the boards of a drill have put out, in a lent buffer; and the record that is handed over from there.
#![tactic(auto, using(crate::proofs::Slots::slots), unfolding(crate::specs::Held::put_out_yet, crate::specs::Held::act_of, crate::specs::Room::boards_in, crate::specs::Room::slot, crate::specs::Room::slot_length, octets::specs::Bytes::pick, octets::specs::Bytes::part))]

ghost use Rattle.std.specs.Prelude.{◌≡◌, List, ◌++◌, ℕ, ◌+◌, ◌*◌, ◌≤◌, ◌<◌, length, get_or, take, MatchOption};
ghost use Rattle.record.specs.Form.{out_bytes};
ghost use Rattle.record.specs.Kinds.{kind_number};
ghost use Rattle.octets.specs.Bytes.{two, put};
ghost use Rattle.drill_lines.specs.Read.{letter_of};
ghost use Rattle.drill_boards.specs.Held.{put_out_yet, with_record, act_of};
ghost use Rattle.drill_boards.specs.Room.{slot, boards_in};

use drill_lines::{Handed, Small, Step};
use record::Kind;

// The record in slot j: no bytes for none.
fn slot(kept: &[u8], j: usize) -> &[u8]
    requires { (j < 14) × (14336 ≤ length kept.now) }
    ensures { (result.now ≡ slot j kept.now) × (length result.now ≤ 1022) }
{
    let at = j * 1024 + 2;
    let n = octets::two_at(kept, j * 1024).min(1022);
    &kept[at..at + n]
}

// Whether the record of a step was put out.
pub fn is_out(b: Small, kept: &[u8], s: Step) -> bool
    requires { (1 ≤ s.from) × (s.from ≤ 7) × (14336 ≤ length kept.now) }
    ensures { (states : List ℕ) → result ≡ put_out_yet b.limits.table (boards_in states kept.now) (letter_of s.entry.handed) s.entry.from }
{
    match s.handed {
        Handed::Send => s.from == b.limits.table.sender,
        Handed::Echo => !slot(kept, 2 * (s.from - 1)).is_empty(),
        Handed::Vote => !slot(kept, 2 * (s.from - 1) + 1).is_empty(),
        Handed::Raw(_) => true,
    }
}

// The record in slot j, copied to the start of `handed`; its length.
pub fn hand_slot(kept: &[u8], j: usize, handed: &mut [u8]) -> usize
    requires { (j < 14) × (14336 ≤ length kept.now) × (out_bytes ≤ length handed.old) }
    ensures { (take result handed.new ≡ slot j kept.now) × (result ≤ out_bytes) }
{
    let r = slot(kept, j);
    octets::copy_bytes(handed, 0, r);
    r.len()
}

// A record, kept in slot j.
fn keep_in(kept: &mut [u8], j: usize, r: &[u8])
    requires { (j < 14) × (length kept.old ≡ 14336) × (length r.now ≤ 1022) }
    ensures { kept.new ≡ put (j * 1024) (two (length r.now) ++ r.now) kept.old }
{
    octets::put_two(kept, j * 1024, r.len());
    octets::copy_bytes(kept, j * 1024 + 2, r);
}

// The kind of a record that was put out, by its first byte; none of no bytes.
fn kind_of(r: &[u8]) -> Option<Kind>
    ensures { MatchOption result ((get_or r.now 0 0 ≡ 2 → ⊥) × (get_or r.now 0 0 ≡ 3 → ⊥)) (λ k. kind_number k ≡ get_or r.now 0 0) }
{
    Kind::try_from(*r.first()?).ok()
}

// What board i + 1 has put out is kept.
pub fn keep(kept: &mut [u8], i: usize, r: &[u8])
    requires { (i < 7) × (length kept.old ≡ 14336) × (length r.now ≤ 1022) }
    ensures { (states : List ℕ) → boards_in states kept.new ≡ with_record (boards_in states kept.old) i r.now }
{
    match kind_of(r) {
        Some(Kind::Echo) => keep_in(kept, 2 * i, r),
        Some(Kind::Vote) => keep_in(kept, 2 * i + 1, r),
        _ => {}
    }
}

// The act's letter, by what was put out: e, v or -.
pub fn act_of(r: &[u8]) -> u8
    ensures { result ≡ act_of (get_or r.now 0 0) }
{
    match kind_of(r) {
        Some(Kind::Echo) => b'e',
        Some(Kind::Vote) => b'v',
        _ => b'-',
    }
}
