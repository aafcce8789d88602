// Records: a kind byte, then root, path and fragment, each after its two-byte count.
#![tactic(auto)]

ghost use Rattle.std.specs.Prelude.{◌≡◌, ◌+◌, ◌≤◌, ◌<◌, Result, Ok, Err, length, leb, eqb};
ghost use Rattle.octets.specs.Bytes.{pick, put};
ghost use Rattle.refusal.specs.declared.Refusal.TheVariants.{Cut};
ghost use Rattle.record.specs.Form.{Parts, record_of, form_of, nodes_most, path_ok, fragment_ok, parse, parse_root, parse_path, parse_fragment};
ghost use Rattle.record.specs.Kinds.{Kinds, kind_number, read_as};

use octets::{copy_at, copy_bytes, put_two, two_at};
use refusal::{Refusal, Refused};

// How many bytes an outgoing record buffer needs: as many as the longest record has.
pub const OUT_BYTES: usize = 16619;

// How many bytes a vote record has.
pub const VOTE_BYTES: usize = 39;

// The kinds of records, by their numbers.
#[derive(Clone, Copy, PartialEq, Eq, Debug)]
pub enum Kind {
    Send = 1,
    Echo = 2,
    Vote = 3,
}

// What a record is made of, beside its root: its kind, how many path nodes and how many fragment bytes. The root is at 3, the path at 37, the
// fragment at 39 + 32 * nodes.
#[derive(Clone, Copy, PartialEq, Eq, Debug)]
pub struct Outline {
    pub kind: Kind,
    pub nodes: usize,
    pub len: usize,
}

// What writing a record answers: 0, or a refusal's number, and beside 20 to 25 the place of the field at fault; the record's length.
// Stays: C is given three numbers.
#[repr(C)]
#[derive(Clone, Copy)]
pub struct Written {
    pub number: u32,
    pub offset: u32,
    pub length: u32,
}

// The kind of a kind byte; else refusal 21.
impl TryFrom<u8> for Kind {
    type Error = Refusal;

    ghost try_from_gives = { Kinds };

    fn try_from(byte: u8) -> Result<Kind, Refusal> {
        match byte {
            1 => Ok(Kind::Send),
            2 => Ok(Kind::Echo),
            3 => Ok(Kind::Vote),
            // this form, a range for those refused, is document 01's
            0 | 4..=255 => Err(Refusal::Kind),
        }
    }
}

impl Kind {
    // Its number.
    pub fn number(self) -> u8
        ensures { result ≡ kind_number self }
    {
        self as u8
    }

    // Whether it is a send.
    pub fn is_send(self) -> bool
        ensures { result ≡ eqb (kind_number self) 1 }
    {
        match self {
            Kind::Send => true,
            Kind::Echo | Kind::Vote => false,
        }
    }

    // Whether it is a vote.
    pub fn is_vote(self) -> bool
        ensures { result ≡ eqb (kind_number self) 3 }
    {
        match self {
            Kind::Send | Kind::Echo => false,
            Kind::Vote => true,
        }
    }

    // The most path nodes of a record of this kind.
    fn most_nodes(self) -> usize
        ensures { (result ≡ nodes_most (kind_number self)) × (result ≤ 6) }
    {
        match self {
            Kind::Send | Kind::Echo => 6,
            Kind::Vote => 0,
        }
    }

    // Whether a record of this kind may have a path of so many bytes.
    fn takes_path(self, len: usize) -> bool
        ensures { result ≡ path_ok (kind_number self) len }
    {
        len % 32 == 0 && len / 32 <= self.most_nodes()
    }

    // Whether a record of this kind may have a fragment of so many bytes.
    fn takes_fragment(self, len: usize) -> bool
        ensures { result ≡ fragment_ok (kind_number self) len }
    {
        match self {
            Kind::Send | Kind::Echo => 1 <= len && len <= 16388,
            Kind::Vote => len == 0,
        }
    }
}

// The field at `at` passes its test; else it is the field at fault.
pub fn field(ok: bool, why: Refusal, at: usize) -> Result<(), Refused>
    requires { at < 4294967296 }
    ensures { result ≡ pick ok (Ok tt) (Err (record { why = why; at = at })) }
{
    if ok {
        return Ok(());
    }
    Err(Refused {
        why: why,
        at: at as u32,
    })
}

// The bytes do not end before the end of the field of n bytes at `at`; else it is cut off.
pub fn need(s: &[u8], at: usize, n: usize) -> Result<(), Refused>
    requires { (at < 65536) × (n < 65536) }
    ensures { result ≡ pick (leb (at + n) (length s.now)) (Ok tt) (Err (record { why = Cut; at = at })) }
{
    field(at + n <= s.len(), Refusal::Cut, at)
}

// Reads the fragment section, which starts at `at`, and sees that nothing follows.
fn read_fragment(s: &[u8], kind: Kind, nodes: usize, at: usize) -> Result<Outline, Refused>
    requires { at ≤ 1000 }
    ensures { read_as result ≡ parse_fragment s.now (kind_number kind) nodes at }
{
    need(s, at, 2)?;
    let len = two_at(s, at);
    field(kind.takes_fragment(len), Refusal::Fragment, at)?;
    need(s, at + 2, len)?;
    let end = at + 2 + len;
    field(s.len() <= end, Refusal::After, end)?;
    Ok(Outline {
        kind: kind,
        nodes: nodes,
        len: len,
    })
}

// Reads the path section and what follows it.
fn read_path(s: &[u8], kind: Kind) -> Result<Outline, Refused>
    ensures { read_as result ≡ parse_path s.now (kind_number kind) }
{
    need(s, 35, 2)?;
    let nodes = two_at(s, 35);
    field(nodes <= kind.most_nodes(), Refusal::Path, 35)?;
    need(s, 37, 32 * nodes)?;
    read_fragment(s, kind, nodes, 37 + 32 * nodes)
}

// Reads the root section and what follows it.
fn read_root(s: &[u8], kind: Kind) -> Result<Outline, Refused>
    ensures { read_as result ≡ parse_root s.now (kind_number kind) }
{
    need(s, 1, 2)?;
    field(two_at(s, 1) == 32, Refusal::Root, 1)?;
    need(s, 3, 32)?;
    read_path(s, kind)
}

// Reads a record: a send, an echo or a vote.
pub fn read_record(s: &[u8]) -> Result<Outline, Refused>
    ensures { read_as result ≡ parse s.now }
{
    need(s, 0, 1)?;
    let kind = Kind::try_from(s[0])?;
    read_root(s, kind)
}

// The kind of a number, which C hands in: none is above 255.
fn kind_of(number: u32) -> Result<Kind, Refusal>
    ensures { Kinds number result }
{
    if 255 < number {
        return Err(Refusal::Kind);
    }
    Kind::try_from(number as u8)
}

// The form of a record with a root, a path and a fragment of so many bytes, or the first field at fault and where it would start.
// Stays: the kind is a number here: C hands it in.
pub fn form_of(kind: u32, root: usize, path: usize, fragment: usize) -> Result<Outline, Refused>
    ensures { read_as result ≡ form_of kind root path fragment }
{
    let kind = kind_of(kind)?;
    field(root == 32, Refusal::Root, 1)?;
    field(kind.takes_path(path), Refusal::Path, 35)?;
    field(kind.takes_fragment(fragment), Refusal::Fragment, 37 + path)?;
    Ok(Outline {
        kind: kind,
        nodes: path / 32,
        len: fragment,
    })
}

// The record of these parts, written to the start of `out`.
pub fn write_parts(
    out: &mut [u8],
    kind: Kind,
    root: &[u8],
    nodes: usize,
    path: &[u8],
    fragment: &[u8],
)
    requires { Parts out.old root.now nodes path.now fragment.now }
    ensures { out.new ≡ put 0 (record_of (kind_number kind) root.now nodes path.now fragment.now) out.old }
{
    out[0] = kind.number();
    out[1] = 0;
    out[2] = 32;
    copy_at(out, 3, root);
    put_two(out, 35, nodes);
    copy_bytes(out, 37, path);
    put_two(out, 37 + 32 * nodes, fragment.len());
    copy_bytes(out, 39 + 32 * nodes, fragment);
}
