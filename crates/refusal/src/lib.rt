// Why a call refuses: the list of document 01 and its amendments, each with its number.
#![tactic(auto)]

ghost use Rattle.std.specs.Prelude.{◌≡◌, ◌<◌};
ghost use Rattle.refusal.specs.Numbers.{number_of, Numbered, Nowhere};
ghost use Rattle.refusal.specs.Answers.{Answers};

// A refusal. What C is given is its number.
#[derive(Clone, Copy, PartialEq, Eq, Debug)]
pub enum Refusal {
    // The table is outside its limits.
    Table = 1,
    // A lent buffer is shorter than needed.
    Buffer = 2,
    // The state is not sound.
    State = 3,
    // A board's number is not from 1 to n.
    Board = 4,
    // A send from a board other than S.
    Sender = 6,
    // A fragment longer than s_max; in rebuilding, a marked length of 0 too.
    Length = 7,
    // The board is done, or it is a send in the output stage.
    Late = 8,
    // A second send, second echo or second vote from that board.
    Again = 9,
    // Fewer than k fragments are marked.
    TooFew = 10,
    // Marked lengths differ, or no block agrees.
    Disagree = 11,
    // The block cannot be read.
    Block = 12,
    // The message is longer than L.
    Message = 13,
    // In a drill: the record was not yet put out.
    NotOut = 14,
    // More than 65,536 bytes to hash.
    Hash = 15,
    // The mailbox is not of its form, or the answers have no room.
    Mailbox = 16,
    // A record's field is cut off.
    Cut = 20,
    // The kind byte is none.
    Kind = 21,
    // The root's count is not 32.
    Root = 22,
    // The path's count is too large.
    Path = 23,
    // The fragment's or the notice's count is not one that the kind may have.
    Fragment = 24,
    // Bytes follow the last field.
    After = 25,
}

impl Refusal {
    // Its number.
    pub fn number(self) -> u32
        ensures { (result ≡ number_of self) × (0 < result) × (result < 256) }
    {
        self as u32
    }
}

impl From<Refusal> for u32 {
    ghost from_gives = { Numbered };

    fn from(r: Refusal) -> u32 {
        r.number()
    }
}

// A refusal, and the place of the field at fault in a record: 0 where no field is.
#[derive(Clone, Copy, PartialEq, Eq, Debug)]
pub struct Refused {
    pub why: Refusal,
    pub at: u32,
}

impl From<Refusal> for Refused {
    ghost from_gives = { Nowhere };

    fn from(why: Refusal) -> Refused {
        Refused { why: why, at: 0 }
    }
}

// An answer of a call, as C is given it: the refusal's number, or 0; and a length.
// Stays: C is given two numbers.
#[repr(C)]
#[derive(Clone, Copy)]
pub struct Sized {
    pub number: u32,
    pub length: u32,
}

impl From<Result<u32, Refusal>> for Sized {
    ghost from_gives = { Answers };

    fn from(r: Result<u32, Refusal>) -> Sized {
        match r {
            Ok(n) => Sized {
                number: 0,
                length: n,
            },
            Err(e) => Sized {
                number: e.number(),
                length: 0,
            },
        }
    }
}
