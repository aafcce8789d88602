// A mailbox: a count, then items; each a board, a length and a record.
#![tactic(auto)]

ghost use Rattle.std.specs.Prelude.{◌≡◌};
ghost use Rattle.mailbox.specs.Items.{framed};

use octets::two_at;

// Whether the mailbox is a count of at most 255 and then so many whole items, with nothing after the last.
pub fn is_framed(mailbox: &[u8]) -> bool
    ensures { result ≡ framed mailbox.now }
{
    if mailbox.len() < 2 {
        return false;
    }
    let count = two_at(mailbox, 0);
    if 255 < count {
        return false;
    }
    let mut at = 2;
    for i in 0..count {
        if mailbox.len() - at < 3 {
            return false;
        }
        let len = two_at(mailbox, at + 1);
        if mailbox.len() - at - 3 < len {
            return false;
        }
        at = at + 3 + len;
    }
    at == mailbox.len()
}
