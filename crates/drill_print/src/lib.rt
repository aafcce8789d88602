// What a drill prints, put into a lent buffer piece by piece.
#![tactic(auto, using(crate::proofs::Prints::printing), unfolding(crate::specs::Text::outcome_text, crate::specs::Text::bad, drill_words::specs::Numbers::letter, drill_words::specs::Numbers::decimal, octets::specs::Bytes::pick))]

ghost use Rattle.std.specs.Prelude.{◌≡◌, List, ℕ, ◌+◌, ◌*◌, ◌≤◌, ◌<◌, length, take};
ghost use Rattle.drill_words.specs.Numbers.{digit, decimal, letter, hex_of};
ghost use Rattle.drill_lines.specs.Read.{IsStep};
ghost use Rattle.drill_print.specs.Text.{numbered, lettered, outcome_text, line_text, bad};
ghost use Rattle.drill_print.specs.Printed.{Wrote, delivery_of, size_of, shown_by};

use drill_lines::{Step, kind_in, number_in};

// A lent buffer, and how many of its bytes are printed.
#[derive(Drop)]
pub struct Page<'a> {
    pub text: &'a mut [u8],
    pub at: usize,
}

// What a step of the drill delivered: nothing, a message of so many bytes, or void.
#[derive(Clone, Copy)]
pub enum Outcome {
    Nothing,
    Message(usize),
    Void,
}

// What a step of the drill shows: the answer, the act's letter, and the outcome.
#[derive(Clone, Copy)]
pub struct Shown {
    pub answer: usize,
    pub act: u8,
    pub outcome: Outcome,
}

// A hex digit's letter.
fn letter_of(d: u8) -> u8
    requires { d < 16 }
    ensures { result ≡ letter d }
{
    if d < 10 { b'0' + d } else { b'a' + (d - 10) }
}

// The last decimal digit of a number, as a character.
fn digit_of(n: usize) -> u8
    ensures { result ≡ digit n }
{
    b'0' + (n % 10) as u8
}

impl Page<'_> {
    // Bytes.
    pub fn put(&mut self, s: &[u8])
        requires { self.old.at + length s.now ≤ length self.old.text.now }
        ensures { Wrote s.now self.old self.new }
    {
        octets::copy_bytes(self.text, self.at, s);
        self.at += s.len();
    }

    // Bytes in hex.
    fn put_hex(&mut self, s: &[u8])
        requires { self.old.at + 2 * length s.now ≤ length self.old.text.now }
        ensures { Wrote (hex_of s.now) self.old self.new }
    {
        for x in s {
            self.put(&[letter_of(*x / 16), letter_of(*x % 16)]);
        }
    }

    // A number below 10,000 in decimal, without a zero in front.
    fn put_decimal(&mut self, n: usize)
        requires { self.old.at + 4 ≤ length self.old.text.now }
        ensures { Wrote (decimal n) self.old self.new × (self.new.at ≤ self.old.at + 4) }
    {
        let d = [
            digit_of(n / 1000),
            digit_of(n / 100),
            digit_of(n / 10),
            digit_of(n),
        ];
        match n {
            0..=9 => self.put(&d[3..]),
            10..=99 => self.put(&d[2..]),
            100..=999 => self.put(&d[1..]),
            _ => self.put(&d),
        }
    }

    // A number and a space.
    fn put_number(&mut self, n: usize)
        requires { self.old.at + 5 ≤ length self.old.text.now }
        ensures { Wrote (numbered n) self.old self.new × (self.new.at ≤ self.old.at + 5) }
    {
        self.put_decimal(n);
        self.put(b" ");
    }

    // A letter and a space.
    fn put_letter(&mut self, c: u8)
        requires { self.old.at + 2 ≤ length self.old.text.now }
        ensures { Wrote (lettered c) self.old self.new × (self.new.at ≤ self.old.at + 2) }
    {
        self.put(&[c, b' ']);
    }

    // The outcome, and the end of the line: a message in hex, after m.
    fn put_outcome(&mut self, x: Outcome, message: &[u8])
        requires { (self.old.at + 130 ≤ length self.old.text.now) × (size_of x ≤ 64) × (size_of x ≤ length message.now) }
        ensures { Wrote (outcome_text (delivery_of x) (take (size_of x) message.now)) self.old self.new × (self.new.at ≤ self.old.at + 130) }
    {
        match x {
            Outcome::Message(n) => {
                self.put(b"m");
                self.put_hex(&message[..n]);
                self.put(b"\n");
            }
            Outcome::Void => self.put(b"void\n"),
            Outcome::Nothing => self.put(b"-\n"),
        }
    }

    // The line of step k, by the step itself: it is that of each line which says the step.
    // Stays: beside `put_line_of`, for a caller who has the step and no line of it.
    pub fn put_line(&mut self, k: usize, step: Step, s: Shown, message: &[u8])
        requires { (self.old.at + 154 ≤ length self.old.text.now) × (size_of s.outcome ≤ 64) × (size_of s.outcome ≤ length message.now) }
        ensures { ((l : List ℕ) → IsStep step.entry l → Wrote (line_text k l (shown_by s) (take (size_of s.outcome) message.now)) self.old self.new)
            × (self.new.at ≤ self.old.at + 154) }
    {
        self.put_number(k);
        self.put_letter(step.handed.letter());
        self.put_number(step.from);
        self.put_number(step.to);
        self.put_number(s.answer);
        self.put_letter(s.act);
        self.put_outcome(s.outcome, message);
    }

    // The line of step k, by its own line, `line`: its kind, from and to are printed as that line says them, right or not.
    pub fn put_line_of(&mut self, k: usize, line: &[u8], s: Shown, message: &[u8])
        requires { (self.old.at + 154 ≤ length self.old.text.now) × (size_of s.outcome ≤ 64) × (size_of s.outcome ≤ length message.now) }
        ensures { Wrote (line_text k line.now (shown_by s) (take (size_of s.outcome) message.now)) self.old self.new × (self.new.at ≤ self.old.at + 154) }
    {
        self.put_number(k);
        self.put_letter(kind_in(line));
        self.put_number(number_in(line, 1));
        self.put_number(number_in(line, 2));
        self.put_number(s.answer);
        self.put_letter(s.act);
        self.put_outcome(s.outcome, message);
    }

    // That line n is bad.
    pub fn put_bad(&mut self, n: usize)
        requires { self.old.at + 14 ≤ length self.old.text.now }
        ensures { Wrote (bad n) self.old self.new × (self.new.at ≤ self.old.at + 14) }
    {
        self.put(b"bad line ");
        self.put_decimal(n);
        self.put(b"\n");
    }
}

#[cfg(test)]
mod tests {
    use super::*;
    use drill_lines::Handed;

    // Whether the line of step k is `want`, where board 1 hands over to board 2, the answer is 0, and the message delivered, if any, is 41.
    fn line_is(k: usize, handed: Handed, act: u8, outcome: Outcome, want: &[u8]) -> bool
        requires { size_of outcome ≤ 1 }
    {
        let mut text = [0; 154];
        let mut page = Page {
            text: &mut text,
            at: 0,
        };
        let step = Step {
            handed,
            from: 1,
            to: 2,
        };
        let shown = Shown {
            answer: 0,
            act,
            outcome,
        };
        page.put_line(k, step, shown, b"A");
        let at = page.at;
        &text[..at] == want
    }

    // Each letter and each outcome.
    #[test]
    fn lines_of_steps(rt: HostRuntime) {
        let (none, one, void) = (Outcome::Nothing, Outcome::Message(1), Outcome::Void);
        let raw = Handed::Raw(b"0a");
        assert!(rt; line_is(1, Handed::Send, b'e', none, b"1 s 1 2 0 e -\n"));
        assert!(rt; line_is(20, Handed::Echo, b'v', none, b"20 e 1 2 0 v -\n"));
        assert!(rt; line_is(300, Handed::Vote, b'-', one, b"300 v 1 2 0 - m41\n"));
        assert!(rt; line_is(1000, raw, b'-', void, b"1000 r 1 2 0 - void\n"));
    }
}
