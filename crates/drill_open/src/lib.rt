// The four lines of a drill before its steps.
#![tactic(auto)]

ghost use Rattle.std.specs.Prelude.{◌≡◌, ◌≤◌, length, MatchResult};
ghost use Rattle.drill_open.specs.Next.{Line};

use drill_lines::{Breakers, Small, count_in, message_in, right_breakers_in, right_table_in};

// The number of the first line that is not right, or missing.
#[derive(Clone, Copy)]
pub struct BadLine {
    pub line: usize,
}

// What the four lines say: the table, the rule-breakers, the length of the message, the count of steps; and the lines after them.
#[derive(Clone, Copy)]
pub struct Opening<'a> {
    pub table: Small,
    pub breakers: Breakers,
    pub size: usize,
    pub count: usize,
    pub rest: &'a [u8],
    ghost fits: { size ≤ table.limits.table.longest },
    ghost few: { count ≤ 1000 },
}

// The next line, which has that number, and those after it.
// Never inline: alone, its search is one loop whose place suits the processor; drawn into a drill's five calls, each copy lies as it falls.
#[inline(never)]
pub fn next_line(rest: &[u8], line: usize) -> Result<(&[u8], &[u8]), BadLine>
    ensures { MatchResult result (λ x. Line rest.now x.0.now x.1.now) (λ e. (e.line ≡ line) × (length rest.now ≡ 0)) }
{
    if rest.is_empty() {
        return Err(BadLine { line });
    }
    Ok(drill_words::cut(rest, b'\n'))
}

impl<'a> Opening<'a> {
    ghost use Rattle.drill_open.specs.Opened.{opening1};
    ghost use Rattle.drill_open.specs.Said.{opened_by};

    // The four lines: the message goes to the start of `message`.
    pub fn read(input: &'a [u8], message: &mut [u8]) -> Result<Opening<'a>, BadLine>
        requires { length message.old ≡ 64 }
        ensures { opened_by result message.new ≡ opening1 input.now }
    {
        let (line, rest) = next_line(input, 1)?;
        let table = right_table_in(line).ok_or(BadLine { line: 1 })?;
        let (line, rest) = next_line(rest, 2)?;
        let breakers = right_breakers_in(table.limits.table, line).ok_or(BadLine { line: 2 })?;
        let (line, rest) = next_line(rest, 3)?;
        let hex = message_in(table.limits.table, line).ok_or(BadLine { line: 3 })?;
        let (line, rest) = next_line(rest, 4)?;
        let count = count_in(line).ok_or(BadLine { line: 4 })?;
        drill_words::decode(hex, message);
        Ok(Opening {
            table,
            breakers,
            size: hex.len() / 2,
            count,
            rest,
        })
    }
}
