// Blocks: their bytes without storing them, and whether one can be read.
#![tactic(auto)]

ghost use Rattle.std.specs.Prelude.{◌≡◌, ◌++◌, ◌<◌, ◌≤◌, length, get_or};
ghost use Rattle.code.specs.Block.{header, rows, readable};

// How many rows a message of m bytes takes.
pub fn row_count(m: usize, k: usize) -> usize
    requires { (m ≤ 16384) × (0 < k) × (k ≤ 64) }
    ensures { result ≡ rows k m }
{
    (m + 4 + (k - 1)) / k
}

// Byte j of the block of a message: zeros after the message.
pub fn block_byte(message: &[u8], j: usize) -> u8
    requires { length message.now ≤ 16384 }
    ensures { result ≡ get_or (header (length message.now) ++ message.now) j 0 }
{
    let m = message.len();
    if j < 2 {
        return 0;
    }
    if j == 2 {
        return (m / 256 % 256) as u8;
    }
    if j == 3 {
        return (m % 256) as u8;
    }
    let at = j - 4;
    if at < m {
        return message[at];
    }
    0
}

// Whether a block can be read: a message of at most `longest` bytes stands in it, in as many rows as it takes.
pub fn can_read(block: &[u8], k: usize, longest: usize) -> bool
    requires { (0 < k) × (k ≤ 64) × (longest ≤ 16384) }
    ensures { result ≡ readable k longest block.now }
{
    let size = block.len();
    if size < 4 {
        return false;
    }
    if size % k != 0 {
        return false;
    }
    // held against L before 4 is added to it
    let m = octets::four_at(block, 0);
    if longest < m {
        return false;
    }
    row_count(m, k) == size / k
}
