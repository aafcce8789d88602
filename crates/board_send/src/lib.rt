// The sender's record for a board. Fragment after fragment is worked out in the room that the record's own fragment has in `out`.
#![tactic(auto)]

ghost use Rattle.std.specs.Prelude.{◌≡◌, List, ℕ, ◌+◌, ◌*◌, ◌≤◌, ◌<◌, length, replicate, IfOk};
ghost use Rattle.octets.specs.Bytes.{part, put};
ghost use Rattle.sha256.specs.Sha256.{sha256};
ghost use Rattle.tree.specs.Tree.{tree_of, depth, root_of, path_of, flat, climb};
ghost use Rattle.tree.specs.Check.{node_of};
ghost use Rattle.record.specs.Form.{out_bytes, record_of};
ghost use Rattle.refusal.specs.Numbers.{refused};
ghost use Rattle.refusal.specs.Answers.{sized_of};
ghost use Rattle.board_send.specs.Sent.{send_refusal, send_out, send_of};
ghost use Rattle.board_send.specs.Laying.{fragments, FragmentRoom, Alike, Laid};

use refusal::Refusal;
use table::{InLimits, Table};

// A message that is cut by k, its fragments worked out one after the other in a room of len bytes, from byte `at` of a buffer on.
#[derive(Clone, Copy)]
struct Cut<'a> {
    message: &'a [u8],
    k: usize,
    at: usize,
    len: usize,
    ghost room: { FragmentRoom k message.now at len (replicate (at + len) 0) },
}

// The root of c fragments, from that of board a + 1 on, each worked out in turn, into the first 32 bytes of the stack.
fn run_in(cut: &Cut<'_>, a: usize, c: usize, out: &mut [u8], stack: &mut [u8])
    requires { (cut.now.at + cut.now.len ≤ length out.old) × (0 < c) × (a + c ≤ 64) × (224 ≤ length stack.old) }
    ensures { (part 0 32 stack.new ≡ root_of c (λ j. fragments cut.now.k cut.now.message.now (a + j))) × Alike cut.now.at cut.now.len out.new out.old }
{
    for j in 0..c {
        code_encode::put_fragment(cut.message, cut.k, a + j, out, cut.at);
        tree_stack::add_leaf(stack, j, c, &out[cut.at..cut.at + cut.len]);
    }
}

// The path of board i + 1 a level further: the root of the fragments beside it, if there are any. stack is room to work in.
fn put_node(cut: &Cut<'_>, n: usize, i: usize, d: usize, out: &mut [u8], stack: &mut [u8])
    requires { (cut.now.at + cut.now.len ≤ length out.old) × (n ≤ 64) × (i < n) × (d < 6) × (cut.now.at ≡ 39 + 32 * depth (tree_of n) i) × (224 ≤ length stack.old) }
    ensures { (old : List ℕ) → Laid n (fragments cut.now.k cut.now.message.now) i d cut.now.at cut.now.len old out.old
        → Laid n (fragments cut.now.k cut.now.message.now) i (d + 1) cut.now.at cut.now.len old out.new }
{
    if n <= tree::middle_of(i, d) {
        return;
    }
    let a = tree::beside_of(i, d);
    let c = tree::leaf_count(n, d, a);
    run_in(cut, a, c, out, stack);
    octets::copy_at(out, 37 + 32 * tree::nodes(n, i, d), &stack[..32]);
}

// The path of board i + 1. stack is room to work in.
fn put_path(cut: &Cut<'_>, n: usize, i: usize, out: &mut [u8], stack: &mut [u8])
    requires { (cut.now.at + cut.now.len ≤ length out.old) × (n ≤ 64) × (i < n) × (cut.now.at ≡ 39 + 32 * depth (tree_of n) i) × (224 ≤ length stack.old) }
    ensures { Alike cut.now.at cut.now.len out.new (put 37 (flat (path_of n (fragments cut.now.k cut.now.message.now) i)) out.old) }
{
    for d in 0..6 {
        put_node(cut, n, i, d, out, stack);
    }
}

// The root that the fragment of board i + 1, len bytes, and the path of so many nodes in `out` give, into the first 32 bytes of the stack.
fn root_in(out: &[u8], n: usize, i: usize, nodes: usize, len: usize, stack: &mut [u8])
    requires { (n ≤ 64) × (i < n) × (nodes ≡ depth (tree_of n) i) × (nodes ≤ 6) × (len ≤ 16388) × (39 + 32 * nodes + len ≤ length out.now) × (224 ≤ length stack.old) }
    ensures { part 0 32 stack.new ≡ climb sha256 (node_of (part 37 (32 * nodes) out.now)) (tree_of n) i (part (39 + 32 * nodes) len out.now) }
{
    let end = 37 + 32 * nodes;
    tree_stack::put_leaf(&out[end + 2..end + 2 + len], stack, tree_stack::top_of(i));
    tree_stack::climb_up(stack, &out[37..end], n, i);
}

// The sender's record for board i + 1, at the start of `out`; its length.
fn put_record(message: &[u8], n: usize, k: usize, i: usize, out: &mut [u8]) -> usize
    requires { (length message.now ≤ 16384) × (0 < k) × (k ≤ 64) × (n ≤ 64) × (i < n) × (out_bytes ≤ length out.old) }
    ensures { (out.new ≡ put 0 (record_of 1 (root_of n (fragments k message.now)) (depth (tree_of n) i) (flat (path_of n (fragments k message.now) i)) (fragments k message.now i)) out.old)
        × (result ≡ length (record_of 1 (root_of n (fragments k message.now)) (depth (tree_of n) i) (flat (path_of n (fragments k message.now) i)) (fragments k message.now i))) × (result ≤ out_bytes) }
{
    let len = code::row_count(message.len(), k);
    let nodes = tree::nodes(n, i, 6);
    let at = 39 + 32 * nodes;
    let cut = Cut {
        message: message,
        k: k,
        at: at,
        len: len,
    };
    let mut stack = [0u8; 224];
    octets::copy_at(out, 0, b"\x01\x00\x20");
    octets::put_two(out, 35, nodes);
    octets::put_two(out, 37 + 32 * nodes, len);
    put_path(&cut, n, i, out, &mut stack);
    code_encode::put_fragment(message, k, i, out, at);
    root_in(out, n, i, nodes, len, &mut stack);
    octets::copy_at(out, 3, &stack[..32]);
    at + len
}

// Why the sender's record is refused; else the table, within its limits.
fn send_refusal(b: Table, message: &[u8], to: usize, out: &[u8]) -> Result<InLimits, Refusal>
    ensures number { refused result ≡ send_refusal b message.now to out.now }
    ensures table { IfOk result (λ c. c.table ≡ b) }
{
    let c = InLimits::try_from(b)?;
    if out.len() < record::OUT_BYTES {
        return Err(Refusal::Buffer);
    }
    if !b.is_board(to) {
        return Err(Refusal::Board);
    }
    if b.longest < message.len() {
        return Err(Refusal::Message);
    }
    Ok(c)
}

// The sender's record for board `to`; its length.
pub fn send(b: Table, message: &[u8], to: usize, out: &mut [u8]) -> Result<u32, Refusal>
    ensures { send_out (sized_of result) out.new ≡ send_of b message.now to out.old }
{
    let c = send_refusal(b, message, to, out)?;
    let len = put_record(message, b.n, c.fragments_needed(), to - 1, out);
    Ok(len as u32)
}
