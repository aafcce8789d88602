// The root of 1 to 64 leaves that come one after the other. What waits of them is a stack of hashes in a lent buffer of 224 bytes, that of the
// largest tree first; two that stand side by side become one where they stand.
#![tactic(auto)]

ghost use Rattle.std.specs.Prelude.{◌≡◌, ◌&&◌, List, ℕ, ◌+◌, ◌*◌, ◌<◌, ◌≤◌, ltb, length};
ghost use Rattle.octets.specs.Bytes.{part, put, pick};
ghost use Rattle.sha256.specs.Sha256.{sha256};
ghost use Rattle.tree.specs.Tree.{leaf_hash, node_hash, climb, tree_of, depth};
ghost use Rattle.tree.specs.Check.{node_of};
ghost use Rattle.tree.specs.Levels.{middle, around};
ghost use Rattle.tree_stack.specs.Stack.{top, Waiting, Raised};

// Where the hash of leaf i goes: after those that wait for it.
pub fn top_of(i: usize) -> usize
    requires { i < 64 }
    ensures { (result ≡ top 0 i) × (result ≤ 192) }
{
    32 * i.count_ones() as usize
}

// The two hashes from `at` on become that of the node over them. (Taken into the functions that call it: a delivering step pays for no frame of its own.)
#[inline(always)]
fn join(stack: &mut [u8], at: usize)
    requires { (at ≤ 160) × (224 ≤ length stack.old) }
    ensures { stack.new ≡ put at (node_hash sha256 (part at 32 stack.old) (part (at + 32) 32 stack.old)) stack.old }
{
    let mut h = sha256::begun();
    sha256_strings::absorb(&mut h, b"\x01", &stack[at..at + 64], 128);
    sha256_strings::put_digest(&h, stack, at);
}

// Whether the tree d levels high that leaf i is in is a left half whose right half is still to come.
fn stays(i: usize, n: usize, d: usize) -> bool
    requires { (i < 64) × (d < 6) }
    ensures { result ≡ (ltb i (middle d i) && ltb (middle d i) n) }
{
    let m = tree::middle_of(i, d);
    i < m && m < n
}

// The hash of the tree d levels high that leaf i is in, which stands at `at`, taken up a level: over what waits on its left, or alone. Where it
// stands then.
fn lift(stack: &mut [u8], at: usize, i: usize, d: usize) -> usize
    requires { (i < 64) × (d < 6) × (224 ≤ length stack.old) × (at ≡ top d i) }
    ensures { (result ≡ top (d + 1) i) × (stack.new ≡ pick (ltb i (middle d i)) stack.old
        (put result (node_hash sha256 (part result 32 stack.old) (part (result + 32) 32 stack.old)) stack.old)) }
{
    if i < tree::middle_of(i, d) {
        return at;
    }
    let low = at - 32;
    join(stack, low);
    low
}

// How many levels a tree of n leaves may have. It is 6: the test leaves the compiler in the dark, so that it does not write the loop of `raise`
// out six times, and takes `raise`, which stays small, and `join` into the functions that call them: their frames are then spared.
fn levels_of(n: usize) -> usize
    requires { n ≤ 64 }
    ensures { result ≡ 6 }
{
    if n < 65 { 6 } else { 7 }
}

// Leaf i of n, whose hash is on top, taken up as far as it goes. After the last leaf the root stands first. (Taken in likewise.)
#[inline(always)]
pub fn raise(stack: &mut [u8], i: usize, n: usize)
    requires { (i < n) × (n ≤ 64) × (224 ≤ length stack.old) }
    ensures { (fs : ℕ → List ℕ) → part (top 0 i) 32 stack.old ≡ leaf_hash sha256 (fs i) → Waiting n fs i stack.old → Raised n fs i stack.new }
{
    let mut at = top_of(i);
    for d in 0..levels_of(n) {
        if stays(i, n, d) {
            return;
        }
        at = lift(stack, at, i, d);
    }
}

// The hash of a leaf, put in.
pub fn put_leaf(leaf: &[u8], stack: &mut [u8], at: usize)
    requires { (length leaf.now ≤ 65535) × (at + 32 ≤ length stack.old) }
    ensures { stack.new ≡ put at (leaf_hash sha256 leaf.now) stack.old }
{
    let mut h = sha256::begun();
    sha256_strings::absorb(&mut h, b"\0", leaf, (leaf.len() + 73) / 64 * 64);
    sha256_strings::put_digest(&h, stack, at);
}

// Leaf i of n, after those before it.
pub fn add_leaf(stack: &mut [u8], i: usize, n: usize, leaf: &[u8])
    requires { (i < n) × (n ≤ 64) × (224 ≤ length stack.old) × (length leaf.now ≤ 65535) }
    ensures { (fs : ℕ → List ℕ) → leaf.now ≡ fs i → Waiting n fs i stack.old → Raised n fs i stack.new }
{
    put_leaf(leaf, stack, top_of(i));
    raise(stack, i, n);
}

// The hash of the tree d levels high that leaf i of n is in, which stands at `at`, taken up a level: beside node j of the path, or alone. Where it
// stands then.
fn lift_beside(
    stack: &mut [u8],
    at: usize,
    path: &[u8],
    n: usize,
    i: usize,
    j: usize,
    d: usize,
) -> usize
    requires { (n ≤ 64) × (i < n) × (d < 6) × (j ≤ 6) × (224 ≤ length stack.old) × (at ≡ top d i) × (middle d i < n → 32 * j + 32 ≤ length path.now) }
    ensures { (result ≡ top (d + 1) i) × ((f : List ℕ) → part at 32 stack.old ≡ climb sha256 (node_of path.now) (around n d i) i f
        → j ≡ depth (around n d i) i → part result 32 stack.new ≡ climb sha256 (node_of path.now) (around n (d + 1) i) i f) }
{
    let m = tree::middle_of(i, d);
    if n <= m {
        return at;
    }
    if i < m {
        octets::copy_at(stack, at + 32, &path[32 * j..32 * j + 32]);
        join(stack, at);
        return at;
    }
    let low = at - 32;
    octets::copy_at(stack, low, &path[32 * j..32 * j + 32]);
    join(stack, low);
    low
}

// The hash of leaf i of n, which stands where it goes, taken up beside the nodes of its path. The root then stands first.
pub fn climb_up(stack: &mut [u8], path: &[u8], n: usize, i: usize)
    requires { (n ≤ 64) × (i < n) × (224 ≤ length stack.old) × (length path.now ≡ 32 * depth (tree_of n) i) }
    ensures { (f : List ℕ) → part (top 0 i) 32 stack.old ≡ leaf_hash sha256 f
        → part 0 32 stack.new ≡ climb sha256 (node_of path.now) (tree_of n) i f }
{
    let mut at = top_of(i);
    for d in 0..6 {
        at = lift_beside(stack, at, path, n, i, tree::nodes(n, i, d), d);
    }
}
