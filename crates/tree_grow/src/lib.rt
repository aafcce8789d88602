// The root and the paths of RFC 6962's hash tree over 1 to 64 fragments of an area, level by level through the paths.
#![tactic(auto)]

ghost use Rattle.std.specs.Prelude.{◌≡◌, List, ℕ, ◌<◌, ◌≤◌, ◌+◌, ◌-◌, ◌*◌, ◌^◌, length};
ghost use Rattle.octets.specs.Bytes.{part, put, place_each};
ghost use Rattle.sha256.specs.Sha256.{digest, sha256};
ghost use Rattle.tree.specs.Tree.{leaf_hash, node_hash, root, flat, depth, root_of, path_of};
ghost use Rattle.tree.specs.Levels.{span, start, middle, around, beside, paths_to};
ghost use Rattle.tree.specs.Area.{leaf_at, Rooms};

use tree::{beside_of, middle_of, nodes, width};

// The chaining words of the hash of a leaf.
fn take_leaf(h: &mut [u32; 8], leaf: &[u8])
    requires { length leaf.now ≤ 65535 }
    ensures { (length h.new ≡ 8) × (digest h.new ≡ leaf_hash sha256 leaf.now) }
{
    sha256_strings::take_all(h, b"\0", leaf);
}

// The chaining words of the hash of a node over two nodes.
fn take_node(h: &mut [u32; 8], left: &[u8], right: &[u8])
    requires { (length left.now ≡ 32) × (length right.now ≡ 32) }
    ensures { (length h.new ≡ 8) × (digest h.new ≡ node_hash sha256 left.now right.now) }
{
    let mut pair = [0u8; 64];
    octets::copy_at(&mut pair, 0, left);
    octets::copy_at(&mut pair, 32, right);
    sha256_strings::take_all(h, b"\x01", &pair);
}

// The height at which the tree d levels high from leaf a on forks: 0 for a leaf.
fn fork_of(n: usize, d: usize, a: usize) -> usize
    requires { (a < 64) × (d ≤ 6) }
    ensures { (result ≤ d) × (span n result a ≡ span n d a) × (0 < result → a + 2 ^ (result - 1) < n) }
{
    for e in (0..d).rev() {
        if a + width(e) < n {
            return e + 1;
        }
    }
    0
}

// Where in the paths leaf i's path goes on at level d.
fn place(n: usize, i: usize, d: usize) -> usize
    requires { (n ≤ 64) × (i < n) × (d ≤ 6) }
    ensures { (result ≡ i * 192 + 32 * depth (around n d i) i) × (result ≤ i * 192 + 32 * d) }
{
    i * 192 + 32 * nodes(n, i, d)
}

// The chaining words of the hash of the tree d levels high from leaf a on: of its leaf, or of its halves' hashes, which stand beside each
// other's leaves in the paths.
fn take_tree(
    h: &mut [u32; 8],
    area: &[u8],
    s: usize,
    len: usize,
    n: usize,
    d: usize,
    a: usize,
    paths: &[u8],
)
    requires { Rooms n s len area.now paths.now × (d ≤ 6) × (a < n) × (start d a ≡ a) }
    ensures { (length h.new ≡ 8) × ((c : ℕ) (old : List ℕ) → paths.now ≡ paths_to n (leaf_at s len area.now) d c old
        → digest h.new ≡ root sha256 (leaf_at s len area.now) (span n d a)) }
{
    let e = fork_of(n, d, a);
    if e < 1 {
        take_leaf(h, &area[a * s..a * s + len]);
        return;
    }
    let m = a + width(e - 1);
    let p = place(n, m, e - 1);
    let q = place(n, a, e - 1);
    take_node(h, &paths[p..p + 32], &paths[q..q + 32]);
}

// The 32 bytes from a place on, once more at a place after them.
// Stays: one line of the library's, under the definition that callers cite (`put`).
fn repeat_at(s: &mut [u8], from: usize, to: usize)
    requires { (from + 32 ≤ to) × (to + 32 ≤ length s.old) }
    ensures { s.new ≡ put to (part from 32 s.old) s.old }
{
    s.copy_within(from..from + 32, to);
}

// The paths of the leaves of the tree d levels high from leaf c on, a level further: h has the hash of the tree beside it. It is written once, and
// copied from there.
fn lay(paths: &mut [u8], n: usize, d: usize, c: usize, h: &[u32; 8])
    requires { (n ≤ 64) × (c < n) × (d < 6) × (start d c ≡ c) × (middle d c < n) × (n * 192 ≤ length paths.old) × (length h.now ≡ 8) }
    ensures { (fs : ℕ → List ℕ) (old : List ℕ) → digest h.now ≡ root sha256 fs (span n d (beside d c)) → paths.old ≡ paths_to n fs d c old → paths.new ≡ paths_to n fs d (c + 2 ^ d) old }
{
    let from = place(n, c, d);
    sha256_strings::put_digest(h, paths, from);
    for i in c + 1..n.min(c + width(d)) {
        repeat_at(paths, from, place(n, i, d));
    }
}

// All paths a level further: tree after tree d levels high, each beside its other half. h is room to work in. (In a frame of its own, which is not there
// while the fragments are made.)
#[inline(never)]
fn further(
    h: &mut [u32; 8],
    area: &[u8],
    s: usize,
    len: usize,
    n: usize,
    d: usize,
    paths: &mut [u8],
)
    requires { Rooms n s len area.now paths.old × (d < 6) }
    ensures { (old : List ℕ) → paths.old ≡ paths_to n (leaf_at s len area.now) d 0 old → paths.new ≡ paths_to n (leaf_at s len area.now) (d + 1) 0 old }
{
    for c in (0..n).step_by(width(d)) {
        if n <= middle_of(c, d) {
            return;
        }
        take_tree(h, area, s, len, n, d, beside_of(c, d), paths);
        lay(paths, n, d, c, h);
    }
}

// The root and the paths of n fragments of an area, each of len bytes, at every s bytes.
pub fn write_tree(area: &[u8], s: usize, len: usize, n: usize, root: &mut [u8], paths: &mut [u8])
    requires { Rooms n s len area.now paths.old × (32 ≤ length root.old) }
    ensures { (root.new ≡ put 0 (root_of n (leaf_at s len area.now)) root.old) × (paths.new ≡ place_each n 192 (λ i. flat (path_of n (leaf_at s len area.now) i)) paths.old) }
{
    let mut h = sha256::begun();
    for d in 0..6 {
        further(&mut h, area, s, len, n, d, paths);
    }
    take_tree(&mut h, area, s, len, n, 6, 0, paths);
    sha256_strings::put_digest(&h, root, 0);
}
