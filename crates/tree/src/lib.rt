// The hash tree of RFC 6962 over 1 to 64 fragments: the path check, and where in the tree a leaf is.
#![tactic(auto)]

ghost use Rattle.std.specs.Prelude.{◌≡◌, List, ◌++◌, ℕ, ◌<◌, ◌≤◌, ◌+◌, ◌-◌, ◌*◌, ◌^◌, min, length};
ghost use Rattle.octets.specs.Bytes.{part};
ghost use Rattle.sha256.specs.Sha256.{digest, sha256};
ghost use Rattle.tree.specs.Tree.{leaf_hash, root, climb, tree_of, depth};
ghost use Rattle.tree.specs.Check.{node_of, path_correct};
ghost use Rattle.tree.specs.Levels.{start, middle, around, beside};

// How many leaves a tree d levels high has, where it is full.
pub fn width(d: usize) -> usize
    requires { d ≤ 6 }
    ensures { (result ≡ 2 ^ d) × (0 < result) × (result ≤ 64) }
{
    1 << d
}

// The first leaf of the tree d levels high that leaf i is in.
fn first_of(i: usize, d: usize) -> usize
    requires { d ≤ 6 }
    ensures { (result ≡ start d i) × (result ≤ i) }
{
    i - i % width(d)
}

// The first leaf of the right half of the tree d + 1 levels high that leaf i is in.
pub fn middle_of(i: usize, d: usize) -> usize
    requires { (i < 64) × (d < 6) }
    ensures { (result ≡ middle d i) × (result ≤ 128) }
{
    first_of(i, d + 1) + width(d)
}

// How many nodes the path of leaf i of n has as far as level d.
pub fn nodes(n: usize, i: usize, d: usize) -> usize
    requires { (n ≤ 64) × (i < n) × (d ≤ 6) }
    ensures { (result ≡ depth (around n d i) i) × (result ≤ d) }
{
    let mut count: usize = 0;
    for e in 0..d {
        if middle_of(i, e) < n {
            count += 1;
        }
    }
    count
}

// Where in the pair of a node the half is that leaf i is in, if the right half begins with leaf m.
fn side(i: usize, m: usize) -> usize
    ensures { (result ≤ 32) × (i < m → result ≡ 0) × (m ≤ i → result ≡ 32) }
{
    if i < m { 0 } else { 32 }
}

// The 64 bytes that are hashed for a node after its prefix: the digest of h from `at` on, 0 or 32, and the path's node in the other half.
fn set_pair(pair: &mut [u8], h: &[u32; 8], at: usize, node: &[u8])
    requires { (length pair.old ≡ 64) × (length h.now ≡ 8) × (at ≤ 32) × (length node.now ≡ 32) }
    ensures { (at ≡ 0 → pair.new ≡ digest h.now ++ node.now)
        × (at ≡ 32 → pair.new ≡ node.now ++ digest h.now) }
{
    sha256_strings::put_digest(h, pair, at);
    octets::copy_at(pair, 32 - at, node);
}

// The digest of h, the hash of the tree d levels high that leaf i is in, taken up a level: beside node j of the path, or alone. How many nodes are
// used then. pair is room to work in.
fn rise(
    h: &mut [u32; 8],
    pair: &mut [u8],
    path: &[u8],
    n: usize,
    i: usize,
    j: usize,
    d: usize,
) -> usize
    requires { (n ≤ 64) × (i < n) × (d < 6) × (j ≡ depth (around n d i) i) × (length h.old ≡ 8) × (length pair.old ≡ 64) × (length path.now ≡ 32 * depth (tree_of n) i) }
    ensures { (length h.new ≡ 8) × (length pair.new ≡ 64) × (result ≡ depth (around n (d + 1) i) i)
        × ((f : List ℕ) → digest h.old ≡ climb sha256 (node_of path.now) (around n d i) i f → digest h.new ≡ climb sha256 (node_of path.now) (around n (d + 1) i) i f) }
{
    let m = middle_of(i, d);
    if n <= m {
        return j;
    }
    set_pair(pair, h, side(i, m), &path[32 * j..32 * j + 32]);
    sha256_strings::take_all(h, b"\x01", pair);
    j + 1
}

// The digest of h, the hash of leaf i of n, taken up beside the nodes of the path. pair is room to work in. Called from one place, so that
// the compiler folds it into the path check's frame: hence the climb of its own that crate tree_stack has for the sender.
fn rise_up(h: &mut [u32; 8], pair: &mut [u8], path: &[u8], n: usize, i: usize)
    requires { (n ≤ 64) × (i < n) × (length h.old ≡ 8) × (length pair.old ≡ 64) × (length path.now ≡ 32 * depth (tree_of n) i) }
    ensures { (length h.new ≡ 8) × (length pair.new ≡ 64)
        × ((f : List ℕ) → digest h.old ≡ leaf_hash sha256 f → digest h.new ≡ climb sha256 (node_of path.now) (tree_of n) i f) }
{
    let mut j: usize = 0;
    for d in 0..6 {
        j = rise(h, pair, path, n, i, j, d);
    }
}

// Whether the path is correct for the fragment of board i of n, from 1, under the root.
pub fn correct(n: usize, i: usize, root: &[u8], path: &[u8], f: &[u8]) -> bool
    ensures { result ≡ path_correct n i root.now path.now f.now }
{
    if n < 1 {
        return false;
    }
    if 64 < n {
        return false;
    }
    if i < 1 {
        return false;
    }
    if n < i {
        return false;
    }
    if root.len() != 32 {
        return false;
    }
    if 65535 < f.len() {
        return false;
    }
    if path.len() != 32 * nodes(n, i - 1, 6) {
        return false;
    }
    let mut h = sha256::begun();
    sha256_strings::take_all(&mut h, b"\0", f);
    let mut pair = [0u8; 64];
    rise_up(&mut h, &mut pair, path, n, i - 1);
    sha256_strings::put_digest(&h, &mut pair, 0);
    octets::same_at(&pair, 0, root, 0, 32)
}

// The first leaf of the tree beside leaf i at level d.
pub fn beside_of(i: usize, d: usize) -> usize
    requires { (i < 64) × (d < 6) }
    ensures { result ≡ beside d i }
{
    let m = middle_of(i, d);
    if i < m {
        return m;
    }
    first_of(i, d + 1)
}

// How many leaves the tree d levels high from leaf a on has.
pub fn leaf_count(n: usize, d: usize, a: usize) -> usize
    requires { (n ≤ 64) × (a < n) × (d ≤ 6) }
    ensures { (result ≡ min n (a + 2 ^ d) - a) × (0 < result) × (a + result ≤ n) }
{
    n.min(a + width(d)) - a
}
