// Parents, children and subtrees in a handed-in tree. What is asked of the tree here has been checked by the caller; a type that holds it would be a copy of the
// tree, which is handed in by value. A tree has arrays of sixteen places and no heap, so that what goes over them is told how many count.
ghost use Rattle.std.specs.Prelude.{◌≡◌, true, ◌≤◌, ◌<◌};
ghost use Rattle.column.specs.Sets.{selected};
ghost use Rattle.column.specs.Trees.{tree_of, every, climbs_in, children, subtree_in, subtrees_in};
ghost use Rattle.column.specs.inner.TreePasses.{plainly, Passes, ParentsBelow, names};

use crate::members::lowest;
use crate::sets::{insert, single, whole, without};
use crate::tree::Tree;

// What must hold of the two lists of a tree before any climb: every parent is below n, and the first n places of the sequence have each
// column below n. One pass goes over both.
#[tactic(auto, unfolding(crate::specs::Trees::every))]
pub fn lists_hold<'a>(up: &'a [u8; 16], first: &'a [u8; 16], n: usize) -> bool
    requires { n ≤ 16 }
    ensures { Passes result n up.now first.now }
{
    let bound = n as u8;
    let mut listed: u16 = 0;
    for j in 0..n {
        if bound <= up[j] {
            return false;
        }
        let c = first[j];
        if bound <= c {
            return false;
        }
        listed = insert(listed, c as usize);
    }
    listed == whole(n)
}

// Whether the lists of a tree are plainly good: the root is 0, every parent is below n and lower than its child, and the sequence ascends. Most
// trees are, and need no climb. It goes over all n places, with no early return, so that sixteen of them are compared at once.
#[tactic(auto, unfolding(crate::specs::Trees::every))]
pub fn rises<'a>(up: &'a [u8; 16], first: &'a [u8; 16], n: usize, root: usize) -> bool
    ensures { result ≡ plainly n root up.now first.now }
{
    if n == 0 {
        return false;
    }
    if 16 < n {
        return false;
    }
    if root != 0 {
        return false;
    }
    let bound = n as u8;
    let mut plain = true;
    let mut most: u8 = 0;
    for k in 0..bound {
        let j = k as usize;
        plain = plain & ((up[j] < bound) & ((up[j] <= most) & (first[j] == k)));
        most = k;
    }
    plain
}

// Whether the climb from c meets the root before it has been at more places than there are columns. The climbs from the columns below c
// have been seen to end, so this one ends where it comes to such a column: in most trees at once, since a parent is lower than its child.
pub fn climbs_in(up: &[u8; 16], n: usize, root: usize, c: usize) -> bool
    requires { (n ≤ 16) × ((c < n) × (ParentsBelow n up.now × (every (climbs_in (tree_of n root up.now) n) c ≡ true))) }
    ensures { result ≡ climbs_in (tree_of n root up.now) n c }
{
    if (up[c] as usize) < c {
        return true;
    }
    let mut at = c;
    for gone in 0..n {
        if at == root {
            return true;
        }
        at = up[at] as usize;
        if at < c {
            return true;
        }
    }
    false
}

// Whether the climb from every column ends at the root.
#[tactic(auto, unfolding(crate::specs::Trees::every))]
pub fn climbs_end(up: &[u8; 16], n: usize, root: usize) -> bool
    requires { (n ≤ 16) × ParentsBelow n up.now }
    ensures { result ≡ every (climbs_in (tree_of n root up.now) n) n }
{
    for j in 0..n {
        if !climbs_in(up, n, root, j) {
            return false;
        }
    }
    true
}

// Those of all sixteen places that have c as their parent; no more is asked of a place.
#[tactic(auto, unfolding(crate::specs::Sets::selected))]
fn named(up: &[u8; 16], c: u8) -> u16
    ensures { result ≡ selected (names up.now c) 16 }
{
    let mut set: u16 = 0;
    for j in 0..16 {
        if up[j] == c {
            set = insert(set, j);
        }
    }
    set
}

// The children of a column, of a tree that may be any.
pub fn children_of(t: Tree, c: usize) -> u16
    requires { (t.columns ≤ 16) × (c < 16) }
    ensures { result ≡ children t c }
{
    let root = t.root;
    let set = named(&t.up, c as u8) & whole(t.columns);
    if 16 <= root {
        return set;
    }
    without(set, root)
}

// The column with the subtrees of its children.
#[cycle(subtree_in_subtrees_in)]
pub fn subtree_in(t: Tree, c: usize, calls: usize) -> u16
    requires { (t.columns ≤ 16) × (c < 16) }
    ensures { result ≡ subtree_in calls t c }
{
    if calls == 0 {
        return 0;
    }
    single(c) | subtrees_in(t, children_of(t, c), calls - 1)
}

// The subtree of the set's first member with those of the rest.
#[cycle(subtree_in_subtrees_in)]
pub fn subtrees_in(t: Tree, set: u16, calls: usize) -> u16
    requires { t.columns ≤ 16 }
    ensures { result ≡ subtrees_in calls t set }
{
    if calls == 0 {
        return 0;
    }
    if set == 0 {
        return 0;
    }
    let c = lowest(set);
    subtree_in(t, c, calls - 1) | subtrees_in(t, without(set, c), calls - 1)
}
