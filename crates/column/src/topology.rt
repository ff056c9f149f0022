// What a tree says: whether it is one, and the children and the subtree of a column. Each public function tests and then answers, in two lines that differ in what
// they call. A tree and a column or a set come apart, since one tree is asked about many.
ghost use Rattle.std.specs.Prelude.{◌≡◌};
ghost use Rattle.column.specs.Refusals.{refusal_of, meant};
ghost use Rattle.column.specs.Trees.{tree_refusal, column_refusal, children_given, subtree_given, subtrees_given};

use crate::error::Refusal;
use crate::members::within;
use crate::traversal::{children_of, climbs_end, lists_hold, rises, subtree_in, subtrees_in};
use crate::tree::Tree;

// Calls enough for the subtree of any column.
const DESCENT: usize = 288;

// 2 or 3 where the tree breaks that row. Every parent is tested before a climb uses it as an index.
fn check_climbs(t: Tree) -> Result<(), Refusal>
    ensures { refusal_of result ≡ tree_refusal t }
{
    let n = t.columns;
    if n == 0 {
        return Err(Refusal::ColumnCount);
    }
    if 16 < n {
        return Err(Refusal::ColumnCount);
    }
    let root = t.root;
    if n <= root {
        return Err(Refusal::NoTree);
    }
    if !lists_hold(&t.up, &t.first, n) {
        return Err(Refusal::NoTree);
    }
    if t.up[root] as usize != root {
        return Err(Refusal::NoTree);
    }
    if !climbs_end(&t.up, n, root) {
        return Err(Refusal::NoTree);
    }
    Ok(())
}

// 2 or 3 where the tree breaks that row.
pub fn check_tree(t: Tree) -> Result<(), Refusal>
    ensures { refusal_of result ≡ tree_refusal t }
{
    if rises(&t.up, &t.first, t.columns, t.root) {
        return Ok(());
    }
    check_climbs(t)
}

// 2 or 3 of the tree, 4 of a column that it has not.
pub fn check_column(t: Tree, c: usize) -> Result<(), Refusal>
    ensures { refusal_of result ≡ column_refusal t c }
{
    check_tree(t)?;
    if t.columns <= c {
        return Err(Refusal::OutOfBank);
    }
    Ok(())
}

// The columns that name c as their parent, the root never among them; or 2, 3, 4.
pub fn children(t: Tree, c: usize) -> Result<u16, Refusal>
    ensures { meant result ≡ children_given t c }
{
    check_column(t, c)?;
    Ok(children_of(t, c))
}

// Column c with all below it; or 2, 3, 4.
pub fn subtree(t: Tree, c: usize) -> Result<u16, Refusal>
    ensures { meant result ≡ subtree_given t c }
{
    check_column(t, c)?;
    Ok(subtree_in(t, c, DESCENT))
}

// The subtrees of the members of a set, joined; or 2, 3, and 4 of a member that the tree has not.
pub fn subtrees(t: Tree, set: u16) -> Result<u16, Refusal>
    ensures { meant result ≡ subtrees_given t set }
{
    check_tree(t)?;
    if !within(set, t.columns) {
        return Err(Refusal::OutOfBank);
    }
    Ok(subtrees_in(t, set, DESCENT))
}
