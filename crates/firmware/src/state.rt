// A table read, a tree's check, a column as it begins, whether it rests, its closing list, and its register page. Blocks are lent one by one, as the header lends
// them. Of two calls that are alike in form each calls something else.
ghost use Rattle.std.specs.Prelude.{◌≡◌};
ghost use Rattle.column.specs.Refusals.{meant};
ghost use Rattle.firmware.specs.Calls.{answer_of, tree_call, table_call, filled_meant, fresh_call, idle_call, list_call, byte_call, line_up_call};

use crate::block::{
    COLUMN_SIZE, MASK, PENDING, TREE_SIZE, column_block, put_column, put_tree, tree_block, tree_in,
};
use crate::lone::LoneColumn;
use column::error::Refusal;
use column::{page, state, topology};
use list::list::lone_list;
use table::table::read_table;

// 0 of a tree that a bank may have; refused with 24, 2, 3.
#[tactic(auto, unfolding(crate::specs::Calls::tree_call))]
pub fn check_tree(tree: &[u8]) -> Result<usize, Refusal>
    ensures { answer_of (meant result) ≡ tree_call tree.now }
{
    topology::check_tree(tree_in(tree_block(tree)?))?;
    Ok(0)
}

// Leaves the tree of the table that the text begins with and answers how many bytes the table takes, 137 at most; refused with 24, 1, 2, 3.
#[tactic(auto, unfolding(crate::specs::Calls::table_call))]
pub fn read_tree(text: &[u8], tree: &mut [u8]) -> Result<usize, Refusal>
    ensures { filled_meant (answer_of (meant result)) tree.new ≡ table_call text.now tree.old }
{
    if tree.len() != TREE_SIZE {
        return Err(Refusal::OtherBlock);
    }
    let table = read_table(text)?;
    put_tree(table.tree, tree);
    Ok(table.end)
}

// Leaves column i as it begins and answers 0; refused with 24, 2, 3, 4.
#[tactic(auto, unfolding(crate::specs::Calls::fresh_call))]
pub fn fresh(tree: &[u8], i: usize, column: &mut [u8]) -> Result<usize, Refusal>
    ensures { filled_meant (answer_of (meant result)) column.new ≡ fresh_call tree.now i column.old }
{
    let t = tree_in(tree_block(tree)?);
    if column.len() != COLUMN_SIZE {
        return Err(Refusal::OtherBlock);
    }
    let c = state::fresh(t, i)?;
    put_column(i as u8, c, column);
    Ok(0)
}

// 1 where the column does not run, or could neither send nor acknowledge nor take over, and 0 where it could; refused with 24, 2, 3, 4.
#[tactic(auto, unfolding(crate::specs::Calls::idle_call))]
pub fn idle(tree: &[u8], column: &[u8]) -> Result<usize, Refusal>
    ensures { answer_of (meant result) ≡ idle_call tree.now column.now }
{
    let lone = LoneColumn::in_blocks(tree_block(tree)?, column_block(column)?);
    Ok(usize::from(lone.rests()?))
}

// Leaves the column's closing list at the start of the buffer and answers its length, 229 at most; refused with 24, 2, 3, 4, 5, 11.
#[tactic(auto, unfolding(crate::specs::Calls::list_call))]
pub fn list(tree: &[u8], column: &[u8], buffer: &mut [u8]) -> Result<usize, Refusal>
    ensures { filled_meant (answer_of (meant result)) buffer.new ≡ list_call tree.now column.now buffer.old }
{
    let lone = LoneColumn::in_blocks(tree_block(tree)?, column_block(column)?);
    lone_list(lone.tree, usize::from(lone.own), lone.column, buffer)
}

// The byte at an offset of the column's page; refused with 24, 2, 3, 4, 22.
#[tactic(auto, unfolding(crate::specs::Calls::byte_call))]
pub fn read_page(tree: &[u8], column: &[u8], offset: usize) -> Result<usize, Refusal>
    ensures { answer_of (meant result) ≡ byte_call tree.now column.now offset }
{
    let lone = LoneColumn::in_blocks(tree_block(tree)?, column_block(column)?);
    let byte = page::read(lone.tree, usize::from(lone.own), lone.column, offset)?;
    Ok(usize::from(byte))
}

// 1 where the line of a column's page is up, and 0 where it is not; refused with 24.
#[tactic(auto, unfolding(crate::specs::Calls::line_up_call))]
pub fn line_up(column: &[u8]) -> Result<usize, Refusal>
    ensures { answer_of (meant result) ≡ line_up_call column.now }
{
    let block = column_block(column)?;
    Ok(usize::from(block[MASK] & block[PENDING] != 0))
}
