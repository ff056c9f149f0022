// A table read, a tree's check, a column as it begins, whether it rests, its closing list, and its register page.
ghost use Rattle.std.specs.Prelude.{◌≡◌};
ghost use Rattle.firmware.specs.Calls.{tree_call, table_call, filled_meant, fresh_call, idle_call, list_call, byte_call, line_up_call};

use firmware::answer::answer;
use firmware::state;

// 0 of a tree that a bank may have; refused with 24, 2, 3.
#[unsafe(no_mangle)]
pub extern "C" fn mudasgup_raw_tree_check(tree: &[u8]) -> usize
    ensures { result ≡ tree_call tree.now }
{
    answer(state::check_tree(tree))
}

// Leaves the tree of the table that the text begins with and answers how many bytes the table takes, 137 at most; refused with 24, 1, 2, 3.
#[unsafe(no_mangle)]
pub extern "C" fn mudasgup_raw_tree_read(text: &[u8], tree: &mut [u8]) -> usize
    ensures { filled_meant result tree.new ≡ table_call text.now tree.old }
{
    answer(state::read_tree(text, tree))
}

// Leaves column i as it begins and answers 0; refused with 24, 2, 3, 4.
#[unsafe(no_mangle)]
pub extern "C" fn mudasgup_raw_column_fresh(tree: &[u8], i: usize, column: &mut [u8]) -> usize
    ensures { filled_meant result column.new ≡ fresh_call tree.now i column.old }
{
    answer(state::fresh(tree, i, column))
}

// 1 where the column does not run, or could neither send nor acknowledge nor take over, and 0 where it could; refused with 24, 2, 3, 4.
#[unsafe(no_mangle)]
pub extern "C" fn mudasgup_raw_idle(tree: &[u8], column: &[u8]) -> usize
    ensures { result ≡ idle_call tree.now column.now }
{
    answer(state::idle(tree, column))
}

// Leaves the column's closing list at the start of the buffer and answers its length, 229 at most; refused with 24, 2, 3, 4, 5, 11.
#[unsafe(no_mangle)]
pub extern "C" fn mudasgup_raw_list(tree: &[u8], column: &[u8], buffer: &mut [u8]) -> usize
    ensures { filled_meant result buffer.new ≡ list_call tree.now column.now buffer.old }
{
    answer(state::list(tree, column, buffer))
}

// The byte at an offset of the column's page; refused with 24, 2, 3, 4, 22.
#[unsafe(no_mangle)]
pub extern "C" fn mudasgup_raw_page_read(tree: &[u8], column: &[u8], offset: usize) -> usize
    ensures { result ≡ byte_call tree.now column.now offset }
{
    answer(state::read_page(tree, column, offset))
}

// 1 where the line of a column's page is up, and 0 where it is not; refused with 24.
#[unsafe(no_mangle)]
pub extern "C" fn mudasgup_raw_line_up(column: &[u8]) -> usize
    ensures { result ≡ line_up_call column.now }
{
    answer(state::line_up(column))
}
