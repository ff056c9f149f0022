// A bank's table as text: three lines that give a tree, and where there are more of its own, the tree's sequence and whom columns watch.
ghost use Rattle.std.specs.Prelude.{◌≤◌, length, ◌≡◌, IfSome};
ghost use Rattle.column.specs.Refusals.{refusal_of};
ghost use Rattle.table.specs.Tables.{sequence_line, watch_line, further_lines, table_of, counted_refusal, read_table};
ghost use Rattle.table.specs.TableReads.{table_meant};
ghost use Rattle.table.specs.inner.Held.{held};
ghost use Rattle.table.specs.inner.HeldTables.{sequence_held, watch_held, further_held, lines_held, tree_of_lines, listed_in};

use crate::number_list::{NumberList, numbers_of};
use column::error::Refusal;
use column::topology::check_tree;
use column::tree::{ASCENDING, Tree};
use text::reading::{read_keyed, starts_with};
use text::search::line_end;
use text::three_lines::find_three_lines;

// The longest input of a program that is given a table.
pub const LIMIT: usize = 65536;

// What is read of a text, and how many bytes of it that takes.
#[derive(Clone, Copy)]
struct Parsed<T> {
    value: T,
    size: usize,
}

// The numbers of the sequence, where the table has it, and whether senders are watched.
#[derive(Clone, Copy)]
struct FurtherLines {
    listed: Option<NumberList>,
    watch: bool,
}

// What the lines of a table say, and the place after them.
#[derive(Clone, Copy)]
struct Lines {
    columns: usize,
    root: usize,
    parents: NumberList,
    listed: Option<NumberList>,
    watch: bool,
    end: usize,
}

impl Lines {
    // The tree of these numbers, in the sequence of its own or the ascending one.
    fn tree(self) -> Tree
        ensures { result ≡ tree_of_lines self }
    {
        Tree {
            columns: self.columns,
            root: self.root,
            up: self.parents.numbers,
            first: match self.listed {
                Some(list) => list.numbers,
                None => ASCENDING,
            },
            watch: self.watch,
        }
    }

    // How many columns the sequence lists.
    fn listed_count(self) -> usize
        ensures { result ≡ listed_in self }
    {
        match self.listed {
            Some(list) => list.count,
            None => self.columns,
        }
    }
}

// A tree and the place after its table.
#[derive(Clone, Copy)]
pub struct Table {
    pub tree: Tree,
    pub end: usize,
}

// The sequence of a table, in what follows its third line.
#[tactic(auto, unfolding(crate::specs::Tables::sequence_line))]
fn read_sequence(rest: &[u8]) -> Option<Parsed<Option<NumberList>>>
    ensures line { result ≡ held sequence_held (sequence_line rest.now) }
    ensures within { IfSome result (λ s. s.size ≤ length rest.now) }
{
    if !starts_with(rest, b"first=") {
        return Some(Parsed {
            value: None,
            size: 0,
        });
    }
    let end = line_end(rest, 0)?;
    let list = numbers_of(&rest[..end], b"first=")?;
    Some(Parsed {
        value: Some(list),
        size: end + 1,
    })
}

// The watch of a table, in what follows the lines before it.
#[tactic(auto, unfolding(crate::specs::Tables::watch_line))]
fn read_watch(rest: &[u8]) -> Option<Parsed<bool>>
    ensures line { result ≡ held watch_held (watch_line rest.now) }
    ensures within { IfSome result (λ w. w.size ≤ length rest.now) }
{
    if !starts_with(rest, b"watch=") {
        return Some(Parsed {
            value: false,
            size: 0,
        });
    }
    if starts_with(rest, b"watch=root\n") {
        return Some(Parsed {
            value: false,
            size: b"watch=root\n".len(),
        });
    }
    if starts_with(rest, b"watch=sender\n") {
        return Some(Parsed {
            value: true,
            size: b"watch=sender\n".len(),
        });
    }
    None
}

// The lines of a table after its third.
fn read_further(rest: &[u8]) -> Option<Parsed<FurtherLines>>
    ensures lines { result ≡ held further_held (further_lines rest.now) }
    ensures within { IfSome result (λ f. f.size ≤ length rest.now) }
{
    let sequence = read_sequence(rest)?;
    let watch = read_watch(&rest[sequence.size..])?;
    let value = FurtherLines {
        listed: sequence.value,
        watch: watch.value,
    };
    Some(Parsed {
        value,
        size: sequence.size + watch.size,
    })
}

// The lines that the input begins with, where they are of a table's form.
fn read_lines(input: &[u8]) -> Option<Lines>
    ensures { result ≡ held lines_held (table_of input.now) }
{
    let ends = find_three_lines(input)?;
    let columns = read_keyed(&input[..ends.one], b"columns=", 2)?;
    let root = read_keyed(&input[ends.one + 1..ends.two], b"root=", 2)?;
    let parents = numbers_of(&input[ends.two + 1..ends.three], b"up=")?;
    let start = ends.three + 1;
    let further = read_further(&input[start..])?;
    Some(Lines {
        columns,
        root,
        parents,
        listed: further.value.listed,
        watch: further.value.watch,
        end: start + further.size,
    })
}

// 2 or 3 of a tree whose table has so many parents and lists so many columns. `check_note_alone` of `column` has this form, and asks other things.
fn check_counted(tree: Tree, parents: usize, listed: usize) -> Result<(), Refusal>
    ensures { refusal_of result ≡ counted_refusal tree parents listed }
{
    if tree.columns == 0 {
        return Err(Refusal::ColumnCount);
    }
    if 16 < tree.columns {
        return Err(Refusal::ColumnCount);
    }
    if parents != tree.columns {
        return Err(Refusal::NoTree);
    }
    if listed != tree.columns {
        return Err(Refusal::NoTree);
    }
    check_tree(tree)
}

// The tree of the table that the input begins with, and the place after it; or 1, 2 or 3.
pub fn read_table(input: &[u8]) -> Result<Table, Refusal>
    ensures { table_meant result ≡ read_table input.now }
{
    let lines = read_lines(input).ok_or(Refusal::MalformedTable)?;
    let tree = lines.tree();
    check_counted(tree, lines.parents.count, lines.listed_count())?;
    Ok(Table {
        tree,
        end: lines.end,
    })
}
