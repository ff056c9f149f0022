// A request for a fastest tree as text: three lines, and the table or the refusal that answers them.
ghost use Rattle.std.specs.Prelude.{◌≤◌, ◌≡◌, length};
ghost use Rattle.column.specs.Refusals.{meant};
ghost use Rattle.text.specs.Text.{columns_key, delay_key, gap_key, Writes, divided, Puts};
ghost use Rattle.text.specs.Pieces.{keyed};
ghost use Rattle.fastest_text.specs.Requests.{asked, request_of, request_text};
ghost use Rattle.table.specs.Tables.{table_text};
ghost use Rattle.fastest_text.specs.inner.RequestAnswers.{request_meant, tree_given};

use column::error::Refusal;
use column::tree::Tree;
use fastest::request::Request;
use fastest::strategy::fastest;
use text::reading::read_keyed;
use text::three_lines::{LineEnds, find_three_lines};
use text::writing::{put_all, put_field, put_next};

// The bytes of the longest request; a longer input is refused with 1, whatever it says.
pub const LIMIT: usize = 29;

// Room for the longest table of three lines.
pub const TABLE: usize = 70;

#[tactic(auto, unfolding(crate::specs::Requests::asked))]
fn read_asked(one: &[u8], two: &[u8], three: &[u8]) -> Option<Request>
    ensures { request_meant result ≡ asked (keyed columns_key 2 one.now) (keyed delay_key 3 two.now) (keyed gap_key 3 three.now) }
{
    Some(Request {
        columns: read_keyed(one, b"columns=", 2)?,
        delay: read_keyed(two, b"delay=", 3)?,
        gap: read_keyed(three, b"gap=", 3)?,
    })
}

fn read_request(input: &[u8]) -> Option<Request>
    ensures { request_meant result ≡ request_of input.now }
{
    let LineEnds { one, two, three } = find_three_lines(input)?;
    if three + 1 != input.len() {
        return None;
    }
    read_asked(&input[..one], &input[one + 1..two], &input[two + 1..three])
}

// The tree that is asked for; 1 where nothing is asked, or what a fastest tree is refused with.
fn read_tree(input: &[u8]) -> Result<Tree, Refusal>
    ensures { meant result ≡ tree_given (request_of input.now) }
{
    fastest(read_request(input).ok_or(Refusal::MalformedTable)?)
}

// The parents, divided by commas. The buffer and the place in it go apart for speed, as in `text::writing`.
fn put_parents(out: &mut [u8], at: usize, up: &[u8]) -> usize
    ensures { Puts result out.new out.old at (divided up.now) }
{
    let mut next = at;
    for (j, parent) in up.iter().enumerate() {
        next = put_next(out, next, j == 0, u64::from(*parent));
    }
    next
}

// The three lines. The fastest tree has 16 columns at most, and nothing else is put here, so that its bound stands in no type. `put_list` of `list` has this form,
// and other lines.
fn put_table(out: &mut [u8], t: Tree) -> usize
    requires { t.columns ≤ 16 }
    ensures { Puts result out.new out.old 0 (table_text t) }
{
    let root = put_field(out, 0, b"columns=", t.columns as u64);
    let key = put_field(out, root, b"root=", t.root as u64);
    let parents = put_all(out, key, b"up=");
    let end = put_parents(out, parents, &t.up[..t.columns]);
    put_all(out, end, b"\n")
}

// `losses_text` answers alike, what it reads and with room of its own. What both share is the call that puts a refusal.
fn put_answer(input: &[u8], out: &mut [u8]) -> usize
    requires { 70 ≤ length out.old }
    ensures writes { Writes result out.new out.old 0 (request_text input.now) }
    ensures upper_bound { result ≤ 70 }
{
    match read_tree(input) {
        Ok(tree) => put_table(out, tree),
        Err(refusal) => put_field(out, 0, b"refused=", u64::from(refusal.number())),
    }
}

// The text that answers a request, written into the lent buffer from its start; answers its length.
pub fn answer(input: &[u8], out: &mut [u8; TABLE]) -> usize
    ensures writes { Writes result out.new out.old 0 (request_text input.now) }
    ensures upper_bound { result ≤ 70 }
{
    put_answer(input, out)
}
