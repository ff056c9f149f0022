// Sets of columns as masks, made and changed: each asks for columns below 16. A type for such a number would be no plainer here and in what calls this: the number
// is a shift, a place and a byte by turns, and would be taken out of it each time.
ghost use Rattle.std.specs.Prelude.{◌≡◌, ◌<◌, ◌≤◌};
ghost use Rattle.column.specs.Sets.{single, insert, without, whole};

// Column i alone.
pub fn single(i: usize) -> u16
    requires { i < 16 }
    ensures { result ≡ single i }
{
    1u16 << i
}

// The set with column i.
pub fn insert(m: u16, i: usize) -> u16
    requires { i < 16 }
    ensures { result ≡ insert m i }
{
    m | single(i)
}

// The set without column i: its bit is set, then flipped. The law of this form holds at every width, that of a complement does not.
pub fn without(m: u16, i: usize) -> u16
    requires { i < 16 }
    ensures { result ≡ without m i }
{
    insert(m, i) ^ single(i)
}

// All columns below n.
pub fn whole(n: usize) -> u16
    requires { n ≤ 16 }
    ensures { result ≡ whole n }
{
    ((1u32 << n) - 1) as u16
}
