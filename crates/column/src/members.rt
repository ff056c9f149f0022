// Sets of columns as masks: column i is a member where bit i is 1. A mask and a number come apart: a struct of both would be made for each test.
ghost use Rattle.std.specs.Prelude.{◌≡◌};
ghost use Rattle.column.specs.Sets.{has, lowest, within};

// Whether column i is a member.
pub fn has(m: u16, i: usize) -> bool
    ensures { result ≡ has m i }
{
    if 16 <= i {
        return false;
    }
    (m >> i) % 2 == 1
}

// The lowest member, and 16 of the empty set, as the definition says.
pub fn lowest(m: u16) -> usize
    ensures { result ≡ lowest m }
{
    u16::trailing_zeros(m) as usize
}

// Whether every member is below n.
pub fn within(m: u16, n: usize) -> bool
    ensures { result ≡ within m n }
{
    if 16 <= n {
        return true;
    }
    m >> n == 0
}
