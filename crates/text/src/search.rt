// Where a byte is first in a text, and where a line of it ends. What is answered is a place of the whole text, so this is lent with a place and not from it on.
ghost use Rattle.std.specs.Prelude.{◌≤◌, ◌<◌, ◌≡◌, IfNone, IfSome, length};
ghost use Rattle.text.specs.Search.{place_of};
ghost use Rattle.text.specs.Text.{newline};

// The first place of a byte from one place on and before another; that other, where there is none or where the two bound no part of the text. That it answers the
// end and no option is in its clause, `place_of`.
pub fn find(text: &[u8], from: usize, to: usize, byte: u8) -> usize
    ensures { (result ≡ place_of byte from to text.now) × (result ≤ to) }
{
    let Some(part) = text.get(from..to) else {
        return to;
    };
    match part.iter().position(|b| *b == byte) {
        Some(at) => from + at,
        None => to,
    }
}

// The first place of a byte in a text from one place on, if it is there.
pub fn next_place(text: &[u8], from: usize, byte: u8) -> Option<usize>
    ensures place { IfSome result (λ at. (at ≡ place_of byte from (length text.now) text.now) × (at < length text.now)) }
    ensures none { IfNone result (place_of byte from (length text.now) text.now ≡ length text.now) }
{
    let at = find(text, from, text.len(), byte);
    if at == text.len() {
        return None;
    }
    Some(at)
}

// Where a line ends that begins at a place of a text, if it does.
pub fn line_end(text: &[u8], from: usize) -> Option<usize>
    ensures end { IfSome result (λ at. (at ≡ place_of newline from (length text.now) text.now) × (at < length text.now)) }
    ensures none { IfNone result (place_of newline from (length text.now) text.now ≡ length text.now) }
{
    next_place(text, from, b'\n')
}
