// Writers: each puts a text into a lent buffer from a place on, as much of it as has room, and answers the place after what it put.
// The place goes by value from one to the next. A struct of the buffer and the place was tried: the place then goes through memory, and the list of
// 64 doors takes 38 % more instructions, where its row of docs/FIGURES.md is at its limit.
ghost use Rattle.std.specs.Prelude.{◌+◌, ◌-◌, ◌≤◌, ◌<◌, ◌≡◌, false, [], ◌∷◌, leb, length, take};
ghost use Rattle.text.specs.Text.{decimal as Text·decimal, field, next_text, Writes, Puts};

use io::decimal;

// Whether n bytes have room from a place on. The last such place does not depend on the place, so that a loop computes it once.
fn has_room(size: usize, at: usize, n: usize) -> bool
    ensures { result ≡ leb (at + n) size }
{
    if size < n {
        return false;
    }
    at <= size - n
}

// All the bytes, which have room. A loop, since the library's copy of a slice asks for `memmove`, and the archive for C may ask for no name that it did not ask
// for before.
fn copy(out: &mut [u8], at: usize, bytes: &[u8]) -> usize
    requires { at + length bytes.now ≤ length out.old }
    ensures { Writes result out.new out.old at bytes.now }
{
    for (i, byte) in bytes.iter().enumerate() {
        out[at + i] = *byte;
    }
    at + bytes.len()
}

// The bytes as they are. Where all have room, the compiler may know how many they are.
pub fn put_all(out: &mut [u8], at: usize, bytes: &[u8]) -> usize
    ensures { Puts result out.new out.old at bytes.now }
{
    if out.len() <= at {
        return at;
    }
    let room = out.len() - at;
    if bytes.len() <= room {
        return copy(out, at, bytes);
    }
    copy(out, at, &bytes[..room])
}

// One byte.
fn put_byte(out: &mut [u8], at: usize, byte: u8) -> usize
    ensures { Puts result out.new out.old at (byte ∷ []) }
{
    if out.len() <= at {
        return at;
    }
    out[at] = byte;
    at + 1
}

// Any number, by way of a small array.
fn put_number(out: &mut [u8], at: usize, n: u64) -> usize
    ensures { Puts result out.new out.old at (Text·decimal n) }
{
    let mut text = [0u8; 20];
    let k = decimal(n, &mut text);
    put_all(out, at, &text[..k])
}

// A number of one or two digits, which have room. Nearly every number of a script is one, so it is not spelt by the library.
fn write_short(out: &mut [u8], at: usize, n: u64) -> usize
    requires { (n < 100) × (at + 2 ≤ length out.old) }
    ensures { Writes result out.new out.old at (Text·decimal n) }
{
    if n < 10 {
        out[at] = b'0' + (n as u8);
        return at + 1;
    }
    out[at] = b'0' + ((n / 10) as u8);
    out[at + 1] = b'0' + ((n % 10) as u8);
    at + 2
}

// Any number of a line that divides them by commas. It is not inlined, so that the writers of short numbers are.
#[inline(never)]
fn put_divided(out: &mut [u8], at: usize, first: bool, n: u64) -> usize
    ensures { Puts result out.new out.old at (next_text first n) }
{
    if first {
        return put_number(out, at, n);
    }
    let number = put_byte(out, at, b',');
    put_number(out, number, n)
}

// A number of a line that divides them by commas: the first of them, or another. A short one has its room tested once.
pub fn put_next(out: &mut [u8], at: usize, first: bool, n: u64) -> usize
    ensures { Puts result out.new out.old at (next_text first n) }
{
    if 100 <= n {
        return put_divided(out, at, first, n);
    }
    if !has_room(out.len(), at, 3) {
        return put_divided(out, at, first, n);
    }
    if first {
        return write_short(out, at, n);
    }
    out[at] = b',';
    write_short(out, at + 1, n)
}

// A line, part by part. It is not inlined, so that the writer of a short one is.
#[inline(never)]
fn put_line(out: &mut [u8], at: usize, key: &[u8], n: u64) -> usize
    ensures { Puts result out.new out.old at (field key.now n) }
{
    let value = put_all(out, at, key);
    let end = put_number(out, value, n);
    put_byte(out, end, b'\n')
}

// A line: its key and a number. Where the number is short, the room is tested once. What it has in common with `put_next` are `has_room` and `write_short`: a
// writer of both would be given a comma and the end of a line as texts, and copy each by a loop.
pub fn put_field(out: &mut [u8], at: usize, key: &[u8], n: u64) -> usize
    ensures { Puts result out.new out.old at (field key.now n) }
{
    if 100 <= n {
        return put_line(out, at, key, n);
    }
    if !has_room(out.len(), at, key.len() + 3) {
        return put_line(out, at, key, n);
    }
    let value = copy(out, at, key);
    let end = write_short(out, value, n);
    out[end] = b'\n';
    end + 1
}
