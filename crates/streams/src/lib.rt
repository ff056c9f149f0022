// What the programs read.
#![tactic(auto)]

ghost use Rattle.std.specs.Prelude.{◌<◌, OnOk, length, take};
ghost use Rattle.std.specs.Counts.{IsPrefixLen};
ghost use Rattle.std.specs.Io.KnownBytes.{Consumes, IsAtEnd};

use std::io::{Read, Result};

// Reads until `bytes` is full, the input ends or a read fails. Answers how many bytes are at the start of `bytes`, and the error of the read that failed:
// with no error they are all of the input, unless it fills `bytes`. A loop over `read`, since std's `read_exact` does not say what it read before an error.
pub fn read_full<R: Read>(input: &mut R, bytes: &mut [u8]) -> (usize, Result<()>)
    ensures fits { IsPrefixLen result.0 bytes.new }
    ensures read { Consumes (R.remaining input.old) (R.remaining input.new) (take result.0 bytes.new) }
    ensures end { OnOk result.1 (result.0 < length bytes.new → IsAtEnd (R.remaining input.new)) }
{
    let mut done = 0;
    while done < bytes.len() {
        match input.read(&mut bytes[done..]) {
            Ok(0) => return (done, Ok(())),
            Ok(n) => done += n,
            Err(e) => return (done, Err(e)),
        }
    }
    (done, Ok(()))
}
