// Why the example ends before its end: an error enum for `?`. Both variants are of what failed, so it is no `Option` and no `Result`.
use column::error::Refusal;
use std::io;

#[derive(Debug, Drop)]
pub enum Failure {
    // The core refused a call.
    Refused(Refusal),
    // Standard output failed.
    Unwritten(io::Error),
}

impl From<Refusal> for Failure {
    fn from(refusal: Refusal) -> Failure {
        Failure::Refused(refusal)
    }
}

impl From<io::Error> for Failure {
    fn from(error: io::Error) -> Failure {
        Failure::Unwritten(error)
    }
}
