// Why a statement ends early.
use std::io;
use std::num::TryFromIntError;
use std::str::Utf8Error;

// A word is missing, or is not what the statement needs there.
#[derive(Clone, Copy, Debug)]
pub struct Unread;

#[derive(Debug, Drop)]
pub enum Failure {
    Unread,
    // The guard refused what has no name to print the answer behind.
    NotDone,
    Io(io::Error),
}

impl From<TryFromIntError> for Unread {
    fn from(_: TryFromIntError) -> Unread {
        Unread
    }
}

impl From<Utf8Error> for Unread {
    fn from(_: Utf8Error) -> Unread {
        Unread
    }
}

impl From<Unread> for Failure {
    fn from(_: Unread) -> Failure {
        Failure::Unread
    }
}

impl From<io::Error> for Failure {
    fn from(e: io::Error) -> Failure {
        Failure::Io(e)
    }
}
