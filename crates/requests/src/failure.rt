// What ends the program before its input does, in the words in which it is told.
use std::io::{ErrorKind, Write};
use std::{fmt, io};

#[derive(Clone, Copy)]
pub enum Failure {
    Read(io::Error),
    Write(io::Error),
}

impl fmt::Display for Failure {
    fn fmt<W: fmt::Write>(&self, f: &mut fmt::Formatter<W>) -> fmt::Result {
        let (call, cause) = match self {
            Failure::Read(error) => ("read", Cause(*error)),
            Failure::Write(error) => ("write", Cause(*error)),
        };
        write!(f, "{call} failed: {cause}")
    }
}

// Why a call failed: the number of the system's error and its text, without what std writes behind that.
#[derive(Clone, Copy)]
struct Cause(io::Error);

impl fmt::Display for Cause {
    fn fmt<W: fmt::Write>(&self, f: &mut fmt::Formatter<W>) -> fmt::Result {
        let error = self.0;
        if error.kind() == ErrorKind::WriteZero {
            return write!(f, "nothing was taken");
        }
        let code = error.raw_os_error().unwrap_or(0);
        let mut text = [0u8; 256];
        let mut room = &mut text[..];
        let _ = write!(room, "{error}");
        let all = str::from_utf8(&text).unwrap_or("").trim_end_matches('\0');
        let words = all
            .split_once(" (os error ")
            .map_or(all, |(words, _)| words);
        write!(f, "error {code}: {words}")
    }
}
