// The cases of the papers, run on the compiled guard. The files of data/ that the file `list` names hold them, one statement
// to a line: words and numbers, one space apart, and behind `| ` the name that is printed before what the statement tells.
// The file stdout holds what the papers say of each, and a check compares the two.
//
//   # ..                        a comment
//   clear                       fresh tables of edition 1 over sixteen users of 0; no request is gathered
//   set KIND N FIELD X ..       the field of a record, and those behind it; KIND is user, seat, role or entity;
//                               or `set tables 0 edition X`
//   with KIND N FIELD X         one member more of a set
//   fresh                       the tables are built anew over the users and in the edition that they have
//   fresh | NAME                the same: the answer, and what is not as in the tables kept
//   old | NAME                  the tables, put into records of the old width, their categories modulo 256, without
//                               ties, without marks and without an edition, and taken over: what changed
//   keep                        the tables are kept to go back to
//   back                        to the tables kept
//   show KIND N                 a record; `show tables 0` the edition
//   say | TEXT                  the text
//   compare | NAME              what is not as in the tables kept
//   REQUEST                     a request that is to be done
//   REQUEST | NAME              a request: the answer
//   do REQUEST | NAME           the answer, and what changed
//   ask REQUEST | NAME          the same, and the tables stay as they were
//   broken REQUEST | NAME       the same, with what is not as in the tables kept; then back to these
//   edge REQUEST | NAME         the answer; those with one field past its range, or at 4294967295; that on unsound tables
//   gather N REQUEST            the request as N rows more of the batch
//   run X ROOM ROLES | NAME     the first X numbers of the batch, with room for so many answers and so many roles: what changed, the
//                               answers and the roles
//
// A request is its word, or a number for one of no kind, and the numbers of the fields that it uses in the papers' order:
// login SEAT USER LEVEL CATS, create SEAT ENTITY KIND PARENT NAME LEVEL CATS ROLE, grant SEAT ROLE ENTITY RIGHTS, join SEAT
// SENIOR JUNIOR, and so on.
// It is made by the method of its name and by `step`, and a line tells where the two differ. Behind an answer stands `by role N`
// where a role is told.
#![tactic(auto)]

use cases::{Failure, State, folder};
use std::io;
use std::rt::Files;

// Each line of a file. One that cannot be read, or whose request without a name is not done, is told by its number.
fn file(rt: &(impl Print + Files), state: &mut State, name: &[u8]) -> io::Result<()> {
    let mut room = [0; 65536];
    let text = folder::read(rt, name, &mut room);
    for (above, line) in text.split_inclusive(|b| *b == b'\n').enumerate() {
        let line = line.strip_suffix(b"\n").unwrap_or(line);
        match state.run_line(rt, line) {
            Ok(()) => {}
            Err(Failure::Io(e)) => return Err(e),
            Err(Failure::Unread | Failure::NotDone) => {
                rt.write_all(name)?;
                println!(rt; " line {}: not read, or not done", above + 1)?;
            }
        }
    }
    Ok(())
}

fn main(rt: HostRuntime) -> io::Result<()> {
    let mut room = [0; 4096];
    let list = folder::read(&rt, b"list", &mut room);
    let mut state = State::new();
    for name in list.split_inclusive(|b| *b == b'\n') {
        let name = name.strip_suffix(b"\n").unwrap_or(name);
        file(&rt, &mut state, name)?;
    }
    Ok(())
}
