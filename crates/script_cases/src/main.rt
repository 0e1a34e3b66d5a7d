// The cases of document 01's section on the request program, run on the compiled library. Each file of data/ that the file
// `list` names is an input. It is run whole, and what it prints stands below its name and length; then in pieces of 1, 7
// and 64 bytes, each with room for 12, 13 and 100 bytes of output, and the last line of a case says how many of these nine
// ways printed the same. The list begins with long inputs: in each a part of the file comes again many times, and the
// pieces are of 64, 300 and 1,000 bytes. The file stdout holds what the papers say, and a check compares the two.
#![tactic(auto)]

mod host;

use cases::folder;
use host::{Again, Cut, Input};
use std::alloc::{AllocError, Global};
use std::io;
use std::rt::Files;

// The part of a long input, from `from` up to `to`, that comes `again` more times. It makes a long input of a short file.
#[derive(Clone, Copy)]
struct Part {
    from: usize,
    to: usize,
    again: usize,
}

// Of the long inputs, which begin the list.
const PARTS: [Part; 5] = [
    // two lines, 32,769 times
    Part {
        from: 70,
        to: 101,
        again: 32768,
    },
    // a byte behind two lines, a megabyte of it; and the same in the last line
    Part {
        from: 100,
        to: 101,
        again: 1048575,
    },
    Part {
        from: 100,
        to: 101,
        again: 1048575,
    },
    // the first byte
    Part {
        from: 0,
        to: 1,
        again: 1048575,
    },
    // the second line, 40,000 times
    Part {
        from: 5,
        to: 35,
        again: 39999,
    },
];

// How many bytes of an input are read, and of the list.
const MOST: usize = 65536;

const MOST_LISTED: usize = 4096;

// Room for the longest output: 65,534 lines.
const MOST_PRINTED: usize = 600000;

const WHOLE: Cut = Cut {
    piece: 65536,
    room: 65536,
};

const PIECES: [usize; 3] = [1, 7, 64];

const LONG_PIECES: [usize; 3] = [64, 300, 1000];

const ROOMS: [usize; 3] = [12, 13, 100];

// The text, with the part that comes again, if it is that long.
fn repeated<'a>(text: &'a [u8], part: &Part) -> Input<'a> {
    let (front, end) = text.split_at(part.to.min(text.len()));
    let again = text.get(part.from..part.to).unwrap_or(&[]);
    Input::new(front, again, part.again, end)
}

// How many ways of cutting the input print the same, up to the first that does not.
fn ways(
    alloc: Global,
    input: Input,
    pieces: &[usize; 3],
    whole: &[u8],
) -> Result<usize, AllocError> {
    let cuts = pieces.iter().flat_map(|&piece| ROOMS.iter().map(move |&room| Cut { piece, room }));
    for (same, cut) in cuts.enumerate() {
        let mut again = Again::new(whole);
        host::run(alloc, input, cut, &mut again)?;
        if !again.is_same() {
            return Ok(same);
        }
    }
    Ok(pieces.len() * ROOMS.len())
}

// A number that hangs on every byte of a text and on its place.
fn digest(text: &[u8]) -> u64 {
    text.iter()
        .fold(0, |d, byte| d % 4294967291 * 257 + u64::from(*byte))
}

// What was printed; of much, how many bytes it has, its digest, and its last 17 bytes.
fn show(rt: &impl Print, printed: &[u8]) -> io::Result<()> {
    let count = printed.len();
    if count <= 16384 {
        return rt.write_all(printed);
    }
    let number = digest(printed);
    println!(rt; "{count}\n{number}")?;
    rt.write_all(&printed[count - 17..])
}

// The case of the file of that name, and of the part of it that comes again. The file's length is told too: one that is
// missing has none.
fn case(
    rt: &(impl Print + Files + AllocGlobal),
    name: &[u8],
    part: Option<&Part>,
) -> io::Result<()> {
    let mut room = [0; MOST];
    let text = folder::read(rt, name, &mut room);
    let length = text.len();
    rt.write_all(name)?;
    println!(rt; ": {length}")?;
    let (input, pieces) = match part {
        Some(part) => (repeated(text, part), &LONG_PIECES),
        None => (Input::new(text, &[], 0, &[]), &PIECES),
    };
    let mut whole = Vec::with_capacity(rt.alloc(), MOST_PRINTED)?;
    host::run(rt.alloc(), input, WHOLE, &mut whole)?;
    show(rt, &whole)?;
    let same = ways(rt.alloc(), input, pieces, &whole)?;
    println!(rt; "same: {same}")
}

// The case of each line of the list.
fn main(rt: HostRuntime) -> io::Result<()> {
    let mut room = [0; MOST_LISTED];
    let list = folder::read(&rt, b"list", &mut room);
    let lines = list.split_inclusive(|byte| *byte == b'\n');
    for (k, line) in lines.enumerate() {
        let name = line.strip_suffix(b"\n").unwrap_or(line);
        case(&rt, name, PARTS.get(k))?;
    }
    Ok(())
}
