// A host that hands an input over in pieces and lends little room for output. A long input and what is printed are not held whole: the
// input's bytes come from the file's text as a piece is filled, and what is printed is handed on as it comes.
ghost use Rattle.std.specs.Prelude.{◌≤◌, length};

use script::runner::Runner;
use script::{buffer, runner};
use std::alloc::{AllocError, Global};
use std::ops::ControlFlow;

// How many bytes a piece has, and for how many bytes of output there is room.
#[derive(Clone, Copy)]
pub struct Cut {
    pub piece: usize,
    pub room: usize,
}

// How many bytes of input there is room for.
const ROOM: usize = 65536;

// The most bytes of a line.
const LONGEST: usize = 255;

// The bytes of an input that are still to come: those that are begun, then a part so many more times, and then the end.
#[derive(Clone, Copy)]
pub struct Input<'a> {
    begun: &'a [u8],
    part: &'a [u8],
    again: usize,
    end: &'a [u8],
}

impl<'a> Input<'a> {
    // A text, split where a part of it comes again. A part without bytes does not.
    pub fn new(front: &'a [u8], part: &'a [u8], again: usize, end: &'a [u8]) -> Input<'a> {
        Input {
            begun: front,
            part,
            again: if part.is_empty() { 0 } else { again },
            end,
        }
    }

    fn is_empty(&self) -> bool {
        self.begun.is_empty() && self.again == 0 && self.end.is_empty()
    }

    fn byte(&mut self) -> Option<u8> {
        if self.begun.is_empty() {
            if self.again == 0 {
                self.begun = self.end;
                self.end = &[];
            } else {
                self.begun = self.part;
                self.again -= 1;
            }
        }
        let (byte, later) = self.begun.split_first()?;
        self.begun = later;
        Some(*byte)
    }

    // Puts the next `piece` bytes into the room, as far as there are any and there is room, and says how many came.
    fn read(&mut self, room: &mut [u8], piece: usize) -> usize
        ensures { result ≤ length room.old }
    {
        let most = piece.min(room.len());
        for (came, slot) in room[..most].iter_mut().enumerate() {
            match self.byte() {
                Some(byte) => *slot = byte,
                None => return came,
            }
        }
        most
    }
}

// What takes the output of a run, piece by piece.
pub trait Sink {
    fn take(&mut self, printed: &[u8]) -> Result<(), AllocError>;
}

impl Sink for Vec<u8> {
    fn take(&mut self, printed: &[u8]) -> Result<(), AllocError> {
        self.extend_from_slice(printed)
    }
}

// What of an earlier run's output is still to come, or none where something else came.
#[derive(Clone, Copy)]
pub struct Again<'a> {
    rest: Option<&'a [u8]>,
}

impl<'a> Again<'a> {
    pub fn new(whole: &'a [u8]) -> Again<'a> {
        Again { rest: Some(whole) }
    }

    // Whether all of it came, and nothing else.
    pub fn is_same(&self) -> bool {
        self.rest.is_some_and(|rest| rest.is_empty())
    }
}

impl Sink for Again<'_> {
    fn take(&mut self, printed: &[u8]) -> Result<(), AllocError> {
        self.rest = self.rest.and_then(|rest| rest.strip_prefix(printed));
        Ok(())
    }
}

// A run of an input. The first `have` bytes of what is held are still to be used.
#[derive(Drop)]
struct Host<'a> {
    runner: Runner,
    input: Input<'a>,
    held: [u8; ROOM],
    have: usize,
    output: Vec<u8>,
    ghost within: { have ≤ length held },
}

impl Host<'_> {
    // A piece is handed over only where no more than a line is held: more means that there was no room for output.
    fn fill(&mut self, piece: usize) {
        if LONGEST < self.have {
            return;
        }
        let room = &mut self.held[self.have..];
        let came = self.input.read(room, piece);
        self.have += came;
    }

    // The lines that are whole by now, and their answers handed on. The run is over where a call does nothing and either the
    // input has ended or more is held than a line can have.
    fn turn(&mut self, sink: &mut impl Sink) -> Result<ControlFlow<()>, AllocError> {
        let ended = self.input.is_empty();
        let ran = runner::run(
            self.runner,
            &self.held[..self.have],
            ended,
            &mut self.output,
        );
        self.runner = ran.runner;
        sink.take(&self.output[..ran.wrote])?;
        self.have = buffer::keep(&mut self.held, ran.used, self.have);
        let idle = ran.used == 0 && ran.wrote == 0;
        if idle && (ended || LONGEST < self.have) {
            return Ok(ControlFlow::Break(()));
        }
        Ok(ControlFlow::Continue(()))
    }
}

// Runs the input, and hands on all that it prints. No handle lets a loop here run for ever, so it has a number of turns that no
// run uses up.
pub fn run(alloc: Global, input: Input, cut: Cut, sink: &mut impl Sink) -> Result<(), AllocError> {
    let mut host = Host {
        runner: Runner::new(),
        input,
        held: [0; ROOM],
        have: 0,
        output: vec![in alloc; 0; cut.room]?,
    };
    for _ in 0..u64::MAX {
        host.fill(cut.piece);
        if host.turn(sink)?.is_break() {
            break;
        }
    }
    Ok(())
}
