// The request program: a written list of requests on standard input, each answer on standard output. What is printed is
// decided in the crate script; here bytes are only carried, in large blocks, until the run is over, the input ends, or a read
// or a write fails.
#![tactic(auto)]

mod failure;

ghost use Rattle.std.specs.Prelude.{◌≤◌, length};

use failure::Failure;
use script::runner::Runner;
use script::{buffer, runner};
use std::io;
use std::io::{ErrorKind, Read, Write};
use std::ops::ControlFlow;

// How many bytes the host has for input, and how many for output. An instrument's program has no heap.
const ROOM: usize = 65536;

// A host of the runner. The first `held` bytes of its input are still to be used.
#[derive(Drop)]
struct Host {
    runner: Runner,
    input: [u8; ROOM],
    held: usize,
    output: [u8; ROOM],
    ghost within: { held ≤ length input },
}

impl Host {
    // One read behind what is held, and whether the input has ended: nothing came where there was room.
    fn fill(&mut self, from: &mut impl Read) -> io::Result<bool> {
        let room = &mut self.input[self.held..];
        if room.is_empty() {
            return Ok(false);
        }
        let came = from.read(room)?;
        self.held += came;
        Ok(came == 0)
    }

    // The lines that are whole by now, and their answers written. The host stops where the run is over, or where the input has
    // ended and nothing was left to do.
    fn turn(&mut self, ended: bool, to: &mut impl Write) -> io::Result<ControlFlow<()>> {
        let ran = runner::run(
            self.runner,
            &self.input[..self.held],
            ended,
            &mut self.output,
        );
        to.write_all(&self.output[..ran.wrote])?;
        self.runner = ran.runner;
        self.held = buffer::keep(&mut self.input, ran.used, self.held);
        let idle = ran.used == 0 && ran.wrote == 0;
        if self.runner.is_over() || ended && idle {
            return Ok(ControlFlow::Break(()));
        }
        Ok(ControlFlow::Continue(()))
    }

    // Turns, until there is nothing more to do. A read that a signal interrupted is made again; after one that failed no answer
    // is printed: what is held may be half a line. No handle lets a loop here run for ever, so it has a number of turns that no
    // run uses up.
    fn carry(&mut self, from: &mut impl Read, to: &mut impl Write) -> Result<(), Failure> {
        for _ in 0..u64::MAX {
            let ended = match self.fill(from) {
                Err(error) if error.kind() == ErrorKind::Interrupted => continue,
                read => read.map_err(Failure::Read)?,
            };
            if self.turn(ended, to).map_err(Failure::Write)?.is_break() {
                break;
            }
        }
        Ok(())
    }
}

fn main(rt: HostRuntime) {
    let mut host = Host {
        runner: Runner::new(),
        input: [0; ROOM],
        held: 0,
        output: [0; ROOM],
    };
    if let Err(failure) = host.carry(&mut rt.stdin(), &mut rt.stdout()) {
        // Where this cannot be told either, there is nowhere left to tell it.
        let _ = eprintln!(rt; "requests: {failure}");
    }
}
