// The request program over input in pieces. A host hands over a piece of the input and room for output; the runner uses
// whole lines only, and the host gives what was not used again, in front of the next piece. No line is kept here: one that
// has passed 255 bytes without byte 10 is answered 17 at once, and passed over to its end.
ghost use Rattle.std.specs.Prelude.{◌≤◌, ◌<◌, ◌≡◌, ◌≢◌, length};
ghost use Rattle.script.specs.Report.{line_room, last_line};
ghost use Rattle.script.specs.Private.Slices.{before};
ghost use Rattle.script.specs.Run.{unbegun, is_over, Finished};
ghost use Rattle.script.specs.Private.Steps.{Spoken, Named, Stepped};
ghost use Rattle.script.specs.declared.runner.Phase.TheVariants.{Heading, Names, Lines};

use crate::reply::Bench;
use crate::{batch, header, limits, line, print, reply, text};
use guard::{Tables, User, sizes};

// The phases of a run: the heading is to come, the names are to come, lines of values, over.
#[derive(Clone, Copy)]
enum Phase {
    Heading,
    Names,
    Lines,
    Over,
}

// Where a run stands: the bench, the order of the names, the phase, how many lines are done, the names line as 1, and whether the line that is begun has been
// answered.
#[derive(Clone, Copy)]
pub struct Runner {
    bench: Bench,
    at: [u8; limits::PLACES],
    phase: Phase,
    done: u32,
    skip: bool,
}

// The runner after a line, and how many bytes of output were written.
#[derive(Clone, Copy)]
struct Said {
    runner: Runner,
    wrote: usize,
}

// The runner after a piece, how many bytes of the piece were used, and how many bytes of output were written.
#[derive(Clone, Copy)]
pub struct Ran {
    pub runner: Runner,
    pub used: usize,
    pub wrote: usize,
}

// Answers one line of values.
fn answer_values(mut r: Runner, s: &[u8], out: &mut [u8]) -> Said
    requires { (line_room ≤ length out.old) × (r.done < last_line) × (before 10 s.now ≡ s.now) }
    ensures { Spoken r s.now out.old out.new result }
{
    let at = r.at;
    let front = line::next(s, &at);
    let asked = front.asked;
    let bench = r.bench;
    let a = reply::answer_line(bench, asked);
    let n = r.done + 1;
    let wrote = print::put_line(print::numeral_of(n), a.answer, out);
    let next = a.bench;
    r.bench = next;
    r.done = n;
    Said { runner: r, wrote }
}

// Reads the names line.
fn take_names(mut r: Runner, s: &[u8], out: &mut [u8]) -> Said
    requires { line_room ≤ length out.old }
    ensures { Named r s.now out.old out.new result }
{
    let Some(at) = header::header(s) else {
        let wrote = print::put_line(print::numeral_of(1), limits::UNREAD, out);
        r.phase = Phase::Over;
        return Said { runner: r, wrote };
    };
    r.at = at;
    r.phase = Phase::Lines;
    r.done = 1;
    r.skip = false;
    Said {
        runner: r,
        wrote: 0,
    }
}

impl Runner {
    // A run that has not begun, over users that are 0 throughout, in edition 1.
    pub fn new() -> Runner
        ensures { result ≡ unbegun }
    {
        let o = Tables::fresh([User::default(); sizes::USERS], sizes::EDITION_1);
        let tables = o.tables;
        Runner {
            bench: Bench {
                tables,
                shut: false,
            },
            at: [0u8; limits::PLACES],
            phase: Phase::Heading,
            done: 0,
            skip: false,
        }
    }

    // Whether the run is over: after a bad first line, or with line 65,535. A host need not read on then.
    #[tactic(auto, unfolding(crate::specs::Run::is_over_in))]
    pub fn is_over(self) -> bool
        ensures { result ≡ is_over self }
    {
        match self.phase {
            Phase::Heading | Phase::Names => false,
            Phase::Lines => limits::LAST_LINE <= self.done,
            Phase::Over => true,
        }
    }
}

impl Said {
    // The same of a piece, of which so many bytes were used.
    fn using(self, used: usize) -> Ran
        ensures { result ≡ record { runner = self.runner; used = used; wrote = self.wrote } }
    {
        Ran {
            runner: self.runner,
            used,
            wrote: self.wrote,
        }
    }
}

// What a call hands back that has done nothing.
fn idle(runner: Runner) -> Ran
    ensures { result ≡ record { runner = runner; used = 0; wrote = 0 } }
{
    Ran {
        runner,
        used: 0,
        wrote: 0,
    }
}

// The names line, once it is there: with its byte 10, or past 255 bytes, or at the end of the input.
fn names_step(r: Runner, piece: &[u8], end: bool, out: &mut [u8]) -> Ran
    requires { r.phase ≡ Names }
    ensures { Stepped r piece.now end out.old out.new result }
{
    if out.len() < limits::LINE_ROOM {
        return idle(r);
    }
    let e = text::find(piece, 10);
    if e < piece.len() {
        return take_names(r, &piece[..e], out).using(e + 1);
    }
    if end | (limits::LONGEST < e) {
        return take_names(r, piece, out).using(e);
    }
    idle(r)
}

// One line of values, likewise; or the rest of a line that has been answered.
fn values_step(mut r: Runner, piece: &[u8], end: bool, out: &mut [u8]) -> Ran
    requires { r.phase ≡ Lines }
    ensures { Stepped r piece.now end out.old out.new result }
{
    if limits::LAST_LINE <= r.done {
        return idle(r);
    }
    let e = text::find(piece, 10);
    if r.skip {
        if e < piece.len() {
            r.skip = false;
            return Ran {
                runner: r,
                used: e + 1,
                wrote: 0,
            };
        }
        return Ran {
            runner: r,
            used: e,
            wrote: 0,
        };
    }
    if out.len() < limits::LINE_ROOM {
        return idle(r);
    }
    if e < piece.len() {
        return answer_values(r, &piece[..e], out).using(e + 1);
    }
    if limits::LONGEST < e {
        let mut said = answer_values(r, piece, out);
        said.runner.skip = true;
        return said.using(e);
    }
    if end & (0 < e) {
        return answer_values(r, piece, out).using(e);
    }
    idle(r)
}

// Room for a batch: its requests as rows, of each line whether it asks one, the answers, and the roles told, which are not
// printed.
// Answers and roles are two arrays because `Tables::run` fills two, rows and marks because it reads the rows as numbers.
#[derive(Drop)]
struct Room {
    rows: [u32; limits::BATCH_NUMBERS],
    marks: [bool; limits::BATCH],
    answers: [u8; limits::BATCH],
    roles: [u8; limits::BATCH],
}

// The names line; or whole lines of values, as many as a batch takes, and where there is none, the one line that is left. (The piece,
// whether it is the last and the room for output stay the three that a host hands to `run`.)
fn one(mut r: Runner, piece: &[u8], end: bool, out: &mut [u8], room: &mut Room) -> Ran
    requires { r.phase ≢ Heading }
    ensures { Stepped r piece.now end out.old out.new result }
{
    match r.phase {
        Phase::Names => return names_step(r, piece, end, out),
        Phase::Lines => {}
        Phase::Heading | Phase::Over => return idle(r),
    }
    if r.skip {
        return values_step(r, piece, end, out);
    }
    let at = r.at;
    let most = batch::most(r.done, out.len());
    let g = batch::gather(
        piece,
        at,
        most,
        r.bench.shut,
        &mut room.rows,
        &mut room.marks,
    );
    let lines = g.lines;
    if lines == 0 {
        return values_step(r, piece, end, out);
    }
    let n = sizes::ROW * g.count;
    let t = r.bench.tables;
    let next = t.run(&room.rows[..n], &mut room.answers, &mut room.roles);
    let wrote = batch::put_answers(&room.marks, &room.answers, lines, r.done + 1, out);
    r.bench.tables = next;
    r.bench.shut = g.shut;
    r.done = r.done + lines as u32;
    Ran {
        runner: r,
        used: g.used,
        wrote,
    }
}

// A piece, the heading being written.
fn work(r: Runner, piece: &[u8], end: bool, out: &mut [u8]) -> Ran
    requires { r.phase ≢ Heading }
    ensures { Finished r piece.now end out.old out.new result }
{
    let mut room = Room {
        rows: [0; limits::BATCH_NUMBERS],
        marks: [false; limits::BATCH],
        answers: [0; limits::BATCH],
        roles: [0; limits::BATCH],
    };
    let mut held = r;
    let mut at = 0;
    let mut wrote = 0;
    // Step by step until one uses nothing: how many there are, only the steps tell.
    loop {
        let ran = one(held, &piece[at..], end, &mut out[wrote..], &mut room);
        let next = ran.runner;
        held = next;
        at = at + ran.used;
        wrote = wrote + ran.wrote;
        if ran.used == 0 {
            return Ran {
                runner: held,
                used: at,
                wrote,
            };
        }
    }
}

// Works through a piece, as far as whole lines go and the room for their answers. `end` says that no input follows it.
pub fn run(mut r: Runner, piece: &[u8], end: bool, out: &mut [u8]) -> Ran
    ensures { Finished r piece.now end out.old out.new result }
{
    if let Phase::Heading = r.phase {
        if out.len() < limits::LINE_ROOM {
            return idle(r);
        }
        let heading = print::put_heading(out);
        r.phase = Phase::Names;
        let ran = work(r, piece, end, &mut out[heading..]);
        let next = ran.runner;
        return Ran {
            runner: next,
            used: ran.used,
            wrote: heading + ran.wrote,
        };
    }
    work(r, piece, end, out)
}
