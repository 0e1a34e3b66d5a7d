// Many lines of values at once: what whole lines ask becomes one batch of requests, the guard runs it with one test of
// soundness, and the answers are written one behind the other, 17 for a line that asks none.
ghost use Rattle.std.specs.Prelude.{◌+◌, ◌*◌, ◌≤◌, ◌≡◌, length, take};
ghost use Rattle.script.specs.Report.{line_room, last_line};
ghost use Rattle.script.specs.Private.Slices.{written, Put};
ghost use Rattle.guard.specs.Batch.{row_of, row_length};
ghost use Rattle.script.specs.Private.LineBatch.{said, texts, is_request, is_allowed, numbers_of, Most, Batched};

use crate::line::Line;
use crate::{limits, line, print};
use guard::{Request, sizes};

// How many requests some lines ask, how many lines these are, how many bytes of input they took, and whether `user` is shut
// out after them.
#[derive(Clone, Copy)]
pub struct Gathered {
    pub count: usize,
    pub lines: usize,
    pub used: usize,
    pub shut: bool,
}

// How many lines fit: into the batch, into the room for output, and before the last line that is read.
pub fn most(done: u32, room: usize) -> usize
    ensures { Most done room result }
{
    let left = limits::LAST_LINE.saturating_sub(done) as usize;
    limits::BATCH.min(room / limits::LINE_ROOM).min(left)
}

// A request as a row of numbers from `at` on, stored one by one: `copy_from_slice` from an array takes 14 instructions a line
// more, past the two per cent that a line may cost more.
fn put_row(q: Request, rows: &mut [u32], at: usize) -> usize
    requires { at + row_length ≤ length rows.old }
    ensures { Put rows.old at (row_of q) rows.new result }
{
    rows[at] = q.call;
    rows[at + 1] = q.seat;
    rows[at + 2] = q.user;
    rows[at + 3] = q.role;
    rows[at + 4] = q.entity;
    rows[at + 5] = q.parent;
    rows[at + 6] = q.kind;
    rows[at + 7] = q.name;
    rows[at + 8] = q.grade;
    rows[at + 9] = q.cats;
    rows[at + 10] = q.rights;
    rows[at + 11] = q.shared;
    rows[at + 12] = q.junior;
    at + sizes::ROW
}

// What a line asks, behind `count` requests; whether it asks one.
#[tactic(auto, unfolding(crate::specs::Private::LineBatch::is_request, crate::specs::Private::LineBatch::numbers_of, crate::specs::Private::Slices::written))]
fn load(l: Option<Line>, rows: &mut [u32], count: usize) -> bool
    requires { row_length * count + row_length ≤ length rows.old }
    ensures { (result ≡ is_request l) × (rows.new ≡ written rows.old (row_length * count) (numbers_of l)) }
{
    match l {
        Some(Line::Ask(q)) => {
            put_row(q, rows, sizes::ROW * count);
            true
        }
        Some(Line::SetUser(_)) => false,
        None => false,
    }
}

// Whether a line is a `user` line that is allowed. Such a line sets a record between two batches.
#[tactic(auto, unfolding(crate::specs::Private::LineBatch::is_allowed))]
fn is_allowed(l: Option<Line>, shut: bool) -> bool
    ensures { result ≡ is_allowed shut l }
{
    match l {
        Some(Line::Ask(_)) => false,
        Some(Line::SetUser(_)) => !shut,
        None => false,
    }
}

// Whole lines from the front of `s`, at most so many, up to a `user` line that is allowed.
pub fn gather(
    s: &[u8],
    at: [u8; limits::PLACES],
    most: usize,
    shut: bool,
    rows: &mut [u32],
    marks: &mut [bool],
) -> Gathered
    requires { (most ≤ length marks.old) × (row_length * most ≤ length rows.old) }
    ensures { Batched at shut s.now most rows.new marks.new result }
{
    let mut shut = shut;
    let mut count = 0;
    let mut used = 0;
    // Tried by `marks[..most].iter_mut().enumerate()`: the proof of the two returns did not close.
    for lines in 0..most {
        let rest = &s[used..];
        let x = line::next(rest, &at);
        let l = x.asked;
        if (rest.len() <= x.len) | is_allowed(l, shut) {
            return Gathered {
                count,
                lines,
                used,
                shut,
            };
        }
        let asks = load(l, rows, count);
        marks[lines] = asks;
        count += usize::from(asks);
        shut = shut | asks;
        used = used + x.len + 1;
    }
    Gathered {
        count,
        lines: most,
        used,
        shut,
    }
}

// The answers to the first `lines` lines, the first of which has number `n`.
pub fn put_answers(marks: &[bool], answers: &[u8], lines: usize, n: u32, out: &mut [u8]) -> usize
    requires { (lines ≤ length marks.now) × (lines ≤ length answers.now) × (line_room * lines ≤ length out.old) × (n + lines ≤ last_line + 1) }
    ensures { Put out.old 0 (texts n (take lines marks.now) answers.now) out.new result }
{
    let mut wrote = 0;
    let mut left = answers.iter();
    let mut k = print::numeral_of(n);
    for &asks in &marks[..lines] {
        let next = if asks { left.next() } else { None };
        let a = *next.unwrap_or(&limits::UNREAD);
        wrote += print::put_line(k, a, &mut out[wrote..]);
        k = print::after(k);
    }
    wrote
}
