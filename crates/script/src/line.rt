// What stands in a line.
ghost use Rattle.std.specs.Prelude.{ℕ, ◌≡◌, List, length};
ghost use Rattle.script.specs.Line.{read_line};
ghost use Rattle.script.specs.Private.Slices.{before};
ghost use Rattle.script.specs.Names.{Ordered};
ghost use Rattle.script.specs.Private.Rows.{blank, IsRow};

use crate::row::Row;
use crate::{fields, limits, row};
use guard::Request;

// A value: 1 to 5 decimal digits, a dash, or anything else.
#[derive(Clone, Copy)]
pub enum Value {
    Digits(u32),
    Dash,
    Other,
}

// A user's record as a line gives it: the grade and the categories of the user's clearance, and the ceiling.
#[derive(Clone, Copy)]
pub struct UserRecord {
    pub user: u32,
    pub level: u32,
    pub cats: u32,
    pub ceiling: u32,
}

// What a line asks: a request, or that a user's record be set.
#[derive(Clone, Copy)]
pub enum Line {
    Ask(Request),
    SetUser(UserRecord),
}

// What the first line of some input asks, if it can be read, and its length.
#[derive(Clone, Copy)]
pub struct Front {
    pub asked: Option<Line>,
    pub len: usize,
}

// The row of no values: no word, and 0 under each other name.
#[tactic(auto, unfolding(crate::specs::Private::Rows::blank))]
fn empty() -> [u32; limits::PLACES]
    ensures { result ≡ blank }
{
    let mut vals = [0u32; limits::PLACES];
    vals[0] = limits::NO_WORD;
    vals
}

// What the line of a row asks, if it can be read.
fn asked(row: Row, vals: &[u32; limits::PLACES]) -> Option<Line>
    ensures { (h : List (List ℕ)) (at l : List ℕ) → Ordered h at → IsRow at l vals.now row → result ≡ read_line h l }
{
    let given = row.given?;
    if limits::LONGEST < row.len {
        return None;
    }
    let word = vals[0];
    let uses = fields::uses(word)?;
    let six = fields::first(vals, given, uses)?;
    fields::second(word, six, vals, given, uses)
}

// The line at the front of `s`, up to byte 10 or the end, under a good header.
pub fn next(s: &[u8], at: &[u8; limits::PLACES]) -> Front
    ensures { (result.len ≡ length (before 10 s.now)) × ((h : List (List ℕ)) → Ordered h at.now → result.asked ≡ read_line h (before 10 s.now)) }
{
    let mut vals = empty();
    let row = row::read_row(s, at, &mut vals);
    let len = row.len;
    let l = asked(row, &vals);
    Front { asked: l, len }
}
