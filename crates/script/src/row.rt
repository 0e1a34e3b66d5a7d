// The values of a line, one space apart, each stored under its name.
ghost use Rattle.std.specs.Prelude.{◌+◌, ◌*◌, ◌≤◌, ◌<◌, ◌≡◌, true, eqb, length, get_or};
ghost use Rattle.script.specs.Text.{bytes, same};
ghost use Rattle.script.specs.Names.{place_count};
ghost use Rattle.script.specs.Private.Slices.{before};
ghost use Rattle.script.specs.Private.Rows.{blank, word_value, IsFound, fills, IsRow};

use crate::line::Value;
use crate::{digit, limits, text};
use bitset::Set;

// A value found, where it ends, and whether a space stands there. Under `call` a word counts as digits, those of its place.
#[derive(Clone, Copy)]
pub struct Found {
    pub value: Value,
    pub end: usize,
    pub more: bool,
}

// A row: where the line has as many values as there are names, and each is a number or a dash, the set of the names whose
// value is a number. `len` is the line's length.
#[derive(Clone, Copy)]
pub struct Row {
    pub given: Option<u16>,
    pub len: usize,
}

// Two bytes as one number, the first one lower.
fn pair(s: &[u8], from: usize) -> u64
    requires { from + 1 < length s.now }
    ensures { (result ≡ get_or s.now from 0 + 256 * get_or s.now (from + 1) 0) × (get_or s.now from 0 < 256) }
{
    let a = text::byte(s, from);
    let b = text::byte(s, from + 1);
    a + (b << 8)
}

fn is_space(s: &[u8], at: usize) -> bool
    ensures { result ≡ eqb (get_or s.now at 0) 32 }
{
    s.get(at) == Some(&b' ')
}

fn is_digit(b: u64) -> bool
    ensures { result ≡ true → (48 ≤ b) × (b ≤ 57) }
{
    (48 <= b) & (b <= 57)
}

// Whether a value is a dash.
fn is_dash(v: &[u8]) -> bool
    ensures { result ≡ same v.now (bytes "-") }
{
    v == b"-".as_slice()
}

// A value under `call`.
fn word(v: &[u8]) -> Value
    ensures { result ≡ word_value v.now }
{
    if is_dash(v) {
        return Value::Dash;
    }
    match text::word_at(v) {
        Some(place) => Value::Digits(place),
        None => Value::Other,
    }
}

// The value at `from`, under the name `i`: any one, up to a space, byte 10 or the end.
fn any_at(s: &[u8], from: usize, i: u32) -> Found
    requires { from ≤ length s.now }
    ensures { IsFound i s.now from result }
{
    let rest = &s[from..];
    let e = text::span(rest);
    let end = from + e;
    let more = is_space(s, end);
    let v = &rest[..e];
    if i == 0 {
        let value = word(v);
        return Found { value, end, more };
    }
    let value = text::value(v);
    Found { value, end, more }
}

// The same, with a shorter way for what stands there most often: a word, a number of one or two digits, a last dash.
fn value_at(s: &[u8], from: usize, i: u32) -> Found
    requires { from ≤ length s.now }
    ensures { IsFound i s.now from result }
{
    if i == 0 {
        if from + 6 < s.len() {
            if let Some(w) = text::word_from(s, from) {
                return Found {
                    value: Value::Digits(w.word),
                    end: from + w.len,
                    more: true,
                };
            }
        }
    } else if from + 2 < s.len() {
        let a = text::byte(s, from);
        if is_digit(a) {
            let n = digit::append(0, (a - 48) as u32);
            let b = text::byte(s, from + 1);
            if b == 32 {
                return Found {
                    value: Value::Digits(n),
                    end: from + 1,
                    more: true,
                };
            }
            if is_digit(b) {
                if s[from + 2] == 32 {
                    let n = digit::append(n, (b - 48) as u32);
                    return Found {
                        value: Value::Digits(n),
                        end: from + 2,
                        more: true,
                    };
                }
            }
        }
        if pair(s, from) == 0x0a2d {
            // a dash and byte 10
            return Found {
                value: Value::Dash,
                end: from + 1,
                more: false,
            };
        }
    }
    any_at(s, from, i)
}

// Whether `j` is the last place with a name.
#[tactic(auto, unfolding(crate::specs::Private::Rows::fills))]
fn is_last(at: &[u8; limits::PLACES], j: usize) -> bool
    requires { j + 1 < place_count }
    ensures { result ≡ fills at.now (j + 1) }
{
    (at[j] % limits::PLACE_COUNT != limits::NO_NAME)
        & (at[j + 1] % limits::PLACE_COUNT == limits::NO_NAME)
}

// The numbers and the set of those that were given stand apart: as one array of Options a line took 4 to 5 % more instructions, built
// without proof.
// The row of the line at the front of `s`, in one pass. A dash leaves the row as it is. The numbers that a good line of
// names puts in `at` are below 16; the remainder keeps any other in the row.
pub fn read_row(s: &[u8], at: &[u8; limits::PLACES], vals: &mut [u32; limits::PLACES]) -> Row
    requires { vals.old ≡ blank }
    ensures { IsRow at.now (before 10 s.now) vals.new result }
{
    let mut given = 0u16;
    let mut from = 0;
    let mut j = 0;
    // No `for j in 0..limits::LAST_PLACE`: with it a line takes 5 to 8 % more instructions.
    loop {
        if from + 2 < s.len() {
            if pair(s, from) == 0x202d {
                // a dash and a space
                from += 2;
                j += 1;
                continue;
            }
        }
        if limits::LAST_PLACE <= j {
            return Row {
                given: None,
                len: text::end_of(s, from),
            };
        }
        let i = (at[j] % limits::PLACE_COUNT) as u32;
        let found = value_at(s, from, i);
        let end = found.end;
        // Two arms go on by themselves: with one way on for both a line takes more instructions.
        match found.value {
            Value::Digits(n) => {
                vals[i as usize] = n;
                given = given.with(i);
                if found.more {
                    from = end + 1;
                    j += 1;
                    continue;
                }
            }
            Value::Dash => {
                if found.more {
                    from = end + 1;
                    j += 1;
                    continue;
                }
            }
            Value::Other => {
                return Row {
                    given: None,
                    len: text::end_of(s, end),
                };
            }
        }
        return Row {
            given: is_last(at, j).then_some(given),
            len: end,
        };
    }
}
