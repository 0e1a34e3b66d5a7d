// Bytes: where a delimiter stands, and what a value, a name and a word are.
ghost use Rattle.std.specs.Prelude.{◌+◌, ◌<◌, ◌≤◌, ◌≡◌, length, get_or, take, drop, IfSome};
ghost use Rattle.script.specs.Names.{all_names};
ghost use Rattle.script.specs.Line.{value_of, words};
ghost use Rattle.script.specs.Private.Slices.{before, leading};
ghost use Rattle.script.specs.Private.ShortTexts.{text_key, four_from, four_end, five_end, place_in, word_of, Begins};

use crate::line::Value;
use crate::{digit, limits};

// Where the first byte `d` stands, or the length.
pub fn find(s: &[u8], d: u8) -> usize
    ensures { result ≡ length (before d s.now) }
{
    s.iter().position(|&b| b == d).unwrap_or(s.len())
}

// Where the first value ends: before a space, byte 10 or the end.
pub fn span(s: &[u8]) -> usize
    ensures { result ≡ length (leading s.now) }
{
    // Most bytes are above both, and one comparison tells it. By `position` each byte is compared with the two, a quarter more instructions
    // for a long value.
    for (i, &b) in s.iter().enumerate() {
        if b' ' < b {
            continue;
        }
        if b == b' ' {
            return i;
        }
        if b == b'\n' {
            return i;
        }
    }
    s.len()
}

// Where the line ends that goes on at `from`.
pub fn end_of(s: &[u8], from: usize) -> usize
    requires { from ≤ length s.now }
    ensures { result ≡ from + length (before 10 (drop from s.now)) }
{
    let e = find(&s[from..], 10);
    from + e
}

// A value of a line.
pub fn value(s: &[u8]) -> Value
    ensures { result ≡ value_of s.now }
{
    if s.len() == 0 {
        return Value::Other;
    }
    if 5 < s.len() {
        return Value::Other;
    }
    if s[0] == b'-' {
        if s.len() == 1 {
            return Value::Dash;
        }
        return Value::Other;
    }
    let mut n: u32 = 0;
    for &b in s {
        if b < b'0' {
            return Value::Other;
        }
        if b'9' < b {
            return Value::Other;
        }
        n = digit::append(n, u32::from(b) - 48);
    }
    Value::Digits(n)
}

// A text of at most seven bytes as one number, 1 and behind it the bytes; 0 for a longer text.
fn key(s: &[u8]) -> u64
    ensures { result ≡ text_key s.now }
{
    if 7 < s.len() {
        return 0;
    }
    let mut k: u64 = 1;
    for &b in s {
        k = 256 * k + u64::from(b);
    }
    k
}

// Which of the names it is, if it is one.
// The numbers are places in the list of names, since the definitions (`column`) are of places.
pub fn name_at(s: &[u8]) -> Option<u8>
    ensures { result ≡ place_in s.now all_names }
{
    let k = key(s);
    match k {
        0x1_63616c6c => Some(0), // call
        0x1_73656174 => Some(1), // seat
        0x1_75736572 => Some(2), // user
        0x1_726f6c65 => Some(3), // role
        0x1_656e74697479 => Some(4), // entity
        0x1_706172656e74 => Some(5), // parent
        0x1_6b696e64 => Some(6), // kind
        0x1_6e616d65 => Some(7), // name
        0x1_6c6576656c => Some(8), // level
        0x1_63617473 => Some(9), // cats
        0x1_726967687473 => Some(10), // rights
        0x1_6365696c696e67 => Some(11), // ceiling
        0x1_736861726564 => Some(12), // shared
        0x1_6a756e696f72 => Some(13), // junior
        _ => None,
    }
}

// Which of the words has the key, if one has it: `user`, or one more than the request's number. The words have four to six bytes. A match
// over all of them would be called by the reader of a row; one for each length is short enough to stand in it (docs/DECISIONS D47).
// The numbers are places in the list of words, since the definitions (`column`, `call_of`) are of places.
fn word_of_four(k: u64) -> Option<u32>
    requires { k < four_end }
    ensures { result ≡ word_of k }
{
    match k {
        0x1_75736572 => Some(limits::USER), // user
        0x1_74616b65 => Some(3), // take
        0x1_64726f70 => Some(4), // drop
        0x1_6c697374 => Some(13), // list
        0x1_6d616b65 => Some(15), // make
        0x1_6a6f696e => Some(18), // join
        _ => None,
    }
}

fn word_of_five(k: u64) -> Option<u32>
    requires { (four_end ≤ k) × (k < five_end) }
    ensures { result ≡ word_of k }
{
    match k {
        0x1_6c6f67696e => Some(1), // login
        0x1_6f70656e72 => Some(5), // openr
        0x1_6f70656e77 => Some(6), // openw
        0x1_636c6f7365 => Some(7), // close
        0x1_6772616e74 => Some(11), // grant
        0x1_7368617265 => Some(17), // share
        _ => None,
    }
}

fn word_of_six(k: u64) -> Option<u32>
    requires { five_end ≤ k }
    ensures { result ≡ word_of k }
{
    match k {
        0x1_6c6f676f7574 => Some(2), // logout
        0x1_637265617465 => Some(8), // create
        0x1_64656c657465 => Some(9), // delete
        0x1_72656e616d65 => Some(10), // rename
        0x1_7265766f6b65 => Some(12), // revoke
        0x1_756e6c697374 => Some(14), // unlist
        0x1_756e6d616b65 => Some(16), // unmake
        0x1_756e6a6f696e => Some(19), // unjoin
        _ => None,
    }
}

// Which of the words it is, if it is one.
pub fn word_at(s: &[u8]) -> Option<u32>
    ensures { result ≡ place_in s.now words }
{
    let k = key(s);
    if k < limits::FOUR_END {
        return word_of_four(k);
    }
    if k < limits::FIVE_END {
        return word_of_five(k);
    }
    word_of_six(k)
}

// The byte there.
pub fn byte(s: &[u8], at: usize) -> u64
    requires { at < length s.now }
    ensures { (result ≡ get_or s.now at 0) × (result < 256) }
{
    s[at] as u64
}

// The key of four bytes.
fn key4(s: &[u8], from: usize) -> u64
    requires { from + 3 < length s.now }
    ensures { (result ≡ text_key (take 4 (drop from s.now))) × (four_from ≤ result) × (result < four_end) }
{
    let a = byte(s, from);
    let b = byte(s, from + 1);
    let c = byte(s, from + 2);
    let d = byte(s, from + 3);
    256 * (256 * (256 * (256 + a) + b) + c) + d
}

// A word and its length.
#[derive(Clone, Copy)]
pub struct Short {
    pub word: u32,
    pub len: usize,
}

// The word at `from`, if one stands there with a space behind it.
pub fn word_from(s: &[u8], from: usize) -> Option<Short>
    requires { from + 6 < length s.now }
    ensures { IfSome result (λ w. Begins (drop from s.now) w.word w.len) }
{
    let k4 = key4(s, from);
    let a = byte(s, from + 4);
    if a == 32 {
        let word = word_of_four(k4)?;
        return Some(Short { word, len: 4 });
    }
    let k5 = 256 * k4 + a;
    let b = byte(s, from + 5);
    if b == 32 {
        let word = word_of_five(k5)?;
        return Some(Short { word, len: 5 });
    }
    let k6 = 256 * k5 + b;
    let c = byte(s, from + 6);
    if c == 32 {
        let word = word_of_six(k6)?;
        return Some(Short { word, len: 6 });
    }
    None
}
