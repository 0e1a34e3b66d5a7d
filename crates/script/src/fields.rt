// The fields of a row, taken apart in the order of the names.
ghost use Rattle.std.specs.Prelude.{◌-◌, ◌<◌, ◌≤◌, ◌≡◌, [], Some, MatchOption};
ghost use Rattle.bitset.specs.Sets.{has};
ghost use Rattle.script.specs.Line.{Numbers, these, used, asks};
ghost use Rattle.script.specs.Private.Rows.{no_word, field_count, taken_as, take_from, ahead, members};

use crate::limits;
use crate::line::{Line, UserRecord};
use bitset::Set;
use guard::Request;

// The first six fields behind `call`.
#[derive(Clone, Copy)]
pub struct Six {
    pub seat: u32,
    pub user: u32,
    pub role: u32,
    pub entity: u32,
    pub parent: u32,
    pub kind: u32,
}

// For each word the fields that it uses: bit i is the i-th name, `call` being 0, so from the right none, seat, user, role,
// entity, parent, kind, name, level, cats, rights, ceiling, shared, junior.
const USES: [u16; limits::WORDS] = [
    0b00101100000100, // user
    0b00001100000110, // login
    0b00000000000010, // logout
    0b00000000001010, // take
    0b00000000001010, // drop
    0b00000000010010, // openr
    0b00000000010010, // openw
    0b00000000010010, // close
    0b00001111111010, // create
    0b00000000010010, // delete
    0b00000010010010, // rename
    0b00010000011010, // grant
    0b00010000011010, // revoke
    0b00000000001110, // list
    0b00000000001110, // unlist
    0b00000000001010, // make
    0b00000000001010, // unmake
    0b01000000010010, // share
    0b10000000001010, // join
    0b10000000001010, // unjoin
];

// The fields that a word uses, if it is a word.
pub fn uses(word: u32) -> Option<u16>
    ensures { MatchOption result (no_word ≤ word) (λ uses. (word < no_word) × (members uses 1 field_count ≡ used word)) }
{
    USES.get(word as usize).copied()
}

// A field i that the word uses must be a number, and any other a dash, which stands as 0; else it has a fault.
fn field(n: u32, given: u16, uses: u16, i: u32) -> Option<u32>
    ensures { result ≡ taken_as (has uses i) (has given i) n }
{
    let used = uses.has(i);
    let number = given.has(i);
    if used & !number {
        return None;
    }
    if number & !used {
        return None;
    }
    Some(n)
}

// Each of the two takes the row as it stands, its numbers, which of them were given and which are used: a record of the three would be
// made for these two calls alone.
// The first six fields, unless one of them has a fault. A rule of the project: each field's answer is taken apart by `let .. else`.
pub fn first(vals: &[u32; limits::PLACES], given: u16, uses: u16) -> Option<Six>
    ensures { (rest : Numbers) → take_from uses given vals.now 1 6 rest ≡ ahead result rest }
{
    let Some(seat) = field(vals[1], given, uses, 1) else {
        return None;
    };
    let Some(user) = field(vals[2], given, uses, 2) else {
        return None;
    };
    let Some(role) = field(vals[3], given, uses, 3) else {
        return None;
    };
    let Some(entity) = field(vals[4], given, uses, 4) else {
        return None;
    };
    let Some(parent) = field(vals[5], given, uses, 5) else {
        return None;
    };
    let Some(kind) = field(vals[6], given, uses, 6) else {
        return None;
    };
    Some(Six {
        seat,
        user,
        role,
        entity,
        parent,
        kind,
    })
}

// The others, and what the line asks, unless one of them has a fault.
pub fn second(
    word: u32,
    six: Six,
    vals: &[u32; limits::PLACES],
    given: u16,
    uses: u16,
) -> Option<Line>
    ensures { result ≡ asks word (ahead (Some six) (take_from uses given vals.now 7 (field_count - 6) (these []))) }
{
    let Some(name) = field(vals[7], given, uses, 7) else {
        return None;
    };
    let Some(level) = field(vals[8], given, uses, 8) else {
        return None;
    };
    let Some(cats) = field(vals[9], given, uses, 9) else {
        return None;
    };
    let Some(rights) = field(vals[10], given, uses, 10) else {
        return None;
    };
    let Some(ceiling) = field(vals[11], given, uses, 11) else {
        return None;
    };
    let Some(shared) = field(vals[12], given, uses, 12) else {
        return None;
    };
    let Some(junior) = field(vals[13], given, uses, 13) else {
        return None;
    };
    if word == limits::USER {
        return Some(Line::SetUser(UserRecord {
            user: six.user,
            level,
            cats,
            ceiling,
        }));
    }
    Some(Line::Ask(Request {
        call: word - 1,
        seat: six.seat,
        user: six.user,
        role: six.role,
        entity: six.entity,
        parent: six.parent,
        kind: six.kind,
        name,
        grade: level,
        cats,
        rights,
        shared,
        junior,
    }))
}
