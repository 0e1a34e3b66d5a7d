// Records by kind and number. What the tables hold beside their records, the edition, is a record of its own.
use crate::failure::Unread;
use crate::field::{Field, Fields, Slot};
use crate::words::{self, Words};
use guard::{Entity, Role, Session, Tables, User};
use std::array;

#[derive(Clone, Copy, Debug, PartialEq, Eq)]
pub enum Kind {
    Seat,
    User,
    Role,
    Entity,
    Tables,
}

// Where a record is.
#[derive(Clone, Copy)]
pub struct Place {
    pub kind: Kind,
    pub number: usize,
}

#[derive(Clone, Copy)]
pub enum Record {
    Seat(Session),
    User(User),
    Role(Role),
    Entity(Entity),
    Tables(u8),
}

impl TryFrom<&[u8]> for Kind {
    type Error = Unread;

    fn try_from(word: &[u8]) -> Result<Kind, Unread> {
        match words::name(word) {
            b"seat" => Ok(Kind::Seat),
            b"user" => Ok(Kind::User),
            b"role" => Ok(Kind::Role),
            b"entity" => Ok(Kind::Entity),
            b"tables" => Ok(Kind::Tables),
            _ => Err(Unread),
        }
    }
}

// A kind's fields, and dashes behind them.
fn with_dashes(fields: &[Field]) -> [Field; 8] {
    array::from_fn(|i| fields.get(i).copied().unwrap_or(Field::Dash))
}

impl Kind {
    pub const ALL: [Kind; 5] = [
        Kind::Seat,
        Kind::User,
        Kind::Role,
        Kind::Entity,
        Kind::Tables,
    ];

    // The fields of its records, in the order in which a statement has their numbers.
    pub fn fields(self) -> [Field; 8] {
        with_dashes(match self {
            Kind::Seat => &[
                Field::Live,
                Field::User,
                Field::Grade,
                Field::Cats,
                Field::Roles,
                Field::Reading,
                Field::Writing,
            ],
            Kind::User => &[Field::Ceiling, Field::Grade, Field::Cats],
            Kind::Role => &[
                Field::Live,
                Field::Users,
                Field::Reads,
                Field::Writes,
                Field::Executes,
                Field::Owns,
                Field::Juniors,
            ],
            Kind::Entity => &[
                Field::Live,
                Field::Kind,
                Field::Parent,
                Field::Name,
                Field::Grade,
                Field::Cats,
                Field::Shared,
            ],
            Kind::Tables => &[Field::Edition],
        })
    }
}

impl Place {
    // `KIND NUMBER`
    pub fn read(words: &mut Words) -> Result<Place, Unread> {
        let kind = Kind::try_from(words.word()?)?;
        let number = words.number()?;
        Ok(Place { kind, number })
    }

    pub fn record(self, t: &Tables) -> Option<Record> {
        let i = self.number;
        match self.kind {
            Kind::Seat => t.sessions.get(i).map(|x| Record::Seat(*x)),
            Kind::User => t.users.get(i).map(|x| Record::User(*x)),
            Kind::Role => t.roles.get(i).map(|x| Record::Role(*x)),
            Kind::Entity => t.entities.get(i).map(|x| Record::Entity(*x)),
            Kind::Tables => (i == 0).then_some(Record::Tables(t.edition)),
        }
    }
}

// Puts a record in the place of that of its number.
fn replace<T: Copy>(records: &mut [T], i: usize, x: T) {
    if let Some(old) = records.get_mut(i) {
        *old = x;
    }
}

impl Fields for Record {
    fn slot(&mut self, field: Field) -> Slot<'_> {
        match self {
            Record::Seat(x) => x.slot(field),
            Record::User(x) => x.slot(field),
            Record::Role(x) => x.slot(field),
            Record::Entity(x) => x.slot(field),
            Record::Tables(edition) => match field {
                Field::Edition => Slot::Byte(edition),
                _ => Slot::Zero,
            },
        }
    }
}

impl Record {
    pub fn number(mut self, field: Field) -> u64 {
        self.slot(field).number()
    }

    pub fn put(&mut self, field: Field, n: u64) -> Result<(), Unread> {
        self.slot(field).put(n)
    }

    pub fn store(self, t: &mut Tables, i: usize) {
        match self {
            Record::Seat(x) => replace(&mut t.sessions, i, x),
            Record::User(x) => replace(&mut t.users, i, x),
            Record::Role(x) => replace(&mut t.roles, i, x),
            Record::Entity(x) => replace(&mut t.entities, i, x),
            Record::Tables(edition) => t.edition = edition,
        }
    }
}

// The numbers of the records that differ.
fn differing<T: PartialEq>(old: &[T], new: &[T]) -> u64 {
    old.iter()
        .zip(new)
        .rev()
        .fold(0, |set, (x, y)| set << 1 | u64::from(x != y))
}

// The numbers of a kind's records that differ.
pub fn changed(old: &Tables, new: &Tables, kind: Kind) -> u64 {
    match kind {
        Kind::Seat => differing(&old.sessions, &new.sessions),
        Kind::User => differing(&old.users, &new.users),
        Kind::Role => differing(&old.roles, &new.roles),
        Kind::Entity => differing(&old.entities, &new.entities),
        Kind::Tables => u64::from(old.edition != new.edition),
    }
}
