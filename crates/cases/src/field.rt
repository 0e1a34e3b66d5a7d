// The fields of records: their words, and the numbers in them.
use crate::failure::Unread;
use crate::words;
use guard::{Entity, Role, Session, User};

#[derive(Clone, Copy, Debug, PartialEq, Eq)]
pub enum Field {
    Live,
    User,
    Grade,
    Cats,
    Roles,
    Reading,
    Writing,
    Ceiling,
    Users,
    Reads,
    Writes,
    Executes,
    Owns,
    Juniors,
    Kind,
    Parent,
    Name,
    Shared,
    Edition,
    // What stands behind a record's last field: its word is a dash, and it holds 0.
    Dash,
}

// A field's number in a record. A set is its number, a live mark is 1.
#[derive(Drop)]
pub enum Slot<'a> {
    Mark(&'a mut bool),
    Byte(&'a mut u8),
    Pair(&'a mut u16),
    Set(&'a mut u64),
    Zero,
}

impl TryFrom<&[u8]> for Field {
    type Error = Unread;

    fn try_from(word: &[u8]) -> Result<Field, Unread> {
        match words::name(word) {
            b"live" => Ok(Field::Live),
            b"user" => Ok(Field::User),
            b"grade" => Ok(Field::Grade),
            b"cats" => Ok(Field::Cats),
            b"roles" => Ok(Field::Roles),
            b"reading" => Ok(Field::Reading),
            b"writing" => Ok(Field::Writing),
            b"ceiling" => Ok(Field::Ceiling),
            b"users" => Ok(Field::Users),
            b"reads" => Ok(Field::Reads),
            b"writes" => Ok(Field::Writes),
            b"executes" => Ok(Field::Executes),
            b"owns" => Ok(Field::Owns),
            b"juniors" => Ok(Field::Juniors),
            b"kind" => Ok(Field::Kind),
            b"parent" => Ok(Field::Parent),
            b"name" => Ok(Field::Name),
            b"shared" => Ok(Field::Shared),
            b"edition" => Ok(Field::Edition),
            b"-" => Ok(Field::Dash),
            _ => Err(Unread),
        }
    }
}

impl Slot<'_> {
    pub fn number(self) -> u64 {
        match self {
            Slot::Mark(x) => u64::from(*x),
            Slot::Byte(x) => u64::from(*x),
            Slot::Pair(x) => u64::from(*x),
            Slot::Set(x) => *x,
            Slot::Zero => 0,
        }
    }

    // A number that it does not hold whole could not be read.
    pub fn put(self, n: u64) -> Result<(), Unread> {
        match self {
            Slot::Mark(x) if n < 2 => *x = n == 1,
            Slot::Byte(x) => *x = u8::try_from(n)?,
            Slot::Pair(x) => *x = u16::try_from(n)?,
            Slot::Set(x) => *x = n,
            Slot::Zero if n == 0 => {}
            _ => return Err(Unread),
        }
        Ok(())
    }
}

// A record, of which each field has a slot.
pub trait Fields {
    fn slot(&mut self, field: Field) -> Slot<'_>;
}

impl Fields for Session {
    fn slot(&mut self, field: Field) -> Slot<'_> {
        match field {
            Field::Live => Slot::Mark(&mut self.live),
            Field::User => Slot::Byte(&mut self.user),
            Field::Grade => Slot::Byte(&mut self.label.grade),
            Field::Cats => Slot::Pair(&mut self.label.cats),
            Field::Roles => Slot::Pair(&mut self.roles),
            Field::Reading => Slot::Set(&mut self.reading),
            Field::Writing => Slot::Set(&mut self.writing),
            _ => Slot::Zero,
        }
    }
}

impl Fields for User {
    fn slot(&mut self, field: Field) -> Slot<'_> {
        match field {
            Field::Ceiling => Slot::Byte(&mut self.ceiling),
            Field::Grade => Slot::Byte(&mut self.clearance.grade),
            Field::Cats => Slot::Pair(&mut self.clearance.cats),
            _ => Slot::Zero,
        }
    }
}

impl Fields for Role {
    fn slot(&mut self, field: Field) -> Slot<'_> {
        match field {
            Field::Live => Slot::Mark(&mut self.live),
            Field::Users => Slot::Pair(&mut self.users),
            Field::Reads => Slot::Set(&mut self.reads),
            Field::Writes => Slot::Set(&mut self.writes),
            Field::Executes => Slot::Set(&mut self.executes),
            Field::Owns => Slot::Set(&mut self.owns),
            Field::Juniors => Slot::Pair(&mut self.juniors),
            _ => Slot::Zero,
        }
    }
}

impl Fields for Entity {
    fn slot(&mut self, field: Field) -> Slot<'_> {
        match field {
            Field::Live => Slot::Mark(&mut self.live),
            Field::Kind => Slot::Byte(&mut self.kind),
            Field::Parent => Slot::Byte(&mut self.parent),
            Field::Name => Slot::Pair(&mut self.name),
            Field::Grade => Slot::Byte(&mut self.label.grade),
            Field::Cats => Slot::Pair(&mut self.label.cats),
            Field::Shared => Slot::Byte(&mut self.shared),
            _ => Slot::Zero,
        }
    }
}
