// What is printed.
use crate::record::{self, Kind, Place, Record};
use guard::{Label, Outcome, Tables};
use std::{fmt, io};

// A set of numbers, as `{ 0 12 }`.
#[derive(Clone, Copy)]
struct Set(u64);

impl fmt::Display for Set {
    fn fmt<W: fmt::Write>(&self, f: &mut fmt::Formatter<W>) -> fmt::Result {
        write!(f, "{{ ")?;
        for member in 0..u64::BITS {
            if (self.0 >> member) & 1 == 1 {
                write!(f, "{member} ")?;
            }
        }
        write!(f, "}}")
    }
}

// A label, as `1/3`.
#[derive(Clone, Copy)]
struct Shown(Label);

impl fmt::Display for Shown {
    fn fmt<W: fmt::Write>(&self, f: &mut fmt::Formatter<W>) -> fmt::Result {
        let Label { grade, cats } = self.0;
        write!(f, "{grade}/{cats}")
    }
}

fn mark(live: bool) -> &'static str {
    if live { "live" } else { "dead" }
}

impl fmt::Display for Kind {
    fn fmt<W: fmt::Write>(&self, f: &mut fmt::Formatter<W>) -> fmt::Result {
        f.write_str(match self {
            Kind::Seat => "seat",
            Kind::User => "user",
            Kind::Role => "role",
            Kind::Entity => "entity",
            Kind::Tables => "tables",
        })
    }
}

// The edition has no number.
impl fmt::Display for Place {
    fn fmt<W: fmt::Write>(&self, f: &mut fmt::Formatter<W>) -> fmt::Result {
        let Place { kind, number } = *self;
        match kind {
            Kind::Tables => write!(f, "{kind}"),
            _ => write!(f, "{kind} {number}"),
        }
    }
}

impl fmt::Display for Record {
    fn fmt<W: fmt::Write>(&self, f: &mut fmt::Formatter<W>) -> fmt::Result {
        match self {
            Record::Seat(x) => write!(
                f,
                " {}, user {}, label {}, roles {}, reading {}, writing {}",
                mark(x.live),
                x.user,
                Shown(x.label),
                Set(x.roles.into()),
                Set(x.reading),
                Set(x.writing)
            ),
            Record::User(x) => write!(
                f,
                ", ceiling {}, clearance {}",
                x.ceiling,
                Shown(x.clearance)
            ),
            Record::Role(x) => write!(
                f,
                " {}, users {}, reads {}, writes {}, executes {}, owns {}, juniors {}",
                mark(x.live),
                Set(x.users.into()),
                Set(x.reads),
                Set(x.writes),
                Set(x.executes),
                Set(x.owns),
                Set(x.juniors.into())
            ),
            Record::Entity(x) => write!(
                f,
                " {}, kind {}, parent {}, name {}, label {}, shared {}",
                mark(x.live),
                x.kind,
                x.parent,
                x.name,
                Shown(x.label),
                x.shared
            ),
            Record::Tables(edition) => write!(f, ", edition {edition}"),
        }
    }
}

// The records that differ.
#[derive(Clone, Copy)]
pub struct Differing<'a>(pub &'a Tables, pub &'a Tables);

impl fmt::Display for Differing<'_> {
    fn fmt<W: fmt::Write>(&self, f: &mut fmt::Formatter<W>) -> fmt::Result {
        let Differing(old, new) = *self;
        for kind in Kind::ALL {
            let numbers = record::changed(old, new, kind);
            if numbers != 0 {
                let set = Set(numbers);
                match kind {
                    Kind::Seat => write!(f, " seats {set}")?,
                    Kind::User => write!(f, " users {set}")?,
                    Kind::Role => write!(f, " roles {set}")?,
                    Kind::Entity => write!(f, " entities {set}")?,
                    Kind::Tables => write!(f, " edition")?,
                }
            }
        }
        Ok(())
    }
}

// Whether tables came back as they went in, and if not, the records that differ.
#[derive(Clone, Copy)]
pub struct Changes<'a>(pub &'a Tables, pub &'a Tables);

impl fmt::Display for Changes<'_> {
    fn fmt<W: fmt::Write>(&self, f: &mut fmt::Formatter<W>) -> fmt::Result {
        let Changes(old, new) = *self;
        if old == new {
            write!(f, " kept")
        } else {
            write!(f, " changed{}", Differing(old, new))
        }
    }
}

// A case's name, an answer, and the role where one is told.
pub fn answer(rt: &impl Print, name: &[u8], o: &Outcome) -> io::Result<()> {
    rt.write_all(name)?;
    print!(rt; ": {}", o.answer)?;
    if let Some(role) = o.role {
        print!(rt; " by role {role}")?;
    }
    Ok(())
}
