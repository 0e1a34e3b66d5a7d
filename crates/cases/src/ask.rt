// Requests: read from a statement, and made both by the method of their name and by `step`.
use crate::call::Call;
use crate::failure::Unread;
use crate::show::Changes;
use crate::words::{self, Words};
use guard::sizes::NO_ROLE;
use guard::{Outcome, Request, Tables};
use std::io;

// What the fields hold that a request does not use, and that are not looked at.
const UNUSED: Request = Request {
    call: u32::MAX,
    seat: u32::MAX,
    user: u32::MAX,
    role: u32::MAX,
    entity: u32::MAX,
    parent: u32::MAX,
    kind: u32::MAX,
    name: u32::MAX,
    grade: u32::MAX,
    cats: u32::MAX,
    rights: u32::MAX,
    shared: u32::MAX,
    junior: u32::MAX,
};

#[derive(Clone, Copy, Debug, PartialEq, Eq)]
pub enum Field {
    Seat,
    User,
    Role,
    Entity,
    Parent,
    Kind,
    Name,
    Grade,
    Cats,
    Rights,
    Shared,
    Junior,
}

impl Field {
    // All but the call, in the order of the record.
    pub const ALL: [Field; 12] = [
        Field::Seat,
        Field::User,
        Field::Role,
        Field::Entity,
        Field::Parent,
        Field::Kind,
        Field::Name,
        Field::Grade,
        Field::Cats,
        Field::Rights,
        Field::Shared,
        Field::Junior,
    ];

    // Those that a request uses, in the order in which a statement has their numbers. One of none of the nineteen has a seat.
    fn used(call: Option<Call>) -> &'static [Field] {
        match call {
            Some(Call::Login) => &[Field::Seat, Field::User, Field::Grade, Field::Cats],
            Some(Call::Logout) | None => &[Field::Seat],
            Some(Call::Take | Call::Drop | Call::Make | Call::Unmake) => &[
                Field::Seat,
                Field::Role,
            ],
            Some(Call::Openr | Call::Openw | Call::Close | Call::Delete) => &[
                Field::Seat,
                Field::Entity,
            ],
            Some(Call::Create) => &[
                Field::Seat,
                Field::Entity,
                Field::Kind,
                Field::Parent,
                Field::Name,
                Field::Grade,
                Field::Cats,
                Field::Role,
            ],
            Some(Call::Rename) => &[Field::Seat, Field::Entity, Field::Name],
            Some(Call::Grant | Call::Revoke) => &[
                Field::Seat,
                Field::Role,
                Field::Entity,
                Field::Rights,
            ],
            Some(Call::List | Call::Unlist) => &[Field::Seat, Field::Role, Field::User],
            Some(Call::Share) => &[Field::Seat, Field::Entity, Field::Shared],
            Some(Call::Join | Call::Unjoin) => &[Field::Seat, Field::Role, Field::Junior],
        }
    }
}

// The request with a number in a field.
pub fn with(mut q: Request, field: Field, n: u32) -> Request {
    match field {
        Field::Seat => q.seat = n,
        Field::User => q.user = n,
        Field::Role => q.role = n,
        Field::Entity => q.entity = n,
        Field::Parent => q.parent = n,
        Field::Kind => q.kind = n,
        Field::Name => q.name = n,
        Field::Grade => q.grade = n,
        Field::Cats => q.cats = n,
        Field::Rights => q.rights = n,
        Field::Shared => q.shared = n,
        Field::Junior => q.junior = n,
    }
    q
}

// The number of a request's word, or a number that stands there: also one of none of the nineteen.
fn call_number(word: &[u8]) -> Result<u32, Unread> {
    match Call::try_from(word) {
        Ok(call) => Ok(call.number()),
        Err(Unread) => words::number(word),
    }
}

// The request that the words are, to the end of the statement.
pub fn read(mut words: Words) -> Result<Request, Unread> {
    let call = call_number(words.word()?)?;
    let mut q = Request { call, ..UNUSED };
    for field in Field::used(Call::of(call)) {
        q = with(q, *field, words.number()?);
    }
    words.end()?;
    Ok(q)
}

fn by_method(t: &Tables, q: Request) -> Outcome {
    let Some(call) = Call::of(q.call) else {
        return t.step(q);
    };
    match call {
        Call::Login => t.login(q.seat, q.user, q.grade, q.cats),
        Call::Logout => t.logout(q.seat),
        Call::Take => t.take(q.seat, q.role),
        Call::Drop => t.drop(q.seat, q.role),
        Call::Openr => t.openr(q.seat, q.entity),
        Call::Openw => t.openw(q.seat, q.entity),
        Call::Close => t.close(q.seat, q.entity),
        Call::Create => t.create(
            q.seat, q.entity, q.kind, q.parent, q.name, q.grade, q.cats, q.role,
        ),
        Call::Delete => t.delete(q.seat, q.entity),
        Call::Rename => t.rename(q.seat, q.entity, q.name),
        Call::Grant => t.grant(q.seat, q.role, q.entity, q.rights),
        Call::Revoke => t.revoke(q.seat, q.role, q.entity, q.rights),
        Call::List => t.list(q.seat, q.role, q.user),
        Call::Unlist => t.unlist(q.seat, q.role, q.user),
        Call::Make => t.make(q.seat, q.role),
        Call::Unmake => t.unmake(q.seat, q.role),
        Call::Share => t.share(q.seat, q.entity, q.shared),
        Call::Join => t.join(q.seat, q.role, q.junior),
        Call::Unjoin => t.unjoin(q.seat, q.role, q.junior),
    }
}

// What `step` hands back. Where the method of the same name hands back anything else, a line says so.
pub fn made(rt: &impl Print, t: &Tables, q: Request) -> io::Result<Outcome> {
    let o = t.step(q);
    let m = by_method(t, q);
    if !(o.answer == m.answer && o.role == m.role && o.tables == m.tables) {
        print!(rt;
            "by the method {}, role {}, ",
            m.answer,
            m.role.unwrap_or(NO_ROLE)
        )?;
        print!(rt; "by step {}, role {};", o.answer, o.role.unwrap_or(NO_ROLE))?;
        println!(rt; "{}", Changes(&o.tables, &m.tables))?;
    }
    Ok(o)
}
