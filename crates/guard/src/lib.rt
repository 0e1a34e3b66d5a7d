// The access guard of a shared timing bench: its tables, by value.
//
// The records below hold the papers' tables, and a request as a host hands it in. What they mean, which tables are
// sound, what each request answers and how it changes the tables is said by the definitions in specs/, in the paper's
// order. Sets are bit sets: member `i` is bit `i` (crate `bitset`). No record of the tables holds an enum or a reference. Tables
// of the old width, with a set of eight categories, have records of their own (`old`).
#![tactic(auto)]

mod apply;
mod backing;
mod change;
mod entities;
mod firm;
mod fresh;
mod giver;
mod judge;
pub mod kinds;
mod labels;
mod look;
mod members;
mod methods;
pub mod old;
mod opens;
mod refusal;
mod roles;
mod rows;
mod run;
mod scan;
mod sessions;
pub mod sizes;
mod sound;
mod step;
mod view;

use sizes::{ENTITIES, ROLES, SESSIONS, USERS};

// Label: a confidentiality grade, 0 to 3, and a set of sixteen categories.
#[derive(Clone, Copy, PartialEq, Eq, Default)]
pub struct Label {
    pub cats: u16,
    pub grade: u8,
}

// User: the highest level that its sessions may have, 0 to 3, and its clearance.
#[derive(Clone, Copy, PartialEq, Eq, Default)]
pub struct User {
    pub ceiling: u8,
    pub clearance: Label,
}

// Session (the paper's seat): whose it is, the roles that it holds, the entities that it has open for reading and for
// writing.
#[derive(Clone, Copy, PartialEq, Eq, Default)]
pub struct Session {
    pub live: bool,
    pub user: u8,
    pub label: Label,
    pub roles: u16,
    pub reading: u64,
    pub writing: u64,
}

// Role: the users that it lists, its direct juniors, and for each right, read, write, execute and own, the entities on which its
// record has it. Records are laid out in the order of their fields: in front of the sets of entities the juniors take no room.
#[derive(Clone, Copy, PartialEq, Eq, Default)]
pub struct Role {
    pub live: bool,
    pub users: u16,
    pub juniors: u16,
    pub reads: u64,
    pub writes: u64,
    pub executes: u64,
    pub owns: u64,
}

// Entity: an object (kind 0) or a container (kind 1), with the number of its parent, its mark (1 for a shared container, else 0),
// its name and its label. Records are laid out in the order of their fields: in front of the name the mark takes no room.
#[derive(Clone, Copy, PartialEq, Eq, Default)]
pub struct Entity {
    pub live: bool,
    pub kind: u8,
    pub parent: u8,
    pub shared: u8,
    pub name: u16,
    pub label: Label,
}

// The tables, and their edition: 1, or 2, in which a session may read what is below its level. No request changes it.
#[derive(Clone, Copy, PartialEq, Eq)]
pub struct Tables {
    pub users: [User; USERS],
    pub sessions: [Session; SESSIONS],
    pub roles: [Role; ROLES],
    pub entities: [Entity; ENTITIES],
    pub edition: u8,
}

// One request, in fields wide enough for every number that a host may pass. `call` is the request's number: 0 to 18 in
// the order in which the papers list the nineteen. `grade` and `cats` are the label asked for, `shared` is the mark; join and unjoin
// have the senior in `role`.
// A field that the request does not use may hold anything.
#[derive(Clone, Copy, PartialEq, Eq, Default)]
pub struct Request {
    pub call: u32,
    pub seat: u32,
    pub user: u32,
    pub role: u32,
    pub entity: u32,
    pub parent: u32,
    pub kind: u32,
    pub name: u32,
    pub grade: u32,
    pub cats: u32,
    pub rights: u32,
    pub shared: u32,
    pub junior: u32,
}

// What a request hands back: the tables after it; its answer, 0 done, or the number of the refusal; and beside the 0 of openr and
// openw the lowest-numbered role held that gives the right on the entity. All else tells none. The answer is a number, no Result: the
// promise of `step` is of the number, which `run` stores and the isolation rule compares.
#[derive(Clone, Copy)]
pub struct Outcome {
    pub tables: Tables,
    pub answer: u8,
    pub role: Option<u8>,
}
