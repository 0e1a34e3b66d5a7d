// Tables of the old width, in which a set of categories has eight bits, and taking them over.
ghost use Rattle.std.specs.Prelude.{◌≡◌, map};
ghost use Rattle.guard.specs.Old.{label_taken, user_taken, session_taken, role_taken, entity_taken, taken_over};

use crate::sizes::{EDITION_1, ENTITIES, ROLES, SESSIONS, USERS};
use crate::{Entity, Label, Role, Session, Tables, User};
use std::array;

// The records that hold a label, and roles, which had no juniors. All else in them is as in `User`, `Session`, `Role`, `Entity` and
// `Tables`.
#[derive(Clone, Copy)]
pub struct OldLabel {
    pub cats: u8,
    pub grade: u8,
}

#[derive(Clone, Copy)]
pub struct OldUser {
    pub ceiling: u8,
    pub clearance: OldLabel,
}

#[derive(Clone, Copy)]
pub struct OldSession {
    pub live: bool,
    pub user: u8,
    pub label: OldLabel,
    pub roles: u16,
    pub reading: u64,
    pub writing: u64,
}

#[derive(Clone, Copy)]
pub struct OldRole {
    pub live: bool,
    pub users: u16,
    pub reads: u64,
    pub writes: u64,
    pub executes: u64,
    pub owns: u64,
}

#[derive(Clone, Copy)]
pub struct OldEntity {
    pub live: bool,
    pub kind: u8,
    pub parent: u8,
    pub name: u16,
    pub label: OldLabel,
}

#[derive(Clone, Copy)]
pub struct OldTables {
    pub users: [OldUser; USERS],
    pub sessions: [OldSession; SESSIONS],
    pub roles: [OldRole; ROLES],
    pub entities: [OldEntity; ENTITIES],
}

impl From<OldLabel> for Label {
    ghost from_gives = { λ a result. result ≡ label_taken a };

    fn from(a: OldLabel) -> Label {
        Label {
            cats: u16::from(a.cats),
            grade: a.grade,
        }
    }
}

impl From<OldUser> for User {
    ghost from_gives = { λ u result. result ≡ user_taken u };

    fn from(u: OldUser) -> User {
        User {
            ceiling: u.ceiling,
            clearance: Label::from(u.clearance),
        }
    }
}

impl From<OldSession> for Session {
    ghost from_gives = { λ s result. result ≡ session_taken s };

    fn from(s: OldSession) -> Session {
        Session {
            live: s.live,
            user: s.user,
            label: Label::from(s.label),
            roles: s.roles,
            reading: s.reading,
            writing: s.writing,
        }
    }
}

impl From<OldRole> for Role {
    ghost from_gives = { λ p result. result ≡ role_taken p };

    fn from(p: OldRole) -> Role {
        Role {
            live: p.live,
            users: p.users,
            juniors: 0,
            reads: p.reads,
            writes: p.writes,
            executes: p.executes,
            owns: p.owns,
        }
    }
}

impl From<OldEntity> for Entity {
    ghost from_gives = { λ n result. result ≡ entity_taken n };

    fn from(n: OldEntity) -> Entity {
        Entity {
            live: n.live,
            kind: n.kind,
            parent: n.parent,
            name: n.name,
            label: Label::from(n.label),
            shared: 0,
        }
    }
}

impl OldTables {
    // The tables with every number the same, also where they are not sound; of edition 1.
    pub fn take_over(self) -> Tables
        ensures { result ≡ taken_over self }
    {
        Tables {
            users: array::from_fn(|i| User::from(self.users[i])),
            sessions: array::from_fn(|i| Session::from(self.sessions[i])),
            roles: array::from_fn(|i| Role::from(self.roles[i])),
            entities: array::from_fn(|i| Entity::from(self.entities[i])),
            edition: EDITION_1,
        }
    }
}
