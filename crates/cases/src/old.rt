// Tables in records of the old width, in which a set of categories has eight bits, a role no juniors, an entity no mark and the tables
// no edition: of a larger set the lower eight are left.
// No `From`: the records of both widths are the guard's.
use guard::old::{OldEntity, OldLabel, OldRole, OldSession, OldTables, OldUser};
use guard::{Entity, Label, Role, Session, Tables, User};

fn label(a: Label) -> OldLabel {
    OldLabel {
        cats: (a.cats & 0xff) as u8,
        grade: a.grade,
    }
}

fn user(x: User) -> OldUser {
    OldUser {
        ceiling: x.ceiling,
        clearance: label(x.clearance),
    }
}

fn session(x: Session) -> OldSession {
    OldSession {
        live: x.live,
        user: x.user,
        label: label(x.label),
        roles: x.roles,
        reading: x.reading,
        writing: x.writing,
    }
}

fn role(x: Role) -> OldRole {
    OldRole {
        live: x.live,
        users: x.users,
        reads: x.reads,
        writes: x.writes,
        executes: x.executes,
        owns: x.owns,
    }
}

fn entity(x: Entity) -> OldEntity {
    OldEntity {
        live: x.live,
        kind: x.kind,
        parent: x.parent,
        name: x.name,
        label: label(x.label),
    }
}

pub fn narrowed(t: &Tables) -> OldTables {
    OldTables {
        users: t.users.map(user),
        sessions: t.sessions.map(session),
        roles: t.roles.map(role),
        entities: t.entities.map(entity),
    }
}
