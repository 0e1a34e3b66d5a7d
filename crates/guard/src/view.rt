// What a request looks at, as one small record: its number is decided by this record alone, and the tables themselves are
// never copied for it.
use crate::scan::Found;
use crate::{Entity, Session, User};

// The records that a request concerns: the acting session, the user, the marks of the role and its juniors, whether the junior
// named is live (`alive`), the entity, and the parent (create: the one named; else the entity's). Of a number that the kind does not
// use some record stands there. `found` is what the scans found, `edition` that of the tables. Of the role three fields stand here and not
// its record: nothing that decides asks for its own four sets.
#[derive(Clone, Copy)]
pub struct View {
    pub session: Session,
    pub user: User,
    pub live: bool,
    pub users: u16,
    pub juniors: u16,
    pub alive: bool,
    pub entity: Entity,
    pub parent: Entity,
    pub found: Found,
    pub edition: u8,
}
