// What backs an open: a role held that has the right, read for an open for reading and write for one for writing.
ghost use Rattle.std.specs.Prelude.{◌≡◌, List, map};
ghost use Rattle.guard.specs.declared.Role.{Role};
ghost use Rattle.guard.specs.Private.Scan.{Gathered, opens_given, backed_by, Lost, kept_by, left_by};

use crate::scan::Rights;
use crate::sizes::{ROLES, SESSIONS};
use crate::{Role, Session, scan, sessions};
use bitset::Set;

// Whether each open of `s` is backed; `rights` are those of its roles.
pub fn is_backed(rights: Rights, s: Session) -> bool
    ensures { (roles : List Role) → Gathered roles s.roles rights → result ≡ opens_given roles s }
{
    rights.reads.contains(s.reading) & rights.writes.contains(s.writing)
}

// Session `s` with those of its opens that are backed.
pub fn backed(roles: &[Role; ROLES], s: Session) -> Session
    ensures { result ≡ backed_by roles.now s }
{
    let rights = scan::gather(roles, s.roles);
    Session {
        reading: s.reading & rights.reads,
        writing: s.writing & rights.writes,
        ..s
    }
}

// The entities on which a role lost read or write, its own or those of the roles below it.
pub fn lost(roles: &[Role; ROLES], old: Role, new: Role) -> u64
    ensures { Lost roles.now old new result }
{
    let before = scan::gather(roles, old.juniors);
    let after = scan::gather(roles, new.juniors);
    (old.reads | before.reads).minus(new.reads | after.reads)
        | (old.writes | before.writes).minus(new.writes | after.writes)
}

// Session `s` after a role lost rights on the entities of a set: nothing of it changes unless it has one of them open.
#[tactic(auto, unfolding(crate::specs::Private::Scan::concerned, crate::specs::Private::Scan::kept_by, bitset::specs::Sets::join))]
fn kept(roles: &[Role; ROLES], lost: u64, s: Session) -> Session
    ensures { result ≡ kept_by roles.now lost s }
{
    if (s.reading | s.writing) & lost != 0 {
        backed(roles, s)
    } else {
        s
    }
}

// .. and after role `r` is unmade, when nobody holds it.
#[tactic(auto, unfolding(crate::specs::Private::Scan::left_by))]
fn left(roles: &[Role; ROLES], r: u32, lost: u64, unmade: bool, s: Session) -> Session
    ensures { result ≡ left_by roles.now r lost unmade s }
{
    let n = kept(roles, lost, s);
    if unmade { sessions::dropped(r, n) } else { n }
}

// Every session so. (Which role, what it lost and whether it is unmade go together in these two alone, a function and its loop.)
pub fn sweep(
    sessions: &mut [Session; SESSIONS],
    roles: &[Role; ROLES],
    r: u32,
    lost: u64,
    unmade: bool,
)
    ensures { sessions.new ≡ map (left_by roles.now r lost unmade) sessions.old }
{
    for s in sessions.iter_mut() {
        *s = left(roles, r, lost, unmade, *s);
    }
}
