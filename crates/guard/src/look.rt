// The numbers of a request, looked up once: where its records stand, or nothing where one that its kind uses is past its range.
ghost use Rattle.std.specs.Prelude.{◌<◌, ◌≡◌, cond, eqb, IfSome, is_some, false};
ghost use Rattle.guard.specs.Requests.{rule_of};
ghost use Rattle.guard.specs.Kind as kind;
ghost use Rattle.guard.specs.Private.Inside.{Below, Placed, number, asks_way, asks_name, asks_rights};
ghost use Rattle.guard.specs.Private.InForce.{in_ranges};
ghost use Rattle.guard.specs.declared.Tables.{Tables as TablesOf};

use crate::{Request, kinds, sizes};

// The places of the records that a request concerns; where a number that its kind does not use is past its range, some other place.
// Plain indices, each below its end (`Placed`): a type for each would be taken apart wherever it is used as one.
#[derive(Clone, Copy)]
pub struct Places {
    pub seat: usize,
    pub user: usize,
    pub role: usize,
    pub entity: usize,
    pub parent: usize,
    pub junior: usize,
}

// A number below the end, or 0 in the place of one past it.
fn below(n: u32, end: u32) -> usize
    requires { 0 < end }
    ensures { Below end n result }
{
    if n < end { n as usize } else { 0 }
}

// Whether each number that the request uses is in its range: for each kind the fields that stand in brackets behind its word.
fn fits(q: Request) -> bool
    ensures { result ≡ in_ranges q }
{
    let seat = q.seat < sizes::SEAT_END;
    let user = q.user < sizes::USER_END;
    let role = q.role < sizes::ROLE_END;
    let entity = q.entity < sizes::ENTITY_END;
    let label = (q.grade <= sizes::TOP_GRADE_ASKED) & (q.cats <= sizes::ALL_CATEGORIES);
    let name = (1 <= q.name) & (q.name <= sizes::TOP_NAME);
    match q.call {
        kinds::LOGIN => seat & (user & label),
        kinds::LOGOUT => seat,
        kinds::TAKE | kinds::DROP => seat & role,
        kinds::OPENR | kinds::OPENW | kinds::CLOSE => seat & entity,
        kinds::CREATE => {
            seat & (entity
                & ((q.kind <= sizes::TOP_KIND)
                    & ((q.parent < sizes::ENTITY_END) & (name & (label & role)))))
        }
        kinds::DELETE => seat & entity,
        kinds::RENAME => seat & (entity & name),
        kinds::GRANT | kinds::REVOKE => {
            seat & (role & (entity & ((1 <= q.rights) & (q.rights <= sizes::ALL_RIGHTS))))
        }
        kinds::LIST | kinds::UNLIST => seat & (role & user),
        kinds::MAKE | kinds::UNMAKE => seat & role,
        kinds::SHARE => seat & (entity & (q.shared <= sizes::TOP_MARK)),
        kinds::JOIN | kinds::UNJOIN => seat & (role & (q.junior < sizes::ROLE_END)),
        _ => false,
    }
}

// None where a number that the request's kind uses is past its range: by the rule of its number it is answered 2, whatever the tables
// hold.
pub fn look_up(q: Request) -> Option<Places>
    ensures some { IfSome result (Placed q) }
    ensures fits { is_some result ≡ in_ranges q }
    ensures refused { is_some result ≡ false → (t : TablesOf) → number (rule_of q) t q ≡ 2 }
{
    if !fits(q) {
        return None;
    }
    Some(Places {
        seat: below(q.seat, sizes::SEAT_END),
        user: below(q.user, sizes::USER_END),
        role: below(q.role, sizes::ROLE_END),
        entity: below(q.entity, sizes::ENTITY_END),
        parent: below(q.parent, sizes::ENTITY_END),
        junior: below(q.junior, sizes::ROLE_END),
    })
}

// The parent that a request concerns: create names it, the others go by the entity's record.
pub fn parent_of(call: u32, named: usize, recorded: u8) -> usize
    ensures { result ≡ cond (eqb call kind.create) named recorded }
{
    if call == kinds::CREATE {
        named
    } else {
        usize::from(recorded)
    }
}

// openr and openw ask for the way up.
#[tactic(auto, unfolding(crate::specs::Private::Inside::asks_way, bitset::specs::Tests::either))]
pub fn asks_way(call: u32) -> bool
    ensures { result ≡ asks_way call }
{
    matches!(call, kinds::OPENR | kinds::OPENW)
}

// create and rename ask for a name among the children.
#[tactic(auto, unfolding(crate::specs::Private::Inside::asks_name, bitset::specs::Tests::either))]
pub fn asks_name(call: u32) -> bool
    ensures { result ≡ asks_name call }
{
    matches!(call, kinds::CREATE | kinds::RENAME)
}

// The kinds that ask for rights; the others ask nothing of the tables beside the records.
#[tactic(auto, unfolding(crate::specs::Private::Inside::asks_rights, crate::specs::Private::Inside::asks_way, crate::specs::Private::Inside::asks_name, bitset::specs::Tests::either))]
pub fn asks_rights(call: u32) -> bool
    ensures { result ≡ asks_rights call }
{
    matches!(
        call,
        kinds::OPENR
            | kinds::OPENW
            | kinds::CREATE
            | kinds::DELETE
            | kinds::RENAME
            | kinds::GRANT
            | kinds::REVOKE
            | kinds::SHARE
    )
}
