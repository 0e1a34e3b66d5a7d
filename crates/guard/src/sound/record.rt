// Tests of one record that soundness asks, of the edition, and of each user and entity in turn. Each is the definition of
// specs/Sound or specs/Label that its contract cites; what holds of every value of a field's type, as that a `u16` is at most
// 65,535, is not tested.
ghost use Rattle.std.specs.Prelude.{◌%◌, ◌≡◌, get_or};
ghost use Rattle.bitset.specs.Tests.{all};
ghost use Rattle.guard.specs.Level.{user_count, entity_count};
ghost use Rattle.guard.specs.Tables.{no_user, no_entity};
ghost use Rattle.guard.specs.Sound.{edition_in_range, is_root_record};
ghost use Rattle.guard.specs.Private.Tested.{fits, entity_fits, entity_test};
ghost use Rattle.guard.specs.Private.InForce.{user_in_range, session_in_range};

use crate::sizes::{
    CONTAINER, EDITION_1, EDITION_2, ENTITIES, LEVEL_ENTITIES, SHARED, TOP_LEVEL, USERS,
};
use crate::{Entity, Label, Session, User, labels};

// Counts as the fields have them, and how many entities a level has.
const USER_COUNT: u8 = USERS as u8;

const ENTITY_COUNT: u8 = ENTITIES as u8;

const LEVEL: u8 = LEVEL_ENTITIES as u8;

#[tactic(auto, unfolding(crate::specs::Sound::user_in_range_in, bitset::specs::Tests::every))]
fn user_in_range(u: User) -> bool
    ensures { result ≡ user_in_range u }
{
    (u.ceiling <= TOP_LEVEL) & labels::in_range(u.clearance)
}

#[tactic(auto, unfolding(crate::specs::Sound::edition_in_range, bitset::specs::Tests::every))]
pub fn edition_in_range(edition: u8) -> bool
    ensures { result ≡ edition_in_range edition }
{
    (EDITION_1 <= edition) & (edition <= EDITION_2)
}

pub fn users_in_range(users: [User; USERS]) -> bool
    ensures { result ≡ all user_count (λ u. user_in_range (get_or users u no_user)) }
{
    users.iter().all(|u| user_in_range(*u))
}

#[tactic(auto, unfolding(crate::specs::Sound::session_in_range_in, bitset::specs::Tests::every))]
pub fn session_in_range(s: Session) -> bool
    ensures { result ≡ session_in_range s }
{
    (s.user < USER_COUNT) & labels::in_range(s.label)
}

// In its ranges, and with the mark 0 if it is an object: a mark is at most the kind, which is at most 1.
fn entity_fits(n: Entity) -> bool
    ensures { result ≡ entity_fits n }
{
    (n.kind <= CONTAINER)
        & ((n.shared <= n.kind) & ((n.parent < ENTITY_COUNT) & labels::in_range(n.label)))
}

#[tactic(auto, unfolding(crate::specs::Sound::is_root_record, crate::specs::Label::same_label, bitset::specs::Tests::every))]
fn is_root_record(e: u8, n: Entity) -> bool
    ensures { result ≡ is_root_record e n }
{
    n.live
        & ((n.kind == CONTAINER)
            & ((n.label == Label::default()) & ((n.name == 0) & (n.parent == e))))
}

// Whether `n`, at `e`, may lie in `p`, its parent's record.
#[tactic(auto, unfolding(bitset::specs::Tests::every))]
fn fits_in(e: u8, n: Entity, p: Entity) -> bool
    ensures { result ≡ fits e n p }
{
    p.live
        & ((p.kind == CONTAINER)
            & ((n.parent / LEVEL == e / LEVEL) & labels::dominates(n.label, p.label)))
}

// Whether the entity `e`, whose record is `n` and whose parent's is `p`, is as soundness asks, but for its name among its
// siblings and its chain of parents. One that is not live is no root and is empty; its ranges follow, and those of a root but
// for its mark.
fn entity_ok(e: u8, n: &Entity, p: &Entity) -> bool
    ensures { result ≡ entity_test e n.now p.now }
{
    if !n.live {
        return (e % LEVEL != 0) & (*n == Entity::default());
    }
    if e % LEVEL == 0 {
        return is_root_record(e, *n) & (n.shared <= SHARED);
    }
    entity_fits(*n) & ((1 <= n.name) & fits_in(e, *n, *p))
}

pub fn entities_ok(entities: [Entity; ENTITIES]) -> bool
    ensures { result ≡ all entity_count (λ e. entity_test e (get_or entities e no_entity) (get_or entities ((get_or entities e no_entity).parent % 64) no_entity)) }
{
    (0..ENTITY_COUNT).all(|e| {
        let n = &entities[usize::from(e)];
        entity_ok(e, n, &entities[usize::from(n.parent % ENTITY_COUNT)])
    })
}
