// Sessions, and what they have open, by a label for each entity, grade and categories in one number, and by the sets of each role.
ghost use Rattle.std.specs.Prelude.{ℕ, ◌<◌, ◌≡◌, List, [], ◌∷◌, leb, eqb, get_or};
ghost use Rattle.guard.specs.declared.Role.{Role};
ghost use Rattle.bitset.specs.Tests.{every, all};
ghost use Rattle.bitset.specs.Sets.{has};
ghost use Rattle.guard.specs.Level.{session_count, entity_count, session_level, entity_level};
ghost use Rattle.guard.specs.Tables.{no_session, no_entity};
ghost use Rattle.guard.specs.Private.Tested.{packed_label, label_number, dominated, members, open_levels, open_labels, session_test};
ghost use Rattle.guard.specs.Private.Scan.{Gathered, opens_given};

use super::record::session_in_range;
use crate::members::Members;
use crate::scan::Rights;
use crate::sizes::{
    EDITION_1, ENTITIES, LEVEL_ENTITIES, LEVEL_SEATS, ROLES, SESSIONS, TOP_LEVEL_ASKED,
};
use crate::{Entity, Label, Role, Session, backing, scan};
use bitset::Set;
use std::array;

// How many sets of categories there are, and the last of them; and what stands for the label of what is not live, above all
// labels.
const SETS: u32 = 65536;

const LAST_SET: u32 = SETS - 1;

const DEAD: u32 = 16777216;

fn packed(a: Label) -> u32
    ensures { result ≡ packed_label a }
{
    u32::from(a.grade) * SETS + u32::from(a.cats)
}

fn label_of(n: Entity) -> u32
    ensures { result ≡ label_number n }
{
    if n.live { packed(n.label) } else { DEAD }
}

pub fn labels(entities: [Entity; ENTITIES]) -> [u32; ENTITIES]
    ensures { (e : ℕ) → e < entity_count → get_or result e 0 ≡ label_number (get_or entities e no_entity) }
{
    array::from_fn(|e| label_of(entities[e]))
}

// Whether `label` dominates the label of each member of `set`.
fn dominates_each(labels: &[u32; ENTITIES], label: Label, set: u64) -> bool
    ensures { result ≡ members (dominated labels.now label) set }
{
    let top = u32::from(label.grade) * SETS + LAST_SET;
    Members(set).all(|e| {
        let l = labels[e];
        (l <= top) & label.cats.contains((l % SETS) as u16)
    })
}

// Whether `label` is the label of each member of `set`.
fn equals_each(labels: &[u32; ENTITIES], label: u32, set: u64) -> bool
    ensures { result ≡ members (λ e. eqb (get_or labels.now e 0) label) set }
{
    Members(set).all(|e| labels[e] == label)
}

// A level is a number below 4 here and in `rights`, and no type: it is a quotient of the loop's own number, asked once a turn.
// The entities of at least a level.
fn from_level(level: u32) -> u64
    requires { level < 4 }
    ensures { (e : ℕ) → e < entity_count → has result e ≡ leb level (entity_level e) }
{
    u64::MAX << (LEVEL_ENTITIES * level)
}

// The entities of at most a level.
pub fn to_level(level: u32) -> u64
    requires { level < 4 }
    ensures { (e : ℕ) → e < entity_count → has result e ≡ leb (entity_level e) level }
{
    u64::MAX >> (LEVEL_ENTITIES * (TOP_LEVEL_ASKED - level))
}

// Whether what `s`, at a level, has open is of the levels that it may have open: for reading, in edition 2, of any.
fn levels_allowed(edition: u8, level: u32, s: Session) -> bool
    requires { level < 4 }
    ensures { result ≡ open_levels edition level s }
{
    ((edition != EDITION_1) | from_level(level).contains(s.reading))
        & to_level(level).contains(s.writing)
}

// Whether it has the labels that `s` may have open.
fn labels_allowed(labels: &[u32; ENTITIES], s: Session) -> bool
    ensures { result ≡ open_labels labels.now s }
{
    dominates_each(labels, s.label, s.reading) && equals_each(labels, packed(s.label), s.writing)
}

// Whether `s`, at a level, is as soundness asks in the edition; `roles` are the live ones.
fn session_ok(labels: &[u32; ENTITIES], roles: u16, edition: u8, level: u32, s: Session) -> bool
    requires { level < 4 }
    ensures { result ≡ session_test labels.now roles edition level s }
{
    if !s.live {
        return s == Session::default();
    }
    (session_in_range(s) & roles.contains(s.roles))
        && levels_allowed(edition, level, s)
        && labels_allowed(labels, s)
}

// Whether it is so, and each of its opens has the right behind it; `rights` are those of its roles. (Labels, live roles, edition and
// level go together in these two alone.)
fn session_sound(
    labels: &[u32; ENTITIES],
    rights: Rights,
    live: u16,
    edition: u8,
    level: u32,
    s: Session,
) -> bool
    requires { level < 4 }
    ensures { (roles : List Role) → Gathered roles s.roles rights → result ≡ every (session_test labels.now live edition level s ∷ opens_given roles s ∷ []) }
{
    if !session_ok(labels, live, edition, level, s) {
        return false;
    }
    backing::is_backed(rights, s)
}

// Every session so; `live` are the live roles. Neighbours mostly hold the same roles, and their rights are gathered once.
pub fn sessions_ok(
    sessions: &[Session; SESSIONS],
    labels: &[u32; ENTITIES],
    roles: &[Role; ROLES],
    live: u16,
    edition: u8,
) -> bool
    ensures { result ≡ all session_count (λ s. every (session_test labels.now live edition (session_level s) (get_or sessions.now s no_session) ∷ opens_given roles.now (get_or sessions.now s no_session) ∷ [])) }
{
    let mut held = 0u16;
    let mut rights = scan::gather(roles, held);
    for (s, session) in sessions.iter().enumerate() {
        rights = scan::regather(roles, held, rights, session.roles);
        held = session.roles;
        let level = s as u32 / LEVEL_SEATS;
        if !session_sound(labels, rights, live, edition, level, *session) {
            return false;
        }
    }
    true
}
