// Fresh tables, built from sixteen user records in an edition.
ghost use Rattle.std.specs.Prelude.{◌≡◌, ◌<◌};
ghost use Rattle.guard.specs.Level.{entity_count, role_count};
ghost use Rattle.guard.specs.Fresh.{fresh_role, fresh_entity, tabulate, fresh, build};

use crate::refusal::Refusal;
use crate::sizes::{BLOCK, CONTAINER, EDITION_1, ENTITIES, LEVEL_ROLES, ROLES, SESSIONS, USERS};
use crate::sound::record;
use crate::{Entity, Outcome, Role, Session, Tables, User};
use bitset::Set;
use std::array;

// How many roles a level has, as an index.
const LEVEL: usize = LEVEL_ROLES as usize;

#[tactic(auto, unfolding(crate::specs::Fresh::fresh_role, crate::specs::Edits::put_in, bitset::specs::Sets::contains, bitset::specs::Sets::with, bitset::specs::Sets::join))]
fn fresh_role(r: usize) -> Role
    requires { r < role_count }
    ensures { result ≡ fresh_role r }
{
    if r % LEVEL == 0 {
        let root = 0u64.with((r / LEVEL * BLOCK) as u32);
        Role {
            live: true,
            users: 1,
            reads: root,
            writes: root,
            executes: root,
            owns: root,
            ..Default::default()
        }
    } else {
        Role::default()
    }
}

#[tactic(auto, unfolding(crate::specs::Fresh::fresh_entity))]
fn fresh_entity(e: usize) -> Entity
    requires { e < entity_count }
    ensures { result ≡ fresh_entity e }
{
    if e % BLOCK == 0 {
        Entity {
            live: true,
            kind: CONTAINER,
            parent: e as u8,
            ..Default::default()
        }
    } else {
        Entity::default()
    }
}

fn fresh_roles() -> [Role; ROLES]
    ensures { result ≡ tabulate role_count fresh_role }
{
    array::from_fn(fresh_role)
}

fn fresh_entities() -> [Entity; ENTITIES]
    ensures { result ≡ tabulate entity_count fresh_entity }
{
    array::from_fn(fresh_entity)
}

#[tactic(auto, unfolding(crate::specs::Fresh::fresh))]
fn fresh_over(users: [User; USERS], edition: u8) -> Tables
    ensures { result ≡ fresh users edition }
{
    Tables {
        users,
        sessions: [Session::default(); SESSIONS],
        roles: fresh_roles(),
        entities: fresh_entities(),
        edition,
    }
}

impl Tables {
    // Fresh tables over the users, of the edition, and answer 0; or answer 2 where a number is past its range, with fresh tables
    // of edition 1 over sixteen users of ceiling 0 and clearance 0/0.
    pub fn fresh(users: [User; USERS], edition: u8) -> Outcome
        ensures { result ≡ build users edition }
    {
        let tables = fresh_over(users, edition);
        if record::users_in_range(users) & record::edition_in_range(edition) {
            return Outcome {
                tables,
                answer: 0,
                role: None,
            };
        }
        Outcome {
            tables: fresh_over([User::default(); USERS], EDITION_1),
            answer: Refusal::OutOfRange as u8,
            role: None,
        }
    }
}
