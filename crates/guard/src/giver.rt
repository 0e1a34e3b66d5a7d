// Which role let a session in: what accepted openr and openw tell. It is the one held, also where a role below it has the right.
ghost use Rattle.std.specs.Prelude.{◌<◌, ◌≡◌};
ghost use Rattle.guard.specs.Level.{role_count, entity_count};
ghost use Rattle.guard.specs.Told.{lowest, role_byte};
ghost use Rattle.guard.specs.Private.Scan.{has_by, gives, opened_by, read_byte};

use crate::members::Members;
use crate::scan::Right;
use crate::sizes::{NO_ROLE, ROLES};
use crate::{Role, kinds, scan};
use bitset::Set;

// Whether role `r` has the right on the entity, itself or through a role below it.
#[tactic(auto, unfolding(crate::specs::Private::Scan::has_by, bitset::specs::Tests::either))]
fn gives(roles: &[Role; ROLES], r: u32, right: Right, e: usize) -> bool
    requires { (r < role_count) × (e < entity_count) }
    ensures { result ≡ has_by roles.now right e r }
{
    let role = &roles[r as usize];
    if role.on(right).has(e as u32) {
        return true;
    }
    if role.juniors == 0 {
        return false;
    }
    let rights = scan::gather(roles, 0u16.with(r));
    rights.on(right).has(e as u32)
}

// The lowest-numbered of the roles held that has the right on the entity.
fn lowest(roles: &[Role; ROLES], held: u16, right: Right, e: usize) -> Option<u8>
    requires { e < entity_count }
    ensures { result ≡ lowest role_count (gives roles.now held right e) }
{
    Members(u64::from(held))
        .find(|&r| gives(roles, r as u32, right, e))
        .map(|r| r as u8)
}

// What an accepted request of that kind tells: openr and openw the role for read or write on the entity.
#[tactic(auto, unfolding(crate::specs::Private::Scan::opened_by))]
pub fn role_told(roles: &[Role; ROLES], call: u32, held: u16, e: usize) -> Option<u8>
    requires { e < entity_count }
    ensures { result ≡ opened_by roles.now call held e }
{
    match call {
        kinds::OPENR => lowest(roles, held, Right::Read, e),
        kinds::OPENW => lowest(roles, held, Right::Write, e),
        _ => None,
    }
}

// The byte of `run` that tells it, and the role that a byte tells.
#[tactic(auto, unfolding(crate::specs::Told::role_byte))]
pub fn byte(role: Option<u8>) -> u8
    ensures { result ≡ role_byte role }
{
    role.unwrap_or(NO_ROLE)
}

#[tactic(auto, unfolding(crate::specs::Private::Scan::read_byte, crate::specs::Told::role_byte))]
pub fn read(byte: u8) -> Option<u8>
    ensures { result ≡ read_byte byte }
{
    (byte != NO_ROLE).then_some(byte)
}
