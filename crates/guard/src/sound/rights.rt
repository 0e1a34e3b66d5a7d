// Roles, their rights, by the set of the entities on which each may have some, and their ties.
ghost use Rattle.std.specs.Prelude.{ℕ, ◌<◌, ◌≡◌, cond, eqb, get_or, is_some, IfSome};
ghost use Rattle.bitset.specs.Tests.{all};
ghost use Rattle.bitset.specs.Sets.{has};
ghost use Rattle.guard.specs.Level.{role_count, role_level};
ghost use Rattle.guard.specs.Tables.{no_role};
ghost use Rattle.guard.specs.Private.Tested.{grantable_in, role_test};
ghost use Rattle.guard.specs.Private.Scan.{tie_test};

use super::opens::to_level;
use crate::sizes::{LEVEL_ROLES, ROLE_END, ROLES};
use crate::{Role, scan};
use bitset::Set;

// A role that is not live may have no rights.
fn bound(live: bool, set: u64) -> u64
    ensures { result ≡ cond live set 0 }
{
    if live { set } else { 0 }
}

// Whether the role `r`, whose record is `p`, is as soundness asks; `set` are the live entities of at most its level.
fn role_ok(set: u64, r: u32, p: Role) -> bool
    ensures { result ≡ role_test (has set) r p }
{
    if !p.live & ((r % LEVEL_ROLES == 0) | (p.users != 0) | (p.juniors != 0)) {
        return false;
    }
    bound(p.live, set).contains(p.reads | p.writes | p.executes | p.owns)
}

// Whether each role is as soundness asks, where `live` are the live entities; if so, the set of those that are live.
pub fn roles_ok(roles: &[Role; ROLES], live: u64) -> Option<u16>
    ensures ok { is_some result ≡ all role_count (λ k. role_test (grantable_in live k) k (get_or roles.now k no_role)) }
    ensures live { IfSome result (λ found. (k : ℕ) → k < role_count → has found k ≡ (get_or roles.now k no_role).live) }
{
    let mut found = 0u16;
    for (i, role) in roles.iter().enumerate() {
        let r = i as u32;
        let set = live & to_level(r / LEVEL_ROLES);
        if !role_ok(set, r, *role) {
            return None;
        }
        if role.live {
            found = found.with(r);
        }
    }
    Some(found)
}

// The roles of a level.
fn of_level(level: u32) -> u16
    requires { level < 4 }
    ensures { (j : ℕ) → j < role_count → has result j ≡ eqb (role_level j) level }
{
    0x000f << (LEVEL_ROLES * level)
}

// Whether the ties of role `r` join it to roles of its level among those that are live, and it is not below itself.
fn tie_ok(roles: &[Role; ROLES], live: u16, r: u32) -> bool
    requires { r < role_count }
    ensures { result ≡ tie_test roles.now live r }
{
    let juniors = roles[r as usize].juniors;
    if juniors == 0 {
        return true;
    }
    if !(live & of_level(r / LEVEL_ROLES)).contains(juniors) {
        return false;
    }
    let below = scan::gather(roles, juniors);
    !below.roles.has(r)
}

// Every role so.
pub fn ties_ok(roles: &[Role; ROLES], live: u16) -> bool
    ensures { result ≡ all role_count (tie_test roles.now live) }
{
    (0..ROLE_END).all(|r| tie_ok(roles, live, r))
}
