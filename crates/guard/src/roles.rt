// Requests on one role: what grant, revoke, list, unlist, make, unmake, join and unjoin are refused for, and the role after them.
#![tactic(auto, using(crate::proofs::Decisions::refused), unfolding(crate::specs::Refusals::first, bitset::specs::Tests::either))]

ghost use Rattle.std.specs.Prelude.{◌≤◌, ◌<◌, ◌≡◌, true, not, cond, [], ◌∷◌, map, ltb, eqb};
ghost use Rattle.bitset.specs.Tests.{either};
ghost use Rattle.bitset.specs.Sets.{has};
ghost use Rattle.guard.specs.Level.{session_level, role_level, entity_level, keeper_of, is_keeper, entity_count};
ghost use Rattle.guard.specs.Tables.{all_rights};
ghost use Rattle.guard.specs.Edits.{clear_rights};
ghost use Rattle.guard.specs.Refusals.{first, ◌when◌};
ghost use Rattle.guard.specs.Kind as kind;
ghost use Rattle.guard.specs.Private.Decision.{answer_of};
ghost use Rattle.guard.specs.Private.Inside.{users_after, juniors_after, set_after, granted_after, role_after, owning as owning_of};
ghost use Rattle.guard.specs.Private.InForce.{in_ranges};

use crate::refusal::Refusal;
use crate::sizes::ROLES;
use crate::view::View;
use crate::{Request, Role, kinds, sizes};
use bitset::Set;

// grant and revoke are refused alike.
pub fn rights_refusal(q: Request, v: View) -> Result<(), Refusal>
    ensures { answer_of result ≡ first (5 when not v.session.live ∷ 7 when either (not v.entity.live) (not v.live) ∷ 10 when either (ltb (session_level q.seat) (entity_level q.entity)) (ltb (role_level q.role) (entity_level q.entity)) ∷ 13 when not (has v.found.rights.owns q.entity) ∷ []) }
{
    if !v.session.live {
        return Err(Refusal::SeatDead);
    }
    if !v.entity.live | !v.live {
        return Err(Refusal::NotLive);
    }
    if (q.seat / sizes::LEVEL_SEATS < q.entity / sizes::LEVEL_ENTITIES)
        | (q.role / sizes::LEVEL_ROLES < q.entity / sizes::LEVEL_ENTITIES)
    {
        return Err(Refusal::Integrity);
    }
    if !v.found.rights.owns.has(q.entity) {
        return Err(Refusal::RightMissing);
    }
    Ok(())
}

// That the seat is not below the role and holds the keeper of the role's level.
fn keeper_refusal(q: Request, v: View) -> Result<(), Refusal>
    ensures { answer_of result ≡ first (10 when ltb (session_level q.seat) (role_level q.role) ∷ 12 when not (has v.session.roles (keeper_of (role_level q.role))) ∷ []) }
{
    let keeper = sizes::LEVEL_ROLES * (q.role / sizes::LEVEL_ROLES);
    if q.seat / sizes::LEVEL_SEATS < q.role / sizes::LEVEL_ROLES {
        return Err(Refusal::Integrity);
    }
    if !v.session.roles.has(keeper) {
        return Err(Refusal::RoleMissing);
    }
    Ok(())
}

// `so`: that the user is listed (list), or is not (unlist).
pub fn list_refusal(q: Request, v: View, so: bool) -> Result<(), Refusal>
    ensures { answer_of result ≡ first (5 when not v.session.live ∷ 7 when not v.live ∷ 10 when ltb (session_level q.seat) (role_level q.role) ∷ 12 when not (has v.session.roles (keeper_of (role_level q.role))) ∷ 16 when so ∷ []) }
{
    if !v.session.live {
        return Err(Refusal::SeatDead);
    }
    if !v.live {
        return Err(Refusal::NotLive);
    }
    keeper_refusal(q, v)?;
    if so {
        return Err(Refusal::NoChange);
    }
    Ok(())
}

pub fn make_refusal(q: Request, v: View) -> Result<(), Refusal>
    ensures { answer_of result ≡ first (5 when not v.session.live ∷ 8 when v.live ∷ 10 when ltb (session_level q.seat) (role_level q.role) ∷ 12 when not (has v.session.roles (keeper_of (role_level q.role))) ∷ []) }
{
    if !v.session.live {
        return Err(Refusal::SeatDead);
    }
    if v.live {
        return Err(Refusal::NumberLive);
    }
    keeper_refusal(q, v)
}

pub fn unmake_refusal(q: Request, v: View) -> Result<(), Refusal>
    ensures { answer_of result ≡ first (5 when not v.session.live ∷ 6 when is_keeper q.role ∷ 7 when not v.live ∷ 10 when ltb (session_level q.seat) (role_level q.role) ∷ 12 when not (has v.session.roles (keeper_of (role_level q.role))) ∷ 15 when v.found.kin ∷ []) }
{
    if !v.session.live {
        return Err(Refusal::SeatDead);
    }
    if q.role % sizes::LEVEL_ROLES == 0 {
        return Err(Refusal::RootOrKeeper);
    }
    if !v.live {
        return Err(Refusal::NotLive);
    }
    keeper_refusal(q, v)?;
    if v.found.kin {
        return Err(Refusal::InUse);
    }
    Ok(())
}

// join and unjoin; the request's role is the senior.
pub fn tie_refusal(q: Request, v: View) -> Result<(), Refusal>
    ensures { answer_of result ≡ first (5 when not v.session.live ∷ 7 when either (not v.live) (not v.alive) ∷ 10 when either (ltb (session_level q.seat) (role_level q.role)) (not (eqb (role_level q.junior) (role_level q.role))) ∷ 12 when not (has v.session.roles (keeper_of (role_level q.role))) ∷ 22 when v.found.kin ∷ 16 when cond (eqb q.call kind.join) (has v.juniors q.junior) (not (has v.juniors q.junior)) ∷ []) }
{
    if !v.session.live {
        return Err(Refusal::SeatDead);
    }
    if !v.live | !v.alive {
        return Err(Refusal::NotLive);
    }
    if q.junior / sizes::LEVEL_ROLES != q.role / sizes::LEVEL_ROLES {
        return Err(Refusal::Integrity);
    }
    keeper_refusal(q, v)?;
    if v.found.kin {
        return Err(Refusal::Cycle);
    }
    // join finds the two tied already, unjoin finds them not tied.
    if v.juniors.has(q.junior) == (q.call == kinds::JOIN) {
        return Err(Refusal::NoChange);
    }
    Ok(())
}

// The users listed by the role after list or unlist; make leaves them.
#[tactic(auto, using(crate::proofs::Ranges::in_list), unfolding(crate::specs::Private::Inside::users_after))]
fn users_after(q: Request, users: u16) -> u16
    requires { in_ranges q ≡ true }
    ensures { result ≡ users_after q users }
{
    match q.call {
        kinds::LIST => users.with(q.user),
        kinds::UNLIST => users.without(q.user),
        _ => users,
    }
}

// The juniors of the role after join or unjoin.
#[tactic(auto, using(crate::proofs::Ranges::in_tie), unfolding(crate::specs::Private::Inside::juniors_after))]
fn juniors_after(q: Request, juniors: u16) -> u16
    requires { in_ranges q ≡ true }
    ensures { result ≡ juniors_after q juniors }
{
    match q.call {
        kinds::JOIN => juniors.with(q.junior),
        kinds::UNJOIN => juniors.without(q.junior),
        _ => juniors,
    }
}

// The entities of one right, after it is given or taken away where it is named.
#[tactic(auto, unfolding(crate::specs::Private::Inside::set_after, crate::specs::Edits::put_in))]
fn set_after(given: bool, named: bool, e: u32, set: u64) -> u64
    requires { e < entity_count }
    ensures { result ≡ set_after given named e set }
{
    if !named {
        set
    } else if given {
        set.with(e)
    } else {
        set.without(e)
    }
}

// Role `p` after a grant or a revoke of the rights named.
#[tactic(auto, unfolding(crate::specs::Private::Inside::granted_after))]
fn granted(given: bool, rights: u32, e: u32, p: Role) -> Role
    requires { (rights ≤ all_rights) × (e < entity_count) }
    ensures { result ≡ granted_after given rights e p }
{
    let named = rights as u8;
    Role {
        reads: set_after(given, named.contains(sizes::READ), e, p.reads),
        writes: set_after(given, named.contains(sizes::WRITE), e, p.writes),
        executes: set_after(given, named.contains(sizes::EXECUTE), e, p.executes),
        owns: set_after(given, named.contains(sizes::OWN), e, p.owns),
        ..p
    }
}

// Role `p` after a request on a role. A dead role of sound tables is empty already, so that a make
// only marks it.
#[tactic(auto, unfolding(crate::specs::Private::Inside::role_after))]
pub fn after(q: Request, p: Role) -> Role
    requires { in_ranges q ≡ true }
    ensures { result ≡ role_after q p }
{
    match q.call {
        kinds::GRANT => granted(true, q.rights, q.entity, p),
        kinds::REVOKE => granted(false, q.rights, q.entity, p),
        kinds::UNMAKE => Role::default(),
        _ => Role {
            live: true,
            users: users_after(q, p.users),
            juniors: juniors_after(q, p.juniors),
            ..p
        },
    }
}

// Role `p` with own on entity `e`, as the role named at a create gains it.
pub fn owning(e: u32, p: Role) -> Role
    requires { e < entity_count }
    ensures { result ≡ owning_of e p }
{
    Role {
        owns: p.owns.with(e),
        ..p
    }
}

// Role `p` without rights on entity `e`.
#[tactic(auto, unfolding(crate::specs::Edits::clear_rights, crate::specs::Edits::set_rights, crate::specs::Edits::put_in, bitset::specs::Sets::contains))]
fn cleared(e: u32, mut p: Role) -> Role
    ensures { result ≡ clear_rights e p }
{
    p.reads = p.reads.without(e);
    p.writes = p.writes.without(e);
    p.executes = p.executes.without(e);
    p.owns = p.owns.without(e);
    p
}

// Every role without rights on entity `e`: a deleted entity's rights.
pub fn without_entity(mut roles: [Role; ROLES], e: u32) -> [Role; ROLES]
    ensures { result ≡ map (clear_rights e) roles }
{
    for p in roles.iter_mut() {
        *p = cleared(e, *p);
    }
    roles
}
