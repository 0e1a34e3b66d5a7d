// What 13, 14, 15 and 22 ask of the tables, scanned over the records of the roles, lent, and over a column of the entities: for each
// its parent and its name as one number (`keys`, sound/tree): what the test of soundness, the way up and the search for a name ask of an
// entity is computed once. With the records in its place a line of input costs 0.8 % more.
ghost use Rattle.std.specs.Prelude.{◌*◌, ◌<◌, ◌≡◌};
ghost use Rattle.guard.specs.Level.{entity_count, role_count};
ghost use Rattle.guard.specs.Private.Scan.{side, side_of, Gathered, senior_by, tied_by, climbs_by, reached_by, name_by, child_by, kin_by, FoundBy};

use crate::look::Places;
use crate::sizes::{BLOCK, ENTITIES, ENTITY_END, LEVEL_ENTITIES, ROLES};
use crate::sound::tree::NAMES;
use crate::{Request, Role, kinds, look};
use bitset::Set;

// What a role may have on an entity.
#[derive(Clone, Copy, PartialEq, Eq)]
pub enum Right {
    Read,
    Write,
    Execute,
    Own,
}

// What roles give together: the entities on which they have each right, themselves or through roles below them; and the roles by
// which they have it, they and those below.
#[derive(Clone, Copy, Default)]
pub struct Rights {
    pub reads: u64,
    pub writes: u64,
    pub executes: u64,
    pub owns: u64,
    pub roles: u16,
}

// What the scans find: the rights of the session, whether it reaches the entity, and what 14, 15 and 22 ask; each where the kind
// asks for it.
#[derive(Clone, Copy, Default)]
pub struct Found {
    pub rights: Rights,
    pub reached: bool,
    pub kin: bool,
}

impl Role {
    // The entities on which the record has the right.
    pub(crate) fn on(&self, right: Right) -> u64
        ensures { result ≡ side self.now right }
    {
        match right {
            Right::Read => self.reads,
            Right::Write => self.writes,
            Right::Execute => self.executes,
            Right::Own => self.owns,
        }
    }
}

impl Rights {
    // The entities on which they give the right. (Not one function with that of a role: what the two records have alike are the names of
    // four fields, and a trait over both would hold these bodies again.)
    pub(crate) fn on(&self, right: Right) -> u64
        ensures { result ≡ side_of self.now right }
    {
        match right {
            Right::Read => self.reads,
            Right::Write => self.writes,
            Right::Execute => self.executes,
            Right::Own => self.owns,
        }
    }
}

// What the roles held give together. Each role that is met, held or below one that is, is gone through once.
pub fn gather(roles: &[Role; ROLES], held: u16) -> Rights
    ensures { Gathered roles.now held result }
{
    let mut rights = Rights::default();
    // What is left grows on the way, so no iterator over the roles held goes through it.
    let mut left = held;
    while left != 0 {
        let r = left.trailing_zeros();
        let role = &roles[r as usize];
        rights.reads |= role.reads;
        rights.writes |= role.writes;
        rights.executes |= role.executes;
        rights.owns |= role.owns;
        rights.roles = rights.roles.with(r);
        left = (left | role.juniors).minus(rights.roles);
    }
    rights
}

// The same, where `known` are the rights that the roles `before` give.
pub fn regather(roles: &[Role; ROLES], before: u16, known: Rights, held: u16) -> Rights
    requires { Gathered roles.now before known }
    ensures { Gathered roles.now held result }
{
    if held == before {
        return known;
    }
    gather(roles, held)
}

// Whether each container above `e` is in the set, up to and with the root.
fn climbs(keys: &[u32; ENTITIES], through: u64, e: usize) -> bool
    requires { e < entity_count }
    ensures { result ≡ climbs_by keys.now through e }
{
    let mut at = e;
    for _ in 0..LEVEL_ENTITIES {
        if at % BLOCK == 0 {
            return true;
        }
        let parent = keys[at] / NAMES % ENTITY_END;
        if !through.has(parent) {
            return false;
        }
        at = parent as usize;
    }
    at % BLOCK == 0
}

#[tactic(auto, unfolding(crate::specs::Private::Scan::reached_by))]
fn reached(keys: &[u32; ENTITIES], call: u32, e: usize, through: u64) -> bool
    requires { e < entity_count }
    ensures { result ≡ reached_by keys.now call e through }
{
    look::asks_way(call) && climbs(keys, through, e)
}

// Whether a child of `p` has the name.
fn name_in(keys: &[u32; ENTITIES], p: usize, name: u32) -> bool
    requires { p < entity_count }
    ensures { result ≡ name_by keys.now p name }
{
    let key = (p as u32) * NAMES + name % NAMES;
    let first = p / BLOCK * BLOCK;
    keys[first..first + BLOCK].contains(&key)
}

// Whether `p` has a child.
fn child_in(keys: &[u32; ENTITIES], p: usize) -> bool
    requires { p < entity_count }
    ensures { result ≡ child_by keys.now p }
{
    let first = p / BLOCK * BLOCK;
    keys[first..first + BLOCK]
        .iter()
        .any(|key| *key / NAMES == p as u32)
}

// Whether `r` is a direct junior of a role.
fn has_senior(roles: &[Role; ROLES], r: u32) -> bool
    ensures { result ≡ senior_by roles.now r }
{
    roles.iter().any(|role| role.juniors.has(r))
}

// What 15 and 22 ask of the ties: unmake whether `r` has a junior or a senior, join whether it is `j` or below it.
#[tactic(auto, unfolding(crate::specs::Private::Scan::tied_by, bitset::specs::Tests::either))]
fn tied(roles: &[Role; ROLES], call: u32, r: usize, j: usize) -> bool
    requires { (r < role_count) × (j < role_count) }
    ensures { result ≡ tied_by roles.now call r j }
{
    match call {
        kinds::UNMAKE => (roles[r].juniors != 0) | has_senior(roles, r as u32),
        kinds::JOIN => gather(roles, 0u16.with(j as u32)).roles.has(r as u32),
        _ => false,
    }
}

// What 14 and 15 ask: delete whether `e` has a child, create and rename whether a child of `o` has the name.
#[tactic(auto, unfolding(crate::specs::Private::Scan::kin_by))]
fn kin(keys: &[u32; ENTITIES], call: u32, e: usize, o: usize, name: u32) -> bool
    requires { (e < entity_count) × (o < entity_count) }
    ensures { result ≡ kin_by keys.now call e o name }
{
    match call {
        kinds::DELETE => child_in(keys, e),
        _ => look::asks_name(call) && name_in(keys, o, name),
    }
}

// What a request whose records stand `at` these places, with parent `o`, asks of the tables, by a session that holds `held`. One that
// asks for no right asks of the ties alone.
pub fn find(
    keys: &[u32; ENTITIES],
    roles: &[Role; ROLES],
    q: Request,
    at: Places,
    held: u16,
    o: usize,
) -> Found
    requires { (at.entity < entity_count) × (o < entity_count) × (at.role < role_count) × (at.junior < role_count) }
    ensures { FoundBy keys.now roles.now q held at.entity o at.role at.junior result }
{
    if !look::asks_rights(q.call) {
        return Found {
            kin: tied(roles, q.call, at.role, at.junior),
            ..Found::default()
        };
    }
    let rights = gather(roles, held);
    let reached = reached(keys, q.call, at.entity, rights.executes);
    let kin = kin(keys, q.call, at.entity, o, q.name);
    Found {
        rights,
        reached,
        kin,
    }
}
