// The tree of entities, by a key for each: where a live entity lies and what it is called, in one number.
ghost use Rattle.std.specs.Prelude.{ℕ, ◌≤◌, ◌<◌, ◌≡◌, get_or};
ghost use Rattle.bitset.specs.Tests.{all};
ghost use Rattle.bitset.specs.Sets.{has};
ghost use Rattle.guard.specs.Level.{entity_count, entities_per_level};
ghost use Rattle.guard.specs.Private.Tested.{key_of, own_key, ends, parent_by_key, live_by_key};
ghost use Rattle.guard.specs.Private.Scan.{Keys};

use crate::Entity;
use crate::sizes::{BLOCK, ENTITIES, ENTITY_END, LEVEL_ENTITIES};
use std::array;

// How many names there are: a key is the parent times this, and the name.
pub const NAMES: u32 = 65536;

// The key of what is not live: 256 for a parent, which no live entity has.
const DEAD: u32 = 256 * NAMES;

pub fn key(n: Entity) -> u32
    ensures { result ≡ key_of n }
{
    if n.live {
        u32::from(n.parent) * NAMES + u32::from(n.name)
    } else {
        DEAD
    }
}

// Of each entity its parent and its name in one number.
pub fn keys(entities: [Entity; ENTITIES]) -> [u32; ENTITIES]
    ensures { Keys entities result }
{
    array::from_fn(|e| key(entities[e]))
}

// The entities that are live: of a key, bit 24 alone tells it.
pub fn live_set(keys: &[u32; ENTITIES]) -> u64
    requires { (e : ℕ) → e < entity_count → get_or keys.now e 0 ≤ 16777216 }
    ensures { (e : ℕ) → e < entity_count → has result e ≡ live_by_key keys.now e }
{
    let mut dead: u64 = 0;
    for key in keys.iter().rev() {
        dead = dead << 1 | u64::from(*key >> 24);
    }
    !dead
}

// Whether `e` has no name, or no other entity of its level has its key.
fn has_own_key(keys: &[u32; ENTITIES], e: usize) -> bool
    requires { e < entity_count }
    ensures { result ≡ own_key keys.now e }
{
    let k = keys[e];
    if k % NAMES == 0 {
        return true;
    }
    let first = e / BLOCK * BLOCK;
    // `filter` and `count` take some 100 instructions more for each entity that has a name.
    let mut hits = 0u32;
    for other in &keys[first..first + BLOCK] {
        hits += u32::from(*other == k);
    }
    hits == 1
}

pub fn have_own_keys(keys: &[u32; ENTITIES]) -> bool
    ensures { result ≡ all entity_count (own_key keys.now) }
{
    (0..ENTITIES).all(|e| has_own_key(keys, e))
}

fn ends_at_root(keys: &[u32; ENTITIES], e: usize) -> bool
    requires { e < entity_count }
    ensures { result ≡ ends (parent_by_key keys.now) entities_per_level e }
{
    let mut at = e;
    for _ in 0..LEVEL_ENTITIES {
        if at % BLOCK == 0 {
            return true;
        }
        at = (keys[at] / NAMES % ENTITY_END) as usize;
    }
    at % BLOCK == 0
}

pub fn end_at_root(keys: &[u32; ENTITIES]) -> bool
    ensures { result ≡ all entity_count (ends (parent_by_key keys.now) entities_per_level) }
{
    (0..ENTITIES).all(|e| ends_at_root(keys, e))
}
