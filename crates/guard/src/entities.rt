// Requests that make, end, rename or mark an entity: what create, delete, rename and share are refused for, and the entity after
// them.
#![tactic(auto, unfolding(crate::specs::Refusals::first, bitset::specs::Tests::either))]

ghost use Rattle.std.specs.Prelude.{◌≤◌, ◌<◌, ◌≡◌, true, not, [], ◌∷◌, ltb, eqb};
ghost use Rattle.bitset.specs.Tests.{every, either};
ghost use Rattle.bitset.specs.Sets.{has};
ghost use Rattle.guard.specs.Level.{entity_count, session_level, role_level, entity_level, is_root};
ghost use Rattle.guard.specs.Label.{top_grade, all_categories, dominates};
ghost use Rattle.guard.specs.Tables.{object, container, shared_mark};
ghost use Rattle.guard.specs.Sound.{top_name};
ghost use Rattle.guard.specs.Edits.{rename_to, mark_as};
ghost use Rattle.guard.specs.Refusals.{first, ◌when◌};
ghost use Rattle.guard.specs.Conditions.{label_asked};
ghost use Rattle.guard.specs.Requests.{created};
ghost use Rattle.guard.specs.Private.Decision.{answer_of, number_of};
ghost use Rattle.guard.specs.Private.Inside.{OfEntity, entity_after};
ghost use Rattle.guard.specs.Private.InForce.{in_ranges};

use crate::refusal::Refusal;
use crate::view::View;
use crate::{Entity, Request, kinds, labels, sizes};
use bitset::Set;

pub fn create_refusal(q: Request, v: View) -> Result<(), Refusal>
    requires { (q.grade ≤ top_grade) × (q.cats ≤ all_categories) }
    ensures { answer_of result ≡ first (5 when not v.session.live ∷ 7 when either (not v.parent.live) (not v.live) ∷ 8 when v.entity.live ∷ 9 when not (eqb v.parent.kind container) ∷ 10 when either (not (eqb (entity_level q.entity) (entity_level q.parent))) (ltb (role_level q.role) (entity_level q.entity)) ∷ 11 when not (dominates (label_asked q) v.parent.label) ∷ 12 when not (has v.session.roles q.role) ∷ 13 when either (not (has v.session.writing q.parent)) (not (has v.found.rights.executes q.parent)) ∷ 14 when v.found.kin ∷ []) }
{
    if !v.session.live {
        return Err(Refusal::SeatDead);
    }
    if !v.parent.live | !v.live {
        return Err(Refusal::NotLive);
    }
    if v.entity.live {
        return Err(Refusal::NumberLive);
    }
    if v.parent.kind != sizes::CONTAINER {
        return Err(Refusal::NoContainer);
    }
    if (q.entity / sizes::LEVEL_ENTITIES != q.parent / sizes::LEVEL_ENTITIES)
        | (q.role / sizes::LEVEL_ROLES < q.entity / sizes::LEVEL_ENTITIES)
    {
        return Err(Refusal::Integrity);
    }
    let label = labels::made(q.grade, q.cats);
    if !labels::dominates(label, v.parent.label) {
        return Err(Refusal::Confidentiality);
    }
    if !v.session.roles.has(q.role) {
        return Err(Refusal::RoleMissing);
    }
    if !v.session.writing.has(q.parent) | !v.found.rights.executes.has(q.parent) {
        return Err(Refusal::RightMissing);
    }
    if v.found.kin {
        return Err(Refusal::NameTaken);
    }
    Ok(())
}

// Whether entity `e` lies in a shared container and is not one of those owned.
fn lacks_own(parent: Entity, owns: u64, e: u32) -> bool
    ensures { result ≡ every (eqb parent.shared shared_mark ∷ not (has owns e) ∷ []) }
{
    (parent.shared == sizes::SHARED) & !owns.has(e)
}

// The refusals of delete and of rename, which differ in the last: the entity is in use, having a child, or the name is taken by a
// child of its parent. In a shared container both also need own on the entity.
pub fn change_refusal(q: Request, v: View, last: Refusal) -> Result<(), Refusal>
    ensures { answer_of result ≡ first (5 when not v.session.live ∷ 6 when is_root q.entity ∷ 7 when not v.entity.live ∷ 13 when either (either (not (has v.session.writing v.entity.parent)) (not (has v.found.rights.executes v.entity.parent))) (every (eqb v.parent.shared shared_mark ∷ not (has v.found.rights.owns q.entity) ∷ [])) ∷ number_of last when v.found.kin ∷ []) }
{
    let o = v.entity.parent as u32;
    if !v.session.live {
        return Err(Refusal::SeatDead);
    }
    if q.entity % sizes::LEVEL_ENTITIES == 0 {
        return Err(Refusal::RootOrKeeper);
    }
    if !v.entity.live {
        return Err(Refusal::NotLive);
    }
    if (!v.session.writing.has(o) | !v.found.rights.executes.has(o))
        | lacks_own(v.parent, v.found.rights.owns, q.entity)
    {
        return Err(Refusal::RightMissing);
    }
    if v.found.kin {
        return Err(last);
    }
    Ok(())
}

pub fn share_refusal(q: Request, v: View) -> Result<(), Refusal>
    ensures { answer_of result ≡ first (5 when not v.session.live ∷ 7 when not v.entity.live ∷ 9 when eqb v.entity.kind object ∷ 10 when ltb (session_level q.seat) (entity_level q.entity) ∷ 13 when not (has v.found.rights.owns q.entity) ∷ 16 when eqb v.entity.shared q.shared ∷ []) }
{
    if !v.session.live {
        return Err(Refusal::SeatDead);
    }
    if !v.entity.live {
        return Err(Refusal::NotLive);
    }
    if v.entity.kind == sizes::OBJECT {
        return Err(Refusal::NoContainer);
    }
    if q.seat / sizes::LEVEL_SEATS < q.entity / sizes::LEVEL_ENTITIES {
        return Err(Refusal::Integrity);
    }
    if !v.found.rights.owns.has(q.entity) {
        return Err(Refusal::RightMissing);
    }
    if v.entity.shared as u32 == q.shared {
        return Err(Refusal::NoChange);
    }
    Ok(())
}

// The entity that a create makes.
#[tactic(auto, unfolding(crate::specs::Requests::created))]
fn made(q: Request) -> Entity
    requires { (q.kind ≤ container) × (q.parent < entity_count) × (q.name ≤ top_name) × (q.grade ≤ top_grade) × (q.cats ≤ all_categories) }
    ensures { result ≡ created q }
{
    Entity {
        live: true,
        kind: q.kind as u8,
        parent: q.parent as u8,
        name: q.name as u16,
        label: labels::made(q.grade, q.cats),
        shared: 0,
    }
}

#[tactic(auto, unfolding(crate::specs::Edits::rename_to))]
fn renamed(name: u32, f: Entity) -> Entity
    requires { name ≤ top_name }
    ensures { result ≡ rename_to name f }
{
    Entity {
        name: name as u16,
        ..f
    }
}

#[tactic(auto, unfolding(crate::specs::Edits::mark_as))]
fn marked(mark: u32, f: Entity) -> Entity
    requires { mark ≤ shared_mark }
    ensures { result ≡ mark_as mark f }
{
    Entity {
        shared: mark as u8,
        ..f
    }
}

// Entity `f` after a create, a delete, a share or a rename.
#[tactic(auto, unfolding(crate::specs::Private::Inside::entity_after))]
pub fn after(q: Request, f: Entity) -> Entity
    requires { OfEntity q.call × (in_ranges q ≡ true) }
    ensures { result ≡ entity_after q f }
{
    match q.call {
        kinds::CREATE => made(q),
        kinds::DELETE => Entity::default(),
        kinds::SHARE => marked(q.shared, f),
        _ => renamed(q.name, f),
    }
}
