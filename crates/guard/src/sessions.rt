// Requests on the acting session: what login, logout, take and drop are refused for, and the session after these, openr,
// openw and close.
#![tactic(auto, unfolding(crate::specs::Refusals::first, bitset::specs::Tests::either))]

ghost use Rattle.std.specs.Prelude.{◌≤◌, ◌<◌, ◌≡◌, true, not, [], ◌∷◌, map, ltb};
ghost use Rattle.bitset.specs.Tests.{either};
ghost use Rattle.bitset.specs.Sets.{has};
ghost use Rattle.guard.specs.Level.{user_count, session_level};
ghost use Rattle.guard.specs.Label.{top_grade, all_categories, dominates};
ghost use Rattle.guard.specs.Edits.{drop_role, close_both};
ghost use Rattle.guard.specs.Refusals.{first, ◌when◌};
ghost use Rattle.guard.specs.Conditions.{label_asked};
ghost use Rattle.guard.specs.Requests.{logged_in};
ghost use Rattle.guard.specs.Private.Decision.{answer_of};
ghost use Rattle.guard.specs.Private.Inside.{session_after};
ghost use Rattle.guard.specs.Private.Scan.{backed_by};
ghost use Rattle.guard.specs.Private.InForce.{in_ranges};

use crate::refusal::Refusal;
use crate::sizes::{ROLES, SESSIONS};
use crate::view::View;
use crate::{Request, Role, Session, backing, kinds, labels, sizes};
use bitset::Set;

pub fn login_refusal(q: Request, v: View) -> Result<(), Refusal>
    requires { (q.grade ≤ top_grade) × (q.cats ≤ all_categories) }
    ensures { answer_of result ≡ first (3 when v.session.live ∷ 4 when either (ltb v.user.ceiling (session_level q.seat)) (not (dominates v.user.clearance (label_asked q))) ∷ []) }
{
    if v.session.live {
        return Err(Refusal::SeatLive);
    }
    let label = labels::made(q.grade, q.cats);
    if ((v.user.ceiling as u32) < q.seat / sizes::LEVEL_SEATS)
        | !labels::dominates(v.user.clearance, label)
    {
        return Err(Refusal::UserTooLow);
    }
    Ok(())
}

pub fn logout_refusal(v: View) -> Result<(), Refusal>
    ensures { answer_of result ≡ first (5 when not v.session.live ∷ []) }
{
    if !v.session.live {
        return Err(Refusal::SeatDead);
    }
    Ok(())
}

pub fn take_refusal(q: Request, v: View) -> Result<(), Refusal>
    ensures { answer_of result ≡ first (5 when not v.session.live ∷ 7 when not v.live ∷ 12 when not (has v.users v.session.user) ∷ 16 when has v.session.roles q.role ∷ []) }
{
    if !v.session.live {
        return Err(Refusal::SeatDead);
    }
    if !v.live {
        return Err(Refusal::NotLive);
    }
    if !v.users.has(v.session.user as u32) {
        return Err(Refusal::RoleMissing);
    }
    if v.session.roles.has(q.role) {
        return Err(Refusal::NoChange);
    }
    Ok(())
}

pub fn drop_refusal(q: Request, v: View) -> Result<(), Refusal>
    ensures { answer_of result ≡ first (5 when not v.session.live ∷ 7 when not v.live ∷ 16 when not (has v.session.roles q.role) ∷ []) }
{
    if !v.session.live {
        return Err(Refusal::SeatDead);
    }
    if !v.live {
        return Err(Refusal::NotLive);
    }
    if !v.session.roles.has(q.role) {
        return Err(Refusal::NoChange);
    }
    Ok(())
}

// The session that a login makes.
#[tactic(auto, unfolding(crate::specs::Requests::logged_in))]
fn entered(q: Request) -> Session
    requires { (q.user < user_count) × (q.grade ≤ top_grade) × (q.cats ≤ all_categories) }
    ensures { result ≡ logged_in q }
{
    Session {
        live: true,
        user: q.user as u8,
        label: labels::made(q.grade, q.cats),
        ..Default::default()
    }
}

// Changed in place, here and in `after` and roles' `cleared`: as struct updates a request takes some 30 instructions more, 3 %.
// Session `s` without role `r`, and without entity `e` open.
#[tactic(auto, unfolding(crate::specs::Edits::drop_role))]
pub fn dropped(r: u32, mut s: Session) -> Session
    ensures { result ≡ drop_role r s }
{
    s.roles = s.roles.without(r);
    s
}

#[tactic(auto, unfolding(crate::specs::Edits::close_both))]
fn closed(e: u32, mut s: Session) -> Session
    ensures { result ≡ close_both e s }
{
    s.reading = s.reading.without(e);
    s.writing = s.writing.without(e);
    s
}

// The acting session after a request on it; a drop also ends those of its opens that are no longer backed.
pub fn after(roles: &[Role; ROLES], q: Request, mut s: Session) -> Session
    requires { in_ranges q ≡ true }
    ensures { result ≡ session_after (backed_by roles.now) q s }
{
    match q.call {
        kinds::LOGIN => return entered(q),
        kinds::LOGOUT => return Session::default(),
        kinds::TAKE => s.roles = s.roles.with(q.role),
        kinds::DROP => return backing::backed(roles, dropped(q.role, s)),
        kinds::OPENR => s.reading = s.reading.with(q.entity),
        kinds::OPENW => s.writing = s.writing.with(q.entity),
        _ => return closed(q.entity, s),
    }
    s
}

// Every session without entity `e` open: a deleted entity's opens.
pub fn without_entity(mut sessions: [Session; SESSIONS], e: u32) -> [Session; SESSIONS]
    ensures { result ≡ map (close_both e) sessions }
{
    for s in sessions.iter_mut() {
        *s = closed(e, *s);
    }
    sessions
}
