// Which records a request changes.
ghost use Rattle.std.specs.Prelude.{◌≡◌};
ghost use Rattle.guard.specs.Private.Inside.{change_of, ends_opens};

use crate::kinds;

// The acting session; the entity (create also a role, delete every role and session); the role (revoke, unmake and
// unjoin also every session).
#[derive(Clone, Copy)]
pub enum Change {
    Session,
    Entity,
    Role,
}

#[tactic(auto, unfolding(crate::specs::Private::Inside::change_of, bitset::specs::Tests::either))]
pub fn change_of(call: u32) -> Change
    ensures { result ≡ change_of call }
{
    match call {
        kinds::LOGIN..=kinds::CLOSE => Change::Session,
        kinds::CREATE..=kinds::RENAME | kinds::SHARE => Change::Entity,
        _ => Change::Role,
    }
}

// The requests on a role after which opens end that are no longer backed.
#[tactic(auto, unfolding(crate::specs::Private::Inside::ends_opens, bitset::specs::Tests::either))]
pub fn ends_opens(call: u32) -> bool
    ensures { result ≡ ends_opens call }
{
    matches!(call, kinds::REVOKE | kinds::UNMAKE | kinds::UNJOIN)
}
