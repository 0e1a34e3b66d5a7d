// Whose users and roles are: the house's or the agents' (specs/Private/Firm).
ghost use Rattle.std.specs.Prelude.{ℕ, ◌<◌, ◌≡◌};
ghost use Rattle.bitset.specs.Sets.{has};
ghost use Rattle.guard.specs.Level.{user_count, role_count};
ghost use Rattle.guard.specs.Private.Firm.{user_firm, role_firm, same_firm, across_firms};

use crate::{Request, kinds, sizes};

// A firm.
#[derive(Clone, Copy, PartialEq, Eq)]
pub enum Firm {
    House,
    Agents,
}

impl Firm {
    #[tactic(auto, unfolding(crate::specs::Private::Firm::user_firm))]
    pub(crate) fn of_user(user: u32) -> Firm
        ensures { result ≡ user_firm user }
    {
        if sizes::AGENTS_USERS <= user {
            Firm::Agents
        } else {
            Firm::House
        }
    }

    #[tactic(auto, unfolding(crate::specs::Private::Firm::role_firm))]
    pub(crate) fn of_role(role: u32) -> Firm
        ensures { result ≡ role_firm role }
    {
        if sizes::AGENTS_ROLES <= role % sizes::LEVEL_ROLES {
            Firm::Agents
        } else {
            Firm::House
        }
    }

    // Its users.
    pub(crate) fn users(self) -> u16
        ensures { (u : ℕ) → u < user_count → has result u ≡ same_firm (user_firm u) self }
    {
        match self {
            Firm::House => 0x00ff,
            Firm::Agents => 0xff00,
        }
    }

    // Its roles.
    pub(crate) fn roles(self) -> u16
        ensures { (r : ℕ) → r < role_count → has result r ≡ same_firm (role_firm r) self }
    {
        match self {
            Firm::House => 0x3333,
            Firm::Agents => 0xcccc,
        }
    }
}

// What 25 asks: of list whether the user, of join whether the junior is of another firm than the role.
#[tactic(auto, unfolding(crate::specs::Private::Firm::across_firms, crate::specs::Private::Firm::same_firm))]
pub fn across(q: Request) -> bool
    ensures { result ≡ across_firms q }
{
    match q.call {
        kinds::LIST => Firm::of_user(q.user) != Firm::of_role(q.role),
        kinds::JOIN => Firm::of_role(q.junior) != Firm::of_role(q.role),
        _ => false,
    }
}
