// What a request is turned down for.
ghost use Rattle.std.specs.Prelude.{◌≡◌};
ghost use Rattle.guard.specs.Private.Decision.{answer_of};

// The numbers are those that a host is answered; docs/USING.md says more of each. Where more than one applies the lowest is given,
// `Cycle` standing between `RoleMissing` and `RightMissing`.
#[derive(Clone, Copy, PartialEq, Eq, Debug)]
pub enum Refusal {
    // The tables are not sound.
    Unsound = 1,
    // A number is out of range, or the request is of no kind.
    OutOfRange = 2,
    // login: the seat is live.
    SeatLive = 3,
    // login: the user's ceiling is below the seat's level, or the clearance does not dominate the label.
    UserTooLow = 4,
    // The acting seat is not live.
    SeatDead = 5,
    // The entity is a root, the role a keeper.
    RootOrKeeper = 6,
    // The entity, parent, role or junior is not live.
    NotLive = 7,
    // The number to be made is live.
    NumberLive = 8,
    // The parent is no container; share: the entity is an object.
    NoContainer = 9,
    // Seat, role and entity are of levels that do not go together.
    Integrity = 10,
    // The labels do not allow it.
    Confidentiality = 11,
    // A role is not listed or not held.
    RoleMissing = 12,
    // A right, the way to the entity, or an open for writing is missing.
    RightMissing = 13,
    // The name is taken.
    NameTaken = 14,
    // The entity has children, the role a junior or a senior.
    InUse = 15,
    // It is so already, or there is nothing to end.
    NoChange = 16,
    // join: the two are one role, or the senior is below the junior already.
    Cycle = 22,
}

// The number that a host is answered: 0 for a request that is done.
pub fn answer(decision: Result<(), Refusal>) -> u8
    ensures { result ≡ answer_of decision }
{
    match decision {
        Ok(()) => 0,
        Err(refusal) => refusal as u8,
    }
}
