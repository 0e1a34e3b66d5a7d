// The requests' numbers, in the order in which the papers list the nineteen (specs/Kind). Numbers, and no enum: a host may pass any
// (`Request.call`) and names them so, and a rule of the project has ONE match over them decide (judge), with a closing range for
// the numbers of none.
pub const LOGIN: u32 = 0;

pub const LOGOUT: u32 = 1;

pub const TAKE: u32 = 2;

pub const DROP: u32 = 3;

pub const OPENR: u32 = 4;

pub const OPENW: u32 = 5;

pub const CLOSE: u32 = 6;

pub const CREATE: u32 = 7;

pub const DELETE: u32 = 8;

pub const RENAME: u32 = 9;

pub const GRANT: u32 = 10;

pub const REVOKE: u32 = 11;

pub const LIST: u32 = 12;

pub const UNLIST: u32 = 13;

pub const MAKE: u32 = 14;

pub const UNMAKE: u32 = 15;

pub const SHARE: u32 = 16;

pub const JOIN: u32 = 17;

pub const UNJOIN: u32 = 18;

// How many there are.
pub const KINDS: u32 = 19;
