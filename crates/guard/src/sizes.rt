// How many records the tables hold, where ranges end, and how long a row is (specs/Level, Label, Tables, Sound, Batch).
pub const USERS: usize = 16;

pub const SESSIONS: usize = 16;

pub const ROLES: usize = 16;

pub const ENTITIES: usize = 64;

// The first number past a range, as a request's fields have it.
pub const USER_END: u32 = USERS as u32;

pub const SEAT_END: u32 = SESSIONS as u32;

pub const ROLE_END: u32 = ROLES as u32;

pub const ENTITY_END: u32 = ENTITIES as u32;

// How many sessions, roles and entities a level has.
pub const LEVEL_SEATS: u32 = 4;

pub const LEVEL_ROLES: u32 = 4;

pub const LEVEL_ENTITIES: u32 = 16;

// Where the agents' users begin, and of the roles of a level theirs.
pub const AGENTS_USERS: u32 = 8;

pub const AGENTS_ROLES: u32 = 2;

// The same as an index: entities of one level stand in a block.
pub const BLOCK: usize = LEVEL_ENTITIES as usize;

// The last number of a range.
pub const TOP_LEVEL: u8 = 3;

pub const TOP_LEVEL_ASKED: u32 = TOP_LEVEL as u32;

pub const TOP_GRADE: u8 = 3;

pub const TOP_GRADE_ASKED: u32 = TOP_GRADE as u32;

pub const ALL_CATEGORIES: u32 = 65535;

pub const TOP_NAME: u32 = 65535;

pub const ALL_RIGHTS: u32 = 15;

// The editions, the kinds of entity and its marks stay numbers: a rule of the project puts no enum into the tables, whose fields
// hold any byte, and `is_sound` tells which of them mean something.
// The editions of the tables.
pub const EDITION_1: u8 = 1;

pub const EDITION_2: u8 = 2;

// The kinds of entity.
pub const OBJECT: u8 = 0;

pub const CONTAINER: u8 = 1;

pub const TOP_KIND: u32 = CONTAINER as u32;

// A container's mark: 0 is not shared.
pub const SHARED: u8 = 1;

pub const TOP_MARK: u32 = SHARED as u32;

// What a role may have: one number each, added up, as a request names them.
pub const READ: u8 = 1;

pub const WRITE: u8 = 2;

pub const EXECUTE: u8 = 4;

pub const OWN: u8 = 8;

// What `run` stores in the place of a role's number where none is told.
pub const NO_ROLE: u8 = 255;

// The numbers of a request as a row.
pub const ROW: usize = 13;
