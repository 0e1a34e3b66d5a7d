// The numbers of the request program.
use guard::{kinds, sizes};

// What is none of the names: the first number behind theirs. No Option: `Ordered` of specs/Names speaks of numbers.
pub const NO_NAME: u8 = 14;

// The set of the twelve that every line of names has.
pub const FIXED_NAMES: u16 = 4095;

// Places for what stands under each name, and for which name stands where; any byte has one by its remainder.
pub const PLACES: usize = 16;

pub const PLACE_COUNT: u8 = PLACES as u8;

// The last of them, where no name of a line of names stands.
pub const LAST_PLACE: usize = PLACES - 1;

// The words: `user`, which stands in front, and one for each kind of request of the guard.
pub const KINDS: usize = kinds::KINDS as usize;

pub const WORDS: usize = 1 + KINDS;

pub const USER: u32 = 0;

// What stands in a row of numbers where no word does. No Option: the row is one array, and the test that `fields::uses` makes
// of a word finds it too.
pub const NO_WORD: u32 = WORDS as u32;

// The keys of texts of at most four bytes are below the first, those of at most five below the second.
pub const FOUR_END: u64 = 0x2_00000000;

pub const FIVE_END: u64 = 0x2_0000000000;

// The bytes that a line may have before its byte 10.
pub const LONGEST: usize = 255;

// The last line that is read, the line of names being 1.
pub const LAST_LINE: u32 = 65535;

// The answer to a line that can't be read.
pub const UNREAD: u8 = 17;

// Room for a line of output: two numbers of five digits, a space and byte 10.
pub const LINE_ROOM: usize = 12;

// The lines that a batch takes, and the numbers that stand for as many requests.
pub const BATCH: usize = 256;

pub const BATCH_NUMBERS: usize = BATCH * sizes::ROW;
