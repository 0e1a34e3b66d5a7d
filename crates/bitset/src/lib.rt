// Sets of small numbers, each held as one unsigned integer: member `i` is bit `i`.
//
// `has`, `with`, `without`, `contains` and `minus` each equal the operation of the same name in specs/Sets, which is free of the width,
// for any arguments, and stand once for all widths. A set of w bits has no place for a member past it, so `with` takes a number past
// the width by its remainder. Nothing is asked of a caller.
// Assumes nothing.
#![tactic(auto)]

ghost use Rattle.std.specs.Prelude.{ℕ, ◌≡◌, ◌≤◌, ◌<◌, ◌%◌, ◌^◌};
ghost use Rattle.bitset.specs.Sets.{has, with, without, contains, minus};
ghost use Rattle.bitset.specs.Sets.Widths.{bits_8, bits_16, bits_64};

// An unsigned integer of at most 64 bits, as a set.
pub trait Set: Copy {
    ghost WIDTH: { ℕ };

    ghost number: { Self → ℕ };

    const WIDTH: u32;

    // The set in 64 bits; and back, less what the width has no place for.
    fn widened(self) -> u64
        ensures same { result ≡ number self }
        ensures fits { result < 2 ^ WIDTH };

    fn narrowed(n: u64) -> Self
        ensures { number result ≡ n % 2 ^ WIDTH };

    // Whether `i` is a member; no number past the width is.
    fn has(self, i: u32) -> bool
        ensures { result ≡ has (number self) i }
    {
        let set = self.widened();
        if u64::BITS <= i {
            return false;
        }
        (set >> i) & 1 == 1
    }

    // The set and the member `i`; a number past the width counts by its remainder.
    fn with(self, i: u32) -> Self
        ensures { number result ≡ with (number self) (i % WIDTH) }
    {
        Self::narrowed(self.widened() | (1 << (i % Self::WIDTH)))
    }

    // The set less the member `i`; a number past the width was none.
    fn without(self, i: u32) -> Self
        ensures { number result ≡ without (number self) i }
    {
        let set = self.widened();
        if Self::WIDTH <= i {
            return self;
        }
        Self::narrowed(set & !(1 << i))
    }

    // Whether each member of the other set is one of this.
    fn contains(self, other: Self) -> bool
        ensures { result ≡ contains (number self) (number other) }
    {
        let part = other.widened();
        self.widened() & part == part
    }

    // The members of this set that are none of the other.
    fn minus(self, other: Self) -> Self
        ensures { number result ≡ minus (number self) (number other) }
    {
        Self::narrowed(self.widened() & !other.widened())
    }

    // A set has a place, and 64 are enough.
    ghost bits: { (0 < WIDTH) × (WIDTH ≤ 64) };
}

// Three impls by hand: one that a macro of a repository writes is refused.
impl Set for u8 {
    ghost WIDTH = { 8 };

    ghost number = { λ s. s };

    ghost bits = { bits_8 };

    const WIDTH: u32 = u8::BITS;

    fn widened(self) -> u64 {
        u64::from(self)
    }

    fn narrowed(n: u64) -> u8 {
        (n % 256) as u8
    }
}

impl Set for u16 {
    ghost WIDTH = { 16 };

    ghost number = { λ s. s };

    ghost bits = { bits_16 };

    const WIDTH: u32 = u16::BITS;

    fn widened(self) -> u64 {
        self.into()
    }

    fn narrowed(n: u64) -> u16 {
        (n % 65536) as u16
    }
}

impl Set for u64 {
    ghost WIDTH = { 64 };

    ghost number = { λ s. s };

    ghost bits = { bits_64 };

    const WIDTH: u32 = u64::BITS;

    fn widened(self) -> u64 {
        self
    }

    fn narrowed(n: u64) -> u64 {
        n
    }
}
