// The members of a set, lowest first.
ghost use Rattle.std.specs.Iterator.{YieldsFirst, item_count};
ghost use Rattle.guard.specs.Private.Tested.{listed};

use bitset::Set;

// What is left of the set.
#[derive(Clone, Copy)]
pub struct Members(pub u64);

impl Iterator for Members {
    type Item = usize;

    ghost next_gives = { YieldsFirst (λ s. listed s.0) };

    ghost remaining = { item_count (λ s. listed s.0) };

    fn next(&mut self) -> Option<usize> {
        if self.0 == 0 {
            return None;
        }
        let lowest = self.0.trailing_zeros();
        self.0 = self.0.without(lowest);
        Some(lowest as usize)
    }
}
