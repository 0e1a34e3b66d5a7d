// Labels: a grade and a set of sixteen categories.
ghost use Rattle.std.specs.Prelude.{◌≤◌, ◌≡◌};
ghost use Rattle.guard.specs.Label.{label_in_range, dominates as dominates_of, label, all_categories, top_grade};

use crate::Label;
use crate::sizes::TOP_GRADE;
use bitset::Set;

// Whether `a`'s grade is at least `b`'s and `a`'s set contains `b`'s.
#[tactic(auto, unfolding(crate::specs::Label::dominates, bitset::specs::Tests::every))]
pub fn dominates(a: Label, b: Label) -> bool
    ensures { result ≡ dominates_of a b }
{
    (b.grade <= a.grade) & a.cats.contains(b.cats)
}

// Whether the grade is one of four; every `u16` is a set of categories.
#[tactic(auto, unfolding(crate::specs::Label::label_in_range_in, bitset::specs::Tests::every))]
pub fn in_range(a: Label) -> bool
    ensures { result ≡ label_in_range a }
{
    a.grade <= TOP_GRADE
}

// The label asked for, in a host's wider numbers. That they are in range is asked and no invariant of a type: it is known only of the
// kinds that use them.
pub fn made(grade: u32, cats: u32) -> Label
    requires grade_le_top_grade { grade ≤ top_grade }
    requires cats_le_all_categories { cats ≤ all_categories }
    ensures { result ≡ label grade cats }
{
    Label {
        cats: cats as u16,
        grade: grade as u8,
    }
}
