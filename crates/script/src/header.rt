// The line of names: each of the twelve once, and any of the optional ones, in any order.
ghost use Rattle.std.specs.Prelude.{◌≡◌, false, MatchOption};
ghost use Rattle.script.specs.Text.{values};
ghost use Rattle.script.specs.Names.{is_names, Ordered};

use crate::{limits, text};
use bitset::Set;

// The order of columns that a good line of names gives: for each place which name stands there, and behind the last that none
// does. `seen` is the set of the names so far: no name of a good line is in it when it comes.
pub fn header(s: &[u8]) -> Option<[u8; limits::PLACES]>
    ensures { MatchOption result (is_names (values s.now) ≡ false) (λ at. Ordered (values s.now) at) }
{
    let mut at = [limits::NO_NAME; limits::PLACES];
    let mut seen = 0u16;
    for (j, value) in s.split(|&b| b == b' ').enumerate() {
        let name = text::name_at(value)?;
        if seen.has(name as u32) {
            return None;
        }
        at[j] = name;
        seen = seen.with(name as u32);
    }
    seen.contains(limits::FIXED_NAMES).then_some(at)
}
