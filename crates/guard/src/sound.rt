// Whether tables are sound: `is_sound` is `sound` of specs/Sound, for all tables that the types admit.
//
// What the parts ask of all entities (their keys, their labels, which are live) is made once, and each part is tested over
// that or over one array of records: a function that took the tables would copy them. The parts stand in an order in which
// each may assume the ones before it.
mod opens;
pub mod record;
mod rights;
pub mod tree;

ghost use Rattle.std.specs.Prelude.{◌≡◌};
ghost use Rattle.guard.specs.Sound.{sound};
ghost use Rattle.guard.specs.Private.Scan.{Keys};

use crate::Tables;
use crate::sizes::ENTITIES;

impl Tables {
    // Whether the tables are sound, by the keys of their entities.
    pub(crate) fn sound_by(&self, keys: &[u32; ENTITIES]) -> bool
        requires { Keys self.now.entities keys.now }
        ensures { result ≡ sound self.now }
    {
        let edition = self.edition;
        let users = self.users;
        if !(record::users_in_range(users) & record::edition_in_range(edition)) {
            return false;
        }
        let entities = self.entities;
        if !record::entities_ok(entities) {
            return false;
        }
        if !tree::end_at_root(keys) {
            return false;
        }
        if !tree::have_own_keys(keys) {
            return false;
        }
        let live = tree::live_set(keys);
        let Some(live_roles) = rights::roles_ok(&self.roles, live) else {
            return false;
        };
        if !rights::ties_ok(&self.roles, live_roles) {
            return false;
        }
        let labels = opens::labels(entities);
        opens::sessions_ok(&self.sessions, &labels, &self.roles, live_roles, edition)
    }

    // Whether the tables are sound, for all tables that the types admit.
    pub fn is_sound(self) -> bool
        ensures { result ≡ sound self }
    {
        self.sound_by(&tree::keys(self.entities))
    }
}
