// What an accepted request does: which records it stores, and which role it tells.
ghost use Rattle.std.specs.Prelude.{◌≡◌};
ghost use Rattle.guard.specs.Requests.{rule_of};
ghost use Rattle.guard.specs.Step.{role_opening};
ghost use Rattle.guard.specs.Private.Scan.{Keys};
ghost use Rattle.guard.specs.Private.Apply.{Accepted};

use crate::change::Change;
use crate::look::Places;
use crate::sizes::ENTITIES;
use crate::sound::tree;
use crate::{Request, Tables, backing, change, entities, giver, kinds, roles, sessions};

impl Tables {
    // The tables after it, with the key of an entity that it stores; the role told is that of openr and openw.
    pub(crate) fn apply(&mut self, keys: &mut [u32; ENTITIES], q: Request, at: Places) -> Option<u8>
        requires accepted { Accepted self.old q at }
        requires keys { Keys self.old.entities keys.old }
        ensures tables { self.new ≡ (rule_of q).effect q self.old }
        ensures keys { Keys self.new.entities keys.new }
        ensures told { result ≡ role_opening self.old q }
    {
        // Each `after` asks that the request is in its ranges (`in_ranges`); a struct that holds this would be opened in each again.
        match change::change_of(q.call) {
            Change::Session => {
                let session = self.sessions[at.seat];
                self.sessions[at.seat] = sessions::after(&self.roles, q, session);
                giver::role_told(&self.roles, q.call, session.roles, at.entity)
            }
            Change::Entity => {
                let entity = self.entities[at.entity];
                let stored = entities::after(q, entity);
                self.entities[at.entity] = stored;
                keys[at.entity] = tree::key(stored);
                if q.call == kinds::CREATE {
                    self.roles[at.role] = roles::owning(q.entity, self.roles[at.role]);
                } else if q.call == kinds::DELETE {
                    self.roles = roles::without_entity(self.roles, q.entity);
                    self.sessions = sessions::without_entity(self.sessions, q.entity);
                }
                None
            }
            Change::Role => {
                let role = self.roles[at.role];
                let stored = roles::after(q, role);
                self.roles[at.role] = stored;
                if change::ends_opens(q.call) {
                    let lost = backing::lost(&self.roles, role, stored);
                    let unmade = q.call == kinds::UNMAKE;
                    backing::sweep(&mut self.sessions, &self.roles, q.role, lost, unmade);
                }
                None
            }
        }
    }
}
