// The body of every request: requests one after the other, with one test of soundness for all of them.
ghost use Rattle.guard.specs.Batch.{RunsBatch};

use crate::refusal::Refusal;
use crate::sound::tree;
use crate::view::View;
use crate::{Tables, giver, judge, look, refusal, rows, scan, sizes};

impl Tables {
    // The requests in `rows`, thirteen numbers each in the order of `Request`'s fields, as many as stand whole there and have room
    // in `answers` and in `roles`; each one's answer and the role that it tells are stored there. Every request hands back sound
    // tables, so soundness is tested once; where there is no request, nothing is.
    pub fn run(mut self, rows: &[u32], answers: &mut [u8], roles: &mut [u8]) -> Tables
        ensures { RunsBatch self rows.now answers.old answers.new roles.old roles.new result }
    {
        let count = rows::count(rows.len(), answers.len(), roles.len());
        if count == 0 {
            return self;
        }
        let mut keys = tree::keys(self.entities);
        if !self.sound_by(&keys) {
            rows::fill(answers, count, Refusal::Unsound as u8);
            rows::fill(roles, count, sizes::NO_ROLE);
            return self;
        }
        // By index: a zip of the two slices' iter_mut was tried, and no proof can say which elements stand in them after it.
        for i in 0..count {
            let q = rows::request(rows, i);
            let Some(at) = look::look_up(q) else {
                answers[i] = Refusal::OutOfRange as u8;
                roles[i] = giver::byte(None);
                continue;
            };
            // The records that the request concerns.
            let session = self.sessions[at.seat];
            let user = self.users[at.user];
            let role = self.roles[at.role];
            let junior = self.roles[at.junior];
            let entity = self.entities[at.entity];
            let o = look::parent_of(q.call, at.parent, entity.parent);
            let parent = self.entities[o];
            // What the scans find.
            let found = scan::find(&keys, &self.roles, q, at, session.roles, o);
            // The decision.
            let v = View {
                session,
                user,
                live: role.live,
                users: role.users,
                juniors: role.juniors,
                alive: junior.live,
                entity,
                parent,
                found,
                edition: self.edition,
            };
            let n = refusal::answer(judge::judge(q, v));
            answers[i] = n;
            let told = if n == 0 {
                self.apply(&mut keys, q, at)
            } else {
                None
            };
            roles[i] = giver::byte(told);
        }
        self
    }
}
