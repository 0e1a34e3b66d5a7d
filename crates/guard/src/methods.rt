// For hosts: each of the nineteen requests as a method of its own. Each hands back the next tables and the answer, as
// `step` does for the same request.
ghost use Rattle.std.specs.Prelude.{◌≡◌};
ghost use Rattle.guard.specs.Step.{step};
ghost use Rattle.guard.specs.Kind.{take, drop, openr, openw, close, delete, grant, revoke, list, unlist, make, unmake, join, unjoin};
ghost use Rattle.guard.specs.Methods.{login_request, logout_request, role_request, entity_request, create_request, rename_request, rights_request, list_request, share_request, tie_request};

use crate::{Outcome, Request, Tables, kinds};

impl Tables {
    // The seat becomes live for the user, under the label `grade`/`cats`.
    pub fn login(self, seat: u32, user: u32, grade: u32, cats: u32) -> Outcome
        ensures { result ≡ step self (login_request seat user grade cats) }
    {
        self.step(Request {
            call: kinds::LOGIN,
            seat,
            user,
            grade,
            cats,
            ..Default::default()
        })
    }

    // The seat becomes empty.
    pub fn logout(self, seat: u32) -> Outcome
        ensures { result ≡ step self (logout_request seat) }
    {
        self.step(Request {
            call: kinds::LOGOUT,
            seat,
            ..Default::default()
        })
    }

    // The seat holds the role.
    pub fn take(self, seat: u32, role: u32) -> Outcome
        ensures { result ≡ step self (role_request take seat role) }
    {
        self.step(Request {
            call: kinds::TAKE,
            seat,
            role,
            ..Default::default()
        })
    }

    // The seat no longer holds the role.
    pub fn drop(self, seat: u32, role: u32) -> Outcome
        ensures { result ≡ step self (role_request drop seat role) }
    {
        self.step(Request {
            call: kinds::DROP,
            seat,
            role,
            ..Default::default()
        })
    }

    // The seat has the entity open for reading.
    pub fn openr(self, seat: u32, entity: u32) -> Outcome
        ensures { result ≡ step self (entity_request openr seat entity) }
    {
        self.step(Request {
            call: kinds::OPENR,
            seat,
            entity,
            ..Default::default()
        })
    }

    // The seat has the entity open for writing.
    pub fn openw(self, seat: u32, entity: u32) -> Outcome
        ensures { result ≡ step self (entity_request openw seat entity) }
    {
        self.step(Request {
            call: kinds::OPENW,
            seat,
            entity,
            ..Default::default()
        })
    }

    // The seat has the entity open in no way.
    pub fn close(self, seat: u32, entity: u32) -> Outcome
        ensures { result ≡ step self (entity_request close seat entity) }
    {
        self.step(Request {
            call: kinds::CLOSE,
            seat,
            entity,
            ..Default::default()
        })
    }

    // An entity is made; the role gains own on it.
    pub fn create(
        self,
        seat: u32,
        entity: u32,
        kind: u32,
        parent: u32,
        name: u32,
        grade: u32,
        cats: u32,
        role: u32,
    ) -> Outcome
        ensures { result ≡ step self (create_request seat entity kind parent name grade cats role) }
    {
        self.step(Request {
            call: kinds::CREATE,
            seat,
            role,
            entity,
            parent,
            kind,
            name,
            grade,
            cats,
            ..Default::default()
        })
    }

    // The entity, all rights on it and all opens of it go.
    pub fn delete(self, seat: u32, entity: u32) -> Outcome
        ensures { result ≡ step self (entity_request delete seat entity) }
    {
        self.step(Request {
            call: kinds::DELETE,
            seat,
            entity,
            ..Default::default()
        })
    }

    // The entity has the name.
    pub fn rename(self, seat: u32, entity: u32, name: u32) -> Outcome
        ensures { result ≡ step self (rename_request seat entity name) }
    {
        self.step(Request {
            call: kinds::RENAME,
            seat,
            entity,
            name,
            ..Default::default()
        })
    }

    // The role has the rights on the entity.
    pub fn grant(self, seat: u32, role: u32, entity: u32, rights: u32) -> Outcome
        ensures { result ≡ step self (rights_request grant seat role entity rights) }
    {
        self.step(Request {
            call: kinds::GRANT,
            seat,
            role,
            entity,
            rights,
            ..Default::default()
        })
    }

    // The role has none of the rights on the entity.
    pub fn revoke(self, seat: u32, role: u32, entity: u32, rights: u32) -> Outcome
        ensures { result ≡ step self (rights_request revoke seat role entity rights) }
    {
        self.step(Request {
            call: kinds::REVOKE,
            seat,
            role,
            entity,
            rights,
            ..Default::default()
        })
    }

    // The role lists the user.
    pub fn list(self, seat: u32, role: u32, user: u32) -> Outcome
        ensures { result ≡ step self (list_request list seat role user) }
    {
        self.step(Request {
            call: kinds::LIST,
            seat,
            user,
            role,
            ..Default::default()
        })
    }

    // The role no longer lists the user.
    pub fn unlist(self, seat: u32, role: u32, user: u32) -> Outcome
        ensures { result ≡ step self (list_request unlist seat role user) }
    {
        self.step(Request {
            call: kinds::UNLIST,
            seat,
            user,
            role,
            ..Default::default()
        })
    }

    // The role is made, empty.
    pub fn make(self, seat: u32, role: u32) -> Outcome
        ensures { result ≡ step self (role_request make seat role) }
    {
        self.step(Request {
            call: kinds::MAKE,
            seat,
            role,
            ..Default::default()
        })
    }

    // The role and every holding of it go.
    pub fn unmake(self, seat: u32, role: u32) -> Outcome
        ensures { result ≡ step self (role_request unmake seat role) }
    {
        self.step(Request {
            call: kinds::UNMAKE,
            seat,
            role,
            ..Default::default()
        })
    }

    // The container is shared from then on (mark 1), or no longer (mark 0).
    pub fn share(self, seat: u32, entity: u32, mark: u32) -> Outcome
        ensures { result ≡ step self (share_request seat entity mark) }
    {
        self.step(Request {
            call: kinds::SHARE,
            seat,
            entity,
            shared: mark,
            ..Default::default()
        })
    }

    // The second role becomes a direct junior of the first.
    pub fn join(self, seat: u32, senior: u32, junior: u32) -> Outcome
        ensures { result ≡ step self (tie_request join seat senior junior) }
    {
        self.step(Request {
            call: kinds::JOIN,
            seat,
            role: senior,
            junior,
            ..Default::default()
        })
    }

    // The second role is no longer a direct junior of the first.
    pub fn unjoin(self, seat: u32, senior: u32, junior: u32) -> Outcome
        ensures { result ≡ step self (tie_request unjoin seat senior junior) }
    {
        self.step(Request {
            call: kinds::UNJOIN,
            seat,
            role: senior,
            junior,
            ..Default::default()
        })
    }
}
