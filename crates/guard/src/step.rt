// One request: a run of one row.
ghost use Rattle.std.specs.Prelude.{◌≡◌};
ghost use Rattle.guard.specs.Step.{step};

use crate::{Outcome, Request, Tables, giver, rows};

impl Tables {
    pub fn step(self, q: Request) -> Outcome
        ensures { result ≡ step self q }
    {
        let row = rows::row(q);
        let mut answers = [0u8; 1];
        let mut roles = [0u8; 1];
        let tables = self.run(&row, &mut answers, &mut roles);
        Outcome {
            tables,
            answer: answers[0],
            role: giver::read(roles[0]),
        }
    }
}
