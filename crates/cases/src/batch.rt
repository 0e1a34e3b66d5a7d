// A batch: requests gathered as rows of numbers, in the order of a request's fields, and run.
ghost use Rattle.std.specs.Prelude.{◌≤◌, ◌*◌};

use crate::failure::Unread;
use crate::show::Changes;
use crate::words::Words;
use guard::sizes::{NO_ROLE, ROW};
use guard::{Request, Tables};
use std::io;

// How many rows there is room for, and at most for how many answers and roles.
pub const ROWS: usize = 256;

// Rows, and how many of them are gathered since `clear`. No Vec: `run` may go past these, into what stood there before.
#[derive(Clone, Copy)]
pub struct Batch {
    rows: [[u32; ROW]; ROWS],
    gathered: usize,
}

// How many numbers of the rows are run, with room for how many answers and roles.
#[derive(Clone, Copy)]
pub struct Extent {
    numbers: usize,
    answers: usize,
    roles: usize,
    ghost numbers_bound: { numbers ≤ 256 * 13 },
    ghost answers_bound: { answers ≤ 256 },
    ghost roles_bound: { roles ≤ 256 },
}

impl Extent {
    // `NUMBERS ROOM ROLES`
    pub fn read(words: &mut Words) -> Result<Extent, Unread> {
        let numbers = words.up_to(ROWS * ROW)?;
        let answers = words.up_to(ROWS)?;
        let roles = words.up_to(ROWS)?;
        Ok(Extent {
            numbers,
            answers,
            roles,
        })
    }
}

// A request as a row, its fields in the papers' order. It is not made by the guard's own `From`: of rows that the guard made and read
// itself, no case would see two fields change places.
fn row(q: Request) -> [u32; ROW] {
    [
        q.call, q.seat, q.user, q.role, q.entity, q.parent, q.kind, q.name, q.grade, q.cats,
        q.rights, q.shared, q.junior,
    ]
}

impl Batch {
    pub fn new() -> Batch {
        Batch {
            rows: [[0; ROW]; ROWS],
            gathered: 0,
        }
    }

    pub fn clear(&mut self) {
        self.gathered = 0;
    }

    // So many rows more, as long as there is room.
    pub fn gather(&mut self, q: Request, times: usize) {
        for place in self.rows.iter_mut().skip(self.gathered).take(times) {
            *place = row(q);
        }
        self.gathered = self.gathered.saturating_add(times).min(ROWS);
    }

    // What the first numbers of the rows change, the answers and the roles. Where no answer is written there is 255, where no role
    // is, 254. Hands on the tables.
    pub fn run(&self, rt: &impl Print, t: &Tables, extent: Extent) -> io::Result<Tables> {
        let mut answers = [255; ROWS];
        let mut roles = [254; ROWS];
        let rows = &self.rows.as_flattened()[..extent.numbers];
        let answers = &mut answers[..extent.answers];
        let roles = &mut roles[..extent.roles];
        let after = t.run(rows, answers, roles);
        print!(rt; "{}; answers", Changes(t, &after))?;
        for answer in answers.iter() {
            print!(rt; " {answer}")?;
        }
        print!(rt; "; roles")?;
        for role in roles.iter() {
            match *role {
                NO_ROLE => print!(rt; " -")?,
                role => print!(rt; " {role}")?,
            }
        }
        println!(rt)?;
        Ok(after)
    }
}
