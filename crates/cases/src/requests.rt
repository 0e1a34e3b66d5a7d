// The statements that ask something of the guard: fresh tables, tables taken over, requests and batches.
use crate::batch::{Extent, ROWS};
use crate::failure::Failure;
use crate::show::{Changes, Differing};
use crate::state::State;
use crate::statement::Statement;
use crate::{ask, edges, old, show};
use guard::{Outcome, Tables};
use std::io;

// What has no name to print the answer behind is to be done.
fn done(o: &Outcome) -> Result<(), Failure> {
    if o.answer == 0 {
        Ok(())
    } else {
        Err(Failure::NotDone)
    }
}

impl State {
    // `fresh`: the tables are built anew over the users and in the edition that they have; and what is not as in the tables kept.
    pub(crate) fn fresh(&mut self, rt: &impl Print, s: Statement) -> Result<(), Failure> {
        let o = Tables::fresh(self.now.users, self.now.edition);
        self.now = o.tables;
        if s.name.is_empty() {
            return done(&o);
        }
        show::answer(rt, s.name, &o)?;
        println!(rt; "{}", Changes(&self.kept, &self.now))?;
        Ok(())
    }

    // What is not as in some tables.
    fn compare_with(&self, rt: &impl Print, name: &[u8], before: &Tables) -> io::Result<()> {
        rt.write_all(name)?;
        println!(rt; ":{}", Changes(before, &self.now))
    }

    // `old`: the tables, in records of the old width, are taken over; and what changed.
    pub(crate) fn old(&mut self, rt: &impl Print, s: Statement) -> io::Result<()> {
        let before = self.now;
        self.now = old::narrowed(&before).take_over();
        self.compare_with(rt, s.name, &before)
    }

    // `compare`: what is not as in the tables kept.
    pub(crate) fn compare(&self, rt: &impl Print, s: Statement) -> io::Result<()> {
        self.compare_with(rt, s.name, &self.kept)
    }

    // A request alone: it is to be done where it has no name.
    pub(crate) fn request(&mut self, rt: &impl Print, s: Statement) -> Result<(), Failure> {
        let o = ask::made(rt, &self.now, ask::read(s.words)?)?;
        self.now = o.tables;
        if s.name.is_empty() {
            return done(&o);
        }
        show::answer(rt, s.name, &o)?;
        println!(rt)?;
        Ok(())
    }

    // A request's answer, and what it changes.
    fn told(&self, rt: &impl Print, s: Statement) -> Result<Tables, Failure> {
        let o = ask::made(rt, &self.now, ask::read(s.words)?)?;
        show::answer(rt, s.name, &o)?;
        print!(rt; "{}", Changes(&self.now, &o.tables))?;
        Ok(o.tables)
    }

    // `do REQUEST`
    pub(crate) fn perform(&mut self, rt: &impl Print, s: Statement) -> Result<(), Failure> {
        self.now = self.told(rt, s)?;
        println!(rt)?;
        Ok(())
    }

    // `ask REQUEST`: the tables stay as they were.
    pub(crate) fn ask(&self, rt: &impl Print, s: Statement) -> Result<(), Failure> {
        self.told(rt, s)?;
        println!(rt)?;
        Ok(())
    }

    // `broken REQUEST`: with what is not as in the tables kept; then back to these.
    pub(crate) fn broken(&mut self, rt: &impl Print, s: Statement) -> Result<(), Failure> {
        self.told(rt, s)?;
        println!(rt; "; broken{}", Differing(&self.kept, &self.now))?;
        self.back();
        Ok(())
    }

    // `edge REQUEST`
    pub(crate) fn edge(&mut self, rt: &impl Print, s: Statement) -> Result<(), Failure> {
        let q = ask::read(s.words)?;
        self.now = edges::edge(rt, s.name, &self.now, q)?;
        Ok(())
    }

    // `gather N REQUEST`: the request as so many rows more.
    pub(crate) fn gather(&mut self, mut s: Statement) -> Result<(), Failure> {
        let times = s.words.up_to(ROWS)?;
        let q = ask::read(s.words)?;
        self.batch.gather(q, times);
        Ok(())
    }

    // `run NUMBERS ROOM ROLES`: so many numbers of the rows, with room for so many answers and so many roles.
    pub(crate) fn run(&mut self, rt: &impl Print, mut s: Statement) -> Result<(), Failure> {
        let extent = Extent::read(&mut s.words)?;
        rt.write_all(s.name)?;
        print!(rt; ":")?;
        self.now = self.batch.run(rt, &self.now, extent)?;
        Ok(())
    }
}
