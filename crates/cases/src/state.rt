// What a run of cases works on, and the statements that edit or show it.
use crate::batch::Batch;
use crate::failure::{Failure, Unread};
use crate::field::Field;
use crate::record::Place;
use crate::statement::{Statement, Verb};
use crate::words;
use guard::sizes::{EDITION_1, USERS};
use guard::{Tables, User};

// The tables, and those kept to go back to; and the batch.
#[derive(Clone, Copy)]
pub struct State {
    pub(crate) now: Tables,
    pub(crate) kept: Tables,
    pub(crate) batch: Batch,
}

// Fresh tables of edition 1 over sixteen users of ceiling 0 and clearance 0/0.
fn nobody() -> Tables {
    Tables::fresh([User::default(); USERS], EDITION_1).tables
}

impl State {
    pub fn new() -> State {
        let now = nobody();
        State {
            now,
            kept: now,
            batch: Batch::new(),
        }
    }

    // Runs a statement, and prints what it tells.
    pub fn run_line(&mut self, rt: &impl Print, line: &[u8]) -> Result<(), Failure> {
        let mut s = Statement::from(line);
        match s.verb() {
            Verb::Comment => {}
            Verb::Clear => self.clear(),
            Verb::Keep => self.keep(),
            Verb::Back => self.back(),
            Verb::Fresh => self.fresh(rt, s)?,
            Verb::Old => self.old(rt, s)?,
            Verb::Set => self.set(s)?,
            Verb::With => self.with(s)?,
            Verb::Show => self.show(rt, s)?,
            Verb::Say => s.say(rt)?,
            Verb::Compare => self.compare(rt, s)?,
            Verb::Gather => self.gather(s)?,
            Verb::Run => self.run(rt, s)?,
            Verb::Do => self.perform(rt, s)?,
            Verb::Ask => self.ask(rt, s)?,
            Verb::Broken => self.broken(rt, s)?,
            Verb::Edge => self.edge(rt, s)?,
            Verb::Request => self.request(rt, s)?,
        }
        Ok(())
    }

    // `clear`: fresh tables of edition 1 over sixteen users of 0, with no request gathered.
    fn clear(&mut self) {
        self.batch.clear();
        self.now = nobody();
    }

    // `keep`: the tables are kept to go back to.
    fn keep(&mut self) {
        self.kept = self.now;
    }

    // `back`: the tables are those that were kept.
    pub(crate) fn back(&mut self) {
        self.now = self.kept;
    }

    // A number into a field. It could not be read where the field does not hold it all.
    fn store(&mut self, place: Place, field: Field, n: u64) -> Result<(), Unread> {
        let mut record = place.record(&self.now).ok_or(Unread)?;
        record.put(field, n)?;
        record.store(&mut self.now, place.number);
        Ok(())
    }

    // `set KIND NUMBER FIELD N ..`: the field, and those behind it. A number that does not fit keeps none of the others out.
    fn set(&mut self, mut s: Statement) -> Result<(), Unread> {
        let place = Place::read(&mut s.words)?;
        place.record(&self.now).ok_or(Unread)?;
        let first = Field::try_from(s.words.word()?)?;
        let fields = place.kind.fields();
        let first = fields.iter().position(|f| *f == first).ok_or(Unread)?;
        let mut stored = Ok(());
        for field in fields.iter().skip(first) {
            let Some(word) = s.words.next() else {
                break;
            };
            let n = words::number(word)?;
            stored = self.store(place, *field, n).and(stored);
        }
        stored
    }

    // `with KIND NUMBER FIELD MEMBER`: one member more of a set.
    fn with(&mut self, mut s: Statement) -> Result<(), Unread> {
        let place = Place::read(&mut s.words)?;
        let record = place.record(&self.now).ok_or(Unread)?;
        let field = Field::try_from(s.words.word()?)?;
        let member = s.words.up_to(63)?;
        self.store(place, field, record.number(field) | 1 << member)
    }

    // `show KIND NUMBER`
    fn show(&self, rt: &impl Print, mut s: Statement) -> Result<(), Failure> {
        let place = Place::read(&mut s.words)?;
        let record = place.record(&self.now).ok_or(Unread)?;
        println!(rt; "  {place}{record}")?;
        Ok(())
    }
}
