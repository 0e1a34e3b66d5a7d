// The ends of the ranges: a request with one field past its range, or at the last number; and on unsound tables.
use crate::ask::Field;
use crate::{ask, show};
use guard::{Request, Tables};
use std::io;

// The first number past a field's range.
fn past(field: Field) -> u32 {
    match field {
        Field::Entity | Field::Parent => 64,
        Field::Kind | Field::Shared => 2,
        Field::Name | Field::Cats => 65536,
        Field::Grade => 4,
        Field::Seat | Field::User | Field::Role | Field::Rights | Field::Junior => 16,
    }
}

// The answers with one field at the number that is given for it, for each field but the call.
fn each<F: Fn(Field) -> u32 + Drop>(
    rt: &impl Print,
    t: &Tables,
    q: Request,
    number: F,
) -> io::Result<()>
    requires { F.IsAlwaysCallable number }
{
    for field in Field::ALL {
        let o = ask::made(rt, t, ask::with(q, field, number(field)))?;
        print!(rt; " {}", o.answer)?;
    }
    Ok(())
}

// The answer; those with one field past its range, and at the last number; and that on tables with one number out of range,
// of a user that no seat has.
pub fn edge(rt: &impl Print, name: &[u8], t: &Tables, q: Request) -> io::Result<Tables> {
    let o = ask::made(rt, t, q)?;
    show::answer(rt, name, &o)?;
    print!(rt; "; past")?;
    each(rt, t, q, past)?;
    print!(rt; "; most")?;
    each(rt, t, q, |_| u32::MAX)?;
    let mut unsound = *t;
    unsound.users[3].ceiling = 4;
    let told = ask::made(rt, &unsound, q)?;
    println!(rt; "; unsound {}", told.answer)?;
    Ok(o.tables)
}
