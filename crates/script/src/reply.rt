// The answer to a line of values, and the bench after it.
ghost use Rattle.std.specs.Prelude.{◌≡◌, Some};
ghost use Rattle.script.specs.Report.{answer_line};

use crate::limits;
use crate::line::{Line, UserRecord};
use guard::{Label, Tables, User, sizes};

// The bench between two lines: its tables, and whether a readable line with a word other than `user` has come.
#[derive(Clone, Copy)]
pub struct Bench {
    pub tables: Tables,
    pub shut: bool,
}

// The bench after a line, and the line's answer.
#[derive(Clone, Copy)]
pub struct Answered {
    pub bench: Bench,
    pub answer: u8,
}

// Sets a user's record, in ranges and before any other word.
fn set_user(mut b: Bench, u: UserRecord) -> Answered
    ensures { result ≡ answer_line b (Some (Line.SetUser u)) }
{
    if b.shut {
        return Answered {
            bench: b,
            answer: limits::UNREAD,
        };
    }
    if (sizes::USER_END <= u.user)
        | ((sizes::TOP_GRADE_ASKED < u.level)
            | ((sizes::ALL_CATEGORIES < u.cats) | (sizes::TOP_LEVEL_ASKED < u.ceiling)))
    {
        return Answered {
            bench: b,
            answer: 2,
        };
    }
    let i = u.user as usize;
    let clearance = Label {
        cats: u.cats as u16,
        grade: u.level as u8,
    };
    let set = User {
        ceiling: u.ceiling as u8,
        clearance,
    };
    b.tables.users[i] = set;
    Answered {
        bench: b,
        answer: 0,
    }
}

// Answers what a line asks.
pub fn answer_line(b: Bench, l: Option<Line>) -> Answered
    ensures { result ≡ answer_line b l }
{
    match l {
        Some(Line::Ask(q)) => {
            let o = b.tables.step(q);
            let tables = o.tables;
            Answered {
                bench: Bench { tables, shut: true },
                answer: o.answer,
            }
        }
        Some(Line::SetUser(u)) => set_user(b, u),
        None => Answered {
            bench: b,
            answer: limits::UNREAD,
        },
    }
}
