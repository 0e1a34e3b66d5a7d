// What cases of the guard are run with: the words of a statement, records by kind, number and field, tables in records of the
// old width, requests, batches of them, what is printed, and the statements on the state of a run; and the files of a data
// folder. The program `guard_cases` reads statements from files. It is a crate of its own so that a new case, which is data of
// the program, leaves it proved.
#![tactic(auto)]

mod ask;
mod batch;
mod call;
mod edges;
mod failure;
mod field;
pub mod folder;
mod old;
mod record;
mod requests;
mod show;
mod state;
mod statement;
mod words;

pub use failure::Failure;
pub use state::State;
