// The request program as a library on slices: what it prints for an input is `report` of specs/Report.
#![tactic(auto)]

mod batch;
pub mod buffer;
mod digit;
mod fields;
mod header;
mod limits;
mod line;
mod print;
mod reply;
mod row;
pub mod runner;
mod text;
