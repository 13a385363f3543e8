// Reads a script of calls: what an expression, a table's size, calls and a text are written as.

#![tactic(auto)]

mod calls;
mod engines;
mod scripts;

pub use calls::{read_call, read_table};
pub use engines::{EngineName, UnknownEngine};
pub use scripts::{Misread, Script, read_script};
