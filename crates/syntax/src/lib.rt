//! From the bytes of an expression to its tree.
//!
//! `parser` asks the others in this order. `grammar` decides whether some expression is written so, and where not.
//! `limits` goes over the tokens that `lexer` cuts, and looks into their `sets`, for what an expression may not have.
//! Then the `tree` is built, from the same tokens.

#![tactic(auto)]

mod grammar;
mod lexer;
mod limits;
mod members;
mod mode;
mod parser;
mod sets;
mod signs;
mod tree;

pub use limits::{DEEPEST, LONGEST, MOST_POSITIONS};
pub use mode::{Mode, UnknownMode};
pub use parser::parse;
pub use tree::{Atom, Mark, Node};
