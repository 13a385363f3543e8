// The search: its numbers and calls, the walk at one place, the five calls, and the one call that carries the list theorem.

#![tactic(auto)]

mod numbers;
mod state;
mod theorem;
mod walks;

pub use numbers::{Answer, Call, Match, Numbers, Outcome, Stop};
pub use state::Search;
pub use theorem::perform;
