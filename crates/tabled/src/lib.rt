//! The tabled engine: it follows sets of positions, and jumps by the distances.

#![tactic(auto)]

mod steps;
mod tabled;

pub use tabled::Tabled;
