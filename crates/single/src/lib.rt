//! The single-step engine: it follows sets of positions, and jumps 1.

#![tactic(auto)]

mod fill;
mod single;

pub use single::SingleStep;
