// Symbols, engines and what an engine owes, and one of two engines as an engine.

#![tactic(auto)]

mod contract;
mod sides;
mod symbols;

pub use contract::Engine;
pub use symbols::Symbol;
