//! Finds how far a search may go on from each position of an expression.
//!
//! `kinds` tells an engine's codes apart, `tails` lists the tails of kinds by lengths and reckons the distances of a word,
//! and `pieces` takes for each position the least over those that count for it.

#![tactic(auto)]

mod jumps;
mod kinds;
mod pieces;
mod tail;
mod tails;

pub use jumps::position_jumps;
