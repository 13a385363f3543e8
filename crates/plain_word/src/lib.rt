//! An expression that spells one word: what its tails are, and how far a search for the word may go on.
//!
//! The definitions stand in specs/Jumps; specs/Theorems states what holds of them.
//! Each function is a theorem: its contract is the statement, and its body is empty.

#![tactic(auto)]

ghost use Rattle.plain_word.specs.Theorems.{EndsAreTails, MovesAreJumps};

/// The tails are the word's ends, one of each length.
/// For `aba` they are the empty word, `a`, `ba` and `aba`.
#[tactic(auto, using(crate::proofs::Plain::ends_tails))]
pub fn ends_are_tails()
    ensures { EndsAreTails }
{}

/// The lesser of the two distances of an end is the least move by which the word agrees with that end of itself.
/// For `aba` with `a` read it is 2: moved on by 1 a `b` would stand over that `a`.
#[tactic(auto, using(crate::proofs::Plain::moves_jump))]
pub fn moves_are_jumps()
    ensures { MovesAreJumps }
{}
