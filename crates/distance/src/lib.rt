//! How far a search may go on from what it has read, and that by such a jump it passes no match.
//!
//! The definitions stand in specs/, in the order Extremes, Kinds, Distances; specs/Theorems states what holds of them.
//! Each function is a theorem: its contract is the statement, and its body is empty.

#![tactic(auto)]

ghost use Rattle.distance.specs.Theorems.{JumpsSafe, Determined};

/// A jump by the distances passes no match, whatever stands before and behind.
/// For `ab+c`, one may go on by 3 from a place where nothing but `bc` of a match was read.
#[tactic(auto, using(crate::proofs::Safe::jumps_safe))]
pub fn jumps_are_safe()
    ensures { JumpsSafe }
{}

/// Each of the numbers that the distances are made of is one, if it is there.
/// For `aba` no number but 2 is the jump of the set that `a` leads to.
#[tactic(auto, using(crate::proofs::Safe::determined))]
pub fn jumps_are_determined()
    ensures { Determined }
{}
