//! The worked cases: small expressions, texts and labels on which all that the definitions give was worked out by hand.
//!
//! specs/WorkedCases states them, over the definitions of the other crates. The function is a theorem: its contract is the statement, and its body is empty.

#![tactic(auto)]

ghost use Rattle.worked_cases.specs.WorkedCases.{WorkedCases};

/// The definitions come to what was worked out by hand, in every one of the cases.
/// One of them: `ab+c` on `xabbcabc` has the matches (1, 5) and (5, 8), and a search by its jumps takes 7 walks and 13 reads.
#[tactic(auto, using(crate::proofs::Cases::all_worked_cases))]
pub fn cases_are_as_worked()
    ensures { WorkedCases }
{}
