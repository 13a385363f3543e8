//! Sets of the positions of an expression: the numbers 0 to 63, of which 0 is the start.

#![tactic(auto)]

mod members;
mod positions;

pub use members::Members;
pub use positions::Positions;
