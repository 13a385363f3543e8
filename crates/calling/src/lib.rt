// Makes the calls of a script, and tells what they come to.

#![tactic(auto)]

mod printing;
mod telling;

pub use printing::answer;
pub use telling::told;
