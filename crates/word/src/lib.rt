//! The word engine: it looks for one word, counts the symbols read, and jumps by the distances.

#![tactic(auto)]

mod letters;
mod spelling;
mod steps;
mod word;

pub use letters::Letters;
pub use word::Word;
