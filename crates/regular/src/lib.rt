//! The mathematics under the finder: expressions and their words, positions, matches and jumps.
//!
//! The definitions stand in specs/, one subject to a file, in the order of the lines below.
//! Each function is a theorem: its contract is the statement, and its body is empty.

#![tactic(auto)]

ghost use Rattle.regular.specs.Language.{ShortestKnown, TailsOfTails};
ghost use Rattle.regular.specs.Positions.{WordsAccepted, TailsTailed};
ghost use Rattle.regular.specs.Numbered.{PositionsMeanWords};
ghost use Rattle.regular.specs.Matches.{ListsAreExact, LongestIsFound};
ghost use Rattle.regular.specs.Jumps.{JumpsBounded};

/// Tails are closed under taking ends, and the empty word is a tail.
/// For `ab+c`: `abbc` is a tail, so `bbc`, `bc`, `c` and the empty word are.
#[tactic(auto, using(crate::proofs::Tails::tails_of_tails))]
pub fn tails_have_tails()
    ensures { TailsOfTails }
{}

/// The shortest length that is computed is the length of a shortest word.
/// For `ab+c` it is 3, by `abc`; for `a*` it is 0.
#[tactic(auto, using(crate::proofs::Tails::shortest_known))]
pub fn shortest_is_known()
    ensures { ShortestKnown }
{}

/// Reading a word right to left over positions reaches a final one exactly if it is a word of the language.
/// For `ab+c`, reading `abc` goes from 0 to 3, 2 and 1, and 1 is final.
#[tactic(auto, using(crate::proofs::Reading::words_accepted))]
pub fn words_are_accepted()
    ensures { WordsAccepted }
{}

/// Reading reaches anything at all exactly if the word is a tail, where every set holds some code.
/// For `ab+c`, reading `bc` reaches 2; reading `ac` reaches nothing.
#[tactic(auto, using(crate::proofs::Tails::tails_tailed))]
pub fn tails_are_tailed()
    ensures { TailsTailed }
{}

/// Positions are the sets in written order, and what can begin a word, end one or stand just before another is so by the words of positions.
/// For `ab+c` the words of positions are `123`, `1223`, ..: 1 begins, 3 ends, and 2 stands before 2 and 3.
pub fn positions_mean_words()
    ensures { PositionsMeanWords }
{}

/// The lists over one end place and over a range of them are exactly the matches there, each once, in order; no other list is.
/// For `a*` on `a`, all places: (0,0), (1,1), (0,1).
#[tactic(auto, using(crate::proofs::Endings::every_list_is_exact))]
pub fn lists_are_exact()
    ensures { ListsAreExact }
{}

/// The longest tail that ends at a place is found, where every set holds some code.
/// For `ab+c` on `xabb` the one that ends at 4 is empty; on `xabbc` the one that ends at 5 starts at 1.
#[tactic(auto, using(crate::proofs::Longest::every_longest_is_found))]
pub fn longest_is_found()
    ensures { LongestIsFound }
{}

/// No jump that passes no match is longer than a shortest word, or than 1 if that is empty.
/// For `ab+c` no jump is over 3, from whatever tail.
pub fn jumps_are_bounded()
    ensures { JumpsBounded }
{}
