ghost use Rattle.std.specs.Prelude.{◌≡◌, ◌<◌, ◌≤◌, min, length, Some, MatchOption, slice_index_or};
ghost use Rattle.search.specs.Calls.{fresh};
ghost use Rattle.search.specs.Messages.{numbers_text, stop_text, answer_text};

use refusal::Fault;
use std::fmt;

/// A match: the places where it starts and ends. In `xabc` the match of `abc` is `(1, 4)`.
// a form that this project fixes (docs/DECISIONS.md)
pub type Match = (u32, u32);

/// The five numbers of a search.
#[derive(Clone, Copy, Debug, PartialEq, Eq)]
pub struct Numbers {
    /// The matches that end at this place or later are listed ..
    pub from: u32,
    /// .. and before this one, the next place to look at.
    pub next: u32,
    /// How many entries of the table hold them. The table is the caller's, and lent.
    pub filled: u32,
    /// How many steps were granted since `from`.
    pub walks: u32,
    /// How many symbols these steps read.
    pub reads: u32,
}

impl Numbers {
    // All at one place, with nothing done.
    pub(crate) fn at_rest(place: u32) -> Numbers
        ensures { result ≡ fresh place }
    {
        Numbers {
            from: place,
            next: place,
            filled: 0,
            walks: 0,
            reads: 0,
        }
    }

    /// Reads a match of the filled part of the table, as the places where it starts and ends: `numbers.found(&table, 0)` is the first one.
    pub fn found(&self, table: &[Match], index: u32) -> Option<(u32, u32)>
        ensures { MatchOption result (min self.now.filled (length table.now) ≤ index) (λ found. (index < self.now.filled) × (index < length table.now) × (found ≡ slice_index_or table.now index (0, 0))) }
    {
        if index < self.filled {
            table.get(index as usize).copied()
        } else {
            None
        }
    }
}

/// `from 0 next 6 filled 1 walks 2 reads 4`
impl fmt::Display for Numbers {
    ghost output = { λ numbers. Some (numbers_text numbers) };

    fn fmt<W: fmt::Write>(&self, f: &mut fmt::Formatter<W>) -> fmt::Result {
        let Numbers {
            from,
            next,
            filled,
            walks,
            reads,
        } = *self;
        write!(
            f,
            "from {from} next {next} filled {filled} walks {walks} reads {reads}"
        )
    }
}

/// Why a run ended.
#[derive(Clone, Copy, Debug, PartialEq, Eq)]
pub enum Stop {
    /// Every place is looked at.
    Finished,
    /// The steps that were allowed are done.
    Budget,
    /// More matches end at the next place than the table has room for.
    Room,
}

/// `finished`, `budget` or `room`
impl fmt::Display for Stop {
    ghost output = { λ stop. Some (stop_text stop) };

    fn fmt<W: fmt::Write>(&self, f: &mut fmt::Formatter<W>) -> fmt::Result {
        f.write_str(match self {
            Stop::Finished => "finished",
            Stop::Budget => "budget",
            Stop::Room => "room",
        })
    }
}

/// A call of a search; a step and a run name their engine by its number.
// a number and no reference: a rule of this project (docs/DECISIONS.md, "Search")
#[derive(Clone, Copy, Debug, PartialEq, Eq)]
pub enum Call {
    Step { engine: usize },
    Run { engine: usize, budget: u32 },
    Clear,
    Move { place: u32 },
}

/// What a call answers: how many matches a step wrote, how many steps a run did and why it ended, how many matches were cleared, or the refusal.
#[derive(Clone, Copy, Debug, PartialEq, Eq)]
pub enum Answer {
    Wrote(u32),
    Ran(u32, Stop),
    Cleared(u32),
    Moved,
    Refused(Fault),
}

/// `wrote 3`, `ran 5 finished`, `cleared 2`, `moved`, or `refused 11 at 9`; for want of room `refused 10 at 5 with 2`, the matches that end there.
impl fmt::Display for Answer {
    ghost output = { λ answer. Some (answer_text answer) };

    fn fmt<W: fmt::Write>(&self, f: &mut fmt::Formatter<W>) -> fmt::Result {
        match *self {
            Answer::Wrote(count) => write!(f, "wrote {count}"),
            Answer::Ran(steps, stop) => write!(f, "ran {steps} {stop}"),
            Answer::Cleared(count) => write!(f, "cleared {count}"),
            Answer::Moved => f.write_str("moved"),
            Answer::Refused(fault) => match fault {
                Fault::NoRoom { matches, .. } => write!(f, "{fault} with {matches}"),
                _ => write!(f, "{fault}"),
            },
        }
    }
}

/// What a list of calls comes to: the numbers of the search, and the answer of each call.
#[derive(Debug, Drop, PartialEq, Eq)]
pub struct Outcome {
    pub numbers: Numbers,
    pub answers: Vec<Answer>,
}
