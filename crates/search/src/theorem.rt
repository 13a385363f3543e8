ghost use Rattle.search.specs.Performing.{Performs};

use crate::numbers::{Call, Match, Outcome};
use crate::state::Search;
use engine::{Engine, Symbol};
use refusal::Fault;
use std::alloc::Global;

/// Opens a search of the text, makes the calls in turn on it and on the table, and hands back its numbers and every answer.
/// Engine number 0 is the first of the row, 1 the second, and a number that the row does not have names the spare one.
/// With the call `Call::Run { engine: 0, budget: 9 }` it lists all matches in `b"xabbcabc"`.
pub fn perform<S: Symbol, E: Engine>(
    heap: Global,
    text: &[S],
    engines: &[E],
    spare: &E,
    calls: &[Call],
    table: &mut [Match],
) -> Result<Outcome, Fault>
    ensures { Performs S.code E.expression E.shift text.now engines.now spare.now calls.now table.old table.new result }
{
    let mut search = Search::open(text)?;
    let mut answers = Vec::with_capacity(heap, calls.len())?;
    for &call in calls {
        answers.push_reserved(search.call(engines, spare, call, table));
    }
    Ok(Outcome {
        numbers: search.numbers(),
        answers,
    })
}
