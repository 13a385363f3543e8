// Makes calls on a search for the matches of a byte expression.

#![tactic(auto)]

mod engines;

ghost use Rattle.making.specs.Outcomes.{Makes};

use crate::engines::{engine_of, last_of, names_word};
use either::{Left, Right};
use refusal::Fault;
use search::{Call, Match, Outcome, perform};
use single::SingleStep;
use std::alloc::Global;
use tabled::Tabled;

/// Makes the calls on a search of the text for the matches of a byte expression: engine 0 is the single-step one, 1 the tabled one and 2 the word engine.
/// Where a call names the word engine and the expression is no plain word, nothing is done.
pub fn make(
    heap: Global,
    expression: &[u8],
    text: &[u8],
    calls: &[Call],
    table: &mut [Match],
) -> Result<Outcome, Fault>
    ensures { Makes expression.now text.now calls.now table.old table.new result }
{
    let single = engine_of(heap, expression, SingleStep::new)?;
    let tabled = engine_of(heap, expression, Tabled::new)?;
    let asked = names_word(calls);
    let last = last_of(heap, expression, asked)?;
    let engines = [Left(single), Right(Left(tabled))];
    perform(heap, text, &engines, &last, calls, table)
}
