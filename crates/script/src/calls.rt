ghost use Rattle.std.specs.Prelude.{◌≡◌, ℕ, MatchOption};
ghost use Rattle.search.specs.declared.numbers.Call.TheVariants.{Step, Run, Clear, Move};
ghost use Rattle.script.specs.Calls.{Writes, WritesTable};

use crate::engines::EngineName;
use lines::{decimal, split_once};
use search::Call;

// The most entries that a script may give the table: the matches that can end at one place of the longest text.
const MOST_ENTRIES: u32 = 65_536;

fn step_in(line: &[u8]) -> Option<Call>
    ensures { MatchOption result ((e : ℕ) → Writes line.now (Step e) → ⊥) (λ c. Writes line.now c) }
{
    let name = line.strip_prefix(b"step ")?;
    let engine = EngineName::try_from(name).ok()?.number();
    Some(Call::Step { engine })
}

fn run_in(line: &[u8]) -> Option<Call>
    ensures { MatchOption result ((e budget : ℕ) → Writes line.now (Run e budget) → ⊥) (λ c. Writes line.now c) }
{
    let rest = line.strip_prefix(b"run ")?;
    let (name, digits) = split_once(rest, b' ')?;
    let engine = EngineName::try_from(name).ok()?.number();
    let budget = decimal(digits, u32::MAX)?;
    Some(Call::Run { engine, budget })
}

fn move_in(line: &[u8]) -> Option<Call>
    ensures { MatchOption result ((place : ℕ) → Writes line.now (Move place) → ⊥) (λ c. Writes line.now c) }
{
    let digits = line.strip_prefix(b"move ")?;
    let place = decimal(digits, u32::MAX)?;
    Some(Call::Move { place })
}

fn clear_in(line: &[u8]) -> Option<Call>
    ensures { MatchOption result (Writes line.now Clear → ⊥) (λ c. Writes line.now c) }
{
    if line == b"clear".as_slice() {
        Some(Call::Clear)
    } else {
        None
    }
}

/// The call that a line writes: `read_call(b"run single 9")` is a run of engine 0 with a budget of 9.
pub fn read_call(line: &[u8]) -> Option<Call>
    ensures { MatchOption result ((c : Call) → Writes line.now c → ⊥) (λ c. Writes line.now c) }
{
    step_in(line)
        .or(run_in(line))
        .or(clear_in(line))
        .or(move_in(line))
}

/// The size that a line gives the table: `read_table(b"table 3")` is 3.
pub fn read_table(line: &[u8]) -> Option<u32>
    ensures { MatchOption result ((n : ℕ) → WritesTable line.now n → ⊥) (λ n. WritesTable line.now n) }
{
    decimal(line.strip_prefix(b"table ")?, MOST_ENTRIES)
}
