// What the calls of a script come to, as it is printed.
ghost use Rattle.std.specs.Prelude.{◌≡◌, IfOk, Some, string_bytes, take};
ghost use Rattle.std.specs.List.{flat_map};
ghost use Rattle.search.specs.Messages.{match_line};
ghost use Rattle.calling.specs.Told.{answer_line, Tells};
ghost use Rattle.calling.specs.Messages.{telling_text};

use making::make;
use refusal::Fault;
use script::Script;
use search::{Answer, Match, Numbers, Outcome};
use std::alloc::{AllocError, Global};
use std::fmt;

// A line for each answer.
// two types: one over any item would have to be told what each item is printed as
#[derive(Drop)]
struct AnswerLines<'a> {
    answers: &'a [Answer],
}

impl fmt::Display for AnswerLines<'_> {
    ghost output = { λ l. Some (flat_map answer_line l.answers.now) };

    fn fmt<W: fmt::Write>(&self, f: &mut fmt::Formatter<W>) -> fmt::Result {
        for answer in self.answers {
            writeln!(f, "{answer}")?;
        }
        Ok(())
    }
}

// A line for each match.
#[derive(Drop)]
struct MatchLines<'a> {
    matches: &'a [Match],
}

impl fmt::Display for MatchLines<'_> {
    ghost output = { λ l. Some (flat_map match_line l.matches.now) };

    fn fmt<W: fmt::Write>(&self, f: &mut fmt::Formatter<W>) -> fmt::Result {
        for &(start, end) in self.matches {
            writeln!(f, "{start} {end}")?;
        }
        Ok(())
    }
}

fn filled_part(numbers: Numbers, table: &[Match]) -> &[Match]
    ensures { result.now ≡ take numbers.filled table.now }
{
    &table[..table.len().min(numbers.filled as usize)]
}

// What the calls of a script come to, with the table as they leave it. It is printed piece by piece, so that a long text needs no memory.
#[derive(Drop)]
pub(crate) struct Telling {
    outcome: Result<Outcome, Fault>,
    table: Vec<Match>,
}

impl fmt::Display for Telling {
    ghost output = { λ t. Some (telling_text t) };

    fn fmt<W: fmt::Write>(&self, f: &mut fmt::Formatter<W>) -> fmt::Result {
        match &self.outcome {
            Ok(outcome) => {
                let numbers = outcome.numbers;
                let answers = AnswerLines {
                    answers: &outcome.answers,
                };
                let matches = MatchLines {
                    matches: filled_part(numbers, &self.table),
                };
                write!(f, "{answers}{numbers}\n{matches}")
            }
            Err(fault) => writeln!(f, "{fault}"),
        }
    }
}

// Makes the calls of a script.
pub(crate) fn tell(heap: Global, script: &Script<'_>) -> Result<Telling, AllocError>
    ensures { IfOk result (λ telling. Tells script.now.expression.now script.now.size script.now.calls.items script.now.text.now (telling_text telling)) }
{
    let mut table = vec![in heap; (0, 0); script.size as usize]?;
    let outcome = make(
        heap,
        script.expression,
        script.text,
        &script.calls,
        &mut table,
    );
    Ok(Telling { outcome, table })
}

/// A line for each call's answer, one for the numbers at their end, and one for each match of the filled part of the table; or the one line of the refusal.
/// For the script `aba`, `table 1`, `step single`, and the text `ababa`: `wrote 0` and `from 0 next 1 filled 0 walks 1 reads 0`.
pub fn told(heap: Global, script: &Script<'_>) -> Result<String, AllocError>
    ensures { IfOk result (λ told. Tells script.now.expression.now script.now.size script.now.calls.items script.now.text.now (string_bytes told)) }
{
    let telling = tell(heap, script)?;
    format!(in heap; "{telling}")
}

#[cfg(test)]
mod tests {
    use crate::telling::told;
    use script::read_script;

    #[test]
    fn a_step_is_told(rt: HostRuntime) {
        let script = read_script(rt.alloc(), b"aba\ntable 1\nstep single\n\nababa").expect(
            &rt,
            "the script is in order",
        );
        let text = told(rt.alloc(), &script).expect(&rt, "there is memory");
        assert_eq!(rt;
            text.as_str(),
            "wrote 0\nfrom 0 next 1 filled 0 walks 1 reads 0\n"
        );
    }
}
