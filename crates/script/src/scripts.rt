ghost use Rattle.std.specs.Prelude.{◌≡◌, ℕ, ◌+◌, ◌⊎◌, MatchResult};
ghost use Rattle.script.specs.declared.scripts.Misread.{Misread};
ghost use Rattle.script.specs.Scripts.{WritesCalls, NoCallAt, WritesScript, WrongLine};

use crate::calls::{read_call, read_table};
use lines::parted;
use search::Call;
use std::alloc::{AllocError, AllocFailed, Global};
use std::error::Error;
use std::fmt;

/// A script taken apart: the expression's line, the table's size, the calls, and the text.
#[derive(Drop)]
pub struct Script<'a> {
    pub expression: &'a [u8],
    pub size: u32,
    pub calls: Vec<Call>,
    pub text: &'a [u8],
}

/// Why a script is not taken: a line that is no call or no table, by its number from 1, or want of memory.
#[derive(Clone, Copy, Debug, PartialEq, Eq)]
pub enum Misread {
    Line { number: usize },
    Memory,
}

impl From<AllocError> for Misread {
    ghost from_gives = { λ _ r. r ≡ Misread.Memory };

    fn from(_error: AllocError) -> Misread {
        Misread::Memory
    }
}

impl<T: Drop> From<AllocFailed<T>> for Misread {
    ghost from_gives = { λ _ r. r ≡ Misread.Memory };

    fn from(_failed: AllocFailed<T>) -> Misread {
        Misread::Memory
    }
}

/// `bad line 3`, or `out of memory`.
impl fmt::Display for Misread {
    ghost use Rattle.std.specs.Prelude.{Some};
    ghost use Rattle.script.specs.Messages.{misread_text};

    ghost output = { λ m. Some (misread_text m) };

    fn fmt<W: fmt::Write>(&self, f: &mut fmt::Formatter<W>) -> fmt::Result {
        match self {
            Misread::Line { number } => write!(f, "bad line {number}"),
            Misread::Memory => f.write_str("out of memory"),
        }
    }
}

impl Error for Misread {}

// The calls, a line for each, and the text behind the empty line.
fn read_calls(heap: Global, bytes: &[u8]) -> Result<(Vec<Call>, &[u8]), Misread>
    ensures { MatchResult result (λ x. WritesCalls bytes.now x.0.items x.1.now) (λ m. (m ≡ Misread.Memory) ⊎ ((n : ℕ) × (m ≡ Misread.Line (n + 3)) × NoCallAt bytes.now n)) }
{
    let mut calls = Vec::new(heap);
    let mut rest = bytes;
    loop {
        let (line, behind) = parted(rest);
        if line.is_empty() {
            return Ok((calls, behind));
        }
        let Some(call) = read_call(line) else {
            return Err(Misread::Line {
                number: calls.len() + 3,
            });
        };
        calls.push(call)?;
        rest = behind;
    }
}

/// Takes a script apart: its first line is an expression, the second gives the table's size, then a call stands on each line, and behind an empty line the text.
/// The first line that is wrong is refused by its number.
pub fn read_script(heap: Global, bytes: &[u8]) -> Result<Script<'_>, Misread>
    ensures { MatchResult result (λ s. WritesScript bytes.now s.expression.now s.size s.calls.items s.text.now) (λ m. (m ≡ Misread.Memory) ⊎ ((n : ℕ) × (m ≡ Misread.Line n) × WrongLine bytes.now n)) }
{
    let (expression, rest) = parted(bytes);
    let (table, rest) = parted(rest);
    let Some(size) = read_table(table) else {
        return Err(Misread::Line { number: 2 });
    };
    let (calls, text) = read_calls(heap, rest)?;
    Ok(Script {
        expression,
        size,
        calls,
        text,
    })
}
