ghost use Rattle.std.specs.Prelude.{◌≡◌, if◌then◌else◌, length, nat_lt, slice_index};
ghost use Rattle.syntax.specs.Tree.{language};
ghost use Rattle.word.specs.Exact.{MadeFor};
ghost use Rattle.syntax.proofs.Filled.{full_inhabited};
ghost use Rattle.plain_word.proofs.Plain.{skips as least_moves_skip};

use crate::letters::Letters;
use crate::spelling::is_plain;
use crate::word::Word;
use engine::Engine;
use expression::Expression;
use refusal::Fault;
use std::alloc::Global;

const NONE_READ: usize = 0;

// the jump beyond the word's length, where any number from 1 on would do
const ANY_JUMP: u32 = 1;

// The jump at a count; no word gives a count beyond the word's length.
fn entry(jumps: &[u32], count: usize) -> u32
    ensures { result ≡ (if nat_lt count (length jumps.now) then slice_index jumps.now count else 1) }
{
    jumps.get(count).copied().unwrap_or(ANY_JUMP)
}

impl Word {
    /// Builds the engine of a plain word: `Word::new(heap, read(heap, Mode::Bytes, b"abc")?)`.
    /// `[a]`, a dot, a group, `|` and any of `*`, `+`, `?` are refused.
    pub fn new(heap: Global, expression: Expression) -> Result<Word, Fault>
        ensures { MadeFor expression.tree result }
    {
        if !is_plain(&expression.tree) {
            return Err(Fault::NoPlainWord);
        }
        let letters = Letters::of(heap, &expression)?;
        let jumps = letters.least_moves(heap)?;
        Ok(Word {
            expression,
            letters,
            jumps,
        })
    }
}

/// The state is the count of symbols read, which are the word's last ones.
impl Engine for Word {
    type State = usize;

    ghost expression = { λ e. language e.expression.tree };

    ghost after = { λ e v. length v };

    ghost shift = { λ e v. slice_index e.jumps.items (length v) };

    ghost inhabited = { λ e. full_inhabited e.expression.tree e.expression.full };

    ghost skips = { λ e. least_moves_skip e.expression.tree e.letters e.expression.exact e.spells e.expression.few e.jumps.items e.count e.least };

    fn start(&self) -> usize {
        NONE_READ
    }

    fn advance(&self, state: usize, code: u8) -> Option<usize> {
        self.letters.next(state, code)
    }

    fn is_final(&self, state: usize) -> bool {
        state == self.letters.count()
    }

    fn jump(&self, state: usize) -> u32 {
        entry(&self.jumps, state)
    }
}
