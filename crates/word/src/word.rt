ghost use Rattle.std.specs.Prelude.{◌≡◌, ℕ, ◌+◌, ◌<◌, length, Some, slice_index};
ghost use Rattle.syntax.specs.Tree.{spelling};
ghost use Rattle.plain_word.specs.Jumps.{LeastMove};

use crate::letters::Letters;
use expression::Expression;

/// An engine for an expression that is a plain word. Its state is the count of symbols read.
/// It owns the word's letters, and for each count how far a search may go on: 1, 2, 2 and 2 for `aba`.
#[derive(Drop)]
pub struct Word {
    pub expression: Expression,
    pub letters: Letters,
    pub jumps: Vec<u32>,
    ghost spells: { spelling expression.tree ≡ Some letters },
    ghost count: { length jumps.items ≡ length letters + 1 },
    ghost least: { (j : ℕ) → j < length jumps.items → LeastMove letters j (slice_index jumps.items j) },
}
