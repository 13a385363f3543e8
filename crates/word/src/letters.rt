// The letters of a plain word, and how far the word may be moved over itself.
ghost use Rattle.std.specs.Prelude.{◌≡◌, ℕ, ◌+◌, ◌<◌, ◌≤◌, true, ◌↔◌, length, is_some, IfOk, MatchOption, Some, vec_len, slice_index};
ghost use Rattle.syntax.specs.Tree.{spelling};
ghost use Rattle.plain_word.specs.Jumps.{Precedes, Agrees, LeastMove};

use crate::spelling::spell;
use expression::Expression;
use std::alloc::{AllocError, Global};
use std::marker::Model;

/// The letters of a plain word, of which an expression has 1 to 63.
#[derive(Drop)]
pub struct Letters {
    list: Vec<u8>,
}

impl Model for Letters {
    ghost use Rattle.std.specs.Prelude.{ℕ, ◌≤◌, List, length};

    ghost Value = { List ℕ };

    ghost view = { λ w. w.list.items };

    ghost invariant = { λ w. (1 ≤ length w.list.items) × (length w.list.items ≤ 63) };
}

impl Letters {
    pub(crate) fn of(heap: Global, expression: &Expression) -> Result<Letters, AllocError>
        requires { is_some (spelling expression.now.tree) ≡ true }
        ensures { IfOk result (λ w. spelling expression.now.tree ≡ Some w) }
    {
        let mut list = Vec::new(heap);
        spell(&mut list, &expression.tree)?;
        Ok(Letters { list })
    }

    /// The letters as they are read, `b"aba"` for `aba`.
    pub fn as_slice(&self) -> &[u8]
        ensures { result.now ≡ self.now }
    {
        &self.list
    }

    pub(crate) fn count(&self) -> usize
        ensures { result ≡ length self.now }
    {
        self.list.len()
    }

    // One more symbol read, if it is the letter that stands before the last `count` ones.
    pub(crate) fn next(&self, count: usize, code: u8) -> Option<usize>
        ensures { MatchOption result (Precedes self.now count code → ⊥) (λ s. Precedes self.now count code × (s ≡ count + 1)) }
    {
        let letter = self.list.iter().rev().nth(count)?;
        (*letter == code).then_some(count + 1)
    }

    // The word moved on by n agrees with its own last j letters where it stands over them.
    fn agrees(&self, j: usize, n: usize) -> bool
        requires within { j ≤ length self.now }
        requires moved { n ≤ length self.now }
        ensures { (result ≡ true) ↔ Agrees self.now j n }
    {
        let m = self.list.len();
        let over = (m - j).max(n);
        self.list[over - n..m - n] == self.list[over..]
    }

    // The least such n from 1 on.
    fn least_move(&self, j: usize) -> u32
        requires { j ≤ length self.now }
        ensures { LeastMove self.now j result }
    {
        let m = self.list.len();
        (1..m).find(|n| self.agrees(j, *n)).unwrap_or(m) as u32
    }

    // One for each count of symbols read.
    pub(crate) fn least_moves(&self, heap: Global) -> Result<Vec<u32>, AllocError>
        ensures { IfOk result (λ v. (vec_len v ≡ length self.now + 1) × ((j : ℕ) → j < vec_len v → LeastMove self.now j (slice_index v.items j))) }
    {
        (0..=self.list.len())
            .map(|j| self.least_move(j))
            .collect(heap)
    }
}
