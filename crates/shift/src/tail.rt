// A tail.
ghost use Rattle.std.specs.Prelude.{◌≡◌, [], ◌∷◌, ◌&&◌, ◌==◌, length, is_some, IfOk};
ghost use Rattle.regular.specs.Language.{Regex};
ghost use Rattle.shift.specs.Led.{led};
ghost use Rattle.shift.specs.Excess.{excess_of};

use positions::Positions;
use std::alloc::{AllocError, Global};
use std::marker::Model;

/// A tail by its codes, with the positions that it leads to.
#[derive(Drop)]
pub struct Tail {
    codes: Vec<u8>,
    positions: Positions,
}

impl Model for Tail {
    ghost use Rattle.shift.specs.Led.{Led};

    ghost Value = { Led };

    ghost view = { λ t. record { codes = t.codes.items; positions = t.positions } };
}

impl Tail {
    // The empty one, which leads to the start alone.
    pub(crate) fn empty(heap: Global) -> Tail
        ensures { (r : Regex) → result ≡ led r [] }
    {
        Tail {
            codes: Vec::new(heap),
            positions: Positions::only(0),
        }
    }

    pub(crate) fn codes(&self) -> &[u8]
        ensures { result.now ≡ self.now.codes }
    {
        &self.codes
    }

    pub(crate) fn positions(&self) -> Positions
        ensures { result ≡ self.now.positions }
    {
        self.positions
    }

    // How much longer it is than a proper head of it.
    pub(crate) fn excess(&self, head: &[u8]) -> Option<usize>
        ensures { result ≡ excess_of head.now self.now.codes }
    {
        // most tails are no longer than it, and need no look at their codes
        if self.codes.len() <= head.len() {
            return None;
        }
        let rest = self.codes.strip_prefix(head)?;
        (!rest.is_empty()).then_some(rest.len())
    }

    // It has the length, and the word given is a proper head of it.
    pub(crate) fn goes_on(&self, head: &[u8], depth: usize) -> bool
        ensures { result ≡ (length self.now.codes == depth && is_some (excess_of head.now self.now.codes)) }
    {
        self.codes.len() == depth && self.excess(head).is_some()
    }

    // The tail with a code more before it, which leads to the positions.
    pub(crate) fn preceded_by(
        &self,
        heap: Global,
        code: u8,
        positions: Positions,
    ) -> Result<Tail, AllocError>
        ensures { IfOk result (λ t. t ≡ record { codes = code ∷ self.now.codes; positions = positions }) }
    {
        let mut codes = Vec::new(heap);
        codes.push(code)?;
        codes.extend_from_slice(&self.codes)?;
        Ok(Tail { codes, positions })
    }
}
