ghost use Rattle.std.specs.Prelude.{◌≡◌, MatchResult};
ghost use Rattle.std.specs.Coded.{le_prop};
ghost use Rattle.refusal.specs.declared.Fault.TheVariants.{Memory};
ghost use Rattle.regular.specs.Positions.{reached};
ghost use Rattle.regular.specs.Sets.{as_set};
ghost use Rattle.syntax.specs.Tree.{language};
ghost use Rattle.syntax.proofs.Filled.{full_inhabited};
ghost use Rattle.distance.specs.Distances.{PositionJumps};
ghost use Rattle.distance.proofs.Safe.{jumps_safe};
ghost use Rattle.shift.proofs.Greatest.{greatest_jump};
ghost use Rattle.tabled.specs.Jumps.{greatest_of};
ghost use Rattle.tabled.specs.Exact.{JumpsExactly};
ghost use Rattle.std.proofs.Math.Logic.{∥∥₁_elim};

use crate::tabled::Tabled;
use engine::Engine;
use expression::Expression;
use positions::Positions;
use refusal::Fault;
use shift::position_jumps;
use single::SingleStep;
use std::alloc::Global;

impl Tabled {
    /// Builds the engine of an accepted expression: `Tabled::new(heap, read(heap, Mode::Bytes, b"ab+c")?)`.
    /// At each tail its jump is the greatest number of the positions that the tail leads to. Only want of memory refuses it.
    pub fn new(heap: Global, expression: Expression) -> Result<Tabled, Fault>
        ensures { MatchResult result (JumpsExactly expression.tree) (λ f. f ≡ Memory) }
    {
        let single = SingleStep::new(heap, expression)?;
        let jumps = position_jumps(heap, &single)?;
        Ok(Tabled { single, jumps })
    }
}

/// The state is the set of the positions that what was read leads to, the start being 0.
impl Engine for Tabled {
    type State = Positions;

    ghost expression = { λ e. language e.single.expression.tree };

    ghost after = { λ e v. as_set (reached (language e.single.expression.tree) v) };

    ghost shift = { λ e v. greatest_of (language e.single.expression.tree) e.jumps.items v };

    ghost inhabited = { λ e. full_inhabited e.single.expression.tree e.single.expression.full };

    ghost skips = { λ e v tail.
        let x = e.single.expression in
        let r = language x.tree in
        let safe = λ (P : PositionJumps r e.jumps.items). jumps_safe.set r (greatest_of r e.jumps.items) (greatest_jump r x.few (full_inhabited x.tree x.full) e.jumps.items P) v tail in (
          ∥∥₁_elim e.exact le_prop (λ P. (safe P).0),
          λ u y l k w. ∥∥₁_elim e.exact (λ a. absurd a) (λ P. (safe P).1 u y l k w),
        ) };

    fn start(&self) -> Positions {
        self.single.start()
    }

    fn advance(&self, state: Positions, code: u8) -> Option<Positions> {
        self.single.advance(state, code)
    }

    fn is_final(&self, state: Positions) -> bool {
        self.single.is_final(state)
    }

    fn jump(&self, state: Positions) -> u32 {
        state.greatest(&self.jumps)
    }
}
