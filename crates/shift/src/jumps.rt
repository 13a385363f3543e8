ghost use Rattle.std.specs.Prelude.{◌≡◌, MatchResult};
ghost use Rattle.refusal.specs.declared.Fault.TheVariants.{Memory};
ghost use Rattle.syntax.specs.Tree.{language};
ghost use Rattle.distance.specs.Distances.{PositionJumps};

use crate::pieces::Pieces;
use crate::tails::Tails;
use refusal::Fault;
use single::SingleStep;
use std::alloc::Global;

/// How far a search may go on from the start and from each position: 1, 3, 3 and 3 for `ab+c`.
/// Only want of memory refuses it.
pub fn position_jumps(heap: Global, engine: &SingleStep) -> Result<Vec<u32>, Fault>
    ensures { MatchResult result (λ t. PositionJumps (language engine.now.expression.tree) t.items) (λ f. f ≡ Memory) }
{
    let tails = Tails::of(heap, engine)?;
    let arrows = engine.arrows();
    let pieces = Pieces::of(heap, arrows, &tails)?;
    let jumps = pieces.jumps(heap, arrows.len())?;
    Ok(jumps)
}
