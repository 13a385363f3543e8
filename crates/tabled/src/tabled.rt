ghost use Rattle.syntax.specs.Tree.{language};
ghost use Rattle.distance.specs.Distances.{PositionJumps};

use single::SingleStep;

/// An engine that follows the set of positions which what is read can stand at, and jumps by the distances.
/// It owns the single-step engine of its expression, and how far a search may go on from each position.
/// For `ab+c` it jumps 3 from wherever a `c` was read, and 1 otherwise.
#[derive(Drop)]
pub struct Tabled {
    pub single: SingleStep,
    pub jumps: Vec<u32>,
    ghost exact: { ∥ PositionJumps (language single.expression.tree) jumps.items ∥₁ },
}
