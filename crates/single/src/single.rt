// The engine, and what it answers.
ghost use Rattle.std.specs.Prelude.{◌≡◌, length, MatchResult, bit_and, slice_index};
ghost use Rattle.refusal.specs.declared.Fault.TheVariants.{Memory};
ghost use Rattle.regular.specs.Language.{shortest};
ghost use Rattle.regular.specs.Positions.{final, reached};
ghost use Rattle.regular.specs.Sets.{as_set, arrows_of, followed, held_of};
ghost use Rattle.syntax.specs.Tree.{language};
ghost use Rattle.syntax.proofs.Filled.{full_inhabited};
ghost use Rattle.std.proofs.Common.{rules, arith};

use crate::fill::fill;
use engine::Engine;
use expression::Expression;
use positions::Positions;
use refusal::Fault;
use std::alloc::Global;

// the start, which is no position of the expression's
const START: usize = 0;

// every jump goes to the very next place
const STEP: u32 = 1;

/// An engine that follows the set of positions which what is read can stand at, and jumps 1.
/// It owns its expression, and for each position the ones that may stand before it, for each code the ones that hold it, and the final ones.
#[derive(Drop)]
pub struct SingleStep {
    pub expression: Expression,
    pub arrows: Vec<Positions>,
    pub held: [Positions; 256],
    pub finals: Positions,
    ghost entering: { arrows.items ≡ arrows_of (language expression.tree) },
    ghost holding: { held ≡ held_of (language expression.tree) },
    ghost ending: { finals ≡ as_set (final (language expression.tree)) },
}

impl SingleStep {
    /// Builds the engine of an accepted expression: `SingleStep::new(heap, read(heap, Mode::Bytes, b"ab+c")?)`.
    /// Only want of memory refuses it.
    pub fn new(heap: Global, expression: Expression) -> Result<SingleStep, Fault>
        ensures { MatchResult result (λ e. e.expression.tree ≡ expression.tree) (λ f. f ≡ Memory) }
    {
        let rows = expression.positions() as usize + 1;
        let mut arrows = vec![in heap; Positions::empty(); rows]?;
        let mut held = [Positions::empty(); 256];
        let outline = fill(&expression.tree, 0, &mut arrows, &mut held);
        arrows[START] = outline.lasts;
        let finals = if outline.nullable {
            outline.firsts | Positions::only(START)
        } else {
            outline.firsts
        };
        Ok(SingleStep {
            expression,
            arrows,
            held,
            finals,
        })
    }

    /// The length of a shortest word of the expression.
    pub fn shortest(&self) -> u32
        ensures { result ≡ shortest (language self.now.expression.tree) }
    {
        self.expression.shortest()
    }

    /// For the start the positions that end a word, and for each position those that may stand just before it.
    pub fn arrows(&self) -> &[Positions]
        ensures { result.now ≡ arrows_of (language self.now.expression.tree) }
    {
        &self.arrows
    }

    /// For each code the positions that hold it.
    pub fn held(&self) -> &[Positions]
        ensures { result.now ≡ held_of (language self.now.expression.tree) }
    {
        &self.held
    }
}

/// The state is the set of the positions that what was read leads to, the start being 0.
impl Engine for SingleStep {
    type State = Positions;

    ghost expression = { λ e. language e.expression.tree };

    ghost after = { λ e v. as_set (reached (language e.expression.tree) v) };

    ghost shift = { λ e v. 1 };

    ghost inhabited = { λ e. full_inhabited e.expression.tree e.expression.full };

    ghost skips = { first_of (Prim.search rules, Prim.grind (arith, Self.row.coded.inj)) };

    fn start(&self) -> Positions {
        Positions::only(START)
    }

    fn advance(&self, state: Positions, code: u8) -> Option<Positions> {
        let next = state.follow(&self.arrows) & self.held[usize::from(code)];
        if next.is_empty() { None } else { Some(next) }
    }

    fn is_final(&self, state: Positions) -> bool {
        !(state & self.finals).is_empty()
    }

    fn jump(&self, _state: Positions) -> u32 {
        STEP
    }
}
