ghost use Rattle.either.specs.Either.{either, map_either};
ghost use Rattle.either.specs.declared.Either.TheVariants.{Left, Right};
ghost use Rattle.std.proofs.Common.{rules};

use crate::contract::Engine;
use either::Either::{self, Left, Right};

/// One of two engines is an engine, so that one list may hold engines of two sorts: each call is handed to the one that is there.
/// A state of the other one is given by no word, and the free answers at it are none, no and 1.
impl<A: Engine, B: Engine> Engine for Either<A, B> {
    type State = Either<A::State, B::State>;

    ghost expression = { λ e. either A.Engine.expression B.Engine.expression e };

    ghost after = { λ e v. map_either (λ a. A.Engine.after a v) (λ b. B.Engine.after b v) e };

    ghost shift = { λ e v. either A.Engine.shift B.Engine.shift e v };

    ghost inhabited = { Prim.search rules };

    ghost skips = { elim [ Left a ↦ A.Engine.skips a | Right b ↦ B.Engine.skips b ] };

    fn start(&self) -> Either<A::State, B::State> {
        match self {
            Left(a) => Left(a.start()),
            Right(b) => Right(b.start()),
        }
    }

    fn advance(
        &self,
        state: Either<A::State, B::State>,
        code: u8,
    ) -> Option<Either<A::State, B::State>> {
        match (self, state) {
            (Left(a), Left(s)) => Some(Left(a.advance(s, code)?)),
            (Right(b), Right(t)) => Some(Right(b.advance(t, code)?)),
            _ => None,
        }
    }

    fn is_final(&self, state: Either<A::State, B::State>) -> bool {
        match (self, state) {
            (Left(a), Left(s)) => a.is_final(s),
            (Right(b), Right(t)) => b.is_final(t),
            _ => false,
        }
    }

    fn jump(&self, state: Either<A::State, B::State>) -> u32 {
        match (self, state) {
            (Left(a), Left(s)) => a.jump(s),
            (Right(b), Right(t)) => b.jump(t),
            _ => 1,
        }
    }
}
