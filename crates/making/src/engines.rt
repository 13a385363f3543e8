ghost use Rattle.std.specs.Prelude.{◌≡◌, true, ◌⊎◌, MatchResult};
ghost use Rattle.making.specs.Engines.{names_word_engine, asks_word, BuiltBy, LastOf, Unread, NoWord};

use either::{Either, Left, Right};
use expression::{Expression, Mode, read};
use refusal::Fault;
use script::EngineName;
use search::Call;
use single::SingleStep;
use std::alloc::Global;
use tabled::Tabled;
use word::Word;

// An engine of either sort that is always made, or a word engine.
pub(crate) type AnyEngine = Either<SingleStep, Either<Tabled, Word>>;

fn is_word(call: &Call) -> bool
    ensures { result ≡ names_word_engine call.now }
{
    match *call {
        Call::Step { engine } | Call::Run { engine, .. } => engine == EngineName::Word.number(),
        Call::Clear | Call::Move { .. } => false,
    }
}

// Whether some call names the word engine.
pub(crate) fn names_word(calls: &[Call]) -> bool
    ensures { result ≡ asks_word calls.now }
{
    calls.iter().any(is_word)
}

// What a maker of engines gives for the expression that the bytes are written for.
pub(crate) fn engine_of<E, F: FnOnce(Global, Expression) -> Result<E, Fault>>(
    heap: Global,
    bytes: &[u8],
    new: F,
) -> Result<E, Fault>
    requires { F.IsAlwaysCallable new }
    ensures { BuiltBy bytes.now (F.post new heap) result }
{
    new(heap, read(heap, Mode::Bytes, bytes)?)
}

// The word engine where it is asked for, and else one more single-step engine, which serves an expression that is no word too.
pub(crate) fn last_of(heap: Global, bytes: &[u8], asked: bool) -> Result<AnyEngine, Fault>
    ensures { MatchResult result (LastOf bytes.now asked) (λ f. Unread bytes.now f ⊎ ((asked ≡ true) × NoWord bytes.now f)) }
{
    if asked {
        let word = engine_of(heap, bytes, Word::new)?;
        return Ok(Right(Right(word)));
    }
    let single = engine_of(heap, bytes, SingleStep::new)?;
    Ok(Left(single))
}
