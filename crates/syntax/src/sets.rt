// What a simple atom holds, read from its token.
ghost use Rattle.std.specs.Prelude.{◌≡◌, ℕ, ◌+◌, ◌<◌, false, not, length, slice_index_or, IfSome};
ghost use Rattle.regular.specs.Positions.{some_below};
ghost use Rattle.syntax.specs.Grammar as grammar;
ghost use Rattle.syntax.specs.Grammar.{Simple, bare, bare_set, held, holds, top, written_members};
ghost use Rattle.syntax.specs.Lexer.{Before};
ghost use Rattle.syntax.specs.Refusals.{first, reversed_simple};
ghost use Rattle.syntax.specs.Tokens.{Atomic, Stands, Table, atom, turned};
ghost use Rattle.syntax.specs.declared.mode.Mode.{Mode};

use crate::lexer::Token;
use crate::members::Members;
use crate::mode::Mode;

// The value that the members of a set are, where they are one value and the set is not negated.
fn bare_set(mode: Mode, negated: bool, members: Members<'_>) -> Option<u8>
    ensures { (xs : grammar.Members mode) → Before mode (written_members mode xs) members.entry.lexer → result ≡ bare_set mode negated xs }
{
    match mode {
        Mode::Fields if !negated => members.lexer.sole(),
        _ => None,
    }
}

// The mode is no field of a token: it is the lexer's, and a token of its own would say it again.
impl<'a> Token<'a> {
    // The place of a simple atom's first range that runs backwards.
    pub(crate) fn reversed(self, mode: Mode) -> Option<usize>
        ensures { (s : Simple mode) (p : ℕ) → Stands mode (atom s) p self.entry → result ≡ first (reversed_simple mode s p) }
    {
        match self {
            Token::Set { members, .. } => members.first_reversed(),
            _ => None,
        }
    }

    // The codes that a simple atom names, and whether it holds all others instead.
    fn named(self) -> ([bool; 256], bool)
        ensures { (m : Mode) (s : Simple m) → Atomic m s self.entry → (c : ℕ) → c < 256 → turned result.1 (slice_index_or result.0 c false) ≡ held m s c }
    {
        let mut named = [false; 256];
        match self {
            Token::Dot => (named, true),
            Token::Unit(code) => {
                named[usize::from(code)] = true;
                (named, false)
            }
            Token::Set { negated, members } => (members.codes(), negated),
            _ => (named, false),
        }
    }

    // The codes that a simple atom holds.
    pub(crate) fn codes(self, mode: Mode) -> [bool; 256]
        ensures table { (s : Simple mode) → Atomic mode s self.entry → Table mode s result }
        ensures long { length result ≡ 256 }
    {
        let (named, others) = self.named();
        std::array::from_fn(|code| code <= usize::from(mode.largest()) && named[code] != others)
    }

    pub(crate) fn holds_nothing(self, mode: Mode) -> bool
        ensures { (s : Simple mode) → Atomic mode s self.entry → result ≡ not (some_below (top mode + 1) (holds mode s)) }
    {
        match self {
            // with no table, since each atom is asked
            Token::Dot => false,
            _ => !self.codes(mode).contains(&true),
        }
    }

    // The value that a simple atom is, where it is written as a value and no more.
    pub(crate) fn single(self, mode: Mode) -> Option<u8>
        ensures value { (s : Simple mode) → Atomic mode s self.entry → result ≡ bare mode s }
        ensures bound { IfSome result (λ c. c < 256) }
    {
        match self {
            Token::Unit(c) => Some(c),
            Token::Set { negated, members } => bare_set(mode, negated, members),
            _ => None,
        }
    }
}
