// Looks for what an expression of the grammar may not have.
ghost use Rattle.std.specs.Prelude.{◌≡◌, ◌+◌, ◌≤◌, List, ◌++◌, if◌then◌else◌, Some, None};
ghost use Rattle.syntax.specs.Grammar.{Part, Tree, expression, written};
ghost use Rattle.syntax.specs.Lexer.{Before};
ghost use Rattle.syntax.specs.Limits.{Checked, Noted, depth_behind, part_of, verdict_of};
ghost use Rattle.syntax.specs.Tokens.{Lexeme, Stands};
ghost use Rattle.syntax.specs.declared.mode.Mode.{Mode};

use crate::lexer::{Lexer, Token};
use crate::mode::Mode;
use refusal::{Fault, LONGEST_EXPRESSION};

/// How many bytes an expression may have.
pub const LONGEST: usize = LONGEST_EXPRESSION;

/// How many positions an expression may have, one for each simple atom.
pub const MOST_POSITIONS: usize = 63;

/// How many groups may be open at once.
pub const DEEPEST: usize = 16;

// What was seen of an expression's tokens: how many groups are open, how many positions there are, and the first
// place of a group that is too deep, of a range in reverse, of a set that holds nothing and of a position too many.
#[derive(Clone, Copy, Debug, PartialEq, Eq, Default)]
pub struct Findings {
    depth: usize,
    positions: usize,
    deep: Option<usize>,
    reversed: Option<usize>,
    empty: Option<usize>,
    over: Option<usize>,
}

impl Findings {
    // The findings with one token more.
    fn with(self, mode: Mode, token: Token<'_>, place: usize) -> Findings
        requires { (self.depth ≤ LONGEST) × (self.positions ≤ LONGEST) }
        ensures notes { (k : Lexeme mode) (done : List (Part mode)) → Stands mode k place token.entry → Noted mode self done → Noted mode result (done ++ part_of k self.depth place) × (result.depth ≡ depth_behind k self.depth) }
        ensures bound { (result.depth ≤ self.depth + 1) × (result.positions ≤ self.positions + 1) }
    {
        match token {
            Token::Open => {
                let depth = self.depth + 1;
                let deep = self.deep.or((depth > DEEPEST).then_some(place));
                Findings {
                    depth,
                    deep,
                    ..self
                }
            }
            Token::Close => Findings {
                depth: self.depth.saturating_sub(1),
                ..self
            },
            Token::Bar | Token::Mark(_) => self,
            _ => Findings {
                positions: self.positions + 1,
                reversed: self.reversed.or(token.reversed(mode)),
                empty: self.empty.or(token.holds_nothing(mode).then_some(place)),
                over: self
                    .over
                    .or((self.positions >= MOST_POSITIONS).then_some(place)),
                ..self
            },
        }
    }

    // Which limit is broken first, if any.
    fn verdict(self) -> Result<(), Fault>
        ensures { result ≡ verdict_of self }
    {
        let fault = match (self.deep, self.reversed, self.empty, self.over) {
            (Some(place), _, _, _) => Fault::TooDeep { place },
            (_, Some(place), _, _) => Fault::ReversedRange { place },
            (_, _, Some(place), _) => Fault::EmptySet { place },
            (_, _, _, Some(place)) => Fault::TooManyPositions { place },
            _ => return Ok(()),
        };
        Err(fault)
    }
}

// Whether an expression keeps to the limits; its bytes are in the grammar.
pub(crate) fn check_limits(mut lexer: Lexer<'_>) -> Result<(), Fault>
    ensures { (m : Mode) (t : Tree m expression) → Before m (written t) lexer.entry → lexer.entry.place ≡ 0 → Checked t result }
{
    let mut found = Findings::default();
    while !lexer.is_done() {
        let place = lexer.place();
        let token = lexer.token()?;
        found = found.with(lexer.mode(), token, place);
    }
    found.verdict()
}
