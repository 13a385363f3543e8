// Reads an expression from front to back: bytes, values, marks and tokens.
ghost use Rattle.std.specs.Prelude.{◌≡◌, ℕ, ◌+◌, ◌<◌, ◌≤◌, Bool, List, [], ◌∷◌, ◌++◌, length, take, drop, ◌==◌, not, ◌&&◌, false, IfNone, IfOk, IfSome, IsOkAnd, IsSomeAnd, MatchBool, MatchOption};
ghost use Rattle.syntax.specs.declared.limits.TheConstants.{LONGEST};

use crate::limits::LONGEST;
use crate::members::{Member, Members};
use crate::mode::Mode;
use crate::signs::{mark_of, sign_of};
use crate::tree::Mark;
use refusal::Fault;

// What is left of an expression, and the place where it stands.
#[derive(Clone, Copy, Debug, PartialEq, Eq)]
pub struct Lexer<'a> {
    mode: Mode,
    rest: &'a [u8],
    place: usize,
    ghost within: { place + length rest.now ≤ LONGEST },
}

// A token; a set borrows its members out of the expression, with their place.
#[derive(Clone, Copy, Debug, PartialEq, Eq)]
pub enum Token<'a> {
    Open,
    Close,
    Bar,
    Mark(Mark),
    Dot,
    Unit(u8),
    Set { negated: bool, members: Members<'a> },
}

// Whether a byte is the one sought, and does not stand behind a `\`.
fn is_bare(escaped: bool, b: u8, sought: u8) -> bool
    ensures { result ≡ (not escaped && b == sought) }
{
    !escaped && b == sought
}

impl<'a> Lexer<'a> {
    ghost use Rattle.syntax.specs.Grammar.{caret, closing, written_members};
    ghost use Rattle.syntax.specs.Grammar as grammar;
    ghost use Rattle.syntax.specs.Lexer.{Before, Kept, Ahead, Left, Ate, Took, digit_of, front, pair_of, sole, starts, unit_of, until, value_of};
    ghost use Rattle.syntax.specs.Members.{member_of};
    ghost use Rattle.syntax.specs.Tokens.{IsSet, Lexeme, Stands, item_in, mark_of_byte, sign_token, written_lexeme};
    ghost use Rattle.syntax.specs.declared.mode.Mode.{Mode};

    pub(crate) fn new(mode: Mode, bytes: &'a [u8]) -> Lexer<'a>
        requires { length bytes.now ≤ LONGEST }
        ensures before { Before mode bytes.now result }
        ensures place { result.place ≡ 0 }
    {
        Lexer {
            mode,
            rest: bytes,
            place: 0,
        }
    }

    // The next byte.
    fn byte(&mut self) -> Option<u8>
        ensures { MatchOption result (self.old.rest.now ≡ []) (λ b. Ate (b ∷ []) self.old self.new) }
    {
        let (&b, rest) = self.rest.split_first()?;
        self.rest = rest;
        self.place += 1;
        Some(b)
    }

    // Whether the next byte is this one; if so, it is read.
    pub(crate) fn eats(&mut self, b: u8) -> bool
        ensures value { result ≡ starts b self.old.rest.now }
        ensures read { MatchBool result (Ate (b ∷ []) self.old self.new) (self.new ≡ self.old) }
        ensures short { length self.new.rest.now ≤ length self.old.rest.now }
    {
        match self.rest.split_first() {
            Some((&first, rest)) if first == b => {
                self.rest = rest;
                self.place += 1;
                true
            }
            _ => false,
        }
    }

    // The code of the next value.
    fn value(&mut self) -> Option<u8>
        ensures { Took result (value_of self.old.mode self.old.rest.now) self.old self.new }
    {
        match self.mode {
            Mode::Bytes => self.unit(),
            Mode::Fields => self.pair(),
        }
    }

    fn unit(&mut self) -> Option<u8>
        ensures { Took result (unit_of self.old.rest.now) self.old self.new }
    {
        match self.byte()? {
            b'\\' => match self.byte()? {
                b'n' => Some(b'\n'),
                escaped => Some(escaped),
            },
            plain => Some(plain),
        }
    }

    fn pair(&mut self) -> Option<u8>
        ensures { Took result (pair_of self.old.rest.now) self.old self.new }
    {
        Some(10 * self.digit()? + self.digit()?)
    }

    fn digit(&mut self) -> Option<u8>
        ensures value { Took result (digit_of self.old.rest.now) self.old self.new }
        ensures bound { IfSome result (λ d. d < 10) }
    {
        let b = self.byte()?;
        if b.is_ascii_digit() {
            Some(b - b'0')
        } else {
            None
        }
    }

    // The next member of a set, and what stands between it and another.
    pub(crate) fn member(&mut self) -> Option<Member>
        ensures { Took result (member_of self.old.mode self.old.place self.old.rest.now) self.old self.new }
    {
        let place = self.place;
        let first = self.value()?;
        let last = if self.eats(b'-') {
            self.value()?
        } else {
            first
        };
        if self.mode == Mode::Fields {
            self.eats(b',');
        }
        Some(Member { first, last, place })
    }

    // The next mark. Beside `sign`, for one function of both would have to be told what its test answers.
    pub(crate) fn mark(&mut self) -> Option<Mark>
        ensures read { Took result (front mark_of_byte self.old.rest.now) self.old self.new }
        ensures same { IfNone result (self.new ≡ self.old) }
        ensures short { length self.new.rest.now ≤ length self.old.rest.now }
    {
        let &b = self.rest.first()?;
        let mark = mark_of(b)?;
        self.byte()?;
        Some(mark)
    }

    // The next token, if it is no value and no set.
    fn sign(&mut self) -> Option<Token<'static>>
        ensures read { Took result (front sign_token self.old.rest.now) self.old self.new }
        ensures ahead { IfSome result (λ _. Ahead self.old self.new) }
        ensures same { IfNone result (self.new ≡ self.old) }
    {
        let &b = self.rest.first()?;
        let sign = sign_of(b)?;
        self.byte()?;
        Some(sign)
    }

    // How many bytes stand before the bracket that closes a set.
    fn closing(&self) -> usize
        ensures value { result ≡ until (closing self.now.mode) false self.now.rest.now }
        ensures within { result ≤ length self.now.rest.now }
    {
        let close = self.mode.closes();
        let mut escaped = false;
        for (n, &b) in self.rest.iter().enumerate() {
            if is_bare(escaped, b, close) {
                return n;
            }
            escaped = is_bare(escaped, b, b'\\');
        }
        self.rest.len()
    }

    // The next n bytes, by themselves.
    fn split(&mut self, n: usize) -> Lexer<'a>
        requires { n ≤ length self.old.rest.now }
        ensures front { Before self.old.mode (take n self.old.rest.now) result }
        ensures place { result.place ≡ self.old.place }
        ensures back { Left (drop n self.old.rest.now) self.old self.new }
    {
        let (front, back) = self.rest.split_at(n);
        let front = Lexer {
            mode: self.mode,
            rest: front,
            place: self.place,
        };
        self.rest = back;
        self.place += n;
        front
    }

    // The set whose opening bracket was read.
    fn set(&mut self) -> Option<Token<'a>>
        ensures found { (m : Mode) (n : Bool) (xs : grammar.Members m) (w : List ℕ) → Before m (caret n ++ (written_members m xs ++ (closing m ∷ w))) self.old → IsSomeAnd result (λ t. IsSet m n xs (self.old.place + length (caret n)) t × Before m w self.new) }
        ensures kept { Kept self.old self.new }
        ensures short { length self.new.rest.now ≤ length self.old.rest.now }
    {
        let negated = self.eats(b'^');
        let lexer = self.split(self.closing());
        let members = Members { lexer };
        self.eats(self.mode.closes())
            .then_some(Token::Set { negated, members })
    }

    // The next token.
    pub(crate) fn token(&mut self) -> Result<Token<'a>, Fault>
        ensures found { (m : Mode) (k : Lexeme m) (w : List ℕ) → Before m (written_lexeme m k ++ w) self.old → IsOkAnd result (λ t. Stands m k self.old.place t × Before m w self.new) }
        ensures ahead { IfOk result (λ _. Ahead self.old self.new) }
    {
        let refused = self.refused();
        if let Some(sign) = self.sign() {
            return Ok(sign);
        }
        if self.eats(self.mode.opens()) {
            return self.set().ok_or(refused);
        }
        match self.value() {
            Some(code) => Ok(Token::Unit(code)),
            None => Err(refused),
        }
    }

    // The code of the value that is all that is left.
    pub(crate) fn sole(mut self) -> Option<u8>
        ensures { result ≡ sole (value_of self.entry.mode self.entry.rest.now) }
    {
        let code = self.value()?;
        self.rest.is_empty().then_some(code)
    }

    // Whether an item begins here.
    pub(crate) fn item_starts(&self) -> bool
        ensures { result ≡ item_in self.now.rest.now }
    {
        !matches!(self.rest.first(), None | Some(b'|' | b')'))
    }

    pub(crate) fn is_done(&self) -> bool
        ensures { result ≡ (length self.now.rest.now == 0) }
    {
        self.rest.is_empty()
    }

    pub(crate) fn mode(&self) -> Mode
        ensures { result ≡ self.now.mode }
    {
        self.mode
    }

    pub(crate) fn place(&self) -> usize
        ensures { result ≡ self.now.place }
    {
        self.place
    }

    // The refusal of what cannot stand here.
    pub(crate) fn refused(&self) -> Fault {
        Fault::NotInGrammar { place: self.place }
    }
}
