// What an expression is written for, and the bytes that differ by it.
ghost use Rattle.std.specs.Prelude.{◌≡◌, ◌≢◌, Some, MatchResult, codes};
ghost use Rattle.syntax.specs.Grammar.{opening, closing, top};
ghost use Rattle.syntax.specs.declared.mode.Mode.{Mode};
ghost use Rattle.syntax.specs.Names.{name};

use std::error::Error;
use std::fmt;
use std::str::FromStr;

/// What an expression is written for: `[a-c]` is a set of bytes, `<01-03>` one of fields.
#[derive(Clone, Copy, Debug, PartialEq, Eq, Hash)]
pub enum Mode {
    Bytes,
    Fields,
}

impl Mode {
    // The bracket that opens a set.
    pub(crate) fn opens(self) -> u8
        ensures { result ≡ opening self }
    {
        match self {
            Mode::Bytes => b'[',
            Mode::Fields => b'<',
        }
    }

    // The bracket that closes a set.
    pub(crate) fn closes(self) -> u8
        ensures { result ≡ closing self }
    {
        match self {
            Mode::Bytes => b']',
            Mode::Fields => b'>',
        }
    }

    // The largest code that a dot holds.
    pub(crate) fn largest(self) -> u8
        ensures { result ≡ top self }
    {
        match self {
            Mode::Bytes => 255,
            Mode::Fields => 99,
        }
    }
}

/// `"byte"` and `"field"` name a mode.
impl FromStr for Mode {
    type Err = UnknownMode;

    ghost from_str_gives = { λ text r. MatchResult r (λ m. text ≡ name m) (λ _. (m : Mode) → text ≢ name m) };

    fn from_str(text: &str) -> Result<Mode, UnknownMode> {
        match text {
            "byte" => Ok(Mode::Bytes),
            "field" => Ok(Mode::Fields),
            _ => Err(UnknownMode),
        }
    }
}

/// A text that names no mode.
#[derive(Clone, Copy, Debug, PartialEq, Eq)]
pub struct UnknownMode;

impl fmt::Display for UnknownMode {
    ghost output = { λ _. Some (codes "the argument is `byte` or `field`") };

    fn fmt<W: fmt::Write>(&self, f: &mut fmt::Formatter<W>) -> fmt::Result {
        f.write_str("the argument is `byte` or `field`")
    }
}

impl Error for UnknownMode {}
