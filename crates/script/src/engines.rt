ghost use Rattle.std.specs.Prelude.{◌≡◌};
ghost use Rattle.script.specs.Engines.{number_of};

use std::error::Error;
use std::fmt;

/// An engine that a call may name.
#[derive(Clone, Copy, Debug, PartialEq, Eq)]
pub enum EngineName {
    /// `single`, the single-step engine.
    Single,
    /// `tabled`, the tabled engine.
    Tabled,
    /// `word`, the word engine.
    Word,
}

impl EngineName {
    /// The engine's number in a call: 0, 1 and 2.
    pub fn number(self) -> usize
        ensures { result ≡ number_of self }
    {
        match self {
            EngineName::Single => 0,
            EngineName::Tabled => 1,
            EngineName::Word => 2,
        }
    }
}

/// The bytes name no engine.
#[derive(Clone, Copy, Debug, PartialEq, Eq)]
pub struct UnknownEngine;

/// `EngineName::try_from(b"word".as_slice())` is the word engine.
impl TryFrom<&[u8]> for EngineName {
    type Error = UnknownEngine;

    ghost use Rattle.script.specs.Engines.{NamesEngine};

    ghost try_from_gives = { λ name r. NamesEngine name.now r };

    fn try_from(name: &[u8]) -> Result<EngineName, UnknownEngine> {
        match name {
            b"single" => Ok(EngineName::Single),
            b"tabled" => Ok(EngineName::Tabled),
            b"word" => Ok(EngineName::Word),
            _ => Err(UnknownEngine),
        }
    }
}

impl fmt::Display for UnknownEngine {
    ghost use Rattle.std.specs.Prelude.{Some, codes};

    ghost output = { λ _. Some (codes "no engine has this name") };

    fn fmt<W: fmt::Write>(&self, f: &mut fmt::Formatter<W>) -> fmt::Result {
        f.write_str("no engine has this name")
    }
}

impl Error for UnknownEngine {}
