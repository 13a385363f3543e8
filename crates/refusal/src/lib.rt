// Every way in which a call can be turned down, with its number, its layer and its place.

#![tactic(auto)]

ghost use Rattle.std.specs.Prelude.{◌≡◌, Some};
ghost use Rattle.refusal.specs.Refusals.{refusal, number, layer, place};
ghost use Rattle.refusal.specs.Messages.{fault_text};
ghost use Rattle.refusal.specs.declared.Fault.TheVariants.{Memory};

use std::alloc::{AllocError, AllocFailed};
use std::error::Error;
use std::fmt;

/// The most bytes that an expression may have.
pub const LONGEST_EXPRESSION: usize = 1_024;

/// The most symbols that a text may have.
pub const LONGEST_TEXT: usize = 65_535;

/// The part of the finder that turns a call down.
#[derive(Clone, Copy, Debug, PartialEq, Eq)]
pub enum Layer {
    Expression,
    Engine,
    Search,
    Label,
}

/// What a refusal carries upwards: its number, the layer that refuses, and where the fault lies in what was given.
#[derive(Clone, Copy, Debug, PartialEq, Eq)]
pub struct Refusal {
    pub number: u8,
    pub layer: Layer,
    pub place: usize,
}

/// Why a call is turned down. A place that the rules fix is not stored: `TextTooLong` is always at 65,535.
#[derive(Clone, Copy, Debug, PartialEq, Eq)]
pub enum Fault {
    /// The expression has over 1,024 bytes.
    ExpressionTooLong,
    /// The longest head that begins some expression ends at the place.
    NotInGrammar { place: usize },
    /// A group opens there inside sixteen others.
    TooDeep { place: usize },
    /// A range starts there whose second end is below its first.
    ReversedRange { place: usize },
    /// A set opens there that holds nothing.
    EmptySet { place: usize },
    /// The 64th simple atom starts there.
    TooManyPositions { place: usize },
    /// The expression is no plain word, and the word engine was asked for.
    NoPlainWord,
    /// The text has over 65,535 symbols.
    TextTooLong,
    /// The search has looked at every place; its next one is behind the text's end.
    Finished { place: usize },
    /// More matches end at the place than the table has room for.
    NoRoom { place: usize, matches: usize },
    /// The place lies behind the text's end.
    BeyondText { place: usize },
    /// The label is shorter than its first two bytes or its header; the place is its length.
    LabelTooShort { length: usize },
    /// The label's edition is not 3.
    UnknownEdition,
    /// The label counts over 32 entries.
    TooManyEntries,
    /// The field list has fewer entries than the label.
    TooFewFields,
    /// The entry there has an identifier over 99.
    UnknownIdentifier { place: usize },
    /// The entry there names bytes that do not all lie between the header and the label's end.
    PartOutside { place: usize },
    /// There is not enough memory. This is no refusal of the list, so it has no number, layer or place.
    Memory,
}

impl Fault {
    /// What the fault carries upwards; want of memory is no refusal: `Fault::TextTooLong.refusal()` is number 8, of the search, at 65,535.
    pub fn refusal(self) -> Option<Refusal>
        ensures { result ≡ refusal self }
    {
        let (number, layer, place) = match self {
            Fault::ExpressionTooLong => (1, Layer::Expression, LONGEST_EXPRESSION),
            Fault::NotInGrammar { place } => (2, Layer::Expression, place),
            Fault::TooDeep { place } => (3, Layer::Expression, place),
            Fault::ReversedRange { place } => (4, Layer::Expression, place),
            Fault::EmptySet { place } => (5, Layer::Expression, place),
            Fault::TooManyPositions { place } => (6, Layer::Expression, place),
            Fault::NoPlainWord => (7, Layer::Engine, 0),
            Fault::TextTooLong => (8, Layer::Search, LONGEST_TEXT),
            Fault::Finished { place } => (9, Layer::Search, place),
            Fault::NoRoom { place, .. } => (10, Layer::Search, place),
            Fault::BeyondText { place } => (11, Layer::Search, place),
            Fault::LabelTooShort { length } => (12, Layer::Label, length),
            Fault::UnknownEdition => (13, Layer::Label, 0),
            Fault::TooManyEntries => (13, Layer::Label, 1),
            Fault::UnknownIdentifier { place } => (14, Layer::Label, place),
            Fault::PartOutside { place } => (15, Layer::Label, place),
            Fault::TooFewFields => (16, Layer::Label, 1),
            Fault::Memory => return None,
        };
        Some(Refusal {
            number,
            layer,
            place,
        })
    }

    /// The refusal's number: `Fault::TextTooLong.number()` is `Some(8)`.
    pub fn number(self) -> Option<u8>
        ensures { result ≡ number self }
    {
        Some(self.refusal()?.number)
    }

    /// The layer that refuses: `Fault::TextTooLong.layer()` is `Some(Layer::Search)`.
    pub fn layer(self) -> Option<Layer>
        ensures { result ≡ layer self }
    {
        Some(self.refusal()?.layer)
    }

    /// Where the fault lies in what was given: `Fault::TextTooLong.place()` is `Some(65535)`.
    pub fn place(self) -> Option<usize>
        ensures { result ≡ place self }
    {
        Some(self.refusal()?.place)
    }
}

impl From<AllocError> for Fault {
    ghost from_gives = { λ _ r. r ≡ Memory };

    fn from(_error: AllocError) -> Fault {
        Fault::Memory
    }
}

impl<T: Drop> From<AllocFailed<T>> for Fault {
    ghost from_gives = { λ _ r. r ≡ Memory };

    fn from(_failed: AllocFailed<T>) -> Fault {
        Fault::Memory
    }
}

/// `refused 8 at 65535`, or `out of memory`.
impl fmt::Display for Fault {
    ghost output = { λ f. Some (fault_text f) };

    fn fmt<W: fmt::Write>(&self, f: &mut fmt::Formatter<W>) -> fmt::Result {
        match self.refusal() {
            Some(Refusal { number, place, .. }) => write!(f, "refused {number} at {place}"),
            None => f.write_str("out of memory"),
        }
    }
}

impl Error for Fault {}
