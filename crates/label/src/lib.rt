// Reads pallet labels: a header of entries, each of which names a part of the label, comes out as a list of fields.

#![tactic(auto)]

mod header;

ghost use Rattle.std.specs.Prelude.{◌≡◌, ◌++◌, Some, codes, decimal};
ghost use Rattle.label.specs.Labels.{field, lies_within};
ghost use Rattle.label.specs.Messages.{field_text};
ghost use Rattle.label.specs.Reading.{Reads};

use crate::header::Header;
use engine::Symbol;
use refusal::Fault;
use std::fmt;

/// The edition of the labels that are read, their first byte.
pub const EDITION: u8 = 3;

/// The most entries that a label may count.
pub const MOST_ENTRIES: u8 = 32;

/// The highest identifier that a field may have.
pub const HIGHEST_IDENTIFIER: u8 = 99;

/// What an entry of a label says: the field's identifier, and where its bytes lie in the label.
// a form that this project fixes (docs/DECISIONS.md)
#[derive(Clone, Copy, Debug, PartialEq, Eq)]
pub struct Field {
    pub identifier: u8,
    pub offset: u16,
    pub length: u8,
}

impl Field {
    // Whether the field's bytes lie between the header's end and the label's.
    fn is_within(&self, header_end: usize, label_end: usize) -> bool
        ensures { result ≡ lies_within self.now header_end label_end }
    {
        let start = usize::from(self.offset);
        header_end <= start && start + usize::from(self.length) <= label_end
    }
}

/// The four bytes of an entry: the identifier, the length, and the offset, high byte first.
impl From<[u8; 4]> for Field {
    ghost from_gives = { λ bytes f. f ≡ field bytes };

    fn from([identifier, length, high, low]: [u8; 4]) -> Field {
        Field {
            identifier,
            offset: u16::from_be_bytes([high, low]),
            length,
        }
    }
}

/// A field's code is its identifier, so that labels are searched like notes.
impl Symbol for Field {
    ghost code = { λ f. f.identifier };

    fn code(&self) -> u8 {
        self.identifier
    }
}

/// The identifier, the offset and the length, with blanks between: `10 6 2`.
impl fmt::Display for Field {
    ghost output = { λ f. Some (field_text f) };

    fn fmt<W: fmt::Write>(&self, f: &mut fmt::Formatter<W>) -> fmt::Result {
        let Field {
            identifier,
            offset,
            length,
        } = *self;
        write!(f, "{identifier} {offset} {length}")
    }
}

/// Reads a label into the first entries of a field list, and answers how many there are; entries behind them stay.
/// A label that is refused leaves the list as it was. The bytes `3 1 10 2 0 6 76 55` give one field, 10, with two bytes from offset 6 on.
pub fn read(label: &[u8], fields: &mut [Field]) -> Result<usize, Fault>
    ensures { Reads label.now fields.old fields.new result }
{
    let header = Header::read(label, fields.len())?;
    header.check()?;
    header.fill(fields);
    Ok(header.count())
}
