// A label's header: what its entries say, and whether they are sound.
ghost use Rattle.std.specs.Prelude.{◌≡◌, ℕ, ◌^◌, ◌<◌, ◌≤◌, length, drop, MatchResult, slice_index_or};
ghost use Rattle.std.specs.Simd.{first_chunks};
ghost use Rattle.label.specs.declared.Field.{Field};
ghost use Rattle.label.specs.Labels.{place, entry, count, Headed, Sound};
ghost use Rattle.label.specs.Reading.{Refused, Unsound};

use crate::{EDITION, Field, HIGHEST_IDENTIFIER, MOST_ENTRIES};
use refusal::Fault;

// A label whose header is whole, and the four bytes of each entry.
#[derive(Clone, Copy)]
pub(crate) struct Header<'a> {
    label: &'a [u8],
    entries: &'a [[u8; 4]],
    ghost headed: { Headed label.now },
    ghost listed: { entries.now ≡ first_chunks 4 (count label.now) (drop 2 label.now) },
}

// Where an entry stands; the header ends where one behind the last would stand.
fn place(entry: usize) -> usize
    requires { entry < 2 ^ 61 }
    ensures { result ≡ place entry }
{
    2 + 4 * entry
}

impl<'a> Header<'a> {
    // The header of a label that may have no more fields than there is room.
    pub(crate) fn read(label: &'a [u8], room: usize) -> Result<Header<'a>, Fault>
        ensures { MatchResult result (λ h. (h.label.now ≡ label.now) × (count label.now ≤ room)) (Refused label.now room) }
    {
        match label {
            [edition, count, rest @ ..] => {
                if *edition != EDITION {
                    return Err(Fault::UnknownEdition);
                }
                if *count > MOST_ENTRIES {
                    return Err(Fault::TooManyEntries);
                }
                let count = usize::from(*count);
                let (entries, _) = rest.as_chunks();
                if entries.len() < count {
                    return Err(Fault::LabelTooShort {
                        length: label.len(),
                    });
                }
                if room < count {
                    return Err(Fault::TooFewFields);
                }
                Ok(Header {
                    label,
                    entries: &entries[..count],
                })
            }
            _ => Err(Fault::LabelTooShort {
                length: label.len(),
            }),
        }
    }

    pub(crate) fn count(&self) -> usize
        ensures { result ≡ count self.now.label.now }
    {
        self.entries.len()
    }

    // Refuses the first entry that is not sound.
    pub(crate) fn check(&self) -> Result<(), Fault>
        ensures { MatchResult result (λ _. (i : ℕ) → i < count self.now.label.now → Sound self.now.label.now (entry self.now.label.now i)) (Unsound self.now.label.now) }
    {
        let header_end = place(self.count());
        // a form that this project fixes (docs/DECISIONS.md)
        for (i, &bytes) in self.entries.iter().enumerate() {
            let field = Field::from(bytes);
            if field.identifier > HIGHEST_IDENTIFIER {
                return Err(Fault::UnknownIdentifier { place: place(i) });
            }
            if !field.is_within(header_end, self.label.len()) {
                return Err(Fault::PartOutside { place: place(i) });
            }
        }
        Ok(())
    }

    // Writes what the entries say into the list's first entries.
    pub(crate) fn fill(&self, fields: &mut [Field])
        requires { count self.now.label.now ≤ length fields.old }
        ensures fields { (i : ℕ) (d : Field) → i < count self.now.label.now → slice_index_or fields.new i d ≡ entry self.now.label.now i }
        ensures rest { drop (count self.now.label.now) fields.new ≡ drop (count self.now.label.now) fields.old }
    {
        // by index, since a proof knows nothing of what an adapter of `iter_mut` writes
        for (i, &bytes) in self.entries.iter().enumerate() {
            fields[i] = Field::from(bytes);
        }
    }
}
