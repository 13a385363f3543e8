// The job of the program: an expression and a text go in, every match comes out.
ghost use Rattle.std.specs.Prelude.{◌≤◌, length};
ghost use Rattle.listing.specs.Job.{Found};

use expression::{Mode, read};
use finder::{Listing, list_all};
use refusal::Fault;
use std::alloc::Global;
use tabled::Tabled;

// The most bytes that are read, expression and text together.
pub(crate) const LONGEST_INPUT: usize = 4_096;

// As many entries as matches can end at one place of the longest text.
const ROOM: usize = LONGEST_INPUT + 1;

pub(crate) fn list(heap: Global, expression: &[u8], text: &[u8]) -> Result<Listing, Fault>
    requires { length text.now ≤ 4096 }
    ensures { Found expression.now text.now result }
{
    let engine = Tabled::new(heap, read(heap, Mode::Bytes, expression)?)?;
    list_all(heap, text, &engine, ROOM)
}
