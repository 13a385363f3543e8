// Lists every match of a text, through a table that may be smaller than the list.

#![tactic(auto)]

ghost use Rattle.std.specs.Prelude.{◌+◌, ◌^◌, ◌<◌, ◌≤◌, map, length, Some, OnOk};
ghost use Rattle.finder.specs.Listing.{Lists, TakenOver};
ghost use Rattle.finder.specs.Messages.{listing_text};

use engine::{Engine, Symbol};
use refusal::Fault;
use search::{Match, Numbers, Search, Stop};
use std::alloc::{AllocError, Global};
use std::fmt;

/// Every match of a text in the table's order, and what finding them took, summed over all clears.
#[derive(Debug, Drop, PartialEq, Eq)]
pub struct Listing {
    pub matches: Vec<Match>,
    pub walks: u64,
    pub reads: u64,
}

impl Listing {
    // Adds what stands in the filled part of the table, and what finding it took.
    fn take_over(&mut self, table: &[Match], numbers: Numbers) -> Result<(), AllocError>
        requires filled { numbers.filled ≤ length table.now }
        requires walks { self.old.walks + numbers.walks < 2 ^ 64 }
        requires reads { self.old.reads + numbers.reads < 2 ^ 64 }
        ensures { OnOk result (TakenOver numbers table.now self.old self.new) }
    {
        let found = &table[..numbers.filled as usize];
        self.matches.extend_from_slice(found)?;
        self.walks += u64::from(numbers.walks);
        self.reads += u64::from(numbers.reads);
        Ok(())
    }
}

/// A line `start end` for each match, and then `matches 2 walks 7 reads 13`.
impl fmt::Display for Listing {
    ghost output = { λ listing. Some (listing_text listing) };

    fn fmt<W: fmt::Write>(&self, f: &mut fmt::Formatter<W>) -> fmt::Result {
        for &(start, end) in &self.matches {
            writeln!(f, "{start} {end}")?;
        }
        let count = self.matches.len();
        let walks = self.walks;
        let reads = self.reads;
        write!(f, "matches {count} walks {walks} reads {reads}")
    }
}

/// Lists all matches of the engine's expression in the text, through a table with room for so many at a time.
/// `list_all(heap, b"xabbcabc", &engine, 9)` lists `(1, 5)` and `(5, 8)` for an engine of `ab+c`.
pub fn list_all<S: Symbol, E: Engine>(
    heap: Global,
    text: &[S],
    engine: &E,
    room: usize,
) -> Result<Listing, Fault>
    ensures { Lists (E.expression engine.now) (E.shift engine.now) (map S.code text.now) room result }
{
    let mut table = vec![in heap; (0, 0); room]?;
    list_through(heap, text, engine, &mut table)
}

// Runs until the table has no room, takes its matches over, clears, and goes on.
fn list_through<S: Symbol, E: Engine>(
    heap: Global,
    text: &[S],
    engine: &E,
    table: &mut [Match],
) -> Result<Listing, Fault>
    ensures { Lists (E.expression engine.now) (E.shift engine.now) (map S.code text.now) (length table.old) result }
{
    let mut search = Search::open(text)?;
    let mut listing = Listing {
        matches: Vec::new(heap),
        walks: 0,
        reads: 0,
    };
    loop {
        let (_, stop) = search.run(engine, table, u32::MAX);
        listing.take_over(table, search.numbers())?;
        if stop == Stop::Finished {
            return Ok(listing);
        }
        search.clear();
        // into an empty table: refused only if one place has more matches than the whole table has room
        search.step(engine, table)?;
    }
}
