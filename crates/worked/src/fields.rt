// A field expression over the fields of a label.
use expression::{Mode, read};
use finder::{Listing, list_all};
use label::Field;
use refusal::Fault;
use std::alloc::Global;
use tabled::Tabled;

// Five fields without bytes, of the identifiers 1, 10, 17, 1 and 10.
const LABEL: [u8; 22] = [
    3, 5, 1, 0, 0, 22, 10, 0, 0, 22, 17, 0, 0, 22, 1, 0, 0, 22, 10, 0, 0, 22,
];

fn list(heap: Global, expression: &[u8]) -> Result<Listing, Fault> {
    let mut fields = [Field {
        identifier: 0,
        offset: 0,
        length: 0,
    }; 5];
    label::read(&LABEL, &mut fields)?;
    let engine = Tabled::new(heap, read(heap, Mode::Fields, expression)?)?;
    list_all(heap, &fields, &engine, 5)
}

pub(crate) fn run(rt: &HostRuntime) -> anyhow::Result<()> {
    println!(rt; "label")?;
    match list(rt.alloc(), b"<01><10>") {
        Ok(listing) => {
            for (start, end) in listing.matches.iter().copied() {
                println!(rt; "{start} {end}")?;
            }
            // no `Display` of the listing: the stored output does not count the matches
            let walks = listing.walks;
            let reads = listing.reads;
            println!(rt; "walks {walks} reads {reads}")?;
        }
        Err(fault) => println!(rt; "{fault}")?,
    }
    Ok(())
}
