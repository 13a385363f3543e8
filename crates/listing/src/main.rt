// Lists the matches of a byte expression in a text: standard input has the expression up to the first line feed, and then the text.

#![tactic(auto)]

mod job;

use lines::parted;
use std::io::Read;

fn main(rt: HostRuntime) -> anyhow::Result<()> {
    let mut bytes = Vec::new(rt.alloc());
    rt.stdin().read_to_end(&mut bytes)?;
    if bytes.len() > job::LONGEST_INPUT {
        println!(rt; "too long")?;
        return Ok(());
    }
    let (expression, text) = parted(&bytes);
    match job::list(rt.alloc(), expression, text) {
        Ok(listing) => println!(rt; "{listing}")?,
        Err(fault) => println!(rt; "{fault}")?,
    }
    Ok(())
}
