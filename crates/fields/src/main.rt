// Prints the fields of the label on standard input, or why it is refused.

#![tactic(auto)]

use label::Field;
use std::io::Read;

fn main(rt: HostRuntime) -> anyhow::Result<()> {
    let mut bytes = Vec::new(rt.alloc());
    rt.stdin().read_to_end(&mut bytes)?;
    let mut fields = [Field {
        identifier: 0,
        offset: 0,
        length: 0,
    }; 32];
    match label::read(&bytes, &mut fields) {
        Ok(count) => {
            for field in fields.iter().take(count) {
                println!(rt; "{field}")?;
            }
            println!(rt; "fields {count}")?;
        }
        Err(fault) => println!(rt; "{fault}")?,
    }
    Ok(())
}
