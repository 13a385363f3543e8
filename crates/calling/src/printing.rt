use crate::telling::tell;
use script::{Misread, read_script};

/// Prints what the calls of a script come to (`told`), or the number of the first line that is wrong: `bad line 3`.
pub fn answer(rt: &HostRuntime, input: &[u8]) -> anyhow::Result<()> {
    match read_script(rt.alloc(), input) {
        Ok(script) => {
            let telling = tell(rt.alloc(), &script)?;
            print!(rt; "{telling}")?;
        }
        Err(Misread::Memory) => return Err(Misread::Memory.into()),
        Err(misread) => println!(rt; "{misread}")?,
    }
    Ok(())
}
