// Reads an expression from standard input, and tells how many positions it has and how long its shortest word is, or
// why it is refused. The argument says what it is written for: `printf 'ab+c' | parse byte`.

#![tactic(auto)]

use anyhow::Context;
use expression::{Mode, read};
use std::env;
use std::io::Read;

fn main(rt: HostRuntime) -> anyhow::Result<()> {
    let name = env::args(&rt)?
        .nth(1)
        .context("an argument is wanted: `byte` or `field`")?;
    let mode: Mode = name.parse()?;
    let mut bytes = Vec::new(rt.alloc());
    rt.stdin().read_to_end(&mut bytes)?;
    match read(rt.alloc(), mode, &bytes) {
        Ok(expression) => println!(rt; "{expression}")?,
        Err(fault) => println!(rt; "{fault}")?,
    }
    Ok(())
}
