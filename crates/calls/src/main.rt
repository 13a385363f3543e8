// Reads a script of calls from standard input, makes them, and prints what they answer.

#![tactic(auto)]

use calling::answer;
use std::io::Read;

fn main(rt: HostRuntime) -> anyhow::Result<()> {
    let mut input = Vec::new(rt.alloc());
    rt.stdin().read_to_end(&mut input)?;
    answer(&rt, &input)
}
