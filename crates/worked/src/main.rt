// Runs the worked cases: each script on standard input as program `calls` runs it, and then a field expression over a label.

#![tactic(auto)]

mod fields;
mod scripts;

use calling::answer;
use scripts::next_script;
use std::io::Read;

fn main(rt: HostRuntime) -> anyhow::Result<()> {
    let mut bytes = Vec::new(rt.alloc());
    rt.stdin().read_to_end(&mut bytes)?;
    let mut rest = bytes.as_slice();
    // no more scripts than bytes, so that the check sees an end
    for case in 1..=bytes.len() {
        let Some((script, behind)) = next_script(rest) else {
            break;
        };
        println!(rt; "case {case}")?;
        answer(&rt, script)?;
        rest = behind;
    }
    fields::run(&rt)
}
