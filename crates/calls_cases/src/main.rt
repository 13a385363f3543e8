// Scripts of calls whose answers are stored; they were worked out apart from this code.

#![tactic(auto)]

use calling::answer;

const SCRIPTS: [&[u8]; 17] = [
    // steps and refusals for room
    b"ab+c\ntable 10\nrun single 100\n\nxabbcabc",
    b"aba\ntable 2\nrun single 100\n\nababa",
    b"aba\ntable 1\nrun single 9\nstep single\nclear\nstep single\nmove 5\nmove 6\n\nababa",
    b"a*\ntable 3\nrun single 1\nstep single\n\n",
    b"a*\ntable 3\nrun single 2\n\na",
    b"a*\ntable 2\nrun single 2\nclear\nrun single 2\n\na",
    // moves, dots and sets
    b"(a|b)*abb\ntable 9\nrun single 4\nrun single 0\nclear\nrun single 99\n\nababbabb",
    b"[b-d]|\\.\ntable 0\nstep single\nstep single\nmove 3\nrun single 9\n\naxa.",
    b"a.c\ntable 4\nmove 4\nrun single 9\nmove 2\nstep single\nstep single\n\nabcaxc\n\nac",
    b"[^a]?b\ntable 9\nrun single 3\nclear\nclear\nrun single 4294967295\n\nbxbbab",
    // lines that are wrong, or wanting
    b"ab\ntable 3\nstep single",
    b"ab\ntable 3",
    b"ab",
    b"ab\ntable 65537\n\nab",
    b"ab\ntable 3\nstep single\nstep table\n\nab",
    b"ab\ntable 3\nrun single 4294967296\n\nab",
    b"ab\ntable 3\nmove \n\nab",
];

fn main(rt: HostRuntime) -> anyhow::Result<()> {
    for script in SCRIPTS.iter() {
        answer(&rt, script)?;
        println!(rt; "--")?;
    }
    Ok(())
}
