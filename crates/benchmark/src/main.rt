// Times the three engines over the same texts, and prints symbols per second, walks and reads, each beside the single-step engine's.
// `benchmark 20` lists each text twenty times; without an argument it only says so, since times differ from run to run.

#![tactic(auto)]

mod texts;

use anyhow::Context;
use engine::Engine;
use expression::{Expression, Mode, read};
use finder::{Listing, list_all};
use refusal::LONGEST_TEXT;
use single::SingleStep;
use std::alloc::Global;
use std::env;
use std::time::Instant;
use tabled::Tabled;
use texts::note;
use word::Word;

// What one engine took.
#[derive(Clone, Copy)]
struct Timing {
    micros: u64,
    walks: u64,
    reads: u64,
}

const EXPRESSIONS: [&str; 5] = [
    "LOT 7734",
    "(LOT|BATCH) [0-9][0-9][0-9][0-9]",
    "[A-Z][A-Z]\\-[0-9]+",
    "expires (to)?day",
    "[^\\n]*7",
];

// As many entries as matches can end at one place of the longest text.
const ROOM: usize = LONGEST_TEXT + 1;

const NO_MEMORY: &str = "no memory for the engine";

fn accepted(heap: Global, expression: &str) -> anyhow::Result<Expression> {
    read(heap, Mode::Bytes, expression.as_bytes())
        .ok()
        .context("the expression is refused")
}

fn list<E: Engine>(heap: Global, engine: &E, text: &[u8]) -> anyhow::Result<Listing> {
    list_all(heap, text, engine, ROOM)
        .ok()
        .context("the text is refused")
}

fn time<E: Engine>(
    rt: &HostRuntime,
    engine: &E,
    text: &[u8],
    rounds: u32,
) -> anyhow::Result<Timing> {
    let first = list(rt.alloc(), engine, text)?;
    let start = Instant::now(rt)?;
    for _ in 0..rounds {
        let _again = list(rt.alloc(), engine, text)?;
    }
    let micros = u64::try_from(start.elapsed(rt)?.as_micros())?;
    Ok(Timing {
        micros: micros.max(1),
        walks: first.walks,
        reads: first.reads,
    })
}

// `part` in hundredths of `whole`.
fn percent(part: u64, whole: u64) -> u64 {
    part.saturating_mul(100) / whole.max(1)
}

fn print_row(
    rt: &HostRuntime,
    name: &str,
    symbols: u64,
    row: Timing,
    base: Timing,
) -> anyhow::Result<()> {
    let rate = symbols.saturating_mul(1000) / row.micros.max(1);
    let speed = percent(base.micros, row.micros);
    let walks = percent(row.walks, base.walks);
    let reads = percent(row.reads, base.reads);
    println!(rt;
        "  {name}: {rate} thousand symbols a second, {speed}% of single-step; walks {walks}%, reads {reads}%"
    )?;
    Ok(())
}

fn compare(rt: &HostRuntime, expression: &str, text: &[u8], rounds: u32) -> anyhow::Result<()> {
    let heap = rt.alloc();
    println!(rt; "{expression}")?;
    let symbols = (text.len() as u64).saturating_mul(u64::from(rounds));
    let single = SingleStep::new(heap, accepted(heap, expression)?)
        .ok()
        .context(NO_MEMORY)?;
    let base = time(rt, &single, text, rounds)?;
    print_row(rt, "single", symbols, base, base)?;
    let tabled = Tabled::new(heap, accepted(heap, expression)?)
        .ok()
        .context(NO_MEMORY)?;
    let row = time(rt, &tabled, text, rounds)?;
    print_row(rt, "tabled", symbols, row, base)?;
    if let Ok(word) = Word::new(heap, accepted(heap, expression)?) {
        let row = time(rt, &word, text, rounds)?;
        print_row(rt, "word", symbols, row, base)?;
    }
    Ok(())
}

fn main(rt: HostRuntime) -> anyhow::Result<()> {
    let Some(rounds) = env::args(&rt)?.nth(1) else {
        println!(rt; "benchmark ROUNDS: lists each text so many times")?;
        return Ok(());
    };
    let rounds = rounds.as_str().parse::<u32>()?;
    let text = note(rt.alloc(), LONGEST_TEXT)?;
    for expression in EXPRESSIONS.iter() {
        compare(&rt, expression, &text, rounds)?;
    }
    Ok(())
}
