// Compares what becomes of expressions with outcomes that were worked out by hand, and prints each case that differs.

#![tactic(auto)]

mod table;

use anyhow::Context;
use expression::{Mode, read};
use std::alloc::{AllocError, Global};
use table::{NUMBERED, REPEATED, WRITTEN};

// What the bytes come to, as the program `parse` prints it.
fn outcome(heap: Global, mode: Mode, bytes: &[u8]) -> Result<String, AllocError> {
    match read(heap, mode, bytes) {
        Ok(expression) => format!(in heap; "{expression}"),
        Err(fault) => format!(in heap; "{fault}"),
    }
}

fn written(heap: Global, expression: &str) -> anyhow::Result<Vec<u8>> {
    Ok(Vec::from_slice(heap, expression.as_bytes())?)
}

fn add(bytes: &mut Vec<u8>, piece: &[u8], times: u16) -> Result<(), AllocError> {
    for _ in 0..times {
        bytes.extend_from_slice(piece)?;
    }
    Ok(())
}

// The bytes of pieces, each followed by how often it stands: `( 2 a 1 ) 2` is `((a))`.
fn repeated(heap: Global, pieces: &str) -> anyhow::Result<Vec<u8>> {
    let mut bytes = Vec::new(heap);
    let mut piece: &[u8] = &[];
    for word in pieces.split(' ') {
        if piece.is_empty() {
            piece = word.as_bytes();
        } else {
            add(&mut bytes, piece, word.parse::<u16>()?)?;
            piece = &[];
        }
    }
    Ok(bytes)
}

fn numbered(heap: Global, numbers: &str) -> anyhow::Result<Vec<u8>> {
    let mut bytes = Vec::new(heap);
    for number in numbers.split(' ') {
        bytes.push(number.parse::<u8>()?)?;
    }
    Ok(bytes)
}

// A line of a table: the mode, the expression, `=>` and the outcome.
fn parts(line: &str) -> anyhow::Result<(Mode, &str, &str)> {
    let (name, rest) = line
        .split_once(' ')
        .context("a line of the table has no blank")?;
    let (expression, expected) = rest
        .split_once(" => ")
        .context("a line of the table has no outcome")?;
    Ok((name.parse()?, expression, expected))
}

// How many lines of a table agree, whose expressions `bytes_of` reads; the others are printed with what they come to.
fn compare<F: Fn(Global, &str) -> anyhow::Result<Vec<u8>>>(
    rt: &HostRuntime,
    bytes_of: F,
    table: &str,
) -> anyhow::Result<usize>
    requires { F.IsAlwaysCallable bytes_of }
{
    let heap = rt.alloc();
    let mut agree: usize = 0;
    for line in table.lines() {
        let (mode, expression, expected) = parts(line)?;
        let bytes = bytes_of(heap, expression)?;
        let told = outcome(heap, mode, &bytes)?;
        if told.as_str() == expected {
            agree = agree.saturating_add(1);
        } else {
            println!(rt; "{line}: {told}")?;
        }
    }
    Ok(agree)
}

fn main(rt: HostRuntime) -> anyhow::Result<()> {
    let agree = compare(&rt, written, WRITTEN)?
        .saturating_add(compare(&rt, repeated, REPEATED)?)
        .saturating_add(compare(&rt, numbered, NUMBERED)?);
    println!(rt; "{agree} cases agree")?;
    Ok(())
}
