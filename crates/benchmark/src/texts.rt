// A delivery note that can be made again: lines of words, drawn by a generator of fixed seed.
use std::alloc::{AllocError, Global};

const WORDS: [&str; 16] = [
    "LOT ", "BATCH ", "7734 ", "0451 ", "expires ", "today ", "day ", "beans ", "rice ", "AB-12 ",
    "QX-7 ", "pallet ", "depot ", "of ", "and ", "\n",
];

// The next number of the generator.
fn stirred(seed: u32) -> u32 {
    seed.wrapping_mul(1_664_525).wrapping_add(1_013_904_223)
}

pub(crate) fn note(heap: Global, length: usize) -> Result<Vec<u8>, AllocError> {
    let mut text = Vec::new(heap);
    let mut seed: u32 = 7;
    // no more turns than symbols, so that the check sees an end
    for _ in 0..length {
        if text.len() >= length {
            break;
        }
        seed = stirred(seed);
        text.extend_from_slice(WORDS[(seed >> 28) as usize].as_bytes())?;
    }
    text.truncate(length);
    Ok(text)
}
