//! Lines and decimal numbers, as the programs' inputs have them.

#![tactic(auto)]

ghost use Rattle.std.specs.Prelude.{◌≡◌, ℕ, ◌≤◌, length, MatchOption};
ghost use Rattle.lines.specs.Lines.{Lacks, Splits, Parted, line, behind};
ghost use Rattle.lines.specs.Numbers.{Decimal};

use memchr::memchr;

/// What stands before the first such byte, and what stands behind it: `split_once(b"9 of 10", b' ')` is `9` and `of 10`.
pub fn split_once(bytes: &[u8], separator: u8) -> Option<(&[u8], &[u8])>
    ensures { MatchOption result (Lacks separator bytes.now) (λ parts. Splits separator bytes.now parts.0.now parts.1.now) }
{
    let at = memchr(separator, bytes)?;
    Some((&bytes[..at], &bytes[at + 1..]))
}

/// The first line, and what stands behind its line feed: `parted(b"ab\ncd")` is `ab` and `cd`.
/// Without a line feed all of it is the line.
pub fn parted(bytes: &[u8]) -> (&[u8], &[u8])
    ensures parts { Parted bytes.now result.0.now result.1.now }
    ensures within { length result.1.now ≤ length bytes.now }
    ensures line { result.0.now ≡ line bytes.now }
    ensures rest { result.1.now ≡ behind bytes.now }
{
    match split_once(bytes, b'\n') {
        Some(parts) => parts,
        None => (bytes, &[]),
    }
}

/// The number that decimal digits write, if it is at most the limit: `decimal(b"042", 99)` is 42.
/// A sign, a blank and no digit at all are no number.
pub fn decimal(bytes: &[u8], limit: u32) -> Option<u32>
    ensures { MatchOption result ((n : ℕ) → Decimal limit bytes.now n → ⊥) (λ n. Decimal limit bytes.now n) }
{
    if bytes.is_empty() {
        return None;
    }
    // by hand, since the library's `parse` takes a sign too
    let mut n: u64 = 0;
    for &digit in bytes {
        if !digit.is_ascii_digit() {
            return None;
        }
        n = n * 10 + u64::from(digit - b'0');
        if n > u64::from(limit) {
            return None;
        }
    }
    Some(n as u32)
}
