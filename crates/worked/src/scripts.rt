// Scripts in a row: each begins with a line `input N`, and has N bytes and a line feed.
use lines::split_once;

// The first script, and what stands behind it.
pub(crate) fn next_script(bytes: &[u8]) -> Option<(&[u8], &[u8])> {
    let (line, rest) = split_once(bytes.strip_prefix(b"input ")?, b'\n')?;
    // any byte counts as a digit, as it always did here, so `lines::decimal` does not serve
    let mut length: usize = 0;
    for &digit in line {
        length = length
            .saturating_mul(10)
            .saturating_add(usize::from(digit.saturating_sub(b'0')));
    }
    if length < rest.len() {
        Some((&rest[..length], &rest[length + 1..]))
    } else {
        None
    }
}
