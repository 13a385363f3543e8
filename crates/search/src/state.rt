mod calls;

ghost use Rattle.std.specs.Prelude.{◌+◌, ◌-◌, ◌*◌, ◌≤◌, length};

use crate::numbers::Numbers;

/// A search: its text, and how far it has come.
#[derive(Drop)]
pub struct Search<'t, S> {
    text: &'t [S],
    numbers: Numbers,
    ghost short: { length text.now ≤ 65535 },
    ghost order: { numbers.from ≤ numbers.next },
    ghost inside: { numbers.next ≤ length text.now + 1 },
    ghost few: { numbers.walks ≤ numbers.next - numbers.from },
    ghost fits: { numbers.filled ≤ 65536 * numbers.next - 65535 },
    ghost some: { numbers.reads ≤ 65535 * numbers.next },
}
