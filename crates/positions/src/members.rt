// The positions of a set, one after another.
ghost use Rattle.std.specs.Iterator.{YieldsFirst, item_count};
ghost use Rattle.positions.specs.Members.{members};

/// The positions of a set that are left, in ascending order.
#[derive(Clone, Copy, Debug)]
pub struct Members {
    pub(crate) bits: u64,
}

impl Iterator for Members {
    type Item = usize;

    ghost next_gives = { YieldsFirst (λ s. members s.bits) };

    ghost remaining = { item_count (λ s. members s.bits) };

    #[inline]
    fn next(&mut self) -> Option<usize> {
        if self.bits == 0 {
            return None;
        }
        let least = self.bits.trailing_zeros() as usize;
        self.bits &= self.bits - 1;
        Some(least)
    }
}
