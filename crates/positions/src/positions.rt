// Sets of positions.
ghost use Rattle.std.specs.Prelude.{◌≡◌, ℕ, ◌^◌, ◌<◌, ◌≤◌, ◌↔◌, IsTrue, length, bit_and, bit_or, ◌==◌};
ghost use Rattle.regular.specs.Sets.{as_set, bit, followed};
ghost use Rattle.positions.specs.Greatest.{greatest_in};
ghost use Rattle.positions.specs.Closure.{Closed};

use crate::members::Members;
use std::marker::Model;
use std::ops::{BitAnd, BitOr, BitOrAssign};

/// A set of positions. Contracts see it as the number whose bits its positions are: 6 is the set of 1 and 2.
#[derive(Clone, Copy, Debug, PartialEq, Eq)]
pub struct Positions {
    bits: u64,
}

impl Model for Positions {
    ghost Value = { ℕ };

    ghost view = { λ s. s.bits };

    ghost invariant = { λ s. s.bits < 2 ^ 64 };

    ghost inverse = { λ n. record { bits = n } };
}

impl Positions {
    /// The set of no position.
    pub fn empty() -> Positions
        ensures { result ≡ 0 }
    {
        Positions { bits: 0 }
    }

    /// The set of one position, and of none for a number above 63: `Positions::only(2)` is seen as 4.
    pub fn only(position: usize) -> Positions
        ensures { result ≡ as_set (λ q. q == position) }
    {
        let bits = if position < 64 { 1 << position } else { 0 };
        Positions { bits }
    }

    /// Whether a position is in the set.
    #[inline]
    pub fn has(self, position: usize) -> bool
        ensures { result ≡ bit self position }
    {
        position < 64 && self.bits >> position & 1 == 1
    }

    /// Whether no position is in the set.
    #[inline]
    pub fn is_empty(self) -> bool
        ensures { IsTrue result ↔ (self ≡ 0) }
    {
        self.bits == 0
    }

    /// The union of the rows of the set's positions: `a.follow(&[b, c])` is `c` where `a` has 1 and not 0.
    #[inline]
    pub fn follow(self, rows: &[Positions]) -> Positions
        ensures { result ≡ followed rows.now self (length rows.now) }
    {
        // a loop, as in `greatest`: of `fold` over an iterator of this crate's own no proof closed
        let mut all = Positions::empty();
        for p in self {
            all |= rows.get(p).copied().unwrap_or(Positions::empty());
        }
        all
    }

    /// The greatest of the numbers of the set's positions, and at least 1.
    #[inline]
    pub fn greatest(self, numbers: &[u32]) -> u32
        ensures value { result ≡ greatest_in numbers.now self (length numbers.now) }
        ensures least { 1 ≤ result }
    {
        let mut best = 1;
        for p in self {
            best = best.max(numbers.get(p).copied().unwrap_or(0));
        }
        best
    }

    /// The set with all that can be come to from it by following rows, again and again.
    pub fn closure(self, rows: &[Positions]) -> Positions
        ensures { Closed rows.now self result }
    {
        let mut all = self;
        loop {
            let next = all | all.follow(rows);
            if next == all {
                return all;
            }
            all = next;
        }
    }
}

/// The set whose positions are the bits of a number.
impl From<u64> for Positions {
    ghost from_gives = { λ bits s. s ≡ bits };

    fn from(bits: u64) -> Positions {
        Positions { bits }
    }
}

/// The number whose bits are the set's positions: 6 for 1 and 2.
impl From<Positions> for u64 {
    ghost from_gives = { λ s bits. bits ≡ s };

    fn from(set: Positions) -> u64 {
        set.bits
    }
}

impl BitOr for Positions {
    type Output = Positions;

    ghost bitor_gives = { λ a b r. r ≡ bit_or a b };

    #[inline]
    fn bitor(self, other: Positions) -> Positions {
        Positions {
            bits: self.bits | other.bits,
        }
    }
}

impl BitOrAssign for Positions {
    ghost bitor_assign_gives = { λ a b r. r ≡ bit_or a b };

    #[inline]
    fn bitor_assign(&mut self, other: Positions) {
        *self = *self | other;
    }
}

impl BitAnd for Positions {
    type Output = Positions;

    ghost bitand_gives = { λ a b r. r ≡ bit_and a b };

    #[inline]
    fn bitand(self, other: Positions) -> Positions {
        Positions {
            bits: self.bits & other.bits,
        }
    }
}

/// The positions of a set come in ascending order.
impl IntoIterator for Positions {
    type Item = usize;

    type IntoIter = Members;

    ghost into_iter_gives = { λ s r. r.bits ≡ s };

    #[inline]
    fn into_iter(self) -> Members {
        Members { bits: self.bits }
    }
}
