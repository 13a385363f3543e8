// What counts of each tail, and the least over those that lead to a position.
ghost use Rattle.std.specs.Prelude.{◌≡◌, ◌&&◌, ◌==◌, IfOk, map};
ghost use Rattle.std.specs.List.{range_with_len};
ghost use Rattle.regular.specs.Sets.{bit};
ghost use Rattle.shift.specs.Weighed.{WeighedFor, distance_of, jump_of, short_of};

use crate::tails::Tails;
use positions::Positions;
use std::alloc::{AllocError, Global};

/// What counts of a tail: its length, the positions that it leads to, those that any word ending in it leads to,
/// and the lesser of its two distances.
#[derive(Drop)]
pub struct Piece {
    span: usize,
    positions: Positions,
    onward: Positions,
    nearest: usize,
}

impl Piece {
    // It has the length, and some word that ends in its tail leads to the position.
    fn leads_on(&self, span: usize, position: usize) -> bool
        ensures { result ≡ (self.now.span == span && bit self.now.onward position) }
    {
        self.span == span && self.onward.has(position)
    }
}

/// The pieces of every tail up to a length, the depth.
#[derive(Drop)]
pub struct Pieces {
    list: Vec<Piece>,
    depth: u32,
}

impl Pieces {
    pub(crate) fn of(
        heap: Global,
        arrows: &[Positions],
        tails: &Tails,
    ) -> Result<Pieces, AllocError>
        ensures { IfOk result (WeighedFor arrows.now tails.now) }
    {
        let mut list = Vec::new(heap);
        let mut seconds = Vec::new(heap);
        for tail in &tails.list {
            let second = tails.second(&seconds, tail.codes());
            seconds.push(second)?;
            list.push(Piece {
                span: tail.codes().len(),
                positions: tail.positions(),
                onward: tail.positions().closure(arrows),
                nearest: tails.nearest(tail.codes(), second),
            })?;
        }
        Ok(Pieces {
            list,
            depth: tails.depth,
        })
    }

    // The least length of a tail that leads to the position, up to the depth.
    fn shortest_way(&self, position: usize) -> usize
        ensures { result ≡ short_of self.now.depth self.now.list.items position }
    {
        self.list
            .iter()
            .filter(|piece| piece.positions.has(position))
            .map(|piece| piece.span)
            .fold(self.depth as usize, usize::min)
    }

    // The least distance of the tails of a length that lead on to the position, up to a greatest one.
    fn least_distance(&self, span: usize, position: usize, most: usize) -> usize
        ensures { result ≡ distance_of most self.now.list.items span position }
    {
        self.list
            .iter()
            .filter(|piece| piece.leads_on(span, position))
            .map(|piece| piece.nearest)
            .fold(most, usize::min)
    }

    // How far a search may go on from the position.
    fn jump(&self, position: usize) -> u32
        ensures { result ≡ jump_of self.now.depth self.now.list.items position }
    {
        let most = self.depth.max(1) as usize;
        let short = self.shortest_way(position);
        self.least_distance(short, position, most) as u32
    }

    // .. from each of so many positions.
    pub(crate) fn jumps(&self, heap: Global, count: usize) -> Result<Vec<u32>, AllocError>
        ensures { IfOk result (λ v. v.items ≡ map (jump_of self.now.depth self.now.list.items) (range_with_len 0 count)) }
    {
        (0..count).map(|position| self.jump(position)).collect(heap)
    }
}
