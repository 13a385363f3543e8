// The tails by lengths, and their distances.
ghost use Rattle.std.specs.Prelude.{◌≡◌, ◌≤◌, length, IfOk, IfSome};
ghost use Rattle.syntax.specs.Tree.{language};
ghost use Rattle.distance.specs.Extremes.{finite, lesser};
ghost use Rattle.distance.specs.Found.{first_of, opens, second_of};
ghost use Rattle.shift.specs.Excess.{distance};

use crate::kinds::Kinds;
use crate::tail::Tail;
use single::SingleStep;
use std::alloc::{AllocError, Global};

/// Only so many tails are listed: the depth is the greatest length for which all up to it are.
const LIMIT: usize = 256;

/// Every tail up to a length, the depth, by lengths; those of the depth begin at `full`.
#[derive(Drop)]
pub struct Tails {
    pub(crate) list: Vec<Tail>,
    full: usize,
    pub(crate) depth: u32,
    ghost full_in: { full ≤ length list.items },
}

impl Tails {
    ghost use Rattle.shift.specs.Listed.{ListedFor, Seconds, all_words, full_words};

    pub(crate) fn of(heap: Global, engine: &SingleStep) -> Result<Tails, AllocError>
        ensures { IfOk result (ListedFor (language engine.now.expression.tree)) }
    {
        let kinds = Kinds::of(heap, engine)?;
        let mut list = Vec::new(heap);
        list.push(Tail::empty(heap))?;
        let mut full = 0;
        let shortest = engine.shortest();
        for depth in 0..shortest {
            match kinds.longer_than(heap, &list[full..], LIMIT - list.len())? {
                None => return Ok(Tails { list, full, depth }),
                Some(mut longer) => {
                    full = list.len();
                    list.append(&mut longer)?;
                }
            }
        }
        Ok(Tails {
            list,
            full,
            depth: shortest,
        })
    }

    // How far the nearest tail goes on from a word, if any does.
    fn first(&self, word: &[u8]) -> Option<usize>
        ensures { distance result ≡ first_of (all_words self.now) word.now }
    {
        self.list.iter().filter_map(|tail| tail.excess(word)).min()
    }

    // Some tail of the depth goes on from the word.
    fn opens(&self, word: &[u8]) -> bool
        ensures { result ≡ opens self.now.depth (full_words self.now) word.now }
    {
        // no tail of the depth is longer than a word that long
        if word.len() >= self.depth as usize {
            return false;
        }
        self.list[self.full..]
            .iter()
            .any(|tail| tail.goes_on(word, self.depth as usize))
    }

    // The second distance of a word that is one of the first tails, by the second distances of these.
    fn known(&self, seconds: &[usize], word: &[u8]) -> Option<usize>
        requires { Seconds self.now seconds.now }
        ensures { IfSome result (λ second. second ≡ second_of self.now.depth (full_words self.now) word.now) }
    {
        for (index, tail) in self.list.iter().enumerate() {
            if index < seconds.len() && tail.codes() == word {
                return Some(seconds[index]);
            }
        }
        None
    }

    // How far it is, from the word or some end of it, to the end of a tail of the depth. The second distances of the
    // first tails are known: an end of a tail is a tail before it, so each is asked for once.
    pub(crate) fn second(&self, seconds: &[usize], word: &[u8]) -> usize
        requires { Seconds self.now seconds.now }
        ensures { result ≡ second_of self.now.depth (full_words self.now) word.now }
    {
        let Some((_, rest)) = word.split_first() else {
            return self.depth.max(1) as usize;
        };
        if self.opens(word) {
            return (self.depth as usize).saturating_sub(word.len());
        }
        match self.known(seconds, rest) {
            Some(second) => second,
            None => self.second(seconds, rest),
        }
    }

    // The lesser of the two distances, of which the second is known.
    pub(crate) fn nearest(&self, word: &[u8], second: usize) -> usize
        requires { second ≡ second_of self.now.depth (full_words self.now) word.now }
        ensures { finite result ≡ lesser (first_of (all_words self.now) word.now) (finite second) }
    {
        self.first(word).map_or(second, |first| first.min(second))
    }
}
