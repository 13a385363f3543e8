ghost use Rattle.std.specs.Prelude.{◌≡◌, ℕ, ◌+◌, ◌-◌, ◌<◌, ◌≤◌, MatchBool, List, ◌++◌, IsTrue, map, length, set, take, drop, if◌then◌else◌, slice_index};
ghost use Rattle.regular.specs.Language.{Tail};
ghost use Rattle.regular.specs.Positions.{accepted};
ghost use Rattle.regular.specs.Matches.{ending, longest};
ghost use Rattle.engine.specs.Answers.{Advances};
ghost use Rattle.search.specs.Rules.{reading};
ghost use Rattle.refusal.specs.declared.TheConstants.{LONGEST_TEXT};

use crate::numbers::Match;
use engine::{Engine, Symbol};

/// What a walk finds at one place: how many matches end there, the jump, and how many symbols it read.
#[derive(Clone, Copy)]
pub struct Walked {
    pub count: u32,
    pub jump: u32,
    pub reads: u32,
}

// A place of a text, and the engine that walks leftwards from it.
#[derive(Drop)]
pub(crate) struct Spot<'a, S, E> {
    pub engine: &'a E,
    pub text: &'a [S],
    pub place: u32,
    ghost inside: { place ≤ length text.now },
    ghost short: { length text.now ≤ LONGEST_TEXT },
}

impl<'a, S: Symbol, E: Engine> Spot<'a, S, E> {
    // 1 at a final state, and else 0.
    fn tally(&self, state: E::State) -> u32
        ensures { (v : List ℕ) → Tail (E.expression self.now.engine.now) v → state ≡ E.after self.now.engine.now v → result ≡ (if accepted (E.expression self.now.engine.now) v then 1 else 0) }
    {
        u32::from(self.engine.is_final(state))
    }

    // The state of the tail that has the symbol at the place before it too, or none where that is no tail.
    fn longer(&self, state: E::State, at: u32) -> Option<E::State>
        requires { at < self.now.place }
        ensures { Advances (E.expression self.now.engine.now) (E.after self.now.engine.now) state (slice_index (map S.code self.now.text.now) at) result }
    {
        self.engine.advance(state, self.text[at as usize].code())
    }

    // Reads leftwards from the place as long as what is read is a tail, and counts the matches that end there.
    pub(crate) fn walk(&self) -> Walked
        ensures count { result.count ≡ length (ending (E.expression self.now.engine.now) (map S.code self.now.text.now) self.now.place) }
        ensures jump { result.jump ≡ E.shift self.now.engine.now (longest (E.expression self.now.engine.now) (map S.code self.now.text.now) self.now.place) }
        ensures reads { result.reads ≡ reading (E.expression self.now.engine.now) (map S.code self.now.text.now) self.now.place }
        ensures forward { 1 ≤ result.jump }
        ensures few { result.count ≤ self.now.place + 1 }
    {
        let mut state = self.engine.start();
        let mut count = self.tally(state);
        let mut reads = 0;
        // a form that this project fixes (docs/DECISIONS.md)
        'walk: for at in (0..self.place).rev() {
            reads += 1;
            match self.longer(state, at) {
                Some(longer) => state = longer,
                None => break 'walk,
            }
            count += self.tally(state);
        }
        Walked {
            count,
            jump: self.engine.jump(state),
            reads,
        }
    }

    // The same walk: writes the matches, shorter before longer, from the first entry on.
    fn write(&self, room: &mut [Match])
        requires { length (ending (E.expression self.now.engine.now) (map S.code self.now.text.now) self.now.place) ≤ length room.old }
        ensures { room.new ≡ ending (E.expression self.now.engine.now) (map S.code self.now.text.now) self.now.place ++ drop (length (ending (E.expression self.now.engine.now) (map S.code self.now.text.now) self.now.place)) room.old }
    {
        let mut state = self.engine.start();
        let mut free = put(
            room,
            0,
            self.engine.is_final(state),
            (self.place, self.place),
        );
        // a form that this project fixes (docs/DECISIONS.md)
        'walk: for start in (0..self.place).rev() {
            match self.longer(state, start) {
                Some(longer) => state = longer,
                None => break 'walk,
            }
            free = put(room, free, self.engine.is_final(state), (start, self.place));
        }
    }

    // Writes what there is to write behind the filled part of the table.
    pub(crate) fn add(&self, table: &mut [Match], filled: u32, count: u32)
        requires counted { count ≡ length (ending (E.expression self.now.engine.now) (map S.code self.now.text.now) self.now.place) }
        requires fits { count ≤ length table.old - filled }
        ensures front { take (filled + count) table.new ≡ take filled table.old ++ ending (E.expression self.now.engine.now) (map S.code self.now.text.now) self.now.place }
        ensures rest { drop (filled + count) table.new ≡ drop (filled + count) table.old }
    {
        if count > 0 {
            // a form that this project fixes (docs/DECISIONS.md)
            self.write(&mut table[filled as usize..]);
        }
    }
}

// Writes a match that was found, and says which entry is free next. A function of its own, since a proof loses
// what stands in the table where an `if` ends; an `Option` would be made at both calls to be taken apart here.
fn put(room: &mut [Match], free: usize, found: bool, entry: Match) -> usize
    requires { IsTrue found → free < length room.old }
    ensures { MatchBool found ((result ≡ free + 1) × (room.new ≡ set room.old free entry)) ((result ≡ free) × (room.new ≡ room.old)) }
{
    if found {
        room[free] = entry;
        free + 1
    } else {
        free
    }
}
