ghost use Rattle.std.specs.Prelude.{◌≡◌, ℕ, ◌+◌, ◌-◌, ◌<◌, ◌≤◌, min, map, length, take, MatchResult};
ghost use Rattle.regular.specs.Language.{Regex};
ghost use Rattle.refusal.specs.declared.Fault.TheVariants.{TextTooLong, BeyondText};
ghost use Rattle.search.specs.Rules.{finished};
ghost use Rattle.search.specs.Calls.{fresh, Stepped, Held, RanBy};
ghost use Rattle.search.specs.ListTheorem.{SetAside};
ghost use Rattle.search.specs.Performing.{CalledBy, named};

use crate::numbers::{Answer, Call, Match, Numbers, Stop};
use crate::state::Search;
use crate::walks::Spot;
use engine::{Engine, Symbol};
use refusal::{Fault, LONGEST_TEXT};

// The engine of a number, or the spare one where there is none.
fn pick<'e, E>(engines: &'e [E], spare: &'e E, number: usize) -> &'e E
    ensures { result.now ≡ named engines.now spare.now number }
{
    engines.get(number).unwrap_or(spare)
}

// That a call leaves the text stands in each contract: they are public, and stay as they read. A row of engines goes with
// a spare one, since `perform` takes both (docs/DECISIONS.md, "Search").
impl<'t, S: Symbol> Search<'t, S> {
    /// The search's five numbers, all 0 when it is opened.
    pub fn numbers(&self) -> Numbers
        ensures { result ≡ self.now.numbers }
    {
        let Search { numbers, .. } = self;
        *numbers
    }

    /// Begins a search of the text, which has at most 65,535 symbols: `Search::open(b"xabbcabc")?`.
    pub fn open(text: &'t [S]) -> Result<Search<'t, S>, Fault>
        ensures { MatchResult result (λ s. (length text.now ≤ 65535) × (s.text ≡ text.entry) × (s.numbers ≡ fresh 0)) (λ f. (65535 < length text.now) × (f ≡ TextTooLong)) }
    {
        if text.len() > LONGEST_TEXT {
            return Err(Fault::TextTooLong);
        }
        Ok(Search {
            text,
            numbers: Numbers::at_rest(0),
        })
    }

    // No match can end at the place: it lies behind the text's end.
    fn is_behind(&self, place: u32) -> bool
        ensures { result ≡ finished (map S.code self.now.text.now) place }
    {
        place as usize > self.text.len()
    }

    /// Lists the matches that end at the next place, and goes on to the place that the engine jumps to.
    /// Answers how many it wrote; refused where every place is looked at, or where the table lacks room for them all.
    pub fn step<E: Engine>(&mut self, engine: &E, table: &mut [Match]) -> Result<u32, Fault>
        ensures text { self.new.text ≡ self.old.text }
        ensures step { MatchResult result (Stepped (E.expression engine.now) (E.shift engine.now) (map S.code self.old.text.now) self.old.numbers self.new.numbers table.old table.new) (Held (E.expression engine.now) (E.shift engine.now) (map S.code self.old.text.now) self.old.numbers self.new.numbers table.old table.new) }
    {
        let Numbers {
            from,
            next: place,
            filled,
            walks,
            reads,
        } = self.numbers;
        if self.is_behind(place) {
            return Err(Fault::Finished {
                place: place as usize,
            });
        }
        let text = self.text;
        let spot = Spot {
            engine,
            text,
            place,
        };
        let walked = spot.walk();
        let matches = walked.count as usize;
        if matches > table.len().saturating_sub(filled as usize) {
            return Err(Fault::NoRoom {
                place: place as usize,
                matches,
            });
        }
        spot.add(table, filled, walked.count);
        self.numbers = Numbers {
            from,
            next: place.saturating_add(walked.jump).min(text.len() as u32 + 1),
            filled: filled + walked.count,
            walks: walks + 1,
            reads: reads + walked.reads,
        };
        Ok(walked.count)
    }

    /// Steps until every place is looked at, the budget is done or the room is too small, and answers the steps done and which it was.
    pub fn run<E: Engine>(&mut self, engine: &E, table: &mut [Match], budget: u32) -> (u32, Stop)
        ensures text { self.new.text ≡ self.old.text }
        ensures run { RanBy (E.expression engine.now) (E.shift engine.now) (map S.code self.old.text.now) self.old.numbers self.new.numbers table.old table.new budget result.0 result.1 }
    {
        let mut done = 0;
        // a form that this project fixes (docs/DECISIONS.md)
        let stop = loop {
            if self.is_behind(self.numbers.next) {
                break Stop::Finished;
            }
            if done == budget {
                break Stop::Budget;
            }
            match self.step(engine, table) {
                Ok(_) => done += 1,
                Err(_) => break Stop::Room,
            }
        };
        (done, stop)
    }

    /// Sets the matches listed so far aside, so that the table may be filled anew, and answers how many they were.
    pub fn clear(&mut self) -> u32
        ensures text { self.new.text ≡ self.old.text }
        ensures count { result ≡ self.old.numbers.filled }
        ensures after { self.new.numbers ≡ fresh self.old.numbers.next }
    {
        let numbers = self.numbers;
        self.numbers = Numbers::at_rest(numbers.next);
        numbers.filled
    }

    /// Goes to a place of the text, its end included, with nothing listed.
    pub fn move_to(&mut self, place: u32) -> Result<(), Fault>
        ensures text { self.new.text ≡ self.old.text }
        ensures after { MatchResult result (λ _. (place ≤ length self.old.text.now) × (self.new.numbers ≡ fresh place)) (λ f. (length self.old.text.now < place) × (f ≡ BeyondText place) × (self.new.numbers ≡ self.old.numbers)) }
    {
        if place as usize > self.text.len() {
            return Err(Fault::BeyondText {
                place: place as usize,
            });
        }
        self.numbers = Numbers::at_rest(place);
        Ok(())
    }

    // Makes a call, and says what it answers.
    pub(crate) fn call<E: Engine>(
        &mut self,
        engines: &[E],
        spare: &E,
        call: Call,
        table: &mut [Match],
    ) -> Answer
        ensures text { self.new.text ≡ self.old.text }
        ensures by { (r : Regex) → ((i : ℕ) → E.expression (named engines.now spare.now i) ≡ r) → SetAside r (map S.code self.old.text.now) self.old.numbers (take self.old.numbers.filled table.old) → CalledBy r (map S.code self.old.text.now) (λ i. E.shift (named engines.now spare.now i)) call self.old.numbers self.new.numbers table.old table.new result }
    {
        match call {
            Call::Step { engine } => self
                .step(pick(engines, spare, engine), table)
                .map_or_else(Answer::Refused, Answer::Wrote),
            Call::Run { engine, budget } => {
                let (done, stop) = self.run(pick(engines, spare, engine), table, budget);
                Answer::Ran(done, stop)
            }
            Call::Clear => Answer::Cleared(self.clear()),
            Call::Move { place } => self
                .move_to(place)
                .map_or_else(Answer::Refused, |_| Answer::Moved),
        }
    }
}
