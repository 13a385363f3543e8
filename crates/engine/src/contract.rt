ghost use Rattle.std.specs.Prelude.{◌≡◌, ℕ, ◌≤◌, List, []};
ghost use Rattle.regular.specs.Language.{Regex, Inhabited};
ghost use Rattle.regular.specs.Jumps.{Skips};
ghost use Rattle.engine.specs.Answers.{AtTails, Advances, TellsWord};

/// Reads a text right to left from the place where a match may end, and says how far the next such place may lie.
/// A walk begins with `start`, goes on by `advance` while there is a state, asks `is_final` at each, and `jump` at the last one.
/// No call changes or refuses anything. At a state that no tail gives the answers of `advance` and `is_final` are free, and `jump` is any number from 1 on.
pub trait Engine {
    type State: Copy;

    // the expression whose words the engine recognises
    ghost expression: { Self → Regex };

    // the state after a tail, read right to left
    ghost after: { Self → List ℕ → Self.State };

    // how far one may go on from a place where the longest tail is the given one
    ghost shift: { Self → List ℕ → ℕ };

    /// The state of the empty word.
    fn start(&self) -> Self::State
        ensures { result ≡ after self.now [] };

    /// The state of the longer word, or none where that is no tail.
    fn advance(&self, state: Self::State, code: u8) -> Option<Self::State>
        ensures { Advances (expression self.now) (after self.now) state code result };

    /// Whether the tail is a word.
    fn is_final(&self, state: Self::State) -> bool
        ensures { TellsWord (expression self.now) (after self.now) state result };

    /// The shift at the tail, and at any state at least 1.
    fn jump(&self, state: Self::State) -> u32
        ensures forward { 1 ≤ result }
        ensures value { AtTails (expression self.now) (after self.now) state (λ v. result ≡ shift self.now v) };

    // Two laws, which every implementation has to show. Every set of the expression holds some code:
    ghost inhabited: { (e : Self) → Inhabited (expression e) };

    // and a shift goes on, past no match.
    ghost skips: { (e : Self) → Skips (expression e) (shift e) };
}
