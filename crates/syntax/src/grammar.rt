// Reads an expression byte by byte, and tells whether it is in the grammar.
ghost use Rattle.std.specs.Prelude.{◌≡◌, ◌^◌, ◌<◌, ◌≤◌, length, MatchResult};
ghost use Rattle.syntax.specs.Grammar.{special, Tree, expression, written};
ghost use Rattle.syntax.specs.Automaton.{bars, begins, closes, ends, final, finish, further, marks, outside, sign, start, state, step};
ghost use Rattle.syntax.specs.Reading.{Refusal};

use crate::limits::LONGEST;
use crate::mode::Mode;
use refusal::Fault;

// What was read last: nothing yet, where an item is needed, an atom, an atom and its mark, or part of an atom.
#[derive(Clone, Copy, Debug, PartialEq, Eq)]
pub enum Form {
    Need,
    Atom,
    Marked,
    Half,
    Opened,
    Member,
    MemberHalf,
    One,
    Dash,
    DashHalf,
    Two,
}

// Whether a byte begins a value, and whether it is all of it.
#[derive(Clone, Copy, Debug, PartialEq, Eq)]
pub enum Begun {
    Not,
    Part,
    Whole,
}

fn is_special(b: u8) -> bool
    ensures { result ≡ special b }
{
    matches!(
        b,
        b'(' | b')'
            | b'['
            | b']'
            | b'<'
            | b'>'
            | b'|'
            | b'*'
            | b'+'
            | b'?'
            | b'.'
            | b'\\'
            | b'^'
            | b'-'
    )
}

fn value_begins(mode: Mode, b: u8) -> Begun
    ensures { result ≡ begins mode b }
{
    match mode {
        Mode::Bytes if !is_special(b) => Begun::Whole,
        Mode::Bytes if b == b'\\' => Begun::Part,
        Mode::Fields if b.is_ascii_digit() => Begun::Part,
        _ => Begun::Not,
    }
}

fn value_ends(mode: Mode, b: u8) -> bool
    ensures { result ≡ ends mode b }
{
    match mode {
        Mode::Bytes => is_special(b) || b == b'n',
        Mode::Fields => b.is_ascii_digit(),
    }
}

// How far an expression was read: what was read last, and how many groups are open.
// That these are few is no invariant of the type, since each byte may open one more: the loop keeps it.
// The mode is no field: it stays while the state goes on, and the automaton is defined over both.
#[derive(Clone, Copy, Debug, PartialEq, Eq)]
pub struct State {
    form: Form,
    depth: usize,
}

impl State {
    // Another form, with the same groups open.
    fn to(self, form: Form) -> State
        ensures { result ≡ state form self.depth }
    {
        State { form, ..self }
    }

    // Where a value has to begin.
    fn start(self, mode: Mode, b: u8, half: Form, whole: Form) -> Option<State>
        ensures { result ≡ start mode b half whole self.depth }
    {
        match value_begins(mode, b) {
            Begun::Not => None,
            Begun::Part => Some(self.to(half)),
            Begun::Whole => Some(self.to(whole)),
        }
    }

    // Behind the first byte of a value of two.
    fn finish(self, mode: Mode, b: u8, whole: Form) -> Option<State>
        ensures { result ≡ finish mode b whole self.depth }
    {
        value_ends(mode, b).then_some(self.to(whole))
    }

    // Behind a member.
    fn further(self, mode: Mode, b: u8) -> Option<State>
        ensures { result ≡ further mode b self.depth }
    {
        if b == mode.closes() {
            return Some(self.to(Form::Atom));
        }
        match mode {
            Mode::Bytes => self.start(mode, b, Form::MemberHalf, Form::One),
            Mode::Fields => (b == b',').then_some(self.to(Form::Member)),
        }
    }

    // Behind `)`, if it may stand here.
    fn closed(self) -> Option<State>
        ensures { result ≡ closes self.form self.depth }
    {
        match self.form {
            Form::Atom | Form::Marked => Some(State {
                form: Form::Atom,
                depth: self.depth.checked_sub(1)?,
            }),
            _ => None,
        }
    }

    // Behind `|`, if it may stand here.
    fn barred(self) -> Option<State>
        ensures { result ≡ bars self.form self.depth }
    {
        match self.form {
            Form::Atom | Form::Marked => Some(self.to(Form::Need)),
            _ => None,
        }
    }

    // Behind a mark, if it may stand here.
    fn marked(self) -> Option<State>
        ensures { result ≡ marks self.form self.depth }
    {
        match self.form {
            Form::Atom => Some(self.to(Form::Marked)),
            _ => None,
        }
    }

    // Outside sets, at no unit.
    fn sign(self, mode: Mode, b: u8) -> Option<State>
        requires { self.depth < 2 ^ 32 }
        ensures { result ≡ sign mode b (closes self.form self.depth) (bars self.form self.depth) (marks self.form self.depth) self.depth }
    {
        match b {
            b'(' => Some(State {
                form: Form::Need,
                depth: self.depth + 1,
            }),
            b')' => self.closed(),
            b'|' => self.barred(),
            b'*' | b'+' | b'?' => self.marked(),
            b'.' => Some(self.to(Form::Atom)),
            _ => (b == mode.opens()).then_some(self.to(Form::Opened)),
        }
    }

    fn outside(self, mode: Mode, b: u8) -> Option<State>
        requires { self.depth < 2 ^ 32 }
        ensures { result ≡ outside mode b (closes self.form self.depth) (bars self.form self.depth) (marks self.form self.depth) self.depth }
    {
        match mode {
            Mode::Bytes => match value_begins(mode, b) {
                Begun::Not => self.sign(mode, b),
                Begun::Part => Some(self.to(Form::Half)),
                Begun::Whole => Some(self.to(Form::Atom)),
            },
            Mode::Fields => self.sign(mode, b),
        }
    }

    fn step(self, mode: Mode, b: u8) -> Option<State>
        requires { self.depth < 2 ^ 32 }
        ensures { result ≡ step mode self.form self.depth b }
    {
        match self.form {
            Form::Need | Form::Atom | Form::Marked => self.outside(mode, b),
            Form::Half => self.finish(mode, b, Form::Atom),
            Form::Opened if b == b'^' => Some(self.to(Form::Member)),
            Form::Opened | Form::Member => self.start(mode, b, Form::MemberHalf, Form::One),
            Form::MemberHalf => self.finish(mode, b, Form::One),
            Form::One if b == b'-' => Some(self.to(Form::Dash)),
            Form::One | Form::Two => self.further(mode, b),
            Form::Dash => self.start(mode, b, Form::DashHalf, Form::Two),
            Form::DashHalf => self.finish(mode, b, Form::Two),
        }
    }

    fn is_final(self) -> bool
        ensures { result ≡ final self.form self.depth }
    {
        matches!(self.form, Form::Atom | Form::Marked) && self.depth == 0
    }
}

// Whether the bytes are in the grammar; if not, how long the longest head of them is that begins an expression.
pub(crate) fn check_grammar(mode: Mode, bytes: &[u8]) -> Result<(), Fault>
    requires { length bytes.now ≤ LONGEST }
    ensures { MatchResult result (λ _. (t : Tree mode expression) × (written t ≡ bytes.now)) (λ f. Refusal mode bytes.now f) }
{
    let mut state = State {
        form: Form::Need,
        depth: 0,
    };
    for (place, &b) in bytes.iter().enumerate() {
        let Some(next) = state.step(mode, b) else {
            return Err(Fault::NotInGrammar { place });
        };
        state = next;
    }
    if state.is_final() {
        Ok(())
    } else {
        Err(Fault::NotInGrammar { place: bytes.len() })
    }
}
