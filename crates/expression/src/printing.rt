// How an expression is summed up.
ghost use Rattle.std.specs.Prelude.{Some};
ghost use Rattle.expression.specs.Messages.{measures_text};

use crate::expression::Expression;
use std::fmt;

/// How many positions it has and how long its shortest word is: `positions 3 shortest 3` for `ab+c`.
impl fmt::Display for Expression {
    ghost output = { λ e. Some (measures_text e.tree) };

    fn fmt<W: fmt::Write>(&self, f: &mut fmt::Formatter<W>) -> fmt::Result {
        let (positions, shortest) = (self.positions(), self.shortest());
        write!(f, "positions {positions} shortest {shortest}")
    }
}
