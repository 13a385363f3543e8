// Reads an expression.
ghost use Rattle.syntax.specs.Reading.{Reads};
ghost use Rattle.expression.specs.Results.{tree_of};

use crate::expression::Expression;
use crate::outline::outline_of;
use refusal::Fault;
use std::alloc::Global;
use syntax::{Mode, parse};

/// The expression that the bytes are written for, or the first refusal that applies, with its place:
/// `read(heap, Mode::Bytes, b"a**")` is `Err(Fault::NotInGrammar { place: 2 })`.
pub fn read(heap: Global, mode: Mode, bytes: &[u8]) -> Result<Expression, Fault>
    ensures { Reads mode bytes.now (tree_of result) }
{
    let tree = parse(heap, mode, bytes)?;
    let outline = outline_of(&tree, 0);
    Ok(Expression { tree, outline })
}
