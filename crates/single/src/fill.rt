// The tables of an expression, filled part by part.
ghost use Rattle.std.specs.Prelude.{◌≡◌, ℕ, ◌+◌, ◌<◌, ◌≤◌, false, length, if◌then◌else◌, bit_or, slice_index, slice_index_or};
ghost use Rattle.regular.specs.Positions.{size};
ghost use Rattle.regular.specs.Sets.{bit};
ghost use Rattle.syntax.specs.Tree.{language};
ghost use Rattle.single.specs.Gains.{Filled};

use expression::{Mark, Node, Outline};
use positions::Positions;

// Each row whose number is in `from` gains the set.
fn link(rows: &mut [Positions], from: Positions, set: Positions)
    requires { length rows.old ≤ 64 }
    ensures { (p : ℕ) → p < length rows.old → slice_index rows.new p ≡ bit_or (slice_index rows.old p) (if bit from p then set else 0) }
{
    for p in from {
        if p < rows.len() {
            rows[p] |= set;
        }
    }
}

// The row of each code that is held gains the set.
fn hold(held: &mut [Positions; 256], codes: &[bool; 256], set: Positions)
    ensures long { length held.new ≡ 256 }
    ensures gains { (c : ℕ) → c < 256 → slice_index held.new c ≡ bit_or (slice_index held.old c) (if slice_index_or codes.now c false then set else 0) }
{
    // by index, since a proof knows nothing of what an adapter of `iter_mut` writes
    for (code, holds) in codes.iter().enumerate() {
        if *holds {
            held[code] |= set;
        }
    }
}

// Numbers the positions of the part from `at + 1` on, and notes for each which may stand before it, and for each code which hold it.
pub(crate) fn fill(
    node: &Node,
    at: u32,
    arrows: &mut [Positions],
    held: &mut [Positions; 256],
) -> Outline
    requires rows { at + size (language node.now) < length arrows.old }
    requires few { length arrows.old ≤ 64 }
    ensures { Filled (language node.now) at arrows.old arrows.new held.old held.new result }
{
    match node {
        Node::Atom(atom) => {
            let outline = Outline::atom(at + 1);
            hold(held, &atom.codes, outline.firsts);
            outline
        }
        Node::Group(a) => fill(a, at, arrows, held),
        Node::Join(a, b) => {
            let left = fill(a, at, arrows, held);
            let right = fill(b, left.end, arrows, held);
            link(arrows, right.firsts, left.lasts);
            left.join(right)
        }
        Node::Either(a, b) => {
            let left = fill(a, at, arrows, held);
            let right = fill(b, left.end, arrows, held);
            left.either(right)
        }
        Node::Marked(mark, a) => {
            let inner = fill(a, at, arrows, held);
            match mark {
                Mark::Star | Mark::Plus => link(arrows, inner.firsts, inner.lasts),
                Mark::Query => {}
            }
            inner.marked(*mark)
        }
    }
}
