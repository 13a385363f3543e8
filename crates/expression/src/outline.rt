// What engines are built from, told of the parts of a tree and put together.
ghost use Rattle.std.specs.Prelude.{◌≡◌, ℕ, ◌+◌, ◌≤◌, Bool, ◌&&◌, ◌||◌, if◌then◌else◌, bit_or};
ghost use Rattle.regular.specs.Language.{Regex, one, join, either};
ghost use Rattle.regular.specs.Positions.{size};
ghost use Rattle.syntax.specs.Tree.{language, mark_of};
ghost use Rattle.syntax.specs.Grammar.{repeated};
ghost use Rattle.expression.specs.Outlines.{Outlines};

use positions::Positions;
use syntax::{Mark, Node};

/// What engines are built from, of an expression or a part of one: the number of its last position, whether the empty
/// word is in its language, the length of a shortest word, and the positions that begin and end a word.
#[derive(Clone, Copy)]
pub struct Outline {
    pub end: u32,
    pub nullable: bool,
    pub shortest: u32,
    pub firsts: Positions,
    pub lasts: Positions,
}

impl Outline {
    /// A simple atom, by its position.
    pub fn atom(position: u32) -> Outline
        ensures { (s : ℕ → Bool) (before : ℕ) → position ≡ before + 1 → position ≤ 63 → Outlines (one s) before result }
    {
        let only = Positions::only(position as usize);
        Outline {
            end: position,
            nullable: false,
            shortest: 1,
            firsts: only,
            lasts: only,
        }
    }

    /// A part and the part behind it.
    pub fn join(self, next: Outline) -> Outline
        ensures { (r s : Regex) (before : ℕ) → Outlines r before self → Outlines s self.end next → Outlines (join r s) before result }
    {
        Outline {
            end: next.end,
            nullable: self.nullable & next.nullable,
            shortest: self.shortest.saturating_add(next.shortest),
            firsts: through(self.nullable, self.firsts, next.firsts),
            lasts: through(next.nullable, next.lasts, self.lasts),
        }
    }

    /// One of two parts, of which the other is written behind this one.
    pub fn either(self, other: Outline) -> Outline
        ensures { (r s : Regex) (before : ℕ) → Outlines r before self → Outlines s self.end other → Outlines (either r s) before result }
    {
        Outline {
            end: other.end,
            nullable: self.nullable | other.nullable,
            shortest: self.shortest.min(other.shortest),
            firsts: self.firsts | other.firsts,
            lasts: self.lasts | other.lasts,
        }
    }

    /// A part with a mark behind it.
    pub fn marked(self, mark: Mark) -> Outline
        ensures { (r : Regex) (before : ℕ) → Outlines r before self → Outlines (repeated (mark_of mark) r) before result }
    {
        match mark {
            Mark::Plus => self,
            Mark::Star | Mark::Query => Outline {
                nullable: true,
                shortest: 0,
                ..self
            },
        }
    }
}

// The positions of the near part, and those of the far one where the near part may be passed over.
fn through(nullable: bool, near: Positions, far: Positions) -> Positions
    ensures { result ≡ (if nullable then bit_or near far else near) }
{
    if nullable { near | far } else { near }
}

// The outline of a tree that `before` positions stand before.
pub(crate) fn outline_of(node: &Node, before: u32) -> Outline
    requires { before + size (language node.now) ≤ 63 }
    ensures { Outlines (language node.now) before result }
{
    match node {
        Node::Atom(_) => Outline::atom(before + 1),
        Node::Group(a) => outline_of(a, before),
        Node::Join(a, b) => {
            let left = outline_of(a, before);
            left.join(outline_of(b, left.end))
        }
        Node::Either(a, b) => {
            let left = outline_of(a, before);
            left.either(outline_of(b, left.end))
        }
        Node::Marked(mark, a) => outline_of(a, before).marked(*mark),
    }
}
