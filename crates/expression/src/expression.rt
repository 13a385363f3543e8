// An accepted expression, and what engines are built from.
ghost use Rattle.std.specs.Prelude.{◌≡◌, ◌+◌, ◌≤◌, true};
ghost use Rattle.regular.specs.Language.{Within, shortest};
ghost use Rattle.regular.proofs.Bounded.{within_prop};
ghost use Rattle.regular.specs.Positions.{begins, ends, holds, size};
ghost use Rattle.regular.specs.Sets.{as_set};
ghost use Rattle.syntax.specs.Tree.{exact, full, language};
ghost use Rattle.expression.specs.Outlines.{Outlines};

use crate::outline::Outline;
use positions::Positions;
use syntax::Node;

/// An accepted expression: it has at most 63 positions, each of its sets holds some code and none above 255, and an atom
/// that is written as a value and no more holds that value alone. It keeps its outline beside its tree.
#[derive(Drop)]
pub struct Expression {
    pub tree: Node,
    pub(crate) outline: Outline,
    ghost few: { size (language tree) ≤ 63 },
    ghost full: { full tree ≡ true },
    ghost exact: { exact tree ≡ true },
    ghost within: { Within 256 (language tree) } by { within_prop 256 (language tree) },
    ghost outlined: { Outlines (language tree) 0 outline },
}

impl Expression {
    /// How many positions there are, one for each simple atom: 4 for `ab|[cd].`, and at most 63.
    pub fn positions(&self) -> u32
        ensures { result ≡ size (language self.now.tree) }
    {
        self.outline.end
    }

    /// The length of a shortest word: 2 for `ab|c+de`, 0 for `a*`.
    pub fn shortest(&self) -> u32
        ensures { result ≡ shortest (language self.now.tree) }
    {
        self.outline.shortest
    }

    /// Whether a position's set holds a code: in `a[^b]`, 2 holds all codes but 98. No set is at 0 or behind the last.
    pub fn holds(&self, position: u32, code: u8) -> bool
        ensures { result ≡ holds (language self.now.tree) 0 position code }
    {
        holds(&self.tree, 0, position, code)
    }

    /// The positions that can begin a word: 1 and 2 for `a?b`.
    pub fn firsts(&self) -> Positions
        ensures { result ≡ as_set (begins (language self.now.tree) 0) }
    {
        self.outline.firsts
    }

    /// The positions that can end a word: 1 and 2 for `ab?`.
    pub fn lasts(&self) -> Positions
        ensures { result ≡ as_set (ends (language self.now.tree) 0) }
    {
        self.outline.lasts
    }
}

// How many positions a tree has.
fn size(node: &Node) -> u32
    requires { size (language node.now) ≤ 63 }
    ensures { result ≡ size (language node.now) }
{
    match node {
        Node::Atom(_) => 1,
        Node::Join(a, b) | Node::Either(a, b) => size(a) + size(b),
        Node::Group(a) | Node::Marked(_, a) => size(a),
    }
}

// Whether a position holds a code; `before` positions stand before the tree.
fn holds(node: &Node, before: u32, position: u32, code: u8) -> bool
    requires { before + size (language node.now) ≤ 63 }
    ensures { result ≡ holds (language node.now) before position code }
{
    match node {
        Node::Atom(atom) => position == before + 1 && atom.codes[usize::from(code)],
        Node::Join(a, b) | Node::Either(a, b) => {
            holds(a, before, position, code) || holds(b, before + size(a), position, code)
        }
        Node::Group(a) | Node::Marked(_, a) => holds(a, before, position, code),
    }
}
