// The tree of an expression.
ghost use Rattle.std.specs.Prelude.{◌≡◌, MatchResult};
ghost use Rattle.refusal.specs.declared.Fault.TheVariants.{Memory};
ghost use Rattle.syntax.specs.Tree.{Chosen, Grouped, Joined, Repeated, mark_of};

use refusal::Fault;
use std::alloc::Global;

/// A simple atom: the codes that it holds, and its one value where it is written as a value and no more, as `a` or `<01>`.
#[derive(Clone, Copy, Debug, PartialEq, Eq)]
pub struct Atom {
    pub codes: [bool; 256],
    pub single: Option<u8>,
}

/// What an atom may be followed by: `*`, `+` or `?`.
#[derive(Clone, Copy, Debug, PartialEq, Eq)]
pub enum Mark {
    Star,
    Plus,
    Query,
}

/// An expression's tree: `a|b*` is `Either` of an atom and a `Marked` one. A group keeps its brackets.
#[derive(Debug, PartialEq, Eq, Drop)]
pub enum Node {
    Atom(Atom),
    Group(Box<Node>),
    Join(Box<Node>, Box<Node>),
    Either(Box<Node>, Box<Node>),
    Marked(Mark, Box<Node>),
}

// One maker for each kind of node, since each promises another record; one that took the constructor could promise none.
// Want of memory is a fault already here, so that the parser's branches have one type.

pub(crate) fn grouped(heap: Global, a: Node) -> Result<Node, Fault>
    ensures { MatchResult result (λ e. Grouped a e) (λ f. f ≡ Memory) }
{
    Ok(Node::Group(Box::new(heap, a)?))
}

pub(crate) fn joined(heap: Global, a: Node, b: Node) -> Result<Node, Fault>
    ensures { MatchResult result (λ e. Joined a b e) (λ f. f ≡ Memory) }
{
    Ok(Node::Join(Box::new(heap, a)?, Box::new(heap, b)?))
}

pub(crate) fn chosen(heap: Global, a: Node, b: Node) -> Result<Node, Fault>
    ensures { MatchResult result (λ e. Chosen a b e) (λ f. f ≡ Memory) }
{
    Ok(Node::Either(Box::new(heap, a)?, Box::new(heap, b)?))
}

pub(crate) fn marked(heap: Global, mark: Mark, a: Node) -> Result<Node, Fault>
    ensures { MatchResult result (λ e. Repeated (mark_of mark) a e) (λ f. f ≡ Memory) }
{
    Ok(Node::Marked(mark, Box::new(heap, a)?))
}
