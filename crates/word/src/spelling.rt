// Whether a tree spells a word, and which. Two walks, so that what is no plain word is refused as such, before memory is asked for.
ghost use Rattle.std.specs.Prelude.{◌≡◌, ℕ, true, List, ◌++◌, is_some, Some, OnOk};
ghost use Rattle.syntax.specs.Tree.{spelling};

use expression::Node;
use std::alloc::AllocError;

// The tree is made of atoms in a row, each written as a value and no more.
pub(crate) fn is_plain(node: &Node) -> bool
    ensures { result ≡ is_some (spelling node.now) }
{
    match node {
        Node::Atom(atom) => atom.single.is_some(),
        Node::Join(a, b) => is_plain(a) && is_plain(b),
        _ => false,
    }
}

// Writes the letters behind those that are there.
pub(crate) fn spell(letters: &mut Vec<u8>, node: &Node) -> Result<(), AllocError>
    requires { is_some (spelling node.now) ≡ true }
    ensures { OnOk result ((w : List ℕ) × (spelling node.now ≡ Some w) × (letters.new.items ≡ letters.old.items ++ w)) }
{
    match node {
        Node::Atom(atom) => {
            if let Some(letter) = atom.single {
                letters.push(letter)?;
            }
        }
        Node::Join(a, b) => {
            spell(letters, a)?;
            spell(letters, b)?;
        }
        _ => {}
    }
    Ok(())
}
