// Reads the tree, and puts the parts together.
ghost use Rattle.std.specs.Prelude.{◌≡◌, ℕ, ◌<◌, ◌≤◌, List, ◌++◌, length, IfOk};
ghost use Rattle.syntax.specs.Grammar.{Tree, atom, branch, expression, item, written};
ghost use Rattle.syntax.specs.Lexer.{Before};
ghost use Rattle.syntax.specs.Parser.{Closes, Got, Stops, Unmarked, nesting};
ghost use Rattle.syntax.specs.Reading.{Reads};
ghost use Rattle.syntax.specs.declared.mode.Mode.{Mode};

use crate::grammar::check_grammar;
use crate::lexer::{Lexer, Token};
use crate::limits::{DEEPEST, LONGEST, check_limits};
use crate::mode::Mode;
use crate::tree::{Atom, Node, chosen, grouped, joined, marked};
use refusal::Fault;
use std::alloc::Global;

// The depth that is left falls as an argument (a form that this project fixes, docs/DECISIONS.md), and the heap goes with it.

// An atom; `left` is how many groups may still be opened in one another.
#[cycle(read_atom_read_branch_read_expression_read_item)]
fn read_atom(heap: Global, lexer: &mut Lexer<'_>, left: usize) -> Result<Node, Fault>
    ensures got { (m : Mode) (t : Tree m atom) (w : List ℕ) → Before m (written t ++ w) lexer.old → nesting t ≤ left → Got t w result lexer.new }
    ensures ahead { IfOk result (λ _. length lexer.new.rest.now < length lexer.old.rest.now) }
{
    let place = lexer.place();
    let token = lexer.token()?;
    match token {
        Token::Open => {
            if left == 0 {
                return Err(Fault::TooDeep { place });
            }
            let inner = read_expression(heap, lexer, left - 1)?;
            if !lexer.eats(b')') {
                return Err(lexer.refused());
            }
            grouped(heap, inner)
        }
        Token::Close | Token::Bar | Token::Mark(_) => Err(Fault::NotInGrammar { place }),
        _ => {
            let mode = lexer.mode();
            let (codes, single) = (token.codes(mode), token.single(mode));
            Ok(Node::Atom(Atom { codes, single }))
        }
    }
}

#[cycle(read_atom_read_branch_read_expression_read_item)]
fn read_item(heap: Global, lexer: &mut Lexer<'_>, left: usize) -> Result<Node, Fault>
    ensures got { (m : Mode) (t : Tree m item) (w : List ℕ) → Before m (written t ++ w) lexer.old → Unmarked w → nesting t ≤ left → Got t w result lexer.new }
    ensures ahead { IfOk result (λ _. length lexer.new.rest.now < length lexer.old.rest.now) }
{
    let atom = read_atom(heap, lexer, left)?;
    match lexer.mark() {
        Some(mark) => marked(heap, mark, atom),
        None => Ok(atom),
    }
}

#[cycle(read_atom_read_branch_read_expression_read_item)]
fn read_branch(heap: Global, lexer: &mut Lexer<'_>, left: usize) -> Result<Node, Fault>
    ensures got { (m : Mode) (t : Tree m branch) (w : List ℕ) → Before m (written t ++ w) lexer.old → Stops w → nesting t ≤ left → Got t w result lexer.new }
    ensures ahead { IfOk result (λ _. length lexer.new.rest.now < length lexer.old.rest.now) }
{
    let mut whole = read_item(heap, lexer, left)?;
    while lexer.item_starts() {
        let item = read_item(heap, lexer, left)?;
        whole = joined(heap, whole, item)?;
    }
    Ok(whole)
}

#[cycle(read_atom_read_branch_read_expression_read_item)]
fn read_expression(heap: Global, lexer: &mut Lexer<'_>, left: usize) -> Result<Node, Fault>
    ensures got { (m : Mode) (t : Tree m expression) (w : List ℕ) → Before m (written t ++ w) lexer.old → Closes w → nesting t ≤ left → Got t w result lexer.new }
    ensures ahead { IfOk result (λ _. length lexer.new.rest.now < length lexer.old.rest.now) }
{
    // the loop of `read_branch`, over another part: each promises a tree of its own level
    let mut whole = read_branch(heap, lexer, left)?;
    while lexer.eats(b'|') {
        let branch = read_branch(heap, lexer, left)?;
        whole = chosen(heap, whole, branch)?;
    }
    Ok(whole)
}

/// The tree of the expression that the bytes are written for, or the first refusal that applies, with its place:
/// `parse(heap, Mode::Bytes, b"a**")` is `Err(Fault::NotInGrammar { place: 2 })`.
pub fn parse(heap: Global, mode: Mode, bytes: &[u8]) -> Result<Node, Fault>
    ensures { Reads mode bytes.now result }
{
    if bytes.len() > LONGEST {
        return Err(Fault::ExpressionTooLong);
    }
    check_grammar(mode, bytes)?;
    let mut lexer = Lexer::new(mode, bytes);
    check_limits(lexer)?;
    read_expression(heap, &mut lexer, DEEPEST)
}
