// The bytes that are tokens by themselves.
ghost use Rattle.std.specs.Prelude.{◌≡◌};
ghost use Rattle.syntax.specs.Tokens.{mark_of_byte, sign_token};

use crate::lexer::Token;
use crate::tree::Mark;

pub(crate) fn mark_of(b: u8) -> Option<Mark>
    ensures { result ≡ mark_of_byte b }
{
    match b {
        b'*' => Some(Mark::Star),
        b'+' => Some(Mark::Plus),
        b'?' => Some(Mark::Query),
        _ => None,
    }
}

pub(crate) fn sign_of(b: u8) -> Option<Token<'static>>
    ensures { result ≡ sign_token b }
{
    match b {
        b'(' => Some(Token::Open),
        b')' => Some(Token::Close),
        b'|' => Some(Token::Bar),
        b'.' => Some(Token::Dot),
        _ => Some(Token::Mark(mark_of(b)?)),
    }
}
