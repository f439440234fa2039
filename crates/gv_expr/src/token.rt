//! Tokens: the words of an expression, sorted. O(the word's bytes).
ghost use Rattle.std.specs.Prelude.{◌≡◌, IfOk};
ghost use Rattle.gv_expr.specs.Token.{is_negated, without_sign, token_of};

use gv_base::{NoMemory, Text};
use std::alloc::Global;

/// A token of an expression.
#[derive(Drop)]
pub enum Token {
    /// `(`
    Open,
    /// `)`
    Close,
    /// `||`
    Any,
    /// `^^`
    One,
    /// `??`
    Most,
    /// `flag?`, and `!flag?` where it is negated; whether the text is a flag isn't asked.
    If { flag: Text, negated: bool },
    /// Any other word.
    Word { text: Text },
}

/// The text behind an optional `!`, and whether there is one.
pub fn split_sign(text: &[u8]) -> (&[u8], bool)
    ensures text { result.0.now ≡ without_sign text.now }
    ensures sign { result.1 ≡ is_negated text.now }
{
    match text {
        [b'!', flag @ ..] => (flag, true),
        _ => (text, false),
    }
}

/// The token that a word is.
pub fn token_of(alloc: Global, word: &[u8]) -> Result<Token, NoMemory>
    ensures { IfOk result (λ token. token ≡ token_of word.now) }
{
    if word == b"(".as_slice() {
        return Ok(Token::Open);
    }
    if word == b")".as_slice() {
        return Ok(Token::Close);
    }
    if word == b"||".as_slice() {
        return Ok(Token::Any);
    }
    if word == b"^^".as_slice() {
        return Ok(Token::One);
    }
    if word == b"??".as_slice() {
        return Ok(Token::Most);
    }
    if word.ends_with(b"?".as_slice()) {
        return conditional(alloc, &word[..word.len() - 1]);
    }
    Ok(Token::Word {
        text: Text::of(alloc, word)?,
    })
}

// The token of a conditional whose `?` was taken off.
fn conditional(alloc: Global, text: &[u8]) -> Result<Token, NoMemory>
    ensures { IfOk result (λ token. token ≡ Token.If (without_sign text.now) (is_negated text.now)) }
{
    let (flag, negated) = split_sign(text);
    Ok(Token::If {
        flag: Text::of(alloc, flag)?,
        negated,
    })
}
