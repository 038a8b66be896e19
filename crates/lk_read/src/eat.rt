//! One token off the front.

ghost use Rattle.lk_read.specs.Gives.{GivesToken};
ghost use Rattle.lk_read.specs.Kinds.{is_sign, is_word, is_tag, is_name, is_any_tag};
ghost use Rattle.lk_read.specs.Reader.{one};

use crate::stop::Stop;
use crate::tokens::{is_any_tag, is_name, is_sign, is_tag, is_word};
use lk_ast::Token;

/// The next token, if it is this sign, and the tokens behind it; else `Stop::At` the next token.
pub fn eat_sign<'a>(tokens: &'a [Token], wanted: &str) -> Result<(&'a Token, &'a [Token]), Stop>
    ensures { GivesToken result (one (is_sign wanted.now) tokens.now) }
{
    match tokens {
        [token, rest @ ..] if is_sign(token, wanted) => Ok((token, rest)),
        _ => Err(Stop::At(tokens.len())),
    }
}

/// The next token, if it is this word, and the tokens behind it; else `Stop::At` the next token.
pub fn eat_word<'a>(tokens: &'a [Token], wanted: &str) -> Result<(&'a Token, &'a [Token]), Stop>
    ensures { GivesToken result (one (is_word wanted.now) tokens.now) }
{
    match tokens {
        [token, rest @ ..] if is_word(token, wanted) => Ok((token, rest)),
        _ => Err(Stop::At(tokens.len())),
    }
}

/// The next token, if it is this tag, and the tokens behind it; else `Stop::At` the next token.
pub fn eat_tag<'a>(tokens: &'a [Token], wanted: &str) -> Result<(&'a Token, &'a [Token]), Stop>
    ensures { GivesToken result (one (is_tag wanted.now) tokens.now) }
{
    match tokens {
        [token, rest @ ..] if is_tag(token, wanted) => Ok((token, rest)),
        _ => Err(Stop::At(tokens.len())),
    }
}

/// The next token, if it is a word that can name something, and the tokens behind it; else `Stop::At` the next token.
pub fn eat_name(tokens: &[Token]) -> Result<(&Token, &[Token]), Stop>
    ensures { GivesToken result (one is_name tokens.now) }
{
    match tokens {
        [token, rest @ ..] if is_name(token) => Ok((token, rest)),
        _ => Err(Stop::At(tokens.len())),
    }
}

/// The next token, if it is a tag, and the tokens behind it; else `Stop::At` the next token.
pub fn eat_any_tag(tokens: &[Token]) -> Result<(&Token, &[Token]), Stop>
    ensures { GivesToken result (one is_any_tag tokens.now) }
{
    match tokens {
        [token, rest @ ..] if is_any_tag(token) => Ok((token, rest)),
        _ => Err(Stop::At(tokens.len())),
    }
}
