//! Signatures.

ghost use Rattle.lk_read.specs.Exact.{IsOnly};
ghost use Rattle.lk_read.specs.Gives.{GivesAll};
ghost use Rattle.lk_rows.specs.Reading.{sig_at};
ghost use Rattle.lk_rows.specs.Refusals.{IsRefused};
ghost use Rattle.lk_rows.specs.Types.{IsType};
ghost use Rattle.std.specs.Prelude.{IfOk, IfErr};

use crate::error::SigError;
use crate::types::read_type;
use lk_ast::{SigType, Token};
use lk_read::Stop;
use std::alloc::Global;

/// The type that all tokens are.
#[tactic(auto, unfolding(crate::specs::Reading::sig_at, lk_read::specs::Reader::bind, lk_read::specs::Reader::finish))]
fn read_whole(alloc: Global, room: usize, tokens: &[Token]) -> Result<SigType, Stop>
    ensures { GivesAll result (sig_at room tokens.now) }
{
    let (ty, rest) = read_type(alloc, room, tokens)?;
    if rest.is_empty() {
        Ok(ty)
    } else {
        Err(Stop::At(rest.len()))
    }
}

/// The type that the tokens of a signature are: those between its `:` and its `;`. It calls itself once for each level of
/// nesting, so tokens from outside are to be weighed before.
///
/// # Errors
/// `Unexpected` where they are none, with the number of the first token with which they begin no signature.
pub fn read_sig(alloc: Global, tokens: &[Token]) -> Result<SigType, SigError>
    // What is read is the type that the grammar gives the tokens, and it gives them no other.
    ensures found { IfOk result (λ ty. IsOnly IsType tokens.now ty) }
    // Refused is the first token that fits nowhere, and then the tokens are no type.
    ensures refused { IfErr result (λ why. IsRefused tokens.now why) }
{
    match read_whole(alloc, tokens.len() + 1, tokens) {
        Ok(ty) => Ok(ty),
        Err(Stop::At(left)) => Err(SigError::Unexpected((tokens.len() - left) as u64)),
        Err(Stop::NoMemory) => Err(SigError::NoMemory),
        Err(Stop::Spent) => unreachable!(),
    }
}
