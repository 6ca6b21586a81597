//! Cuts a file into tokens. They are defined in `specs/Tokens`; `specs/Reading` says of tokens which text they have.
ghost use Rattle.std.specs.Prelude.{◌≡◌, ◌<◌, ◌^◌, ◌⊎◌, length, Err, IfOk};
ghost use Rattle.fsl_token.specs.declared.fault.LexFault.{LexFault};
ghost use Rattle.fsl_token.specs.Reading.{AreTokensOf};
ghost use Rattle.fsl_token.specs.Tokens.{tokens_from, lexed};

use crate::fault::LexFault;
use crate::kind::Token;
use crate::piece::Piece;
use fsl_base::{List, Span};
use std::alloc::Global;

/// Cuts the bytes of a file into tokens, from the first one on. The spans are numbers of bytes from 0
/// on. Bytes that are no UTF-8 are `NotText`; else the first by place of the other faults is answered.
/// It goes over the bytes once.
pub fn lex(alloc: Global, bytes: &[u8]) -> Result<List<Token>, LexFault>
    requires { length bytes.now < 2 ^ 32 }
    ensures exact { (result ≡ Err LexFault.NoMemory) ⊎ (result ≡ lexed bytes.now) }
    ensures read { IfOk result (λ tokens. AreTokensOf 0 bytes.now tokens) }
{
    match str::from_utf8(bytes) {
        Ok(text) => tokens(alloc, text),
        Err(fault) => Err(LexFault::NotText {
            at: fault.valid_up_to() as u32,
        }),
    }
}

// The tokens of a text.
fn tokens(alloc: Global, text: &str) -> Result<List<Token>, LexFault>
    requires { length text.now < 2 ^ 32 }
    ensures { (result ≡ Err LexFault.NoMemory) ⊎ (result ≡ tokens_from 0 0 text.now) }
{
    let mut tokens = List::new(alloc);
    let mut rest = text;
    let mut at = 0;
    while !rest.is_empty() {
        let len = match Piece::first(rest) {
            Piece::Gap { len } => len,
            Piece::Token { kind, len, number } => {
                let span = Span {
                    from: at,
                    to: at + len as u32,
                };
                tokens.push(Token { kind, span, number })?;
                len
            }
            Piece::BadChar => return Err(LexFault::BadChar { at }),
            Piece::LongNumber => return Err(LexFault::LongNumber { at }),
            Piece::LongName => return Err(LexFault::LongName { at }),
        };
        (_, rest) = rest.split_at(len);
        at += len as u32;
    }
    Ok(tokens)
}
