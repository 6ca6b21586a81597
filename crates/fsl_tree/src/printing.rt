//! The text of a tree, with one space between two tokens.
ghost use Rattle.std.specs.Prelude.{◌≡◌, ◌∷◌, ◌++◌, [], OnOk, IfOk, ◌<◌, ◌^◌, length};
ghost use Rattle.fsl_tree.specs.Spelling.{spelling};
ghost use Rattle.fsl_tree.specs.Printing.{token_text, printed, IsHeld, AreHeld};

use crate::file::File;
use crate::spell_declarations::spell;
use fsl_base::Text;
use fsl_token::{Token, TokenKind};
use std::alloc::{AllocError, Global};

/// The texts of a file's tokens, with one space between two and LF at the end. The names of the tree stand
/// at their spans of `bytes`, and its numbers are at most 2^63.
pub fn print(alloc: Global, bytes: &[u8], file: &File) -> Result<Text, AllocError>
    requires held { AreHeld bytes.now (spelling file.now) }
    ensures { IfOk result (λ text. text ≡ printed bytes.now (spelling file.now)) }
{
    let tokens = spell(alloc, file)?;
    print_tokens(alloc, bytes, tokens.as_slice())
}

#[tactic(auto, using(crate::proofs::Printed::held_first, crate::proofs::Printed::held_others, crate::proofs::Printed::printed_last, crate::proofs::Printed::printed_next))]
fn print_tokens(alloc: Global, bytes: &[u8], tokens: &[Token]) -> Result<Text, AllocError>
    requires held { AreHeld bytes.now tokens.now }
    ensures { IfOk result (λ text. text ≡ printed bytes.now tokens.now) }
{
    let mut text = Text::new(alloc);
    let mut rest = tokens;
    while let Some((token, others)) = rest.split_first() {
        print_token(&mut text, alloc, bytes, token)?;
        if !others.is_empty() {
            text.push_str(" ")?;
        }
        rest = others;
    }
    text.push_str("\n")?;
    Ok(text)
}

fn print_token(
    text: &mut Text,
    alloc: Global,
    bytes: &[u8],
    token: &Token,
) -> Result<(), AllocError>
    requires held { IsHeld bytes.now token.now }
    ensures { OnOk result (text.new ≡ text.old ++ token_text bytes.now token.now) }
{
    if let Some(fixed) = token.kind.fixed_text() {
        text.push_str(fixed)
    } else if token.kind == TokenKind::Number {
        let number = token.number;
        let digits = format!(in alloc; "{number}")?;
        text.push_str(digits.as_str())
    } else {
        match str::from_utf8(&bytes[token.span.from as usize..token.span.to as usize]) {
            Ok(name) => text.push_str(name),
            Err(_) => unreachable!(),
        }
    }
}
