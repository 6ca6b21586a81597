//! Reads tokens into the syntax tree that they spell. One pass, one function for each production; the recursion
//! is as deep as the file nests, which is at most 64.
//!
//! The contract of `parse` stands on `specs/Refusal` and `specs/Levels` and on the definitions of the tree. The
//! private functions answer as the readers of `specs/Read*` do, which no public contract names.
#![tactic(auto)]

ghost use Rattle.std.specs.Prelude.{◌≡◌, ◌≤◌, IfOk, IfErr};
ghost use Rattle.fsl_tree.specs.Spelling.{spelling};
ghost use Rattle.fsl_tree.specs.Nesting.{nesting};
ghost use Rattle.fsl_tree.specs.declared.file.File.{File};
ghost use Rattle.fsl_parse.specs.Refusal.{IsPlaced, IsRefused};

mod assertions;
mod declarations;
mod expressions;
mod fault;
mod file;
mod parser;
mod right_sides;
mod statements;
mod uses;

use crate::parser::Parser;
pub use fault::ParseFault;
use fsl_base::List;
use fsl_token::Token;
use fsl_tree::File;
use std::alloc::Global;

/// How deep a file may nest.
const MOST_NESTING: u32 = 64;

/// The tree that the tokens of a file of `end` bytes spell; no other tree has these tokens.
///
/// A refusal has the place of the first token that is unexpected or nests too deeply. A token is unexpected where no
/// tree's tokens begin with those up to it; where the tokens end too soon, the place is from `end` to `end`. A token
/// nests too deeply where more than 64 brackets and unary signs are open.
#[tactic(auto, using(crate::proofs::Refusal::spelled, crate::proofs::Refusal::nested, crate::proofs::Refusal::refused, crate::proofs::Place::stands, crate::proofs::Place::alone))]
pub fn parse(alloc: Global, tokens: &List<Token>, end: u32) -> Result<File, ParseFault>
    ensures found { IfOk result (λ file. spelling file ≡ tokens.now) }
    ensures within { IfOk result (λ file. nesting file ≤ 64) }
    ensures only { IfOk result (λ file. (other : File) → spelling other ≡ tokens.now → other ≡ file) }
    ensures refused { IfErr result (λ fault. IsRefused fault tokens.now) }
    ensures placed { IfErr result (λ fault. IsPlaced fault tokens.now end) }
{
    let mut parser = Parser::new(tokens.as_slice());
    match parser.file(alloc, MOST_NESTING) {
        Ok(file) => Ok(file),
        Err(fault) => Err(parser.placed(fault, end)),
    }
}
