//! From the text of a row to a program, as `fslpp` reads one.
ghost use Rattle.std.specs.Prelude.{◌≤◌, OnSome, length};

use fsl_core::Program;
use fsl_parse::parse;
use fsl_token::lex;
use fsl_types::resolve;
use std::alloc::Global;

/// The program that a text of at most 4096 bytes is, where it is one and there is memory.
pub fn program(alloc: Global, text: &str) -> Option<Program>
    ensures { OnSome result (length text.now ≤ 4096) }
{
    let bytes = text.as_bytes();
    if bytes.len() > 4096 {
        return None;
    }
    let tokens = lex(alloc, bytes).ok()?;
    let file = parse(alloc, &tokens, bytes.len() as u32).ok()?;
    resolve(alloc, bytes, &file).ok()
}
