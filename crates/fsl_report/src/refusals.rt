//! The texts of refusals: `refused` and what is refused, with its place in the file, a line and a column from 1 on.
//! They are definitions of `specs/Refusals.antt`.
ghost use Rattle.std.specs.Prelude.{◌≡◌, ◌≤◌, ◌++◌, codes, length, IfOk};
ghost use Rattle.std.specs.Fmt.{decimal};
ghost use Rattle.fsl_report.specs.Refusals.{placed_text, refused_text, token_word, type_word, worded_text};

use crate::refused::{BadToken, Refused};
use fsl_base::Text;
use fsl_token::{Place, place};
use fsl_types::TypeKind;
use std::alloc::{AllocError, Global};

/// `refused WHAT LINE:COL`
fn placed_text(alloc: Global, what: &str, place: Place) -> Result<Text, AllocError>
    ensures { IfOk result (λ text. text ≡ placed_text what.now place) }
{
    let Place { line, col } = place;
    Ok(Text::from_string(format!(in alloc; "refused {what} {line}:{col}\n")?))
}

/// `refused WHAT LINE:COL WORD`
fn worded_text(alloc: Global, what: &str, place: Place, word: &str) -> Result<Text, AllocError>
    ensures { IfOk result (λ text. text ≡ worded_text what.now place word.now) }
{
    let Place { line, col } = place;
    Ok(Text::from_string(format!(in alloc; "refused {what} {line}:{col} {word}\n")?))
}

/// `refused text at N`
fn bytes_text(alloc: Global, at: u32) -> Result<Text, AllocError>
    ensures { IfOk result (λ text. text ≡ codes "refused text at " ++ (decimal at ++ codes "\n")) }
{
    Ok(Text::from_string(format!(in alloc; "refused text at {at}\n")?))
}

/// The word for what is wrong with a token.
fn token_word(bad: BadToken) -> &'static str
    ensures { result.now ≡ token_word bad }
{
    match bad {
        BadToken::Char => "char",
        BadToken::Number => "number",
        BadToken::Name => "name",
    }
}

/// The word for a kind of fault.
fn type_word(kind: TypeKind) -> &'static str
    ensures { result.now ≡ type_word kind }
{
    match kind {
        TypeKind::Unknown => "unknown",
        TypeKind::Twice => "twice",
        TypeKind::Type_ => "type",
        TypeKind::Arity => "arity",
        TypeKind::Modal => "modal",
        TypeKind::Parts => "parts",
        TypeKind::Count => "count",
        TypeKind::NoMain => "nomain",
    }
}

/// The text of a refusal of these bytes. An error is want of memory.
pub fn refused_text(alloc: Global, bytes: &[u8], why: Refused) -> Result<Text, AllocError>
    requires { length bytes.now ≤ 1048576 }
    ensures { IfOk result (λ text. text ≡ refused_text bytes.now why) }
{
    match why {
        Refused::Size => Text::from_str(alloc, "refused size\n"),
        Refused::Text { at } => bytes_text(alloc, at),
        Refused::Token { bad, at } => {
            worded_text(alloc, "token", place(bytes, at), token_word(bad))
        }
        Refused::Syntax { place: at } => placed_text(alloc, "syntax", place(bytes, at.from)),
        Refused::Deep { place: at } => placed_text(alloc, "deep", place(bytes, at.from)),
        Refused::Types { kind, span } => worded_text(
            alloc,
            "type",
            place(bytes, span.from),
            type_word(kind),
        ),
        Refused::Form => Text::from_str(alloc, "refused form\n"),
    }
}
