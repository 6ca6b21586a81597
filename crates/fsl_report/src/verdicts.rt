//! The texts of verdicts. A procedure is named, and a place is a line and a column of the file, both from 1 on.
ghost use Rattle.std.specs.Prelude.{◌≡◌, ◌≤◌, ◌++◌, codes, length, IfOk};
ghost use Rattle.std.specs.Fmt.{decimal};
ghost use Rattle.fsl_report.specs.Verdicts.{failed_text, kind_word, name_of, verdict_text};

use fsl_base::Text;
use fsl_core::{Kind, Proc, Program, Verdict};
use fsl_token::{Place, place};
use std::alloc::{AllocError, Global};

/// The word for a kind of failure.
fn kind_word(kind: Kind) -> &'static str
    ensures { result.now ≡ kind_word kind }
{
    match kind {
        Kind::Uninit => "uninit",
        Kind::Points => "points",
        Kind::Share => "share",
        Kind::Value => "value",
        Kind::Init => "init",
        Kind::Rel => "rel",
        Kind::Acq => "acq",
        Kind::Rmw => "rmw",
        Kind::Token => "token",
        Kind::Assert => "assert",
        Kind::Cond => "cond",
        Kind::Pre => "pre",
        Kind::Post => "post",
        Kind::Loop => "loop",
        Kind::Paths => "paths",
        Kind::Symbols => "symbols",
        Kind::Chunks => "chunks",
        Kind::Term => "term",
    }
}

/// The name of a procedure, nothing for a number that none has.
fn name_of(procs: &[Proc], number: u32) -> &str
    ensures { result.now ≡ name_of procs.now number }
{
    match procs.get(number as usize) {
        Some(proc) => proc.name.as_str(),
        None => "",
    }
}

/// `accepted P`
fn accepted_text(alloc: Global, procs: u32) -> Result<Text, AllocError>
    ensures { IfOk result (λ text. text ≡ codes "accepted " ++ (decimal procs ++ codes "\n")) }
{
    Ok(Text::from_string(format!(in alloc; "accepted {procs}\n")?))
}

/// `failed NAME LINE:COL KIND`
fn failed_text(alloc: Global, name: &str, place: Place, kind: Kind) -> Result<Text, AllocError>
    ensures { IfOk result (λ text. text ≡ failed_text name.now place kind) }
{
    let Place { line, col } = place;
    let kind = kind_word(kind);
    Ok(Text::from_string(format!(in alloc; "failed {name} {line}:{col} {kind}\n")?))
}

/// The text of a verdict on the program of these bytes, `accepted P` or `failed NAME LINE:COL KIND`. An error is want
/// of memory.
pub fn verdict_text(
    alloc: Global,
    bytes: &[u8],
    p: &Program,
    v: &Verdict,
) -> Result<Text, AllocError>
    requires { length bytes.now ≤ 1048576 }
    ensures { IfOk result (λ text. text ≡ verdict_text bytes.now p.now v.now) }
{
    match v {
        Verdict::Accepted { procs } => accepted_text(alloc, *procs),
        Verdict::Failed { proc, span, kind } => failed_text(
            alloc,
            name_of(p.procs(), *proc),
            place(bytes, span.from),
            *kind,
        ),
    }
}
