//! From the name of a file to the program that its bytes are, for a command that has to support it.
ghost use Rattle.std.specs.Prelude.{◌≡◌, ◌≤◌, IfErr, IfOk, IsTrue, Ok, length};
ghost use Rattle.fsl_token.specs.Tokens.{lexed};
ghost use Rattle.fsl_tree.specs.declared.file.File.{File};
ghost use Rattle.fsl_types.specs.Reading.{IsTreeOf, ReadsAs};
ghost use Rattle.fsl_commands.specs.declared.command.Command.{Command};
ghost use Rattle.fsl_commands.specs.Changes.{reading};
ghost use Rattle.fsl_commands.specs.Command.{supports};
ghost use Rattle.fsl_commands.specs.Loading.{CausedBy, HasFile, IsFault, IsOnly, IsProgramOf};
ghost use Rattle.fsl_commands.specs.Unread.{size_of};

use crate::command::Command;
use crate::unread::Unread;
use fsl_base::{List, ReadAll, Shelf, read_all};
use fsl_core::Program;
use fsl_parse::{ParseFault, parse};
use fsl_report::{BadToken, Refused};
use fsl_token::{LexFault, Token, lex};
use fsl_tree::File;
use fsl_types::{TypeFault, has_predicates, resolve};
use std::alloc::Global;

/// The most bytes that a file may have.
const LIMIT: u32 = 1048576;

/// A program with the bytes that it was read from.
#[derive(Drop)]
pub struct Loaded {
    pub bytes: List<u8>,
    pub program: Program,
}

/// Why the bytes of a file are not read.
#[derive(Clone, Copy, Debug)]
pub enum Fault {
    /// They are refused.
    Refused { why: Refused },
    /// There was no memory.
    NoMemory,
}

/// The bytes of a file.
fn file_bytes<H: Shelf>(alloc: Global, name: &str, shelf: &mut H) -> Result<List<u8>, Unread>
    ensures file { IfOk result (λ bytes. HasFile (H.content shelf.old) name.now bytes) }
    ensures cause { IfErr result (λ unread. (command : Command) → CausedBy command (reading H.Shelf shelf.old shelf.new name.now) unread) }
    ensures within { IfErr result (λ unread. size_of unread ≤ 1048576) }
    ensures content { H.content shelf.new ≡ H.content shelf.old }
{
    if shelf.begin(name).is_err() {
        return Err(Unread::Read);
    }
    match read_all(alloc, shelf, LIMIT) {
        Ok(bytes) => Ok(bytes),
        Err(ReadAll::Fault) => Err(Unread::Read),
        Err(ReadAll::TooLong) => Err(Unread::Refused {
            bytes: List::new(alloc),
            why: Refused::Size,
        }),
        Err(ReadAll::NoMemory) => Err(Unread::NoMemory),
    }
}

/// The tokens of a file.
#[tactic(auto, using(crate::proofs::LoadingLemmas::no_text, crate::proofs::LoadingLemmas::no_tokens))]
fn tokens_of(alloc: Global, bytes: &[u8]) -> Result<List<Token>, Fault>
    requires { length bytes.now ≤ 1048576 }
    ensures cut { IfOk result (λ tokens. lexed bytes.now ≡ Ok tokens) }
    ensures fault { IfErr result (λ fault. (command : Command) → IsFault command bytes.now fault) }
{
    match lex(alloc, bytes) {
        Ok(tokens) => Ok(tokens),
        Err(LexFault::NotText { at }) => Err(Fault::Refused {
            why: Refused::Text { at },
        }),
        Err(LexFault::BadChar { at }) => Err(Fault::Refused {
            why: Refused::Token {
                bad: BadToken::Char,
                at,
            },
        }),
        Err(LexFault::LongNumber { at }) => Err(Fault::Refused {
            why: Refused::Token {
                bad: BadToken::Number,
                at,
            },
        }),
        Err(LexFault::LongName { at }) => Err(Fault::Refused {
            why: Refused::Token {
                bad: BadToken::Name,
                at,
            },
        }),
        Err(LexFault::NoMemory) => Err(Fault::NoMemory),
    }
}

/// The tree of a file.
#[tactic(auto, using(crate::proofs::LoadingLemmas::tree, crate::proofs::LoadingLemmas::only_tree, crate::proofs::LoadingLemmas::unexpected, crate::proofs::LoadingLemmas::too_deep))]
fn tree_of(alloc: Global, bytes: &[u8]) -> Result<File, Fault>
    requires { length bytes.now ≤ 1048576 }
    ensures tree { IfOk result (IsTreeOf bytes.now) }
    ensures only { IfOk result (λ file. (other : File) → IsTreeOf bytes.now other → other ≡ file) }
    ensures fault { IfErr result (λ fault. (command : Command) → IsFault command bytes.now fault) }
{
    let tokens = match tokens_of(alloc, bytes) {
        Ok(tokens) => tokens,
        Err(fault) => return Err(fault),
    };
    match parse(alloc, &tokens, bytes.len() as u32) {
        Ok(file) => Ok(file),
        Err(ParseFault::Unexpected { place }) => Err(Fault::Refused {
            why: Refused::Syntax { place },
        }),
        Err(ParseFault::Deep { place }) => Err(Fault::Refused {
            why: Refused::Deep { place },
        }),
        Err(ParseFault::NoMemory) => Err(Fault::NoMemory),
    }
}

/// The program of the only tree of these bytes, where the command supports it.
#[tactic(auto, using(crate::proofs::LoadingLemmas::reads, crate::proofs::LoadingLemmas::only_program, crate::proofs::LoadingLemmas::ill_typed, crate::proofs::LoadingLemmas::not_supported, crate::proofs::LoadingLemmas::with_predicates))]
fn typed(alloc: Global, bytes: &[u8], file: &File, command: Command) -> Result<Program, Fault>
    requires within { length bytes.now ≤ 1048576 }
    requires tree { IsTreeOf bytes.now file.now }
    requires only { (other : File) → IsTreeOf bytes.now other → other ≡ file.now }
    ensures reads { IfOk result (λ p. ReadsAs bytes.now p) }
    ensures only { IfOk result (λ p. IsOnly bytes.now p) }
    ensures supported { IfOk result (λ p. IsTrue (supports command p)) }
    ensures fault { IfErr result (IsFault command bytes.now) }
{
    if has_predicates(file) {
        return Err(Fault::Refused { why: Refused::Form });
    }
    match resolve(alloc, bytes, file) {
        Ok(program) => {
            if command.supports(&program) {
                Ok(program)
            } else {
                Err(Fault::Refused { why: Refused::Form })
            }
        }
        Err(TypeFault::Fault { kind, span }) => Err(Fault::Refused {
            why: Refused::Types { kind, span },
        }),
        Err(TypeFault::NoMemory) => Err(Fault::NoMemory),
    }
}

/// The program that the bytes are, where the command supports it.
fn program_of(alloc: Global, bytes: &[u8], command: Command) -> Result<Program, Fault>
    requires { length bytes.now ≤ 1048576 }
    ensures reads { IfOk result (λ p. ReadsAs bytes.now p) }
    ensures only { IfOk result (λ p. IsOnly bytes.now p) }
    ensures supported { IfOk result (λ p. IsTrue (supports command p)) }
    ensures fault { IfErr result (IsFault command bytes.now) }
{
    match tree_of(alloc, bytes) {
        Ok(file) => typed(alloc, bytes, &file, command),
        Err(fault) => Err(fault),
    }
}

/// Reads the program of a file for a command, which has to support it.
pub fn read_program<H: Shelf>(
    alloc: Global,
    name: &str,
    shelf: &mut H,
    command: Command,
) -> Result<Loaded, Unread>
    ensures program { IfOk result (λ loaded. IsProgramOf command (reading H.Shelf shelf.old shelf.new name.now) loaded.bytes loaded.program) }
    ensures cause { IfErr result (CausedBy command (reading H.Shelf shelf.old shelf.new name.now)) }
    ensures within { IfErr result (λ unread. size_of unread ≤ 1048576) }
    ensures content { H.content shelf.new ≡ H.content shelf.old }
{
    let bytes = match file_bytes(alloc, name, shelf) {
        Ok(bytes) => bytes,
        Err(unread) => return Err(unread),
    };
    match program_of(alloc, bytes.as_slice(), command) {
        Ok(program) => Ok(Loaded { bytes, program }),
        Err(Fault::Refused { why }) => Err(Unread::Refused { bytes, why }),
        Err(Fault::NoMemory) => Err(Unread::NoMemory),
    }
}
