//! From the tree of a file to its program. Which program that is, and which faults a tree has, is defined in
//! `specs/Programs.antt`.
ghost use Rattle.std.specs.Prelude.{◌≡◌, ◌∷◌, ◌++◌, ◌<◌, ◌^◌, [], IfErr, IfOk, OnOk, length};
ghost use Rattle.std.specs.Option.{option_copied};
ghost use Rattle.fsl_types.specs.Given.{given_of};
ghost use Rattle.fsl_types.specs.Faults.{least_fault};
ghost use Rattle.fsl_types.specs.Programs.{IsFirstFault, all_listed, declaration, declare_each, end_of, faults_of, given_by, has_main, invariants_of, is_bare, listed_invariant, listed_procedure, procedures_of, program_of, resolved};

use crate::declarations::{Judged, invariant, procedure};
use crate::fault::{Fault, TypeFault};
use crate::given::Globals;
use crate::listing::{Listing, invariant_signature, procedure_signature};
use crate::occurrence::Occurrence;
use crate::resolved::Resolved;
use crate::rules::{least_fault, note};
use crate::variable::Signature;
use fsl_base::{List, Span};
use fsl_core::Program;
use fsl_tree::{Declaration, File};
use std::alloc::{AllocError, Global};

/// An invariant by its name, behind the others.
fn list_invariant<'a>(
    alloc: Global,
    bytes: &'a [u8],
    tree: &Declaration,
    listing: &mut Listing<'a>,
) -> Result<(), AllocError>
    ensures { OnOk result (listing.new ≡ listed_invariant bytes.now tree.now listing.old) }
{
    match tree {
        Declaration::Invariant { invariant } => {
            let signature = invariant_signature(alloc, listing.count, invariant)?;
            listing.list(bytes, invariant.name, signature)
        }
        _ => Ok(()),
    }
}

/// A procedure by its name, behind the others.
fn list_procedure<'a>(
    alloc: Global,
    bytes: &'a [u8],
    tree: &Declaration,
    listing: &mut Listing<'a>,
) -> Result<(), AllocError>
    ensures { OnOk result (listing.new ≡ listed_procedure bytes.now tree.now listing.old) }
{
    match tree {
        Declaration::Procedure { procedure } => {
            let signature = procedure_signature(alloc, listing.count, procedure)?;
            listing.list(bytes, procedure.name, signature)
        }
        _ => Ok(()),
    }
}

/// All invariants by name.
fn invariants<'a>(
    alloc: Global,
    bytes: &'a [u8],
    trees: &[Declaration],
) -> Result<Listing<'a>, AllocError>
    ensures { IfOk result (λ l. l ≡ invariants_of bytes.now trees.now) }
{
    let mut listing = Listing::new(alloc, List::new(alloc));
    for tree in trees {
        list_invariant(alloc, bytes, tree, &mut listing)?;
    }
    Ok(listing)
}

/// All procedures by name.
fn procedures<'a>(
    alloc: Global,
    bytes: &'a [u8],
    trees: &[Declaration],
    faults: List<Fault>,
) -> Result<Listing<'a>, AllocError>
    ensures { IfOk result (λ l. l ≡ procedures_of bytes.now trees.now faults) }
{
    let mut listing = Listing::new(alloc, faults);
    for tree in trees {
        list_procedure(alloc, bytes, tree, &mut listing)?;
    }
    Ok(listing)
}

/// What the file gives to all of its parts, and the faults of the names of its declarations.
#[derive(Drop)]
struct Listed<'a> {
    globals: Globals<'a>,
    faults: List<Fault>,
}

/// Lists all declarations by name.
fn list_all<'a>(
    alloc: Global,
    bytes: &'a [u8],
    trees: &[Declaration],
) -> Result<Listed<'a>, AllocError>
    ensures given { IfOk result (λ l. given_of l.globals ≡ given_by bytes.now trees.now) }
    ensures faults { IfOk result (λ l. l.faults ≡ (all_listed bytes.now trees.now).faults) }
{
    let Listing {
        names: invariants,
        faults,
        ..
    } = invariants(alloc, bytes, trees)?;
    let Listing {
        names: procedures,
        faults,
        ..
    } = procedures(alloc, bytes, trees, faults)?;
    let globals = Globals {
        bytes,
        invariants,
        procedures,
    };
    Ok(Listed { globals, faults })
}

/// The declarations so far and one more.
fn declare(
    alloc: Global,
    globals: &Globals<'_>,
    so_far: Resolved,
    tree: &Declaration,
) -> Result<Resolved, AllocError>
    ensures { IfOk result (λ r. r ≡ declaration (given_of globals.now) tree.now so_far) }
{
    let Resolved {
        mut invs,
        mut procs,
        faults,
    } = so_far;
    match tree {
        Declaration::Invariant { invariant: tree } => {
            let Judged { made, faults } = invariant(alloc, globals, tree, faults)?;
            invs.push(made)?;
            Ok(Resolved {
                invs,
                procs,
                faults,
            })
        }
        Declaration::Predicate { .. } => Ok(Resolved {
            invs,
            procs,
            faults,
        }),
        Declaration::Procedure { procedure: tree } => {
            let Judged { made, faults } = procedure(alloc, globals, tree, faults)?;
            procs.push(made)?;
            Ok(Resolved {
                invs,
                procs,
                faults,
            })
        }
    }
}

/// All declarations.
fn declare_all(
    alloc: Global,
    globals: &Globals<'_>,
    trees: &[Declaration],
    so_far: Resolved,
) -> Result<Resolved, AllocError>
    ensures { IfOk result (λ r. r ≡ declare_each (given_of globals.now) trees.now so_far) }
{
    let mut resolved = so_far;
    for tree in trees {
        resolved = declare(alloc, globals, resolved, tree)?;
    }
    Ok(resolved)
}

/// Whether a procedure is known and has neither parameters nor a `requires`.
fn is_bare(signature: Option<&Signature>) -> bool
    ensures { result ≡ is_bare (option_copied signature.entry) }
{
    match signature {
        Some(known) => known.bare,
        None => false,
    }
}

/// What is made of a tree, with all of its faults.
fn resolve_all(alloc: Global, bytes: &[u8], file: &File) -> Result<Resolved, AllocError>
    requires { length bytes.now < 2 ^ 32 }
    ensures { IfOk result (λ r. r ≡ record (resolved bytes.now file.now) { faults = faults_of bytes.now file.now }) }
{
    let trees = file.declarations.as_slice();
    let Listed { globals, faults } = list_all(alloc, bytes, trees)?;
    let nothing = Resolved {
        invs: List::new(alloc),
        procs: List::new(alloc),
        faults,
    };
    let Resolved {
        invs,
        procs,
        mut faults,
    } = declare_all(alloc, &globals, trees, nothing)?;
    let end = bytes.len() as u32;
    note(
        &mut faults,
        Occurrence::End {
            place: Span { from: end, to: end },
            has_main: is_bare(globals.procedures.find(b"main")),
        },
    )?;
    Ok(Resolved {
        invs,
        procs,
        faults,
    })
}

/// The program of a file's tree; where the tree is none, its fault with the least place, at one place the first
/// kind. It takes time in proportion to the size of the file. A predicate and its uses are left out: they are
/// replaced before.
#[tactic(auto, using(crate::proofs::RulesLemmas::none_named))]
pub fn resolve(alloc: Global, bytes: &[u8], file: &File) -> Result<Program, TypeFault>
    requires { length bytes.now < 2 ^ 32 }
    ensures program { IfOk result (λ p. (faults_of bytes.now file.now ≡ []) × (p ≡ program_of bytes.now file.now)) }
    ensures fault { IfErr result (λ fault. IsFirstFault bytes.now file.now fault) }
{
    match resolve_all(alloc, bytes, file) {
        Ok(
            Resolved {
                invs,
                procs,
                faults,
            },
        ) => match least_fault(faults.as_slice()) {
            None => match Program::new(invs, procs) {
                Some(p) => Ok(p),
                None => unreachable!(),
            },
            Some(Fault { kind, span }) => Err(TypeFault::Fault { kind, span }),
        },
        Err(_) => Err(TypeFault::NoMemory),
    }
}
