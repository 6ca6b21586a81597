//! The invariants, or the procedures, of a file by their names. They are defined with the programs, in
//! `specs/Programs.antt`.
ghost use Rattle.std.specs.Prelude.{◌≡◌, ◌++◌, IfOk, OnOk, map};
ghost use Rattle.fsl_types.specs.Programs.{banks_among, invariant_signature, is_bank, next_parameter, nothing_listed, procedure_signature, with_signature};

use crate::assertions::has_modality;
use crate::fault::Fault;
use crate::names::text_at;
use crate::occurrence::Occurrence;
use crate::resolver::one_more;
use crate::rules::note;
use crate::table::Table;
use crate::variable::Signature;
use fsl_base::{List, Span};
use fsl_tree::{Invariant, NextParameter, Parameter, Parameters, Procedure};
use std::alloc::{AllocError, Global};

/// How many invariants, and how many procedures, there may be.
const MOST: u32 = 4096;

/// Signatures by name, the first of each name, how many were declared, at most 4096, and the faults of the names.
#[derive(Drop)]
pub struct Listing<'a> {
    pub names: Table<'a, Signature>,
    pub count: u32,
    pub faults: List<Fault>,
}

/// Whether a parameter is a bank.
fn is_bank(tree: Parameter) -> bool
    ensures { result ≡ is_bank tree }
{
    tree.bank.is_some()
}

/// For each parameter behind the first, too, whether it is a bank.
fn more_banks(so_far: List<bool>, more: &[NextParameter]) -> Result<List<bool>, AllocError>
    ensures { IfOk result (λ list. list ≡ so_far ++ map is_bank (map next_parameter more.now)) }
{
    let mut banks = so_far;
    for next in more {
        banks.push(is_bank(next.parameter))?;
    }
    Ok(banks)
}

/// For each parameter whether it is a bank.
fn banks_among(alloc: Global, tree: &Option<Parameters>) -> Result<List<bool>, AllocError>
    ensures { IfOk result (λ list. list ≡ banks_among tree.now) }
{
    let mut banks = List::new(alloc);
    match tree {
        None => Ok(banks),
        Some(parameters) => {
            banks.push(is_bank(parameters.first))?;
            more_banks(banks, parameters.more.as_slice())
        }
    }
}

/// An invariant, as its uses see it.
pub fn invariant_signature(
    alloc: Global,
    number: u32,
    tree: &Invariant,
) -> Result<Signature, AllocError>
    ensures { IfOk result (λ s. s ≡ invariant_signature number tree.now) }
{
    Ok(Signature {
        number,
        banks: banks_among(alloc, &tree.parameters)?,
        last_part: tree.more.len(),
        modal: false,
        bare: false,
    })
}

/// A procedure, as its uses see it.
pub fn procedure_signature(
    alloc: Global,
    number: u32,
    tree: &Procedure,
) -> Result<Signature, AllocError>
    ensures { IfOk result (λ s. s ≡ procedure_signature number tree.now) }
{
    Ok(Signature {
        number,
        banks: banks_among(alloc, &tree.parameters)?,
        last_part: 0,
        modal: has_modality(&tree.requires_clause) || has_modality(&tree.ensures_clause),
        bare: tree.parameters.is_none() && tree.requires_clause.is_none(),
    })
}

impl<'a> Listing<'a> {
    /// Nothing declared.
    pub fn new(alloc: Global, faults: List<Fault>) -> Listing<'a>
        ensures { result ≡ nothing_listed faults }
    {
        Listing {
            names: Table::new(alloc),
            count: 0,
            faults,
        }
    }

    /// One declaration more. Of several of one name a use means the first.
    pub fn list(
        &mut self,
        bytes: &'a [u8],
        name: Span,
        signature: Signature,
    ) -> Result<(), AllocError>
        ensures { OnOk result (self.new ≡ with_signature bytes.now name signature self.old) }
    {
        let text = text_at(bytes, name);
        note(
            &mut self.faults,
            Occurrence::Declared {
                place: name,
                stands: self.names.find(text).is_some(),
                before: self.count,
                limit: MOST,
            },
        )?;
        self.names.declare(text, signature)?;
        self.count = one_more(self.count, MOST);
        Ok(())
    }
}
