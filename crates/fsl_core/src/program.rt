//! A program, whose uses of invariants and procedures fit their declarations. It is made where all of that is
//! checked, and is not changed.
ghost use Rattle.std.specs.Prelude.{◌≡◌, ◌↔◌, false, IsTrue, IfSome, IfNone, IfOk};
ghost use Rattle.fsl_core.specs.WellFormed.{is_well_formed};

use crate::declaration::{Inv, Proc};
use crate::same::same_items;
use crate::well_formed::is_well_formed;
use fsl_base::{List, TryClone};
use std::alloc::{AllocError, Global};
use std::marker::Model;

/// A well-formed program.
#[derive(Drop)]
pub struct Program {
    invs: List<Inv>,
    procs: List<Proc>,
}

impl Model for Program {
    ghost use Rattle.std.specs.Coded.{codes};
    ghost use Rattle.std.specs.Prelude.{IsTrue};
    ghost use Rattle.fsl_core.specs.contracts.declaration.Inv as inv;
    ghost use Rattle.fsl_core.specs.contracts.declaration.Proc as proc;
    ghost use Rattle.fsl_core.specs.Programs as programs;

    ghost Value = { programs.Program };

    ghost coded = { Prim.hlevel (codes, inv.the_row.coded, proc.the_row.coded) };

    ghost use Rattle.fsl_core.specs.WellFormed.{is_well_formed};

    ghost view = { λ p. record { invs = p.invs; procs = p.procs } };

    ghost invariant = { λ p. IsTrue (is_well_formed (record { invs = p.invs; procs = p.procs })) };
}

impl Program {
    /// The program of these invariants and procedures; `None` exactly where it is not well formed. It takes no
    /// memory, and time in proportion to their size.
    pub fn new(invs: List<Inv>, procs: List<Proc>) -> Option<Program>
        ensures some { IfSome result (λ p. p ≡ record { invs = invs; procs = procs }) }
        ensures none { IfNone result (is_well_formed (record { invs = invs; procs = procs }) ≡ false) }
    {
        if is_well_formed(invs.as_slice(), procs.as_slice()) {
            Some(Program { invs, procs })
        } else {
            None
        }
    }

    /// The invariants, by their numbers.
    pub fn invs(&self) -> &[Inv]
        ensures { result.now ≡ self.now.invs }
    {
        self.invs.as_slice()
    }

    /// The procedures, by their numbers.
    pub fn procs(&self) -> &[Proc]
        ensures { result.now ≡ self.now.procs }
    {
        self.procs.as_slice()
    }

    /// Opens the program, so that a law may say what it keeps.
    pub(crate) fn kept(&self)
        ensures { IsTrue (is_well_formed self.now) }
    {
        let _ = &self.invs;
    }

    /// An equal program. It fails for want of memory alone.
    pub fn copy(&self, alloc: Global) -> Result<Program, AllocError>
        ensures { IfOk result (λ copy. copy ≡ self.now) }
    {
        let invs = self.invs.try_clone(alloc)?;
        let procs = self.procs.try_clone(alloc)?;
        Ok(Program { invs, procs })
    }

    /// Whether two programs are equal, names and places included. It takes no memory.
    pub fn same(&self, o: &Program) -> bool
        ensures { IsTrue result ↔ (self.now ≡ o.now) }
    {
        same_items(self.invs.as_slice(), o.invs.as_slice())
            && same_items(self.procs.as_slice(), o.procs.as_slice())
    }
}
