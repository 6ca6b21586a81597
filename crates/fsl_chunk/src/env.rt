//! The terms of variables, by slot. Copies share the terms.
ghost use Rattle.std.specs.Prelude.{◌≡◌, [], ◌∷◌, ◌++◌, ◌-◌, IfOk, OnOk, OnErr, length, slice_get, slice_set};
ghost use Rattle.std.specs.Option.{option_copied};

use fsl_lin::Lin;
use fsl_pure::{Shared, share_each};
use std::alloc::{AllocError, Global};
use std::marker::Model;

/// The terms of the slots from 0 on.
#[derive(Drop)]
pub struct Env {
    terms: Vec<Shared<Lin>>,
}

impl Model for Env {
    ghost use Rattle.fsl_core.specs.logic.States as states;

    ghost Value = { states.Env };

    ghost view = { λ env. env.terms.items };
}

impl Env {
    /// No slots. It takes no memory.
    pub fn new(alloc: Global) -> Env
        ensures { result ≡ [] }
    {
        Env {
            terms: Vec::new(alloc),
        }
    }

    /// How many slots there are.
    pub fn len(&self) -> usize
        ensures { result ≡ length self.now }
    {
        self.terms.len()
    }

    /// The term of a slot; `None` exactly where there is no such slot.
    pub fn get(&self, slot: u32) -> Option<&Lin>
        ensures { option_copied result ≡ slice_get self.now slot }
    {
        match self.terms.get(slot as usize) {
            Some(term) => Some(term.get()),
            None => None,
        }
    }

    /// The term of the last slot; `None` exactly where there is no slot.
    pub fn last(&self) -> Option<&Lin>
        ensures { option_copied result ≡ slice_get self.now (length self.now - 1) }
    {
        match self.terms.last() {
            Some(term) => Some(term.get()),
            None => None,
        }
    }

    /// Adds a slot behind the others. For want of memory nothing changes.
    pub fn push(&mut self, alloc: Global, term: Lin) -> Result<(), AllocError>
        ensures pushed { OnOk result (self.new ≡ self.old ++ term ∷ []) }
        ensures kept { OnErr result (self.new ≡ self.old) }
    {
        let term = Shared::new(alloc, term)?;
        self.terms.push(term)?;
        Ok(())
    }

    /// Gives a slot a term, where there is such a slot. For want of memory nothing changes.
    pub fn set(&mut self, alloc: Global, slot: u32, term: Lin) -> Result<(), AllocError>
        ensures set { OnOk result (self.new ≡ slice_set self.old slot term) }
        ensures kept { OnErr result (self.new ≡ self.old) }
    {
        let term = Shared::new(alloc, term)?;
        let slot = slot as usize;
        if slot < self.terms.len() {
            self.terms[slot] = term;
        }
        Ok(())
    }

    /// The same terms, none copied.
    pub fn fork(&self, alloc: Global) -> Result<Env, AllocError>
        ensures { IfOk result (λ env. env ≡ self.now) }
    {
        Ok(Env {
            terms: share_each(alloc, self.terms.as_slice())?,
        })
    }
}
