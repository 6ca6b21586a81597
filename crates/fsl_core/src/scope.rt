//! What a place of a procedure or an invariant sees: how each variable may be used there, and where the place
//! stands. What code and assertions read is held against it.
ghost use Rattle.std.specs.Prelude.{◌≡◌};
ghost use Rattle.fsl_core.specs.Scopes.{is_number, is_bank, is_free, is_settable, kept, sight_at, with_sight, in_loop, in_ensures, reads, reads_all, tests, is_bank_alone, inst_argument_fits, inst_reads, argument_fits, step_reads, steps_read, update_reads};

use crate::act::Step;
use crate::assertion::Inst;
use crate::expr::{Cond, Expr};

/// The most variables of a procedure or an invariant.
pub(crate) const MAX_SLOTS: usize = 256;

/// How a variable may be used at a place.
#[derive(Clone, Copy, Debug, PartialEq, Eq)]
pub enum Sight {
    /// It isn't visible, and may be declared.
    Free,
    /// It isn't visible, and isn't declared: a binder of `requires` in the body, or no variable at all.
    Kept,
    /// A number that isn't set: a parameter of a procedure, or the value of a location.
    Given,
    /// A number that an assertion binds.
    Bound,
    /// A number that may be set: a variable of the body.
    Local,
    /// A bank.
    Bank,
    /// A parameter of an invariant, which is a number or a bank as its uses have it.
    Either,
}

/// What a place sees.
#[derive(Clone, Copy, Debug)]
pub struct Scope {
    /// How each variable may be used, by its slot.
    pub sights: [Sight; MAX_SLOTS],
    /// Whether the result of the procedure may be spoken of.
    pub in_ensures: bool,
    /// Whether the place is inside a loop, where nothing returns.
    pub in_loop: bool,
}

impl Sight {
    /// Whether the variable is read as a number.
    fn is_number(self) -> bool
        ensures { result ≡ is_number self }
    {
        match self {
            Sight::Given | Sight::Bound | Sight::Local | Sight::Either => true,
            _ => false,
        }
    }

    /// Whether the variable is a bank.
    pub(crate) fn is_bank(self) -> bool
        ensures { result ≡ is_bank self }
    {
        match self {
            Sight::Bank | Sight::Either => true,
            _ => false,
        }
    }

    /// How it is seen in the body, where it was seen so in the contract.
    pub(crate) fn kept(self) -> Sight
        ensures { result ≡ kept self }
    {
        match self {
            Sight::Bound => Sight::Kept,
            _ => self,
        }
    }

    /// Whether the variable may be declared.
    pub(crate) fn is_free(self) -> bool
        ensures { result ≡ is_free self }
    {
        match self {
            Sight::Free => true,
            _ => false,
        }
    }

    /// Whether the variable may be set, by which one that isn't visible is declared.
    pub(crate) fn is_settable(self) -> bool
        ensures { result ≡ is_settable self }
    {
        match self {
            Sight::Free | Sight::Local => true,
            _ => false,
        }
    }
}

impl Scope {
    /// How the variable of a slot may be used.
    pub(crate) fn sight(&self, slot: u32) -> Sight
        ensures { result ≡ sight_at self.now slot }
    {
        match self.sights.get(slot as usize) {
            Some(sight) => *sight,
            None => Sight::Kept,
        }
    }

    /// From here on the variable of a slot may be used so.
    pub(crate) fn set(&mut self, slot: u32, sight: Sight)
        ensures { self.new ≡ with_sight slot sight self.old }
    {
        let slot = slot as usize;
        if slot < MAX_SLOTS {
            self.sights[slot] = sight;
        }
    }

    /// Whether an expression reads visible numbers alone, and the result in `ensures` alone.
    pub(crate) fn reads(&self, e: &Expr) -> bool
        ensures { result ≡ reads self.now e.now }
    {
        match e {
            Expr::Const { .. } => true,
            Expr::Var { slot } => self.sight(*slot).is_number(),
            Expr::Result_ => self.in_ensures,
            Expr::Neg { e } => self.reads(e.get()),
            Expr::Sum { parts } => {
                for part in parts.as_slice() {
                    if !self.reads(&part.e) {
                        return false;
                    }
                }
                true
            }
            Expr::Product { parts } => {
                for factor in parts.as_slice() {
                    if !self.reads(factor) {
                        return false;
                    }
                }
                true
            }
        }
    }

    /// The same of several expressions.
    pub(crate) fn reads_all(&self, es: &[Expr]) -> bool
        ensures { result ≡ reads_all self.now es.now }
    {
        for e in es {
            if !self.reads(e) {
                return false;
            }
        }
        true
    }

    /// The same of both sides of a condition.
    pub(crate) fn tests(&self, cond: &Cond) -> bool
        ensures { result ≡ tests self.now cond.now }
    {
        match cond {
            Cond::Yes | Cond::No => true,
            Cond::Cmp { l, r, .. } => self.reads(l) && self.reads(r),
        }
    }

    /// Whether an expression is a variable that is a bank.
    fn is_bank_alone(&self, e: &Expr) -> bool
        ensures { result ≡ is_bank_alone self.now e.now }
    {
        match e {
            Expr::Var { slot } => self.sight(*slot).is_bank(),
            _ => false,
        }
    }

    /// Whether the arguments of an invariant are numbers and banks.
    pub(crate) fn inst_reads(&self, inst: &Inst) -> bool
        ensures { result ≡ inst_reads self.now inst.now }
    {
        for e in inst.args.as_slice() {
            if !(self.reads(e) || self.is_bank_alone(e)) {
                return false;
            }
        }
        true
    }

    /// Whether an argument may be given for a parameter that is a bank or a number.
    pub(crate) fn argument_fits(&self, bank: bool, e: &Expr) -> bool
        ensures { result ≡ argument_fits self.now bank e.now }
    {
        if bank {
            self.is_bank_alone(e)
        } else {
            self.reads(e)
        }
    }

    /// Whether the making or burning of tokens speaks of a bank and a number.
    pub(crate) fn step_reads(&self, step: &Step) -> bool
        ensures { result ≡ step_reads self.now step.now }
    {
        self.sight(step.bank).is_bank() && self.reads(&step.n)
    }

    /// The same of several.
    pub(crate) fn steps_read(&self, steps: &[Step]) -> bool
        ensures { result ≡ steps_read self.now steps.now }
    {
        for step in steps {
            if !self.step_reads(step) {
                return false;
            }
        }
        true
    }

    /// Whether a read-modify-write reads numbers, and so do its steps.
    pub(crate) fn update_reads(&self, at: &Expr, e: &Expr, steps: &[Step]) -> bool
        ensures { result ≡ update_reads self.now at.now e.now steps.now }
    {
        self.reads(at) && self.reads(e) && self.steps_read(steps)
    }

    /// The same place inside a loop.
    pub(crate) fn in_loop(&self) -> Scope
        ensures { result ≡ in_loop self.now }
    {
        let mut inside = *self;
        inside.in_loop = true;
        inside
    }

    /// The same place in `ensures`.
    pub(crate) fn in_ensures(&self) -> Scope
        ensures { result ≡ in_ensures self.now }
    {
        let mut inside = *self;
        inside.in_ensures = true;
        inside
    }
}
