//! What was assumed, and what is held to judge by it: reduced equations, and bounds in normal form.
ghost use Rattle.std.specs.Prelude.{◌≡◌, ◌<◌, ◌+◌, ◌^◌, ◌||◌, ◌∷◌, [], ℕ, true, false, length, pos, IfOk, OnOk, OnErr, IsErrOf, IsOkUnless};
ghost use Rattle.fsl_lin.specs.declared.fact.Fact.TheVariants.{Le, Is};
ghost use Rattle.fsl_lin.specs.Numbers.{part, gapped, listed, opposite};
ghost use Rattle.fsl_lin.specs.Rows.{normal};
ghost use Rattle.fsl_lin.specs.Equations.{rows_of};
ghost use Rattle.fsl_lin.specs.Facts.{rows, kept, facts_fit, absurd_facts, proves_le, proves_is, proves_normal};
ghost use Rattle.fsl_lin.specs.Sizes.{IsSize};
ghost use Rattle.fsl_pure.specs.Known.{IsHeld, is_absurd};
ghost use Rattle.fsl_pure.specs.Table.{contradict};

use crate::equated::kept_after;
use crate::fault::PureFault;
use crate::kept::Kept;
use crate::next::Next;
use crate::nodes::{edge_between, nodes};
use crate::reduced::Reduced;
use crate::sharing::{Shared, push, share_each};
use crate::sums::{difference, is_zero, negate};
use fsl_base::TryClone;
use fsl_lin::{Eqs, Fact, Lin, LinFault, PLACES, Sym, Took};
use std::alloc::{AllocError, Global};
use std::marker::Model;

/// The greatest number of symbols.
const MAX_SYMBOLS: u32 = 512;

/// Facts and symbols at a place of a path.
#[derive(Drop)]
pub struct Known {
    facts: Vec<Shared<Fact>>,
    symbols: u32,
    eqs: Reduced,
    kept: Kept,
    unequal: bool,
}

impl Model for Known {
    ghost use Rattle.std.specs.Prelude.{reverse};
    ghost use Rattle.fsl_pure.specs.Known.{Assumed, IsKnown};

    ghost Value = { Assumed };

    ghost view = { λ known. record { facts = reverse known.facts.items; symbols = known.symbols } };

    ghost invariant = { λ known. IsKnown (reverse known.facts.items) known.symbols known.eqs known.kept known.unequal };
}

impl Known {
    /// Nothing assumed, and no symbol made.
    pub fn new(alloc: Global) -> Result<Known, AllocError>
        ensures { IfOk result (λ known. known ≡ record { facts = []; symbols = 0 }) }
    {
        Ok(Known {
            facts: Vec::new(alloc),
            symbols: 0,
            eqs: Reduced::new(alloc),
            kept: Kept::new(alloc)?,
            unequal: false,
        })
    }

    /// The next symbol.
    pub fn fresh(&mut self) -> Result<Sym, PureFault>
        ensures sym { IfOk result (λ sym. sym.0 ≡ self.old.symbols) }
        ensures room { OnOk result (self.old.symbols < 512) }
        ensures made { OnOk result (self.new ≡ record { facts = self.old.facts; symbols = self.old.symbols + 1 }) }
        ensures full { OnErr result (self.old.symbols ≡ 512) }
        ensures kept { OnErr result (self.new ≡ self.old) }
        ensures only_full { IsOkUnless result PureFault.Full }
    {
        if self.symbols == MAX_SYMBOLS {
            return Err(PureFault::Full);
        }
        let sym = Sym(self.symbols);
        self.symbols += 1;
        Ok(sym)
    }

    /// The reduced equations.
    pub fn eqs(&self) -> &Eqs
        ensures { rows_of result.now ≡ rows self.now.facts }
    {
        self.eqs.get()
    }

    /// Assumes `t <= 0`.
    pub fn assume_le(&mut self, alloc: Global, t: &Lin) -> Result<(), PureFault>
        ensures added { OnOk result (self.new ≡ record { facts = Le t.now ∷ self.old.facts; symbols = self.old.symbols }) }
        ensures kept { OnErr result (self.new ≡ self.old) }
        ensures fit { OnOk result (facts_fit (Le t.now ∷ self.old.facts) ≡ true) }
        ensures wide { IsErrOf result PureFault.Wide → facts_fit (Le t.now ∷ self.old.facts) ≡ false }
        ensures never_full { IsErrOf result PureFault.Full → ⊥ }
    {
        let fact = Shared::new(
            alloc,
            Fact::Le {
                t: t.try_clone(alloc)?,
            },
        )?;
        self.facts.reserve(1)?;
        match self.kept.add_term(alloc, self.eqs.get(), t) {
            Ok(()) => {
                self.kept.fit();
                push(&mut self.facts, fact);
                Ok(())
            }
            Err(fault) => Err(PureFault::from(fault)),
        }
    }

    /// What is held once `t = 0` is assumed too.
    fn equated(&self, alloc: Global, t: &Lin) -> Result<Next, LinFault>
        ensures exact { IfOk result (λ next. IsHeld (Is t.now ∷ self.now.facts) next.eqs next.kept next.unequal) }
        ensures wide { IsErrOf result LinFault.Wide → facts_fit (Is t.now ∷ self.now.facts) ≡ false }
    {
        let mut eqs = self.eqs.try_clone(alloc)?;
        match eqs.assume(alloc, t) {
            Ok(took) => match kept_after(alloc, &self.kept, eqs.get(), t, took) {
                Ok(kept) => {
                    kept.fit();
                    Ok(Next {
                        eqs,
                        kept,
                        unequal: refuted_by(took, self.unequal),
                    })
                }
                Err(fault) => Err(fault),
            },
            Err(fault) => Err(fault),
        }
    }

    /// Assumes `t = 0`.
    pub fn assume_eq(&mut self, alloc: Global, t: &Lin) -> Result<(), PureFault>
        ensures added { OnOk result (self.new ≡ record { facts = Is t.now ∷ self.old.facts; symbols = self.old.symbols }) }
        ensures kept { OnErr result (self.new ≡ self.old) }
        ensures fit { OnOk result (facts_fit (Is t.now ∷ self.old.facts) ≡ true) }
        ensures wide { IsErrOf result PureFault.Wide → facts_fit (Is t.now ∷ self.old.facts) ≡ false }
        ensures never_full { IsErrOf result PureFault.Full → ⊥ }
    {
        let next = match self.equated(alloc, t) {
            Ok(next) => next,
            Err(fault) => return Err(PureFault::from(fault)),
        };
        let fact = Shared::new(
            alloc,
            Fact::Is {
                t: t.try_clone(alloc)?,
            },
        )?;
        self.facts.reserve(1)?;
        push(&mut self.facts, fact);
        self.eqs = next.eqs;
        self.kept = next.kept;
        self.unequal = next.unequal;
        Ok(())
    }

    /// Whether `a - b + gap <= 0` is proved. Where the difference is an edge it is one look into the table.
    pub fn proves_le(&self, a: &Lin, b: &Lin, gap: &i128) -> bool
        requires clear { absurd_facts self.now.facts ≡ false }
        requires size { IsSize (2 ^ 90) gap.now }
        ensures { result ≡ proves_le self.now.facts (gapped (part a.now) (part b.now) gap.now) }
    {
        match nodes(&self.eqs, a, b) {
            Some((x, y)) => self.kept.walks(&edge_between(x, y, a, b, gap)),
            None => self.proves_by_numbers(a, b, gap),
        }
    }

    /// The same for any two terms, by all numbers of the normal form.
    fn proves_by_numbers(&self, a: &Lin, b: &Lin, gap: &i128) -> bool
        requires clear { absurd_facts self.now.facts ≡ false }
        requires size { IsSize (2 ^ 90) gap.now }
        ensures { result ≡ proves_le self.now.facts (gapped (part a.now) (part b.now) gap.now) }
    {
        let mut numbers = [0i128; PLACES];
        difference(self.eqs.get(), a, b, gap, &mut numbers);
        self.kept.proves(&numbers)
    }

    /// Whether `a - b = 0` is proved. Where the difference is an edge it is two looks into the table.
    pub fn proves_eq(&self, a: &Lin, b: &Lin) -> bool
        requires { absurd_facts self.now.facts ≡ false }
        ensures { result ≡ proves_is self.now.facts (gapped (part a.now) (part b.now) (pos 0)) }
    {
        match nodes(&self.eqs, a, b) {
            Some((x, y)) => self.kept.walks(&edge_between(x, y, a, b, &0))
                && self.kept.walks(&edge_between(y, x, b, a, &0)),
            None => self.equal_by_numbers(a, b),
        }
    }

    /// The same for any two terms, by all numbers of the normal form.
    fn equal_by_numbers(&self, a: &Lin, b: &Lin) -> bool
        requires { absurd_facts self.now.facts ≡ false }
        ensures { result ≡ proves_is self.now.facts (gapped (part a.now) (part b.now) (pos 0)) }
    {
        let mut numbers = [0i128; PLACES];
        difference(self.eqs.get(), a, b, &0, &mut numbers);
        is_zero(&numbers) || self.kept.proves(&numbers) && self.proves_opposite(&mut numbers)
    }

    /// Whether the opposite of a bound is proved of which an array has the normal form.
    fn proves_opposite(&self, numbers: &mut [i128]) -> bool
        requires clear { contradict (kept self.now.facts) ≡ false }
        requires whole { length numbers.old ≡ 513 }
        requires size { (i : ℕ) → IsSize (2 ^ 126) (listed numbers.old i) }
        ensures { result ≡ proves_normal (kept self.now.facts) (opposite (listed numbers.old)) }
    {
        negate(numbers);
        self.kept.proves(numbers)
    }

    /// Whether the facts are absurd.
    pub fn absurd(&self) -> bool
        ensures { result ≡ absurd_facts self.now.facts }
    {
        self.unequal || self.kept.refuted()
    }

    /// The same facts and symbols.
    pub fn copy(&self, alloc: Global) -> Result<Known, AllocError>
        ensures { IfOk result (λ known. known ≡ self.now) }
    {
        Ok(Known {
            facts: share_each(alloc, self.facts.as_slice())?,
            symbols: self.symbols,
            eqs: self.eqs.try_clone(alloc)?,
            kept: self.kept.copy(alloc)?,
            unequal: self.unequal,
        })
    }
}

/// Whether an equation was refuted, of which this is the newest.
fn refuted_by(took: Took, before: bool) -> bool
    ensures { result ≡ (is_absurd took || before) }
{
    match took {
        Took::Absurd => true,
        _ => before,
    }
}
