//! Facts that were assumed, and what they prove.
ghost use Rattle.std.specs.Prelude.{◌≡◌, ◌<◌, ◌+◌, ◌^◌, ◌∷◌, ◌+ℤ◌, ◌≤ℤ◌, [], true, false, length, pos, IfOk, OnOk, OnErr, IsErrOf, IsOkUnless};
ghost use Rattle.fsl_lin.specs.declared.fact.Fact.TheVariants.{Le, Is};
ghost use Rattle.fsl_lin.specs.Numbers.{part, gapped};
ghost use Rattle.fsl_lin.specs.Equations.{rows_of};
ghost use Rattle.fsl_lin.specs.Facts.{rows, facts_fit, absurd_facts, proves_le, proves_is};
ghost use Rattle.fsl_lin.specs.Sizes.{IsSize};
ghost use Rattle.fsl_lin.specs.Values.{value_of, Follows};

use crate::fault::PureFault;
use crate::known::Known;
use fsl_lin::{Eqs, Lin, Sym};
use std::alloc::{AllocError, Global};
use std::marker::Model;

/// The facts that were assumed and the symbols that were made at a place of a path, with marks to go back to.
#[derive(Drop)]
pub struct Pure {
    known: Known,
    marks: Vec<Known>,
}

impl Model for Pure {
    ghost use Rattle.std.specs.Prelude.{reverse};
    ghost use Rattle.fsl_pure.specs.Known.{Marked};

    ghost Value = { Marked };

    ghost view = { λ pure. record { facts = pure.known.facts; symbols = pure.known.symbols; marks = reverse pure.marks.items } };
}

impl Pure {
    /// Nothing assumed, no symbol made, and no mark.
    pub fn new(alloc: Global) -> Result<Pure, AllocError>
        ensures { IfOk result (λ pure. pure ≡ record { facts = []; symbols = 0; marks = [] }) }
    {
        Ok(Pure {
            known: Known::new(alloc)?,
            marks: Vec::new(alloc),
        })
    }

    /// The next symbol. `Full` comes exactly where 512 are there. It takes no memory.
    pub fn fresh(&mut self) -> Result<Sym, PureFault>
        ensures sym { IfOk result (λ sym. sym.0 ≡ self.old.symbols) }
        ensures room { OnOk result (self.old.symbols < 512) }
        ensures made { OnOk result (self.new ≡ record { facts = self.old.facts; symbols = self.old.symbols + 1; marks = self.old.marks }) }
        ensures full { OnErr result (self.old.symbols ≡ 512) }
        ensures kept { OnErr result (self.new ≡ self.old) }
        ensures only_full { IsOkUnless result PureFault.Full }
    {
        self.known.fresh()
    }

    /// The reduced equations, whose `nf` is the normal form by the facts.
    pub fn eqs(&self) -> &Eqs
        ensures { rows_of result.now ≡ rows self.now.facts }
    {
        self.known.eqs()
    }

    /// Assumes `t <= 0`. `Wide` comes exactly where the normal form of the bound would pass the bounds of a
    /// `Lin`. Then, and for want of memory, the facts stay as they were.
    pub fn assume_le(&mut self, alloc: Global, t: &Lin) -> Result<(), PureFault>
        ensures added { OnOk result (self.new ≡ record { facts = Le t.now ∷ self.old.facts; symbols = self.old.symbols; marks = self.old.marks }) }
        ensures kept { OnErr result (self.new ≡ self.old) }
        ensures fit { OnOk result (facts_fit (Le t.now ∷ self.old.facts) ≡ true) }
        ensures wide { IsErrOf result PureFault.Wide → facts_fit (Le t.now ∷ self.old.facts) ≡ false }
        ensures never_full { IsErrOf result PureFault.Full → ⊥ }
    {
        self.known.assume_le(alloc, t)
    }

    /// Assumes `t = 0`. `Wide` comes exactly where a reduced equation, or the normal form of a kept bound,
    /// would pass the bounds of a `Lin`. Then, and for want of memory, the facts stay as they were.
    pub fn assume_eq(&mut self, alloc: Global, t: &Lin) -> Result<(), PureFault>
        ensures added { OnOk result (self.new ≡ record { facts = Is t.now ∷ self.old.facts; symbols = self.old.symbols; marks = self.old.marks }) }
        ensures kept { OnErr result (self.new ≡ self.old) }
        ensures fit { OnOk result (facts_fit (Is t.now ∷ self.old.facts) ≡ true) }
        ensures wide { IsErrOf result PureFault.Wide → facts_fit (Is t.now ∷ self.old.facts) ≡ false }
        ensures never_full { IsErrOf result PureFault.Full → ⊥ }
    {
        self.known.assume_eq(alloc, t)
    }

    /// Whether `a - b + gap <= 0` is proved, for a gap of at most 2^90 in size. The difference is exact,
    /// whatever its size. It takes no memory.
    pub fn proves_le(&self, a: &Lin, b: &Lin, gap: i128) -> bool
        requires clear { absurd_facts self.now.facts ≡ false }
        requires size { IsSize (2 ^ 90) gap }
        ensures exact { result ≡ proves_le self.now.facts (gapped (part a.now) (part b.now) gap) }
        ensures sound { result ≡ true → Follows self.now.facts (λ v. (value_of v (part a.now) +ℤ gap) ≤ℤ value_of v (part b.now)) }
    {
        self.known.proves_le(a, b, &gap)
    }

    /// Whether `a - b = 0` is proved. It takes no memory.
    pub fn proves_eq(&self, a: &Lin, b: &Lin) -> bool
        requires { absurd_facts self.now.facts ≡ false }
        ensures exact { result ≡ proves_is self.now.facts (gapped (part a.now) (part b.now) (pos 0)) }
        ensures sound { result ≡ true → Follows self.now.facts (λ v. value_of v (part a.now) ≡ value_of v (part b.now)) }
    {
        self.known.proves_eq(a, b)
    }

    /// Whether the facts are absurd. It takes no memory.
    pub fn absurd(&self) -> bool
        ensures exact { result ≡ absurd_facts self.now.facts }
        ensures sound { result ≡ true → Follows self.now.facts (λ v. ⊥) }
    {
        self.known.absurd()
    }

    /// Sets a mark. For want of memory nothing changes.
    pub fn mark(&mut self, alloc: Global) -> Result<(), AllocError>
        ensures marked { OnOk result (self.new ≡ record { facts = self.old.facts; symbols = self.old.symbols; marks = record { facts = self.old.facts; symbols = self.old.symbols } ∷ self.old.marks }) }
        ensures kept { OnErr result (self.new ≡ self.old) }
    {
        let known = self.known.copy(alloc)?;
        self.marks.push(known)?;
        Ok(())
    }

    /// Puts back what there was at the newest mark that is left, and takes the mark away.
    pub fn back(&mut self)
        requires { 0 < length self.old.marks }
        ensures { self.old.marks ≡ record { facts = self.new.facts; symbols = self.new.symbols } ∷ self.new.marks }
    {
        match self.marks.pop() {
            Some(known) => self.known = known,
            None => unreachable!(),
        }
    }

    /// The same facts and symbols, without marks.
    pub fn copy(&self, alloc: Global) -> Result<Pure, AllocError>
        ensures { IfOk result (λ pure. pure ≡ record { facts = self.now.facts; symbols = self.now.symbols; marks = [] }) }
    {
        Ok(Pure {
            known: self.known.copy(alloc)?,
            marks: Vec::new(alloc),
        })
    }
}
