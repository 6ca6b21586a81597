//! Copies of invariants and procedures.
ghost use Rattle.std.specs.Prelude.{◌≡◌, IfOk};

use crate::assertion::Asrt;
use crate::declaration::{Inv, Proc};
use fsl_base::{List, Text, TryClone};
use std::alloc::{AllocError, Global};

impl TryClone for Inv {
    fn try_clone(&self, alloc: Global) -> Result<Inv, AllocError>
        ensures { IfOk result (λ copy. copy ≡ self.now) }
    {
        let name = self.name.try_clone(alloc)?;
        let parts = self.parts.try_clone(alloc)?;
        Ok(Inv {
            name,
            params: self.params,
            slots: self.slots,
            parts,
        })
    }
}

impl TryClone for Proc {
    fn try_clone(&self, alloc: Global) -> Result<Proc, AllocError>
        ensures { IfOk result (λ copy. copy ≡ self.now) }
    {
        // The copies are put in their places one by one, so that for want of memory one value is let go.
        let mut copy = Proc {
            name: Text::new(alloc),
            params: self.params,
            slots: self.slots,
            banks: List::new(alloc),
            pre: Asrt::Emp,
            post: Asrt::Emp,
            body: List::new(alloc),
            last: self.last,
        };
        copy.name = self.name.try_clone(alloc)?;
        copy.banks = List::from_slice(alloc, self.banks.as_slice())?;
        copy.pre = self.pre.try_clone(alloc)?;
        copy.post = self.post.try_clone(alloc)?;
        copy.body = self.body.try_clone(alloc)?;
        Ok(copy)
    }
}
