//! Equality of invariants and procedures.
ghost use Rattle.std.specs.Prelude.{◌≡◌, IsTrue, ◌↔◌};

use crate::declaration::{Inv, Proc};
use crate::same::same_items;
use fsl_base::Same;

impl Same for Inv {
    fn same(&self, other: &Inv) -> bool
        ensures { IsTrue result ↔ (self.now ≡ other.now) }
    {
        self.name.same(&other.name)
            && self.params == other.params
            && self.slots == other.slots
            && same_items(self.parts.as_slice(), other.parts.as_slice())
    }
}

impl Same for Proc {
    fn same(&self, other: &Proc) -> bool
        ensures { IsTrue result ↔ (self.now ≡ other.now) }
    {
        self.name.same(&other.name)
            && self.params == other.params
            && self.slots == other.slots
            && self.banks.as_slice() == other.banks.as_slice()
            && self.pre.same(&other.pre)
            && self.post.same(&other.post)
            && same_items(self.body.as_slice(), other.body.as_slice())
            && self.last == other.last
    }
}
