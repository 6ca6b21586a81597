//! The resolver: what is known while a tree is read, and how a name is declared and a fault is noted. It is defined
//! in `specs/Resolvers.antt`.
ghost use Rattle.std.specs.Prelude.{◌≡◌, OnOk, IfOk, length};
ghost use Rattle.fsl_types.specs.Resolvers.{declared, fresh, judging, leaving, noted, one_more};

use crate::fault::Fault;
use crate::names::text_at;
use crate::occurrence::Occurrence;
use crate::rules::note;
use crate::table::Table;
use crate::variable::{Sort, Variable};
use fsl_base::{List, Span};
use std::alloc::{AllocError, Global};

/// The names that are visible, in the order of their declarations, the number of slots that are taken, those of
/// banks, and the faults so far.
#[derive(Drop)]
pub struct Resolver<'a> {
    pub names: Table<'a, Variable>,
    /// At most 256.
    pub slots: u32,
    pub banks: List<u32>,
    pub faults: List<Fault>,
}

/// One more, up to a limit.
pub fn one_more(n: u32, limit: u32) -> u32
    ensures { result ≡ one_more limit n }
{
    if n < limit { n + 1 } else { limit }
}

impl<'a> Resolver<'a> {
    /// Where nothing is declared.
    pub fn fresh(alloc: Global, faults: List<Fault>) -> Resolver<'a>
        ensures { result ≡ fresh faults }
    {
        Resolver {
            names: Table::new(alloc),
            slots: 0,
            banks: List::new(alloc),
            faults,
        }
    }

    /// Declares a variable, which takes the next slot.
    pub fn declare(
        &mut self,
        bytes: &'a [u8],
        name: Span,
        sort: Sort,
        limit: u32,
    ) -> Result<(), AllocError>
        ensures { OnOk result (self.new ≡ declared limit bytes.now name sort self.old) }
    {
        let text = text_at(bytes, name);
        let slot = self.slots;
        note(
            &mut self.faults,
            Occurrence::Declared {
                place: name,
                stands: self.names.find(text).is_some(),
                before: slot,
                limit,
            },
        )?;
        self.names.declare(text, Variable { slot, sort })?;
        if sort == Sort::Bank {
            self.banks.push(slot)?;
        }
        self.slots = one_more(slot, 256);
        Ok(())
    }

    /// Notes the faults of something.
    pub fn note(&mut self, o: Occurrence) -> Result<(), AllocError>
        ensures { OnOk result (self.new ≡ judging (noted o) self.old) }
    {
        note(&mut self.faults, o)
    }

    /// Ends a block: the names behind those that were there before it go.
    pub fn leave(&mut self, outside: usize)
        ensures { self.new ≡ leaving outside self.old }
    {
        self.names.truncate(outside);
    }
}
