//! Where a name is looked up, and which variable it is. What is found is defined in `specs/Names.antt`.
ghost use Rattle.std.specs.Prelude.{◌≡◌};
ghost use Rattle.fsl_types.specs.Names.{slot_at, sort_at};

use crate::names::text_at;
use crate::table::Table;
use crate::variable::{Sort, Variable};
use fsl_base::Span;

/// The bytes of the file, the variables that are visible, and whether this is an `ensures`.
#[derive(Clone, Copy)]
pub struct Scope<'s, 'a> {
    pub bytes: &'s [u8],
    pub names: &'s Table<'a, Variable>,
    pub in_ensures: bool,
}

impl<'s, 'a> Scope<'s, 'a> {
    /// The slot of the variable that is named at a place, 0 where none is.
    pub fn slot(&self, place: Span) -> u32
        ensures { result ≡ slot_at self.now.bytes.now self.now.names.now place }
    {
        match self.names.find(text_at(self.bytes, place)) {
            Some(variable) => variable.slot,
            None => 0,
        }
    }

    /// What the variable that is named at a place is, where one is.
    pub fn sort(&self, place: Span) -> Option<Sort>
        ensures { result ≡ sort_at self.now.bytes.now self.now.names.now place }
    {
        match self.names.find(text_at(self.bytes, place)) {
            Some(variable) => Some(variable.sort),
            None => None,
        }
    }
}
