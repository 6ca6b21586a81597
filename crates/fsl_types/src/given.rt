//! What a file gives to all of its parts, and what may stand in a part of an assertion.
ghost use Rattle.std.specs.Prelude.{◌≡◌};
ghost use Rattle.std.specs.Option.{option_copied};
ghost use Rattle.fsl_types.specs.Expressions.{signature_at, sight_of};

use crate::names::text_at;
use crate::scope::Scope;
use crate::table::Table;
use crate::variable::{Signature, Variable};
use fsl_base::Span;

/// The bytes of a file, and its invariants and procedures by name.
#[derive(Drop)]
pub struct Globals<'a> {
    pub bytes: &'a [u8],
    pub invariants: Table<'a, Signature>,
    pub procedures: Table<'a, Signature>,
}

impl<'a> Globals<'a> {
    /// Where names are looked up that are visible.
    pub fn scope<'s>(&self, names: &'s Table<'a, Variable>, in_ensures: bool) -> Scope<'s, 'a>
        ensures { sight_of result ≡ record { bytes = self.now.bytes.now; names = names.now; in_ensures = in_ensures } }
    {
        Scope {
            bytes: self.bytes,
            names,
            in_ensures,
        }
    }

    /// The invariant that is named at a place.
    pub fn invariant(&self, place: Span) -> Option<&Signature>
        ensures { option_copied result ≡ signature_at self.now.bytes.now self.now.invariants place }
    {
        self.invariants.find(text_at(self.bytes, place))
    }

    /// The procedure that is named at a place.
    pub fn procedure(&self, place: Span) -> Option<&Signature>
        ensures { option_copied result ≡ signature_at self.now.bytes.now self.now.procedures place }
    {
        self.procedures.find(text_at(self.bytes, place))
    }
}

/// What may stand in an assertion.
#[derive(Clone, Copy)]
pub struct Setting {
    /// `result`
    pub in_ensures: bool,
    /// `up` and `down`
    pub modal: bool,
}
