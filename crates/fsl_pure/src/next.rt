//! What is held once one more equation is assumed.
use crate::kept::Kept;
use crate::reduced::Reduced;

/// Reduced equations, bounds in normal form, and whether an equation was refuted.
#[derive(Drop)]
pub struct Next {
    pub eqs: Reduced,
    pub kept: Kept,
    pub unequal: bool,
}
