//! What is assumed of terms.
use crate::lin::Lin;

/// A fact about a term.
#[derive(Debug, Drop)]
pub enum Fact {
    /// `t <= 0`.
    Le { t: Lin },
    /// `t = 0`.
    Is { t: Lin },
}
