//! What is judged: a procedure of a program.

use fsl_core::{Proc, Program};

/// A procedure that is judged, with its program and its number there.
#[derive(Clone, Copy)]
pub struct Job<'a> {
    pub program: &'a Program,
    pub number: u32,
    pub proc: &'a Proc,
}
