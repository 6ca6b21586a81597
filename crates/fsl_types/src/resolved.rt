//! What is made of a file's tree. It is defined with the programs, in `specs/Programs.antt`.
use crate::fault::Fault;
use fsl_base::List;
use fsl_core::{Inv, Proc};

/// What was made of the declarations so far, and the faults.
#[derive(Drop)]
pub struct Resolved {
    pub invs: List<Inv>,
    pub procs: List<Proc>,
    pub faults: List<Fault>,
}
