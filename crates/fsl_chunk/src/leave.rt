//! Leave to use an atomic location under an invariant, in terms.
use fsl_base::List;
use fsl_lin::Lin;

/// Leave to use an atomic location under an invariant.
#[derive(Drop)]
pub struct Leave {
    pub at: Lin,
    pub inv: u32,
    pub args: List<Lin>,
}
