//! A whole file.
use crate::declaration::Declaration;
use fsl_base::List;

/// `{ declaration }`
#[derive(Drop)]
pub struct File {
    pub declarations: List<Declaration>,
}
