//! One row of a matrix of least totals. Rows are shared and never changed: a matrix that differs in a row has
//! another row in its place.
ghost use Rattle.std.specs.Prelude.{◌≡◌, IfOk};

use std::alloc::{AllocError, Global};
use std::marker::Model;
use std::rc::Rc;

/// The least totals of walks from one node to each.
#[derive(Drop)]
pub struct Row {
    shared: Rc<Vec<Option<i128>>>,
}

impl Model for Row {
    ghost use Rattle.std.specs.Prelude.{List, Option, ℤ};

    ghost Value = { List (Option ℤ) };

    ghost view = { λ row. row.shared.value.items };
}

impl Row {
    pub fn from_vec(alloc: Global, items: Vec<Option<i128>>) -> Result<Row, AllocError>
        ensures { IfOk result (λ row. row ≡ items.items) }
    {
        match Rc::new(alloc, items) {
            Ok(shared) => Ok(Row { shared }),
            Err(_) => Err(AllocError),
        }
    }

    pub fn as_slice(&self) -> &[Option<i128>]
        ensures { result.now ≡ self.now }
    {
        self.shared.as_ref().as_slice()
    }

    /// The same row, not copied.
    pub fn share(&self) -> Result<Row, AllocError>
        ensures { IfOk result (λ row. row ≡ self.now) }
    {
        Ok(Row {
            shared: self.shared.clone()?,
        })
    }
}
