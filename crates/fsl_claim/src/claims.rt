//! The claims and their passes.
ghost use Rattle.std.specs.Prelude.{◌≡◌, ◌<◌};

use crate::steps::NextAndLeast;
use crate::view::{Plan, View};
use atomic_table::{Seat, Table};
use fsl_base::List;
use std::alloc::Global;

/// Claims on the units numbered from 0 on, shared by several workers.
#[derive(Drop)]
pub struct Claims {
    pub(crate) table: Table<(), View, Plan, NextAndLeast, Global>,
    pub(crate) units: u32,
    pub(crate) workers: u32,
    ghost told: { table.shared.key ≡ record { units = units; workers = workers } },
    ghost some_worker: { 0 < workers },
    ghost two_words: { table.shared.table_id.words ≡ 2 },
}

/// A worker's own right to draw and to report. It takes no room.
#[derive(Drop)]
pub struct Pass {
    pub(crate) seat: Seat<(), View>,
}

/// Claims with one pass for each worker.
#[derive(Drop)]
pub struct Claiming {
    pub claims: Claims,
    pub passes: List<Pass>,
}

impl Claims {
    /// Claims over a table of two words, under the plan that it was made with.
    pub(crate) fn over(
        table: Table<(), View, Plan, NextAndLeast, Global>,
        units: u32,
        workers: u32,
    ) -> Claims
        requires told { table.shared.key ≡ record { units = units; workers = workers } }
        requires some_worker { 0 < workers }
        requires two_words { table.shared.table_id.words ≡ 2 }
        ensures { (result.table ≡ table) × (result.units ≡ units) × (result.workers ≡ workers) }
    {
        Claims {
            table,
            units,
            workers,
        }
    }
}
