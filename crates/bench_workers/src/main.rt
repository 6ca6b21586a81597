//! Judges one straight program as many times as there are units, for `bench/workers.py`. The arguments are how many
//! pairs of a store and an assertion the program has, or `claims` for units without any work, how many units there
//! are, and how many workers.
#![tactic(auto)]

mod program;
mod units;

ghost use Rattle.std.specs.Prelude.{◌≤◌, IfSome};

use crate::program::straight;
use crate::units::{Idle, judged};
use fsl_base::OpenGate;
use fsl_check::check_all;
use fsl_core::Verdict;
use std::alloc::{AllocError, Global};
use std::env;
use std::process::ExitCode;
use std::thread::Threads;

/// What the program is called with.
#[derive(Clone, Copy)]
struct Size {
    /// How many pairs the program has; nothing for units without work.
    pairs: Option<u32>,
    units: u32,
    workers: u32,
}

/// The three arguments, where there are 1 to 64 workers.
fn arguments(rt: &HostRuntime) -> Option<Size>
    ensures { IfSome result (λ size. (1 ≤ size.workers) × (size.workers ≤ 64)) }
{
    let mut args = env::args(rt).ok()?.skip(1);
    let pairs = args.next()?.parse::<u32>().ok();
    let units = args.next()?.parse::<u32>().ok()?;
    let workers = args.next()?.parse::<u32>().ok()?;
    if workers < 1 || 64 < workers {
        return None;
    }
    Some(Size {
        pairs,
        units,
        workers,
    })
}

/// The verdict on all units.
fn verdict<R: Threads + Sync>(rt: &R, alloc: Global, size: &Size) -> Result<Verdict, AllocError>
    requires { (1 ≤ size.now.workers) × (size.now.workers ≤ 64) }
{
    match size.pairs {
        None => check_all(
            rt,
            alloc,
            &Idle { units: size.units },
            size.workers,
            &OpenGate,
        ),
        Some(pairs) => {
            let program = straight(alloc, pairs)?;
            judged(rt, alloc, &program, size.units, size.workers)
        }
    }
}

fn main(rt: HostRuntime) -> ExitCode {
    let Some(size) = arguments(&rt) else {
        return ExitCode::from(2);
    };
    let Ok(verdict) = verdict(&rt, rt.alloc(), &size) else {
        return ExitCode::from(6);
    };
    let Size { units, workers, .. } = size;
    match verdict {
        Verdict::Failed { .. } => ExitCode::from(1),
        Verdict::Accepted { procs } => match println!(rt;
            "{units} units on {workers} workers: accepted {procs}"
        ) {
            Ok(()) => ExitCode::SUCCESS,
            Err(_) => ExitCode::from(5),
        },
    }
}
