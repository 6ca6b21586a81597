//! The least failing unit for one worker and for many, and units that wait for one another.
ghost use Rattle.std.specs.Prelude.{◌≤◌, ◌<◌, ◌^◌, length};

use crate::{Work, check_all};
use fsl_base::{Gate, OpenGate, Span, Spot};
use fsl_core::{Kind, Outcome, Verdict};
use std::alloc::{AllocError, Global};
use std::sync::atomic::Ordering::SeqCst;
use std::sync::atomic::{AtomicU32, AtomicU64};
use std::test::Fail;
use std::thread;
use std::thread::Threads;

/// How often a held unit looks whether the others have begun.
const TURNS: u32 = 100_000_000;

// Units whose outcomes are known.
#[derive(Clone, Copy)]
struct Known<'a> {
    outcomes: &'a [Outcome],
    ghost short: { length outcomes.now < 2 ^ 32 },
}

impl<'a> Work for Known<'a> {
    ghost outcomes = { λ known. known.outcomes.now };

    fn units(&self) -> u32 {
        self.outcomes.len() as u32
    }

    fn outcome(&self, _alloc: Global, unit: u32) -> Result<Outcome, AllocError> {
        let Some(outcome) = self.outcomes.get(unit as usize) else {
            unreachable!()
        };
        Ok(*outcome)
    }
}

fn units_with<'a>(outcomes: &'a [Outcome]) -> Known<'a>
    requires { length outcomes.now < 2 ^ 32 }
{
    Known { outcomes }
}

fn fails(proc: u32) -> Outcome {
    Outcome::Fails {
        proc,
        span: Span { from: proc, to: 99 },
        kind: Kind::Assert,
    }
}

fn check_forty<R: Threads + Sync>(
    rt: &R,
    alloc: Global,
    workers: u32,
) -> Result<Verdict, AllocError>
    requires { (1 ≤ workers) × (workers ≤ 64) }
{
    let mut outcomes = [Outcome::Derived { paths: 1 }; 40];
    outcomes[8] = fails(8);
    outcomes[29] = fails(29);
    check_all(rt, alloc, &units_with(&outcomes), workers, &OpenGate)
}

#[test]
fn the_lesser_failure_is_named_for_every_number_of_workers(rt: HostRuntime) -> Result<(), Fail> {
    let lesser = Verdict::Failed {
        proc: 8,
        span: Span { from: 8, to: 99 },
        kind: Kind::Assert,
    };
    assert!(rt; check_forty(&rt, rt.alloc(), 1)? == lesser);
    assert!(rt; check_forty(&rt, rt.alloc(), 8)? == lesser);
    assert!(rt; check_forty(&rt, rt.alloc(), 64)? == lesser);
    Ok(())
}

// A gate that holds one unit of four until the other three have begun.
#[derive(Drop)]
struct HoldsOne {
    held: u32,
    others: AtomicU64,
    calls: [AtomicU32; 4],
    in_vain: AtomicU32,
}

impl Gate for HoldsOne {
    fn before(&self, spot: Spot) {
        let Spot::Unit { number } = spot else {
            return;
        };
        if let Some(calls) = self.calls.get(number as usize) {
            calls.fetch_add(1, SeqCst);
        }
        if number != self.held {
            self.others.fetch_add(1, SeqCst);
            return;
        }
        for _ in 0..TURNS {
            if self.others.load(SeqCst) >= 3 {
                return;
            }
            thread::yield_now();
        }
        self.in_vain.store(1, SeqCst);
    }
}

fn gate_that_holds(held: u32) -> HoldsOne {
    HoldsOne {
        held,
        others: AtomicU64::new(0),
        calls: [
            AtomicU32::new(0),
            AtomicU32::new(0),
            AtomicU32::new(0),
            AtomicU32::new(0),
        ],
        in_vain: AtomicU32::new(0),
    }
}

#[test]
fn each_unit_is_held_until_the_others_have_begun(rt: HostRuntime) -> Result<(), Fail> {
    let outcomes = [Outcome::Derived { paths: 1 }; 4];
    for held in 0..4u32 {
        let gate = gate_that_holds(held);
        let verdict = check_all(&rt, rt.alloc(), &units_with(&outcomes), 2, &gate)?;
        assert!(rt;
            gate.in_vain.load(SeqCst) == 0,
            "unit {held} waited in vain"
        );
        assert!(rt; verdict == Verdict::Accepted { procs: 4 });
        for calls in &gate.calls {
            assert!(rt;
                calls.load(SeqCst) == 1,
                "the gate was not called once for each unit"
            );
        }
    }
    Ok(())
}
