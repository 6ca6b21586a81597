//! Arguments of calls, and procedures and threads that start with them.
ghost use Rattle.std.specs.Prelude.{◌≡◌, ◌==◌, ◌++◌, ◌-◌, length, replicate, pos, slice_get, IfOk};
ghost use Rattle.std.specs.List.{list_any};
ghost use Rattle.std.specs.Option.{is_some, option_map};
ghost use Rattle.fsl_core.specs.Moves.{argument, arguments_from, arguments_of, started_of, entered};
ghost use Rattle.fsl_moves.specs.Config.{frame_of};

use crate::config::Frame;
use fsl_base::List;
use fsl_core::{Called, Expr, Program, Started, eval};
use std::alloc::{AllocError, Global};

/// Whether a slot is among those of banks.
fn is_bank(banks: &[u32], slot: usize) -> bool
    ensures { result ≡ list_any (λ bank. bank == slot) banks.now }
{
    for bank in banks {
        if *bank as usize == slot {
            return true;
        }
    }
    false
}

/// The value of an argument; that of a bank is 0.
fn argument(bank: bool, e: &Expr, env: &List<i64>) -> Option<i64>
    ensures { result ≡ argument bank e.now env.now }
{
    if bank { Some(0) } else { eval(e, env) }
}

/// The values of arguments, `None` where one has none.
fn arguments_from(
    alloc: Global,
    banks: &[u32],
    args: &[Expr],
    env: &List<i64>,
) -> Result<Option<List<i64>>, AllocError>
    ensures { IfOk result (λ vs. vs ≡ arguments_from banks.now 0 args.now env.now) }
{
    let mut values = List::new(alloc);
    for slot in 0..args.len() {
        match argument(is_bank(banks, slot), &args[slot], env) {
            Some(value) => values.push(value)?,
            None => return Ok(None),
        }
    }
    Ok(Some(values))
}

/// Whether all arguments have values. It takes no memory.
fn have_values(banks: &[u32], args: &[Expr], env: &List<i64>) -> bool
    ensures { result ≡ is_some (arguments_from banks.now 0 args.now env.now) }
{
    for slot in 0..args.len() {
        if argument(is_bank(banks, slot), &args[slot], env).is_none() {
            return false;
        }
    }
    true
}

/// The values of the arguments of a call; `None` also where there is no such procedure.
pub fn arguments(
    alloc: Global,
    p: &Program,
    proc: u32,
    args: &[Expr],
    env: &List<i64>,
) -> Result<Option<List<i64>>, AllocError>
    ensures { IfOk result (λ vs. vs ≡ arguments_of (slice_get p.now.procs proc) args.now env.now) }
{
    match p.procs().get(proc as usize) {
        Some(proc) => arguments_from(alloc, proc.banks.as_slice(), args, env),
        None => Ok(None),
    }
}

/// Whether a call can be made. It takes no memory.
fn is_possible(p: &Program, call: &Called, env: &List<i64>) -> bool
    ensures { result ≡ is_some (arguments_of (slice_get p.now.procs call.now.proc) call.now.args env.now) }
{
    match p.procs().get(call.proc as usize) {
        Some(proc) => have_values(proc.banks.as_slice(), call.args.as_slice(), env),
        None => false,
    }
}

/// Whether calls can be made. It takes no memory.
pub fn are_possible(p: &Program, calls: &[Called], env: &List<i64>) -> bool
    ensures { result ≡ is_some (started_of p.now calls.now env.now) }
{
    for call in calls {
        if !is_possible(p, call, env) {
            return false;
        }
    }
    true
}

/// The threads that calls start, `None` where one can't be made.
pub fn started(
    alloc: Global,
    p: &Program,
    calls: &[Called],
    env: &List<i64>,
) -> Result<Option<List<Started>>, AllocError>
    ensures { IfOk result (λ threads. threads ≡ started_of p.now calls.now env.now) }
{
    let mut threads = List::new(alloc);
    for call in calls {
        let proc = call.proc;
        match arguments(alloc, p, proc, call.args.as_slice(), env)? {
            Some(args) => threads.push(Started { proc, args })?,
            None => return Ok(None),
        }
    }
    Ok(Some(threads))
}

/// The values of the variables of a procedure that starts with these arguments; the others are 0.
fn filled(args: List<i64>, slots: u32) -> Result<List<i64>, AllocError>
    ensures { IfOk result (λ env. env ≡ args ++ replicate (slots - length args) (pos 0)) }
{
    let mut env = args;
    for _slot in env.len()..slots as usize {
        env.push(0)?;
    }
    Ok(env)
}

/// A procedure that starts with these arguments, `None` where there is none.
pub fn entered(
    alloc: Global,
    p: &Program,
    proc: u32,
    args: List<i64>,
    target: Option<u32>,
) -> Result<Option<Frame>, AllocError>
    ensures { IfOk result (λ f. option_map (frame_of p.now) f ≡ entered (slice_get p.now.procs proc) args target) }
{
    let Some(declared) = p.procs().get(proc as usize) else {
        return Ok(None);
    };
    let env = filled(args, declared.slots)?;
    Ok(Some(Frame {
        proc,
        path: Vec::new(alloc),
        at: 0,
        env,
        target,
    }))
}
