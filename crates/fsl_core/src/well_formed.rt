//! Whether invariants and procedures are a well-formed program. The check takes no memory. It looks at each
//! contract once, however often `par` uses it, so that its time is in proportion to the program's size.
ghost use Rattle.std.specs.Prelude.{◌≡◌, slice_get};
ghost use Rattle.std.specs.List.{list_all};
ghost use Rattle.fsl_core.specs.Marks.{AreMarked};
ghost use Rattle.fsl_core.specs.Programs.{named_from};
ghost use Rattle.fsl_core.specs.WellFormed.{asrt_fits, is_load_mode, is_store_mode, is_update_mode, is_failure_mode, is_fence_mode, proc_is_plain, call_fits, child_fits, is_par_size, act_fits, stmt_fits, proc_fits, inv_is_well, proc_is_well, is_startable, main_among, is_well_formed};

use crate::act::{Act, Called, Stmt};
use crate::assertion::Asrt;
use crate::declaration::{Inv, Proc};
use crate::expr::Expr;
use crate::fitting::{asrt_fits, inst_fits, inv_fits, is_plain};
use crate::mode::Mode;
use crate::straight::is_emp;
use crate::well_scoped::{inv_is_scoped, proc_is_scoped};
use std::marker::Model;

/// How many procedures have a mark: as many as a file may declare.
const MARKED: usize = 4096;

/// What the statements of a program are checked against.
#[derive(Drop)]
struct Given<'a> {
    invs: &'a [Inv],
    procs: &'a [Proc],
    /// Which of the first procedures have contracts without modalities.
    plain: &'a [bool],
}

impl<'a> Model for Given<'a> {
    ghost use Rattle.std.specs.Coded.{codes};
    ghost use Rattle.fsl_core.specs.contracts.declaration.Inv as inv;
    ghost use Rattle.fsl_core.specs.contracts.declaration.Proc as proc;
    ghost use Rattle.fsl_core.specs.Programs as programs;

    ghost Value = { programs.Program };

    ghost coded = { Prim.hlevel (codes, inv.the_row.coded, proc.the_row.coded) };

    ghost use Rattle.fsl_core.specs.Marks.{AreMarked};

    ghost view = { λ g. record { invs = g.invs.now; procs = g.procs.now } };

    ghost invariant = { λ g. AreMarked g.invs.now g.procs.now g.plain.now };
}

fn is_load_mode(mode: Mode) -> bool
    ensures { result ≡ is_load_mode mode }
{
    match mode {
        Mode::Na | Mode::Rlx | Mode::Acq => true,
        _ => false,
    }
}

fn is_store_mode(mode: Mode) -> bool
    ensures { result ≡ is_store_mode mode }
{
    match mode {
        Mode::Na | Mode::Rlx | Mode::Rel => true,
        _ => false,
    }
}

fn is_update_mode(mode: Mode) -> bool
    ensures { result ≡ is_update_mode mode }
{
    mode != Mode::Na
}

fn is_failure_mode(mode: Mode) -> bool
    ensures { result ≡ is_failure_mode mode }
{
    match mode {
        Mode::Rlx | Mode::Acq => true,
        _ => false,
    }
}

fn is_fence_mode(mode: Mode) -> bool
    ensures { result ≡ is_fence_mode mode }
{
    match mode {
        Mode::Acq | Mode::Rel | Mode::AcqRel => true,
        _ => false,
    }
}

/// Whether a `par` may have so many calls.
fn is_par_size(calls: usize) -> bool
    ensures { result ≡ is_par_size calls }
{
    2 <= calls && calls <= 8
}

impl<'a> Given<'a> {
    /// Whether there is the procedure, with so many parameters.
    fn call_fits(&self, proc: u32, args: &[Expr]) -> bool
        ensures { result ≡ call_fits self.now proc args.now }
    {
        match self.procs.get(proc as usize) {
            Some(proc) => proc.params as usize == args.len(),
            None => false,
        }
    }

    /// Whether there is the procedure, and its contract is without modalities.
    fn is_plain(&self, proc: u32) -> bool
        ensures { result ≡ proc_is_plain self.now.invs (slice_get self.now.procs proc) }
    {
        let proc = proc as usize;
        match self.procs.get(proc) {
            Some(_) if proc < MARKED => self.plain[proc],
            Some(proc) => is_plain(self.invs, proc),
            None => false,
        }
    }

    /// Whether a call may be run as a thread.
    fn child_fits(&self, call: &Called) -> bool
        ensures { result ≡ child_fits self.now call.now }
    {
        self.call_fits(call.proc, call.args.as_slice()) && self.is_plain(call.proc)
    }

    /// Whether calls may be run as threads.
    fn children_fit(&self, calls: &[Called]) -> bool
        ensures { result ≡ list_all (child_fits self.now) calls.now }
    {
        for call in calls {
            if !self.child_fits(call) {
                return false;
            }
        }
        true
    }

    /// Whether an assertion fits, where modalities may stand or not.
    fn asrt_fits(&self, asrt: &Asrt, modal: bool) -> bool
        ensures { result ≡ asrt_fits self.now.invs asrt.now modal }
    {
        asrt_fits(self.invs, asrt, modal)
    }

    /// Whether a statement fits.
    #[cycle(act_fits)]
    fn act_fits(&self, act: &Act) -> bool
        ensures { result ≡ act_fits self.now act.now }
    {
        match act {
            Act::AllocAt { inst, .. } => inst_fits(self.invs, inst),
            Act::Load { mode, .. } => is_load_mode(*mode),
            Act::Store { mode, .. } => is_store_mode(*mode),
            Act::Cas { mode, fail, .. } => is_update_mode(*mode) && is_failure_mode(*fail),
            Act::Add { mode, .. } => is_update_mode(*mode),
            Act::Swap { mode, .. } => is_update_mode(*mode),
            Act::Call { proc, args, .. } => self.call_fits(*proc, args.as_slice()),
            Act::Par { calls } => is_par_size(calls.len()) && self.children_fit(calls.as_slice()),
            Act::Fence { mode, asrt } => is_fence_mode(*mode) && self.asrt_fits(asrt, false),
            Act::If { yes, no, .. } => {
                self.block_fits(yes.as_slice()) && self.block_fits(no.as_slice())
            }
            Act::While { inv, body, .. } => {
                self.asrt_fits(inv, true) && self.block_fits(body.as_slice())
            }
            _ => true,
        }
    }

    /// Whether all statements fit.
    #[cycle(act_fits)]
    fn block_fits(&self, stmts: &[Stmt]) -> bool
        ensures { result ≡ list_all (stmt_fits self.now) stmts.now }
    {
        for stmt in stmts {
            if !self.act_fits(&stmt.act) {
                return false;
            }
        }
        true
    }

    /// Whether a procedure fits.
    fn proc_fits(&self, proc: &Proc) -> bool
        ensures { result ≡ proc_fits self.now proc.now }
    {
        self.asrt_fits(&proc.pre, true)
            && self.asrt_fits(&proc.post, true)
            && self.block_fits(proc.body.as_slice())
    }

    /// Whether a procedure fits, and its variables are scoped.
    fn proc_is_well(&self, proc: &Proc) -> bool
        ensures { result ≡ proc_is_well self.now proc.now }
    {
        self.proc_fits(proc) && proc_is_scoped(self.procs, proc)
    }

    /// The same of all procedures.
    fn procs_are_well(&self) -> bool
        ensures { result ≡ list_all (proc_is_well self.now) self.now.procs }
    {
        for proc in self.procs {
            if !self.proc_is_well(proc) {
                return false;
            }
        }
        true
    }
}

/// Whether all invariants fit, and their variables are scoped.
fn invs_are_well(invs: &[Inv]) -> bool
    ensures { result ≡ list_all (inv_is_well invs.now) invs.now }
{
    for inv in invs {
        if !(inv_fits(invs, inv) && inv_is_scoped(inv)) {
            return false;
        }
    }
    true
}

/// The number of the procedure that a run starts: the first that is named `main`.
fn main_of(procs: &[Proc]) -> Option<usize>
    ensures { result ≡ named_from 0 procs.now }
{
    for (number, proc) in procs.iter().enumerate() {
        if proc.name.as_str() == "main" {
            return Some(number);
        }
    }
    None
}

/// Whether there is a procedure that a run may start.
fn has_main(procs: &[Proc]) -> bool
    ensures { result ≡ is_startable (main_among procs.now) }
{
    match main_of(procs) {
        Some(number) => match procs.get(number) {
            Some(main) => main.params == 0 && is_emp(&main.pre),
            None => false,
        },
        None => false,
    }
}

/// Which of the first procedures have contracts without modalities.
fn marks_of(invs: &[Inv], procs: &[Proc]) -> [bool; MARKED]
    ensures { AreMarked invs.now procs.now result }
{
    let mut marks = [false; MARKED];
    let mut at = 0;
    while at < procs.len() && at < MARKED {
        marks[at] = is_plain(invs, &procs[at]);
        at += 1;
    }
    marks
}

/// Whether invariants and procedures are a well-formed program.
pub(crate) fn is_well_formed(invs: &[Inv], procs: &[Proc]) -> bool
    ensures { result ≡ is_well_formed (record { invs = invs.now; procs = procs.now }) }
{
    let plain = marks_of(invs, procs);
    let given = Given {
        invs,
        procs,
        plain: &plain,
    };
    invs_are_well(invs) && given.procs_are_well() && has_main(procs)
}
