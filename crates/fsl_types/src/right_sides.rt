//! What stands to the right of an assignment, over numbered variables and with its faults. It is defined with
//! the statements, in `specs/Statements.antt`.
ghost use Rattle.std.specs.Prelude.{◌≡◌, IfOk, OnOk};
ghost use Rattle.std.specs.Option.{option_copied};
ghost use Rattle.fsl_core.specs.declared.act.Act.TheVariants as act;
ghost use Rattle.fsl_types.specs.declared.occurrence.Access.TheVariants as accesses;
ghost use Rattle.fsl_types.specs.Expressions.{expression_of, judged_number, judged_use, number_of, numbered_arguments, sight_of, signature_at};
ghost use Rattle.fsl_types.specs.Given.{given_of};
ghost use Rattle.fsl_types.specs.Statements.{allocation_of, is_mint, is_rmw, judged_allocation, judged_mode, judged_right_side, judged_step, judged_steps, mode_of, right_side_of, seen, step_of, steps_of, updated};
ghost use Rattle.fsl_types.specs.Resolvers.{judging};

use crate::fault::Fault;
use crate::given::Globals;
use crate::numbering::number_of;
use crate::occurrence::{Access, Due, Occurrence};
use crate::resolver::Resolver;
use crate::rules::note;
use crate::scope::Scope;
use fsl_base::List;
use fsl_core::{Act, Expr, Mode, Step};
use fsl_tree::{Allocation, Expression, RightSide, SharedCell, StepWord, UpdateWord, Use, With};
use std::alloc::{AllocError, Global};

/// A mode.
pub fn mode(tree: fsl_tree::Mode) -> Mode
    ensures { result ≡ mode_of tree }
{
    match tree {
        fsl_tree::Mode::NonAtomic { .. } => Mode::Na,
        fsl_tree::Mode::Relaxed { .. } => Mode::Rlx,
        fsl_tree::Mode::Acquire { .. } => Mode::Acq,
        fsl_tree::Mode::Release { .. } => Mode::Rel,
        fsl_tree::Mode::AcquireRelease { .. } => Mode::AcqRel,
    }
}

/// The fault of a mode that an access doesn't have.
pub fn judge_mode(
    faults: &mut List<Fault>,
    access: Access,
    mode: fsl_tree::Mode,
) -> Result<(), AllocError>
    ensures { OnOk result (faults.new ≡ judged_mode access mode faults.old) }
{
    note(faults, Occurrence::Moded { access, mode })
}

/// The faults of the modes of a compare-exchange.
fn judge_modes(
    faults: &mut List<Fault>,
    success: fsl_tree::Mode,
    failure: fsl_tree::Mode,
) -> Result<(), AllocError>
    ensures { OnOk result (faults.new ≡ judged_mode accesses.Failure failure (judged_mode accesses.Update success faults.old)) }
{
    judge_mode(faults, Access::Update, success)?;
    judge_mode(faults, Access::Failure, failure)
}

fn is_mint(word: StepWord) -> bool
    ensures { result ≡ is_mint word }
{
    matches!(word, StepWord::Mint { .. })
}

fn is_rmw(cell: SharedCell) -> bool
    ensures { result ≡ is_rmw cell }
{
    matches!(cell, SharedCell::Rmw { .. })
}

/// `fetch_add` and `exchange`
fn updated(word: UpdateWord, slot: u32, mode: Mode, at: Expr, e: Expr, steps: List<Step>) -> Act
    ensures { result ≡ updated word slot mode at e steps }
{
    match word {
        UpdateWord::FetchAdd { .. } => Act::Add {
            slot,
            mode,
            at,
            e,
            steps,
        },
        UpdateWord::Exchange { .. } => Act::Swap {
            slot,
            mode,
            at,
            e,
            steps,
        },
    }
}

impl<'s, 'a> Scope<'s, 'a> {
    /// A step of tokens.
    pub fn step(&self, alloc: Global, tree: &fsl_tree::Step) -> Result<Step, AllocError>
        ensures { IfOk result (λ s. s ≡ step_of self.now.bytes.now self.now.names.now tree.now) }
    {
        Ok(Step {
            mint: is_mint(tree.word),
            bank: self.slot(tree.bank),
            n: self.expression(alloc, &tree.amount)?,
        })
    }

    /// The steps of a read-modify-write.
    fn steps(&self, alloc: Global, tree: &Option<With>) -> Result<List<Step>, AllocError>
        ensures { IfOk result (λ list. list ≡ steps_of self.now.bytes.now self.now.names.now tree.now) }
    {
        let mut list = List::new(alloc);
        if let Some(along) = tree {
            for line in along.steps.as_slice() {
                list.push(self.step(alloc, &line.step)?)?;
            }
        }
        Ok(list)
    }

    /// The faults of a step of tokens.
    pub fn judge_step(
        &self,
        faults: &mut List<Fault>,
        tree: &fsl_tree::Step,
    ) -> Result<(), AllocError>
        ensures { OnOk result (faults.new ≡ judged_step (sight_of self.now) tree.now faults.old) }
    {
        self.judge_name(Due::Bank, faults, tree.bank)?;
        self.judge_number(faults, &tree.amount)
    }

    /// The faults of the steps of a read-modify-write.
    fn judge_steps(&self, faults: &mut List<Fault>, tree: &Option<With>) -> Result<(), AllocError>
        ensures { OnOk result (faults.new ≡ judged_steps (sight_of self.now) tree.now faults.old) }
    {
        if let Some(along) = tree {
            for line in along.steps.as_slice() {
                self.judge_step(faults, &line.step)?;
            }
        }
        Ok(())
    }

    /// The faults of two operands and of the steps behind them.
    fn judge_operands(
        &self,
        faults: &mut List<Fault>,
        operands: (&Expression, &Expression),
        along: &Option<With>,
    ) -> Result<(), AllocError>
        ensures { OnOk result (faults.new ≡ judged_steps (sight_of self.now) along.now (judged_number (sight_of self.now) operands.entry.1.now (judged_number (sight_of self.now) operands.entry.0.now faults.old))) }
    {
        let (first, second) = operands;
        self.judge_number(faults, first)?;
        self.judge_number(faults, second)?;
        self.judge_steps(faults, along)
    }

    /// The faults of a compare-exchange.
    fn judge_compare_and_swap(
        &self,
        faults: &mut List<Fault>,
        modes: (fsl_tree::Mode, fsl_tree::Mode),
        operands: (&Expression, &Expression, &Expression),
        along: &Option<With>,
    ) -> Result<(), AllocError>
        ensures { OnOk result (faults.new ≡ judged_steps (sight_of self.now) along.now (judged_number (sight_of self.now) operands.entry.2.now (judged_number (sight_of self.now) operands.entry.1.now (judged_number (sight_of self.now) operands.entry.0.now (judged_mode accesses.Failure modes.1 (judged_mode accesses.Update modes.0 faults.old)))))) }
    {
        let (success, failure) = modes;
        let (location, expected, new) = operands;
        judge_modes(faults, success, failure)?;
        self.judge_number(faults, location)?;
        self.judge_operands(faults, (expected, new), along)
    }

    /// A compare-exchange.
    fn compare_and_swap(
        &self,
        alloc: Global,
        slot: u32,
        modes: (Mode, Mode),
        operands: (&Expression, &Expression, &Expression),
        along: &Option<With>,
    ) -> Result<Act, AllocError>
        ensures { IfOk result (λ a. a ≡ act.Cas slot modes.0 modes.1 (expression_of self.now.bytes.now self.now.names.now operands.entry.0.now) (expression_of self.now.bytes.now self.now.names.now operands.entry.1.now) (expression_of self.now.bytes.now self.now.names.now operands.entry.2.now) (steps_of self.now.bytes.now self.now.names.now along.now)) }
    {
        let (location, expected, new) = operands;
        let at = self.expression(alloc, location)?;
        let old = self.expression(alloc, expected)?;
        let new = self.expression(alloc, new)?;
        let steps = self.steps(alloc, along)?;
        let (mode, fail) = modes;
        Ok(Act::Cas {
            slot,
            mode,
            fail,
            at,
            old,
            new,
            steps,
        })
    }

    /// Another read-modify-write.
    fn update(
        &self,
        alloc: Global,
        word: UpdateWord,
        slot: u32,
        mode: Mode,
        operands: (&Expression, &Expression),
        along: &Option<With>,
    ) -> Result<Act, AllocError>
        ensures { IfOk result (λ a. a ≡ updated word slot mode (expression_of self.now.bytes.now self.now.names.now operands.entry.0.now) (expression_of self.now.bytes.now self.now.names.now operands.entry.1.now) (steps_of self.now.bytes.now self.now.names.now along.now)) }
    {
        let (location, operand) = operands;
        let at = self.expression(alloc, location)?;
        let e = self.expression(alloc, operand)?;
        let steps = self.steps(alloc, along)?;
        Ok(updated(word, slot, mode, at, e, steps))
    }
}

impl<'a> Resolver<'a> {
    /// A call of a procedure: its number and its arguments.
    pub fn call(
        &mut self,
        alloc: Global,
        globals: &Globals<'a>,
        tree: &Use,
    ) -> Result<(u32, List<Expr>), AllocError>
        ensures made { IfOk result (λ c. c ≡ (number_of (signature_at globals.now.bytes.now globals.now.procedures tree.now.name), numbered_arguments globals.now.bytes.now self.old.names tree.now.arguments)) }
        ensures resolver { OnOk result (self.new ≡ judging (judged_use (seen (given_of globals.now) self.old) (signature_at globals.now.bytes.now globals.now.procedures tree.now.name) tree.now) self.old) }
    {
        let scope = globals.scope(&self.names, false);
        let signature = globals.procedure(tree.name);
        scope.judge_use(&mut self.faults, signature, tree)?;
        let args = scope.arguments(alloc, &tree.arguments)?;
        Ok((number_of(signature), args))
    }

    /// An allocation.
    fn allocation(
        &mut self,
        alloc: Global,
        globals: &Globals<'a>,
        slot: u32,
        tree: &Allocation,
    ) -> Result<Act, AllocError>
        ensures made { IfOk result (λ a. a ≡ allocation_of (given_of globals.now) self.old.names slot tree.now) }
        ensures resolver { OnOk result (self.new ≡ judging (judged_allocation (given_of globals.now) (seen (given_of globals.now) self.old) tree.now) self.old) }
    {
        match tree {
            Allocation::NonAtomic { .. } => Ok(Act::AllocNa { slot }),
            Allocation::Shared { cell, invariant } => {
                let scope = globals.scope(&self.names, false);
                let signature = globals.invariant(invariant.name);
                scope.judge_use(&mut self.faults, signature, invariant)?;
                Ok(Act::AllocAt {
                    slot,
                    rmw: is_rmw(*cell),
                    inst: scope.instance(alloc, signature, invariant)?,
                })
            }
        }
    }

    /// A load.
    fn load(
        &mut self,
        alloc: Global,
        globals: &Globals<'a>,
        slot: u32,
        how: fsl_tree::Mode,
        location: &Expression,
    ) -> Result<Act, AllocError>
        ensures made { IfOk result (λ a. a ≡ act.Load slot (mode_of how) (expression_of globals.now.bytes.now self.old.names location.now)) }
        ensures resolver { OnOk result (self.new ≡ judging (λ faults. judged_number (seen (given_of globals.now) self.old) location.now (judged_mode accesses.Load how faults)) self.old) }
    {
        let scope = globals.scope(&self.names, false);
        judge_mode(&mut self.faults, Access::Load, how)?;
        scope.judge_number(&mut self.faults, location)?;
        let at = scope.expression(alloc, location)?;
        Ok(Act::Load {
            slot,
            mode: mode(how),
            at,
        })
    }

    /// A compare-exchange.
    fn compare_and_swap(
        &mut self,
        alloc: Global,
        globals: &Globals<'a>,
        slot: u32,
        modes: (fsl_tree::Mode, fsl_tree::Mode),
        operands: (&Expression, &Expression, &Expression),
        along: &Option<With>,
    ) -> Result<Act, AllocError>
        ensures made { IfOk result (λ a. a ≡ act.Cas slot (mode_of modes.0) (mode_of modes.1) (expression_of globals.now.bytes.now self.old.names operands.entry.0.now) (expression_of globals.now.bytes.now self.old.names operands.entry.1.now) (expression_of globals.now.bytes.now self.old.names operands.entry.2.now) (steps_of globals.now.bytes.now self.old.names along.now)) }
        ensures resolver { OnOk result (self.new ≡ judging (λ faults. judged_steps (seen (given_of globals.now) self.old) along.now (judged_number (seen (given_of globals.now) self.old) operands.entry.2.now (judged_number (seen (given_of globals.now) self.old) operands.entry.1.now (judged_number (seen (given_of globals.now) self.old) operands.entry.0.now (judged_mode accesses.Failure modes.1 (judged_mode accesses.Update modes.0 faults)))))) self.old) }
    {
        let scope = globals.scope(&self.names, false);
        let (success, failure) = modes;
        scope.judge_compare_and_swap(&mut self.faults, modes, operands, along)?;
        let modes = (mode(success), mode(failure));
        scope.compare_and_swap(alloc, slot, modes, operands, along)
    }

    /// Another read-modify-write.
    fn update(
        &mut self,
        alloc: Global,
        globals: &Globals<'a>,
        word: UpdateWord,
        slot: u32,
        how: fsl_tree::Mode,
        operands: (&Expression, &Expression),
        along: &Option<With>,
    ) -> Result<Act, AllocError>
        ensures made { IfOk result (λ a. a ≡ updated word slot (mode_of how) (expression_of globals.now.bytes.now self.old.names operands.entry.0.now) (expression_of globals.now.bytes.now self.old.names operands.entry.1.now) (steps_of globals.now.bytes.now self.old.names along.now)) }
        ensures resolver { OnOk result (self.new ≡ judging (λ faults. judged_steps (seen (given_of globals.now) self.old) along.now (judged_number (seen (given_of globals.now) self.old) operands.entry.1.now (judged_number (seen (given_of globals.now) self.old) operands.entry.0.now (judged_mode accesses.Update how faults)))) self.old) }
    {
        let scope = globals.scope(&self.names, false);
        judge_mode(&mut self.faults, Access::Update, how)?;
        scope.judge_operands(&mut self.faults, operands, along)?;
        scope.update(alloc, word, slot, mode(how), operands, along)
    }

    /// What sets the variable of a slot.
    pub fn right_side(
        &mut self,
        alloc: Global,
        globals: &Globals<'a>,
        slot: u32,
        tree: &RightSide,
    ) -> Result<Act, AllocError>
        ensures made { IfOk result (λ a. a ≡ right_side_of (given_of globals.now) self.old.names slot tree.now) }
        ensures resolver { OnOk result (self.new ≡ judging (judged_right_side (given_of globals.now) (seen (given_of globals.now) self.old) tree.now) self.old) }
    {
        match tree {
            RightSide::Value { value } => {
                let scope = globals.scope(&self.names, false);
                scope.judge_number(&mut self.faults, value)?;
                let e = scope.expression(alloc, value)?;
                Ok(Act::Set { slot, e })
            }
            RightSide::Call { callee, .. } => {
                let (proc, args) = self.call(alloc, globals, callee)?;
                Ok(Act::Call {
                    slot: Some(slot),
                    proc,
                    args,
                })
            }
            RightSide::Allocate { allocation, .. } => {
                self.allocation(alloc, globals, slot, allocation)
            }
            RightSide::Load { mode, location, .. } => self.load(
                alloc, globals, slot, *mode, location,
            ),
            RightSide::CompareAndSwap {
                success,
                failure,
                location,
                expected,
                new,
                with,
                ..
            } => {
                let modes = (*success, *failure);
                let operands = (location, expected, new);
                self.compare_and_swap(alloc, globals, slot, modes, operands, with)
            }
            RightSide::Update {
                word,
                mode,
                location,
                operand,
                with,
                ..
            } => {
                let operands = (location, operand);
                self.update(alloc, globals, *word, slot, *mode, operands, with)
            }
        }
    }
}
