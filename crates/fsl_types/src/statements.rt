//! Statements over numbered variables, with the variables that they declare and their faults.
ghost use Rattle.std.specs.Prelude.{◌≡◌, IfOk, IsTrue, OnOk, map};
ghost use Rattle.std.specs.Option.{option_copied};
ghost use Rattle.fsl_core.specs.declared.act.Act.TheVariants as act;
ghost use Rattle.fsl_types.specs.declared.occurrence.Access.TheVariants as accesses;
ghost use Rattle.fsl_types.specs.declared.occurrence.Due.TheVariants as due;
ghost use Rattle.fsl_types.specs.declared.variable.Sort.TheVariants as sorts;
ghost use Rattle.fsl_types.specs.Assertions.{apart, clause};
ghost use Rattle.fsl_types.specs.Expressions.{expression_of, in_turn, judged_name, judged_number};
ghost use Rattle.fsl_types.specs.Given.{given_of};
ghost use Rattle.fsl_types.specs.Names.{slot_at};
ghost use Rattle.fsl_types.specs.Statements.{block, called, fence, in_loop_invariant, is_effect, is_modal, is_simple, is_unnamed, judged_call, judged_mode, judged_parallel, judged_return, judged_right_side, judged_step, mode_of, release_mode, returned, right_side_of, run_each, seen, statement, step_of, step_place, stmt};
ghost use Rattle.fsl_types.specs.Resolvers.{declared, judging};

use crate::given::{Globals, Setting};
use crate::occurrence::{Access, Due, Occurrence};
use crate::resolver::Resolver;
use crate::right_sides::{judge_mode, mode};
use crate::variable::{Signature, Sort};
use fsl_base::{List, Span};
use fsl_core::{Act, Asrt, Called, Cond, Expr, Mode, Stmt};
use fsl_tree::{
    Block, Clause, Expression, FenceKind, ParallelCall, ReleaseWord, RightSide, Statement, StepWord,
};
use std::alloc::{AllocError, Global};

/// A statement, from its first token to its last.
fn stmt(first: Span, last: Span, act: Act) -> Stmt
    ensures { result ≡ stmt first last act }
{
    Stmt {
        span: Span {
            from: first.from,
            to: last.to,
        },
        act,
    }
}

fn step_place(word: StepWord) -> Span
    ensures { result ≡ step_place word }
{
    match word {
        StepWord::Mint { place } | StepWord::Burn { place } => place,
    }
}

fn release_mode(word: ReleaseWord) -> Mode
    ensures { result ≡ release_mode word }
{
    match word {
        ReleaseWord::Release { .. } => Mode::Rel,
        ReleaseWord::AcquireRelease { .. } => Mode::AcqRel,
    }
}

/// Whether the contract of a procedure has a modality.
fn is_modal(signature: Option<&Signature>) -> bool
    ensures { result ≡ is_modal (option_copied signature.entry) }
{
    match signature {
        Some(known) => known.modal,
        None => false,
    }
}

impl<'a> Resolver<'a> {
    /// `let`: the right side is read before its name is declared.
    fn let_act(
        &mut self,
        alloc: Global,
        globals: &Globals<'a>,
        name: Span,
        right: &RightSide,
    ) -> Result<Act, AllocError>
        ensures made { IfOk result (λ a. a ≡ right_side_of (given_of globals.now) self.old.names self.old.slots right.now) }
        ensures resolver { OnOk result (self.new ≡ declared 256 globals.now.bytes.now name sorts.Local (judging (judged_right_side (given_of globals.now) (seen (given_of globals.now) self.old) right.now) self.old)) }
    {
        let act = self.right_side(alloc, globals, self.slots, right)?;
        self.declare_with(globals.bytes, name, act)
    }

    /// Declares the variable that an act sets, and gives the act back.
    fn declare_with(&mut self, bytes: &'a [u8], name: Span, act: Act) -> Result<Act, AllocError>
        ensures made { IfOk result (λ a. a ≡ act) }
        ensures resolver { OnOk result (self.new ≡ declared 256 bytes.now name sorts.Local self.old) }
    {
        // (without a branch: the layout of an act on two ways at once outgrows the memory of the check)
        self.declare(bytes, name, Sort::Local, 256).and(Ok(act))
    }

    /// An assignment.
    fn assignment(
        &mut self,
        alloc: Global,
        globals: &Globals<'a>,
        name: Span,
        right: &RightSide,
    ) -> Result<Act, AllocError>
        ensures made { IfOk result (λ a. a ≡ right_side_of (given_of globals.now) self.old.names (slot_at globals.now.bytes.now self.old.names name) right.now) }
        ensures resolver { OnOk result (self.new ≡ judging (λ faults. judged_right_side (given_of globals.now) (seen (given_of globals.now) self.old) right.now (judged_name (seen (given_of globals.now) self.old) due.Target name faults)) self.old) }
    {
        let scope = globals.scope(&self.names, false);
        scope.judge_name(Due::Target, &mut self.faults, name)?;
        let slot = scope.slot(name);
        self.right_side(alloc, globals, slot, right)
    }

    /// `store`
    fn store(
        &mut self,
        alloc: Global,
        globals: &Globals<'a>,
        how: fsl_tree::Mode,
        location: &Expression,
        stored: &Expression,
    ) -> Result<Act, AllocError>
        ensures made { IfOk result (λ a. a ≡ act.Store (mode_of how) (expression_of globals.now.bytes.now self.old.names location.now) (expression_of globals.now.bytes.now self.old.names stored.now)) }
        ensures resolver { OnOk result (self.new ≡ judging (λ faults. judged_number (seen (given_of globals.now) self.old) stored.now (judged_number (seen (given_of globals.now) self.old) location.now (judged_mode accesses.Store how faults))) self.old) }
    {
        let scope = globals.scope(&self.names, false);
        judge_mode(&mut self.faults, Access::Store, how)?;
        scope.judge_number(&mut self.faults, location)?;
        scope.judge_number(&mut self.faults, stored)?;
        let at = scope.expression(alloc, location)?;
        let e = scope.expression(alloc, stored)?;
        Ok(Act::Store {
            mode: mode(how),
            at,
            e,
        })
    }

    /// One call of a `par`.
    fn child(
        &mut self,
        alloc: Global,
        globals: &Globals<'a>,
        tree: &ParallelCall,
    ) -> Result<Called, AllocError>
        ensures made { IfOk result (λ c. c ≡ called (given_of globals.now) self.old.names tree.now) }
        ensures resolver { OnOk result (self.new ≡ judging (judged_call (given_of globals.now) (seen (given_of globals.now) self.old) tree.now) self.old) }
    {
        self.note(Occurrence::Child {
            place: tree.callee.name,
            modal: is_modal(globals.procedure(tree.callee.name)),
        })?;
        let (proc, args) = self.call(alloc, globals, &tree.callee)?;
        Ok(Called { proc, args })
    }

    /// The calls of a `par`.
    fn children(
        &mut self,
        alloc: Global,
        globals: &Globals<'a>,
        trees: &[ParallelCall],
    ) -> Result<List<Called>, AllocError>
        ensures made { IfOk result (λ list. list ≡ map (called (given_of globals.now) self.old.names) trees.now) }
        ensures resolver { OnOk result (self.new ≡ judging (in_turn (map (judged_call (given_of globals.now) (seen (given_of globals.now) self.old)) trees.now)) self.old) }
    {
        let mut calls = List::new(alloc);
        for tree in trees {
            calls.push(self.child(alloc, globals, tree)?)?;
        }
        Ok(calls)
    }

    /// `par`
    fn parallel(
        &mut self,
        alloc: Global,
        globals: &Globals<'a>,
        word: Span,
        trees: &[ParallelCall],
    ) -> Result<Act, AllocError>
        ensures made { IfOk result (λ a. a ≡ act.Par (map (called (given_of globals.now) self.old.names) trees.now)) }
        ensures resolver { OnOk result (self.new ≡ judging (judged_parallel (given_of globals.now) (seen (given_of globals.now) self.old) word trees.now) self.old) }
    {
        self.note(Occurrence::Parallel {
            place: word,
            calls: trees.len(),
        })?;
        let calls = self.children(alloc, globals, trees)?;
        Ok(Act::Par { calls })
    }

    /// `fence`
    fn fence(
        &mut self,
        alloc: Global,
        globals: &Globals<'a>,
        tree: &FenceKind,
    ) -> Result<Act, AllocError>
        ensures made { IfOk result (λ a. a ≡ (fence (given_of globals.now) tree.now self.old).made) }
        ensures resolver { OnOk result (self.new ≡ (fence (given_of globals.now) tree.now self.old).resolver) }
    {
        match tree {
            FenceKind::Acquire { .. } => Ok(Act::Fence {
                mode: Mode::Acq,
                asrt: Asrt::Emp,
            }),
            FenceKind::Release {
                word,
                assertion,
                ..
            } => {
                let setting = Setting {
                    in_ensures: false,
                    modal: false,
                };
                let asrt = self.apart(alloc, globals, setting, assertion)?;
                Ok(Act::Fence {
                    mode: release_mode(*word),
                    asrt,
                })
            }
        }
    }

    /// The invariant of a loop. Its binders end with it.
    fn loop_invariant(
        &mut self,
        alloc: Global,
        globals: &Globals<'a>,
        tree: &Option<Clause>,
    ) -> Result<Asrt, AllocError>
        ensures made { IfOk result (λ a. a ≡ (apart (clause (given_of globals.now) tree.now) in_loop_invariant self.old).made) }
        ensures resolver { OnOk result (self.new ≡ (apart (clause (given_of globals.now) tree.now) in_loop_invariant self.old).resolver) }
    {
        let outside = self.names.len();
        let setting = Setting {
            in_ensures: false,
            modal: true,
        };
        let asrt = self.clause(alloc, globals, setting, tree)?;
        self.leave(outside);
        Ok(asrt)
    }

    /// `return`; an absent result is 0.
    fn result(
        &mut self,
        alloc: Global,
        globals: &Globals<'a>,
        in_loop: bool,
        word: Span,
        tree: &Option<Expression>,
    ) -> Result<Act, AllocError>
        ensures made { IfOk result (λ a. a ≡ act.Return (returned (given_of globals.now) self.old.names tree.now)) }
        ensures resolver { OnOk result (self.new ≡ judging (judged_return (seen (given_of globals.now) self.old) in_loop word tree.now) self.old) }
    {
        self.note(Occurrence::Return {
            place: word,
            in_loop,
        })?;
        match tree {
            None => Ok(Act::Return {
                e: Expr::Const { n: 0 },
            }),
            Some(e) => Ok(Act::Return {
                e: self.plain_number(alloc, globals, e)?,
            }),
        }
    }

    /// An expression of a statement; its faults.
    fn plain_number(
        &mut self,
        alloc: Global,
        globals: &Globals<'a>,
        tree: &Expression,
    ) -> Result<Expr, AllocError>
        ensures made { IfOk result (λ e. e ≡ expression_of globals.now.bytes.now self.old.names tree.now) }
        ensures resolver { OnOk result (self.new ≡ judging (judged_number (seen (given_of globals.now) self.old) tree.now) self.old) }
    {
        let scope = globals.scope(&self.names, false);
        scope.judge_number(&mut self.faults, tree)?;
        scope.expression(alloc, tree)
    }

    /// A step of tokens.
    fn token_step(
        &mut self,
        alloc: Global,
        globals: &Globals<'a>,
        tree: &fsl_tree::Step,
    ) -> Result<Act, AllocError>
        ensures made { IfOk result (λ a. a ≡ act.Step (step_of globals.now.bytes.now self.old.names tree.now)) }
        ensures resolver { OnOk result (self.new ≡ judging (judged_step (seen (given_of globals.now) self.old) tree.now) self.old) }
    {
        let scope = globals.scope(&self.names, false);
        scope.judge_step(&mut self.faults, tree)?;
        let step = scope.step(alloc, tree)?;
        Ok(Act::Step { step })
    }

    /// A bank, which takes the next slot.
    fn bank(&mut self, globals: &Globals<'a>, name: Span) -> Result<Act, AllocError>
        ensures made { IfOk result (λ a. a ≡ act.Bank self.old.slots) }
        ensures resolver { OnOk result (self.new ≡ declared 256 globals.now.bytes.now name sorts.Bank self.old) }
    {
        let slot = self.slots;
        self.declare(globals.bytes, name, Sort::Bank, 256)?;
        Ok(Act::Bank { slot })
    }

    /// A statement that holds no other.
    fn simple(
        &mut self,
        alloc: Global,
        globals: &Globals<'a>,
        in_loop: bool,
        tree: &Statement,
    ) -> Result<Stmt, AllocError>
        requires { IsTrue (is_simple tree.now) }
        ensures made { IfOk result (λ s. s ≡ (statement (given_of globals.now) tree.now in_loop self.old).made) }
        ensures resolver { OnOk result (self.new ≡ (statement (given_of globals.now) tree.now in_loop self.old).resolver) }
    {
        match tree {
            Statement::Let {
                word,
                name,
                right,
                semicolon,
                ..
            } => {
                let act = self.let_act(alloc, globals, *name, right)?;
                Ok(stmt(*word, *semicolon, act))
            }
            Statement::Assign {
                name,
                right,
                semicolon,
                ..
            } => {
                let act = self.assignment(alloc, globals, *name, right)?;
                Ok(stmt(*name, *semicolon, act))
            }
            Statement::Bank {
                word,
                name,
                semicolon,
            } => {
                let act = self.bank(globals, *name)?;
                Ok(stmt(*word, *semicolon, act))
            }
            Statement::If { .. } | Statement::While { .. } => unreachable!(),
            _ => self.unnamed(alloc, globals, in_loop, tree),
        }
    }

    /// One that declares and sets no variable.
    fn unnamed(
        &mut self,
        alloc: Global,
        globals: &Globals<'a>,
        in_loop: bool,
        tree: &Statement,
    ) -> Result<Stmt, AllocError>
        requires { IsTrue (is_unnamed tree.now) }
        ensures made { IfOk result (λ s. s ≡ (statement (given_of globals.now) tree.now in_loop self.old).made) }
        ensures resolver { OnOk result (self.new ≡ (statement (given_of globals.now) tree.now in_loop self.old).resolver) }
    {
        match tree {
            Statement::Call {
                word,
                callee,
                semicolon,
            } => {
                let (proc, args) = self.call(alloc, globals, callee)?;
                let act = Act::Call {
                    slot: None,
                    proc,
                    args,
                };
                Ok(stmt(*word, *semicolon, act))
            }
            Statement::Parallel {
                word,
                calls,
                close,
                ..
            } => {
                let act = self.parallel(alloc, globals, *word, calls.as_slice())?;
                Ok(stmt(*word, *close, act))
            }
            Statement::Return {
                word,
                value,
                semicolon,
            } => {
                let act = self.result(alloc, globals, in_loop, *word, value)?;
                Ok(stmt(*word, *semicolon, act))
            }
            Statement::Fence {
                word,
                kind,
                semicolon,
            } => {
                let act = self.fence(alloc, globals, kind)?;
                Ok(stmt(*word, *semicolon, act))
            }
            _ => self.effect(alloc, globals, in_loop, tree),
        }
    }

    /// One that only reads, writes, frees, checks, prints, or steps tokens.
    fn effect(
        &mut self,
        alloc: Global,
        globals: &Globals<'a>,
        in_loop: bool,
        tree: &Statement,
    ) -> Result<Stmt, AllocError>
        requires { IsTrue (is_effect tree.now) }
        ensures made { IfOk result (λ s. s ≡ (statement (given_of globals.now) tree.now in_loop self.old).made) }
        ensures resolver { OnOk result (self.new ≡ (statement (given_of globals.now) tree.now in_loop self.old).resolver) }
    {
        match tree {
            Statement::Store {
                word,
                mode: how,
                location,
                value,
                semicolon,
                ..
            } => {
                let act = self.store(alloc, globals, *how, location, value)?;
                Ok(stmt(*word, *semicolon, act))
            }
            Statement::Free {
                word,
                location,
                semicolon,
                ..
            } => {
                let at = self.plain_number(alloc, globals, location)?;
                Ok(stmt(*word, *semicolon, Act::Free { at }))
            }
            Statement::Assert {
                word,
                condition,
                semicolon,
                ..
            } => {
                let cond = self.condition(alloc, globals, false, condition)?;
                Ok(stmt(*word, *semicolon, Act::Assert { cond }))
            }
            Statement::Print {
                word,
                value,
                semicolon,
                ..
            } => {
                let e = self.plain_number(alloc, globals, value)?;
                Ok(stmt(*word, *semicolon, Act::Print { e }))
            }
            Statement::Step { step, semicolon } => {
                let act = self.token_step(alloc, globals, step)?;
                Ok(stmt(step_place(step.word), *semicolon, act))
            }
            _ => unreachable!(),
        }
    }

    /// A statement, inside a loop or not.
    #[cycle(run)]
    fn statement(
        &mut self,
        alloc: Global,
        globals: &Globals<'a>,
        in_loop: bool,
        tree: &Statement,
    ) -> Result<Stmt, AllocError>
        ensures made { IfOk result (λ s. s ≡ (statement (given_of globals.now) tree.now in_loop self.old).made) }
        ensures resolver { OnOk result (self.new ≡ (statement (given_of globals.now) tree.now in_loop self.old).resolver) }
    {
        match tree {
            Statement::If {
                word,
                condition,
                then_block,
                otherwise,
                ..
            } => {
                let cond = self.condition(alloc, globals, false, condition)?;
                let yes = self.block(alloc, globals, in_loop, then_block)?;
                match otherwise {
                    None => {
                        let no = List::new(alloc);
                        Ok(stmt(*word, then_block.close, Act::If { cond, yes, no }))
                    }
                    Some(other) => {
                        let no = self.block(alloc, globals, in_loop, &other.block)?;
                        Ok(stmt(*word, other.block.close, Act::If { cond, yes, no }))
                    }
                }
            }
            Statement::While {
                word,
                condition,
                invariant,
                body,
                ..
            } => {
                let cond = self.condition(alloc, globals, false, condition)?;
                let inv = self.loop_invariant(alloc, globals, invariant)?;
                let inside = self.block(alloc, globals, true, body)?;
                let act = Act::While {
                    cond,
                    inv,
                    body: inside,
                };
                Ok(stmt(*word, body.close, act))
            }
            _ => self.simple(alloc, globals, in_loop, tree),
        }
    }

    /// The statements of a block, each after the one before it.
    #[cycle(run)]
    fn statements(
        &mut self,
        alloc: Global,
        globals: &Globals<'a>,
        in_loop: bool,
        trees: &[Statement],
    ) -> Result<List<Stmt>, AllocError>
        ensures made { IfOk result (λ list. list ≡ (run_each (map (statement (given_of globals.now)) trees.now) in_loop self.old).made) }
        ensures resolver { OnOk result (self.new ≡ (run_each (map (statement (given_of globals.now)) trees.now) in_loop self.old).resolver) }
    {
        let mut list = List::new(alloc);
        for tree in trees {
            list.push(self.statement(alloc, globals, in_loop, tree)?)?;
        }
        Ok(list)
    }

    /// A block. The names that are declared in it go at its end.
    #[cycle(run)]
    pub fn block(
        &mut self,
        alloc: Global,
        globals: &Globals<'a>,
        in_loop: bool,
        tree: &Block,
    ) -> Result<List<Stmt>, AllocError>
        ensures made { IfOk result (λ list. list ≡ ((block (given_of globals.now) tree.now).runs in_loop self.old).made) }
        ensures resolver { OnOk result (self.new ≡ ((block (given_of globals.now) tree.now).runs in_loop self.old).resolver) }
    {
        let outside = self.names.len();
        let list = self.statements(alloc, globals, in_loop, tree.statements.as_slice())?;
        self.leave(outside);
        Ok(list)
    }
}
