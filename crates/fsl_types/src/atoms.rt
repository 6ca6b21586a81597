//! The parts of assertions that hold no others, over numbered variables and with their faults. They are defined
//! with the assertions, in `specs/Assertions.antt`.
ghost use Rattle.std.specs.Prelude.{◌≡◌, IfOk, IsTrue, OnOk};
ghost use Rattle.std.specs.Option.{option_copied};
ghost use Rattle.fsl_core.specs.declared.assertion.Asrt.TheVariants as asrt;
ghost use Rattle.fsl_types.specs.Assertions.{atom, is_alone, judged_acquire, judged_permission, judged_share, judged_tokens, last_part_of, number_in, part_number, pattern, relation, share_of, sight, tokens};
ghost use Rattle.fsl_tree.specs.declared.expression.Condition.TheVariants as conditions;
ghost use Rattle.fsl_types.specs.Expressions.{condition_of, instance_of, judged_condition, judged_number, numbered_arguments};
ghost use Rattle.fsl_types.specs.Given.{given_of};
ghost use Rattle.fsl_types.specs.Resolvers.{judging};

use crate::given::{Globals, Setting};
use crate::numbering::operator;
use crate::occurrence::{Due, Occurrence};
use crate::resolver::Resolver;
use crate::rules::note;
use crate::variable::{Signature, Sort};
use fsl_base::Span;
use fsl_core::{Asrt, Cond, Expr, Inst, Pat};
use fsl_tree::{
    Arguments, Atom, BankWord, Comparison, Condition, Expression, Pattern, Relation, Share, Use,
};
use std::alloc::{AllocError, Global};

/// A share of all.
const FULL: i128 = 9223372036854775808;

/// The number of a part, as far as an invariant can have one.
fn part_number(value: u64) -> u32
    ensures { result ≡ part_number value }
{
    value.min(8) as u32
}

/// The number of the last part of an invariant.
fn last_part(signature: Option<&Signature>) -> Option<usize>
    ensures { result ≡ last_part_of (option_copied signature.entry) }
{
    match signature {
        Some(known) => Some(known.last_part),
        None => None,
    }
}

impl<'a> Resolver<'a> {
    /// `Init`
    pub fn init(
        &mut self,
        alloc: Global,
        globals: &Globals<'a>,
        setting: Setting,
        location: &Expression,
    ) -> Result<Asrt, AllocError>
        ensures made { IfOk result (λ a. a ≡ asrt.Init (number_in (given_of globals.now) self.old location.now)) }
        ensures resolver { OnOk result (self.new ≡ judging (judged_number (sight (given_of globals.now) setting.in_ensures self.old) location.now) self.old) }
    {
        let scope = globals.scope(&self.names, setting.in_ensures);
        scope.judge_number(&mut self.faults, location)?;
        Ok(Asrt::Init {
            at: scope.expression(alloc, location)?,
        })
    }

    /// A location and the invariant under which it may be written.
    pub fn permission(
        &mut self,
        alloc: Global,
        globals: &Globals<'a>,
        setting: Setting,
        location: &Expression,
        tree: &Use,
    ) -> Result<(Expr, Inst), AllocError>
        ensures made { IfOk result (λ p. p ≡ (number_in (given_of globals.now) self.old location.now, instance_of globals.now.bytes.now globals.now.invariants self.old.names tree.now)) }
        ensures resolver { OnOk result (self.new ≡ judging (judged_permission (sight (given_of globals.now) setting.in_ensures self.old) globals.now.invariants location.now tree.now) self.old) }
    {
        let scope = globals.scope(&self.names, setting.in_ensures);
        let signature = globals.invariant(tree.name);
        scope.judge_number(&mut self.faults, location)?;
        scope.judge_use(&mut self.faults, signature, tree)?;
        let at = scope.expression(alloc, location)?;
        let inst = scope.instance(alloc, signature, tree)?;
        Ok((at, inst))
    }

    /// `Acq`
    pub fn acquire(
        &mut self,
        alloc: Global,
        globals: &Globals<'a>,
        setting: Setting,
        location: &Expression,
        tree: &Use,
        part: Span,
        value: u64,
        excluded: &Option<Arguments>,
    ) -> Result<Asrt, AllocError>
        ensures made { IfOk result (λ a. a ≡ asrt.Acq (number_in (given_of globals.now) self.old location.now) (instance_of globals.now.bytes.now globals.now.invariants self.old.names tree.now) (part_number value) (numbered_arguments globals.now.bytes.now self.old.names excluded.now)) }
        ensures resolver { OnOk result (self.new ≡ judging (judged_acquire (sight (given_of globals.now) setting.in_ensures self.old) globals.now.invariants location.now tree.now part value excluded.now) self.old) }
    {
        let (at, inst) = self.permission(alloc, globals, setting, location, tree)?;
        let scope = globals.scope(&self.names, setting.in_ensures);
        note(
            &mut self.faults,
            Occurrence::PartNumber {
                place: part,
                number: value,
                last: last_part(globals.invariant(tree.name)),
            },
        )?;
        scope.judge_excluded(&mut self.faults, excluded)?;
        Ok(Asrt::Acq {
            at,
            inst,
            part: part_number(value),
            out: scope.arguments(alloc, excluded)?,
        })
    }

    /// `Tok` and `Auth`
    pub fn tokens(
        &mut self,
        alloc: Global,
        globals: &Globals<'a>,
        setting: Setting,
        word: BankWord,
        bank: Span,
        amount: &Expression,
    ) -> Result<Asrt, AllocError>
        ensures made { IfOk result (λ a. a ≡ tokens (given_of globals.now) self.old word bank amount.now) }
        ensures resolver { OnOk result (self.new ≡ judging (judged_tokens (sight (given_of globals.now) setting.in_ensures self.old) bank amount.now) self.old) }
    {
        let scope = globals.scope(&self.names, setting.in_ensures);
        scope.judge_name(Due::Bank, &mut self.faults, bank)?;
        scope.judge_number(&mut self.faults, amount)?;
        let n = scope.expression(alloc, amount)?;
        let bank = scope.slot(bank);
        match word {
            BankWord::Tok { .. } => Ok(Asrt::Tok { bank, n }),
            BankWord::Auth { .. } => Ok(Asrt::Auth { bank, n }),
        }
    }

    /// A condition; its faults.
    pub fn condition(
        &mut self,
        alloc: Global,
        globals: &Globals<'a>,
        in_ensures: bool,
        tree: &Condition,
    ) -> Result<Cond, AllocError>
        ensures made { IfOk result (λ c. c ≡ condition_of globals.now.bytes.now self.old.names tree.now) }
        ensures resolver { OnOk result (self.new ≡ judging (judged_condition (sight (given_of globals.now) in_ensures self.old) tree.now) self.old) }
    {
        let scope = globals.scope(&self.names, in_ensures);
        scope.judge_condition(&mut self.faults, tree)?;
        scope.condition(alloc, tree)
    }

    /// A comparison
    fn compared(
        &mut self,
        alloc: Global,
        globals: &Globals<'a>,
        setting: Setting,
        left: &Expression,
        comparison: Comparison,
        right: &Expression,
    ) -> Result<Asrt, AllocError>
        ensures made { IfOk result (λ a. a ≡ asrt.Fact (condition_of globals.now.bytes.now self.old.names (conditions.Compared left.now comparison right.now))) }
        ensures resolver { OnOk result (self.new ≡ judging (judged_condition (sight (given_of globals.now) setting.in_ensures self.old) (conditions.Compared left.now comparison right.now)) self.old) }
    {
        let scope = globals.scope(&self.names, setting.in_ensures);
        scope.judge_number(&mut self.faults, left)?;
        scope.judge_number(&mut self.faults, right)?;
        let l = scope.expression(alloc, left)?;
        let r = scope.expression(alloc, right)?;
        Ok(Asrt::Fact {
            cond: Cond::Cmp {
                op: operator(comparison),
                l,
                r,
            },
        })
    }

    /// The share of a points-to.
    fn share(
        &mut self,
        alloc: Global,
        globals: &Globals<'a>,
        setting: Setting,
        tree: &Option<Share>,
    ) -> Result<Expr, AllocError>
        ensures made { IfOk result (λ e. e ≡ share_of (given_of globals.now) self.old tree.now) }
        ensures resolver { OnOk result (self.new ≡ judging (judged_share (sight (given_of globals.now) setting.in_ensures self.old) tree.now) self.old) }
    {
        match tree {
            None => Ok(Expr::Const { n: FULL }),
            Some(share) => self.number(alloc, globals, setting, &share.amount),
        }
    }

    /// An expression over numbers; its faults.
    pub fn number(
        &mut self,
        alloc: Global,
        globals: &Globals<'a>,
        setting: Setting,
        tree: &Expression,
    ) -> Result<Expr, AllocError>
        ensures made { IfOk result (λ e. e ≡ number_in (given_of globals.now) self.old tree.now) }
        ensures resolver { OnOk result (self.new ≡ judging (judged_number (sight (given_of globals.now) setting.in_ensures self.old) tree.now) self.old) }
    {
        let scope = globals.scope(&self.names, setting.in_ensures);
        scope.judge_number(&mut self.faults, tree)?;
        scope.expression(alloc, tree)
    }

    /// The value of a points-to.
    fn pattern(
        &mut self,
        alloc: Global,
        globals: &Globals<'a>,
        setting: Setting,
        tree: &Pattern,
    ) -> Result<Pat, AllocError>
        ensures made { IfOk result (λ p. p ≡ (pattern (given_of globals.now) setting tree.now self.old).made) }
        ensures resolver { OnOk result (self.new ≡ (pattern (given_of globals.now) setting tree.now self.old).resolver) }
    {
        match tree {
            Pattern::Any { .. } => Ok(Pat::Any),
            Pattern::Binder { name, .. } => {
                let slot = self.slots;
                self.declare(globals.bytes, *name, Sort::Local, 256)?;
                Ok(Pat::Bind { slot })
            }
            Pattern::Value { value } => Ok(Pat::Is {
                e: self.number(alloc, globals, setting, value)?,
            }),
        }
    }

    /// A comparison or a points-to.
    pub fn related(
        &mut self,
        alloc: Global,
        globals: &Globals<'a>,
        setting: Setting,
        left: &Expression,
        tree: &Relation,
    ) -> Result<Asrt, AllocError>
        ensures made { IfOk result (λ a. a ≡ (relation (given_of globals.now) setting left.now tree.now self.old).made) }
        ensures resolver { OnOk result (self.new ≡ (relation (given_of globals.now) setting left.now tree.now self.old).resolver) }
    {
        match tree {
            Relation::Compared { comparison, right } => {
                self.compared(alloc, globals, setting, left, *comparison, right)
            }
            Relation::PointsTo { share, pattern, .. } => {
                let at = self.number(alloc, globals, setting, left)?;
                let share = self.share(alloc, globals, setting, share)?;
                let pat = self.pattern(alloc, globals, setting, pattern)?;
                Ok(Asrt::Points { at, share, pat })
            }
        }
    }

    /// A part that holds no other.
    pub fn alone(
        &mut self,
        alloc: Global,
        globals: &Globals<'a>,
        setting: Setting,
        tree: &Atom,
    ) -> Result<Asrt, AllocError>
        requires { IsTrue (is_alone tree.now) }
        ensures made { IfOk result (λ a. a ≡ (atom (given_of globals.now) tree.now setting self.old).made) }
        ensures resolver { OnOk result (self.new ≡ (atom (given_of globals.now) tree.now setting self.old).resolver) }
    {
        match tree {
            Atom::Init { location, .. } => self.init(alloc, globals, setting, location),
            Atom::Rel {
                location,
                invariant,
                ..
            } => {
                let (at, inst) = self.permission(alloc, globals, setting, location, invariant)?;
                Ok(Asrt::Rel { at, inst })
            }
            Atom::RmwAcq {
                location,
                invariant,
                ..
            } => {
                let (at, inst) = self.permission(alloc, globals, setting, location, invariant)?;
                Ok(Asrt::RmwAcq { at, inst })
            }
            Atom::Acq {
                location,
                invariant,
                part,
                part_value,
                excluded,
                ..
            } => self.acquire(
                alloc,
                globals,
                setting,
                location,
                invariant,
                *part,
                *part_value,
                excluded,
            ),
            Atom::Bank {
                word,
                bank,
                amount,
                ..
            } => self.tokens(alloc, globals, setting, *word, *bank, amount),
            Atom::Related { left, relation } => {
                self.related(alloc, globals, setting, left, relation)
            }
            _ => unreachable!(),
        }
    }
}
