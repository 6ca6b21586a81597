//! Expressions over numbered variables. They are defined in `specs/Expressions.antt`.
ghost use Rattle.std.specs.Prelude.{◌≡◌, ◌++◌, map, IfOk};
ghost use Rattle.std.specs.Option.{option_copied};
ghost use Rattle.fsl_types.specs.Expressions.{condition_of, expression_of, factor_of, is_minus, negated, next_value, number_of, numbered_arguments, operator_of, product_of, sum_of, term_of};

use crate::scope::Scope;
use crate::variable::Signature;
use fsl_base::{Boxed, List};
use fsl_core::{CmpOp, Cond, Expr, Inst, Part};
use fsl_tree::{
    Arguments, Comparison, Condition, Expression, Factor, NextArgument, Sign, Term, Use,
};
use std::alloc::{AllocError, Global};

fn is_minus(sign: Sign) -> bool
    ensures { result ≡ is_minus sign }
{
    matches!(sign, Sign::Minus { .. })
}

/// The operator of a comparison.
pub fn operator(comparison: Comparison) -> CmpOp
    ensures { result ≡ operator_of comparison }
{
    match comparison {
        Comparison::Equal { .. } => CmpOp::Eq,
        Comparison::NotEqual { .. } => CmpOp::Ne,
        Comparison::Less { .. } => CmpOp::Lt,
        Comparison::AtMost { .. } => CmpOp::Le,
        Comparison::Greater { .. } => CmpOp::Gt,
        Comparison::AtLeast { .. } => CmpOp::Ge,
    }
}

/// The negation of a factor that has been numbered; of a number it is one constant.
fn negated(alloc: Global, number: Option<u64>, e: Expr) -> Result<Expr, AllocError>
    ensures { IfOk result (λ n. n ≡ negated number e) }
{
    match number {
        Some(n) => Ok(Expr::Const { n: -i128::from(n) }),
        None => Ok(Expr::Neg {
            e: Boxed::new(alloc, e)?,
        }),
    }
}

/// A chain of `*`; one factor is no chain.
#[tactic(auto, using(crate::proofs::NumberingLemmas::product_of_several))]
fn product(alloc: Global, first: Expr, more: List<Expr>) -> Result<Expr, AllocError>
    ensures { IfOk result (λ e. e ≡ product_of first more) }
{
    if more.is_empty() {
        return Ok(first);
    }
    let mut parts = List::new(alloc);
    parts.push(first)?;
    parts.append(more)?;
    Ok(Expr::Product { parts })
}

/// A chain of `+` and `-`; one part is no chain.
#[tactic(auto, using(crate::proofs::NumberingLemmas::sum_of_several))]
fn sum(alloc: Global, first: Expr, more: List<Part>) -> Result<Expr, AllocError>
    ensures { IfOk result (λ e. e ≡ sum_of first more) }
{
    if more.is_empty() {
        return Ok(first);
    }
    let mut parts = List::new(alloc);
    parts.push(Part {
        minus: false,
        e: first,
    })?;
    parts.append(more)?;
    Ok(Expr::Sum { parts })
}

/// The number of an invariant or a procedure, 0 where it isn't known.
pub fn number_of(signature: Option<&Signature>) -> u32
    ensures { result ≡ number_of (option_copied signature.entry) }
{
    match signature {
        Some(known) => known.number,
        None => 0,
    }
}

impl<'s, 'a> Scope<'s, 'a> {
    /// The value of a factor that is a number alone.
    fn number_alone(&self, tree: &Factor) -> Option<u64>
        ensures { result ≡ (factor_of self.now.bytes.now self.now.names.now tree.now).number }
    {
        match tree {
            Factor::Number { value, .. } => Some(*value),
            Factor::Name { .. }
            | Factor::Outcome { .. }
            | Factor::Negative { .. }
            | Factor::Group { .. } => None,
        }
    }

    /// A factor.
    #[cycle(numbered)]
    fn factor(&self, alloc: Global, tree: &Factor) -> Result<Expr, AllocError>
        ensures { IfOk result (λ e. e ≡ (factor_of self.now.bytes.now self.now.names.now tree.now).e) }
    {
        match tree {
            Factor::Number { value, .. } => Ok(Expr::Const {
                n: i128::from(*value),
            }),
            Factor::Name { place } => Ok(Expr::Var {
                slot: self.slot(*place),
            }),
            Factor::Outcome { .. } => Ok(Expr::Result_),
            Factor::Negative { factor, .. } => {
                let e = self.factor(alloc, factor.get())?;
                negated(alloc, self.number_alone(factor.get()), e)
            }
            Factor::Group { expression, .. } => self.expression(alloc, expression.get()),
        }
    }

    /// A term.
    #[cycle(numbered)]
    fn term(&self, alloc: Global, tree: &Term) -> Result<Expr, AllocError>
        ensures { IfOk result (λ e. e ≡ term_of self.now.bytes.now self.now.names.now tree.now) }
    {
        let mut more = List::new(alloc);
        for next in tree.more.as_slice() {
            more.push(self.factor(alloc, &next.factor)?)?;
        }
        let first = self.factor(alloc, &tree.first)?;
        product(alloc, first, more)
    }

    /// An expression.
    #[cycle(numbered)]
    pub fn expression(&self, alloc: Global, tree: &Expression) -> Result<Expr, AllocError>
        ensures { IfOk result (λ e. e ≡ expression_of self.now.bytes.now self.now.names.now tree.now) }
    {
        let mut more = List::new(alloc);
        for addend in tree.more.as_slice() {
            let e = self.term(alloc, &addend.term)?;
            more.push(Part {
                minus: is_minus(addend.sign),
                e,
            })?;
        }
        let first = self.term(alloc, &tree.first)?;
        sum(alloc, first, more)
    }

    /// A condition.
    pub fn condition(&self, alloc: Global, tree: &Condition) -> Result<Cond, AllocError>
        ensures { IfOk result (λ c. c ≡ condition_of self.now.bytes.now self.now.names.now tree.now) }
    {
        match tree {
            Condition::Always { .. } => Ok(Cond::Yes),
            Condition::Never { .. } => Ok(Cond::No),
            Condition::Compared {
                left,
                comparison,
                right,
            } => {
                let l = self.expression(alloc, left)?;
                let r = self.expression(alloc, right)?;
                Ok(Cond::Cmp {
                    op: operator(*comparison),
                    l,
                    r,
                })
            }
        }
    }

    /// The expressions so far and those of the arguments behind the first.
    fn more_arguments(
        &self,
        alloc: Global,
        so_far: List<Expr>,
        more: &[NextArgument],
    ) -> Result<List<Expr>, AllocError>
        ensures { IfOk result (λ list. list ≡ so_far ++ map (expression_of self.now.bytes.now self.now.names.now) (map next_value more.now)) }
    {
        let mut list = so_far;
        for next in more {
            list.push(self.expression(alloc, &next.value)?)?;
        }
        Ok(list)
    }

    /// Arguments, or excluded values.
    pub fn arguments(
        &self,
        alloc: Global,
        tree: &Option<Arguments>,
    ) -> Result<List<Expr>, AllocError>
        ensures { IfOk result (λ list. list ≡ numbered_arguments self.now.bytes.now self.now.names.now tree.now) }
    {
        let mut list = List::new(alloc);
        match tree {
            None => Ok(list),
            Some(given) => {
                list.push(self.expression(alloc, &given.first)?)?;
                self.more_arguments(alloc, list, given.more.as_slice())
            }
        }
    }

    /// An invariant with its arguments.
    pub fn instance(
        &self,
        alloc: Global,
        signature: Option<&Signature>,
        tree: &Use,
    ) -> Result<Inst, AllocError>
        ensures { IfOk result (λ i. i ≡ record { inv = number_of (option_copied signature.entry); args = numbered_arguments self.now.bytes.now self.now.names.now tree.now.arguments }) }
    {
        Ok(Inst {
            inv: number_of(signature),
            args: self.arguments(alloc, &tree.arguments)?,
        })
    }
}
