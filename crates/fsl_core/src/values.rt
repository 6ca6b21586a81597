//! The values of expressions and conditions at given values of the variables: whole numbers from -2^63
//! to 2^63-1.
ghost use Rattle.std.specs.Prelude.{◌≡◌, ◌*ℤ◌, neg_ℤ};
ghost use Rattle.fsl_core.specs.Values.{value_of, holds_of, in_range, plus_or_minus, compared};

use crate::expr::{CmpOp, Cond, Expr};
use fsl_base::List;

/// The value of an expression where variable `i` has value `env[i]`; `None` exactly where a constant, a
/// negation, or a partial sum (from 0) or product (from 1) leaves -2^63 .. 2^63-1, a variable has no
/// value, or the result of a procedure is spoken of.
pub fn eval(e: &Expr, env: &List<i64>) -> Option<i64>
    ensures { result ≡ value_of e.now env.now }
{
    match e {
        Expr::Const { n } => in_range(*n),
        Expr::Var { slot } => env.get(*slot as usize).copied(),
        Expr::Result_ => None,
        Expr::Neg { e } => negated(eval(e.get(), env)?),
        Expr::Sum { parts } => {
            let mut sum = 0;
            for part in parts.as_slice() {
                let value = eval(&part.e, env)?;
                sum = added(part.minus, sum, value)?;
            }
            Some(sum)
        }
        Expr::Product { parts } => {
            let mut product = 1;
            for factor in parts.as_slice() {
                let value = eval(factor, env)?;
                product = multiplied(product, value)?;
            }
            Some(product)
        }
    }
}

/// Whether a condition holds; `None` exactly where a side has no value.
pub fn holds(c: &Cond, env: &List<i64>) -> Option<bool>
    ensures { result ≡ holds_of c.now env.now }
{
    match c {
        Cond::Yes => Some(true),
        Cond::No => Some(false),
        Cond::Cmp { op, l, r } => {
            let left = eval(l, env)?;
            let right = eval(r, env)?;
            Some(is_so(*op, left, right))
        }
    }
}

fn is_so(op: CmpOp, l: i64, r: i64) -> bool
    ensures { result ≡ compared op l r }
{
    match op {
        CmpOp::Eq => l == r,
        CmpOp::Ne => l != r,
        CmpOp::Lt => l < r,
        CmpOp::Le => l <= r,
        CmpOp::Gt => l > r,
        CmpOp::Ge => l >= r,
    }
}

fn in_range(n: i128) -> Option<i64>
    ensures { result ≡ in_range n }
{
    i64::try_from(n).ok()
}

fn negated(n: i64) -> Option<i64>
    ensures { result ≡ in_range (neg_ℤ n) }
{
    n.checked_neg()
}

fn added(minus: bool, sum: i64, value: i64) -> Option<i64>
    ensures { result ≡ in_range (plus_or_minus minus sum value) }
{
    if minus {
        sum.checked_sub(value)
    } else {
        sum.checked_add(value)
    }
}

fn multiplied(product: i64, value: i64) -> Option<i64>
    ensures { result ≡ in_range (product *ℤ value) }
{
    product.checked_mul(value)
}
