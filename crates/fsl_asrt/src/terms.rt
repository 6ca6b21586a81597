//! Terms of expressions: whole-number combinations of symbols. A product is a term where one side is a number
//! by what is known.
ghost use Rattle.std.specs.Prelude.{◌≡◌, pos, true, IfOk, IfErr, None, Some, get_or};
ghost use Rattle.fsl_lin.specs.Combination.{constant, times, is_narrow};
ghost use Rattle.fsl_core.specs.logic.Terms.{narrow, signed, last_or, constant_of, multiplied, expr_of};

use fsl_base::TryClone;
use fsl_chunk::Env;
use fsl_core::Expr;
use fsl_lin::{Lin, LinFault, PLACES, is_constant};
use fsl_pure::Pure;
use std::alloc::{AllocError, Global};

/// A number that is no greater than one may be, as a term.
pub fn constant(alloc: Global, n: i128) -> Result<Lin, AllocError>
    requires { is_narrow (constant n) ≡ true }
    ensures { IfOk result (λ t. t ≡ constant n) }
{
    match Lin::constant(alloc, n) {
        Ok(t) => Ok(t),
        Err(LinFault::NoMemory) => Err(AllocError),
        Err(LinFault::Wide) => unreachable!(),
    }
}

/// A number as a term.
fn number(alloc: Global, n: i128) -> Result<Lin, LinFault>
    ensures exact { IfOk result (λ t. narrow (constant n) ≡ Some t) }
    ensures wide { IfErr result (λ fault. fault ≡ LinFault.Wide → narrow (constant n) ≡ None) }
{
    match Lin::constant(alloc, n) {
        Ok(t) => Ok(t),
        Err(fault) => Err(fault),
    }
}

/// A number times a term.
fn scaled(alloc: Global, k: i128, t: &Lin) -> Result<Lin, LinFault>
    ensures exact { IfOk result (λ product. narrow (times k t.now) ≡ Some product) }
    ensures wide { IfErr result (λ fault. fault ≡ LinFault.Wide → narrow (times k t.now) ≡ None) }
{
    match t.scale(alloc, k) {
        Ok(product) => Ok(product),
        Err(fault) => Err(fault),
    }
}

/// The sum of two terms, or their difference where `minus` is set.
fn signed_sum(alloc: Global, minus: bool, a: &Lin, b: &Lin) -> Result<Lin, LinFault>
    ensures exact { IfOk result (λ sum. narrow (signed minus a.now b.now) ≡ Some sum) }
    ensures wide { IfErr result (λ fault. fault ≡ LinFault.Wide → narrow (signed minus a.now b.now) ≡ None) }
{
    let sum = if minus {
        a.sub(alloc, b)
    } else {
        a.add(alloc, b)
    };
    match sum {
        Ok(sum) => Ok(sum),
        Err(fault) => Err(fault),
    }
}

/// The number that a term is by the facts. It takes no memory.
fn constant_of(pure: &Pure, t: &Lin) -> Option<i128>
    ensures { result ≡ constant_of pure.now.facts t.now }
{
    let mut numbers = [0i128; PLACES];
    pure.eqs().fill(t, &mut numbers);
    if is_constant(&numbers) {
        Some(numbers[0])
    } else {
        None
    }
}

/// The product of two terms, one of which is a number by the facts.
fn product(alloc: Global, pure: &Pure, a: &Lin, b: &Lin) -> Result<Lin, LinFault>
    ensures exact { IfOk result (λ t. multiplied (constant_of pure.now.facts a.now) (constant_of pure.now.facts b.now) a.now b.now ≡ Some t) }
    ensures wide { IfErr result (λ fault. fault ≡ LinFault.Wide → multiplied (constant_of pure.now.facts a.now) (constant_of pure.now.facts b.now) a.now b.now ≡ None) }
{
    match constant_of(pure, a) {
        Some(k) => scaled(alloc, k, b),
        None => match constant_of(pure, b) {
            Some(k) => scaled(alloc, k, a),
            None => Err(LinFault::Wide),
        },
    }
}

/// The term of a variable.
pub fn var(alloc: Global, env: &Env, slot: u32) -> Result<Lin, AllocError>
    ensures { IfOk result (λ t. get_or env.now slot (constant (pos 0)) ≡ t) }
{
    match env.get(slot) {
        Some(t) => Ok(t.try_clone(alloc)?),
        None => constant(alloc, 0),
    }
}

/// The term of the procedure's result.
fn result(alloc: Global, env: &Env) -> Result<Lin, AllocError>
    ensures { IfOk result (λ t. last_or (constant (pos 0)) env.now ≡ t) }
{
    match env.last() {
        Some(t) => Ok(t.try_clone(alloc)?),
        None => constant(alloc, 0),
    }
}

/// The term of an expression by the facts, where the variables have these terms. It is `Wide` exactly where the
/// expression is no term, or a number of its term, of a term inside it, or of a sum or product on the way passes
/// its bound.
pub fn term(alloc: Global, pure: &Pure, env: &Env, e: &Expr) -> Result<Lin, LinFault>
    ensures exact { IfOk result (λ t. (expr_of e.now).term pure.now.facts env.now ≡ Some t) }
    ensures wide { IfErr result (λ fault. fault ≡ LinFault.Wide → (expr_of e.now).term pure.now.facts env.now ≡ None) }
{
    match e {
        Expr::Const { n } => number(alloc, *n),
        Expr::Var { slot } => Ok(var(alloc, env, *slot)?),
        Expr::Result_ => Ok(result(alloc, env)?),
        Expr::Neg { e } => {
            let t = term(alloc, pure, env, e.get())?;
            scaled(alloc, -1, &t)
        }
        Expr::Sum { parts } => {
            let mut sum = constant(alloc, 0)?;
            for part in parts.as_slice() {
                let t = term(alloc, pure, env, &part.e)?;
                sum = signed_sum(alloc, part.minus, &sum, &t)?;
            }
            Ok(sum)
        }
        Expr::Product { parts } => {
            let mut so_far = constant(alloc, 1)?;
            for factor in parts.as_slice() {
                let t = term(alloc, pure, env, factor)?;
                so_far = product(alloc, pure, &so_far, &t)?;
            }
            Ok(so_far)
        }
    }
}
