//! Lists of coefficients: their sums, differences and multiples, each number exact or refused.
ghost use Rattle.std.specs.Prelude.{◌≡◌, ◌≤ℤ◌, ◌≤◌, ◌<◌, ◌^◌, ◌++◌, ◌∷◌, ◌*ℤ◌, [], ℤ, pos, IfOk, OnOk, IsErrOf, MatchOption, true, false, length, get_or, map, replicate};
ghost use Rattle.fsl_lin.specs.Combination.{are_within, joined, products, trim, IsTerm, IsRest};
ghost use Rattle.fsl_lin.specs.Sign.{signed};

use crate::fault::LinFault;
use crate::sign::Sign;
use crate::sym::Sym;
use std::alloc::{AllocError, Global};

/// The greatest size of a coefficient.
const MAX_TERM: i128 = 16777216;

/// The greatest size of a constant.
const MAX_REST: i128 = 1237940039285380274899124224;

/// A coefficient, if it is no greater than one may be.
fn term(n: i128) -> Option<i32>
    ensures { IsTerm n result }
{
    if -MAX_TERM <= n && n <= MAX_TERM {
        Some(n as i32)
    } else {
        None
    }
}

/// A constant, if it is no greater than one may be.
pub fn rest(n: i128) -> Option<i128>
    ensures { IsRest n result }
{
    if -MAX_REST <= n && n <= MAX_REST {
        Some(n)
    } else {
        None
    }
}

/// The coefficient at a place, 0 past the end.
pub fn at(terms: &[i32], s: usize) -> i32
    ensures { result ≡ get_or terms.now s (pos 0) }
{
    match terms.get(s) {
        Some(term) => *term,
        None => 0,
    }
}

/// The sum or difference of the coefficients at a place, if it is no greater than a coefficient may be.
fn joined_at(sign: Sign, a: &[i32], b: &[i32], s: usize) -> Option<i32>
    ensures { IsTerm (signed sign (get_or a.now s (pos 0)) (get_or b.now s (pos 0))) result }
{
    term(sign.of(at(a, s), at(b, s)))
}

/// The sums or differences at each place.
pub fn joined(alloc: Global, sign: Sign, a: &[i32], b: &[i32]) -> Result<Vec<i32>, LinFault>
    ensures exact { IfOk result (λ terms. terms.items ≡ joined (signed sign) a.now b.now) }
    ensures narrow { OnOk result (are_within (2 ^ 24) (joined (signed sign) a.now b.now) ≡ true) }
    ensures wide { IsErrOf result LinFault.Wide → are_within (2 ^ 24) (joined (signed sign) a.now b.now) ≡ false }
{
    let mut terms = Vec::new(alloc);
    let width = a.len().max(b.len());
    for s in 0..width {
        match joined_at(sign, a, b, s) {
            Some(term) => terms.push(term)?,
            None => return Err(LinFault::Wide),
        }
    }
    Ok(terms)
}

/// The product of a coefficient and a number, if it is no greater than a coefficient may be.
fn product(x: &i32, k: &i128) -> Option<i32>
    ensures { IsTerm (x.now *ℤ k.now) result }
{
    match i128::from(*x).checked_mul(*k) {
        Some(exact) => term(exact),
        None => None,
    }
}

/// The product of a constant and a number, if it is no greater than a constant may be.
pub fn rest_product(x: &i128, k: &i128) -> Option<i128>
    ensures { IsRest (x.now *ℤ k.now) result }
{
    match x.checked_mul(*k) {
        Some(exact) => rest(exact),
        None => None,
    }
}

/// The sum or the difference of two constants, if it is no greater than a constant may be.
pub fn rest_joined(sign: Sign, x: &i128, y: &i128) -> Option<i128>
    ensures { IsRest (signed sign x.now y.now) result }
{
    let exact = match sign {
        Sign::Plus => x.checked_add(*y),
        Sign::Minus => x.checked_sub(*y),
    };
    match exact {
        Some(exact) => rest(exact),
        None => None,
    }
}

/// The products of each coefficient and a number.
pub fn products(alloc: Global, terms: &[i32], k: &i128) -> Result<Vec<i32>, LinFault>
    ensures exact { IfOk result (λ scaled. scaled.items ≡ products k.now terms.now) }
    ensures narrow { OnOk result (are_within (2 ^ 24) (products k.now terms.now) ≡ true) }
    ensures wide { IsErrOf result LinFault.Wide → are_within (2 ^ 24) (products k.now terms.now) ≡ false }
{
    let mut scaled = Vec::new(alloc);
    for term in terms {
        match product(term, k) {
            Some(term) => scaled.push(term)?,
            None => return Err(LinFault::Wide),
        }
    }
    Ok(scaled)
}

/// The product of two numbers, if it is no greater than a coefficient may be.
fn number_product(x: &i128, k: &i128) -> Option<i32>
    ensures { IsTerm (x.now *ℤ k.now) result }
{
    match x.checked_mul(*k) {
        Some(exact) => term(exact),
        None => None,
    }
}

/// The products of each number, of any size, and another one.
pub fn number_products(alloc: Global, numbers: &[i128], k: &i128) -> Result<Vec<i32>, LinFault>
    ensures exact { IfOk result (λ scaled. scaled.items ≡ products k.now numbers.now) }
    ensures narrow { OnOk result (are_within (2 ^ 24) (products k.now numbers.now) ≡ true) }
    ensures wide { IsErrOf result LinFault.Wide → are_within (2 ^ 24) (products k.now numbers.now) ≡ false }
{
    let mut scaled = Vec::new(alloc);
    for number in numbers {
        match number_product(number, k) {
            Some(term) => scaled.push(term)?,
            None => return Err(LinFault::Wide),
        }
    }
    Ok(scaled)
}

/// The numbers up to the last one that isn't 0.
pub fn used(numbers: &[i128]) -> &[i128]
    ensures { result.now ≡ trim numbers.now }
{
    let mut used = numbers;
    while let Some((last, before)) = used.split_last() {
        if *last != 0 {
            return used;
        }
        used = before;
    }
    used
}

/// Takes the zeros at the end off.
pub fn trim(terms: &mut Vec<i32>)
    ensures { terms.new.items ≡ trim terms.old.items }
{
    while let Some(last) = terms.last() {
        if *last != 0 {
            return;
        }
        let _ = terms.pop();
    }
}

/// The coefficients of a symbol: 1 at its place, and 0 before it.
pub fn unit(alloc: Global, s: Sym) -> Result<Vec<i32>, AllocError>
    ensures { IfOk result (λ terms. terms.items ≡ replicate s.0 (pos 0) ++ pos 1 ∷ []) }
{
    let mut terms = Vec::new(alloc);
    for _i in 0..s.0 {
        terms.push(0)?;
    }
    terms.push(1)?;
    Ok(terms)
}
