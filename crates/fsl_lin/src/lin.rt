//! Combinations of symbols with numbers of bounded size. Each call is exact, or says that a number of the
//! true result passes its bound.
ghost use Rattle.std.specs.Prelude.{◌≡◌, ◌<◌, ◌≤◌, ◌^◌, ◌↔◌, IsTrue, IfOk, OnOk, IsErrOf, IsOkUnless, true, false, length};
ghost use Rattle.fsl_lin.specs.Combination.{IsKept, combined, plus, minus, times, constant, symbol, coefficient, trimmed, is_narrow, is_within, are_within};
ghost use Rattle.fsl_lin.specs.Numbers.{part, fits, listed, scaled};
ghost use Rattle.fsl_lin.specs.Sign.{signed};

use crate::combine::{
    at, joined, number_products, products, rest, rest_joined, rest_product, trim, unit, used,
};
use crate::fault::LinFault;
use crate::sign::Sign;
use crate::sym::Sym;
use fsl_base::{Same, TryClone};
use std::alloc::{AllocError, Global};
use std::marker::Model;

/// A whole-number combination of at most 512 symbols and a constant: each coefficient is at most 2^24 in
/// size, the constant at most 2^90.
#[derive(Debug, Drop)]
pub struct Lin {
    terms: Vec<i32>,
    rest: i128,
}

impl Model for Lin {
    ghost use Rattle.fsl_lin.specs.Combination.{Combination, IsKept};

    ghost Value = { Combination };

    ghost view = { λ lin. record { terms = lin.terms.items; rest = lin.rest } };

    ghost invariant = { λ lin. IsKept (record { terms = lin.terms.items; rest = lin.rest }) };
}

impl Lin {
    /// A number.
    pub fn constant(alloc: Global, n: i128) -> Result<Lin, LinFault>
        ensures exact { IfOk result (λ lin. lin ≡ constant n) }
        ensures narrow { OnOk result (is_narrow (constant n) ≡ true) }
        ensures wide { IsErrOf result LinFault.Wide → is_narrow (constant n) ≡ false }
    {
        match rest(n) {
            Some(rest) => Ok(Lin {
                terms: Vec::new(alloc),
                rest,
            }),
            None => Err(LinFault::Wide),
        }
    }

    /// A symbol.
    pub fn symbol(alloc: Global, s: Sym) -> Result<Lin, LinFault>
        requires { s.0 < 512 }
        ensures exact { IfOk result (λ lin. lin ≡ symbol s.0) }
        ensures never_wide { IsOkUnless result LinFault.NoMemory }
    {
        let terms = unit(alloc, s)?;
        Ok(Lin { terms, rest: 0 })
    }

    /// The coefficient of a symbol.
    pub fn coefficient(&self, s: Sym) -> i128
        ensures value { result ≡ coefficient self.now s.0 }
        ensures narrow { is_within (2 ^ 24) result ≡ true }
    {
        i128::from(at(self.terms.as_slice(), s.0 as usize))
    }

    /// The constant.
    pub fn rest(&self) -> i128
        ensures value { result ≡ self.now.rest }
        ensures narrow { is_within (2 ^ 90) result ≡ true }
    {
        self.rest
    }

    /// The number at a place: the constant at 0, and the coefficient of symbol s at s + 1.
    pub fn part(&self, i: usize) -> i128
        ensures value { result ≡ part self.now i }
        ensures narrow { is_within (2 ^ 90) result ≡ true }
    {
        if i == 0 {
            self.rest
        } else {
            i128::from(at(self.terms.as_slice(), i - 1))
        }
    }

    /// The number of the last symbol that it has, and one more; 0 for a number alone.
    pub fn width(&self) -> usize
        ensures value { result ≡ length self.now.terms }
        ensures kept { IsKept self.now }
    {
        self.terms.len()
    }

    /// The sum of two combinations.
    pub fn add(&self, alloc: Global, o: &Lin) -> Result<Lin, LinFault>
        ensures exact { IfOk result (λ sum. sum ≡ plus self.now o.now) }
        ensures narrow { OnOk result (is_narrow (plus self.now o.now) ≡ true) }
        ensures wide { IsErrOf result LinFault.Wide → is_narrow (plus self.now o.now) ≡ false }
    {
        self.joined(alloc, Sign::Plus, o)
    }

    /// The difference of two combinations.
    pub fn sub(&self, alloc: Global, o: &Lin) -> Result<Lin, LinFault>
        ensures exact { IfOk result (λ difference. difference ≡ minus self.now o.now) }
        ensures narrow { OnOk result (is_narrow (minus self.now o.now) ≡ true) }
        ensures wide { IsErrOf result LinFault.Wide → is_narrow (minus self.now o.now) ≡ false }
    {
        self.joined(alloc, Sign::Minus, o)
    }

    /// The product of a combination and a number.
    pub fn scale(&self, alloc: Global, k: i128) -> Result<Lin, LinFault>
        ensures exact { IfOk result (λ product. product ≡ times k self.now) }
        ensures narrow { OnOk result (is_narrow (times k self.now) ≡ true) }
        ensures wide { IsErrOf result LinFault.Wide → is_narrow (times k self.now) ≡ false }
    {
        self.scaled(alloc, &k)
    }

    /// The sum or the difference of two combinations.
    fn joined(&self, alloc: Global, sign: Sign, o: &Lin) -> Result<Lin, LinFault>
        ensures exact { IfOk result (λ lin. lin ≡ combined (signed sign) self.now o.now) }
        ensures narrow { OnOk result (is_narrow (combined (signed sign) self.now o.now) ≡ true) }
        ensures wide { IsErrOf result LinFault.Wide → is_narrow (combined (signed sign) self.now o.now) ≡ false }
    {
        let Some(rest) = rest_joined(sign, &self.rest, &o.rest) else {
            return Err(LinFault::Wide);
        };
        match joined(alloc, sign, self.terms.as_slice(), o.terms.as_slice()) {
            Ok(terms) => Ok(Lin::from_parts(terms, rest)),
            Err(fault) => Err(fault),
        }
    }

    /// The product of a combination and a number that is lent.
    fn scaled(&self, alloc: Global, k: &i128) -> Result<Lin, LinFault>
        ensures exact { IfOk result (λ product. product ≡ times k.now self.now) }
        ensures narrow { OnOk result (is_narrow (times k.now self.now) ≡ true) }
        ensures wide { IsErrOf result LinFault.Wide → is_narrow (times k.now self.now) ≡ false }
    {
        let Some(rest) = rest_product(&self.rest, k) else {
            return Err(LinFault::Wide);
        };
        match products(alloc, self.terms.as_slice(), k) {
            Ok(terms) => Ok(Lin::from_parts(terms, rest)),
            Err(fault) => Err(fault),
        }
    }

    /// The combination of k times each number of an array of all places, which may be of any size.
    pub fn from_numbers(alloc: Global, numbers: &[i128], k: &i128) -> Result<Lin, LinFault>
        requires { length numbers.now ≡ 513 }
        ensures exact { IfOk result (λ lin. part lin ≡ scaled k.now (listed numbers.now)) }
        ensures kept { IfOk result (λ lin. IsKept lin) }
        ensures narrow { OnOk result (fits (scaled k.now (listed numbers.now)) ≡ true) }
        ensures wide { IsErrOf result LinFault.Wide → fits (scaled k.now (listed numbers.now)) ≡ false }
    {
        let Some((constant, coefficients)) = numbers.split_first() else {
            unreachable!();
        };
        let Some(rest) = rest_product(constant, k) else {
            return Err(LinFault::Wide);
        };
        match number_products(alloc, used(coefficients), k) {
            Ok(terms) => Ok(Lin::from_parts(terms, rest)),
            Err(fault) => Err(fault),
        }
    }

    /// A combination from its coefficients, which may end in zeros, and its constant.
    fn from_parts(terms: Vec<i32>, rest: i128) -> Lin
        requires few { length terms.items ≤ 512 }
        requires narrow { are_within (2 ^ 24) terms.items ≡ true }
        requires narrow_rest { is_within (2 ^ 90) rest ≡ true }
        ensures { result ≡ trimmed terms.items rest }
    {
        let mut terms = terms;
        trim(&mut terms);
        Lin { terms, rest }
    }
}

impl TryClone for Lin {
    fn try_clone(&self, alloc: Global) -> Result<Lin, AllocError>
        ensures { IfOk result (λ copy. copy ≡ self.now) }
    {
        let terms = Vec::from_slice(alloc, self.terms.as_slice())?;
        Ok(Lin {
            terms,
            rest: self.rest,
        })
    }
}

impl Same for Lin {
    fn same(&self, other: &Lin) -> bool
        ensures { IsTrue result ↔ (self.now ≡ other.now) }
    {
        self.rest == other.rest && same_terms(self.terms.as_slice(), other.terms.as_slice())
    }
}

/// Whether two lists of coefficients are equal.
fn same_terms(a: &[i32], b: &[i32]) -> bool
    ensures { IsTrue result ↔ (a.now ≡ b.now) }
{
    a == b
}
