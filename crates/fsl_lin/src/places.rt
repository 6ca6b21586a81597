//! Arrays of the numbers of a term.
ghost use Rattle.std.specs.Prelude.{◌≡◌, length};
ghost use Rattle.fsl_lin.specs.Numbers.{listed, is_constant, most};
ghost use Rattle.fsl_lin.specs.Rows.{pivot_below};

/// Whether no symbol has a coefficient.
pub fn is_constant(numbers: &[i128]) -> bool
    requires { length numbers.now ≡ 513 }
    ensures { result ≡ is_constant (listed numbers.now) }
{
    let mut k = numbers.len() - 1;
    while k > 0 {
        if numbers[k] != 0 {
            return false;
        }
        k -= 1;
    }
    true
}

/// The greatest place of a symbol whose coefficient is 1 or -1.
pub fn pivot_of(numbers: &[i128]) -> Option<usize>
    requires { length numbers.now ≡ 513 }
    ensures { result ≡ pivot_below most (listed numbers.now) }
{
    let mut k = numbers.len() - 1;
    while k > 0 {
        if numbers[k] == 1 || numbers[k] == -1 {
            return Some(k);
        }
        k -= 1;
    }
    None
}
