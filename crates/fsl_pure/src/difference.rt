//! Terms that say something of the difference of two symbols, or of one symbol, as edges.
ghost use Rattle.std.specs.Prelude.{◌≡◌, ℕ, ◌≤◌, ◌^◌, length, IfSome};
ghost use Rattle.fsl_lin.specs.Numbers.{listed, most};
ghost use Rattle.fsl_lin.specs.Facts.{end_at, ends, edge_from, edge_of};
ghost use Rattle.fsl_lin.specs.Sizes.{IsSize};

use fsl_lin::Edge;

/// The number of a place, beside the two ends that the places below it have.
fn end_at(number: &i128, at: u32, before: Option<(u32, u32)>) -> Option<(u32, u32)>
    ensures { result ≡ end_at number.now at before }
{
    let (x, y) = before?;
    if *number == 0 {
        Some((x, y))
    } else if *number == 1 && x == 0 {
        Some((at, y))
    } else if *number == -1 && y == 0 {
        Some((x, at))
    } else {
        None
    }
}

/// The two ends of a difference, with 0 for one that lacks.
fn ends(numbers: &[i128]) -> Option<(u32, u32)>
    requires { length numbers.now ≡ 513 }
    ensures { result ≡ ends most (listed numbers.now) }
{
    let mut found = Some((0, 0));
    for below in 0..numbers.len() - 1 {
        let at = below + 1;
        if numbers[at] != 0 {
            found = end_at(&numbers[at], at as u32, found);
        }
    }
    found
}

/// The edge from one end to the other, of a constant.
fn edge_from(constant: &i128, ends: Option<(u32, u32)>) -> Option<Edge>
    requires { IsSize (2 ^ 126) constant.now }
    ensures { result ≡ edge_from constant.now ends }
{
    match ends {
        Some((x, y)) if x != 0 || y != 0 => Some(Edge {
            from: x,
            to: y,
            bound: -*constant,
        }),
        _ => None,
    }
}

/// The edge of a term x - y + c, x + c or -y + c.
pub fn edge_of(numbers: &[i128]) -> Option<Edge>
    requires whole { length numbers.now ≡ 513 }
    requires size { (i : ℕ) → IsSize (2 ^ 126) (listed numbers.now i) }
    ensures exact { result ≡ edge_of (listed numbers.now) }
    ensures within { IfSome result (λ e. (e.from ≤ 512) × (e.to ≤ 512)) }
{
    edge_from(&numbers[0], ends(numbers))
}
