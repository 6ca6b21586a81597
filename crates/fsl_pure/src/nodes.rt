//! Terms that are a number, or a symbol and a number: their difference is an edge, and the table says at once
//! whether it is proved. Addresses are such terms, and nearly every question compares two addresses.
ghost use Rattle.std.specs.Prelude.{◌≡◌, ◌^◌, ◌-ℤ◌, true, IfSome};
ghost use Rattle.fsl_lin.specs.Combination.{is_within};
ghost use Rattle.fsl_lin.specs.Equations.{rows_of};
ghost use Rattle.fsl_lin.specs.Sizes.{IsSize};
ghost use Rattle.fsl_pure.specs.Nodes.{IsNode, AreNodes};

use crate::reduced::Reduced;
use fsl_lin::{Edge, Lin};

/// The node of a term that is a number, or a symbol and a number: 0, or that of the symbol.
fn node_of(t: &Lin) -> Option<u32>
    ensures { IfSome result (λ x. IsNode x t.now) }
{
    let width = t.width();
    if width == 0 {
        return Some(0);
    }
    if t.part(width) != 1 {
        return None;
    }
    for place in 1..width {
        if t.part(place) != 0 {
            return None;
        }
    }
    Some(width as u32)
}

/// The nodes of two such terms, where their difference has no pivot.
pub fn nodes(eqs: &Reduced, a: &Lin, b: &Lin) -> Option<(u32, u32)>
    ensures { IfSome result (λ p. AreNodes (rows_of eqs.now) p.0 p.1 a.now b.now) }
{
    let x = node_of(a)?;
    let y = node_of(b)?;
    if eqs.level(x, y) { Some((x, y)) } else { None }
}

/// The edge of `a - b + gap`, where these are the nodes of a and b.
pub fn edge_between(x: u32, y: u32, a: &Lin, b: &Lin, gap: &i128) -> Edge
    requires { IsSize (2 ^ 90) gap.now }
    ensures { result ≡ record { from = x; to = y; bound = (b.now.rest -ℤ a.now.rest) -ℤ gap.now } }
{
    Edge {
        from: x,
        to: y,
        bound: less(&b.rest(), &a.rest(), gap),
    }
}

fn less(whole: &i128, first: &i128, second: &i128) -> i128
    requires whole { is_within (2 ^ 90) whole.now ≡ true }
    requires first { is_within (2 ^ 90) first.now ≡ true }
    requires second { IsSize (2 ^ 90) second.now }
    ensures value { result ≡ (whole.now -ℤ first.now) -ℤ second.now }
    ensures size { IsSize (2 ^ 92) result }
{
    *whole - *first - *second
}
