//! Least totals of walks as rows, one for each node, and what one more edge makes of them.
ghost use Rattle.std.specs.Prelude.{◌≡◌, ◌<◌, ◌≤◌, ◌+◌, ℕ, [], get_or, max, length, IfOk, IfSome};
ghost use Rattle.fsl_lin.specs.Walks.{lesser, through, with_edge, is_below};
ghost use Rattle.fsl_bounds.specs.Matrix.{entry, Closed, is_less, improves, IsSmall, IsSmallEdge, AreSmall, IsRowAfter, AreRowsAfter};

use crate::row::Row;
use fsl_lin::Edge;
use std::alloc::{AllocError, Global};

/// The least total of a walk from u to v. A node without a row is reached from itself alone.
pub fn entry(rows: &[Row], u: u32, v: u32) -> Option<i128>
    ensures { result ≡ entry rows.now u v }
{
    if (u as usize) < rows.len() {
        *rows[u as usize].as_slice().get(v as usize)?
    } else if u == v {
        Some(0)
    } else {
        None
    }
}

/// The lesser of two totals, where `None` is no walk.
fn lesser(a: Option<i128>, b: Option<i128>) -> Option<i128>
    ensures { result ≡ lesser a b }
{
    match (a, b) {
        (None, b) => b,
        (a, None) => a,
        (Some(a), Some(b)) => Some(if b < a { b } else { a }),
    }
}

/// The total of a walk to an edge, the edge and a walk on from it.
fn through(a: Option<i128>, bound: i128, b: Option<i128>) -> Option<i128>
    requires to { IfSome a IsSmall }
    requires bound { IsSmall bound }
    requires on { IfSome b IsSmall }
    ensures { result ≡ through a bound b }
{
    match (a, b) {
        (Some(a), Some(b)) => Some(a + bound + b),
        _ => None,
    }
}

/// Whether a total and a bound come to less than another total, where `None` is no walk.
fn is_less(a: Option<i128>, bound: i128, b: Option<i128>) -> bool
    requires start { IfSome a IsSmall }
    requires bound { IsSmall bound }
    ensures { result ≡ is_less a bound b }
{
    match (a, b) {
        (None, _) => false,
        (Some(_), None) => true,
        (Some(a), Some(b)) => a + bound < b,
    }
}

/// The least total of a walk from u to v with one more edge.
fn entry_after(rows: &[Row], e: &Edge, u: u32, v: u32) -> Option<i128>
    requires rows { AreSmall rows.now }
    requires edge { IsSmallEdge e.now }
    ensures { result ≡ with_edge (entry rows.now) e.now u v }
{
    let around = through(entry(rows, u, e.from), e.bound, entry(rows, e.to, v));
    lesser(entry(rows, u, v), around)
}

/// The least totals from u to each of the first nodes with one more edge.
fn items_after(
    alloc: Global,
    rows: &[Row],
    e: &Edge,
    u: u32,
    many: u32,
) -> Result<Vec<Option<i128>>, AllocError>
    requires rows { AreSmall rows.now }
    requires edge { IsSmallEdge e.now }
    ensures { IfOk result (λ items. IsRowAfter rows.now e.now u many items.items) }
{
    let mut items = Vec::with_capacity(alloc, many as usize)?;
    for v in 0..many {
        items.push(entry_after(rows, e, u, v))?;
    }
    Ok(items)
}

/// Whether one more edge makes a closed walk of a total below 0.
pub fn closes(rows: &[Row], e: &Edge) -> bool
    requires rows { AreSmall rows.now }
    requires edge { IsSmallEdge e.now }
    ensures { result ≡ is_below (entry rows.now e.now.to e.now.from) e.now.bound }
{
    match entry(rows, e.to, e.from) {
        Some(back) => back + e.bound < 0,
        None => false,
    }
}

/// How many nodes there are with one more edge.
pub fn nodes_after(many: u32, e: &Edge) -> u32
    requires from { e.now.from < 513 }
    requires to { e.now.to < 513 }
    ensures { result ≡ max (max (e.now.from + 1) (e.now.to + 1)) many }
{
    (e.from + 1).max(e.to + 1).max(many)
}

/// Whether the edge makes the way from u to its end less. Where it does not, it makes no way from u less.
fn improves(rows: &[Row], e: &Edge, u: u32) -> bool
    requires rows { AreSmall rows.now }
    requires edge { IsSmallEdge e.now }
    ensures { result ≡ improves (entry rows.now) e.now u }
{
    is_less(entry(rows, u, e.from), e.bound, entry(rows, u, e.to))
}

/// The row of u with one more edge: the same one where the edge makes no way from u less.
fn row_after(alloc: Global, rows: &[Row], e: &Edge, u: u32, many: u32) -> Result<Row, AllocError>
    requires rows { AreSmall rows.now }
    requires edge { IsSmallEdge e.now }
    requires closed { Closed (entry rows.now) }
    requires square { u < length rows.now → length (get_or rows.now u []) ≡ length rows.now }
    ensures { IfOk result (λ row. IsRowAfter rows.now e.now u many row) }
{
    if (u as usize) < rows.len() && rows.len() == many as usize && !improves(rows, e, u) {
        rows[u as usize].share()
    } else {
        Row::from_vec(alloc, items_after(alloc, rows, e, u, many)?)
    }
}

/// All rows with one more edge.
pub fn rows_after(alloc: Global, rows: &[Row], e: &Edge, many: u32) -> Result<Vec<Row>, AllocError>
    requires rows { AreSmall rows.now }
    requires edge { IsSmallEdge e.now }
    requires closed { Closed (entry rows.now) }
    requires square { (u : ℕ) → u < length rows.now → length (get_or rows.now u []) ≡ length rows.now }
    ensures { IfOk result (λ after. AreRowsAfter rows.now e.now many after.items) }
{
    let mut after = Vec::with_capacity(alloc, many as usize)?;
    for u in 0..many {
        after.push(row_after(alloc, rows, e, u, many)?)?;
    }
    Ok(after)
}

/// The same rows, none copied.
pub fn shared(alloc: Global, rows: &[Row]) -> Result<Vec<Row>, AllocError>
    ensures { IfOk result (λ same. same.items ≡ rows.now) }
{
    let mut same = Vec::with_capacity(alloc, rows.len())?;
    for row in rows {
        same.push(row.share()?)?;
    }
    Ok(same)
}
