//! Small parts of programs.
ghost use Rattle.std.specs.Prelude.{◌≡◌, [], ◌∷◌, IfOk};

use fsl_base::{List, Span, Text};
use fsl_core::{Act, Asrt, CmpOp, Cond, Expr, Proc, Stmt};
use std::alloc::{AllocError, Global};

/// A list of one item.
pub fn one<T: Drop>(alloc: Global, item: T) -> Result<List<T>, AllocError>
    ensures { IfOk result (λ list. list ≡ item ∷ []) }
{
    let mut items = List::new(alloc);
    items.push(item)?;
    Ok(items)
}

/// A constant.
pub fn constant(n: i128) -> Expr {
    Expr::Const { n }
}

/// A variable.
pub fn variable(slot: u32) -> Expr {
    Expr::Var { slot }
}

/// That two expressions are equal.
pub fn equal(l: Expr, r: Expr) -> Cond {
    Cond::Cmp {
        op: CmpOp::Eq,
        l,
        r,
    }
}

/// A statement, at some place.
pub fn at(act: Act) -> Stmt {
    let span = Span { from: 3, to: 5 };
    Stmt { span, act }
}

/// The numbers of the variables of a procedure.
#[derive(Clone, Copy)]
pub struct Slots {
    pub params: u32,
    pub all: u32,
    pub banks: &'static [u32],
}

// A name and banks. They are made before a procedure's parts are at hand, since whatever is at hand where a call fails
// has to be dropped there.
fn named(alloc: Global, name: &str, banks: &[u32]) -> Result<(Text, List<u32>), AllocError> {
    let name = Text::from_str(alloc, name)?;
    let banks = List::from_slice(alloc, banks)?;
    Ok((name, banks))
}

/// A procedure.
pub fn procedure(
    alloc: Global,
    name: &str,
    slots: Slots,
    pre: Asrt,
    post: Asrt,
    body: List<Stmt>,
) -> Result<Proc, AllocError> {
    let (name, banks) = named(alloc, name, slots.banks)?;
    Ok(Proc {
        name,
        params: slots.params,
        slots: slots.all,
        banks,
        pre,
        post,
        body,
        last: Span { from: 7, to: 8 },
    })
}

/// A procedure whose contract asks and gives nothing.
pub fn plain(
    alloc: Global,
    name: &str,
    slots: Slots,
    body: List<Stmt>,
) -> Result<Proc, AllocError> {
    procedure(alloc, name, slots, Asrt::Emp, Asrt::Emp, body)
}
