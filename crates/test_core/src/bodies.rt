//! Bodies that break one rule of scopes each, and the same mended: the mended ones alone give a program.
use crate::building::{Slots, at, one, plain};
use crate::wording::Line::{Bank, Fence, Give, Mint, Outcome, Par, Print, Return, Same, Set};
use crate::wording::{Line, add_lines};
use fsl_base::List;
use fsl_core::{Act, Asrt, Cond, Program, Stmt};
use std::alloc::{AllocError, Global};
use std::test::Fail;

/// Where the lines in the middle of a body stand.
#[derive(Clone, Copy)]
enum Middle {
    If,
    Else,
    While,
}

use Middle::{Else, If, While};

/// What a body shows, its lines in front of a block, inside it and behind it, and whether it gives a program.
type Body = (
    &'static str,
    &'static [Line],
    Middle,
    &'static [Line],
    &'static [Line],
    bool,
);

/// Bodies of `main`, which has three variables. The first procedure beside it takes a number, the second a bank.
const BODIES: [Body; 38] = [
    (
        "a variable is read where it is declared",
        &[Set(0)],
        If,
        &[Print(0)],
        &[Print(0)],
        true,
    ),
    ("it isn't declared", &[], If, &[Print(0)], &[], false),
    (
        "it is declared behind",
        &[Print(0), Set(0)],
        If,
        &[],
        &[],
        false,
    ),
    (
        "a loop changes a variable",
        &[Set(0)],
        While,
        &[Same(0, 0), Set(0)],
        &[Print(0)],
        true,
    ),
    (
        "it is declared nowhere",
        &[],
        While,
        &[Same(0, 0), Set(0)],
        &[],
        false,
    ),
    (
        "a variable of the loop's body",
        &[],
        While,
        &[Set(0), Print(0)],
        &[],
        true,
    ),
    (
        "it is read behind the loop",
        &[],
        While,
        &[Set(0), Print(0)],
        &[Print(0)],
        false,
    ),
    (
        "it is read behind the branch",
        &[],
        If,
        &[Set(0)],
        &[Print(0)],
        false,
    ),
    (
        "it is read behind the other branch",
        &[],
        Else,
        &[Set(0)],
        &[Print(0)],
        false,
    ),
    (
        "it is declared again behind the branch",
        &[],
        Else,
        &[Set(0)],
        &[Set(0), Print(0)],
        true,
    ),
    (
        "two numbers are compared",
        &[Set(0), Set(1)],
        If,
        &[],
        &[Same(0, 1)],
        true,
    ),
    (
        "two banks are compared",
        &[Bank(0), Bank(1)],
        If,
        &[],
        &[Same(0, 1)],
        false,
    ),
    ("a bank is printed", &[Bank(0)], If, &[], &[Print(0)], false),
    ("a bank is set", &[Bank(0)], If, &[], &[Set(0)], false),
    (
        "a bank is declared twice",
        &[Bank(0)],
        If,
        &[],
        &[Bank(0)],
        false,
    ),
    (
        "a number is declared as a bank",
        &[Set(0)],
        If,
        &[],
        &[Bank(0)],
        false,
    ),
    (
        "a bank has tokens",
        &[Bank(0)],
        While,
        &[Mint(0)],
        &[Mint(0)],
        true,
    ),
    ("a number has tokens", &[Set(0)], If, &[], &[Mint(0)], false),
    (
        "a bank has tokens behind its block",
        &[],
        If,
        &[Bank(0)],
        &[Mint(0)],
        false,
    ),
    (
        "a number for a number",
        &[Set(0)],
        If,
        &[],
        &[Give(1, 0)],
        true,
    ),
    (
        "a bank for a number",
        &[Bank(0)],
        If,
        &[],
        &[Give(1, 0)],
        false,
    ),
    (
        "a bank for a bank",
        &[Bank(0)],
        If,
        &[],
        &[Give(2, 0)],
        true,
    ),
    (
        "a number for a bank",
        &[Set(0)],
        If,
        &[],
        &[Give(2, 0)],
        false,
    ),
    (
        "what isn't there for a number",
        &[],
        If,
        &[],
        &[Give(1, 0)],
        false,
    ),
    ("two threads", &[], If, &[], &[Par(2)], true),
    ("eight threads", &[], While, &[Par(8)], &[], true),
    ("no thread", &[], If, &[], &[Par(0)], false),
    ("one thread", &[], Else, &[Par(1)], &[], false),
    ("nine threads", &[], If, &[], &[Par(9)], false),
    (
        "a return in a branch",
        &[],
        Else,
        &[Return],
        &[Return],
        true,
    ),
    ("a return in a loop", &[], While, &[Return], &[], false),
    ("the result in the body", &[], If, &[Outcome], &[], false),
    (
        "a fence binds a value",
        &[],
        If,
        &[Fence(0)],
        &[Set(0)],
        true,
    ),
    (
        "it is read behind the fence",
        &[Fence(0)],
        If,
        &[],
        &[Print(0)],
        false,
    ),
    (
        "a fence binds a variable",
        &[Set(0)],
        If,
        &[Fence(0)],
        &[],
        false,
    ),
    ("the last variable", &[Set(2)], If, &[], &[], true),
    ("one variable too many", &[Set(3)], If, &[], &[], false),
    ("far too many", &[], While, &[Set(256)], &[], false),
];

fn block(alloc: Global, how: Middle, inside: List<Stmt>) -> Act {
    match how {
        If => Act::If {
            cond: Cond::Yes,
            yes: inside,
            no: List::new(alloc),
        },
        Else => Act::If {
            cond: Cond::Yes,
            yes: List::new(alloc),
            no: inside,
        },
        While => Act::While {
            cond: Cond::Yes,
            inv: Asrt::Emp,
            body: inside,
        },
    }
}

fn statements(
    alloc: Global,
    front: &[Line],
    how: Middle,
    inside: &[Line],
    behind: &[Line],
) -> Result<List<Stmt>, AllocError> {
    let mut body = List::new(alloc);
    add_lines(alloc, &mut body, front)?;
    let mut middle = List::new(alloc);
    add_lines(alloc, &mut middle, inside)?;
    body.push(at(block(alloc, how, middle)))?;
    add_lines(alloc, &mut body, behind)?;
    Ok(body)
}

/// Whether `main` with a body is one of a program.
fn is_body(alloc: Global, body: List<Stmt>) -> Result<bool, AllocError> {
    let main = plain(
        alloc,
        "main",
        Slots {
            params: 0,
            all: 3,
            banks: &[],
        },
        body,
    )?;
    let mut procs = one(alloc, main)?;
    let number = Slots {
        params: 1,
        all: 1,
        banks: &[],
    };
    procs.push(plain(alloc, "number", number, List::new(alloc))?)?;
    let bank = Slots {
        params: 1,
        all: 1,
        banks: &[0],
    };
    procs.push(plain(alloc, "bank", bank, List::new(alloc))?)?;
    Ok(Program::new(List::new(alloc), procs).is_some())
}

#[test]
fn bodies_are_scoped(rt: HostRuntime) -> Result<(), Fail> {
    let alloc = rt.alloc();
    for (says, front, how, inside, behind, wanted) in BODIES {
        let body = statements(alloc, front, how, inside, behind)?;
        assert_eq!(rt; is_body(alloc, body)?, wanted, "{says}");
    }
    Ok(())
}
