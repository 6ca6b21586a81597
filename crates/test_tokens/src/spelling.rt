//! The tokens of a small tree.
use fsl_base::{List, Span};
use fsl_token::{Token, TokenKind};
use fsl_tree::{Assertion, Atom, Declaration, File, Parameter, Parameters, Part, Predicate, spell};
use std::alloc::{AllocError, Global};
use std::test::Fail;

fn at(from: u32, to: u32) -> Span {
    Span { from, to }
}

// `{ emp }` from the byte 15 on
fn part(alloc: Global) -> Part {
    Part {
        open: at(15, 16),
        assertion: Assertion {
            first: Atom::Empty { word: at(17, 20) },
            more: List::new(alloc),
        },
        close: at(21, 22),
    }
}

// `bank g` from the byte 7 on
fn parameters(alloc: Global) -> Parameters {
    let first = Parameter {
        bank: Some(at(7, 11)),
        name: at(12, 13),
    };
    Parameters {
        first,
        more: List::new(alloc),
    }
}

// `pred p(bank g) { emp }`
fn small_file(alloc: Global) -> Result<File, AllocError> {
    let predicate = Predicate {
        word: at(0, 4),
        name: at(5, 6),
        open: at(6, 7),
        parameters: Some(parameters(alloc)),
        close: at(13, 14),
        body: part(alloc),
    };
    let mut declarations = List::new(alloc);
    declarations.push(Declaration::Predicate { predicate })?;
    Ok(File { declarations })
}

#[test]
fn tokens_of_a_small_file(rt: HostRuntime) -> Result<(), Fail> {
    let tokens = spell(rt.alloc(), &small_file(rt.alloc())?)?;
    let wanted = [
        (TokenKind::Pred, 0, 4),
        (TokenKind::Name, 5, 6),
        (TokenKind::OpenParen, 6, 7),
        (TokenKind::Bank, 7, 11),
        (TokenKind::Name, 12, 13),
        (TokenKind::CloseParen, 13, 14),
        (TokenKind::OpenBrace, 15, 16),
        (TokenKind::Emp, 17, 20),
        (TokenKind::CloseBrace, 21, 22),
    ];
    let tokens = tokens.as_slice();
    assert_eq!(rt; tokens.len(), wanted.len());
    for (token, (kind, from, to)) in tokens.iter().zip(wanted) {
        let span = at(from, to);
        assert!(rt;
            *token
                == Token {
                    kind,
                    span,
                    number: 0
                }
        );
    }
    Ok(())
}
