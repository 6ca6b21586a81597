//! Texts with their tokens, faults and places, as the language says them.
use fsl_base::Span;
use fsl_token::{LexFault, Place, Token, TokenKind, lex, place};
use std::alloc::Global;

// Whether the bytes have just these tokens, each given by its kind, its first byte, the byte behind its
// last and its value.
fn has_tokens(alloc: Global, bytes: &[u8], wanted: &[(TokenKind, u32, u32, u64)]) -> bool {
    if bytes.len() > 1000 {
        return false;
    }
    let Ok(found) = lex(alloc, bytes) else {
        return false;
    };
    let found = found.as_slice();
    if found.len() != wanted.len() {
        return false;
    }
    for i in 0..wanted.len() {
        let (kind, from, to, number) = wanted[i];
        let span = Span { from, to };
        if found[i] != (Token { kind, span, number }) {
            return false;
        }
    }
    true
}

// Whether this is the fault of the bytes.
fn has_fault(alloc: Global, bytes: &[u8], wanted: LexFault) -> bool {
    if bytes.len() > 1000 {
        return false;
    }
    match lex(alloc, bytes) {
        Ok(_) => false,
        Err(fault) => fault == wanted,
    }
}

#[test]
fn reserved_words_and_symbols(rt: HostRuntime) {
    let rows = [
        ("acq", TokenKind::Acq),
        ("acqrel", TokenKind::AcqRel),
        ("alloc", TokenKind::Alloc),
        ("assert", TokenKind::Assert),
        ("bank", TokenKind::Bank),
        ("burn", TokenKind::Burn),
        ("call", TokenKind::Call),
        ("cas", TokenKind::Cas),
        ("down", TokenKind::Down),
        ("else", TokenKind::Else),
        ("emp", TokenKind::Emp),
        ("ensures", TokenKind::Ensures),
        ("exchange", TokenKind::Exchange),
        ("false", TokenKind::False),
        ("fence", TokenKind::Fence),
        ("fetch_add", TokenKind::FetchAdd),
        ("free", TokenKind::Free),
        ("if", TokenKind::If),
        ("inv", TokenKind::Inv),
        ("let", TokenKind::Let),
        ("load", TokenKind::Load),
        ("mint", TokenKind::Mint),
        ("na", TokenKind::Na),
        ("of", TokenKind::Of),
        ("par", TokenKind::Par),
        ("pred", TokenKind::Pred),
        ("print", TokenKind::Print),
        ("proc", TokenKind::Proc),
        ("rel", TokenKind::Rel),
        ("requires", TokenKind::Requires),
        ("result", TokenKind::ResultWord),
        ("return", TokenKind::Return),
        ("rlx", TokenKind::Rlx),
        ("rmw", TokenKind::Rmw),
        ("store", TokenKind::Store),
        ("true", TokenKind::True),
        ("up", TokenKind::Up),
        ("while", TokenKind::While),
        ("with", TokenKind::With),
        ("Acq", TokenKind::AcqAssertion),
        ("Auth", TokenKind::AuthAssertion),
        ("Init", TokenKind::InitAssertion),
        ("Rel", TokenKind::RelAssertion),
        ("RmwAcq", TokenKind::RmwAcqAssertion),
        ("Tok", TokenKind::TokAssertion),
        ("&*&", TokenKind::Separate),
        ("|->", TokenKind::PointsTo),
        ("==", TokenKind::Equal),
        ("!=", TokenKind::NotEqual),
        ("<=", TokenKind::AtMost),
        (">=", TokenKind::AtLeast),
        ("<", TokenKind::Less),
        (">", TokenKind::Greater),
        ("=", TokenKind::Assign),
        ("+", TokenKind::Plus),
        ("-", TokenKind::Minus),
        ("*", TokenKind::Star),
        ("?", TokenKind::Question),
        ("_", TokenKind::Underscore),
        ("(", TokenKind::OpenParen),
        (")", TokenKind::CloseParen),
        ("{", TokenKind::OpenBrace),
        ("}", TokenKind::CloseBrace),
        ("[", TokenKind::OpenBracket),
        ("]", TokenKind::CloseBracket),
        (",", TokenKind::Comma),
        (";", TokenKind::Semicolon),
    ];
    for (text, kind) in rows {
        assert!(rt; text.len() < 100, "a short text");
        let len = text.len() as u32;
        assert!(rt;
            has_tokens(rt.alloc(), text.as_bytes(), &[(kind, 0, len, 0)]),
            "{text}"
        );
    }
}

#[test]
fn texts(rt: HostRuntime) {
    let name = TokenKind::Name;
    let number = TokenKind::Number;
    let rows: [(&str, &[(TokenKind, u32, u32, u64)]); 15] = [
        ("", &[]),
        (" \t\r\n// no token", &[]),
        ("a\rb//\rc", &[(name, 0, 1, 0), (name, 2, 3, 0)]),
        ("//\na// b\n//", &[(name, 3, 4, 0)]),
        (
            "a|->b",
            &[
                (name, 0, 1, 0),
                (TokenKind::PointsTo, 1, 4, 0),
                (name, 4, 5, 0),
            ],
        ),
        (
            "= ==",
            &[(TokenKind::Assign, 0, 1, 0), (TokenKind::Equal, 2, 4, 0)],
        ),
        (
            "===",
            &[(TokenKind::Equal, 0, 2, 0), (TokenKind::Assign, 2, 3, 0)],
        ),
        (
            "<=<",
            &[(TokenKind::AtMost, 0, 2, 0), (TokenKind::Less, 2, 3, 0)],
        ),
        (
            ">>=",
            &[(TokenKind::Greater, 0, 1, 0), (TokenKind::AtLeast, 1, 3, 0)],
        ),
        (
            "_ _x __",
            &[
                (TokenKind::Underscore, 0, 1, 0),
                (name, 2, 4, 0),
                (name, 5, 7, 0),
            ],
        ),
        (
            "gr\u{f6}\u{df}e=1",
            &[
                (name, 0, 7, 0),
                (TokenKind::Assign, 7, 8, 0),
                (number, 8, 9, 1),
            ],
        ),
        (
            "acq1 Acq\tx",
            &[
                (name, 0, 4, 0),
                (TokenKind::AcqAssertion, 5, 8, 0),
                (name, 9, 10, 0),
            ],
        ),
        ("007x", &[(number, 0, 3, 7), (name, 3, 4, 0)]),
        (
            "9223372036854775808",
            &[(number, 0, 19, 9223372036854775808)],
        ),
        (
            "aaaaaaaabbbbbbbbaaaaaaaabbbbbbbbaaaaaaaabbbbbbbbaaaaaaaabbbbbbbb",
            &[(name, 0, 64, 0)],
        ),
    ];
    for (text, wanted) in rows {
        assert!(rt; has_tokens(rt.alloc(), text.as_bytes(), wanted), "{text}");
    }
}

#[test]
fn faults(rt: HostRuntime) {
    let rows: [(&[u8], LexFault); 12] = [
        (b"/", LexFault::BadChar { at: 0 }),
        (b"a /b", LexFault::BadChar { at: 2 }),
        (b"a & b", LexFault::BadChar { at: 2 }),
        (b"&*", LexFault::BadChar { at: 0 }),
        (b"a|- b", LexFault::BadChar { at: 1 }),
        (b"!9223372036854775809", LexFault::BadChar { at: 0 }),
        (b" 9223372036854775809 !", LexFault::LongNumber { at: 1 }),
        (b"1000000000000000000000000", LexFault::LongNumber { at: 0 }),
        (
            b"(aaaaaaaabbbbbbbbaaaaaaaabbbbbbbbaaaaaaaabbbbbbbbaaaaaaaabbbbbbbbc",
            LexFault::LongName { at: 1 },
        ),
        (b"gr\xc3\xb6\xc3", LexFault::NotText { at: 4 }),
        (b"!\xff", LexFault::NotText { at: 1 }),
        (b"\xe2\x86", LexFault::NotText { at: 0 }),
    ];
    for (bytes, wanted) in rows {
        assert!(rt; has_fault(rt.alloc(), bytes, wanted), "{wanted:?}");
    }
}

#[test]
fn places(rt: HostRuntime) {
    let text = "a\u{f6}b\n\n\u{2192}\u{1f600}c\rd";
    let bytes = text.as_bytes();
    let rows = [
        (0, 1, 1),
        (1, 1, 2),
        (3, 1, 3),
        (4, 1, 4),
        (5, 2, 1),
        (6, 3, 1),
        (9, 3, 2),
        (13, 3, 3),
        (14, 3, 4),
        (15, 3, 5),
        (16, 3, 6),
    ];
    for (at, line, col) in rows {
        assert!(rt; text.is_char_boundary(at as usize), "a place at {at}");
        assert!(rt; at < 100, "a place at {at}");
        assert!(rt; place(bytes, at) == Place { line, col }, "at {at}");
    }
}
