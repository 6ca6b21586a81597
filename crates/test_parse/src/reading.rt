//! Texts with what reading them gives: files that are read, and the exact places of faults in others.
use fsl_base::List;
use fsl_parse::{ParseFault, parse};
use fsl_token::{Token, lex};
use std::alloc::{AllocError, Global};

/// What a text is read as.
#[derive(Clone, Copy, Debug, PartialEq, Eq)]
pub(crate) enum Outcome {
    Read,
    /// Unexpected is what begins at this byte.
    Unexpected(u32),
    /// Nested too deeply is what begins at this byte.
    Deep(u32),
    /// The text is too long for this test, has no tokens, or memory lacked.
    Untried,
}

/// The bytes of a text of a test, which has at most 5000.
fn length(text: &str) -> u32 {
    text.len().min(5000) as u32
}

pub(crate) fn tokens_of(alloc: Global, text: &str) -> Option<List<Token>> {
    let bytes = text.as_bytes();
    if bytes.len() > 5000 {
        return None;
    }
    lex(alloc, bytes).ok()
}

pub(crate) fn reading(alloc: Global, text: &str) -> Outcome {
    let Some(tokens) = tokens_of(alloc, text) else {
        return Outcome::Untried;
    };
    match parse(alloc, &tokens, length(text)) {
        Ok(_) => Outcome::Read,
        Err(ParseFault::Unexpected { place }) => Outcome::Unexpected(place.from),
        Err(ParseFault::Deep { place }) => Outcome::Deep(place.from),
        Err(ParseFault::NoMemory) => Outcome::Untried,
    }
}

/// What the two parts of a text are read as together, and the byte at which the second begins.
fn reading_at(alloc: Global, before: &str, after: &str) -> (Outcome, u32) {
    match format!(in alloc; "{before}{after}") {
        Ok(text) => (reading(alloc, text.as_str()), length(before)),
        Err(_) => (Outcome::Untried, 0),
    }
}

#[test]
fn files(rt: HostRuntime) {
    let rows = [
        "",
        "// nothing",
        "proc main() { }",
        "proc f(a, bank g) { } proc g() requires (emp) ensures (emp) { }",
        "inv Flag(d, bank g) of v { if (v == 0) { emp } else { d |-> 7 } } { up(emp) &*& down(P(v)) }",
        "inv Halves(a, b) of n { if (n == 0) { emp } else { a |-> 1 } } { if (n == 0) { emp } else { b |-> 2 } } proc main() { }",
        "pred Ready(d) { d |->[2 * d - -1] ?x &*& x |-> _ &*& x |-> 3 }",
        "pred Held(a, g) { Init(a) &*& Rel(a, F(a)) &*& RmwAcq(a, F()) &*& Acq(a, F(a, 1), 0, {0, 1}) &*& Tok(g, 1) &*& Auth(g, 2) }",
        "pred Least(a) { Acq(a, F(), 9223372036854775807, {}) &*& a >= 1 &*& -a <= (1) &*& result != 2 }",
        "proc f(a) { let x = a; x = call f(1, 2); let b = alloc na; let c = alloc acq F(b); let d = alloc rmw F(); }",
        "proc f(a) { let x = load acq(a); store rlx(a, x + 1); x = cas acqrel rlx(a, 0, 1) with { mint(g, 1); burn(g, 1); }; }",
        "proc f(a) { let x = fetch_add rel(a, 1); x = exchange acq(a, 1) with { }; call f(x); par { f(1); f(2); } free(a); }",
        "proc f(a) { fence acq; fence rel (emp); fence acqrel (a |-> _); bank g; mint(g, 1); burn(g, 1); print(a); return; }",
        "proc f(a) { if (a < 1) { return a; } else { assert (a != 1); } while (true) inv (emp) { } while (false) { if (a <= 2) { } } }",
        "proc f(a) { if (a > 1) { par { } } while (a >= 1) { } return a + 2 - 3 * 4 * -(5 - a); }",
    ];
    for text in rows {
        assert_eq!(rt; reading(rt.alloc(), text), Outcome::Read, "{text}");
    }
}

#[test]
fn faults_of_declarations(rt: HostRuntime) {
    let rows = [
        ("", "main() { }"),
        ("proc ", "() { }"),
        ("proc ", "proc() { }"),
        ("proc main ", "{ }"),
        ("proc main(", "{ }"),
        ("proc main(a, ", ") { }"),
        ("proc main(a ", "b) { }"),
        ("proc main(bank ", ") { }"),
        ("proc main() ", "; "),
        ("proc main() ensures ", "emp { }"),
        ("proc main() requires (", ") { }"),
        ("proc main() ensures (emp) ", "requires (emp) { }"),
        ("proc main() { } ", "}"),
        ("proc main() { ", ""),
        ("proc main() { // the end", ""),
        ("inv F(d) ", "{ emp }"),
        ("inv F(d) of ", "{ emp }"),
        ("inv F(d) of v ", ""),
        ("inv F(d) of v { emp", ", }"),
        ("inv F(d) of v { ", "}"),
        ("pred P() { emp } ", "{ emp }"),
        ("pred P() ", "of v { emp }"),
    ];
    for (before, after) in rows {
        let (found, place) = reading_at(rt.alloc(), before, after);
        assert_eq!(rt; found, Outcome::Unexpected(place), "{before}{after}");
    }
}

#[test]
fn faults_of_assertions(rt: HostRuntime) {
    let rows = [
        ("pred P() { f(1) ", "== 1 }"),
        ("pred P() { x ", "}"),
        ("pred P() { x |->[1 ", "y }"),
        ("pred P() { x |-> ", "}"),
        ("pred P() { x |-> ?", "1 }"),
        ("pred P() { x == 1 ", "== 1 }"),
        ("pred P() { emp &*& ", "}"),
        ("pred P() { emp &*& ", "_ }"),
        ("pred P() { if (true) { emp } ", "}"),
        ("pred P() { if (true) { emp } else ", "emp }"),
        ("pred P() { if (x", ") { emp } else { emp } }"),
        ("pred P() { Init(", ") }"),
        ("pred P() { Rel(a, F", ") }"),
        ("pred P() { RmwAcq(a", ") }"),
        ("pred P() { Acq(a, F(), ", "x, {}) }"),
        ("pred P() { Acq(a, F(), 0", ") }"),
        ("pred P() { Acq(a, F(), 0, {1", ") }"),
        ("pred P() { Tok(", "1, 2) }"),
        ("pred P() { Auth(g", ") }"),
        ("pred P() { up ", "emp }"),
        ("pred P() { down(emp ", "}"),
    ];
    for (before, after) in rows {
        let (found, place) = reading_at(rt.alloc(), before, after);
        assert_eq!(rt; found, Outcome::Unexpected(place), "{before}{after}");
    }
}

#[test]
fn faults_of_right_sides(rt: HostRuntime) {
    let rows = [
        ("proc main() { let x = ", "; }"),
        ("proc main() { let x = ", ""),
        ("proc main() { let x = 1 ", "}"),
        ("proc main() { let x = 1 ", "2; }"),
        ("proc main() { let x = 1 + ", "; }"),
        ("proc main() { let x = 1 * ", "+ 2; }"),
        ("proc main() { let x = (1 ", "; }"),
        ("proc main() { let x = ", "true; }"),
        ("proc main() { let x = f", "(1); }"),
        ("proc main() { let x = load ", "(a); }"),
        ("proc main() { let x = load na ", "a; }"),
        ("proc main() { let x = load na(a", ", 1); }"),
        ("proc main() { let x = cas rlx ", "(a, 0, 1); }"),
        ("proc main() { let x = cas rlx rlx(a, 0", "); }"),
        ("proc main() { let x = exchange na(a, 1) with ", "; }"),
        (
            "proc main() { let x = fetch_add rlx(a, 1) with { ",
            "print(1); }; }",
        ),
        (
            "proc main() { let x = fetch_add rlx(a, 1) with { mint(g, 1) ",
            "}; }",
        ),
        ("proc main() { let x = alloc ", "rel F(); }"),
        ("proc main() { let x = alloc rmw ", "; }"),
    ];
    for (before, after) in rows {
        let (found, place) = reading_at(rt.alloc(), before, after);
        assert_eq!(rt; found, Outcome::Unexpected(place), "{before}{after}");
    }
}

#[test]
fn faults_of_statements(rt: HostRuntime) {
    let rows = [
        ("proc main() { x ", "+ 1; }"),
        ("proc main() { let ", "1 = 2; }"),
        ("proc main() { let x ", "; }"),
        ("proc main() { ", "load na(x); }"),
        ("proc main() { ", "{ } }"),
        ("proc main() { ", "else { } }"),
        ("proc main() { store na(a", "); }"),
        ("proc main() { call ", "(1); }"),
        ("proc main() { call f(1 ", "2); }"),
        ("proc main() { par { ", "call f(); } }"),
        ("proc main() { par { f() ", "} }"),
        ("proc main() { fence ", "rlx; }"),
        ("proc main() { fence acq ", "(emp); }"),
        ("proc main() { fence rel ", "; }"),
        ("proc main() { if (1", ") { } }"),
        ("proc main() { if (x == 1) ", "return; }"),
        ("proc main() { if (true) { } else ", "if (true) { } }"),
        ("proc main() { while ", "true { } }"),
        ("proc main() { while (true) inv ", "{ } }"),
        ("proc main() { assert (1 < 2 ", "< 3); }"),
        ("proc main() { print ", "1; }"),
        ("proc main() { bank ", "; }"),
        ("proc main() { mint(", "1, g); }"),
        ("proc main() { free(a) ", "}"),
        ("proc main() { return 1 ", "return; }"),
    ];
    for (before, after) in rows {
        let (found, place) = reading_at(rt.alloc(), before, after);
        assert_eq!(rt; found, Outcome::Unexpected(place), "{before}{after}");
    }
}

/// A text that nests: `open` stands in it as often as `levels` says, then `inner` and `last`, and then `close` as often.
#[derive(Clone, Copy)]
struct Nest {
    before: &'static str,
    open: &'static str,
    levels: u32,
    inner: &'static str,
    last: &'static str,
    close: &'static str,
    after: &'static str,
}

/// The text, and the byte at which `last` begins in it.
fn text_of(alloc: Global, nest: &Nest) -> Result<(String, u32), AllocError> {
    let mut text = String::from_str(alloc, nest.before)?;
    for _ in 0..nest.levels {
        text.push_str(nest.open)?;
    }
    text.push_str(nest.inner)?;
    let place = length(text.as_str());
    text.push_str(nest.last)?;
    for _ in 0..nest.levels {
        text.push_str(nest.close)?;
    }
    text.push_str(nest.after)?;
    Ok((text, place))
}

/// What the text is read as, and the byte at which `last` begins in it.
fn nested(alloc: Global, nest: &Nest) -> (Outcome, u32) {
    match text_of(alloc, nest) {
        Ok((text, place)) => (reading(alloc, text.as_str()), place),
        Err(_) => (Outcome::Untried, 0),
    }
}

#[test]
fn files_nest_64_deep(rt: HostRuntime) {
    let rows = [
        Nest {
            before: "proc main() { print",
            open: "(",
            levels: 63,
            inner: "",
            last: "1",
            close: ")",
            after: "; }",
        },
        Nest {
            before: "proc main() { print(",
            open: "-",
            levels: 62,
            inner: "",
            last: "1",
            close: "",
            after: "); }",
        },
        Nest {
            before: "proc main() { ",
            open: "while (true) { ",
            levels: 62,
            inner: "par ",
            last: "{ } ",
            close: "} ",
            after: "}",
        },
        Nest {
            before: "pred P() { ",
            open: "up(",
            levels: 62,
            inner: "x |->",
            last: "[1] y",
            close: ")",
            after: "}",
        },
    ];
    for nest in &rows {
        let (found, _) = nested(rt.alloc(), nest);
        assert_eq!(rt; found, Outcome::Read, "{}", nest.open);
    }
}

#[test]
fn no_file_nests_65_deep(rt: HostRuntime) {
    let rows = [
        Nest {
            before: "proc main() { print",
            open: "(",
            levels: 63,
            inner: "",
            last: "(1)",
            close: ")",
            after: "; }",
        },
        Nest {
            before: "proc main() { print(",
            open: "-",
            levels: 62,
            inner: "",
            last: "-1",
            close: "",
            after: "); }",
        },
        Nest {
            before: "proc main() { ",
            open: "while (true) { ",
            levels: 63,
            inner: "par ",
            last: "{ } ",
            close: "} ",
            after: "}",
        },
        Nest {
            before: "pred P() { ",
            open: "up(",
            levels: 63,
            inner: "x |->",
            last: "[1] y",
            close: ")",
            after: "}",
        },
        Nest {
            before: "pred P() { ",
            open: "up(",
            levels: 63,
            inner: "f",
            last: "() + ",
            close: ")",
            after: "}",
        },
    ];
    for nest in &rows {
        let (found, place) = nested(rt.alloc(), nest);
        assert_eq!(rt; found, Outcome::Deep(place), "{}", nest.open);
    }
}

#[test]
fn what_may_not_stand_there_is_unexpected_at_any_depth(rt: HostRuntime) {
    let rows = [
        Nest {
            before: "proc main() { print",
            open: "(",
            levels: 63,
            inner: "",
            last: "+ (1)",
            close: ")",
            after: "; }",
        },
        Nest {
            before: "proc main() { print",
            open: "(",
            levels: 63,
            inner: "1 ",
            last: "(1)",
            close: ")",
            after: "; }",
        },
        Nest {
            before: "proc main() { ",
            open: "while (true) { ",
            levels: 63,
            inner: "",
            last: "{ } ",
            close: "} ",
            after: "}",
        },
        Nest {
            before: "pred P() { ",
            open: "up(",
            levels: 63,
            inner: "x == 1 ",
            last: "[1]",
            close: ")",
            after: "}",
        },
    ];
    for nest in &rows {
        let (found, place) = nested(rt.alloc(), nest);
        assert_eq!(rt; found, Outcome::Unexpected(place), "{}", nest.open);
    }
}
