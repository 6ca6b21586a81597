//! Whole programs: each is read, each of its declarations cut short is not, and what is printed of it reads back.
ghost use Rattle.fsl_token.specs.Reading.{AreTokensOf};

use crate::reading::{Outcome, reading, tokens_of};
use fsl_base::{List, Span, Text};
use fsl_parse::{ParseFault, parse};
use fsl_token::{Token, lex};
use fsl_tree::{laws, print};
use std::alloc::{AllocError, Global};

/// Whether the first tokens of a declaration, however many, but not all, miss what comes behind them.
fn ends_too_soon(alloc: Global, text: &str) -> bool {
    let Some(tokens) = tokens_of(alloc, text) else {
        return false;
    };
    let tokens = tokens.as_slice();
    for count in 1..tokens.len() {
        let Ok(first) = List::from_slice(alloc, &tokens[..count]) else {
            return false;
        };
        if !misses_more(alloc, &first) {
            return false;
        }
    }
    true
}

/// Whether the fault of the tokens stands at the end of the file.
fn misses_more(alloc: Global, tokens: &List<Token>) -> bool {
    let end = Span {
        from: 9000,
        to: 9000,
    };
    match parse(alloc, tokens, 9000) {
        Err(ParseFault::Unexpected { place }) => place == end,
        _ => false,
    }
}

/// The text that is printed of the tree of a text; `None` where it has none, or memory lacked.
fn printed(alloc: Global, text: &str) -> Option<Text> {
    let bytes = text.as_bytes();
    if bytes.len() > 5000 {
        return None;
    }
    match lex(alloc, bytes) {
        Ok(tokens) => printed_tokens(alloc, bytes, &tokens),
        Err(_) => None,
    }
}

/// The text that is printed of the tree of the tokens that the bytes were cut into.
#[tactic(auto, using(crate::proofs::Holding::held))]
fn printed_tokens(alloc: Global, bytes: &[u8], tokens: &List<Token>) -> Option<Text>
    requires { AreTokensOf 0 bytes.now tokens.now }
{
    laws::tokens_are_held();
    match parse(alloc, tokens, 5000) {
        Ok(file) => print(alloc, bytes, &file).ok(),
        Err(_) => None,
    }
}

/// Whether what is printed of a text is printed of itself.
fn prints_alike(alloc: Global, text: &str) -> bool {
    let Some(first) = printed(alloc, text) else {
        return false;
    };
    match printed(alloc, first.as_str()) {
        Some(again) => again.as_str() == first.as_str(),
        None => false,
    }
}

/// The declarations one after the other.
fn joined(alloc: Global, declarations: &[&str]) -> Result<String, AllocError> {
    let mut text = String::new(alloc);
    for declaration in declarations {
        text.push_str(*declaration)?;
        text.push_str("\n")?;
    }
    Ok(text)
}

/// Whether a program and each of its declarations are read, and no declaration is whole without its last token.
fn is_read(alloc: Global, declarations: &[&str]) -> bool {
    for declaration in declarations {
        if reading(alloc, *declaration) != Outcome::Read || !ends_too_soon(alloc, *declaration) {
            return false;
        }
    }
    match joined(alloc, declarations) {
        Ok(text) => {
            reading(alloc, text.as_str()) == Outcome::Read && prints_alike(alloc, text.as_str())
        }
        Err(_) => false,
    }
}

#[test]
fn programs_of_one_thread(rt: HostRuntime) {
    let rows: [&[&str]; 7] = [
        &[
            "proc main() {\n  let c = alloc na;\n  store na(c, 7);\n  let x = load na(c);\n  assert (x == 7);\n}\n",
        ],
        &[
            "proc main() {\n  let item = alloc na;\n  let link = alloc na;\n  store na(item, 7);\n  store na(link, item);\n  let found = load na(link);\n  assert (found == item);\n  let x = load na(found);\n  assert (x == 7);\n}\n",
        ],
        &[
            "proc main() {\n  let p = load na(price);\n  let q = load na(postage);\n  let total = p + q;\n  assert (total == 135);\n  store na(price, total - 5); // five off\n  let reduced = load na(price);\n  assert (reduced + 5 == p + q);\n  print(reduced);\n}\n",
        ],
        &[
            "proc main() {\n  let x = load na(left);\n  let y = load na(right);\n  store na(left, y);\n  store na(right, x);\n  assert (new_left == -8);\n  assert (new_left - new_right == y - x);\n}\n",
        ],
        &[
            "proc main() {\n  let c = alloc na;\n  let d = alloc na;\n  store na(c, 1);\n  let x = load na(d);\n  store na(c, x);\n}\n",
        ],
        &["proc main() {\n  let c = alloc na;\n  store na(c, 1);\n  store na(c + 1, 2);\n}\n"],
        &[
            "proc main() {\n  let c = alloc na;\n  store na(c, 7);\n  let x = load na(c);\n  store na(c, x + 1);\n  assert (x == 8);\n}\n",
        ],
    ];
    for declarations in rows {
        assert!(rt; is_read(rt.alloc(), declarations));
    }
}

#[test]
fn programs_that_pass_an_item_on(rt: HostRuntime) {
    let rows: [&[&str]; 4] = [
        &[
            "inv Bell(item) of n { if (n == 0) { emp } else { item |-> 9 } }",
            "proc ring(bell, item) requires (Rel(bell, Bell(item)) &*& item |-> _) {\n  store na(item, 9);\n  store rel(bell, 1);\n}",
            "proc wait(bell, item) requires (Init(bell) &*& Acq(bell, Bell(item), 0, {})) {\n  let n = load acq(bell);\n  while (n == 0) inv (Init(bell) &*& if (n == 0) { Acq(bell, Bell(item), 0, {0}) } else { item |-> 9 }) {\n    n = load acq(bell);\n  }\n  let got = load na(item);\n  assert (got == 9);\n}",
            "proc main() {\n  let item = alloc na;\n  let bell = alloc acq Bell(item);\n  store rel(bell, 0);\n  par { ring(bell, item); wait(bell, item); }\n}",
        ],
        &[
            "proc ring(bell, item) requires (Rel(bell, Bell(item)) &*& item |-> _) {\n  store na(item, 9);\n  fence rel (item |-> 9);\n  store rlx(bell, 1);\n}",
            "proc wait(bell, item) requires (Init(bell) &*& Acq(bell, Bell(item), 0, {})) {\n  let n = load rlx(bell);\n  while (n == 0) inv (Init(bell) &*& if (n == 0) { Acq(bell, Bell(item), 0, {0}) } else { down(item |-> 9) }) {\n    n = load rlx(bell);\n  }\n  fence acq;\n  let got = load na(item);\n}",
        ],
        &[
            "proc first(x, a, b) requires (Init(x) &*& Acq(x, Halves(a, b), 0, {0})) {\n  let n = load acq(x);\n  if (n != 0) { store na(a, 5); }\n}",
            "proc give(x, a, b) requires (Rel(x, Halves(a, b)) &*& a |-> _ &*& b |-> _) {\n  store na(a, 1);\n  store na(b, 2);\n  store rel(x, 1);\n}",
        ],
        &[
            "proc twice(x, y, a) requires (Init(x) &*& Acq(x, Bell(a), 0, {0}) &*& Rel(y, Bell(a))) {\n  let n = load acq(x);\n  if (n == 1) {\n    store rel(y, 1);\n    let m = load acq(x);\n    if (m == 1) { store na(a, 8); }\n  }\n}",
        ],
    ];
    for declarations in rows {
        assert!(rt; is_read(rt.alloc(), declarations));
    }
}

#[test]
fn programs_that_share(rt: HostRuntime) {
    let rows: [&[&str]; 4] = [
        &[
            "inv Free(cell) of n { if (n == 0) { cell |-> ?x } else { emp } }",
            "proc add(lock, cell) requires (Init(lock) &*& Rel(lock, Free(cell)) &*& RmwAcq(lock, Free(cell))) {\n  let seen = cas acq rlx(lock, 0, 1);\n  while (seen != 0) inv (if (seen == 0) { cell |-> ?y } else { emp }) {\n    seen = cas acq rlx(lock, 0, 1);\n  }\n  let x = load na(cell);\n  store na(cell, x + 1);\n  store rel(lock, 0);\n}",
            "proc main() {\n  let cell = alloc na;\n  store na(cell, 0);\n  let lock = alloc rmw Free(cell);\n  store rel(lock, 0);\n  par { add(lock, cell); add(lock, cell); }\n}",
        ],
        &[
            "inv Users(cell, bank b) of n { Auth(b, n) &*& if (n > 0) { cell |->[9223372036854775808 - n] 7 } else { emp } }",
            "proc join(users, cell, bank b)\n  requires (Init(users) &*& RmwAcq(users, Users(cell, b)) &*& Tok(b, 1) &*& cell |->[1] 7)\n  ensures (Tok(b, 2) &*& cell |->[2] 7) {\n  let n = fetch_add acq(users, 1) with { mint(b, 1); };\n}",
            "proc leave(users, cell, bank b) requires (Tok(b, 1) &*& cell |->[1] 7) {\n  let n = fetch_add rel(users, -1) with { burn(b, 1); };\n  if (n == 1) { fence acq; free(cell); }\n}",
            "proc main() {\n  let cell = alloc na;\n  store na(cell, 7);\n  bank b;\n  let users = alloc rmw Users(cell, b);\n  mint(b, 1);\n  store rel(users, 1);\n  call join(users, cell, b);\n  par { leave(users, cell, b); leave(users, cell, b); }\n}",
        ],
        &[
            "inv Any() of v { emp }",
            "proc one(x, y) requires (Init(x) &*& Init(y) &*& Rel(x, Any())) {\n  store rlx(x, 1);\n  let r = load rlx(y);\n  print(r);\n}",
        ],
        &[
            "pred Ready(d, bank g) { d |-> 7 &*& Tok(g, 2 * 3) }",
            "proc f(gr\u{f6}\u{df}e, bank g) requires (up(Ready(gr\u{f6}\u{df}e, g))) ensures (result >= -(1 - 4)) { return 2; } // the end",
        ],
    ];
    for declarations in rows {
        assert!(rt; is_read(rt.alloc(), declarations));
    }
}

#[test]
fn what_is_printed(rt: HostRuntime) {
    match printed(rt.alloc(), "proc main(){print(007*-x);}// so far") {
        Some(text) => {
            assert!(rt; text.as_str() == "proc main ( ) { print ( 7 * - x ) ; }\n");
        }
        None => assert!(rt; false, "nothing is printed"),
    }
}
