//! `many`: pairs of procedures that pass a message, and once a spin lock and a reference counter.
ghost use Rattle.std.specs.Prelude.{◌≡◌, ◌≤◌, ◌++◌, codes, string_bytes, IfOk, OnOk};
ghost use Rattle.fsl_gen.specs.Generated.{call, caller, counter, each, many, numbered, passing, receiver, sender, spin_lock};

use fsl_base::Text;
use std::alloc::{AllocError, Global};

const FLAG: &str = "inv Flag(d) of v { if (v == 0) { emp } else { d |-> 7 } }\n";

const LOCK: &str = "inv Lock(d) of v { if (v == 0) { d |-> ?x } else { emp } }
proc bump(k, d) requires (Init(k) &*& Rel(k, Lock(d)) &*& RmwAcq(k, Lock(d))) {
  let r = cas acq rlx(k, 0, 1);
  while (r != 0) inv (Init(k) &*& Rel(k, Lock(d)) &*& RmwAcq(k, Lock(d)) &*& if (r == 0) { d |-> ?y } else { emp }) {
    r = cas acq rlx(k, 0, 1);
  }
  let x = load na(d);
  store na(d, x + 1);
  store rel(k, 0);
}
proc lock() {
  let d = alloc na;
  store na(d, 0);
  let k = alloc rmw Lock(d);
  store rel(k, 0);
  par { bump(k, d); bump(k, d); }
}
";

const COUNT: &str =
    "inv Count(d, bank g) of n { Auth(g, n) &*& if (n > 0) { d |->[9223372036854775808 - n] 7 } else { emp } }
proc clone(c, d, bank g)
  requires (Init(c) &*& Rel(c, Count(d, g)) &*& RmwAcq(c, Count(d, g)) &*& Tok(g, 1) &*& d |->[1] 7)
  ensures (Tok(g, 2) &*& d |->[2] 7) {
  let n = fetch_add acq(c, 1) with { mint(g, 1); };
}
proc drop(c, d, bank g)
  requires (Init(c) &*& Rel(c, Count(d, g)) &*& RmwAcq(c, Count(d, g)) &*& Tok(g, 1) &*& d |->[1] 7) {
  let n = fetch_add rel(c, -1) with { burn(g, 1); };
  if (n == 1) { fence acq; store na(d, 0); }
}
proc count() {
  let d = alloc na;
  store na(d, 7);
  bank g;
  let c = alloc rmw Count(d, g);
  mint(g, 1);
  store rel(c, 1);
  call clone(c, d, g);
  par { drop(c, d, g); drop(c, d, g); }
}
";

/// The sender of pair i.
fn sender(alloc: Global, i: u32) -> Result<String, AllocError>
    ensures { IfOk result (λ text. string_bytes text ≡ sender (numbered (codes "send") i)) }
{
    format!(in alloc;
        "proc send_{i}(a, d) requires (Rel(a, Flag(d)) &*& d |-> _) {{
  store na(d, 7);
  store rel(a, 1);
}}
"
    )
}

/// The receiver of pair i.
fn receiver(alloc: Global, i: u32) -> Result<String, AllocError>
    ensures { IfOk result (λ text. string_bytes text ≡ receiver (numbered (codes "recv") i)) }
{
    format!(in alloc;
        "proc recv_{i}(a, d) requires (Init(a) &*& Acq(a, Flag(d), 0, {{}})) {{
  let r = load acq(a);
  while (r == 0) inv (Init(a) &*& if (r == 0) {{ Acq(a, Flag(d), 0, {{0}}) }} else {{ d |-> 7 }}) {{
    r = load acq(a);
  }}
  let x = load na(d);
  assert (x == 7);
}}
"
    )
}

/// The procedure that calls both of pair i.
fn caller(alloc: Global, i: u32) -> Result<String, AllocError>
    ensures { IfOk result (λ text. string_bytes text ≡ caller (numbered (codes "send") i) (numbered (codes "recv") i) (numbered (codes "pair") i)) }
{
    format!(in alloc;
        "proc pair_{i}() {{
  let d = alloc na;
  let a = alloc acq Flag(d);
  store rel(a, 0);
  par {{ send_{i}(a, d); recv_{i}(a, d); }}
}}
"
    )
}

/// Adds pair i.
fn push_pair(alloc: Global, text: &mut Text, i: u32) -> Result<(), AllocError>
    ensures { OnOk result (text.new ≡ text.old ++ passing i) }
{
    text.push_str(sender(alloc, i)?.as_str())?;
    text.push_str(receiver(alloc, i)?.as_str())?;
    text.push_str(caller(alloc, i)?.as_str())
}

/// Adds the pairs.
fn push_pairs(alloc: Global, text: &mut Text, n: u32) -> Result<(), AllocError>
    requires { n ≤ 1000 }
    ensures { OnOk result (text.new ≡ text.old ++ each passing 1 n) }
{
    for i in 0..n {
        push_pair(alloc, text, i + 1)?;
    }
    Ok(())
}

/// Adds the calls of the pairs.
fn push_calls(alloc: Global, text: &mut Text, n: u32) -> Result<(), AllocError>
    requires { n ≤ 1000 }
    ensures { OnOk result (text.new ≡ text.old ++ each (λ i. call (numbered (codes "pair") i)) 1 n) }
{
    for i in 0..n {
        let number = i + 1;
        text.push_str(format!(in alloc; "  call pair_{number}();\n")?.as_str())?;
    }
    Ok(())
}

/// The program of n pairs, 1 to 1000: of `3 n + 6` procedures. An error is want of memory.
pub fn many(alloc: Global, n: u32) -> Result<Text, AllocError>
    requires some { 1 ≤ n }
    requires few { n ≤ 1000 }
    ensures { IfOk result (λ text. text ≡ many n) }
{
    let mut text = Text::from_str(alloc, FLAG)?;
    push_pairs(alloc, &mut text, n)?;
    text.push_str(LOCK)?;
    text.push_str(COUNT)?;
    text.push_str("proc main() {\n")?;
    push_calls(alloc, &mut text, n)?;
    text.push_str("  call lock();\n  call count();\n}\n")?;
    Ok(text)
}
