//! Outcomes of procedures with atomic locations, fences and frees.
use crate::outcomes::are_judged_under;
use std::test::Fail;

/// Invariants of one part, of two, and of a fact; and of claims, of a binder, of what may be no term, and of something else
/// on each branch.
const INVARIANTS: &str =
    "inv Flag(d) of v { if (v == 0) { emp } else { d |-> 7 } } inv Any() of v { emp } inv Low(k) of v { v <= k } inv Pair(d, e) of v { if (v == 0) { emp } else { d |-> 7 } } { if (v == 0) { emp } else { e |-> 8 } } inv Seen(d) of v { Init(d) } inv Asks(d) of v { Rel(d, Any()) } inv Lends(d) of v { Acq(d, Any(), 0, {}) } inv Least(d) of v { d |-> ?x &*& v <= x } inv Square() of v { v * v == 0 } inv Three(d) of v { if (v == 0) { d |-> 7 } else { if (v < 0) { 0 == 1 } else { Init(d) } } } ";

/// Allocations and frees.
const OWNING: &[&str] = &[
    "{\nlet l = alloc acq Any();\nassert (l >= 1);\n} => derived 1",
    "{\nlet l = alloc rmw Any();\nassert (l >= 1);\n} => derived 1",
    "{\nlet l = alloc acq Any();\nlet m = alloc acq Any();\nassert (l != m);\n} => fails 4:1 Assert",
    "{\nlet l = alloc acq Flag(a * b);\n} => fails 2:1 Term",
    "{\nlet l = alloc acq Any();\nstore na(l, 0);\n} => fails 3:1 Points",
    "{\nlet x = alloc na;\nfree(x);\n} => derived 1",
    "{\nlet x = alloc na;\nfree(x);\nfree(x);\n} => fails 4:1 Points",
    "requires (a |-> 7) {\nfree(a);\nlet x = load na(a);\n} => fails 3:1 Points",
    "requires (a |->[4] _) {\nfree(a);\n} => fails 2:1 Share",
    "{\nfree(a);\n} => fails 2:1 Points",
    "{\nfree(a * b);\n} => fails 2:1 Term",
    "ensures (Rel(result, Pair(a, b)) &*& Acq(result, Pair(a, b), 0, {}) &*& Acq(result, Pair(a, b), 1, {})) {\nlet l = alloc acq Pair(a, b);\nreturn l;\n} => derived 1",
    "ensures (Acq(result, Any(), 0, {}) &*& Acq(result, Any(), 0, {})) {\nlet l = alloc acq Any();\nreturn l;\n} => fails 3:1 Acq",
    "ensures (RmwAcq(result, Any())) {\nlet l = alloc acq Any();\nreturn l;\n} => fails 3:1 Rmw",
    "ensures (Init(result)) {\nlet l = alloc acq Any();\nreturn l;\n} => fails 3:1 Init",
    "ensures (Rel(result, Any()) &*& RmwAcq(result, Any())) {\nlet l = alloc rmw Any();\nreturn l;\n} => derived 1",
    "ensures (Acq(result, Any(), 0, {})) {\nlet l = alloc rmw Any();\nreturn l;\n} => fails 3:1 Acq",
    "{\nlet l = alloc rmw Low(a * b);\n} => fails 2:1 Term",
    "{\nlet l = alloc acq Any();\nfree(l);\n} => fails 3:1 Points",
    "requires (a |-> 7) ensures (a |-> 7) {\nfree(a);\n} => fails 3:1 Points",
    "requires (a |->[b] _ &*& b >= 9223372036854775808) {\nfree(a);\n} => derived 1",
    "requires (a |->[4] _ &*& b |-> _ &*& a == b) {\nfree(b);\n} => fails 2:1 Share",
    "requires (a |-> _ &*& b |->[4] _ &*& a == b) {\nfree(b);\nfree(a);\n} => fails 3:1 Share",
    "requires (up(a |-> 7)) {\nfree(a);\n} => fails 2:1 Points",
    "requires (down(a |-> 7)) {\nfree(a);\n} => fails 2:1 Points",
];

/// Stores in both modes. A part is demanded where the mode says, and facts have no rung.
const STORES: &[&str] = &[
    "{\nstore rel(a, 0);\n} => fails 2:1 Rel",
    "{\nstore rlx(a, 0);\n} => fails 2:1 Rel",
    "{\nstore rel(a * b, 0);\n} => fails 2:1 Term",
    "{\nstore rel(a, a * b);\n} => fails 2:1 Term",
    "{\nlet l = alloc acq Low(5);\nstore rel(l, 5);\nstore rlx(l, 4);\n} => derived 1",
    "{\nlet l = alloc acq Low(5);\nstore rel(l, 6);\n} => fails 3:1 Cond",
    "{\nlet l = alloc acq Low(5);\nstore rlx(l, 6);\n} => fails 3:1 Cond",
    "{\nlet l = alloc acq Flag(a);\nstore rel(l, 0);\n} => derived 1",
    "{\nlet l = alloc acq Flag(a);\nstore rel(l, 1);\n} => fails 3:1 Points",
    "requires (a |->[4] 7) {\nlet l = alloc acq Flag(a);\nstore rel(l, 1);\n} => fails 3:1 Share",
    "requires (a |-> 8) {\nlet l = alloc acq Flag(a);\nstore rel(l, 1);\n} => fails 3:1 Value",
    "requires (a |-> _) {\nlet l = alloc acq Flag(a);\nstore rel(l, 1);\n} => fails 3:1 Uninit",
    "requires (a |-> 7) {\nlet l = alloc acq Flag(a);\nstore rel(l, 1);\nlet x = load na(a);\n} => fails 4:1 Points",
    "requires (a |-> 7) {\nlet l = alloc acq Flag(a);\nstore rel(l, b);\n} => derived 3",
    "{\nlet l = alloc acq Flag(a);\nstore rel(l, b);\n} => fails 3:1 Points",
    "requires (a |-> 7) {\nlet l = alloc acq Flag(a);\nstore rlx(l, 1);\n} => fails 3:1 Points",
    "requires (a |-> 7 &*& b |-> 8) {\nlet l = alloc acq Pair(a, b);\nstore rel(l, 1);\n} => derived 1",
    "requires (a |-> 7) {\nlet l = alloc acq Pair(a, b);\nstore rel(l, 1);\n} => fails 3:1 Points",
    "requires (a |-> 8 &*& b |->[1] 8) {\nlet l = alloc acq Pair(a, b);\nstore rel(l, 1);\n} => fails 3:1 Value",
    "requires (Rel(a, Low(5)) &*& Rel(b, Low(9)) &*& a == b) {\nstore rel(b, 5);\nstore rel(b, 7);\n} => fails 3:1 Cond",
    "requires (Rel(a, Any())) ensures (Init(a)) {\nstore rlx(a, 1);\n} => derived 1",
    "requires (Rel(a, Any())) ensures (up(Init(a))) {\nstore rlx(a, 1);\n} => fails 3:1 Init",
    "requires (Rel(a, Any()) &*& Rel(b, Any())) ensures (Init(b)) {\nstore rel(a, 1);\n} => fails 3:1 Init",
    "requires (Rel(a, Seen(b))) {\nstore rel(a, 1);\n} => fails 2:1 Init",
    "requires (Rel(a, Seen(b)) &*& Init(b)) {\nstore rel(a, 1);\nstore rel(a, 2);\n} => derived 1",
    "requires (Rel(a, Seen(b)) &*& Init(b)) {\nstore rlx(a, 1);\n} => fails 2:1 Init",
    "requires (Rel(a, Seen(b)) &*& Init(b)) {\nfence rel (Init(b));\nstore rlx(a, 1);\n} => derived 1",
    "requires (Rel(a, Asks(b))) {\nstore rel(a, 1);\n} => fails 2:1 Rel",
    "requires (Rel(a, Asks(b)) &*& Rel(b, Any())) {\nstore rlx(a, 1);\nstore rel(a, 1);\n} => derived 1",
    "requires (Rel(a, Lends(b))) {\nstore rel(a, 1);\n} => fails 2:1 Acq",
    "requires (Rel(a, Lends(b)) &*& Acq(b, Any(), 0, {})) {\nstore rlx(a, 1);\nstore rlx(a, 1);\n} => fails 3:1 Acq",
    "requires (Rel(a, Least(b)) &*& b |-> ?c &*& c >= 3) {\nstore rel(a, 3);\n} => derived 1",
    "requires (Rel(a, Least(b)) &*& b |-> ?c &*& c >= 3) {\nstore rel(a, 4);\n} => fails 2:1 Cond",
    "requires (Rel(a, Least(b)) &*& b |-> _) {\nstore rel(a, 4);\n} => fails 2:1 Uninit",
    "requires (Rel(a, Square())) {\nstore rel(a, 0);\nstore rel(a, b);\n} => fails 3:1 Term",
    "requires (Rel(a, Three(a))) {\nstore rel(a, b);\n} => fails 2:1 Points",
    "requires (Rel(a, Three(a)) &*& a |-> 7) {\nstore rel(a, b);\n} => fails 2:1 Cond",
    "requires (Rel(a, Three(a)) &*& a |-> 7 &*& b >= 0) {\nstore rel(a, b);\n} => fails 2:1 Init",
    "requires (Rel(a, Three(a)) &*& a |-> 7 &*& b >= 0 &*& Init(a)) {\nstore rel(a, b);\n} => derived 2",
];

/// Loads in both modes. What is gained from one value is gained once.
const LOADS: &[&str] = &[
    "{\nlet x = load acq(a);\n} => fails 2:1 Init",
    "{\nlet x = load rlx(a);\n} => fails 2:1 Init",
    "{\nlet x = load acq(a * b);\n} => fails 2:1 Term",
    "{\nlet l = alloc acq Any();\nlet x = load acq(l);\n} => fails 3:1 Init",
    "{\nlet l = alloc acq Any();\nstore rel(l, 1);\nlet x = load acq(l);\nassert (x == 1);\n} => fails 5:1 Assert",
    "{\nlet l = alloc acq Low(5);\nstore rel(l, 1);\nlet x = load rlx(l);\nassert (x <= 5);\n} => derived 1",
    "requires (a |-> 7) {\nlet l = alloc acq Flag(a);\nstore rel(l, 0);\nlet x = load acq(l);\nassert (x == 0);\n} => derived 1",
    "requires (a |-> 7) {\nlet l = alloc acq Flag(a);\nstore rel(l, 1);\nlet x = load acq(l);\n} => derived 3",
    "requires (a |-> 7) {\nlet l = alloc acq Flag(a);\nstore rel(l, 1);\nlet x = load acq(l);\nif (x != 0) {\nlet y = load na(a);\nassert (y == 7);\n}\n} => derived 3",
    "requires (a |-> 7) {\nlet l = alloc acq Flag(a);\nstore rel(l, 1);\nlet x = load acq(l);\nlet y = load na(a);\n} => fails 5:1 Points",
    "requires (a |-> 7) {\nlet l = alloc acq Flag(a);\nstore rel(l, 1);\nlet x = load acq(l);\nif (x != 0) {\nlet y = load acq(l);\nstore na(a, 1);\n}\n} => derived 5",
    "requires (a |-> 7) {\nlet l = alloc acq Flag(a);\nstore rel(l, 1);\nlet x = load rlx(l);\nif (x != 0) {\nlet y = load na(a);\n}\n} => fails 6:1 Points",
    "requires (a |-> 7 &*& b |-> 8) {\nlet l = alloc acq Pair(a, b);\nstore rel(l, 1);\nlet x = load acq(l);\nif (x != 0) {\nfree(a);\nfree(b);\n}\n} => derived 3",
    "{\nlet l = alloc rmw Low(5);\nstore rel(l, 1);\nlet x = load acq(l);\nassert (x <= 5);\n} => fails 5:1 Assert",
];

/// Fences in all modes.
const FENCES: &[&str] = &[
    "{\nfence acq;\n} => derived 1",
    "{\nfence rel (a |-> 7);\n} => fails 2:1 Points",
    "requires (a |-> 8) {\nfence rel (a |-> 7);\n} => fails 2:1 Value",
    "{\nfence rel (a < b);\n} => fails 2:1 Cond",
    "{\nfence acqrel (a * b == 0);\n} => fails 2:1 Term",
    "requires (a |-> 7) {\nfence rel (a |-> 7);\nlet x = load na(a);\n} => fails 3:1 Points",
    "requires (a |-> 7) {\nfence rel (a |-> 7);\nfence acq;\nlet x = load na(a);\n} => fails 4:1 Points",
    "requires (a |-> 7) {\nfence rel (a |->[4] 7);\nlet x = load na(a);\n} => derived 1",
    "requires (a |-> 7) {\nlet l = alloc acq Flag(a);\nfence rel (a |-> 7);\nstore rlx(l, 1);\n} => derived 1",
    "requires (a |-> 7) {\nlet l = alloc acq Flag(a);\nfence rel (a |-> 7);\nstore rel(l, 1);\n} => fails 4:1 Points",
    "requires (a |-> 7) {\nlet l = alloc acq Flag(a);\nstore rel(l, 1);\nlet x = load rlx(l);\nif (x != 0) {\nfence acq;\nlet y = load na(a);\nassert (y == 7);\n}\n} => derived 3",
    "requires (a |-> 7) {\nlet l = alloc acq Flag(a);\nstore rel(l, 1);\nlet x = load rlx(l);\nif (x != 0) {\nfence acqrel (a |-> 7);\nstore rlx(l, 2);\n}\n} => derived 3",
    "requires (a |-> 7) {\nlet l = alloc acq Flag(a);\nstore rel(l, 1);\nlet x = load rlx(l);\nif (x != 0) {\nfence rel (a |-> 7);\n}\n} => fails 6:1 Points",
    "requires (a < b) {\nfence rel (a < b);\n} => derived 1",
    "requires (a |->[4] _) {\nfence rel (a |-> _);\n} => fails 2:1 Share",
    "requires (a |-> _) {\nfence rel (a |-> ?c);\n} => fails 2:1 Uninit",
    "requires (a |-> 7 &*& Rel(b, Flag(a))) {\nfence rel (a |-> ?c);\nstore rlx(b, 1);\n} => fails 3:1 Value",
    "requires (a |-> 7 &*& Rel(b, Flag(a))) {\nfence rel (a |-> ?c &*& c == 7);\nstore rlx(b, 1);\n} => derived 1",
    "requires (a |-> 7 &*& Rel(b, Flag(a))) {\nfence rel (a |-> _);\nstore rlx(b, 1);\n} => fails 3:1 Uninit",
    "requires (a |-> 7) ensures (up(a |-> 7)) {\nfence rel (a |->[1] 7);\nfence rel (a |->[9223372036854775807] 7);\n} => derived 1",
    "{\nfence rel (Init(a));\n} => fails 2:1 Init",
    "requires (Init(a)) ensures (Init(a) &*& up(Init(a))) {\nfence rel (Init(a));\n} => derived 1",
    "{\nfence rel (Rel(a, Any()));\n} => fails 2:1 Rel",
    "{\nfence rel (Acq(a, Any(), 0, {}));\n} => fails 2:1 Acq",
    "requires (Acq(a, Any(), 0, {0})) ensures (Acq(a, Any(), 0, {0, 1})) {\nfence rel (Acq(a, Any(), 0, {0, 1}));\n} => derived 1",
    "requires (Acq(a, Any(), 0, {0})) ensures (Acq(a, Any(), 0, {0})) {\nfence rel (Acq(a, Any(), 0, {0, 1}));\n} => fails 3:1 Acq",
    "{\nfence rel (if (a < b) { a |-> 7 } else { 0 == 1 });\n} => fails 2:1 Points",
    "requires (a |-> 7) {\nfence rel (if (a < b) { a |-> 7 } else { 0 == 1 });\n} => fails 2:1 Cond",
    "requires (a |-> 7) {\nfence rel (if (a == b) { a |-> 7 } else { emp });\nif (a == b) { }\n} => derived 3",
    "requires (b >= 1 &*& a |->[b] 7) {\nfence rel (a |->[1] 7);\n} => derived 2",
    "requires (b >= 1 &*& a |->[b] 7) {\nfence rel (a |->[1] 7);\nassert (b == 1);\nlet x = load na(a);\n} => fails 4:1 Points",
    "requires (down(a |-> 7)) {\nfence rel (emp);\nlet x = load na(a);\n} => fails 3:1 Points",
    "requires (down(a |-> 7)) {\nfence acqrel (emp);\nlet x = load na(a);\n} => derived 1",
    "requires (up(a |-> 7)) {\nfence acqrel (emp);\nlet x = load na(a);\n} => fails 3:1 Points",
    "requires (down(a |-> 7)) ensures (up(a |-> 7)) {\nfence acqrel (a |-> 7);\n} => derived 1",
    "requires (down(a |-> 7)) {\nfence rel (a |-> 7);\n} => fails 2:1 Points",
    "requires (a |->[4] 7 &*& down(a |->[5] 7)) ensures (a |->[9] 7) {\nfence acq;\n} => derived 1",
    "requires (a |->[4] _ &*& down(a |->[5] 7)) ensures (a |->[9] 7) {\nfence acq;\n} => derived 1",
    "requires (a |->[4] 7 &*& down(a |->[5] 8)) {\nfence acq;\nassert (0 == 1);\n} => derived 0",
    "requires (a |-> _ &*& down(a |->[1] _)) {\nfence acq;\nassert (0 == 1);\n} => derived 0",
    "requires (a |-> _ &*& down(a |->[1] _)) {\nfence acqrel (b |-> 7);\n} => derived 0",
    "requires (7 |->[16777216 * a] _ &*& down(7 |->[a] _)) {\nfence acq;\n} => fails 2:1 Term",
    "requires (7 |->[16777216 * a] _ &*& down(7 |->[a] _)) {\nfence acqrel (b |-> 7);\n} => fails 2:1 Term",
    "requires (7 |->[16777216 * a] _ &*& down(7 |->[a] _)) {\nfence rel (b |-> 7);\n} => fails 2:1 Points",
    "requires (down(Init(a))) ensures (Init(a)) {\nfence acq;\n} => derived 1",
    "requires (down(Init(a))) ensures (down(Init(a))) {\nfence acq;\n} => fails 3:1 Init",
];

#[test]
fn locations_are_allocated_and_cells_freed(rt: HostRuntime) -> Result<(), Fail> {
    are_judged_under(&rt, rt.alloc(), INVARIANTS, OWNING)
}

#[test]
fn stores_give_parts_away(rt: HostRuntime) -> Result<(), Fail> {
    are_judged_under(&rt, rt.alloc(), INVARIANTS, STORES)
}

#[test]
fn loads_gain_parts(rt: HostRuntime) -> Result<(), Fail> {
    are_judged_under(&rt, rt.alloc(), INVARIANTS, LOADS)
}

#[test]
fn fences_move_resources(rt: HostRuntime) -> Result<(), Fail> {
    are_judged_under(&rt, rt.alloc(), INVARIANTS, FENCES)
}
