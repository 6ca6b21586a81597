//! Outcomes of procedures that load from atomic locations: which values are excluded, what each permission gives, in
//! which order, and where it can be used.
use crate::outcomes::are_judged_under;
use std::test::Fail;

/// Invariants of nothing, of a cell, of a claim, of a permission, of facts, of a choice, of two parts that say the value,
/// and of what is no term.
const INVARIANTS: &str =
    "inv Any() of v { emp } inv Has(d) of v { d |-> 7 } inv Seen(d) of v { Init(d) } inv Again(d) of v { Acq(d, Any(), 0, {}) } inv Same(d, e) of v { d == e } inv Low(k) of v { v <= k } inv Side(k) of v { if (v < k) { emp } else { emp } } inv Both(d, e) of v { d |-> v } { e |-> v } inv Square() of v { v * v == 0 } ";

/// Values that were read before are asked one after the other, the equal side first; those behind the one that the value
/// is aren't. The greatest number of a term is 2^90, and what is past it is no fact.
const EXCLUDED: &[&str] = &[
    "requires (Init(a) &*& Acq(a, Any(), 0, {})) {\nlet x = load acq(a);\n} => derived 1",
    "requires (Init(a) &*& Acq(a, Any(), 0, {b})) {\nlet x = load acq(a);\n} => derived 3",
    "requires (Init(a) &*& Acq(a, Any(), 0, {b, b})) {\nlet x = load rlx(a);\n} => derived 3",
    "requires (Init(a) &*& Acq(a, Any(), 0, {b, 5})) {\nlet x = load acq(a);\n} => derived 7",
    "requires (Init(a) &*& Acq(a, Any(), 0, {b, 5})) {\nlet x = load acq(a);\nif (x == 5) { }\n} => derived 9",
    "requires (Init(a) &*& Acq(a, Any(), 0, {5, b})) {\nlet x = load acq(a);\nif (x == 5) { }\n} => derived 7",
    "requires (Init(a) &*& Acq(a, Any(), 0, {})) {\nlet x = load acq(a);\nlet y = load rlx(a);\n} => derived 3",
    "requires (Init(a) &*& Acq(a, Any(), 0, {})) {\nlet x = load acq(a);\nlet y = load acq(a);\nlet z = load acq(a);\n} => derived 13",
    "requires (Init(a) &*& Acq(a, Any(), 0, {0})) {\nlet x = load acq(a);\nif (x == 0) {\nassert (0 == 1);\n}\nif (x < 0) {\nstore na(b, 1);\n}\nassert (x < 0);\n} => fails 4:1 Assert",
    "requires (Init(a) &*& Acq(a, Any(), 0, {0})) {\nlet x = load rlx(a);\nif (x < 0) {\nstore na(b, 1);\n}\nassert (x <= 0);\n} => fails 4:1 Points",
    "requires (Init(a) &*& Acq(a, Any(), 0, {0})) {\nlet x = load rlx(a);\nassert (x <= 0);\n} => fails 3:1 Assert",
    "requires (Init(a) &*& Acq(a, Any(), 0, {9223372036854775808 * 134217728})) {\nlet x = load acq(a);\n} => fails 2:1 Term",
    "requires (Init(a) &*& Acq(a, Any(), 0, {9223372036854775808 * 134217728})) {\nlet x = load acq(a);\nassert (x == 9223372036854775808 * 134217728);\n} => fails 3:1 Assert",
    "requires (Init(a) &*& Acq(a, Square(), 0, {})) {\nlet x = load acq(a);\n} => fails 2:1 Term",
    "requires (Init(a) &*& Acq(a, Square(), 0, {0})) {\nlet x = load acq(a);\nassert (x != 0);\n} => fails 3:1 Assert",
    "requires (Init(a) &*& Acq(a, Square(), 0, {0})) {\nlet x = load acq(a);\nassert (x == 0);\n} => fails 2:1 Term",
];

/// Permissions of one location are gone through in order, those that were there before the load and were of the location
/// then.
const PERMISSIONS: &[&str] = &[
    "requires (Init(a) &*& Acq(a, Any(), 0, {0}) &*& Acq(a, Any(), 0, {1})) {\nlet x = load acq(a);\n} => derived 4",
    "requires (Init(a) &*& Acq(a, Side(b), 0, {}) &*& Acq(a, Side(5), 0, {})) {\nlet x = load acq(a);\nif (x >= b) {\nstore na(a, 1);\n}\nassert (x < 5);\n} => fails 6:1 Assert",
    "requires (Init(a) &*& Acq(a, Side(5), 0, {}) &*& Acq(a, Side(b), 0, {})) {\nlet x = load acq(a);\nif (x >= b) {\nstore na(a, 1);\n}\nassert (x < 5);\n} => fails 4:1 Points",
    "requires (Init(a) &*& Acq(a, Low(5), 0, {}) &*& Acq(a, Low(3), 0, {})) {\nlet x = load rlx(a);\nassert (x <= 3);\n} => derived 1",
    "requires (Init(a) &*& Acq(a, Both(a, b), 1, {})) ensures (b |-> _) {\nlet x = load acq(a);\n} => derived 1",
    "requires (Init(a) &*& Acq(a, Both(a, b), 1, {})) ensures (a |-> _) {\nlet x = load acq(a);\n} => fails 3:1 Points",
    "requires (Init(a) &*& Acq(a, Both(a, b), 0, {}) &*& Acq(a, Both(a, b), 1, {})) {\nlet x = load acq(a);\nlet y = load na(a);\nlet z = load na(b);\nassert (y == x);\nassert (z == x);\n} => derived 1",
    "requires (Init(a) &*& Acq(b, Has(7), 0, {})) ensures (Acq(b, Has(7), 0, {})) {\nlet x = load acq(a);\n} => derived 1",
    "requires (Init(a) &*& Acq(a, Any(), 0, {})) ensures (Acq(a, Any(), 0, {})) {\nlet x = load acq(a);\n} => fails 3:1 Acq",
    "requires (Init(a) &*& Acq(a, Again(a), 0, {})) ensures (Acq(a, Any(), 0, {})) {\nlet x = load acq(a);\n} => derived 1",
    "requires (Init(a) &*& Acq(a, Again(a), 0, {})) ensures (Acq(a, Any(), 0, {})) {\nlet x = load acq(a);\nlet y = load acq(a);\n} => fails 4:1 Acq",
    "requires (Init(a) &*& Acq(a, Same(a, b), 0, {}) &*& Acq(b, Any(), 0, {})) ensures (Acq(b, Any(), 0, {})) {\nlet x = load acq(a);\nassert (a == b);\n} => derived 1",
    "requires (Init(a) &*& Acq(a, Same(a, b), 0, {}) &*& Acq(b, Any(), 0, {})) ensures (Acq(b, Any(), 0, {})) {\nlet x = load acq(a);\nlet y = load acq(b);\n} => fails 4:1 Acq",
];

/// What a load gains can be used where it acquires, and else behind an acquire fence.
const RUNGS: &[&str] = &[
    "requires (Init(a) &*& Acq(a, Has(b), 0, {})) ensures (b |-> 7) {\nlet x = load acq(a);\n} => derived 1",
    "requires (Init(a) &*& Acq(a, Has(b), 0, {})) ensures (down(b |-> 7)) {\nlet x = load acq(a);\n} => fails 3:1 Points",
    "requires (Init(a) &*& Acq(a, Has(b), 0, {})) ensures (b |-> 7) {\nlet x = load rlx(a);\n} => fails 3:1 Points",
    "requires (Init(a) &*& Acq(a, Has(b), 0, {})) ensures (down(b |-> 7)) {\nlet x = load rlx(a);\n} => derived 1",
    "requires (Init(a) &*& Acq(a, Has(b), 0, {})) ensures (up(b |-> 7)) {\nlet x = load rlx(a);\n} => fails 3:1 Points",
    "requires (Init(a) &*& Acq(a, Has(b), 0, {})) ensures (b |-> 7) {\nlet x = load rlx(a);\nfence acq;\n} => derived 1",
    "requires (Init(a) &*& Acq(a, Seen(b), 0, {})) {\nlet x = load acq(a);\nlet y = load rlx(b);\n} => derived 1",
    "requires (Init(a) &*& Acq(a, Seen(b), 0, {})) {\nlet x = load rlx(a);\nlet y = load rlx(b);\n} => fails 3:1 Init",
    "requires (Init(a) &*& Acq(a, Seen(b), 0, {})) {\nlet x = load rlx(a);\nfence acq;\nlet y = load rlx(b);\n} => derived 1",
    "requires (up(Init(a))) {\nlet x = load acq(a);\n} => fails 2:1 Init",
    "requires (down(Init(a))) {\nlet x = load rlx(a);\n} => fails 2:1 Init",
    "requires (down(Init(a))) {\nfence acq;\nlet x = load rlx(a);\n} => derived 1",
    "requires (up(Init(a))) {\nfence acq;\nlet x = load rlx(a);\n} => fails 3:1 Init",
    "requires (Init(a) &*& Acq(a, Has(b), 0, {})) {\nlet x = load acq(a);\nlet y = load acq(a);\nassert (x == y);\n} => derived 1",
    "requires (Init(a) &*& Acq(a, Has(b), 0, {})) {\nlet x = load rlx(a);\nlet y = load rlx(a);\nassert (x == y);\n} => derived 1",
    "requires (Init(a) &*& Acq(a, Has(b), 0, {})) {\nlet x = load acq(a);\nlet y = load rlx(a);\nassert (x == y);\n} => fails 4:1 Assert",
    "requires (Init(a) &*& Acq(a, Has(b), 0, {})) {\nlet x = load acq(a);\nlet y = load rlx(a);\nfence acq;\nassert (x == y);\n} => derived 1",
];

/// Claims as a contract gives and asks for them. A location's leave is found by its invariant and arguments too.
const CLAIMS: &[&str] = &[
    "ensures (Init(a)) {\n} => fails 2:1 Init",
    "ensures (Rel(a, Any())) {\n} => fails 2:1 Rel",
    "ensures (Acq(a, Any(), 0, {})) {\n} => fails 2:1 Acq",
    "requires (Init(a) &*& Rel(a, Any())) ensures (Init(a) &*& Init(a) &*& Rel(a, Any()) &*& Rel(a, Any())) {\n} => derived 1",
    "requires (Acq(a, Any(), 0, {}) &*& Acq(a, Any(), 0, {})) ensures (Acq(a, Any(), 0, {}) &*& Acq(a, Any(), 0, {})) {\n} => derived 1",
    "requires (Acq(a, Any(), 0, {})) ensures (Acq(a, Any(), 0, {}) &*& Acq(a, Any(), 0, {})) {\n} => fails 2:1 Acq",
    "requires (Init(a)) ensures (Init(b)) {\n} => fails 2:1 Init",
    "requires (Rel(a, Any())) ensures (Rel(b, Any())) {\n} => fails 2:1 Rel",
    "requires (Rel(a, Low(5))) ensures (Rel(a, Any())) {\n} => fails 2:1 Rel",
    "requires (Rel(a, Low(5))) ensures (Rel(a, Low(b))) {\n} => fails 2:1 Rel",
    "requires (Rel(a, Low(b)) &*& b == 5) ensures (Rel(a, Low(5))) {\n} => derived 1",
    "requires (Acq(a, Low(5), 0, {})) ensures (Acq(a, Low(6), 0, {})) {\n} => fails 2:1 Acq",
    "requires (Acq(a, Both(a, b), 0, {})) ensures (Acq(a, Both(a, b), 1, {})) {\n} => fails 2:1 Acq",
    "requires (Acq(a, Any(), 0, {0})) ensures (Acq(a, Any(), 0, {0, 1})) {\n} => derived 1",
    "requires (Acq(a, Any(), 0, {0, 1})) ensures (Acq(a, Any(), 0, {0})) {\n} => fails 2:1 Acq",
    "requires (Acq(a, Any(), 0, {0, b}) &*& b == 1) ensures (Acq(a, Any(), 0, {1, 0})) {\n} => derived 1",
    "requires (Acq(a, Any(), 0, {0, 1}) &*& Acq(a, Any(), 0, {0})) ensures (Acq(a, Any(), 0, {0}) &*& Acq(a, Any(), 0, {1, 0})) {\n} => derived 1",
    "requires (up(Init(a))) ensures (Init(a)) {\n} => fails 2:1 Init",
    "requires (Init(a)) ensures (up(Init(a))) {\n} => fails 2:1 Init",
    "requires (down(Init(a))) ensures (down(Init(a))) {\n} => derived 1",
    "requires (up(a |-> 7)) ensures (down(a |-> 7)) {\n} => fails 2:1 Points",
    "requires (up(a |->[3] 7) &*& a |->[4] 8) ensures (up(a |->[3] 7) &*& a |->[4] 8) {\n} => derived 1",
    "requires (up(a < b)) ensures (down(a < b)) {\n} => derived 1",
    "requires (up(Rel(a, Any()) &*& Acq(a, Any(), 0, {}))) ensures (down(Rel(a, Any())) &*& Acq(a, Any(), 0, {})) {\n} => derived 1",
    "requires (Init(a * b)) {\n} => fails 1:1 Term",
    "requires (Rel(a, Low(a * b))) {\n} => fails 1:1 Term",
    "requires (Acq(a, Any(), 0, {a * b})) {\n} => fails 1:1 Term",
    "ensures (Init(a * b)) {\n} => fails 2:1 Term",
    "ensures (Rel(a, Low(a * b))) {\n} => fails 2:1 Term",
    "ensures (Acq(a, Any(), 0, {a * b})) {\n} => fails 2:1 Term",
    "{\ncall g(a);\n}\nproc g(x) requires (Init(x)) { } => fails 2:1 Init",
    "{\ncall g(a);\n}\nproc g(x) requires (Rel(x, Any())) { } => fails 2:1 Rel",
    "requires (Init(a)) {\npar { g(a); g(a); }\n}\nproc g(x) requires (Init(x)) { } => derived 1",
    "requires (Acq(a, Any(), 0, {})) {\npar { g(a); g(a); }\n}\nproc g(x) requires (Acq(x, Any(), 0, {})) { } => fails 2:1 Acq",
    "{\nwhile (a < b) inv (Rel(a, Any())) { }\n} => fails 2:1 Rel",
    "requires (Acq(a, Any(), 0, {})) {\nwhile (a < b) inv (Acq(a, Any(), 0, {})) {\nlet x = 1;\n}\n} => derived 2",
];

#[test]
fn values_are_excluded_in_order(rt: HostRuntime) -> Result<(), Fail> {
    are_judged_under(&rt, rt.alloc(), INVARIANTS, EXCLUDED)
}

#[test]
fn permissions_are_used_in_order(rt: HostRuntime) -> Result<(), Fail> {
    are_judged_under(&rt, rt.alloc(), INVARIANTS, PERMISSIONS)
}

#[test]
fn gains_stand_where_the_mode_says(rt: HostRuntime) -> Result<(), Fail> {
    are_judged_under(&rt, rt.alloc(), INVARIANTS, RUNGS)
}

#[test]
fn contracts_of_claims(rt: HostRuntime) -> Result<(), Fail> {
    are_judged_under(&rt, rt.alloc(), INVARIANTS, CLAIMS)
}
