//! Marks, copies, symbols, gaps and the equations.
use super::said::{assumed, facts, proved, term};
use fsl_pure::{Pure, PureFault};

/// `back` puts facts and symbols back as they were at the mark.
#[test]
fn marks_are_put_back(rt: HostRuntime) {
    let alloc = rt.alloc();
    let mut pure = Pure::new(alloc).expect(&rt, "memory");
    assert!(rt; pure.fresh().is_ok(), "a");
    assert!(rt; assumed(alloc, &mut pure, "a <= 0"), "a <= 0");
    pure.mark(alloc).expect(&rt, "memory");
    assert!(rt; pure.fresh().is_ok(), "b");
    assert!(rt; assumed(alloc, &mut pure, "a + 2 = 0"), "a = -2");
    assert!(rt; assumed(alloc, &mut pure, "0 <= a"), "0 <= a");
    assert!(rt; pure.absurd(), "0 <= -2");
    let copy = pure.copy(alloc).expect(&rt, "memory");
    pure.back();
    assert_eq!(rt;
        proved(alloc, &pure, "a + 2 = 0"),
        Some(false),
        "before a = -2"
    );
    assert_eq!(rt; proved(alloc, &pure, "a <= 0"), Some(true), "a <= 0 again");
    let next = pure.fresh().expect(&rt, "a symbol");
    assert_eq!(rt; next.0, 1, "b is made anew");
    assert!(rt; copy.absurd(), "the copy stays");
}

/// The 513th symbol is refused, and nothing else changes.
#[test]
fn symbols_are_few(rt: HostRuntime) {
    let mut pure = Pure::new(rt.alloc()).expect(&rt, "memory");
    for number in 0..512u32 {
        let sym = pure.fresh().expect(&rt, "a symbol");
        assert_eq!(rt; sym.0, number, "in order");
    }
    assert!(rt; matches!(pure.fresh(), Err(PureFault::Full)), "512 symbols");
}

/// The equations give the normal form.
#[test]
fn normal_forms(rt: HostRuntime) {
    let alloc = rt.alloc();
    let pure = facts(alloc, "b = a + 3").expect(&rt, "memory");
    let b = term(alloc, "b = 0").expect(&rt, "b");
    let normal = pure.eqs().nf(alloc, &b).expect(&rt, "memory");
    assert_eq!(rt; normal.rest(), 3, "3");
    assert_eq!(rt; normal.width(), 1, "a alone");
}

/// A gap is added to the difference, and the difference is exact where no combination could hold it.
#[test]
fn gaps(rt: HostRuntime) {
    let alloc = rt.alloc();
    let most = 1237940039285380274899124224;
    let pure = facts(
        alloc,
        "a + 1237940039285380274899124224 <= b; b + 1237940039285380274899124224 <= c",
    )
    .expect(&rt, "memory");
    let a = term(alloc, "a + 1237940039285380274899124224 = 0").expect(&rt, "a + 2^90");
    let c = term(alloc, "c = 0").expect(&rt, "c");
    let less = term(alloc, "c = 1237940039285380274899124224").expect(&rt, "c - 2^90");
    if pure.absurd() {
        return;
    }
    assert!(rt; pure.proves_le(&a, &c, most), "a + 2^90 + 2^90 <= c");
    assert!(rt; pure.proves_le(&a, &less, 0), "a + 2^90 <= c - 2^90");
    assert!(rt; !pure.proves_le(&a, &less, 1), "a + 2^90 + 1 <= c - 2^90");
    assert!(rt; !pure.proves_le(&c, &a, -most), "c - 2^90 <= a + 2^90");
}
