//! Combinations at their bounds, and equations that are reduced, refused and left out.
use fsl_base::{Same, TryClone};
use fsl_lin::{Eqs, Lin, LinFault, PLACES, Sym, Took, is_constant};

/// Coefficients go up to 2^24, and no further.
#[test]
fn combinations_are_exact(rt: HostRuntime) {
    let alloc = rt.alloc();
    let s0 = Lin::symbol(alloc, Sym(0)).expect(&rt, "memory");
    let large = s0.scale(alloc, 16777216).expect(&rt, "memory");
    assert_eq!(rt; large.coefficient(Sym(0)), 16777216, "the product");
    assert!(rt;
        matches!(large.add(alloc, &s0), Err(LinFault::Wide)),
        "the sum"
    );
    let less = large.sub(alloc, &s0).expect(&rt, "memory");
    assert_eq!(rt; less.coefficient(Sym(0)), 16777215, "the difference");
    let copy = less.try_clone(alloc).expect(&rt, "memory");
    assert!(rt; copy.same(&less), "the copy");
    assert!(rt; !copy.same(&large), "another one");
    assert_eq!(rt; less.width(), 1, "the width");
    let three = Lin::constant(alloc, 3).expect(&rt, "memory");
    assert_eq!(rt; three.rest(), 3, "the number");
}

/// Equations take the greatest symbol with 1 or -1, and refuse what contradicts them.
#[test]
fn equations_are_reduced(rt: HostRuntime) {
    let alloc = rt.alloc();
    let s0 = Lin::symbol(alloc, Sym(0)).expect(&rt, "memory");
    let s1 = Lin::symbol(alloc, Sym(1)).expect(&rt, "memory");
    let one = Lin::constant(alloc, 1).expect(&rt, "memory");
    let twice = s1.scale(alloc, 2).expect(&rt, "memory");
    let difference = s0.sub(alloc, &twice).expect(&rt, "memory");
    let equation = difference.add(alloc, &one).expect(&rt, "memory");
    let threefold = s1.scale(alloc, 3).expect(&rt, "memory");
    let double = s0.scale(alloc, 2).expect(&rt, "memory");
    let no_pivot = double.sub(alloc, &threefold).expect(&rt, "memory");
    let mut eqs = Eqs::new(alloc);
    assert!(rt;
        eqs.assume(alloc, &no_pivot) == Ok(Took::NoPivot),
        "2 s0 - 3 s1"
    );
    assert!(rt;
        eqs.assume(alloc, &equation) == Ok(Took::Pivot { sym: Sym(0) }),
        "s0 - 2 s1 + 1"
    );
    let normal = eqs.nf(alloc, &s0).expect(&rt, "memory");
    assert_eq!(rt; normal.coefficient(Sym(0)), 0, "no pivot");
    assert_eq!(rt; normal.coefficient(Sym(1)), 2, "2 s1");
    assert_eq!(rt; normal.rest(), -1, "- 1");
    let mut numbers = [0i128; PLACES];
    eqs.fill(&s0, &mut numbers);
    assert!(rt; numbers[0] == -1 && numbers[2] == 2, "the same in an array");
    assert!(rt; !is_constant(&numbers), "s1 has 2");
    let mut copy = eqs.try_clone(alloc).expect(&rt, "memory");
    assert!(rt; copy.assume(alloc, &equation) == Ok(Took::Trivial), "again");
    assert!(rt;
        eqs.assume(alloc, &difference) == Ok(Took::Absurd),
        "s0 - 2 s1"
    );
}

/// A term loses the pivots that it has, and the equations of other pivots leave it as it is.
#[test]
fn equations_without_the_pivot_take_nothing(rt: HostRuntime) {
    let alloc = rt.alloc();
    let s0 = Lin::symbol(alloc, Sym(0)).expect(&rt, "memory");
    let s1 = Lin::symbol(alloc, Sym(1)).expect(&rt, "memory");
    let s2 = Lin::symbol(alloc, Sym(2)).expect(&rt, "memory");
    let two = Lin::constant(alloc, 2).expect(&rt, "memory");
    let five = Lin::constant(alloc, 5).expect(&rt, "memory");
    let first = s1.sub(alloc, &two).expect(&rt, "memory");
    let second = s2.sub(alloc, &s0).expect(&rt, "memory");
    let second = second.sub(alloc, &five).expect(&rt, "memory");
    let mut eqs = Eqs::new(alloc);
    assert!(rt;
        eqs.assume(alloc, &first) == Ok(Took::Pivot { sym: Sym(1) }),
        "s1 - 2"
    );
    assert!(rt;
        eqs.assume(alloc, &second) == Ok(Took::Pivot { sym: Sym(2) }),
        "s2 - s0 - 5"
    );
    let opposite = s2.scale(alloc, -3).expect(&rt, "memory");
    let normal = eqs.nf(alloc, &opposite).expect(&rt, "memory");
    assert_eq!(rt; normal.width(), 1, "s0 alone");
    assert_eq!(rt; normal.coefficient(Sym(0)), -3, "- 3 s0");
    assert_eq!(rt; normal.rest(), -15, "- 15, and nothing of s1");
    let mut numbers = [7i128; PLACES];
    eqs.fill(&opposite, &mut numbers);
    assert!(rt;
        numbers[0] == -15 && numbers[1] == -3,
        "the same in an array"
    );
    assert!(rt;
        numbers[3] == 0 && numbers[512] == 0,
        "no pivot, and 0 behind it"
    );
}
