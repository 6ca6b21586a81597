//! Numbers one past their bounds, and all 512 symbols.
ghost use Rattle.std.specs.Prelude.{◌<◌};

use super::said::{assumed, facts, proved, term};
use fsl_lin::{Lin, LinFault, Sym};
use fsl_pure::{Pure, PureFault};
use std::alloc::Global;

/// A reduced equation past the bounds of a combination is refused, and so is a bound; what was known stays.
#[test]
fn wide_facts(rt: HostRuntime) {
    let alloc = rt.alloc();
    let mut pure = facts(alloc, "b = 16777216a").expect(&rt, "memory");
    let twice = term(alloc, "c = 2b").expect(&rt, "c - 2b");
    assert!(rt;
        matches!(pure.assume_eq(alloc, &twice), Err(PureFault::Wide)),
        "c = 2^25 a"
    );
    assert!(rt;
        matches!(pure.assume_le(alloc, &twice), Err(PureFault::Wide)),
        "c <= 2^25 a"
    );
    assert_eq!(rt; proved(alloc, &pure, "c <= 2b"), Some(false), "c <= 2b");
    assert_eq!(rt;
        proved(alloc, &pure, "b = 16777216a"),
        Some(true),
        "b = 2^24 a yet"
    );
    assert!(rt; assumed(alloc, &mut pure, "c = b"), "c = b");
    assert_eq!(rt;
        proved(alloc, &pure, "c = 16777216a"),
        Some(true),
        "c = 2^24 a"
    );
}

/// A bound that is kept, and equations by which its normal form would pass its bounds.
#[test]
fn wide_bounds(rt: HostRuntime) {
    let alloc = rt.alloc();
    let mut pure = facts(alloc, "2b + 2c <= 0").expect(&rt, "memory");
    let wide = term(alloc, "b = 16777216a").expect(&rt, "b - 2^24 a");
    assert!(rt;
        matches!(pure.assume_eq(alloc, &wide), Err(PureFault::Wide)),
        "2^25 a + 2c <= 0"
    );
    let more = term(alloc, "b = 618970019642690137449562113").expect(&rt, "b - 2^89 - 1");
    assert!(rt;
        matches!(pure.assume_eq(alloc, &more), Err(PureFault::Wide)),
        "2^90 + 2 + 2c <= 0"
    );
    assert_eq!(rt;
        proved(alloc, &pure, "2b + 2c <= 0"),
        Some(true),
        "the bound yet"
    );
    assert!(rt;
        assumed(alloc, &mut pure, "b = 618970019642690137449562112"),
        "2^90 + 2c <= 0"
    );
    assert_eq!(rt;
        proved(alloc, &pure, "2c + 1237940039285380274899124224 <= 0"),
        Some(true),
        "2c <= -2^90"
    );
}

/// The term `x - y + c`.
fn difference(alloc: Global, x: u32, y: u32, c: i128) -> Result<Lin, LinFault>
    requires first { x < 512 }
    requires second { y < 512 }
{
    let gap = Lin::constant(alloc, c)?;
    let y = Lin::symbol(alloc, Sym(y))?;
    Lin::symbol(alloc, Sym(x))?.sub(alloc, &y)?.add(alloc, &gap)
}

/// All 512 symbols in one chain.
#[test]
fn all_symbols(rt: HostRuntime) {
    let alloc = rt.alloc();
    let mut pure = Pure::new(alloc).expect(&rt, "memory");
    for s in 0..511u32 {
        let step = difference(alloc, s, s + 1, 1).expect(&rt, "a step");
        assert!(rt; pure.assume_le(alloc, &step).is_ok(), "memory");
    }
    let first = Lin::symbol(alloc, Sym(0)).expect(&rt, "memory");
    let last = Lin::symbol(alloc, Sym(511)).expect(&rt, "memory");
    let back = difference(alloc, 511, 0, -511).expect(&rt, "memory");
    assert!(rt;
        !pure.absurd() && pure.proves_le(&first, &last, 511),
        "511 steps"
    );
    assert!(rt;
        !pure.absurd() && !pure.proves_le(&first, &last, 512),
        "no more"
    );
    assert!(rt; pure.assume_le(alloc, &back).is_ok(), "memory");
    let whole = difference(alloc, 511, 0, -511).expect(&rt, "memory");
    let zero = Lin::constant(alloc, 0).expect(&rt, "memory");
    assert!(rt;
        !pure.absurd() && pure.proves_eq(&whole, &zero),
        "equal by two walks"
    );
}
