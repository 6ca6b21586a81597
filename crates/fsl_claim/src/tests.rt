//! Each call once, with one pass and with two.
use crate::{Claiming, Claims};
use std::test::Fail;

#[test]
fn one_pass_draws_each_number_and_finds_the_least_report(rt: HostRuntime) -> Result<(), Fail> {
    let Claiming { claims, mut passes } = Claims::new(rt.alloc(), 3, 1)?;
    let Some(mut pass) = passes.pop() else {
        panic!(rt; "there is no pass")
    };
    let Some(first) = claims.draw(&mut pass) else {
        panic!(rt; "no first number")
    };
    let Some(second) = claims.draw(&mut pass) else {
        panic!(rt; "no second number")
    };
    let Some(third) = claims.draw(&mut pass) else {
        panic!(rt; "no third number")
    };
    assert!(rt; [first, second, third] == [0, 1, 2]);
    assert!(rt; claims.draw(&mut pass).is_none());
    claims.report(&mut pass, third);
    claims.report(&mut pass, second);
    assert!(rt; claims.least(&mut pass) == 1);
    let mut passes = passes;
    passes.push(pass)?;
    assert!(rt; claims.gather(passes) == Some(1));
    Ok(())
}

#[test]
fn two_passes_share_the_numbers(rt: HostRuntime) -> Result<(), Fail> {
    let Claiming { claims, mut passes } = Claims::new(rt.alloc(), 2, 2)?;
    let (Some(mut one), Some(mut other)) = (passes.pop(), passes.pop()) else {
        panic!(rt; "there are no two passes")
    };
    let (Some(low), Some(high)) = (claims.draw(&mut one), claims.draw(&mut other)) else {
        panic!(rt; "there are no two numbers")
    };
    assert!(rt; low == 0 && high == 1);
    assert!(rt; claims.least(&mut one) == 2);
    claims.report(&mut other, high);
    assert!(rt; claims.least(&mut one) == 1);
    assert!(rt; claims.draw(&mut one).is_none());
    passes.push(one)?;
    passes.push(other)?;
    assert!(rt; claims.gather(passes) == Some(1));
    Ok(())
}

#[test]
fn nothing_reported_is_nothing_gathered(rt: HostRuntime) -> Result<(), Fail> {
    let Claiming { claims, passes } = Claims::new(rt.alloc(), 0, 64)?;
    assert!(rt; claims.gather(passes).is_none());
    Ok(())
}
