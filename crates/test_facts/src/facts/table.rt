//! Fact sets, with what they prove and what they don't.
use super::said::{all, facts};

/// Fact sets, what they prove, and what they don't, though some of it is true.
const ROWS: [(&str, &str, &str); 39] = [
    // a constant, or one bound with the same coefficients
    (
        "0 = 0",
        "0 <= 0; 0 <= 1; 0 = 0",
        "1 <= 0; a <= 0; 1 = 0; a = 0",
    ),
    ("a <= 0", "a <= 0; a <= 1", "a + 1 <= 0; 0 <= a; a = 0"),
    ("2a <= b", "2a <= b; 2a <= b + 5", "2a + 1 <= b; 4a <= 2b"),
    ("a + b <= 0", "a + b <= 1", "a <= 0; 2a + 2b <= 0"),
    ("a <= 0; b <= 0", "b <= 0", "a + b <= 0; a <= b"),
    ("2a <= 1", "2a <= 1", "a <= 0"),
    (
        "2a + b <= 3; 2a + b <= 1",
        "2a + b <= 3; 2a + b <= 1",
        "2a + b <= 0",
    ),
    ("2a + b <= 1; 2a + b <= 3", "2a + b <= 1", "2a + b <= 0"),
    ("2a <= b; b <= 2a", "2a = b; b = 2a", "2a + 1 = b; 4a = 2b"),
    ("2a + 1 <= 0; 0 <= 2a", "2a + 1 <= 0", "a + 1 <= 0; 1 <= 0"),
    // walks of difference bounds
    (
        "a <= b; b <= c",
        "a <= c",
        "a + 1 <= c; c <= a; a = c; 2a <= 2c",
    ),
    ("b + 4 <= c; a + 3 <= b", "a + 7 <= c", "a + 8 <= c"),
    ("a <= b; b <= c; c <= a", "a = b; a = c", "a + 1 = c"),
    ("b <= 0; 1 <= a", "b + 1 <= a", "b + 2 <= a; a <= b"),
    ("5 <= a; a <= 5", "a = 5", "a = 4"),
    (
        "a <= b + 5; b + 5 <= a",
        "a = b + 5; b + 5 = a",
        "a = b; 2a = 2b + 10",
    ),
    (
        "a <= c + 9; a <= b + 1; b <= c + 2",
        "a <= c + 3",
        "a <= c + 2",
    ),
    ("a <= b", "a <= b + 1", "b <= a + 1000000; a <= 1000000"),
    // two symbols: nothing known, one bound, two bounds, an equation, and bounds beside a pivot
    ("0 = 0", "a = a; a <= a", "a = b; a <= b; b <= a"),
    ("a <= b", "a <= b", "a = b; b = a; b <= a"),
    (
        "a <= b; b <= a",
        "a = b; b = a; a + 2 = b + 2",
        "a = b + 1; b = c",
    ),
    (
        "a = b",
        "a = b; b = a; a <= b; b + 1 = a + 1",
        "a + 1 <= b; a = c; b = c",
    ),
    (
        "b = a; a <= c; c <= a",
        "a = c; b = c; c = b",
        "a = d; b = d; d <= b",
    ),
    // equations with a pivot, and what they make of bounds
    (
        "b = a + 1",
        "b = a + 1; 2b = 2a + 2; a + 1 <= b",
        "a + 2 <= b",
    ),
    ("b = a + 1; c = b + 1; d = c + 1", "d = a + 3", "d = a + 2"),
    ("b = a; a = 3", "b = 3; b <= 3", "b <= 2"),
    ("a = 1; a = 1", "a = 1", "a = 0"),
    ("a <= b; b = c + 5", "a <= c + 5; a <= b", "a <= c + 4"),
    ("b = c + 5; a <= b", "a <= c + 5; a <= b", "a <= c + 4"),
    (
        "a + c <= 0; c = 0 - b; b <= d",
        "a <= b; a <= d",
        "a + 1 <= d",
    ),
    ("a + b <= 0; c = 0 - b; c <= d", "a <= c", "a <= d"),
    ("a <= b; b <= c; c = 3", "a <= 3", "a <= 2"),
    ("a = b; b <= c; c = d", "a <= d", "d <= a"),
    // equations without a pivot
    (
        "2a = 3b",
        "2a = 3b; 3b = 2a; 2a <= 3b + 1",
        "4a = 6b; 2a + 1 = 3b",
    ),
    ("2a = 4", "2a = 4", "a = 2"),
    ("2a = 1", "2a = 1", "2a <= 0; 1 <= 0"),
    ("2a = 3b; b = 2c", "2a = 6c; 2a = 3b", "a = 3c"),
    // numbers as great as they may be
    (
        "a + 1237940039285380274899124224 <= b; 16777216b <= c",
        "a + 1237940039285380274899124224 <= b; 16777216b <= c",
        "a + 1237940039285380274899124223 <= 0; 16777215b <= c",
    ),
    ("c = 16777216b", "c = 16777216b", "c = 16777215b"),
];

/// Facts that cannot all hold, as far as the rules see.
const ABSURD: [&str; 9] = [
    "1 <= 0",
    "7 = 0",
    "a + 1 <= b; b <= a",
    "1 <= a; a <= b; b <= 0",
    "a + 1 <= b; a = b",
    "a = 0; a = 1",
    "a + 1 <= b; b <= c; c = a",
    "2a = 2b; b = a + 1",
    "2a = 3b; a = 3c; b = 2c + 1",
];

#[test]
fn proved_and_not_proved(rt: HostRuntime) {
    let alloc = rt.alloc();
    for (said, yes, no) in ROWS {
        let pure = facts(alloc, said).expect(&rt, "memory");
        assert!(rt; !pure.absurd(), "{said}");
        assert!(rt; all(alloc, &pure, yes, true), "{said}: {yes}");
        assert!(rt; all(alloc, &pure, no, false), "{said}: {no}");
    }
}

#[test]
fn absurd(rt: HostRuntime) {
    for said in ABSURD {
        let pure = facts(rt.alloc(), said).expect(&rt, "memory");
        assert!(rt; pure.absurd(), "{said}");
    }
}
